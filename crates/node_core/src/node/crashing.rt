// All racks of a node crash at once.
ghost use Rattle.std.specs.Prelude.{◌≡◌, ℕ, Some, slice_get};
ghost use Rattle.mix_shard.specs.Shards.{IsKept, ShardState};
ghost use Rattle.node_core.specs.Nodes.{AreShardsOf, AtEachShard};
ghost use Rattle.node_core.specs.Steps.{Crashes, CrashesShard};

use super::Node;
use mix_base::Suite;
use mix_shard::Shard;
use replay_disk::CrashRack;

impl<R: CrashRack, S: Suite> Node<R, S> {
    /// Every rack crashes, with this pick: each area has one of its images as contents. Nothing waits and nothing is held
    /// any more, and every journal is to be made ready. Takes no memory.
    pub fn crash(&mut self, pick: u64)
        ensures crashes { Crashes R.tells pick self.old self.new }
        ensures kept { AreShardsOf R.tells S.meaning self.new.setup self.new.shards }
        ensures setup { self.new.setup ≡ self.old.setup }
        ensures next { self.new.next ≡ self.old.next }
    {
        self.arrivals.clear();
        self.workers = [None, None, None, None];
        crash_all(self.shards.as_mut_slice(), pick);
    }
}

/// Crashes each of these shards, with this pick.
fn crash_all<R: CrashRack, S: Suite>(shards: &mut [Shard<R, S>], pick: u64)
    ensures crashed { AtEachShard (CrashesShard R.tells pick) shards.old shards.new }
    ensures kept { (index : ℕ) → (shard : ShardState) →
        slice_get shards.new index ≡ Some shard → IsKept R.tells S.meaning shard }
{
    for place in 0..shards.len() {
        shards[place].crash(pick);
    }
}
