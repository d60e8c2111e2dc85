// One shard of a node is made ready, rotated or armed.
ghost use Rattle.std.specs.Prelude.{◌≡◌, ℕ, ◌^◌, ◌<◌};
ghost use Rattle.node_core.specs.Nodes.{AreShardsOf, AtShard};
ghost use Rattle.node_core.specs.Steps.{Arms, Readies, Retires};

use super::Node;
use mix_base::Suite;
use mix_shard::RotateFault;
use replay_disk::CrashRack;
use spent_store::{Book, OpenStore};
use std::alloc::Global;

impl<R: CrashRack, S: Suite> Node<R, S> {
    /// Makes the shard's journal ready: opens it where it isn't sound, and says what its book comes to. Asks a shard below
    /// the number of shards.
    pub fn ready(&mut self, alloc: Global, shard: u8) -> Result<Book, OpenStore>
        requires { shard < self.old.setup.shards }
        ensures readies { AtShard (Readies R.tells S.meaning result) shard self.old self.new }
        ensures kept { AreShardsOf R.tells S.meaning self.new.setup self.new.shards }
        ensures setup { self.new.setup ≡ self.old.setup }
        ensures next { self.new.next ≡ self.old.next }
    {
        self.shards[shard as usize].ready(alloc, 0)
    }

    /// Retires the shard's epochs below the least that is live at the moment, which is below 2^60, in milliseconds. The
    /// journal is made ready first. Asks a shard below the number of shards.
    pub fn rotate(&mut self, alloc: Global, shard: u8, moment: u64) -> Result<(), RotateFault>
        requires shard { shard < self.old.setup.shards }
        requires moment { moment < 2 ^ 60 }
        ensures retires { AtShard
            (Retires R.tells S.meaning moment result) shard self.old self.new }
        ensures kept { AreShardsOf R.tells S.meaning self.new.setup self.new.shards }
        ensures setup { self.new.setup ≡ self.old.setup }
        ensures next { self.new.next ≡ self.old.next }
    {
        self.shards[shard as usize].rotate(alloc, 0, moment)
    }

    /// Arms the shard's rack: the call of this number, counted from now from 1, and all after it fail until the next crash.
    /// Asks a shard below the number of shards, and at least 1.
    pub fn arm(&mut self, shard: u8, calls: u64)
        requires shard { shard < self.old.setup.shards }
        requires calls { 0 < calls }
        ensures arms { AtShard (Arms calls) shard self.old self.new }
        ensures kept { AreShardsOf R.tells S.meaning self.new.setup self.new.shards }
        ensures setup { self.new.setup ≡ self.old.setup }
        ensures next { self.new.next ≡ self.old.next }
    {
        self.shards[shard as usize].arm(calls);
    }
}
