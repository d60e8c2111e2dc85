// A worker claims the tag of the packet that it holds.
ghost use Rattle.std.specs.Prelude.{◌≡◌, ℕ, ◌<◌, ◌≤◌, None, slice_index_or, slice_set};
ghost use Rattle.node_core.specs.Nodes.{AreShardsOf};
ghost use Rattle.node_core.specs.Steps.{ClaimsFor, claimed_by, place_of, worker_at};

use super::Node;
use crate::answers::Claimed;
use crate::setup::NodeSetup;
use mix_base::Suite;
use mix_shard::{Denied, Held};
use replay_disk::CrashRack;
use std::alloc::Global;

impl<R: CrashRack, S: Suite> Node<R, S> {
    /// The worker claims the tag of the packet that it holds, at the shard that the tag's first byte gives, modulo the
    /// number of shards; `Empty` exactly where it holds nothing. It holds nothing afterwards. A refusal names that shard.
    pub fn claim(&mut self, alloc: Global, worker: u8) -> Claimed
        requires { worker < 4 }
        ensures claims { let held = worker_at self.old worker in
            ClaimsFor R.tells S.meaning worker held result self.old self.new }
        ensures kept { AreShardsOf R.tells S.meaning self.new.setup self.new.shards }
        ensures setup { self.new.setup ≡ self.old.setup }
        ensures next { self.new.next ≡ self.old.next }
    {
        let Some(held) = take_from(&mut self.workers, worker) else {
            return Claimed::Empty;
        };
        let number = held.number();
        let shard = place_for(&self.setup, held.tag());
        claimed(
            number,
            shard,
            self.shards[shard as usize].admit(alloc, 0, held),
        )
    }
}

/// The place of the shard that a tag belongs to.
fn place_for(setup: &NodeSetup, tag: &[u8; 32]) -> u8
    requires { 1 ≤ setup.now.shards }
    ensures value { result ≡ place_of setup.now tag.now }
    ensures below { result < setup.now.shards }
{
    tag[0] % setup.shards
}

/// What a worker holds; it holds nothing afterwards.
fn take_from<S: Suite>(workers: &mut [Option<Held<S>>; 4], worker: u8) -> Option<Held<S>>
    requires { worker < 4 }
    ensures taken { result ≡ slice_index_or workers.old worker None }
    ensures left { workers.new ≡ slice_set workers.old worker None }
{
    workers[worker as usize].take()
}

/// The answer of the shard of this place, as the node's.
fn claimed(number: u64, shard: u8, answer: Result<(), Denied>) -> Claimed
    ensures { result ≡ claimed_by number shard answer }
{
    match answer {
        Ok(()) => Claimed::Accepted { number },
        Err(why) => Claimed::Denied { number, shard, why },
    }
}
