// The first packet that is due is handed on.
ghost use Rattle.std.specs.Prelude.{◌≡◌, ℕ, ◌+◌, ◌<◌, true, false, length, take, IfSome, IfNone, None};
ghost use Rattle.due_queue.specs.Queues.{NoneDue, NotAfter};
ghost use Rattle.mix_shard.specs.Items.{whens};
ghost use Rattle.node_core.specs.Inside.{HasFound};
ghost use Rattle.node_core.specs.Nodes.{AreShardsOf, all_held};
ghost use Rattle.node_core.specs.Steps.{SendsItem};

use super::Node;
use due_queue::Next;
use mix_base::Suite;
use mix_shard::{Held, Shard};
use replay_disk::CrashRack;

impl<R: CrashRack, S: Suite> Node<R, S> {
    /// Takes, over all shards, the held packet that is due first at the moment, by its due moment and then its number; None
    /// exactly where none is due, and then nothing changes. The moment is in milliseconds. Takes no memory.
    pub fn send(&mut self, moment: u64) -> Option<Held<S>>
        ensures sent { IfSome result (λ item.
            SendsItem R.tells S.meaning moment item self.old self.new) }
        ensures none { IfNone result (NoneDue whens None moment (all_held self.old.shards)) }
        ensures unchanged { IfNone result (self.new ≡ self.old) }
        ensures kept { AreShardsOf R.tells S.meaning self.new.setup self.new.shards }
        ensures setup { self.new.setup ≡ self.old.setup }
        ensures next { self.new.next ≡ self.old.next }
    {
        let Some((place, next)) = first_due(self.shards.as_slice(), moment) else {
            return None;
        };
        self.shards[place].take_due(0, &next.dest, moment)
    }
}

/// The place of the shard that holds what is due first of all at the moment, and what is said of that.
fn first_due<R: CrashRack, S: Suite>(shards: &[Shard<R, S>], moment: u64) -> Option<(usize, Next)>
    ensures { HasFound moment shards.now (all_held shards.now) result }
{
    let mut first = None;
    for place in 0..shards.len() {
        first = earlier_due(shards, moment, first, place);
    }
    first
}

/// What is due first in the shards up to a place, from what is in those before it.
fn earlier_due<R: CrashRack, S: Suite>(
    shards: &[Shard<R, S>],
    moment: u64,
    first: Option<(usize, Next)>,
    place: usize,
) -> Option<(usize, Next)>
    requires there { place < length shards.now }
    requires so_far { HasFound moment shards.now (all_held (take place shards.now)) first }
    ensures { HasFound moment shards.now (all_held (take (place + 1) shards.now)) result }
{
    let Some(next) = shards[place].next_due(moment) else {
        return first;
    };
    let Some((_, other)) = first else {
        return Some((place, next));
    };
    if precedes(&other, &next) {
        first
    } else {
        Some((place, next))
    }
}

/// Whether the first comes before the second, or both have the same place.
fn precedes(first: &Next, second: &Next) -> bool
    ensures yes { result ≡ true → NotAfter first.now second.now }
    ensures no { result ≡ false → NotAfter second.now first.now }
{
    first.due < second.due || (first.due == second.due && first.number <= second.number)
}
