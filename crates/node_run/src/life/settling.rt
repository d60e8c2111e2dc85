// The queues between listeners and workers once all have ended. Nothing is done to them: it is learned, for contracts
// alone, that each worker has popped all that the listeners pushed to it.
ghost use Rattle.std.specs.Prelude.{◌≡◌, ℕ, length};
ghost use Rattle.node_run.specs.Settlings.{AreAllPopped, AreReceiversOf, AreSendersOf, AreSettledBelow, CanSettle, HaveEnded, KnowAll, TakeIn};

use node_actors::{PacketQueue, Receiver, Sender};

// Each receiver takes the sender of its queue in.
fn take_in(queues: &[PacketQueue], receivers: &mut Vec<Receiver>, mut senders: Vec<Sender>)
    requires receivers { AreReceiversOf queues.now receivers.old.items }
    requires senders { (k : ℕ) × AreSendersOf queues.now k senders.items }
    ensures { TakeIn senders.items receivers.old.items receivers.new.items }
{
    while let Some(sender) = senders.pop() {
        let at = senders.len();
        queues[at].take_in(&mut receivers[at], sender);
    }
}

// Each receiver takes all senders of its queue in; there is a list of them for each listener.
fn take_all_in(queues: &[PacketQueue], receivers: &mut Vec<Receiver>, senders: Vec<Vec<Sender>>)
    requires { CanSettle queues.now receivers.old.items senders.items }
    ensures { KnowAll senders.items receivers.old.items receivers.new.items }
{
    for of_one in senders {
        take_in(queues, receivers, of_one);
    }
}

// Each receiver learns that it has popped all.
fn settle_each(queues: &[PacketQueue], receivers: &mut Vec<Receiver>)
    requires own { AreReceiversOf queues.now receivers.old.items }
    requires ended { HaveEnded receivers.old.items }
    ensures same { receivers.new.items ≡ receivers.old.items }
    ensures settled { AreSettledBelow (length queues.now) receivers.new.items }
{
    for at in 0..queues.len() {
        queues[at].settle(&mut receivers[at]);
    }
}

/// Each receiver has popped all that was pushed to its queue.
pub(crate) fn settle_all(
    queues: &[PacketQueue],
    mut receivers: Vec<Receiver>,
    senders: Vec<Vec<Sender>>,
)
    requires { CanSettle queues.now receivers.items senders.items }
    ensures { AreAllPopped receivers.items senders.items }
{
    take_all_in(queues, &mut receivers, senders);
    settle_each(queues, &mut receivers);
}
