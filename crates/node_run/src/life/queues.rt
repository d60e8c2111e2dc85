// The queues of a node's workers, and each listener's senders to them.
ghost use Rattle.std.specs.Prelude.{◌≡◌, ◌+◌, ◌^◌, ◌<◌, length, IfOk};
ghost use Rattle.node_run.specs.Posts.{AreNewSenders, AreReceivers};

use mix_base::Memory;
use node_actors::{PacketQueue, Receiver, Sender};
use std::alloc::Global;

/// A queue for each of so many workers, and the receiver of each.
pub(crate) fn open_queues(
    alloc: Global,
    workers: u32,
) -> Result<(Vec<PacketQueue>, Vec<Receiver>), Memory>
    ensures many { IfOk result (λ made. length made.0.items ≡ workers) }
    ensures receivers { IfOk result (λ made. AreReceivers 0 made.0.items made.1.items) }
{
    let mut queues = Vec::new(alloc);
    let mut receivers = Vec::new(alloc);
    'opening: for _ in 0..workers {
        let (queue, receiver) = PacketQueue::new(alloc)?;
        queues.push(queue)?;
        receivers.push(receiver)?;
    }
    Ok((queues, receivers))
}

/// A new sender to each queue, for the listener of this place: each listener before it has its senders.
pub(crate) fn senders_to(
    alloc: Global,
    queues: &[PacketQueue],
    receivers: &mut Vec<Receiver>,
    place: u32,
) -> Result<Vec<Sender>, Memory>
    requires { AreReceivers place queues.now receivers.old.items }
    ensures senders { IfOk result (λ senders. AreNewSenders place queues.now senders.items) }
    ensures receivers { IfOk result (λ _.
        AreReceivers (place + 1) queues.now receivers.new.items) }
{
    let mut senders = Vec::new(alloc);
    for worker in 0..queues.len() {
        let sender = queues[worker].sender(&mut receivers[worker]);
        senders.push(sender)?;
    }
    Ok(senders)
}
