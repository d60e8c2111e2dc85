// A script's events at a node: each is one act of the node or some, and each act's line is written before the next.
ghost use Rattle.std.specs.Prelude.{◌≡◌, ◌<◌, ◌^◌, ◌-◌, [], ◌∷◌, IsErrOf};
ghost use Rattle.lab_text.specs.Events.{IsEventInRange};
ghost use Rattle.node_core.specs.Nodes.{AreShardsOf};
ghost use Rattle.mix_top.specs.Acts.{acts_of, of_each};
ghost use Rattle.mix_top.specs.Progress.{GoesOn, IsRoundInRange, IsServed, Serves, SinkGoesOn, act_at};

mod acts;
mod lines;

use crate::receiving::Receiver;
use acts::{claim, open, peel, receive, reopen, rotate, send};
use lab_text::{Event, Status};
use mix_base::Suite;
use node_core::{Node, NodeSetup};
use replay_disk::CrashRack;
use std::alloc::Global;

/// What is done at each shard in order.
#[derive(Clone, Copy)]
pub enum Round {
    /// The journal is opened, at the node line.
    Open,
    /// It is opened again, after a crash.
    Reopen,
    /// The epochs below the least that is live at a moment are retired.
    Rotate { moment: u64 },
}

/// One event of the script.
pub fn serve<C: CrashRack, S: Suite, R: Receiver>(
    alloc: Global,
    setup: &NodeSetup,
    node: &mut Node<C, S>,
    receiver: &mut R,
    event: Event,
) -> Result<(), Status>
    requires setup { node.old.setup ≡ setup.now }
    requires kept { AreShardsOf C.tells S.meaning node.old.setup node.old.shards }
    requires served { IsServed setup.now S.K.CT }
    requires in_range { IsEventInRange setup.now.shards event }
    requires room { node.old.next < 2 ^ 64 - 1 }
    ensures serves { Serves C.tells S.meaning (acts_of setup.now.shards event) result
        node.old node.new (R.took receiver.old receiver.new)
        (R.took_front receiver.old receiver.new) }
    ensures goes_on { GoesOn C.tells S.meaning 1 node.old node.new }
    ensures receiver { SinkGoesOn result (R.failures receiver.old) (R.failures receiver.new) }
{
    match event {
        Event::Recv { moment, packet } => receive(node, receiver, moment, packet),
        Event::Peel { worker } => peel(alloc, node, receiver, worker),
        Event::Claim { worker } => claim(alloc, setup, node, receiver, worker),
        Event::Send { moment } => send(alloc, node, receiver, moment),
        Event::Rotate { moment } => go_round(
            alloc,
            setup,
            node,
            receiver,
            Round::Rotate { moment },
        ),
        Event::Arm { shard, calls } => {
            node.arm(shard, calls);
            Ok(())
        }
        Event::Crash { pick } => {
            node.crash(pick);
            go_round(alloc, setup, node, receiver, Round::Reopen)
        }
        Event::Skip => Ok(()),
    }
}

/// A round of all shards, in their order.
pub fn go_round<C: CrashRack, S: Suite, R: Receiver>(
    alloc: Global,
    setup: &NodeSetup,
    node: &mut Node<C, S>,
    receiver: &mut R,
    round: Round,
) -> Result<(), Status>
    requires setup { node.old.setup ≡ setup.now }
    requires kept { AreShardsOf C.tells S.meaning node.old.setup node.old.shards }
    requires in_range { IsRoundInRange round }
    ensures serves { Serves C.tells S.meaning (of_each (act_at round) 0 setup.now.shards) result
        node.old node.new (R.took receiver.old receiver.new)
        (R.took_front receiver.old receiver.new) }
    ensures goes_on { GoesOn C.tells S.meaning 0 node.old node.new }
    ensures receiver { SinkGoesOn result (R.failures receiver.old) (R.failures receiver.new) }
{
    for shard in 0..setup.shards {
        visit(alloc, setup, node, receiver, round, shard)?;
    }
    Ok(())
}

/// One shard of a round.
fn visit<C: CrashRack, S: Suite, R: Receiver>(
    alloc: Global,
    setup: &NodeSetup,
    node: &mut Node<C, S>,
    receiver: &mut R,
    round: Round,
    shard: u8,
) -> Result<(), Status>
    requires setup { node.old.setup ≡ setup.now }
    requires in_range { IsRoundInRange round }
    requires shard { shard < setup.now.shards }
    ensures serves { Serves C.tells S.meaning (act_at round shard ∷ []) result
        node.old node.new (R.took receiver.old receiver.new)
        (R.took_front receiver.old receiver.new) }
    ensures goes_on { GoesOn C.tells S.meaning 0 node.old node.new }
    ensures receiver { SinkGoesOn result (R.failures receiver.old) (R.failures receiver.new) }
{
    match round {
        Round::Open => open(alloc, setup, node, receiver, shard),
        Round::Reopen => reopen(alloc, setup, node, receiver, shard),
        Round::Rotate { moment } => rotate(alloc, setup, node, receiver, moment, shard),
    }
}
