// One act at a node, with its line. An act that ends the run gives no line.
ghost use Rattle.std.specs.Prelude.{◌≡◌, ◌<◌, ◌^◌, ◌-◌, [], ◌∷◌};
ghost use Rattle.mix_top.specs.Acts.{Claims, Opens, Peels, Receives, Reopens, Rotates, Sends};
ghost use Rattle.mix_top.specs.Progress.{GoesOn, Serves, SinkGoesOn};

use super::lines::{claim_line, opened_line, peel_line, peel_status, reopened_line, rotation_line};
use crate::receiving::{Receiver, take_maybe};
use crate::report::ReportLine;
use lab_text::Status;
use mix_base::{Bytes, Memory, Suite};
use node_core::{Node, NodeSetup};
use replay_disk::CrashRack;
use std::alloc::Global;

/// A shard's journal is opened, at the node line.
pub fn open<C: CrashRack, S: Suite, R: Receiver>(
    alloc: Global,
    setup: &NodeSetup,
    node: &mut Node<C, S>,
    receiver: &mut R,
    shard: u8,
) -> Result<(), Status>
    requires setup { node.old.setup ≡ setup.now }
    requires shard { shard < setup.now.shards }
    ensures serves { Serves C.tells S.meaning (Opens shard ∷ []) result
        node.old node.new (R.took receiver.old receiver.new)
        (R.took_front receiver.old receiver.new) }
    ensures goes_on { GoesOn C.tells S.meaning 0 node.old node.new }
    ensures receiver { SinkGoesOn result (R.failures receiver.old) (R.failures receiver.new) }
{
    let line = opened_line(setup, shard, node.ready(alloc, shard))?;
    take_maybe(alloc, receiver, line)?;
    Ok(())
}

/// A shard's journal is opened again, after a crash.
pub fn reopen<C: CrashRack, S: Suite, R: Receiver>(
    alloc: Global,
    setup: &NodeSetup,
    node: &mut Node<C, S>,
    receiver: &mut R,
    shard: u8,
) -> Result<(), Status>
    requires setup { node.old.setup ≡ setup.now }
    requires shard { shard < setup.now.shards }
    ensures serves { Serves C.tells S.meaning (Reopens shard ∷ []) result
        node.old node.new (R.took receiver.old receiver.new)
        (R.took_front receiver.old receiver.new) }
    ensures goes_on { GoesOn C.tells S.meaning 0 node.old node.new }
    ensures receiver { SinkGoesOn result (R.failures receiver.old) (R.failures receiver.new) }
{
    let line = reopened_line(setup, shard, node.ready(alloc, shard))?;
    take_maybe(alloc, receiver, line)?;
    Ok(())
}

/// A packet arrives.
pub fn receive<C: CrashRack, S: Suite, R: Receiver>(
    node: &mut Node<C, S>,
    receiver: &mut R,
    moment: u64,
    packet: Bytes,
) -> Result<(), Status>
    requires room { node.old.next < 2 ^ 64 - 1 }
    requires moment { moment < 2 ^ 60 }
    ensures serves { Serves C.tells S.meaning (Receives moment packet ∷ []) result
        node.old node.new (R.took receiver.old receiver.new)
        (R.took_front receiver.old receiver.new) }
    ensures goes_on { GoesOn C.tells S.meaning 1 node.old node.new }
    ensures receiver { SinkGoesOn result (R.failures receiver.old) (R.failures receiver.new) }
{
    match node.recv(moment, packet.into_vec()) {
        Ok(()) => Ok(()),
        Err(Memory) => Err(Status::Memory),
    }
}

/// A worker unwraps the oldest arrival.
pub fn peel<C: CrashRack, S: Suite, R: Receiver>(
    alloc: Global,
    node: &mut Node<C, S>,
    receiver: &mut R,
    worker: u8,
) -> Result<(), Status>
    requires worker { worker < 4 }
    requires ciphertext { node.old.setup.geo.ct ≡ S.K.CT }
    ensures serves { Serves C.tells S.meaning (Peels worker ∷ []) result
        node.old node.new (R.took receiver.old receiver.new)
        (R.took_front receiver.old receiver.new) }
    ensures goes_on { GoesOn C.tells S.meaning 0 node.old node.new }
    ensures receiver { SinkGoesOn result (R.failures receiver.old) (R.failures receiver.new) }
{
    match node.peel(alloc, worker) {
        Ok(answer) => {
            take_maybe(alloc, receiver, peel_line(worker, answer))?;
            Ok(())
        }
        Err(fault) => Err(peel_status(fault)),
    }
}

/// A worker claims the tag of the packet that it holds.
pub fn claim<C: CrashRack, S: Suite, R: Receiver>(
    alloc: Global,
    setup: &NodeSetup,
    node: &mut Node<C, S>,
    receiver: &mut R,
    worker: u8,
) -> Result<(), Status>
    requires setup { node.old.setup ≡ setup.now }
    requires worker { worker < 4 }
    ensures serves { Serves C.tells S.meaning (Claims worker ∷ []) result
        node.old node.new (R.took receiver.old receiver.new)
        (R.took_front receiver.old receiver.new) }
    ensures goes_on { GoesOn C.tells S.meaning 0 node.old node.new }
    ensures receiver { SinkGoesOn result (R.failures receiver.old) (R.failures receiver.new) }
{
    let line = claim_line(setup, worker, node.claim(alloc, worker))?;
    take_maybe(alloc, receiver, line)?;
    Ok(())
}

/// The first packet that is due at a moment is handed on.
pub fn send<C: CrashRack, S: Suite, R: Receiver>(
    alloc: Global,
    node: &mut Node<C, S>,
    receiver: &mut R,
    moment: u64,
) -> Result<(), Status>
    ensures serves { Serves C.tells S.meaning (Sends moment ∷ []) result
        node.old node.new (R.took receiver.old receiver.new)
        (R.took_front receiver.old receiver.new) }
    ensures goes_on { GoesOn C.tells S.meaning 0 node.old node.new }
    ensures receiver { SinkGoesOn result (R.failures receiver.old) (R.failures receiver.new) }
{
    match node.send(moment) {
        Some(held) => {
            receiver.take_hand_on(alloc, held.number(), held.epoch(), held.tag(), held.out())?
        }
        None => receiver.take_line(alloc, &ReportLine::NoneDue)?,
    }
    Ok(())
}

/// A shard retires the epochs below the least that is live at a moment.
pub fn rotate<C: CrashRack, S: Suite, R: Receiver>(
    alloc: Global,
    setup: &NodeSetup,
    node: &mut Node<C, S>,
    receiver: &mut R,
    moment: u64,
    shard: u8,
) -> Result<(), Status>
    requires setup { node.old.setup ≡ setup.now }
    requires moment { moment < 2 ^ 60 }
    requires shard { shard < setup.now.shards }
    ensures serves { Serves C.tells S.meaning (Rotates moment shard ∷ []) result
        node.old node.new (R.took receiver.old receiver.new)
        (R.took_front receiver.old receiver.new) }
    ensures goes_on { GoesOn C.tells S.meaning 0 node.old node.new }
    ensures receiver { SinkGoesOn result (R.failures receiver.old) (R.failures receiver.new) }
{
    let line = rotation_line(setup, shard, node.rotate(alloc, shard, moment))?;
    take_maybe(alloc, receiver, line)?;
    Ok(())
}
