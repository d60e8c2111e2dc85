// The events of a storm at a node: those of each packet, made as the node comes to it, and the hand-ons at the end.
ghost use Rattle.std.specs.Prelude.{◌≡◌, ◌*◌, ◌^◌, ◌<◌, ◌≤◌, IfErr, IsErrOf, OnOk};
ghost use Rattle.node_core.specs.Nodes.{AreShardsOf};
ghost use Rattle.mix_top.specs.Acts.{Sends, of_each};
ghost use Rattle.mix_top.specs.Progress.{GoesOn, IsKeptNode, IsServed, Serves};
ghost use Rattle.mix_top.specs.Storm.{course_of, crashes_of, events_of, moment_of, rotations_of};
ghost use Rattle.mix_top.specs.Storming.{AllServed, AreSealing, IsAtFirst, IsStormNode, StormStops, Storms};
ghost use Rattle.mix_top.specs.Storming.{acts_of_events, keyless_status};

use super::packets::PacketMaker;
use super::tally::Tally;
use crate::receiving::Receiver;
use crate::serving::{Round, go_round, serve};
use epoch_keys::KeyFault;
use lab_text::{Event, Status};
use mix_base::{Bytes, Suite, Words};
use node_core::{Node, NodeSetup};
use prim_std::{ChaWords, hmac_sha256};
use replay_disk::CrashRack;
use std::alloc::Global;

/// What the words of the packets are derived for.
const LABEL: &[u8; 9] = b"mix-storm";

/// All events of a storm of so many packets, at a new node, whose journals are opened first.
pub fn run_storm<C: CrashRack, S: Suite>(
    alloc: Global,
    count: u64,
    setup: &NodeSetup,
    node: &mut Node<C, S>,
    tally: &mut Tally,
) -> Result<(), Status>
    requires setup { node.old.setup ≡ setup.now }
    requires new { node.old.next ≡ 1 }
    requires kept { AreShardsOf C.tells S.meaning node.old.setup node.old.shards }
    requires served { IsServed setup.now S.K.CT }
    requires storm { IsStormNode setup.now }
    requires sealing { AreSealing S.meaning.kem }
    requires count { count ≤ 100000 }
    ensures storms { Storms C.tells S.meaning setup.now (course_of S.meaning setup.now count) result
        node.old node.new (⟦<Tally as Receiver>⟧.took tally.old tally.new) }
    ensures goes_on { IsKeptNode C.tells S.meaning node.old node.new }
{
    let words = ChaWords::new(&hmac_sha256(&setup.seed, LABEL));
    let mut maker = PacketMaker::new(words);
    serve_packets(alloc, count, setup, node, tally, &mut maker)?;
    send_rest(alloc, setup, node, tally, count)
}

/// The events of all packets, one after the other, once the journals are opened.
fn serve_packets<C: CrashRack, S: Suite, W: Words>(
    alloc: Global,
    count: u64,
    setup: &NodeSetup,
    node: &mut Node<C, S>,
    tally: &mut Tally,
    maker: &mut PacketMaker<S, W>,
) -> Result<(), Status>
    requires maker { IsAtFirst setup.now.seed (W.to_come maker.old.words) maker.old.last }
    requires setup { node.old.setup ≡ setup.now }
    requires new { node.old.next ≡ 1 }
    requires kept { AreShardsOf C.tells S.meaning node.old.setup node.old.shards }
    requires served { IsServed setup.now S.K.CT }
    requires storm { IsStormNode setup.now }
    requires sealing { AreSealing S.meaning.kem }
    requires count { count ≤ 100000 }
    ensures served { OnOk result (AllServed C.tells S.meaning setup.now count
        node.old node.new (⟦<Tally as Receiver>⟧.took tally.old tally.new)) }
    ensures stops { IfErr result (λ status. StormStops C.tells S.meaning setup.now
        (course_of S.meaning setup.now count) status node.old node.new) }
    ensures goes_on { GoesOn C.tells S.meaning (5 * count) node.old node.new }
{
    go_round(alloc, setup, node, tally, Round::Open)?;
    'packets: for number in 0..count {
        match maker.next_packet(alloc, setup, number) {
            Ok(packet) => serve_packet(alloc, setup, node, tally, number, packet)?,
            Err(fault) => return Err(key_status(fault)),
        }
    }
    Ok(())
}

/// The events of one packet.
fn serve_packet<C: CrashRack, S: Suite>(
    alloc: Global,
    setup: &NodeSetup,
    node: &mut Node<C, S>,
    tally: &mut Tally,
    number: u64,
    packet: Bytes,
) -> Result<(), Status>
    requires setup { node.old.setup ≡ setup.now }
    requires kept { AreShardsOf C.tells S.meaning node.old.setup node.old.shards }
    requires served { IsServed setup.now S.K.CT }
    requires number { number < 2 ^ 20 }
    requires room { node.old.next ≤ 2 ^ 20 }
    ensures serves { Serves C.tells S.meaning
        (acts_of_events setup.now.shards (events_of number packet)) result
        node.old node.new (⟦<Tally as Receiver>⟧.took tally.old tally.new)
        (⟦<Tally as Receiver>⟧.took_front tally.old tally.new) }
    ensures never_writes { IsErrOf result Status.WriteFault → ⊥ }
    ensures goes_on { GoesOn C.tells S.meaning 5 node.old node.new }
{
    let moment = 1000 * number;
    let worker = (number % 4) as u8;
    serve(alloc, setup, node, tally, Event::Recv { moment, packet })?;
    serve(alloc, setup, node, tally, Event::Peel { worker })?;
    serve(alloc, setup, node, tally, Event::Claim { worker })?;
    serve(alloc, setup, node, tally, Event::Send { moment })?;
    rotate_behind(alloc, setup, node, tally, number)?;
    crash_behind(alloc, setup, node, tally, number)
}

/// The rotation behind each thousandth packet.
fn rotate_behind<C: CrashRack, S: Suite>(
    alloc: Global,
    setup: &NodeSetup,
    node: &mut Node<C, S>,
    tally: &mut Tally,
    number: u64,
) -> Result<(), Status>
    requires setup { node.old.setup ≡ setup.now }
    requires kept { AreShardsOf C.tells S.meaning node.old.setup node.old.shards }
    requires served { IsServed setup.now S.K.CT }
    requires number { number < 2 ^ 20 }
    requires room { node.old.next ≤ 2 ^ 21 }
    ensures serves { Serves C.tells S.meaning
        (acts_of_events setup.now.shards (rotations_of number)) result
        node.old node.new (⟦<Tally as Receiver>⟧.took tally.old tally.new)
        (⟦<Tally as Receiver>⟧.took_front tally.old tally.new) }
    ensures never_writes { IsErrOf result Status.WriteFault → ⊥ }
    ensures goes_on { GoesOn C.tells S.meaning 0 node.old node.new }
{
    if number % 1000 == 999 {
        let moment = 1000 * number;
        return go_round(alloc, setup, node, tally, Round::Rotate { moment });
    }
    Ok(())
}

/// The crash behind each five-thousandth packet.
fn crash_behind<C: CrashRack, S: Suite>(
    alloc: Global,
    setup: &NodeSetup,
    node: &mut Node<C, S>,
    tally: &mut Tally,
    number: u64,
) -> Result<(), Status>
    requires setup { node.old.setup ≡ setup.now }
    requires kept { AreShardsOf C.tells S.meaning node.old.setup node.old.shards }
    requires served { IsServed setup.now S.K.CT }
    requires room { node.old.next ≤ 2 ^ 21 }
    ensures serves { Serves C.tells S.meaning
        (acts_of_events setup.now.shards (crashes_of number)) result
        node.old node.new (⟦<Tally as Receiver>⟧.took tally.old tally.new)
        (⟦<Tally as Receiver>⟧.took_front tally.old tally.new) }
    ensures never_writes { IsErrOf result Status.WriteFault → ⊥ }
    ensures goes_on { GoesOn C.tells S.meaning 1 node.old node.new }
{
    if number % 5000 == 4999 {
        return serve(alloc, setup, node, tally, Event::Crash { pick: 0 });
    }
    Ok(())
}

/// A hand-on for each packet, at the end.
fn send_rest<C: CrashRack, S: Suite>(
    alloc: Global,
    setup: &NodeSetup,
    node: &mut Node<C, S>,
    tally: &mut Tally,
    count: u64,
) -> Result<(), Status>
    requires setup { node.old.setup ≡ setup.now }
    requires kept { AreShardsOf C.tells S.meaning node.old.setup node.old.shards }
    requires served { IsServed setup.now S.K.CT }
    requires count { count ≤ 100000 }
    requires room { node.old.next ≤ 2 ^ 20 }
    ensures serves { Serves C.tells S.meaning
        (of_each (λ place. Sends (moment_of count)) 0 count) result
        node.old node.new (⟦<Tally as Receiver>⟧.took tally.old tally.new)
        (⟦<Tally as Receiver>⟧.took_front tally.old tally.new) }
    ensures never_writes { IsErrOf result Status.WriteFault → ⊥ }
    ensures goes_on { IsKeptNode C.tells S.meaning node.old node.new }
{
    let moment = 1000 * count;
    'sends: for _place in 0..count {
        serve(alloc, setup, node, tally, Event::Send { moment })?;
    }
    Ok(())
}

/// How a packet whose epoch has no key pair ends a storm; or want of memory.
fn key_status(fault: KeyFault) -> Status
    ensures { result ≡ keyless_status fault }
{
    match fault {
        KeyFault::NoKey { epoch } => Status::NoKey { epoch },
        KeyFault::Memory => Status::Memory,
    }
}
