// `storm`: a node under load by words alone. Its packets are made one after the other while it runs, and of its report only
// the counts are kept.
ghost use Rattle.std.specs.Prelude.{◌≡◌, ◌≤◌, length, map, IsErrOf};
ghost use Rattle.mix_base.specs.Faults.{Rose};
ghost use Rattle.lab_text.specs.NodeLines.{IsNodeInRange};
ghost use Rattle.mix_tools.specs.Suites.{meaning_for, scheme_for};
ghost use Rattle.mix_top.specs.Program.{setup_of};
ghost use Rattle.mix_top.specs.Progress.{IsServed};
ghost use Rattle.mix_top.specs.Storm.{storm_line};
ghost use Rattle.mix_top.specs.StormHeadline.{AnswersStorm};
ghost use Rattle.mix_top.specs.Storming.{AreSealing, GaveSummary, IsStormInRange, IsStormNode};
ghost use Rattle.mix_top.specs.Storming.{StormDriven, status_of_put};

mod packets;
mod running;
mod tally;
mod words;

use crate::bench::{give_back, take_racks};
use crate::reading::setup_by;
use crate::receiving::Receiver;
use lab_text::{NodeLine, Status};
use mix_base::{Memory, PutFault, Sink, Suite};
use node_core::{Node, NodeSetup};
use ntru_prime::NtruSuite;
use prim_std::LabSuite;
use replay_disk::CrashRack;
use running::run_storm;
use std::alloc::Global;
use tally::Tally;
pub use words::{Storm, read_storm};

/// Drives a node over the first four of these disks with a storm, and gives the summary of its report to the sink. Asks 16
/// disks.
pub fn storm<C: CrashRack, O: Sink>(
    alloc: Global,
    storm: &Storm,
    sink: &mut O,
    lab: &mut Vec<C>,
) -> Status
    requires count { 16 ≤ length lab.old.items }
    requires in_range { IsStormInRange storm.now }
    ensures answered { AnswersStorm C.tells storm.now result (O.given sink.old) (O.given sink.new)
        (map C.state lab.old.items) (map C.state lab.new.items) }
    ensures lab { length lab.new.items ≡ length lab.old.items }
    ensures write_fault { result ≡ Status.WriteFault →
        Rose (O.faults sink.old) (O.faults sink.new) }
    ensures sink_faults { O.faults sink.old ≤ O.faults sink.new }
{
    let node = node_line(storm);
    let Some(racks) = take_racks(alloc, lab, node.shards) else {
        return Status::Memory;
    };
    let mut tally = Tally::new();
    let (racks, ran) = storm_by(alloc, &node, storm.count, racks, &mut tally);
    give_back(lab, racks);
    match ran {
        Ok(()) => put_status(give_summary(alloc, sink, storm.count, &tally)),
        Err(status) => status,
    }
}

/// Gives the summary of a storm of so many packets.
fn give_summary<O: Sink>(
    alloc: Global,
    sink: &mut O,
    count: u64,
    tally: &Tally,
) -> Result<(), PutFault>
    ensures gave { GaveSummary count tally.now result (O.given sink.old) (O.given sink.new) }
    ensures fault { IsErrOf result PutFault.WriteFault →
        Rose (O.faults sink.old) (O.faults sink.new) }
    ensures faults { O.faults sink.old ≤ O.faults sink.new }
{
    match tally.summary(alloc, count) {
        Ok(text) => sink.put(alloc, text.as_bytes()),
        Err(Memory) => Err(PutFault::Memory),
    }
}

/// What a put comes to at the end of a run.
pub fn put_status(put: Result<(), PutFault>) -> Status
    ensures { result ≡ status_of_put put }
{
    match put {
        Ok(()) => Status::Done,
        Err(PutFault::WriteFault) => Status::WriteFault,
        Err(PutFault::Memory) => Status::Memory,
    }
}

/// The line that would set up the node of a storm.
fn node_line(storm: &Storm) -> NodeLine
    ensures line { result ≡ storm_line storm.now }
    ensures in_range { IsNodeInRange result }
    ensures node { IsStormNode (setup_of result) }
{
    NodeLine {
        ntru: storm.ntru,
        hops: 5,
        body: if storm.ntru { 2000 } else { 64 },
        shards: 4,
        epoch: 1_200_000,
        grace: 120_000,
        seed: storm.seed,
    }
}

/// The events of a storm at the node of this line over these disks, in its suite.
fn storm_by<C: CrashRack>(
    alloc: Global,
    node: &NodeLine,
    count: u64,
    racks: Vec<C>,
    tally: &mut Tally,
) -> (Vec<C>, Result<(), Status>)
    requires in_range { IsNodeInRange node.now }
    requires storm { IsStormNode (setup_of node.now) }
    requires count { count ≤ 100000 }
    requires racks { length racks.items ≡ node.now.shards }
    ensures served { IsServed (setup_of node.now) (scheme_for node.now.ntru).ciphertext }
    ensures drove { StormDriven C.tells (meaning_for node.now.ntru) (setup_of node.now) count
        result.1 (map C.state racks.items) (map C.state result.0.items)
        (⟦<Tally as Receiver>⟧.took tally.old tally.new) }
    ensures count { length result.0.items ≡ length racks.items }
{
    let setup = setup_by(node);
    if node.ntru {
        storm_over::<C, NtruSuite>(alloc, setup, count, racks, tally)
    } else {
        storm_over::<C, LabSuite>(alloc, setup, count, racks, tally)
    }
}

/// The events of a storm at a node over these disks, which come back in their order.
fn storm_over<C: CrashRack, S: Suite>(
    alloc: Global,
    setup: NodeSetup,
    count: u64,
    racks: Vec<C>,
    tally: &mut Tally,
) -> (Vec<C>, Result<(), Status>)
    requires served { IsServed setup S.K.CT }
    requires storm { IsStormNode setup }
    requires count { count ≤ 100000 }
    requires racks { length racks.items ≡ setup.shards }
    requires sealing { AreSealing S.meaning.kem }
    ensures drove { StormDriven C.tells S.meaning setup count result.1
        (map C.state racks.items) (map C.state result.0.items)
        (⟦<Tally as Receiver>⟧.took tally.old tally.new) }
    ensures count { length result.0.items ≡ length racks.items }
{
    match Node::<C, S>::new(alloc, racks, setup) {
        Ok(mut node) => {
            let ran = run_storm(alloc, count, &setup, &mut node, tally);
            (node.into_racks(), ran)
        }
        Err((racks, Memory)) => (racks, Err(Status::Memory)),
    }
}
