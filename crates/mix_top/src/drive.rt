// `drive`: a script is read line by line, a node goes through its events, and each line of the report is written before the
// next act.
ghost use Rattle.std.specs.Prelude.{◌≡◌, ◌≤◌, length, map, IsErrOf};
ghost use Rattle.mix_base.specs.Faults.{Rose};
ghost use Rattle.lab_text.specs.NodeLines.{IsNodeInRange};
ghost use Rattle.lab_text.specs.Readers.{ReachesEnd, SourceGoesOn, source_of};
ghost use Rattle.node_core.specs.Nodes.{AreShardsOf};
ghost use Rattle.mix_tools.specs.Suites.{meaning_for, scheme_for};
ghost use Rattle.mix_top.specs.Headline.{AnswersScript};
ghost use Rattle.mix_top.specs.Program.{setup_of};
ghost use Rattle.mix_top.specs.Progress.{Answered, Answers, Driven, IsKeptNode, IsServed, SinkGoesOn};
ghost use Rattle.mix_top.specs.Progress.{events_to_come, program_to_come, status_of};

use crate::bench::{give_back, take_racks};
use crate::reading::{next_event, read_first, setup_by};
use crate::serving::{Round, go_round, serve};
use lab_text::{LineReader, NodeLine, Status};
use mix_base::{Memory, Sink, Source, Suite};
use node_core::{Node, NodeSetup};
use ntru_prime::NtruSuite;
use prim_std::LabSuite;
use replay_disk::CrashRack;
use std::alloc::Global;

/// Answers a script: what is left of the source is the script, its report goes to the sink, and its node works on the first
/// of these disks. Asks 16.
pub fn drive<C: CrashRack, I: Source, O: Sink>(
    alloc: Global,
    source: &mut I,
    sink: &mut O,
    lab: &mut Vec<C>,
) -> Status
    requires { 16 ≤ length lab.old.items }
    ensures report { AnswersScript C.tells (I.left source.old) result
        (O.given sink.old) (O.given sink.new)
        (map C.state lab.old.items) (map C.state lab.new.items) }
    ensures lab { length lab.new.items ≡ length lab.old.items }
    ensures end { result ≡ Status.Done → ReachesEnd (I.left source.old) (I.left source.new) }
    ensures not_words { result ≡ Status.Words → ⊥ }
    ensures read_fault { result ≡ Status.ReadFault →
        Rose (I.faults source.old) (I.faults source.new) }
    ensures write_fault { result ≡ Status.WriteFault →
        Rose (O.faults sink.old) (O.faults sink.new) }
    ensures source_faults { I.faults source.old ≤ I.faults source.new }
    ensures sink_faults { O.faults sink.old ≤ O.faults sink.new }
{
    let mut reader = LineReader::new(alloc, source);
    let answered = answer(alloc, &mut reader, sink, lab);
    let _ = reader.into_source();
    match answered {
        Ok(()) => Status::Done,
        Err(status) => status,
    }
}

/// The whole script: the node is set up over the first of the disks, goes through its events, and gives the disks back.
fn answer<C: CrashRack, I: Source, O: Sink>(
    alloc: Global,
    reader: &mut LineReader<I>,
    sink: &mut O,
    lab: &mut Vec<C>,
) -> Result<(), Status>
    requires { 16 ≤ length lab.old.items }
    ensures answered { Answered C.tells (program_to_come reader.old) (status_of result)
        (O.given sink.old) (O.given sink.new)
        (map C.state lab.old.items) (map C.state lab.new.items) }
    ensures lab { length lab.new.items ≡ length lab.old.items }
    ensures end { status_of result ≡ Status.Done →
        ReachesEnd (I.left (source_of reader.old)) (I.left (source_of reader.new)) }
    ensures read_fault { IsErrOf result Status.ReadFault →
        Rose (I.faults (source_of reader.old)) (I.faults (source_of reader.new)) }
    ensures source { SourceGoesOn reader.old reader.new }
    ensures sink { SinkGoesOn result (O.faults sink.old) (O.faults sink.new) }
{
    let node = read_first(alloc, reader)?;
    let Some(racks) = take_racks(alloc, lab, node.shards) else {
        return Err(Status::Memory);
    };
    let (racks, answered) = answer_by(alloc, reader, sink, &node, racks);
    give_back(lab, racks);
    answered
}

/// The events of the script at a node over these disks, of the suite that its line names.
fn answer_by<C: CrashRack, I: Source, O: Sink>(
    alloc: Global,
    reader: &mut LineReader<I>,
    sink: &mut O,
    node: &NodeLine,
    racks: Vec<C>,
) -> (Vec<C>, Result<(), Status>)
    requires in_range { IsNodeInRange node.now }
    requires count { length racks.items ≡ node.now.shards }
    ensures served { IsServed (setup_of node.now) (scheme_for node.now.ntru).ciphertext }
    ensures driven { Driven C.tells (meaning_for node.now.ntru) (setup_of node.now)
        (events_to_come node.now.shards reader.old)
        (status_of result.1) (O.given sink.old) (O.given sink.new)
        (map C.state racks.items) (map C.state result.0.items) }
    ensures count { length result.0.items ≡ length racks.items }
    ensures end { status_of result.1 ≡ Status.Done →
        ReachesEnd (I.left (source_of reader.old)) (I.left (source_of reader.new)) }
    ensures read_fault { IsErrOf result.1 Status.ReadFault →
        Rose (I.faults (source_of reader.old)) (I.faults (source_of reader.new)) }
    ensures source { SourceGoesOn reader.old reader.new }
    ensures sink { SinkGoesOn result.1 (O.faults sink.old) (O.faults sink.new) }
{
    let setup = setup_by(node);
    if node.ntru {
        answer_over::<C, NtruSuite, I, O>(alloc, reader, sink, setup, racks)
    } else {
        answer_over::<C, LabSuite, I, O>(alloc, reader, sink, setup, racks)
    }
}

/// The events of the script at a node over these disks, which come back in their order.
fn answer_over<C: CrashRack, S: Suite, I: Source, O: Sink>(
    alloc: Global,
    reader: &mut LineReader<I>,
    sink: &mut O,
    setup: NodeSetup,
    racks: Vec<C>,
) -> (Vec<C>, Result<(), Status>)
    requires served { IsServed setup S.K.CT }
    requires count { length racks.items ≡ setup.shards }
    ensures driven { Driven C.tells S.meaning setup (events_to_come setup.shards reader.old)
        (status_of result.1) (O.given sink.old) (O.given sink.new)
        (map C.state racks.items) (map C.state result.0.items) }
    ensures count { length result.0.items ≡ length racks.items }
    ensures end { status_of result.1 ≡ Status.Done →
        ReachesEnd (I.left (source_of reader.old)) (I.left (source_of reader.new)) }
    ensures read_fault { IsErrOf result.1 Status.ReadFault →
        Rose (I.faults (source_of reader.old)) (I.faults (source_of reader.new)) }
    ensures source { SourceGoesOn reader.old reader.new }
    ensures sink { SinkGoesOn result.1 (O.faults sink.old) (O.faults sink.new) }
{
    match Node::<C, S>::new(alloc, racks, setup) {
        Ok(mut node) => {
            let answered = answer_events(alloc, &setup, reader, &mut node, sink);
            (node.into_racks(), answered)
        }
        Err((racks, Memory)) => (racks, Err(Status::Memory)),
    }
}

/// All events of the script, one after the other, at a new node, whose journals are opened first.
fn answer_events<C: CrashRack, S: Suite, I: Source, O: Sink>(
    alloc: Global,
    setup: &NodeSetup,
    reader: &mut LineReader<I>,
    node: &mut Node<C, S>,
    sink: &mut O,
) -> Result<(), Status>
    requires setup { node.old.setup ≡ setup.now }
    requires new { node.old.next ≡ 1 }
    requires kept { AreShardsOf C.tells S.meaning node.old.setup node.old.shards }
    requires served { IsServed setup.now S.K.CT }
    ensures answers { Answers C.tells S.meaning (events_to_come setup.now.shards reader.old)
        (status_of result) node.old node.new (O.given sink.old) (O.given sink.new) }
    ensures goes_on { IsKeptNode C.tells S.meaning node.old node.new }
    ensures end { status_of result ≡ Status.Done →
        ReachesEnd (I.left (source_of reader.old)) (I.left (source_of reader.new)) }
    ensures read_fault { IsErrOf result Status.ReadFault →
        Rose (I.faults (source_of reader.old)) (I.faults (source_of reader.new)) }
    ensures source { SourceGoesOn reader.old reader.new }
    ensures sink { SinkGoesOn result (O.faults sink.old) (O.faults sink.new) }
{
    go_round(alloc, setup, node, sink, Round::Open)?;
    'events: while let Some(event) = next_event(alloc, reader, setup.shards)? {
        serve(alloc, setup, node, sink, event)?;
    }
    Ok(())
}
