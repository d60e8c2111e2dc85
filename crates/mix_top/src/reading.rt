// A script as it is read: the node line, and the events behind it.
ghost use Rattle.std.specs.Prelude.{◌≡◌, ◌+◌, ◌≤◌, Bool, List, IfOk, IfErr, IfSome, IfNone, IsErrOf, IsSome};
ghost use Rattle.mix_base.specs.Faults.{Rose};
ghost use Rattle.lab_text.specs.Events.{IsEventInRange};
ghost use Rattle.lab_text.specs.Lines.{ScriptLine};
ghost use Rattle.lab_text.specs.NodeLines.{IsNodeInRange, node_of};
ghost use Rattle.lab_text.specs.Outcomes.{EndsReading};
ghost use Rattle.lab_text.specs.Readers.{source_of, lines_given, ReachesEnd, SourceGoesOn};
ghost use Rattle.lab_text.specs.Script.{ends, events_from};
ghost use Rattle.mix_tools.specs.Suites.{scheme_for};
ghost use Rattle.mix_top.specs.Program.{no_node, set_up, setup_of, with_node};
ghost use Rattle.mix_top.specs.Progress.{EndsAs, EndsEvents, IsNext, IsServed, SetsUp, events_to_come, program_to_come};

use epoch_keys::Times;
use lab_text::{Event, LineReader, NodeLine, Status, is_skipped, read_event, read_node};
use mix_base::{Kem, Source};
use node_core::NodeSetup;
use ntru_prime::NtruKem;
use prim_std::LabKem;
use std::alloc::Global;

/// How many records a log of a journal may have: 2^26.
pub const LOG_LIMIT: u64 = 1 << 26;

/// The next event in a node of so many shards, or None at the script's end.
pub fn next_event<I: Source>(
    alloc: Global,
    reader: &mut LineReader<I>,
    shards: u8,
) -> Result<Option<Event>, Status>
    ensures event { IfOk result
        (λ next. IfSome next (λ event. IsNext (lines_given reader.new, event)
        (events_to_come shards reader.old) (events_to_come shards reader.new))) }
    ensures in_range { IfOk result (λ next. IfSome next (IsEventInRange shards)) }
    ensures counted { IfOk result (λ next.
        IsSome next → lines_given reader.new ≡ lines_given reader.old + 1) }
    ensures none { IfOk result (λ next. IfNone next
        (IfSome (events_to_come shards reader.old) (λ events. EndsAs ends events Status.Done))) }
    ensures end { IfOk result (λ next. IfNone next
        (ReachesEnd (I.left (source_of reader.old)) (I.left (source_of reader.new)))) }
    ensures stops { IfErr result (λ status.
        IfSome (events_to_come shards reader.old) (λ events. EndsAs ends events status)) }
    ensures read_fault { IsErrOf result Status.ReadFault →
        Rose (I.faults (source_of reader.old)) (I.faults (source_of reader.new)) }
    ensures kind { IfErr result EndsEvents }
    ensures not_done { IsErrOf result Status.Done → ⊥ }
    ensures source { SourceGoesOn reader.old reader.new }
{
    let Some(line) = reader.next_line(alloc)? else {
        return Ok(None);
    };
    let event = read_event(alloc, line.as_slice(), reader.number(), shards)?;
    Ok(Some(event))
}

/// What the node line says, which is the first line that isn't skipped.
pub fn read_first<I: Source>(alloc: Global, reader: &mut LineReader<I>) -> Result<NodeLine, Status>
    ensures node { IfOk result (λ node.
        SetsUp node (program_to_come reader.old) (events_to_come node.shards reader.new)) }
    ensures in_range { IfOk result IsNodeInRange }
    ensures stops { IfErr result (λ status.
        IfSome (program_to_come reader.old) (λ program. EndsAs no_node program status)) }
    ensures kind { IfErr result EndsReading }
    ensures read_fault { IsErrOf result Status.ReadFault →
        Rose (I.faults (source_of reader.old)) (I.faults (source_of reader.new)) }
    ensures source { SourceGoesOn reader.old reader.new }
{
    'lines: while let Some(line) = reader.next_line(alloc)? {
        if !is_skipped(line.as_slice()) {
            return first_in(line.as_slice(), reader.number());
        }
    }
    Err(Status::Line {
        line: reader.number() + 1,
    })
}

/// What the node line says, of this number.
fn first_in(line: &[u8], number: u64) -> Result<NodeLine, Status>
    ensures node { IfOk result (λ node. (lines : List ScriptLine) →
        with_node number (node_of line.now) lines
        ≡ set_up node (events_from node.shards (number + 1) lines)) }
    ensures in_range { IfOk result IsNodeInRange }
    ensures stops { IfErr result (λ status. (lines : List ScriptLine) →
        EndsAs no_node (with_node number (node_of line.now) lines) status) }
    ensures kind { IfErr result EndsReading }
    ensures no_read { IsErrOf result Status.ReadFault → ⊥ }
{
    Ok(read_node(line, number)?)
}

/// How the node of a node line is set up.
pub fn setup_by(node: &NodeLine) -> NodeSetup
    requires in_range { IsNodeInRange node.now }
    ensures value { result ≡ setup_of node.now }
    ensures served { IsServed result (scheme_for node.now.ntru).ciphertext }
{
    let Ok(times) = Times::new(node.epoch, node.grace) else {
        unreachable!()
    };
    NodeSetup {
        geo: node.sizes().geometry(ciphertext_size(node.ntru)),
        shards: node.shards,
        times,
        seed: node.seed,
        limit: LOG_LIMIT,
    }
}

/// The bytes of a ciphertext of the suite after sntrup4591761, or of the laboratory's.
fn ciphertext_size(ntru: bool) -> usize
    ensures value { result ≡ (scheme_for ntru).ciphertext }
    ensures most { result ≤ 4096 }
{
    if ntru { NtruKem::CT } else { LabKem::CT }
}
