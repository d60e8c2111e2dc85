// A request is read line by line, to the end of the input or to the first line that stops.
ghost use Rattle.std.specs.Prelude.{◌≡◌, ◌≤◌, IfOk, IfErr, OnOk, IfSome, IsSome, IsErrOf, Err};
ghost use Rattle.mix_base.specs.Faults.{Rose};
ghost use Rattle.lab_text.specs.Outcomes.{EndsReading, Reads};
ghost use Rattle.lab_text.specs.Readers.{source_of, ReachesEnd, SourceGoesOn};
ghost use Rattle.mix_tools.specs.Reading.{ended, request_to_come};
ghost use Rattle.mix_tools.specs.Drafts.{IsDraftInRange, IsRequestInRange};

use crate::drafts::take_line;
use crate::requests::{Draft, Request};
use lab_text::{LineReader, Status};
use mix_base::Source;
use std::alloc::Global;

/// What the lines to come say behind a draft, up to the end of the input.
pub fn read_request<I: Source>(
    alloc: Global,
    reader: &mut LineReader<I>,
    draft: Draft,
) -> Result<Request, Status>
    requires in_range { IsDraftInRange draft }
    ensures exact { IfSome (request_to_come reader.old draft) (λ outcome. Reads outcome result) }
    ensures in_range { IfOk result IsRequestInRange }
    ensures end { OnOk result (ReachesEnd
        (I.left (source_of reader.old)) (I.left (source_of reader.new))) }
    ensures kind { IfErr result EndsReading }
    ensures read_fault { IsErrOf result Status.ReadFault →
        Rose (I.faults (source_of reader.old)) (I.faults (source_of reader.new)) }
    ensures source { SourceGoesOn reader.old reader.new }
{
    let mut draft = draft;
    'lines: while let Some(line) = reader.next_line(alloc)? {
        draft = take_line(alloc, draft, line.as_slice(), reader.number())?;
    }
    finish(draft, reader.number() + 1)
}

// The request that a draft is at the end of the input; the line of this number would come next.
fn finish(draft: Draft, number: u64) -> Result<Request, Status>
    requires in_range { IsDraftInRange draft }
    ensures exact { Reads (ended number draft) result }
    ensures in_range { IfOk result IsRequestInRange }
    ensures kind { IfErr result EndsReading }
    ensures no_read { IsErrOf result Status.ReadFault → ⊥ }
{
    match draft {
        Draft::Whole { request } => Ok(request),
        _ => Err(Status::Line { line: number }),
    }
}
