// What a draft becomes with one line more: a line is taken exactly where it is in the grammar behind those before it.
ghost use Rattle.std.specs.Prelude.{Option, IfErr, IfOk, IfSome, IsErrOf};
ghost use Rattle.lab_text.specs.Faults.{ReadsWords};
ghost use Rattle.lab_text.specs.Outcomes.{EndsReading, Reads, at_line};
ghost use Rattle.lab_text.specs.Words.{words_of};
ghost use Rattle.mix_tools.specs.Drafts.{IsDraftInRange, draft_behind, said_behind};
ghost use Rattle.mix_tools.specs.declared.requests.Draft.{Draft};

use crate::make_lines::{read_make_line, read_path_line};
use crate::reply_lines::{
    read_answer_line, read_block_line, read_body_line, read_keys_line, read_open_line,
    read_payload_line,
};
use crate::requests::Draft;
use lab_text::{Status, WordFault, said_line};
use std::alloc::Global;

/// The draft with the line of this number behind it.
pub fn take_line(alloc: Global, draft: Draft, line: &[u8], number: u64) -> Result<Draft, Status>
    requires in_range { IsDraftInRange draft }
    ensures exact { Reads (draft_behind number draft (words_of line.now)) result }
    ensures in_range { IfOk result IsDraftInRange }
    ensures kind { IfErr result EndsReading }
    ensures no_read { IsErrOf result Status.ReadFault → ⊥ }
{
    match said_line(line) {
        Some((first, rest)) => take_said(alloc, draft, first, rest, number),
        None => Ok(draft),
    }
}

// The draft with a line that says something.
fn take_said(
    alloc: Global,
    draft: Draft,
    first: &[u8],
    rest: &[u8],
    number: u64,
) -> Result<Draft, Status>
    requires in_range { IsDraftInRange draft }
    ensures exact { Reads (said_behind number draft first.now (words_of rest.now)) result }
    ensures in_range { IfOk result IsDraftInRange }
    ensures kind { IfErr result EndsReading }
    ensures no_read { IsErrOf result Status.ReadFault → ⊥ }
{
    match draft {
        Draft::Making => first_at_number(read_make_line(alloc, first, rest), number),
        Draft::Path {
            product,
            head,
            draw,
            hops,
        } => at_number(
            read_path_line(alloc, product, head, draw, hops, first, rest),
            number,
        ),
        Draft::Answering => first_at_number(read_answer_line(first, rest), number),
        Draft::AnswerSizes { layout } => {
            at_number(read_block_line(alloc, layout, first, rest), number)
        }
        Draft::AnswerBlock { layout, block } => {
            at_number(read_body_line(alloc, layout, block, first, rest), number)
        }
        Draft::Opening => first_at_number(read_open_line(first, rest), number),
        Draft::OpenSizes { layout } => {
            at_number(read_keys_line(alloc, layout, first, rest), number)
        }
        Draft::OpenKeys { layout, keys } => at_number(
            read_payload_line(alloc, layout, keys, first, rest),
            number,
        ),
        Draft::Whole { request: _ } => Err(Status::Line { line: number }),
    }
}

// What was read of the first line, of this number.
fn first_at_number(read: Option<Draft>, number: u64) -> Result<Draft, Status>
    requires { IfSome read IsDraftInRange }
    ensures exact { Reads (at_line number read) result }
    ensures in_range { IfOk result IsDraftInRange }
    ensures kind { IfErr result EndsReading }
    ensures no_read { IsErrOf result Status.ReadFault → ⊥ }
{
    read.ok_or(Status::Line { line: number })
}

// What was read of the line of this number.
fn at_number(read: Result<Draft, WordFault>, number: u64) -> Result<Draft, Status>
    requires { IfOk read IsDraftInRange }
    ensures exact { (said : Option Draft) →
        ReadsWords said read → Reads (at_line number said) result }
    ensures in_range { IfOk result IsDraftInRange }
    ensures kind { IfErr result EndsReading }
    ensures no_read { IsErrOf result Status.ReadFault → ⊥ }
{
    match read {
        Ok(draft) => Ok(draft),
        Err(WordFault::Outside) => Err(Status::Line { line: number }),
        Err(WordFault::Memory) => Err(Status::Memory),
    }
}
