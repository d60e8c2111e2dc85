// Counts of a report's lines, in place of their text, and the summary that they make.
ghost use Rattle.std.specs.Prelude.{◌≡◌, IfOk, fold, string_bytes};
ghost use Rattle.mix_base.specs.Faults.{one_more};
ghost use Rattle.lab_text.specs.WordForms.{line_of};
ghost use Rattle.mix_top.specs.Tallies.{last_words, refusal_words, summary_line, tallied, tally_takes};
ghost use Rattle.mix_top.specs.declared.storm.tally.Tally.{Tally};

use crate::receiving::Receiver;
use crate::report::ReportLine;
use mix_base::{Memory, PutFault};
use sphinx_unwrap::{Out, Refused};
use std::alloc::Global;

/// How many lines of a report there are of each kind that a summary names.
#[derive(Drop)]
pub struct Tally {
    /// Packets that were handed on.
    pub handed: u64,
    /// Refusals with these words.
    pub spent: u64,
    pub sealed: u64,
    pub length: u64,
    /// All other lines but `none`, `claim W empty` and `restart`.
    pub other: u64,
}

impl Tally {
    /// Of no line.
    pub fn new() -> Tally
        ensures { result ≡ record { handed = 0; spent = 0; sealed = 0; length = 0; other = 0 } }
    {
        Tally {
            handed: 0,
            spent: 0,
            sealed: 0,
            length: 0,
            other: 0,
        }
    }

    /// The summary of a storm of so many packets, with its line feed.
    pub fn summary(&self, alloc: Global, count: u64) -> Result<String, Memory>
        ensures { IfOk result (λ text. string_bytes text ≡ summary_line count self.now) }
    {
        let handed = self.handed;
        let others = self.refusals(alloc)?;
        let text = format!(in alloc; "storm {count} handed {handed} {others}")?;
        Ok(text)
    }

    /// The columns behind the first.
    fn refusals(&self, alloc: Global) -> Result<String, Memory>
        ensures { IfOk result (λ text. string_bytes text ≡ line_of (refusal_words self.now)) }
    {
        let spent = self.spent;
        let sealed = self.sealed;
        let others = self.last_columns(alloc)?;
        let text = format!(in alloc; "spent {spent} sealed {sealed} {others}")?;
        Ok(text)
    }

    /// The last two columns.
    fn last_columns(&self, alloc: Global) -> Result<String, Memory>
        ensures { IfOk result (λ text. string_bytes text ≡ line_of (last_words self.now)) }
    {
        let length = self.length;
        let other = self.other;
        let text = format!(in alloc; "length {length} other {other}\n")?;
        Ok(text)
    }
}

impl Receiver for Tally {
    ghost took = { λ old new lines. new ≡ fold tallied old lines };

    ghost took_front = { λ old new lines. new ≡ fold tallied old lines };

    ghost failures = { λ tally. 0 };

    fn take_line(&mut self, _alloc: Global, line: &ReportLine) -> Result<(), PutFault> {
        match line {
            ReportLine::Spent { number: _ } => raise(&mut self.spent),
            ReportLine::Refuse { number: _, why } => match why {
                Refused::Sealed => raise(&mut self.sealed),
                Refused::Length => raise(&mut self.length),
                Refused::Version | Refused::Commands => raise(&mut self.other),
            },
            ReportLine::NoneDue | ReportLine::Empty { .. } | ReportLine::Restarted { .. } => {}
            ReportLine::Idle { .. }
            | ReportLine::Busy { .. }
            | ReportLine::Retired { .. }
            | ReportLine::Full { .. }
            | ReportLine::Failed { .. }
            | ReportLine::Unopened { .. }
            | ReportLine::NotRotated { .. }
            | ReportLine::RootFull { .. } => raise(&mut self.other),
        }
        Ok(())
    }

    fn take_hand_on(
        &mut self,
        _alloc: Global,
        _number: u64,
        _epoch: u64,
        _tag: &[u8; 32],
        _out: &Out,
    ) -> Result<(), PutFault> {
        raise(&mut self.handed);
        Ok(())
    }

    ghost in_turn = { tally_takes };
}

/// One more, up to the last value of a count.
fn raise(count: &mut u64)
    ensures { count.new ≡ one_more count.old }
{
    *count = count.saturating_add(1);
}
