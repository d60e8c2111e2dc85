// The lines of the report, but for those that hand a packet on, and their text.
ghost use Rattle.std.specs.Prelude.{◌≡◌, ◌≤◌, [], ◌∷◌, IfOk, OnOk, OnErr, IsErrOf, string_bytes};
ghost use Rattle.mix_base.specs.Faults.{Rose};
ghost use Rattle.lab_text.specs.WordForms.{line_of};
ghost use Rattle.mix_top.specs.Receiving.{GaveFront, GaveText};
ghost use Rattle.mix_top.specs.Report.{Says, why_of, words_of_line};

use mix_base::{Memory, PutFault, Sink};
use sphinx_unwrap::Refused;
use std::alloc::Global;

/// One line of the report.
#[derive(Clone, Copy)]
pub enum ReportLine {
    /// The packet of this arrival isn't unwrapped.
    Refuse { number: u64, why: Refused },
    /// Nothing waits that this worker could unwrap.
    Idle { worker: u8 },
    /// This worker holds a packet already.
    Busy { worker: u8 },
    /// The epoch of this arrival's packet is below its shard's floor.
    Retired { number: u64, floor: u64 },
    /// The tag of this arrival's packet was spent before.
    Spent { number: u64 },
    /// Its shard has no room for the tag.
    Full { number: u64 },
    /// The disk of its shard failed.
    Failed { number: u64, shard: u8 },
    /// This worker holds nothing to claim.
    Empty { worker: u8 },
    /// No packet is due.
    NoneDue,
    /// The shard's disk failed when its journal was to be opened.
    Unopened { shard: u8 },
    /// The shard's journal was opened after a crash, with this floor and so many spent pairs.
    Restarted { shard: u8, floor: u64, spent: u64 },
    /// The shard's disk failed when it was to retire epochs.
    NotRotated { shard: u8 },
    /// The shard's journal has no room for another floor.
    RootFull { shard: u8 },
}

/// Writes a line.
pub fn put_line<O: Sink>(alloc: Global, sink: &mut O, line: &ReportLine) -> Result<(), PutFault>
    ensures whole { OnOk result
        (GaveText (O.given sink.old) (O.given sink.new) (Says line.now ∷ [])) }
    ensures front { OnErr result
        (GaveFront (O.given sink.old) (O.given sink.new) (Says line.now ∷ [])) }
    ensures fault { IsErrOf result PutFault.WriteFault →
        Rose (O.faults sink.old) (O.faults sink.new) }
    ensures count { O.faults sink.old ≤ O.faults sink.new }
{
    let text = spell(alloc, line)?;
    sink.put(alloc, text.as_bytes())
}

/// The text of a line, with its line feed.
fn spell(alloc: Global, line: &ReportLine) -> Result<String, Memory>
    ensures { IfOk result (λ text. string_bytes text ≡ line_of (words_of_line line.now)) }
{
    let text = match line {
        ReportLine::Refuse { number, why } => {
            let why = why_word(*why);
            format!(in alloc; "refuse {number} {why}\n")
        }
        ReportLine::Idle { worker } => format!(in alloc; "peel {worker} idle\n"),
        ReportLine::Busy { worker } => format!(in alloc; "peel {worker} busy\n"),
        ReportLine::Retired { number, floor } => {
            format!(in alloc; "refuse {number} retired {floor}\n")
        }
        ReportLine::Spent { number } => format!(in alloc; "refuse {number} spent\n"),
        ReportLine::Full { number } => format!(in alloc; "refuse {number} full\n"),
        ReportLine::Failed { number, shard: _ } => format!(in alloc; "refuse {number} disk\n"),
        ReportLine::Empty { worker } => format!(in alloc; "claim {worker} empty\n"),
        ReportLine::NoneDue => String::from_str(alloc, "none\n"),
        ReportLine::Unopened { shard } => format!(in alloc; "open {shard} disk\n"),
        ReportLine::Restarted {
            shard,
            floor,
            spent,
        } => format!(in alloc; "restart {shard} floor {floor} spent {spent}\n"),
        ReportLine::NotRotated { shard } => format!(in alloc; "rotate {shard} disk\n"),
        ReportLine::RootFull { shard } => format!(in alloc; "rotate {shard} full\n"),
    };
    Ok(text?)
}

/// The word of a refusal.
fn why_word(why: Refused) -> &'static str
    ensures { result.now ≡ why_of why }
{
    match why {
        Refused::Length => "length",
        Refused::Version => "version",
        Refused::Sealed => "sealed",
        Refused::Commands => "commands",
    }
}
