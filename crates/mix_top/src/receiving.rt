// Who takes the lines of a report as they come: a sink, to which each is written, or a tally, which counts them. What was
// taken of a run is said in one way for both.
ghost use Rattle.std.specs.Prelude.{◌≡◌, ℕ, ◌≤◌, List, [], ◌∷◌, OnOk, OnErr, IsErrOf};
ghost use Rattle.mix_base.specs.Faults.{Rose};
ghost use Rattle.mix_shard.specs.Items.{Item};
ghost use Rattle.mix_top.specs.Progress.{as_lines};
ghost use Rattle.mix_top.specs.Receiving.{GaveFront, GaveText, IsSaidOf, TakesInTurn};
ghost use Rattle.mix_top.specs.ReceivingLaws.{sink_takes};
ghost use Rattle.mix_top.specs.Report.{HandsOn, Line, Says};

use crate::report::{ReportLine, put_line};
use mix_base::{PutFault, Sink};
use node_core::write_hand_on;
use sphinx_unwrap::Out;
use std::alloc::Global;

/// Takes the lines of a report, one after the other.
pub trait Receiver: Drop {
    /// Between the two it took these lines.
    ghost took: { Self → Self → List Line → Type 0 };

    /// Between the two it took a front of these lines, and then refused.
    ghost took_front: { Self → Self → List Line → Type 0 };

    /// How often it has failed, at most 2^64 - 1.
    ghost failures: { Self → ℕ };

    /// Takes a line that says something.
    fn take_line(&mut self, alloc: Global, line: &ReportLine) -> Result<(), PutFault>
        ensures whole { OnOk result (took self.old self.new (Says line.now ∷ [])) }
        ensures front { OnErr result (took_front self.old self.new (Says line.now ∷ [])) }
        ensures fault { IsErrOf result PutFault.WriteFault →
            Rose (failures self.old) (failures self.new) }
        ensures count { failures self.old ≤ failures self.new };

    /// Takes the line of a packet that is handed on, by what it says of the packet: the number of its arrival, the epoch of
    /// the key that opened it, its tag, and what goes out.
    fn take_hand_on(
        &mut self,
        alloc: Global,
        number: u64,
        epoch: u64,
        tag: &[u8; 32],
        out: &Out,
    ) -> Result<(), PutFault>
        ensures whole { OnOk result ((item : Item) → IsSaidOf item number epoch tag.now out.now →
            took self.old self.new (HandsOn item ∷ [])) }
        ensures front { OnErr result ((item : Item) → IsSaidOf item number epoch tag.now out.now →
            took_front self.old self.new (HandsOn item ∷ [])) }
        ensures fault { IsErrOf result PutFault.WriteFault →
            Rose (failures self.old) (failures self.new) }
        ensures count { failures self.old ≤ failures self.new };

    /// Lines are taken one after the other.
    ghost in_turn: { TakesInTurn took took_front };
}

impl<O: Sink> Receiver for O {
    ghost took = { λ old new lines. GaveText (O.given old) (O.given new) lines };

    ghost took_front = { λ old new lines. GaveFront (O.given old) (O.given new) lines };

    ghost failures = { O.faults };

    fn take_line(&mut self, alloc: Global, line: &ReportLine) -> Result<(), PutFault> {
        put_line(alloc, self, line)
    }

    fn take_hand_on(
        &mut self,
        alloc: Global,
        number: u64,
        epoch: u64,
        tag: &[u8; 32],
        out: &Out,
    ) -> Result<(), PutFault> {
        write_hand_on(alloc, self, number, epoch, tag, out)
    }

    ghost in_turn = { sink_takes O.given };
}

/// Takes a line, where there is one.
pub fn take_maybe<R: Receiver>(
    alloc: Global,
    receiver: &mut R,
    line: Option<ReportLine>,
) -> Result<(), PutFault>
    ensures whole { OnOk result (R.took receiver.old receiver.new (as_lines line)) }
    ensures front { OnErr result (R.took_front receiver.old receiver.new (as_lines line)) }
    ensures fault { IsErrOf result PutFault.WriteFault →
        Rose (R.failures receiver.old) (R.failures receiver.new) }
    ensures count { R.failures receiver.old ≤ R.failures receiver.new }
{
    match line {
        Some(line) => receiver.take_line(alloc, &line),
        None => Ok(()),
    }
}
