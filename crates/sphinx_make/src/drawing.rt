// Delays that a maker draws: one more unit for each word that isn't below a threshold, up to a cap. So a delay is
// as good as exponential where the words are random.
ghost use Rattle.std.specs.Prelude.{◌≡◌, ◌+◌, ◌*◌, ◌<◌, ◌≤◌, ◌↔◌, ℕ, IsTrue, min};
ghost use Rattle.mix_base.specs.WordStreams.{SkipsWords};
ghost use Rattle.packet_form.specs.Commands.{longest_delay};
ghost use Rattle.sphinx_make.specs.Drawing.{AllPass, FirstBelow, IsAllowed, NoneInVain, drawn_delay, most_units, passed, words_taken};

use mix_base::Words;
use packet_form::LONGEST_DELAY;

/// How delays are drawn.
#[derive(Clone, Copy, Debug, PartialEq, Eq)]
pub struct Draw {
    /// A word below it ends the delay.
    pub threshold: u32,
    /// The milliseconds of each word before that, at least 1.
    pub unit: u32,
    /// The longest delay in milliseconds, at most `LONGEST_DELAY`.
    pub cap: u32,
}

impl Draw {
    /// Whether delays may be drawn so: the unit is at least 1, and the cap at most `LONGEST_DELAY`.
    pub fn is_allowed(&self) -> bool
        ensures { IsTrue result ↔ IsAllowed self.now }
    {
        0 < self.unit && self.cap <= LONGEST_DELAY
    }
}

/// A delay in milliseconds. No word is taken once the delay has reached the cap. Asks a unit of at least 1 and a cap of
/// at most `LONGEST_DELAY`: `Draw::is_allowed`.
pub fn draw_delay<W: Words>(words: &mut W, draw: &Draw) -> u32
    requires unit { 0 < draw.now.unit }
    requires cap { draw.now.cap ≤ longest_delay }
    ensures value { result ≡ drawn_delay draw.now (W.to_come words.old) }
    ensures words { let taken = words_taken draw.now (W.to_come words.old) in
        SkipsWords taken (W.to_come words.old) (W.to_come words.new) }

    // So many units as words stand before the first that is below the threshold, and no more than the cap.
    ensures counted { (count : ℕ) → FirstBelow draw.now.threshold (W.to_come words.old) count →
        result ≡ min (count * draw.now.unit) draw.now.cap }
    // The cap, where none of the words that may be looked at is below the threshold.
    ensures capped { AllPass draw.now.threshold (W.to_come words.old) (most_units draw.now) →
        result ≡ draw.now.cap }
    // No word is taken in vain.
    ensures needed { let taken = words_taken draw.now (W.to_come words.old) in
        NoneInVain draw.now (W.to_come words.old) taken }
{
    let most = draw.cap.div_ceil(draw.unit);
    let count = pass(words, draw.threshold, most);
    count.saturating_mul(draw.unit).min(draw.cap)
}

// How many words at the front aren't below the threshold, of at most so many.
fn pass<W: Words>(words: &mut W, threshold: u32, most: u32) -> u32
    ensures value { result ≡ passed threshold (W.to_come words.old) most }
    ensures words { let taken = min (passed threshold (W.to_come words.old) most + 1) most in
        SkipsWords taken (W.to_come words.old) (W.to_come words.new) }
{
    'passing: for count in 0..most {
        if words.next() < threshold {
            return count;
        }
    }
    most
}
