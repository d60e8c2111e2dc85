// Packing by base: the digits of one side, from those of the other. Both directions are this one function.
ghost use Rattle.std.specs.Prelude.{◌≡◌, ℕ, ◌+◌, ◌-◌, ◌*◌, ◌/◌, ◌<◌, ◌≤◌, ◌^◌, suc};
ghost use Rattle.ntru_code.specs.Packing.{digit, last_of, number, translated};
ghost use Rattle.ntru_code.specs.Sides.{Agree};

/// One side of a packing: the base of its digits, how many make a group, and how many there are in all.
#[derive(Clone, Copy)]
pub(crate) struct Side {
    pub(crate) base: u64,
    pub(crate) group: usize,
    pub(crate) count: usize,
}

/// Digits that can be read at each place.
pub(crate) trait Digits {
    ghost at: { Self → ℕ → ℕ };

    ghost count: { Self → ℕ };

    fn digit(&self, place: usize) -> u64
        requires { place < count self.now }
        ensures { result ≡ at self.now place };
}

/// The digit at a place of one side, from the digits of the other.
pub(crate) fn translated<D: Digits>(from: &Side, to: &Side, digits: &D, place: usize) -> u64
    requires agree { Agree from.now to.now }
    requires count { D.count digits.now ≡ from.now.count }
    requires small { (k : ℕ) → D.at digits.now k < from.now.base }
    requires inside { place < to.now.count }
    ensures { result ≡ translated from.now to.now (D.at digits.now) place }
{
    let group = place / to.group;
    let value = number(from.base, digits, group * from.group, last_of(from, group));
    digit(to.base, last_of(to, group), place % to.group, value)
}

// The place of a group's last digit in it.
#[tactic(auto, unfolding(crate::specs::Packing::last_of))]
fn last_of(side: &Side, group: usize) -> usize
    requires some { 0 < side.now.group }
    requires inside { group * side.now.group < side.now.count }
    ensures { result ≡ last_of side.now group }
{
    side.group.min(side.count - group * side.group) - 1
}

// The number of some digits, from the last to the first.
fn number<D: Digits>(base: u64, digits: &D, start: usize, last: usize) -> u64
    requires inside { start + last < D.count digits.now }
    requires short { start + last < 2 ^ 64 }
    requires small { (k : ℕ) → D.at digits.now k < base }
    requires fits { base ^ suc last ≤ 2 ^ 64 }
    ensures { result ≡ number base (D.at digits.now) start last }
{
    let mut place = last;
    let mut value = digits.digit(start + place);
    while place > 0 {
        place -= 1;
        value = value * base + digits.digit(start + place);
    }
    value
}

// A digit of a number, by the quotients before it.
fn digit(base: u64, last: usize, place: usize, value: u64) -> u64
    requires positive { 0 < base }
    requires inside { place ≤ last }
    ensures { result ≡ digit base last place value }
{
    let mut rest = value;
    for i in 0..place {
        rest /= base;
    }
    if place == last { rest } else { rest % base }
}
