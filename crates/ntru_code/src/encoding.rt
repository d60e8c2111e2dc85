// Writing: the fields of a polynomial, and their bytes.
ghost use Rattle.std.specs.Prelude.{◌≡◌, ℕ, ◌+◌, ◌<◌, map, length};
ghost use Rattle.std.specs.List.{range_with_len};
ghost use Rattle.ntru_code.specs.Packing.{translated};
ghost use Rattle.ntru_code.specs.Forms.{AllMultiples, field, rounded, small, spelling, whole};
ghost use Rattle.ntru_code.specs.Groups.{AreRoundedGroups, AreSmallGroups, AreWholeGroups};
ghost use Rattle.ntru_code.specs.Sides.{IsSound};

use crate::forms::{Form, ROUNDED, SMALL, WHOLE};
use crate::packing::{Digits, translated};
use ntru_ring::{Poly3, PolyQ};

/// Writes the small form, 191 bytes: each coefficient plus 1 in two bits, four in a byte, low bits first.
pub fn encode_small(a: &Poly3, out: &mut [u8])
    requires { length out.old ≡ 191 }
    ensures bytes { out.new ≡ spelling small a.now }
    // Each group of fields is one number, of which the bytes are the little-endian spelling.
    ensures groups { AreSmallGroups a.now out.new }
{
    a.known_in_range();
    encode(&SMALL, &SmallFields(a), out)
}

/// Writes the form modulo 4591, 1,218 bytes: each coefficient plus 2295 as a digit of base 6144, five digits in
/// eight bytes, and the last one in two; lowest digit and lowest byte first.
pub fn encode_q(a: &PolyQ, out: &mut [u8])
    requires { length out.old ≡ 1218 }
    ensures bytes { out.new ≡ spelling whole a.now }
    // Each group of fields is one number, of which the bytes are the little-endian spelling.
    ensures groups { AreWholeGroups a.now out.new }
{
    a.known_in_range();
    encode(&WHOLE, &WholeFields(a), out)
}

/// Writes the rounded form, 1,015 bytes: a third of each coefficient plus 2295 as a digit of base 1536, three
/// digits in four bytes, and the last two in three; lowest digit and lowest byte first. Asks that every coefficient
/// is a multiple of 3.
pub fn encode_rounded(a: &PolyQ, out: &mut [u8])
    requires multiples { AllMultiples a.now }
    requires length { length out.old ≡ 1015 }
    ensures bytes { out.new ≡ spelling rounded a.now }
    // Each group of fields is one number, of which the bytes are the little-endian spelling.
    ensures groups { AreRoundedGroups a.now out.new }
{
    a.known_in_range();
    encode(&ROUNDED, &RoundedFields(a), out)
}

// Writes the bytes of some fields, each by itself.
fn encode<D: Digits>(form: &Form, fields: &D, out: &mut [u8])
    requires sound { IsSound form.now }
    requires count { D.count fields.now ≡ form.now.fields.count }
    requires small { (k : ℕ) → D.at fields.now k < form.now.fields.base }
    requires length { length out.old ≡ form.now.bytes.count }
    ensures { let byte = translated form.now.fields form.now.bytes (D.at fields.now) in
        out.new ≡ map byte (range_with_len 0 form.now.bytes.count) }
{
    for place in 0..out.len() {
        out[place] = byte(form, fields, place);
    }
}

fn byte<D: Digits>(form: &Form, fields: &D, place: usize) -> u8
    requires sound { IsSound form.now }
    requires count { D.count fields.now ≡ form.now.fields.count }
    requires small { (k : ℕ) → D.at fields.now k < form.now.fields.base }
    requires inside { place < form.now.bytes.count }
    ensures { result ≡ translated form.now.fields form.now.bytes (D.at fields.now) place }
{
    translated(&form.fields, &form.bytes, fields, place) as u8
}

// The fields of the small form, with a last one for the bits that are left over.
#[derive(Drop)]
struct SmallFields<'a>(&'a Poly3);

impl Digits for SmallFields<'_> {
    ghost at = { λ d. field small d.0.now };

    ghost count = { λ _. 762 };

    #[tactic(auto, unfolding(crate::specs::Forms::field))]
    fn digit(&self, place: usize) -> u64 {
        if place < 761 {
            (self.0.at(place) + 1) as u64
        } else {
            0
        }
    }
}

// The fields of the form modulo 4591.
#[derive(Drop)]
struct WholeFields<'a>(&'a PolyQ);

impl Digits for WholeFields<'_> {
    ghost at = { λ d. field whole d.0.now };

    ghost count = { λ _. 761 };

    #[tactic(auto, unfolding(crate::specs::Forms::field))]
    fn digit(&self, place: usize) -> u64 {
        (self.0.at(place) + 2295) as u64
    }
}

// The fields of the rounded form.
#[derive(Drop)]
struct RoundedFields<'a>(&'a PolyQ);

impl Digits for RoundedFields<'_> {
    ghost at = { λ d. field rounded d.0.now };

    ghost count = { λ _. 761 };

    #[tactic(auto, unfolding(crate::specs::Forms::field))]
    fn digit(&self, place: usize) -> u64 {
        (self.0.at(place) + 2295) as u64 / 3
    }
}
