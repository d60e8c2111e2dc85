// Reading: the fields of some bytes, and their polynomial.
ghost use Rattle.std.specs.Prelude.{◌≡◌, ℕ, ◌-◌, ◌*◌, ◌<◌, ◌≤◌, ℤ, pos, ◌-ℤ◌, List, length, slice_index, IfOk, OnOk, IfErr, OnErr, Err};
ghost use Rattle.ntru_ring.specs.Centring.{IsWithin};
ghost use Rattle.ntru_ring.specs.Polynomials.{IsPolynomial};
ghost use Rattle.ntru_code.specs.Forms.{AllInRange, AllMultiples, bound_at, field_in, rounded, small, spelling, values, whole};
ghost use Rattle.ntru_code.specs.Faults.{IsCause, ReadsBack};
ghost use Rattle.ntru_code.specs.Sides.{IsSound};

use crate::faults::{CodeFault, Range};
use crate::forms::{Form, ROUNDED, SMALL, WHOLE};
use crate::packing::{Digits, translated};
use ntru_ring::{Poly3, PolyQ, reduce_3};
use std::alloc::Global;

/// The polynomial that 191 bytes in the small form spell.
pub fn decode_small(alloc: Global, bytes: &[u8]) -> Result<Poly3, CodeFault>
    requires { length bytes.now ≡ 191 }
    // What is read is spelled so.
    ensures found { IfOk result (λ p. bytes.now ≡ spelling small p) }
    // What is spelled so is read, unless memory runs out.
    ensures only { (p : List ℤ) → IsPolynomial 1 p → ReadsBack small bytes.now p result }
    // Which field is refused.
    ensures in_range { OnOk result (AllInRange small bytes.now) }
    ensures first { IfErr result (IsCause small bytes.now) }
{
    let polynomial = decode(alloc, &SMALL, bytes)?;
    let small = reduce_3(alloc, &polynomial)?;
    Ok(small)
}

/// The polynomial that 1,218 bytes in the form modulo 4591 spell.
pub fn decode_q(alloc: Global, bytes: &[u8]) -> Result<PolyQ, CodeFault>
    requires { length bytes.now ≡ 1218 }
    // What is read is spelled so.
    ensures found { IfOk result (λ p. bytes.now ≡ spelling whole p) }
    // What is spelled so is read, unless memory runs out.
    ensures only { (p : List ℤ) → IsPolynomial 2295 p → ReadsBack whole bytes.now p result }
    // Which field is refused.
    ensures in_range { OnOk result (AllInRange whole bytes.now) }
    ensures first { IfErr result (IsCause whole bytes.now) }
{
    decode(alloc, &WHOLE, bytes)
}

/// The polynomial that 1,015 bytes in the rounded form spell: each coefficient is a multiple of 3.
pub fn decode_rounded(alloc: Global, bytes: &[u8]) -> Result<PolyQ, CodeFault>
    requires { length bytes.now ≡ 1015 }
    // What is read is spelled so.
    ensures found { IfOk result (λ p. bytes.now ≡ spelling rounded p) }
    ensures multiples { IfOk result AllMultiples }
    // What is spelled so is read, unless memory runs out.
    ensures only { (p : List ℤ) → IsPolynomial 2295 p → AllMultiples p
        → ReadsBack rounded bytes.now p result }
    // Which field is refused.
    ensures in_range { OnOk result (AllInRange rounded bytes.now) }
    ensures first { IfErr result (IsCause rounded bytes.now) }
{
    decode(alloc, &ROUNDED, bytes)
}

// Reads by any form.
fn decode(alloc: Global, form: &Form, bytes: &[u8]) -> Result<PolyQ, CodeFault>
    requires sound { IsSound form.now }
    requires length { length bytes.now ≡ form.now.bytes.count }
    ensures value { IfOk result (λ p. p ≡ values form.now bytes.now) }
    ensures in_range { OnOk result (AllInRange form.now bytes.now) }
    ensures first { IfErr result (IsCause form.now bytes.now) }
{
    let list = read_coefficients(alloc, form, bytes)?;
    check_rest(form, bytes)?;
    Ok(PolyQ::from_list(alloc, &list)?)
}

// Whether what is behind the last coefficient is 0, where the form has a field there.
fn check_rest(form: &Form, bytes: &[u8]) -> Result<(), Range>
    requires sound { IsSound form.now }
    requires length { length bytes.now ≡ form.now.bytes.count }
    ensures below { OnOk result (761 < form.now.fields.count
        → field_in form.now bytes.now 761 < bound_at form.now 761) }
    ensures index { IfErr result (λ range. range.index ≡ 761) }
    ensures inside { OnErr result (761 < form.now.fields.count) }
    ensures out { OnErr result (bound_at form.now 761 ≤ field_in form.now bytes.now 761) }
{
    if form.fields.count > 761 {
        field_at(form, bytes, 761)?;
    }
    Ok(())
}

// The coefficients that the first 761 fields stand for.
fn read_coefficients(alloc: Global, form: &Form, bytes: &[u8]) -> Result<Vec<i16>, CodeFault>
    requires sound { IsSound form.now }
    requires length { length bytes.now ≡ form.now.bytes.count }
    ensures value { IfOk result (λ list. list.items ≡ values form.now bytes.now) }
    ensures polynomial { IfOk result (λ list. IsPolynomial 2295 list.items) }
    ensures below { OnOk result ((place : ℕ) → place < 761
        → field_in form.now bytes.now place < bound_at form.now place) }
    ensures first { IfErr result (IsCause form.now bytes.now) }
{
    let mut list = Vec::with_capacity(alloc, 761)?;
    for place in 0..761 {
        let field = field_at(form, bytes, place)?;
        list.push(coefficient(form, field))?;
    }
    Ok(list)
}

// The coefficient that a field stands for.
fn coefficient(form: &Form, field: u64) -> i16
    requires sound { IsSound form.now }
    requires below { field < form.now.bound }
    ensures value { result ≡ pos (form.now.step * field) -ℤ pos form.now.lowest }
    ensures near { IsWithin 2295 result }
{
    (form.step * field) as i16 - form.lowest as i16
}

// Each byte as a digit.
#[derive(Drop)]
struct ByteDigits<'a>(&'a [u8]);

impl Digits for ByteDigits<'_> {
    ghost at = { λ d. slice_index d.0.now };

    ghost count = { λ d. length d.0.now };

    fn digit(&self, place: usize) -> u64 {
        u64::from(self.0[place])
    }
}

// The field at a place, or that it is out of range.
#[tactic(auto, unfolding(crate::specs::Forms::field_in))]
fn field_at(form: &Form, bytes: &[u8], place: usize) -> Result<u64, Range>
    requires sound { IsSound form.now }
    requires length { length bytes.now ≡ form.now.bytes.count }
    requires inside { place < form.now.fields.count }
    ensures value { IfOk result (λ field. field ≡ field_in form.now bytes.now place) }
    ensures below { IfOk result (λ field. field < bound_at form.now place) }
    ensures index { IfErr result (λ range. range.index ≡ place) }
    ensures out { OnErr result (bound_at form.now place ≤ field_in form.now bytes.now place) }
{
    let field = translated(&form.bytes, &form.fields, &ByteDigits(bytes), place);
    if field < bound_at(form, place) {
        Ok(field)
    } else {
        Err(Range { index: place })
    }
}

#[tactic(auto, unfolding(crate::specs::Forms::bound_at))]
fn bound_at(form: &Form, place: usize) -> u64
    ensures { result ≡ bound_at form.now place }
{
    if place < 761 { form.bound } else { 1 }
}
