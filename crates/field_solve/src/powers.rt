// What the elimination starts from: powers of x, and the products of the polynomial with them, place by place.
ghost use Rattle.std.specs.Prelude.{◌≡◌, ℕ, ◌/◌, ◌^◌, ◌<◌, ◌≤◌, ℤ, pos, [], ◌∷◌, ◌++◌, length, replicate, IfOk};
ghost use Rattle.ntru_ring.specs.Centring.{IsCongruent};
ghost use Rattle.ntru_ring.specs.Polynomials.{IsPolynomial, coefficient};
ghost use Rattle.field_solve.specs.Elimination.{AllBelow, Combines, minus_one, nothing, raised, times};

use crate::fields::residue;
use mix_base::Memory;
use std::alloc::Global;

// The numbers 0, .., 0, 1, with 1 at the place of the power: x^power.
pub(crate) fn power_of_x(alloc: Global, power: usize) -> Result<Vec<u64>, Memory>
    ensures { IfOk result (λ numbers. numbers.items ≡ replicate power 0 ++ 1 ∷ []) }
{
    let mut numbers = zeros(alloc, power)?;
    numbers.push(1)?;
    Ok(numbers)
}

// A number of zeros.
pub(crate) fn zeros(alloc: Global, count: usize) -> Result<Vec<u64>, Memory>
    ensures { IfOk result (λ numbers. numbers.items ≡ replicate count 0) }
{
    Ok(vec![in alloc; 0; count]?)
}

// The entries of the polynomial -1.
pub(crate) fn minus_one(alloc: Global, prime: u32) -> Result<Vec<u64>, Memory>
    requires small { prime ≤ 4591 }
    requires positive { 0 < prime }
    ensures whole { IfOk result (λ entries. length entries.items ≡ 761) }
    ensures room { IfOk result (λ entries. AllBelow (2 ^ 25) entries.items) }
    ensures combined { IfOk result (λ entries. (poly : ℕ → ℤ)
        → Combines prime poly minus_one (replicate 761 0) entries.items) }
{
    let mut entries = zeros(alloc, 761)?;
    entries[0] = u64::from(prime) - 1;
    Ok(entries)
}

// The entry at a place of x^power times the polynomial, before x^761 is replaced.
fn raised_at(prime: u32, poly: &[i16], power: usize, place: usize) -> u64
    requires small { prime ≤ 4591 }
    requires positive { 0 < prime }
    requires polynomial { IsPolynomial (prime / 2) poly.now }
    ensures below { result < prime }
    ensures congruent { IsCongruent prime (pos result) (raised (coefficient poly.now) power place) }
{
    if place < power {
        return 0;
    }
    let from = place - power;
    if from < poly.len() {
        u64::from(residue(prime, poly[from]))
    } else {
        0
    }
}

// The entry at a place of x^power times the polynomial, a sum of up to three numbers below the prime.
fn product_at(prime: u32, poly: &[i16], power: usize, place: usize) -> u64
    requires small { prime ≤ 4591 }
    requires positive { 0 < prime }
    requires polynomial { IsPolynomial (prime / 2) poly.now }
    requires within { place < 761 }
    ensures below { result < 2 ^ 25 }
    ensures congruent { IsCongruent prime (pos result)
        (times (coefficient poly.now) (replicate power 0 ++ 1 ∷ []) place) }
{
    let plain = raised_at(prime, poly, power, place) + raised_at(prime, poly, power, 761 + place);
    if place == 0 {
        plain
    } else {
        plain + raised_at(prime, poly, power, 760 + place)
    }
}

// The entries of x^power times the polynomial.
pub(crate) fn product(
    alloc: Global,
    prime: u32,
    poly: &[i16],
    power: usize,
) -> Result<Vec<u64>, Memory>
    requires small { prime ≤ 4591 }
    requires positive { 0 < prime }
    requires polynomial { IsPolynomial (prime / 2) poly.now }
    ensures whole { IfOk result (λ entries. length entries.items ≡ 761) }
    ensures room { IfOk result (λ entries. AllBelow (2 ^ 25) entries.items) }
    ensures combined { IfOk result (λ entries.
        Combines prime (coefficient poly.now) nothing (replicate power 0 ++ 1 ∷ []) entries.items) }
{
    let mut entries = Vec::new(alloc);
    for place in 0..761 {
        entries.push(product_at(prime, poly, power, place))?;
    }
    Ok(entries)
}
