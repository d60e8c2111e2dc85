// The fields of 3 and of 4591 numbers, both as the numbers below the prime and as centred coefficients.
ghost use Rattle.std.specs.Prelude.{◌≡◌, ℕ, ◌/◌, ◌%◌, ◌<◌, ◌≤◌, pos, length, slice_index, IfOk};
ghost use Rattle.ntru_ring.specs.Centring.{IsCongruent, IsWithin};
ghost use Rattle.ntru_ring.specs.Polynomials.{IsPolynomial, coefficient};
ghost use Rattle.field_solve.specs.Moduli.{AreInverses, prime_of};

use mix_base::Memory;
use std::alloc::Global;

/// The modulus of a ring.
#[derive(Clone, Copy, Debug, PartialEq, Eq)]
pub enum Modulus {
    /// 3, with coefficients from -1 to 1.
    Three,
    /// 4591, with coefficients from -2295 to 2295.
    Q,
}

// The prime of a modulus.
pub(crate) fn prime_of(modulus: Modulus) -> u32
    ensures { result ≡ prime_of modulus }
{
    match modulus {
        Modulus::Three => 3,
        Modulus::Q => 4591,
    }
}

// For each number below the prime its inverse, and 0 for 0. With prime = q number + r, the inverse of the number is
// -q times that of r.
pub(crate) fn inverses(alloc: Global, modulus: Modulus) -> Result<Vec<u32>, Memory>
    ensures long { IfOk result (λ table. length table.items ≡ prime_of modulus) }
    ensures inverses { IfOk result (λ table. AreInverses (prime_of modulus) table.items) }
{
    let prime = prime_of(modulus);
    let mut table = Vec::new(alloc);
    table.push(0)?;
    table.push(1)?;
    for number in 2..prime {
        let rest = table[(prime % number) as usize];
        table.push((prime - prime / number * rest % prime) % prime)?;
    }
    Ok(table)
}

// The number below the prime that a centred coefficient stands for.
pub(crate) fn residue(prime: u32, coefficient: i16) -> u32
    requires small { prime ≤ 4591 }
    requires near { IsWithin (prime / 2) coefficient }
    ensures below { 0 < prime → result < prime }
    ensures congruent { IsCongruent prime (pos result) coefficient }
{
    if coefficient < 0 {
        (i32::from(coefficient) + prime as i32) as u32
    } else {
        coefficient as u32
    }
}

// The centred coefficient that a number stands for.
pub(crate) fn centred(prime: u32, number: u64) -> i16
    requires small { prime ≤ 4591 }
    requires odd { prime % 2 ≡ 1 }
    ensures near { IsWithin (prime / 2) result }
    ensures congruent { IsCongruent prime result (pos number) }
{
    let rest = (number % u64::from(prime)) as i16;
    if rest <= (prime / 2) as i16 {
        rest
    } else {
        rest - prime as i16
    }
}

// The centred coefficient at a place: the one that the number there stands for, or 0 past the last.
fn coefficient_at(prime: u32, numbers: &[u64], place: usize) -> i16
    requires small { prime ≤ 4591 }
    requires odd { prime % 2 ≡ 1 }
    ensures near { IsWithin (prime / 2) result }
    ensures congruent { IsCongruent prime result (pos (slice_index numbers.now place)) }
{
    if place < numbers.len() {
        centred(prime, numbers[place])
    } else {
        0
    }
}

// 761 centred coefficients: those that the numbers stand for, and zeros behind them.
pub(crate) fn polynomial(alloc: Global, prime: u32, numbers: &[u64]) -> Result<Vec<i16>, Memory>
    requires small { prime ≤ 4591 }
    requires odd { prime % 2 ≡ 1 }
    ensures whole { IfOk result (λ p. IsPolynomial (prime / 2) p.items) }
    ensures congruent { IfOk result (λ p. (place : ℕ) → place < 761
        → IsCongruent prime (coefficient p.items place) (pos (slice_index numbers.now place))) }
{
    let mut coefficients = Vec::new(alloc);
    for place in 0..761 {
        coefficients.push(coefficient_at(prime, numbers, place))?;
    }
    Ok(coefficients)
}
