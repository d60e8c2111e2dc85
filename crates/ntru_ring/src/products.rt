// The products of both rings: each pair of coefficients is multiplied once, and the sums are folded and centred
// at the end.
ghost use Rattle.std.specs.Prelude.{◌≡◌, ℕ, ◌+◌, ◌*◌, ◌<◌, ◌≤◌, ◌*ℤ◌, length, IfOk};
ghost use Rattle.ntru_ring.specs.Centring.{IsWithin, centred};
ghost use Rattle.ntru_ring.specs.Polynomials.{AreResidues, IsPolynomial, coefficient, coefficients};
ghost use Rattle.ntru_ring.specs.Product.{convolution, folded, product, ring_coefficient};

use crate::coefficients::centred;
use crate::{Poly3, PolyQ};
use mix_base::Memory;
use std::alloc::Global;

/// The product modulo 4591.
#[tactic(auto, using(crate::proofs::Ring::product_q_is_polynomial))]
pub fn mul_q(alloc: Global, a: &PolyQ, b: &PolyQ) -> Result<PolyQ, Memory>
    ensures value { IfOk result (λ p. p ≡ product 4591 a.now b.now) }
    // Each is the ring's coefficient over the integers, modulo 4591.
    ensures residues { IfOk result (AreResidues 4591 (ring_coefficient a.now b.now)) }
{
    let coefficients = product(alloc, &a.coefficients, &b.coefficients, 2295)?;
    Ok(PolyQ { coefficients })
}

/// The product modulo 3.
#[tactic(auto, using(crate::proofs::Ring::product_3_is_polynomial, crate::proofs::Lists::lifted_is_polynomial))]
pub fn mul_3(alloc: Global, a: &Poly3, b: &Poly3) -> Result<Poly3, Memory>
    ensures value { IfOk result (λ p. p ≡ product 3 a.now b.now) }
    // Each is the ring's coefficient over the integers, modulo 3.
    ensures residues { IfOk result (AreResidues 3 (ring_coefficient a.now b.now)) }
{
    let coefficients = product(alloc, &a.coefficients, &b.coefficients, 1)?;
    Ok(Poly3 { coefficients })
}

// The product modulo 2 half + 1.
fn product(alloc: Global, a: &[i16], b: &[i16], half: u16) -> Result<Vec<i16>, Memory>
    requires left { IsPolynomial 2295 a.now }
    requires right { IsPolynomial 2295 b.now }
    requires small { half ≤ 2295 }
    ensures { IfOk result (λ v. v.items ≡ product (2 * half + 1) a.now b.now) }
{
    let plain = convolution(alloc, a, b)?;
    let mut coefficients = Vec::with_capacity(alloc, 761)?;
    for place in 0..761 {
        coefficients.push(centred(folded(&plain, place), half))?;
    }
    Ok(coefficients)
}

// The plain product of two lists: its 1,521 places, and a last one that is zero.
fn convolution(alloc: Global, a: &[i16], b: &[i16]) -> Result<Vec<i64>, Memory>
    requires left { IsPolynomial 2295 a.now }
    requires right { IsPolynomial 2295 b.now }
    ensures value { IfOk result
        (λ v. v.items ≡ coefficients 1522 (convolution (coefficient a.now) (coefficient b.now))) }
    ensures small { IfOk result
        (λ v. (place : ℕ) → IsWithin (761 * 5267025) (coefficient v.items place)) }
{
    let mut plain = Vec::with_capacity(alloc, 1522)?;
    for place in 0..1522 {
        plain.push(convolution_at(a, b, place))?;
    }
    Ok(plain)
}

// The plain product at one place. Both lists end before the place 761, so pairs past it add nothing.
fn convolution_at(a: &[i16], b: &[i16], place: usize) -> i64
    requires left { IsPolynomial 2295 a.now }
    requires right { IsPolynomial 2295 b.now }
    requires in_range { place < 1522 }
    ensures value { result ≡ convolution (coefficient a.now) (coefficient b.now) place }
    ensures small { IsWithin (761 * 5267025) result }
{
    let start = place.saturating_sub(760);
    let end = (place + 1).min(761);
    let mut sum = 0;
    for i in start..end {
        sum += multiplied(a[i], b[place - i]);
    }
    sum
}

// The product of two coefficients.
#[inline]
fn multiplied(x: i16, y: i16) -> i64
    requires left { IsWithin 2295 x }
    requires right { IsWithin 2295 y }
    ensures value { result ≡ x *ℤ y }
    ensures small { IsWithin 5267025 result }
{
    i64::from(x) * i64::from(y)
}

// What comes to a place below 761 when x^761 is replaced by x + 1.
fn folded(plain: &[i64], place: usize) -> i64
    requires whole { length plain.now ≡ 1522 }
    requires small { (k : ℕ) → IsWithin (761 * 5267025) (coefficient plain.now k) }
    requires in_range { place < 761 }
    ensures value { result ≡ folded (coefficient plain.now) place }
    ensures small { IsWithin (3 * 761 * 5267025) result }
{
    if place == 0 {
        plain[0] + plain[761]
    } else {
        plain[place] + plain[761 + place] + plain[760 + place]
    }
}
