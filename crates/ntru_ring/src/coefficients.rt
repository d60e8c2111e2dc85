// What is done to each coefficient alone: tripling, the way from one ring to the other, rounding; and the count
// of those that aren't zero.
ghost use Rattle.std.specs.Prelude.{◌≡◌, ◌+◌, ◌*◌, ◌≤◌, pos, ◌*ℤ◌, IfOk};
ghost use Rattle.ntru_ring.specs.Centring.{IsWithin, centred, nearest_multiple};
ghost use Rattle.ntru_ring.specs.Polynomials.{AreNearestMultiples, AreResidues, IsPolynomial, coefficient, reduced, rounded, tripled, weight};

use crate::{Poly3, PolyQ};
use mix_base::Memory;
use std::alloc::Global;

/// Three times a polynomial, modulo 4591.
#[tactic(auto, using(crate::proofs::Lists::tripled_is_polynomial))]
pub fn triple(alloc: Global, a: &PolyQ) -> Result<PolyQ, Memory>
    ensures value { IfOk result (λ p. p ≡ tripled a.now) }
    // Each is three times that of its place, modulo 4591.
    ensures residues { IfOk result (AreResidues 4591 (λ place. coefficient a.now place *ℤ pos 3)) }
{
    let coefficients = each_tripled(alloc, &a.coefficients)?;
    Ok(PolyQ { coefficients })
}

fn each_tripled(alloc: Global, list: &[i16]) -> Result<Vec<i16>, Memory>
    ensures { IfOk result (λ v. v.items ≡ tripled list.now) }
{
    Ok(list.iter().map(|c| tripled(*c)).collect(alloc)?)
}

fn tripled(c: i16) -> i16
    ensures value { result ≡ centred 4591 (c *ℤ pos 3) }
    ensures near { IsWithin 2295 result }
{
    centred(3 * i64::from(c), 2295)
}

/// The same coefficients, as a polynomial modulo 4591.
pub fn lift(alloc: Global, a: &Poly3) -> Result<PolyQ, Memory>
    ensures { IfOk result (λ p. p ≡ a.now) }
{
    let coefficients = Vec::from_slice(alloc, &a.coefficients)?;
    Ok(PolyQ { coefficients })
}

/// Each coefficient modulo 3.
#[tactic(auto, using(crate::proofs::Lists::reduced_is_polynomial))]
pub fn reduce_3(alloc: Global, a: &PolyQ) -> Result<Poly3, Memory>
    ensures value { IfOk result (λ p. p ≡ reduced a.now) }
    // Each is that of its place, modulo 3.
    ensures residues { IfOk result (AreResidues 3 (coefficient a.now)) }
{
    let coefficients = each_reduced(alloc, &a.coefficients)?;
    Ok(Poly3 { coefficients })
}

fn each_reduced(alloc: Global, list: &[i16]) -> Result<Vec<i16>, Memory>
    ensures { IfOk result (λ v. v.items ≡ reduced list.now) }
{
    Ok(list.iter().map(|c| residue_3(*c)).collect(alloc)?)
}

fn residue_3(c: i16) -> i16
    ensures value { result ≡ centred 3 c }
    ensures near { IsWithin 1 result }
{
    centred(i64::from(c), 1)
}

/// Each coefficient rounded to the nearest multiple of 3. None leaves the range, since 2295 is a multiple.
#[tactic(auto, using(crate::proofs::Lists::rounded_is_polynomial))]
pub fn round_q(alloc: Global, a: &PolyQ) -> Result<PolyQ, Memory>
    ensures value { IfOk result (λ p. p ≡ rounded a.now) }
    ensures nearest { IfOk result (AreNearestMultiples a.now) }
{
    let coefficients = each_rounded(alloc, &a.coefficients)?;
    Ok(PolyQ { coefficients })
}

fn each_rounded(alloc: Global, list: &[i16]) -> Result<Vec<i16>, Memory>
    requires { IsPolynomial 2295 list.now }
    ensures { IfOk result (λ v. v.items ≡ rounded list.now) }
{
    let mut coefficients = Vec::with_capacity(alloc, list.len())?;
    for c in list {
        coefficients.push(rounded(*c))?;
    }
    Ok(coefficients)
}

// The multiples of 3 are those that lie a multiple of 3 above -2295, the least coefficient.
fn rounded(c: i16) -> i16
    requires { IsWithin 2295 c }
    ensures value { result ≡ nearest_multiple c }
    ensures near { IsWithin 2295 result }
{
    let third = (c + 2296) as u16 / 3;
    third as i16 * 3 - 2295
}

/// How many coefficients aren't zero.
pub fn weight(a: &Poly3) -> usize
    ensures { result ≡ weight a.now }
{
    a.coefficients.iter().filter(|c| **c != 0).count()
}

// The residue modulo 2 half + 1 that is nearest to zero.
pub(crate) fn centred(z: i64, half: u16) -> i16
    requires in_range { IsWithin (3 * 761 * 5267025) z }
    requires small { half ≤ 2295 }
    ensures value { result ≡ centred (2 * half + 1) z }
    ensures near { IsWithin half result }
{
    let half = i64::from(half);
    ((z + half).rem_euclid(2 * half + 1) - half) as i16
}
