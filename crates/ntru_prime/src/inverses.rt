// Inverses in the ring, or that there is none.
ghost use Rattle.std.specs.Prelude.{◌≡◌, ◌/◌, ◌↔◌, List, ℤ, Some, IfOk};
ghost use Rattle.ntru_ring.specs.Polynomials.{IsPolynomial};
ghost use Rattle.field_solve.specs.Answers.{IsDivisor, IsInverse};
ghost use Rattle.field_solve.specs.Moduli.{prime_of};
ghost use Rattle.ntru_prime.specs.Answers.{Gives, OnRefused};
ghost use Rattle.ntru_prime.specs.Inverses.{inverse_of};

use crate::faults::Refusal;
use field_solve::{Modulus, Solved, invert};
use mix_base::Memory;
use ntru_ring::{Poly3, PolyQ, lift, reduce_3};
use std::alloc::Global;

// The inverse modulo 3.
pub(crate) fn inverse_3(alloc: Global, poly: &Poly3) -> Result<Poly3, Refusal>
    ensures value { Gives result (inverse_of 3 poly.now) }
    ensures inverse { IfOk result (IsInverse 3 poly.now) }
    ensures divisor { OnRefused result ((v : List ℤ) × IsDivisor 3 poly.now v) }
{
    poly.known_in_range();
    let inverse = inverse(alloc, Modulus::Three, &lift(alloc, poly)?)?;
    inverse.known_in_range();
    Ok(reduce_3(alloc, &inverse)?)
}

// The inverse modulo 4591.
pub(crate) fn inverse_q(alloc: Global, poly: &PolyQ) -> Result<PolyQ, Refusal>
    ensures value { Gives result (inverse_of 4591 poly.now) }
    ensures inverse { IfOk result (IsInverse 4591 poly.now) }
    ensures divisor { OnRefused result ((v : List ℤ) × IsDivisor 4591 poly.now v) }
{
    poly.known_in_range();
    inverse(alloc, Modulus::Q, poly)
}

// The inverse by either modulus.
#[tactic(auto, using(crate::proofs::Inversion::inverse_of_exactly))]
fn inverse(alloc: Global, modulus: Modulus, poly: &PolyQ) -> Result<PolyQ, Refusal>
    requires { IsPolynomial (prime_of modulus / 2) poly.now }
    ensures value { Gives result (inverse_of (prime_of modulus) poly.now) }
    // The inverse of the definition is any polynomial in range whose product is 1.
    ensures exactly { (u : List ℤ)
        → (inverse_of (prime_of modulus) poly.now ≡ Some u)
        ↔ IsInverse (prime_of modulus) poly.now u }
    ensures inverse { IfOk result (IsInverse (prime_of modulus) poly.now) }
    ensures divisor { OnRefused result ((v : List ℤ) × IsDivisor (prime_of modulus) poly.now v) }
{
    let list = coefficients(alloc, poly)?;
    match invert(alloc, modulus, &list)? {
        Solved::Inverse(inverse) => Ok(PolyQ::from_list(alloc, &inverse)?),
        Solved::Divisor(_) => Err(Refusal::Refused),
    }
}

// The coefficients as a list.
fn coefficients(alloc: Global, poly: &PolyQ) -> Result<Vec<i16>, Memory>
    ensures { IfOk result (λ list. list.items ≡ poly.now) }
{
    poly.known_in_range();
    let mut list = Vec::with_capacity(alloc, 761)?;
    for place in 0..761 {
        list.push(poly.at(place))?;
    }
    Ok(list)
}
