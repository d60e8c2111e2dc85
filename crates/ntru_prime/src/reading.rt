// Bytes read as polynomials, and a secret key as its three parts.
ghost use Rattle.std.specs.Prelude.{◌≡◌, ◌↔◌, ℕ, List, length, IfOk, IsSome, IsTrue};
ghost use Rattle.ntru_prime.specs.Answers.{Gives};
ghost use Rattle.ntru_prime.specs.Reading.{is_public_key, rounded_in, secret_key_in, small_in, whole_in};
ghost use Rattle.ntru_prime.specs.Scheme.{encapsulated};

use crate::faults::Refusal;
use mix_base::Memory;
use ntru_code::{decode_q, decode_rounded, decode_small};
use ntru_ring::{Poly3, PolyQ};
use std::alloc::Global;

/// The parts of a secret key: f, the inverse of g modulo 3, and the public polynomial h.
#[derive(Drop)]
pub(crate) struct SecretKey {
    pub(crate) f: Poly3,
    pub(crate) g_inverse: Poly3,
    pub(crate) h: PolyQ,
}

// The polynomial of 191 bytes in the small form.
pub(crate) fn small_in(alloc: Global, bytes: &[u8]) -> Result<Poly3, Refusal>
    requires { length bytes.now ≡ 191 }
    ensures { Gives result (small_in bytes.now) }
{
    let polynomial = decode_small(alloc, bytes)?;
    polynomial.known_in_range();
    Ok(polynomial)
}

// The polynomial of 1,218 bytes in the form modulo 4591.
pub(crate) fn whole_in(alloc: Global, bytes: &[u8]) -> Result<PolyQ, Refusal>
    requires { length bytes.now ≡ 1218 }
    ensures { Gives result (whole_in bytes.now) }
{
    let polynomial = decode_q(alloc, bytes)?;
    polynomial.known_in_range();
    Ok(polynomial)
}

/// Whether 1,218 bytes are a public key: no field is out of range. Takes memory for the polynomial that they spell.
pub fn is_public_key(alloc: Global, bytes: &[u8]) -> Result<bool, Memory>
    requires { length bytes.now ≡ 1218 }
    ensures exact { IfOk result (λ is_key. is_key ≡ is_public_key bytes.now) }
    // Encapsulation has a value exactly for such a key, whatever the coins.
    ensures encapsulates { IfOk result (λ is_key. (coins : List ℕ) →
        IsTrue is_key ↔ IsSome (encapsulated bytes.now coins)) }
{
    match whole_in(alloc, bytes) {
        Ok(_) => Ok(true),
        Err(Refusal::Refused) => Ok(false),
        Err(Refusal::Memory) => Err(Memory),
    }
}

// The polynomial of 1,015 bytes in the rounded form.
pub(crate) fn rounded_in(alloc: Global, bytes: &[u8]) -> Result<PolyQ, Refusal>
    requires { length bytes.now ≡ 1015 }
    ensures { Gives result (rounded_in bytes.now) }
{
    let polynomial = decode_rounded(alloc, bytes)?;
    polynomial.known_in_range();
    Ok(polynomial)
}

// The parts of a secret key of 1,600 bytes.
#[tactic(auto, unfolding(crate::specs::Reading::secret_key_in))]
pub(crate) fn secret_key_in(alloc: Global, bytes: &[u8]) -> Result<SecretKey, Refusal>
    requires { length bytes.now ≡ 1600 }
    ensures { Gives result (secret_key_in bytes.now) }
{
    let (front, rest) = bytes.split_at(191);
    let (middle, back) = rest.split_at(191);
    let f = small_in(alloc, front)?;
    let g_inverse = small_in(alloc, middle)?;
    let h = whole_in(alloc, back)?;
    Ok(SecretKey { f, g_inverse, h })
}
