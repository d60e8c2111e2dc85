// A ciphertext and a secret of a polynomial r, by which encapsulation makes them and decapsulation checks them.
ghost use Rattle.std.specs.Prelude.{◌≡◌, length, IfOk, OnErr};
ghost use Rattle.sha2.specs.Sha512.{sha512};
ghost use Rattle.ntru_code.specs.Forms.{small, spelling};
ghost use Rattle.ntru_prime.specs.Answers.{GivesAs};
ghost use Rattle.ntru_prime.specs.Scheme.{encapsulated, sealed};

use crate::drawing::weight_polynomial;
use crate::faults::Refusal;
use crate::reading::whole_in;
use mix_base::Memory;
use ntru_code::{encode_rounded, encode_small};
use ntru_ring::{Poly3, PolyQ, lift, mul_q, round_q};
use sha2::{Digest, Sha512};
use std::alloc::Global;

// Writes the ciphertext of r under the public polynomial h, 1,047 bytes, and answers the secret. Memory is taken before
// the first byte is written.
#[tactic(auto, unfolding(crate::specs::Scheme::sealed))]
pub(crate) fn seal(alloc: Global, h: &PolyQ, r: &Poly3, ct: &mut [u8]) -> Result<[u8; 32], Memory>
    requires { length ct.old ≡ 1047 }
    ensures value { IfOk result (λ secret. (ct.new, secret) ≡ sealed h.now r.now) }
    ensures untouched { OnErr result (ct.new ≡ ct.old) }
{
    let c = round_q(alloc, &mul_q(alloc, h, &lift(alloc, r)?)?)?;
    let hash = hash_of(r);
    let (check, rest) = hash.split_at(32);
    let (front, back) = ct.split_at_mut(32);
    front.copy_from_slice(check);
    encode_rounded(&c, back);
    let mut secret = [0; 32];
    secret.copy_from_slice(rest);
    Ok(secret)
}

// The SHA-512 of the small form of r.
fn hash_of(r: &Poly3) -> [u8; 64]
    ensures { result ≡ sha512 (spelling small r.now) }
{
    let mut bytes = [0; 191];
    encode_small(r, &mut bytes);
    Sha512::digest(&bytes)
}

// Writes the ciphertext of the coins to a public key, and answers the secret.
#[tactic(auto, unfolding(crate::specs::Scheme::encapsulated))]
pub(crate) fn encapsulated(
    alloc: Global,
    pk: &[u8],
    coins: &[u32],
    ct: &mut [u8],
) -> Result<[u8; 32], Refusal>
    requires public_length { length pk.now ≡ 1218 }
    requires coins { length coins.now ≡ 761 }
    requires ciphertext_length { length ct.old ≡ 1047 }
    ensures value { GivesAs (λ secret. (ct.new, secret)) result (encapsulated pk.now coins.now) }
    ensures untouched { OnErr result (ct.new ≡ ct.old) }
{
    let h = whole_in(alloc, pk)?;
    let r = weight_polynomial(alloc, coins)?;
    Ok(seal(alloc, &h, &r, ct)?)
}
