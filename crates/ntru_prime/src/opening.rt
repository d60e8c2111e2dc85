// The secret of a ciphertext, or that it is refused.
ghost use Rattle.std.specs.Prelude.{◌≡◌, length, IfOk};
ghost use Rattle.ntru_prime.specs.Answers.{Gives};
ghost use Rattle.ntru_prime.specs.Scheme.{checked, decapsulated, recovered};

use crate::faults::Refusal;
use crate::reading::{SecretKey, rounded_in, secret_key_in};
use crate::sealing::seal;
use mix_base::Memory;
use ntru_ring::{Poly3, PolyQ, lift, mul_3, mul_q, reduce_3, triple, weight};
use std::alloc::Global;

// The secret of a ciphertext of 1,047 bytes under a secret key of 1,600.
#[tactic(auto, unfolding(crate::specs::Scheme::decapsulated))]
pub(crate) fn opened(alloc: Global, sk: &[u8], ct: &[u8]) -> Result<[u8; 32], Refusal>
    requires secret_length { length sk.now ≡ 1600 }
    requires ciphertext_length { length ct.now ≡ 1047 }
    ensures { Gives result (decapsulated sk.now ct.now) }
{
    let (_check, rest) = ct.split_at(32);
    let c = rounded_in(alloc, rest)?;
    let key = secret_key_in(alloc, sk)?;
    let r = recovered(alloc, &key, &c)?;
    checked(alloc, &key.h, &r, ct)
}

// The r that a rounded part was made of, if any.
#[tactic(auto, unfolding(crate::specs::Scheme::recovered))]
fn recovered(alloc: Global, key: &SecretKey, c: &PolyQ) -> Result<Poly3, Memory>
    ensures { IfOk result (λ r. r ≡ recovered key.now c.now) }
{
    let triple = triple(alloc, &lift(alloc, &key.f)?)?;
    let e = reduce_3(alloc, &mul_q(alloc, &triple, c)?)?;
    mul_3(alloc, &e, &key.g_inverse)
}

// The secret of r, if r has weight 286 and gives this ciphertext.
#[tactic(auto, unfolding(crate::specs::Scheme::checked))]
fn checked(alloc: Global, h: &PolyQ, r: &Poly3, ct: &[u8]) -> Result<[u8; 32], Refusal>
    requires { length ct.now ≡ 1047 }
    ensures { Gives result (checked h.now r.now ct.now) }
{
    if weight(r) != 286 {
        return Err(Refusal::Refused);
    }
    let mut again = vec![in alloc; 0; 1047]?;
    let secret = seal(alloc, h, r, &mut again)?;
    if again.as_slice() == ct {
        Ok(secret)
    } else {
        Err(Refusal::Refused)
    }
}
