// The pair of keys of a generator's words.
ghost use Rattle.std.specs.Prelude.{◌≡◌, length, IfOk};
ghost use Rattle.mix_base.specs.WordStreams.{GoesOn, SkipsWords, first_words};
ghost use Rattle.ntru_prime.specs.Answers.{Gives, OnRefused};
ghost use Rattle.ntru_prime.specs.Pairs.{AllPassedOver, HasDivisor, IsFirstKey, IsKeyOf};
ghost use Rattle.ntru_prime.specs.Scheme.{candidate, first_candidate, keys};

use crate::drawing::{drawn_polynomial, weight_polynomial};
use crate::faults::Refusal;
use crate::inverses::{inverse_3, inverse_q};
use crate::reading::SecretKey;
use mix_base::{Words, draw};
use ntru_code::{encode_q, encode_small};
use ntru_ring::{lift, mul_q, triple};
use std::alloc::Global;

// The key of the first candidate that has one, of 64.
pub(crate) fn first_candidate<W: Words>(alloc: Global, words: &mut W) -> Result<SecretKey, Refusal>
    ensures value { Gives result (first_candidate (W.to_come words.old)) }
    ensures first { IfOk result (IsFirstKey (W.to_come words.old) (W.to_come words.new)) }
    ensures passed_over { OnRefused result
        (AllPassedOver (W.to_come words.old) (W.to_come words.new)) }
    ensures words { GoesOn (W.to_come words.old) (W.to_come words.new) }
{
    let mut drawn = vec![in alloc; 0; 1522]?;
    'candidates: for _number in 0..64usize {
        match next_candidate(alloc, words, &mut drawn) {
            Ok(key) => return Ok(key),
            Err(Refusal::Refused) => {}
            Err(Refusal::Memory) => return Err(Refusal::Memory),
        }
    }
    Err(Refusal::Refused)
}

// The key of the next 1,522 words, where they make one. They are left in the list.
fn next_candidate<W: Words>(
    alloc: Global,
    words: &mut W,
    drawn: &mut [u32],
) -> Result<SecretKey, Refusal>
    requires { length drawn.old ≡ 1522 }
    ensures value { Gives result (candidate (first_words (W.to_come words.old) 1522)) }
    ensures key { IfOk result (IsKeyOf (first_words (W.to_come words.old) 1522)) }
    ensures divisor { OnRefused result (HasDivisor (first_words (W.to_come words.old) 1522)) }
    ensures rest { SkipsWords 1522 (W.to_come words.old) (W.to_come words.new) }
{
    draw(words, drawn);
    candidate(alloc, drawn)
}

// The key of 1,522 words, where they make one.
#[tactic(auto, unfolding(crate::specs::Scheme::candidate))]
fn candidate(alloc: Global, words: &[u32]) -> Result<SecretKey, Refusal>
    requires { length words.now ≡ 1522 }
    ensures value { Gives result (candidate words.now) }
    ensures key { IfOk result (IsKeyOf words.now) }
    ensures divisor { OnRefused result (HasDivisor words.now) }
{
    let (first, second) = words.split_at(761);
    let g = drawn_polynomial(alloc, first)?;
    let g_inverse = inverse_3(alloc, &g)?;
    let f = weight_polynomial(alloc, second)?;
    let f_inverse = inverse_q(alloc, &triple(alloc, &lift(alloc, &f)?)?)?;
    let h = mul_q(alloc, &lift(alloc, &g)?, &f_inverse)?;
    Ok(SecretKey { f, g_inverse, h })
}

// Writes the public and the secret key.
#[tactic(auto, unfolding(crate::specs::Scheme::keys))]
pub(crate) fn write_keys(key: &SecretKey, pk: &mut [u8], sk: &mut [u8])
    requires public_length { length pk.old ≡ 1218 }
    requires secret_length { length sk.old ≡ 1600 }
    ensures { (pk.new, sk.new) ≡ keys key.now }
{
    encode_q(&key.h, pk);
    let (f, rest) = sk.split_at_mut(191);
    let (g_inverse, h) = rest.split_at_mut(191);
    encode_small(&key.f, f);
    encode_small(&key.g_inverse, g_inverse);
    h.copy_from_slice(pk);
}
