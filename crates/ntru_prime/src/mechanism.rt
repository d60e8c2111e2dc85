// The mechanism as code above calls it, and its suite. Nearly all of the work of a pair is in two inversions, and of an
// encapsulation and a decapsulation in one product and three.
ghost use Rattle.std.specs.Prelude.{◌≡◌, length, false, Some, None, OnOk, IsErrOf, refl};
ghost use Rattle.mix_base.specs.WordStreams.{GoesOn};
ghost use Rattle.ntru_prime.specs.Pairs.{AllPassedOver, IsFirstPair};
ghost use Rattle.ntru_prime.specs.Scheme.{ntru_meaning, ntru_scheme};

use crate::faults::Refusal;
use crate::opening::opened;
use crate::pairs::{first_candidate, write_keys};
use crate::sealing::encapsulated;
use mix_base::{EncapFault, Kem, Memory, PairFault, Suite, Words};
use prim_std::{ChaCha, HmacMac, LabelKdf, Lioness};
use std::alloc::Global;

/// The mechanism after sntrup4591761: public keys of 1,218 bytes, secret keys of 1,600, ciphertexts of 1,047, and 761
/// words as coins. Every call may take memory. After want of memory the output slices are as they were; after another
/// refusal, or false, they hold any bytes.
#[derive(Drop)]
pub struct NtruKem;

impl Kem for NtruKem {
    ghost scheme = { ntru_scheme };

    ghost PK = { 1218 };

    ghost SK = { 1600 };

    ghost CT = { 1047 };

    ghost COINS = { 761 };

    ghost LEAN = { false };

    const PK: usize = 1218;

    const SK: usize = 1600;

    const CT: usize = 1047;

    const COINS: usize = 761;

    const LEAN: bool = false;

    /// The pair of the first of 64 candidates, of 1,522 words each, that has no divisor of zero: its g has an inverse
    /// modulo 3, and its 3f one modulo 4591.
    #[tactic(auto, unfolding(crate::specs::Scheme::pair))]
    fn pair<W: Words>(
        alloc: Global,
        words: &mut W,
        pk: &mut [u8],
        sk: &mut [u8],
    ) -> Result<(), PairFault>
        requires public_length { length pk.old ≡ 1218 }
        requires secret_length { length sk.old ≡ 1600 }
        ensures ok { OnOk result (ntru_scheme.pair (W.to_come words.old) ≡ Some (pk.new, sk.new)) }
        ensures no_key { IsErrOf result PairFault.NoKey
            → ntru_scheme.pair (W.to_come words.old) ≡ None }
        // The same in the ring: inverses by their products, and a divisor of zero for each candidate passed over.
        ensures first { OnOk result
            (IsFirstPair (W.to_come words.old) (W.to_come words.new) pk.new sk.new) }
        ensures passed_over { IsErrOf result PairFault.NoKey
            → AllPassedOver (W.to_come words.old) (W.to_come words.new) }
        ensures words { GoesOn (W.to_come words.old) (W.to_come words.new) }
        ensures memory_public { IsErrOf result PairFault.Memory → pk.new ≡ pk.old }
        ensures memory_secret { IsErrOf result PairFault.Memory → sk.new ≡ sk.old }
    {
        match first_candidate(alloc, words) {
            Ok(key) => {
                write_keys(&key, pk, sk);
                Ok(())
            }
            Err(Refusal::Refused) => Err(PairFault::NoKey),
            Err(Refusal::Memory) => Err(PairFault::Memory),
        }
    }

    /// The ciphertext and the secret of the polynomial of weight 286 of the coins. `KeyForm` comes exactly where a
    /// field of the public key is out of range.
    fn encap(
        alloc: Global,
        pk: &[u8],
        coins: &[u32],
        ct: &mut [u8],
        secret: &mut [u8; 32],
    ) -> Result<(), EncapFault> {
        match encapsulated(alloc, pk, coins, ct) {
            Ok(found) => {
                *secret = found;
                Ok(())
            }
            Err(Refusal::Refused) => Err(EncapFault::KeyForm),
            Err(Refusal::Memory) => Err(EncapFault::Memory),
        }
    }

    /// True, with the secret, where the ciphertext decapsulates; false where it is refused.
    fn decap(alloc: Global, sk: &[u8], ct: &[u8], secret: &mut [u8; 32]) -> Result<bool, Memory> {
        match opened(alloc, sk, ct) {
            Ok(found) => {
                *secret = found;
                Ok(true)
            }
            Err(Refusal::Refused) => Ok(false),
            Err(Refusal::Memory) => Err(Memory),
        }
    }

    ghost public_key_length = { refl };

    ghost secret_key_length = { refl };

    ghost ciphertext_length = { refl };

    ghost coins_length = { refl };
}

/// The suite: the mechanism after sntrup4591761, HMAC-SHA-256, HKDF-Expand for the label, ChaCha20 and LIONESS.
#[derive(Drop)]
pub struct NtruSuite;

impl Suite for NtruSuite {
    type K = NtruKem;

    type M = HmacMac;

    type D = LabelKdf;

    type C = ChaCha;

    type W = Lioness;

    ghost meaning = { ntru_meaning };

    ghost made_of_parts = { refl };
}
