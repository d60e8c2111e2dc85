// The laboratory mechanism and suite, for tests and rehearsals. The mechanism has no secrecy at all: who has a
// public key can open what was made for it. Its calls never fail and take no memory.
ghost use Rattle.std.specs.Prelude.{◌≡◌, ℕ, ◌+◌, ◌*◌, ◌∷◌, List, length, true, Some, None, IfOk, OnOk, IsOk, IsTrue, if◌then◌else◌, refl};
ghost use Rattle.mix_base.specs.Suites.{Agrees};
ghost use Rattle.mix_base.specs.WordStreams.{GoesOn, SkipsWords};
ghost use Rattle.prim_std.specs.Primitives.{hmac};
ghost use Rattle.prim_std.specs.Laboratory.{lab_scheme, lab_meaning};

use crate::{ChaCha, Hmac, HmacMac, LabelKdf, Lioness};
use mix_base::{EncapFault, Kem, Memory, PairFault, Suite, Words, draw, write_words};
use std::alloc::Global;

/// The laboratory mechanism: keys of 32 bytes, the public and the secret key the same, and a ciphertext of 48.
#[derive(Drop)]
pub struct LabKem;

impl Kem for LabKem {
    ghost scheme = { lab_scheme };

    ghost PK = { 32 };

    ghost SK = { 32 };

    ghost CT = { 48 };

    ghost COINS = { 8 };

    ghost LEAN = { true };

    const PK: usize = 32;

    const SK: usize = 32;

    const CT: usize = 48;

    const COINS: usize = 8;

    const LEAN: bool = true;

    /// Both keys are the next eight words. Never fails.
    #[tactic(auto, using(crate::specs::LaboratoryLaws::lab_agrees), unfolding(crate::specs::Laboratory::lab_key))]
    fn pair<W: Words>(
        _alloc: Global,
        words: &mut W,
        pk: &mut [u8],
        sk: &mut [u8],
    ) -> Result<(), PairFault>
        requires public_length { length pk.old ≡ 32 }
        requires secret_length { length sk.old ≡ 32 }
        ensures ok { lab_scheme.pair (W.to_come words.old) ≡ Some (pk.new, sk.new) }
        ensures never_refused { IsOk result }
        // What is encapsulated to the public key is opened by the secret one.
        ensures agrees { Agrees lab_scheme pk.new sk.new }
        ensures words { GoesOn (W.to_come words.old) (W.to_come words.new) }
        ensures eight_words { SkipsWords 8 (W.to_come words.old) (W.to_come words.new) }
    {
        let mut drawn = [0; 8];
        draw(words, &mut drawn);
        write_words(&drawn, pk);
        sk.copy_from_slice(pk);
        Ok(())
    }

    /// The ciphertext is the coins and a check of them. Never fails.
    #[tactic(auto, unfolding(crate::specs::Laboratory::lab_ciphertext, crate::specs::Laboratory::lab_check, crate::specs::Laboratory::lab_secret))]
    fn encap(
        _alloc: Global,
        pk: &[u8],
        coins: &[u32],
        ct: &mut [u8],
        secret: &mut [u8; 32],
    ) -> Result<(), EncapFault>
        requires public_length { length pk.now ≡ 32 }
        requires coins { length coins.now ≡ 8 }
        requires ciphertext_length { length ct.old ≡ 48 }
        ensures ok { lab_scheme.encapsulate pk.now coins.now ≡ Some (ct.new, secret.new) }
        ensures never_refused { IsOk result }
    {
        let (bytes, check) = ct.split_at_mut(32);
        write_words(coins, bytes);
        check.copy_from_slice(&code_behind(pk, 0, bytes)[..16]);
        *secret = code_behind(pk, 1, bytes);
        Ok(())
    }

    /// True just where the last 16 bytes of the ciphertext are the check of the first 32. Never fails.
    #[tactic(auto, unfolding(crate::specs::Laboratory::lab_opened, crate::specs::Laboratory::lab_check, crate::specs::Laboratory::lab_secret))]
    fn decap(_alloc: Global, sk: &[u8], ct: &[u8], secret: &mut [u8; 32]) -> Result<bool, Memory>
        requires secret_length { length sk.now ≡ 32 }
        requires ciphertext_length { length ct.now ≡ 48 }
        ensures answer { IfOk result
            (λ found. lab_scheme.decapsulate sk.now ct.now
            ≡ (if found then Some secret.new else None)) }
        ensures never_refused { IsOk result }
    {
        let (bytes, check) = ct.split_at(32);
        let found = check == &code_behind(sk, 0, bytes)[..16];
        *secret = code_behind(sk, 1, bytes);
        Ok(found)
    }

    ghost public_key_length = { refl };

    ghost secret_key_length = { refl };

    ghost ciphertext_length = { refl };

    ghost coins_length = { refl };
}

// The code of the bytes behind a first byte.
fn code_behind(key: &[u8], first: u8, bytes: &[u8]) -> [u8; 32]
    ensures { result ≡ hmac key.now (first ∷ bytes.now) }
{
    let mut code = Hmac::new(key);
    code.add(&[first]);
    code.add(bytes);
    code.finish()
}

/// The laboratory suite: the laboratory mechanism, HMAC-SHA-256, HKDF-Expand for the label, ChaCha20 and
/// LIONESS.
#[derive(Drop)]
pub struct LabSuite;

impl Suite for LabSuite {
    type K = LabKem;

    type M = HmacMac;

    type D = LabelKdf;

    type C = ChaCha;

    type W = Lioness;

    ghost meaning = { lab_meaning };

    ghost made_of_parts = { refl };
}
