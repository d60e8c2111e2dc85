// A suite whose mechanism decodes no key: what a maker answers where a key of the right length doesn't decode. Its other
// parts are the standard ones.
ghost use Rattle.std.specs.Prelude.{true, None, refl};
ghost use Rattle.prim_std.specs.StandardParts.{standard_meaning};

use mix_base::{EncapFault, Kem, Memory, PairFault, Suite, Words};
use prim_std::{ChaCha, HmacMac, LabelKdf, Lioness};
use std::alloc::Global;

#[derive(Drop)]
pub struct UnreadableKeys;

impl Kem for UnreadableKeys {
    ghost scheme = { record {
      public_key = 32;
      secret_key = 32;
      ciphertext = 48;
      coins = 0;
      pair = λ _. None;
      encapsulate = λ _ _. None;
      decapsulate = λ _ _. None;
    } };

    ghost PK = { 32 };

    ghost SK = { 32 };

    ghost CT = { 48 };

    ghost COINS = { 0 };

    ghost LEAN = { true };

    const PK: usize = 32;

    const SK: usize = 32;

    const CT: usize = 48;

    const COINS: usize = 0;

    const LEAN: bool = true;

    fn pair<W: Words>(
        _alloc: Global,
        _words: &mut W,
        _pk: &mut [u8],
        _sk: &mut [u8],
    ) -> Result<(), PairFault> {
        Err(PairFault::NoKey)
    }

    fn encap(
        _alloc: Global,
        _pk: &[u8],
        _coins: &[u32],
        _ct: &mut [u8],
        _secret: &mut [u8; 32],
    ) -> Result<(), EncapFault> {
        Err(EncapFault::KeyForm)
    }

    fn decap(
        _alloc: Global,
        _sk: &[u8],
        _ct: &[u8],
        _secret: &mut [u8; 32],
    ) -> Result<bool, Memory> {
        Ok(false)
    }

    ghost public_key_length = { refl };

    ghost secret_key_length = { refl };

    ghost ciphertext_length = { refl };

    ghost coins_length = { refl };
}

impl Suite for UnreadableKeys {
    type K = UnreadableKeys;

    type M = HmacMac;

    type D = LabelKdf;

    type C = ChaCha;

    type W = Lioness;

    ghost meaning = { standard_meaning (⟦<UnreadableKeys as Kem>⟧.scheme) };

    ghost made_of_parts = { refl };
}
