// LIONESS (Anderson and Biham, 1996): a cipher whose block is the whole message, in four rounds over ChaCha20
// and HMAC-SHA-256. Decryption and encryption undo each other, and keep the length of a block.
ghost use Rattle.std.specs.Prelude.{◌≡◌, ℕ, List, length};
ghost use Rattle.prim_std.specs.Primitives.{stream_round, hash_round, lioness_encrypted, lioness_decrypted};
ghost use Rattle.prim_std.specs.WideLaws.{lioness-decrypts, lioness-encrypts, lioness-encrypted-length, lioness-decrypted-length};

use crate::{chacha_xor, hmac_sha256};
use mix_base::{Wide, xor_into};

/// LIONESS with a left part of 32 bytes, as the wide block cipher of a suite.
#[derive(Drop)]
pub struct Lioness;

impl Wide for Lioness {
    ghost encrypted = { lioness_encrypted };

    ghost decrypted = { lioness_decrypted };

    #[tactic(auto, unfolding(crate::specs::Primitives::lioness_encrypted))]
    fn encrypt(key: &[u8; 128], block: &mut [u8]) {
        let (left, right) = block.split_at_mut(32);
        mask_right(&key[0..32], left, right);
        mask_left(&key[32..64], left, right);
        mask_right(&key[64..96], left, right);
        mask_left(&key[96..128], left, right);
    }

    #[tactic(auto, unfolding(crate::specs::Primitives::lioness_decrypted))]
    fn decrypt(key: &[u8; 128], block: &mut [u8]) {
        let (left, right) = block.split_at_mut(32);
        mask_left(&key[96..128], left, right);
        mask_right(&key[64..96], left, right);
        mask_left(&key[32..64], left, right);
        mask_right(&key[0..32], left, right);
    }

    ghost decrypts = { lioness-decrypts };

    ghost encrypts = { lioness-encrypts };

    ghost encrypted_length = { lioness-encrypted-length };

    ghost decrypted_length = { lioness-decrypted-length };
}

// Xors the right part with the stream whose key is the left part xored with the round's key.
#[tactic(auto, unfolding(crate::specs::Primitives::stream_round))]
fn mask_right(key: &[u8], left: &[u8], right: &mut [u8])
    requires key_length { length key.now ≡ 32 }
    requires left_length { length left.now ≡ 32 }
    ensures { (left.now, right.new) ≡ stream_round key.now (left.now, right.old) }
{
    let mut stream_key = [0; 32];
    stream_key.copy_from_slice(left);
    xor_into(&mut stream_key, key);
    chacha_xor(&stream_key, right);
}

// Xors the left part with the code of the right part under the round's key.
#[tactic(auto, unfolding(crate::specs::Primitives::hash_round))]
fn mask_left(key: &[u8], left: &mut [u8], right: &[u8])
    requires { length left.old ≡ 32 }
    ensures { (left.new, right.now) ≡ hash_round key.now (left.old, right.now) }
{
    xor_into(left, &hmac_sha256(key, right));
}
