// SHA-256 (FIPS 180-4), and HMAC over it (RFC 2104) for a message that comes in pieces. Each code is that of
// the whole message, however it was cut.
ghost use Rattle.std.specs.Prelude.{◌≡◌, ℕ, ◌-◌, ◌≤◌, List, [], ◌++◌, length, replicate};
ghost use Rattle.sha2.specs.Sha256.{sha256};
ghost use Rattle.mix_base.specs.ByteLists.{xor};
ghost use Rattle.prim_std.specs.HashLaws.{length-hmac};
ghost use Rattle.prim_std.specs.Primitives.{hmac, key_block};

use mix_base::{Mac, xor_into};
use sha2::Digest;

// The bytes that the key is xored with, for the inner and the outer hash.
const INNER: u8 = 0x36;

const OUTER: u8 = 0x5c;

/// The SHA-256 of a message. That of a KEM ciphertext is its replay tag.
pub fn sha256(message: &[u8]) -> [u8; 32]
    ensures { result ≡ sha256 message.now }
{
    sha2::Sha256::digest(message)
}

/// The HMAC-SHA-256 of a message that is added piece by piece.
#[derive(Drop)]
pub struct Hmac {
    // Behind the key under `INNER`, the message so far.
    inner: sha2::Sha256,
    // The key under `OUTER`.
    outer: sha2::Sha256,
}

impl Hmac {
    ghost use Rattle.prim_std.specs.Hashers.{Holds};

    /// The empty message under a key of any length.
    pub fn new(key: &[u8]) -> Hmac
        ensures { Holds result key.now [] }
    {
        let block = block_of(key);
        let mut inner = sha2::Sha256::new();
        inner.update(&masked(&block, INNER));
        let mut outer = sha2::Sha256::new();
        outer.update(&masked(&block, OUTER));
        Hmac { inner, outer }
    }

    /// Adds the bytes at the end of the message.
    pub fn add(&mut self, bytes: &[u8])
        ensures { (key message : List ℕ) → Holds self.old key message →
            Holds self.new key (message ++ bytes.now) }
    {
        self.inner.update(bytes);
    }

    /// The code of the message, 32 bytes.
    pub fn finish(self) -> [u8; 32]
        ensures { (key message : List ℕ) → Holds self key message → result ≡ hmac key message }
    {
        let Hmac { inner, mut outer } = self;
        outer.update(&inner.finalize());
        outer.finalize()
    }
}

/// The HMAC-SHA-256 of a message under a key, each of any length.
pub fn hmac_sha256(key: &[u8], message: &[u8]) -> [u8; 32]
    ensures { result ≡ hmac key.now message.now }
{
    let mut code = Hmac::new(key);
    code.add(message);
    code.finish()
}

// The key as a block of the hash.
#[tactic(auto, unfolding(crate::specs::Primitives::key_block))]
fn block_of(key: &[u8]) -> [u8; 64]
    ensures { result ≡ key_block key.now }
{
    if 64 < key.len() {
        padded(&sha256(key))
    } else {
        padded(key)
    }
}

// The bytes, and zeros behind them up to 64.
fn padded(bytes: &[u8]) -> [u8; 64]
    requires { length bytes.now ≤ 64 }
    ensures { result ≡ bytes.now ++ replicate (64 - length bytes.now) 0 }
{
    let mut block = [0; 64];
    block[..bytes.len()].copy_from_slice(bytes);
    block
}

// The key's block, each byte xored with `byte`.
fn masked(block: &[u8; 64], byte: u8) -> [u8; 64]
    ensures { result ≡ xor block.now (replicate 64 byte) }
{
    let mut masked = *block;
    xor_into(&mut masked, &[byte; 64]);
    masked
}

/// HMAC-SHA-256 as the code of a suite.
#[derive(Drop)]
pub struct HmacMac;

impl Mac for HmacMac {
    ghost code = { hmac };

    fn tag(key: &[u8; 32], message: &[u8]) -> [u8; 32] {
        hmac_sha256(key, message)
    }

    ghost code_length = { λ key message _. length-hmac key message };
}
