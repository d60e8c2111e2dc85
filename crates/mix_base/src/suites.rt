// The parts of a cipher suite, each a trait whose meaning is a function on lists of bytes, and the suite
// that joins them. Code above is generic in the suite, and its contracts are about the suite's meaning.
ghost use Rattle.std.specs.Prelude.{◌≡◌, ℕ, ◌<◌, Bool, List, length, Some, None, IfOk, OnOk, OnErr, IsOk, IsTrue, IsErrOf, if◌then◌else◌};
ghost use Rattle.mix_base.specs.ByteLists.{xor_stream};
ghost use Rattle.mix_base.specs.Suites.{KemScheme, SuiteMeaning};
ghost use Rattle.mix_base.specs.WordStreams.{GoesOn};
ghost use Rattle.mix_base.specs.XorLaws.{xor_stream-xor_stream};
ghost use Rattle.mix_base.specs.declared.suites.HopKeys.{HopKeys};

use crate::{Memory, Words};
use std::alloc::Global;
use thiserror::Error;

/// The keys of one hop, from the hop's secret.
#[derive(Clone, Copy)]
pub struct HopKeys {
    /// Of the header's MAC.
    pub mac: [u8; 32],
    /// Of the stream that hides the routing information.
    pub stream: [u8; 32],
    /// Of the wide block cipher on the payload.
    pub wide: [u8; 128],
}

/// A stream cipher.
pub trait Stream: Drop {
    /// The stream's byte at each place from 0 under a key.
    ghost byte: { List ℕ → ℕ → ℕ };

    /// Xors byte i of the buffer with the stream's byte of place i, whatever the buffer's length.
    fn xor(key: &[u8; 32], buf: &mut [u8])
        ensures { buf.new ≡ xor_stream (byte key.now) 0 buf.old };

    /// A second xor with the same key undoes the first.
    ghost undoes: { (key bytes : List ℕ) →
        xor_stream (byte key) 0 (xor_stream (byte key) 0 bytes) ≡ bytes } = { λ key bytes.
            xor_stream-xor_stream (byte key) 0 bytes };
}

/// A message authentication code.
pub trait Mac: Drop {
    /// The code of a message under a key.
    ghost code: { List ℕ → List ℕ → List ℕ };

    /// The code of the message, 32 bytes.
    fn tag(key: &[u8; 32], message: &[u8]) -> [u8; 32]
        ensures { result ≡ code key.now message.now };

    /// It has 32 bytes under every key of that length.
    ghost code_length: { (key message : List ℕ) → length key ≡ 32 →
        length (code key message) ≡ 32 };
}

/// A derivation of a hop's keys.
pub trait Kdf: Drop {
    /// The keys of a secret.
    ghost keys: { List ℕ → HopKeys };

    /// The keys of the hop that has this secret.
    fn expand(secret: &[u8; 32]) -> HopKeys
        ensures { result ≡ keys secret.now };
}

/// A block cipher whose block is the whole message. A block is longer than 32 bytes.
pub trait Wide: Drop {
    ghost encrypted: { List ℕ → List ℕ → List ℕ };

    ghost decrypted: { List ℕ → List ℕ → List ℕ };

    /// Encrypts the block in place.
    fn encrypt(key: &[u8; 128], block: &mut [u8])
        requires { 32 < length block.old }
        ensures { block.new ≡ encrypted key.now block.old };

    /// Decrypts the block in place.
    fn decrypt(key: &[u8; 128], block: &mut [u8])
        requires { 32 < length block.old }
        ensures { block.new ≡ decrypted key.now block.old };

    /// Decryption undoes encryption.
    ghost decrypts: { (key block : List ℕ) → 32 < length block →
        decrypted key (encrypted key block) ≡ block };

    /// Encryption undoes decryption.
    ghost encrypts: { (key block : List ℕ) → 32 < length block →
        encrypted key (decrypted key block) ≡ block };

    /// Both keep the length of a block.
    ghost encrypted_length: { (key block : List ℕ) → 32 < length block →
        length (encrypted key block) ≡ length block };

    ghost decrypted_length: { (key block : List ℕ) → 32 < length block →
        length (decrypted key block) ≡ length block };
}

/// Why `Kem::pair` gave no pair.
#[derive(Clone, Copy, Debug, PartialEq, Eq, Error)]
pub enum PairFault {
    /// The words make no pair.
    #[error("the words make no key pair")]
    NoKey,
    #[error("want of memory")]
    Memory,
}

/// Why `Kem::encap` gave no ciphertext.
#[derive(Clone, Copy, Debug, PartialEq, Eq, Error)]
pub enum EncapFault {
    /// The public key doesn't decode.
    #[error("the public key doesn't decode")]
    KeyForm,
    #[error("want of memory")]
    Memory,
}

/// A key encapsulation mechanism. After a refusal the output slices hold any bytes; want of memory leaves them as they
/// were.
pub trait Kem: Drop {
    /// Its lengths and functions.
    ghost scheme: { KemScheme };

    ghost PK: { ℕ };

    ghost SK: { ℕ };

    ghost CT: { ℕ };

    ghost COINS: { ℕ };

    ghost LEAN: { Bool };

    /// The length of a public key in bytes.
    const PK: usize;

    /// The length of a secret key in bytes.
    const SK: usize;

    /// The length of a ciphertext in bytes.
    const CT: usize;

    /// The number of 32-bit words that an encapsulation takes.
    const COINS: usize;

    /// Whether decapsulation takes no memory.
    const LEAN: bool;

    /// The pair of the words to come. Some of these, from the front, are taken.
    fn pair<W: Words>(
        alloc: Global,
        words: &mut W,
        pk: &mut [u8],
        sk: &mut [u8],
    ) -> Result<(), PairFault>
        requires public_length { length pk.old ≡ PK }
        requires secret_length { length sk.old ≡ SK }
        ensures ok { OnOk result (scheme.pair (W.to_come words.old) ≡ Some (pk.new, sk.new)) }
        ensures no_key { IsErrOf result PairFault.NoKey → scheme.pair (W.to_come words.old) ≡ None }
        ensures words { GoesOn (W.to_come words.old) (W.to_come words.new) }
        ensures memory_public { IsErrOf result PairFault.Memory → pk.new ≡ pk.old }
        ensures memory_secret { IsErrOf result PairFault.Memory → sk.new ≡ sk.old };

    /// A ciphertext for the public key, and the secret that it carries.
    fn encap(
        alloc: Global,
        pk: &[u8],
        coins: &[u32],
        ct: &mut [u8],
        secret: &mut [u8; 32],
    ) -> Result<(), EncapFault>
        requires public_length { length pk.now ≡ PK }
        requires coins { length coins.now ≡ COINS }
        requires ciphertext_length { length ct.old ≡ CT }
        ensures ok { OnOk result (scheme.encapsulate pk.now coins.now ≡ Some (ct.new, secret.new)) }
        ensures key_form { IsErrOf result EncapFault.KeyForm →
            scheme.encapsulate pk.now coins.now ≡ None }
        ensures memory_ciphertext { IsErrOf result EncapFault.Memory → ct.new ≡ ct.old }
        ensures memory_secret { IsErrOf result EncapFault.Memory → secret.new ≡ secret.old };

    /// The secret of a ciphertext, and true; or false, where the ciphertext is refused.
    fn decap(alloc: Global, sk: &[u8], ct: &[u8], secret: &mut [u8; 32]) -> Result<bool, Memory>
        requires secret_length { length sk.now ≡ SK }
        requires ciphertext_length { length ct.now ≡ CT }
        ensures answer { IfOk result
            (λ found. scheme.decapsulate sk.now ct.now
            ≡ (if found then Some secret.new else None)) }
        ensures lean { IsTrue LEAN → IsOk result }
        ensures memory { OnErr result (secret.new ≡ secret.old) };

    /// The constants are the scheme's lengths.
    ghost public_key_length: { scheme.public_key ≡ PK };

    ghost secret_key_length: { scheme.secret_key ≡ SK };

    ghost ciphertext_length: { scheme.ciphertext ≡ CT };

    ghost coins_length: { scheme.coins ≡ COINS };
}

/// A cipher suite: the five parts that a packet is made with.
pub trait Suite: Drop {
    type K: Kem;

    type M: Mac;

    type D: Kdf;

    type C: Stream;

    type W: Wide;

    /// What the suite computes.
    ghost meaning: { SuiteMeaning };

    /// It is what its parts compute.
    ghost made_of_parts: { meaning
        ≡ record {
          kem = Self.K.scheme;
          mac = Self.M.code;
          hop_keys = Self.D.keys;
          stream = Self.C.byte;
          encrypt = Self.W.encrypted;
          decrypt = Self.W.decrypted;
        } };
}
