// The key stream of ChaCha20 with a 64-bit counter from 0 and a zero nonce, xored into a buffer or drawn as
// words. Each byte and each word is the one that its place has, whatever the buffer's length.
ghost use Rattle.std.specs.Prelude.{◌≡◌, ℕ, ◌+◌, ◌*◌, ◌%◌, ◌^◌, ◌<◌, ◌≤◌, length, take, drop, slice_range, ◌++◌};
ghost use Rattle.std.specs.Int.{w32, to_le_bytes};
ghost use Rattle.rand_chacha.specs.ChaCha.{word_at};
ghost use Rattle.mix_base.specs.ByteLists.{xor, xor_stream};
ghost use Rattle.prim_std.specs.Primitives.{chacha_byte, chacha_word};

use mix_base::{Stream, Words, xor_into};
use rand_chacha::ChaCha20Rng;
use rand_core::SeedableRng;
use rand_core::utils::NextWord;

/// Xors byte i of the buffer with byte i of the key stream, whatever the buffer's length. Each key is for one
/// use.
pub fn chacha_xor(key: &[u8; 32], buf: &mut [u8])
    ensures { buf.new ≡ xor_stream (chacha_byte key.now) 0 buf.old }
{
    let mut generator = ChaCha20Rng::from_seed(*key);
    let whole = buf.len() / 4;
    'words: for i in 0..whole {
        let word = generator.next_word().to_le_bytes();
        xor_word(&mut buf[4 * i..4 * i + 4], &word);
    }
    let over = buf.len() % 4;
    if over > 0 {
        let word = generator.next_word().to_le_bytes();
        xor_into(&mut buf[4 * whole..], &word[..over]);
    }
}

// Xors four bytes with a word's.
#[inline]
fn xor_word(bytes: &mut [u8], word: &[u8; 4])
    requires { length bytes.old ≡ 4 }
    ensures { bytes.new ≡ xor bytes.old word.now }
{
    bytes[0] ^= word[0];
    bytes[1] ^= word[1];
    bytes[2] ^= word[2];
    bytes[3] ^= word[3];
}

/// The words of ChaCha20's key stream, from the first on. They repeat after 2^68.
#[derive(Drop)]
pub struct ChaWords {
    generator: ChaCha20Rng,
    ghost in_range: { generator.word_pos < 2 ^ 68 },
}

impl ChaWords {
    /// The words of the key stream of this key.
    #[tactic(auto, unfolding(crate::specs::Primitives::chacha_word))]
    pub fn new(seed: &[u8; 32]) -> ChaWords
        ensures { (place : ℕ) →
            ⟦<ChaWords as Words>⟧.to_come result place ≡ chacha_word seed.now place }
    {
        ChaWords {
            generator: ChaCha20Rng::from_seed(*seed),
        }
    }
}

impl Words for ChaWords {
    ghost to_come = { λ words place.
        word_at 10 words.generator.key words.generator.stream
        ((words.generator.word_pos + place) % 2 ^ 68) };

    fn next(&mut self) -> u32 {
        self.generator.next_word()
    }
}

/// ChaCha20's key stream as the stream of a suite.
#[derive(Drop)]
pub struct ChaCha;

impl Stream for ChaCha {
    ghost byte = { chacha_byte };

    fn xor(key: &[u8; 32], buf: &mut [u8]) {
        chacha_xor(key, buf)
    }
}
