// What the client draws for its messages, from a stream of words: each draw takes the words that stand behind those of the
// one before.
ghost use Rattle.std.specs.Prelude.{◌≡◌, ℕ, ◌+◌, ◌*◌, ◌<◌, ◌≤◌, List, length, vec_len, IfOk, OnOk};
ghost use Rattle.mix_base.specs.WordStreams.{SkipsWords, first_words, word_bytes};
ghost use Rattle.lab_text.specs.Settings.{IsConfigInRange};
ghost use Rattle.sphinx_make.specs.Drawing.{IsAllowed};
ghost use Rattle.mix_tools.specs.Suites.{scheme_for};
ghost use Rattle.mix_waves.specs.Drawing.{choices_from, client_key, client_words, delays_from};
ghost use Rattle.mix_waves.specs.Drawing.{delays_taken, words_behind};
ghost use Rattle.mix_waves.specs.Choosing.{HasDraws, drawn_with};

use lab_text::Config;
use mix_base::{Kem, Memory, Words, draw, next_words, write_words};
use ntru_prime::NtruKem;
use prim_std::{ChaWords, Hmac, LabKem};
use sphinx_make::{Draw, draw_delay};
use std::alloc::{AllocError, Global};

/// What is drawn for a message: a word and a delay for each layer of both paths, the coins of block and message, and the key
/// of the block's own.
#[derive(Drop)]
pub struct Drawn {
    pub there: Vec<u32>,
    pub back: Vec<u32>,
    pub there_delays: Vec<u32>,
    pub back_delays: Vec<u32>,
    pub block_coins: Vec<u32>,
    pub own: [u8; 128],
    pub coins: Vec<u32>,
}

/// The client's words in a run that starts at this moment.
pub fn words_of_client(config: &Config, start: u64) -> ChaWords
    ensures { (place : ℕ) → ⟦<ChaWords as Words>⟧.to_come result place
        ≡ client_words config.now start place }
{
    ChaWords::new(&key_of_client(config, start))
}

/// The key of these words.
fn key_of_client(config: &Config, start: u64) -> [u8; 32]
    ensures { result ≡ client_key config.now start }
{
    let mut code = Hmac::new(&config.seed);
    code.add(b"mix-client");
    code.add(&start.to_be_bytes());
    code.finish()
}

/// Draws for the next message.
pub fn draw_message<W: Words>(
    alloc: Global,
    words: &mut W,
    config: &Config,
) -> Result<Drawn, Memory>
    requires { IsConfigInRange config.now }
    ensures drawn { IfOk result (λ drawn.
        choices_from config.now (W.to_come words.old) ≡ drawn_with drawn (W.to_come words.new)) }
    ensures sized { IfOk result (HasDraws config.now) }
{
    let layers = config.layers as usize;
    let count = layers * coins_of_hop(config.ntru);
    let there = next_words(alloc, words, layers)?;
    let back = next_words(alloc, words, layers)?;
    let there_delays = draw_delays(alloc, words, &config.draw, layers)?;
    let back_delays = draw_delays(alloc, words, &config.draw, layers)?;
    let block_coins = next_words(alloc, words, count)?;
    let own = draw_key(words);
    let coins = next_words(alloc, words, count)?;
    Ok(Drawn {
        there,
        back,
        there_delays,
        back_delays,
        block_coins,
        own,
        coins,
    })
}

/// So many delays.
fn draw_delays<W: Words>(
    alloc: Global,
    words: &mut W,
    draw: &Draw,
    count: usize,
) -> Result<Vec<u32>, AllocError>
    requires { IsAllowed draw.now }
    ensures delays { IfOk result (λ delays.
        delays.items ≡ delays_from draw.now (W.to_come words.old) count) }
    ensures words { OnOk result (SkipsWords (delays_taken draw.now (W.to_come words.old) count)
        (W.to_come words.old) (W.to_come words.new)) }
{
    let mut delays = Vec::new(alloc);
    'delays: for _place in 0..count {
        delays.push(draw_delay(words, draw))?;
    }
    Ok(delays)
}

/// A key of the wide block cipher: the next 32 words as bytes.
fn draw_key<W: Words>(words: &mut W) -> [u8; 128]
    ensures key { result ≡ word_bytes (first_words (W.to_come words.old) 32) }
    ensures words { SkipsWords 32 (W.to_come words.old) (W.to_come words.new) }
{
    let mut drawn = [0; 32];
    draw(words, &mut drawn);
    let mut key = [0; 128];
    write_words(&drawn, &mut key);
    key
}

/// How many coins a hop of the suite takes.
fn coins_of_hop(ntru: bool) -> usize
    ensures coins { result ≡ (scheme_for ntru).coins }
    ensures most { result ≤ 761 }
{
    if ntru { NtruKem::COINS } else { LabKem::COINS }
}
