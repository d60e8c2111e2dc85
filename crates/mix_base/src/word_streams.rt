// Words that a generator gives one after the other, the generator that repeats a list, and words drawn, passed over and
// written as bytes.
ghost use Rattle.std.specs.Prelude.{◌≡◌, ℕ, ◌+◌, ◌*◌, ◌%◌, ◌<◌, length, vec_len, slice_index, IfOk, OnOk, OnErr};
ghost use Rattle.mix_base.specs.WordStreams.{SkipsWords, first_words, word_bytes};

use crate::Memory;
use std::alloc::Global;

/// A generator of 32-bit words.
pub trait Words: Drop {
    /// The word at each place from 0, of those to come.
    ghost to_come: { Self → ℕ → ℕ };

    /// The word of place 0. Afterwards each place has the word that stood one place further.
    fn next(&mut self) -> u32
        ensures word { result ≡ to_come self.old 0 }
        ensures rest { (place : ℕ) → to_come self.new place ≡ to_come self.old (place + 1) };
}

/// Gives the words of a list, from the first to the last, again and again.
#[derive(Drop)]
pub struct ListWords {
    list: Vec<u32>,
    place: usize,
    ghost in_range: { place < vec_len list },
}

impl ListWords {
    /// Starts at the first word. Asks a list that isn't empty. Takes no memory.
    pub fn new(list: Vec<u32>) -> ListWords
        requires { 0 < vec_len list }
        ensures { (place : ℕ) →
            ⟦<ListWords as Words>⟧.to_come result place
            ≡ slice_index list.items (place % vec_len list) }
    {
        ListWords { list, place: 0 }
    }
}

impl Words for ListWords {
    ghost to_come = { λ words place.
        slice_index words.list.items ((words.place + place) % vec_len words.list) };

    fn next(&mut self) -> u32 {
        let word = self.list[self.place];
        self.place = (self.place + 1) % self.list.len();
        word
    }
}

/// Fills the list with the next words.
pub fn draw<W: Words>(words: &mut W, drawn: &mut [u32])
    ensures words { drawn.new ≡ first_words (W.to_come words.old) (length drawn.old) }
    ensures rest { SkipsWords (length drawn.old) (W.to_come words.old) (W.to_come words.new) }
{
    'drawing: for i in 0..drawn.len() {
        drawn[i] = words.next();
    }
}

/// The next words, so many.
pub fn next_words<W: Words>(alloc: Global, words: &mut W, count: usize) -> Result<Vec<u32>, Memory>
    ensures words { IfOk result (λ drawn. drawn.items ≡ first_words (W.to_come words.old) count) }
    ensures length { IfOk result (λ drawn. vec_len drawn ≡ count) }
    ensures rest { OnOk result (SkipsWords count (W.to_come words.old) (W.to_come words.new)) }
    ensures untouched { OnErr result (words.new ≡ words.old) }
{
    let mut drawn = vec![in alloc; 0; count]?;
    draw(words, &mut drawn);
    Ok(drawn)
}

/// Passes over this many words.
pub fn skip_words<W: Words>(words: &mut W, count: usize)
    ensures { SkipsWords count (W.to_come words.old) (W.to_come words.new) }
{
    'passing: for _place in 0..count {
        words.next();
    }
}

/// Writes each word as four bytes, the low byte first. Asks four bytes for each.
pub fn write_words(words: &[u32], out: &mut [u8])
    requires { length out.old ≡ 4 * length words.now }
    ensures { out.new ≡ word_bytes words.now }
{
    'writing: for (i, word) in words.iter().enumerate() {
        out[4 * i..4 * i + 4].copy_from_slice(&word.to_le_bytes());
    }
}
