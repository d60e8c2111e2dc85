// What the words of a line say: a number or bytes, each as the first word or as the only one. Each reader answers
// exactly what its definition has.
ghost use Rattle.std.specs.Prelude.{◌≡◌, ◌≤◌, length, IfOk, IfSome, option_map, option_copied};
ghost use Rattle.lab_text.specs.Faults.{ReadsAs, ReadsWords};
ghost use Rattle.lab_text.specs.Words.{words_of};
ghost use Rattle.lab_text.specs.WordForms.{alone, both_words, bytes_in, first_bytes, first_number};
ghost use Rattle.lab_text.specs.WordForms.{only_bytes, only_word, said_words, says_nothing, suite_of, surb_of};

use crate::{WordFault, next_word, read_bytes, read_number};
use hex::FromHex;
use mix_base::Bytes;
use std::alloc::Global;

/// The first word of a line and what stands behind it, where the line says something: it has a word, and its first
/// doesn't begin with `#`.
pub fn said_line(line: &[u8]) -> Option<(&[u8], &[u8])>
    ensures { option_map (λ x. (x.0.now, words_of x.1.now)) result
        ≡ said_words (words_of line.now) }
{
    let (first, rest) = next_word(line)?;
    if first[0] == b'#' {
        None
    } else {
        Some((first, rest))
    }
}

/// Whether a line says nothing.
pub fn is_skipped(line: &[u8]) -> bool
    ensures { result ≡ says_nothing (words_of line.now) }
{
    said_line(line).is_none()
}

/// The only word.
pub fn one_word(rest: &[u8]) -> Option<&[u8]>
    ensures { option_copied result ≡ only_word (words_of rest.now) }
{
    let (word, others) = next_word(rest)?;
    match next_word(others) {
        None => Some(word),
        Some(_) => None,
    }
}

/// The only two words.
pub fn only_two(rest: &[u8]) -> Option<(&[u8], &[u8])>
    ensures { option_map (λ both. (both.0.now, both.1.now)) result
        ≡ both_words (words_of rest.now) }
{
    let (first, others) = next_word(rest)?;
    let second = one_word(others)?;
    Some((first, second))
}

/// A number in a range as the first word, and what stands behind it.
pub fn next_number(rest: &[u8], low: u64, high: u64) -> Option<(u64, &[u8])>
    ensures exact { option_map (λ x. (x.0, words_of x.1.now)) result
        ≡ first_number low high (words_of rest.now) }
    ensures in_range { IfSome result (λ x. (low ≤ x.0) × (x.0 ≤ high)) }
{
    let (word, others) = next_word(rest)?;
    let value = read_number(word, low, high)?;
    Some((value, others))
}

/// A value behind which no word stands.
pub fn without_words<T: Drop>(value: T, rest: &[u8]) -> Option<T>
    ensures { result ≡ alone value (words_of rest.now) }
{
    match next_word(rest) {
        None => Some(value),
        Some(_) => None,
    }
}

/// Bytes of a length as the first word, and what stands behind it.
pub fn next_bytes(alloc: Global, rest: &[u8], size: usize) -> Result<(Bytes, &[u8]), WordFault>
    ensures exact { ReadsAs (λ x. (x.0, words_of x.1.now))
        (first_bytes size (words_of rest.now)) result }
    ensures length { IfOk result (λ x. length x.0 ≡ size) }
{
    let (word, others) = next_word(rest).ok_or(WordFault::Outside)?;
    let bytes = sized_bytes(alloc, word, size)?;
    Ok((bytes, others))
}

/// The bytes that a word spells, where they have this length.
pub fn sized_bytes(alloc: Global, word: &[u8], size: usize) -> Result<Bytes, WordFault>
    ensures exact { ReadsWords (bytes_in size word.now) result }
    ensures length { IfOk result (λ bytes. length bytes ≡ size) }
{
    let bytes = read_bytes(alloc, word)?;
    if bytes.len() == size {
        Ok(Bytes::of(bytes))
    } else {
        Err(WordFault::Outside)
    }
}

/// Bytes of a length as the only word.
pub fn whole_bytes(alloc: Global, rest: &[u8], size: usize) -> Result<Bytes, WordFault>
    ensures exact { ReadsWords (only_bytes size (words_of rest.now)) result }
    ensures length { IfOk result (λ bytes. length bytes ≡ size) }
{
    let word = one_word(rest).ok_or(WordFault::Outside)?;
    sized_bytes(alloc, word, size)
}

/// The 16 bytes of a reply's id.
pub fn read_surb(word: &[u8]) -> Option<[u8; 16]>
    ensures { result ≡ surb_of word.now }
{
    <[u8; 16] as FromHex>::from_hex(word).ok()
}

/// Whether the suite is `ntru` and not `lab`.
pub fn read_suite(word: &[u8]) -> Option<bool>
    ensures { result ≡ suite_of word.now }
{
    if word == b"ntru".as_slice() {
        Some(true)
    } else if word == b"lab".as_slice() {
        Some(false)
    } else {
        None
    }
}
