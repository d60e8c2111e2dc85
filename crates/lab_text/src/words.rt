// The words of a line and what they say: numbers, and bytes in hexadecimal digits. Each reader answers exactly what
// its definition has, and None where that has nothing.
ghost use Rattle.std.specs.Prelude.{◌≡◌, ◌+◌, ◌*◌, ◌^◌, ◌<◌, ◌≤◌, ◌∷◌, [], length, take, drop, slice_index};
ghost use Rattle.std.specs.Prelude.{Some, true, false, IfOk, IfSome, IfNone, MatchOption, option_map};
ghost use Rattle.lab_text.specs.Faults.{ReadsAs};
ghost use Rattle.lab_text.specs.Words.{words_of, is_blank, numeral_value, number_in, number_below};
ghost use Rattle.lab_text.specs.Words.{bytes_of, thirty_two};

use crate::WordFault;
use hex::{FromHex, FromHexError};
use std::alloc::Global;

/// The greatest moment, in milliseconds, and the greatest number of an epoch: both are below 2^60.
pub const LAST_MOMENT: u64 = (1 << 60) - 1;

/// The most digits of a number.
const DIGITS: usize = 20;

fn blank(byte: u8) -> bool
    ensures { result ≡ is_blank byte }
{
    byte == b' ' || byte == b'\t'
}

/// The first word of a line and what stands behind it.
pub fn next_word(line: &[u8]) -> Option<(&[u8], &[u8])>
    ensures words { MatchOption result (words_of line.now ≡ [])
        (λ parts. words_of line.now ≡ parts.0.now ∷ words_of parts.1.now) }
    ensures some { IfSome result (λ parts. 0 < length parts.0.now) }
{
    let line = from_word(line);
    if line.is_empty() {
        return None;
    }
    Some(line.split_at(word_length(line)))
}

// What stands behind the blanks at the front.
fn from_word(line: &[u8]) -> &[u8]
    ensures words { words_of result.now ≡ words_of line.now }
    ensures word { length result.now ≡ 0 → words_of line.now ≡ [] }
    ensures starts { 0 < length result.now → is_blank (slice_index result.now 0) ≡ false }
{
    let mut rest = line;
    while let Some((first, others)) = rest.split_first() {
        if !blank(*first) {
            return rest;
        }
        rest = others;
    }
    rest
}

// The length of the word at the front.
fn word_length(line: &[u8]) -> usize
    requires some { 0 < length line.now }
    requires starts { is_blank (slice_index line.now 0) ≡ false }
    ensures inside { result ≤ length line.now }
    ensures some { 0 < result }
    ensures word { words_of line.now ≡ take result line.now ∷ words_of (drop result line.now) }
{
    for (place, byte) in line.iter().enumerate() {
        if blank(*byte) {
            return place;
        }
    }
    line.len()
}

/// The value of a number from `low` to `high`: 1 to 20 decimal digits.
pub fn read_number(word: &[u8], low: u64, high: u64) -> Option<u64>
    ensures exact { result ≡ number_in low high word.now }
    ensures in_range { IfSome result (λ value. (low ≤ value) × (value ≤ high)) }
{
    let value = read_digits(word)?;
    if low <= value && value <= high {
        Some(value)
    } else {
        None
    }
}

/// The value of a number below a bound: 1 to 20 decimal digits.
pub fn read_below(word: &[u8], bound: u64) -> Option<u64>
    ensures exact { result ≡ number_below bound word.now }
    ensures below { IfSome result (λ value. value < bound) }
{
    let value = read_digits(word)?;
    if value < bound { Some(value) } else { None }
}

// The value of 1 to 20 decimal digits, where it is below 2^64.
fn read_digits(word: &[u8]) -> Option<u64>
    ensures some { IfSome result (λ value. numeral_value word.now ≡ Some value) }
    ensures none { IfNone result (IfSome (numeral_value word.now) (λ value. 2 ^ 64 ≤ value)) }
{
    if word.is_empty() || word.len() > DIGITS {
        return None;
    }
    let mut value: u64 = 0;
    for byte in word {
        if !byte.is_ascii_digit() {
            return None;
        }
        match append_digit(value, *byte - b'0') {
            Some(longer) => value = longer,
            None => return None,
        }
    }
    Some(value)
}

// A number with one digit more behind it, where it is below 2^64.
fn append_digit(value: u64, digit: u8) -> Option<u64>
    ensures some { IfSome result (λ longer. longer ≡ value * 10 + digit) }
    ensures none { IfNone result (2 ^ 64 ≤ value * 10 + digit) }
{
    value.checked_mul(10)?.checked_add(u64::from(digit))
}

/// The bytes that a word spells: hexadecimal digits of either case, or `-` for none.
pub fn read_bytes(alloc: Global, word: &[u8]) -> Result<Vec<u8>, WordFault>
    ensures { ReadsAs (λ bytes. bytes.items) (bytes_of word.now) result }
{
    if word == b"-".as_slice() {
        return Ok(Vec::new(alloc));
    }
    match hex::decode(alloc, word) {
        Ok(bytes) => Ok(bytes),
        Err(FromHexError::OutOfMemory) => Err(WordFault::Memory),
        Err(_) => Err(WordFault::Outside),
    }
}

/// The 32 bytes that a word spells: a seed, a key's words, or an id.
pub fn read_32(word: &[u8]) -> Option<[u8; 32]>
    ensures { result ≡ thirty_two word.now }
{
    <[u8; 32] as FromHex>::from_hex(word).ok()
}
