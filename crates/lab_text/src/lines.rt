// The lines of a script, read one by one from a source. Whatever pieces the source gives, the lines are those of
// the whole script; what was read of a line stays in the reader when the source fails.
ghost use Rattle.std.specs.Prelude.{◌≡◌, ℕ, ◌+◌, ◌-◌, ◌^◌, ◌<◌, ◌≤◌};
ghost use Rattle.std.specs.Prelude.{List, [], ◌∷◌, ◌++◌, length, take, drop, slice_index, vec_len};
ghost use Rattle.std.specs.Prelude.{Option, Some, None, option_map, is_some, IsSome, IfSome, IfNone};
ghost use Rattle.std.specs.Prelude.{IfOk, IfErr, OnOk, OnErr, IsErrOf, true, false, if◌then◌else◌};
ghost use Rattle.mix_base.specs.Faults.{Rose};
ghost use Rattle.lab_text.specs.Faults.{IsPastLimit};
ghost use Rattle.lab_text.specs.Lines.{ScriptLine, lines_from, has_feed, without_return, passes_limits};

use crate::LineFault;
use memchr::memchr;
use mix_base::Source;
use std::alloc::{AllocError, Global};
use std::mem;

/// What ends a line.
const LINE_FEED: u8 = 10;

/// What is dropped before a line feed.
const CARRIAGE_RETURN: u8 = 13;

/// The bytes of a block, which is read at once.
const BLOCK: usize = 65_536;

/// The most bytes of a line, without its line feed.
const LINE_LIMIT: usize = 65_536;

/// The most bytes of a script, with its line feeds.
const SCRIPT_LIMIT: u64 = 1_073_741_824;

/// Reads the lines of a script from a source, in blocks. A line has at most 65,536 bytes before its line feed, and
/// the script at most 2^30 bytes. The last line may lack its line feed; a carriage return before one is dropped.
#[derive(Drop)]
pub struct LineReader<I: Source> {
    source: I,
    // The last block that was read: bytes `place` to `end` of it come next. It is empty before the first read.
    block: Vec<u8>,
    place: usize,
    end: usize,
    // What earlier blocks had of the next line.
    line: Vec<u8>,
    // The bytes of the lines that were given, and the number of these lines.
    used: u64,
    number: u64,
    ghost ordered: { place ≤ end },
    ghost inside: { end ≤ vec_len block },
    ghost one_line: { has_feed line.items ≡ false },
    ghost short: { vec_len line ≤ 65536 },
    ghost within: { used + vec_len line ≤ 2 ^ 30 },
    ghost counted: { number ≤ used },
}

impl<I: Source> LineReader<I> {
    ghost use Rattle.lab_text.specs.Readers.{source_of, lines_given, unread, coming};
    ghost use Rattle.lab_text.specs.Readers.{GivesLine, Stays, ReachesEnd, SourceGoesOn};

    /// Stands at the start of the script. Takes no memory.
    pub fn new(alloc: Global, source: I) -> LineReader<I>
        ensures source { source_of result ≡ source }
        ensures coming { coming result ≡ option_map (lines_from 0) (I.left source) }
        ensures number { lines_given result ≡ 0 }
    {
        LineReader {
            source,
            block: Vec::new(alloc),
            place: 0,
            end: 0,
            line: Vec::new(alloc),
            used: 0,
            number: 0,
        }
    }

    /// The next line without its line feed, or None at the script's end. After an `Err` the lines to come are as
    /// before; what was read of the next one stays here.
    pub fn next_line(&mut self, alloc: Global) -> Result<Option<Vec<u8>>, LineFault>
        ensures line { IfOk result (λ next. IfSome next (λ line.
            GivesLine (coming self.old) (coming self.new) line.items)) }
        ensures counted { IfOk result (λ next.
            lines_given self.new ≡ lines_given self.old + (if is_some next then 1 else 0)) }
        ensures none { IfOk result (λ next.
            IfNone next (IfSome (coming self.old) (λ lines. lines ≡ []))) }
        ensures end { IfOk result (λ next. IfNone next
            (ReachesEnd (I.left (source_of self.old)) (I.left (source_of self.new)))) }

        // A line past a limit comes next.
        ensures bad_line { IsPastLimit (lines_given self.old) (coming self.old) result }
        ensures read_fault { IsErrOf result LineFault.ReadFault →
            Rose (I.faults (source_of self.old)) (I.faults (source_of self.new)) }
        ensures err_coming { OnErr result (Stays (coming self.old) (coming self.new)) }
        ensures err_number { OnErr result (lines_given self.new ≡ lines_given self.old) }
        ensures source { SourceGoesOn self.old self.new }
    {
        'blocks: loop {
            match memchr(LINE_FEED, &self.block[self.place..self.end]) {
                Some(length) => {
                    let line = self.take_line(alloc, length)?;
                    return Ok(Some(line));
                }
                None => self.keep_block()?,
            }
            if !self.read_block(alloc)? {
                return Ok(self.take_rest(alloc));
            }
        }
    }

    /// The source, given back. Where it is a reference, its lender learns so what was read.
    pub fn into_source(self) -> I
        ensures { result ≡ source_of self }
    {
        let LineReader {
            source,
            block: _,
            place: _,
            end: _,
            line: _,
            used: _,
            number: _,
        } = self;
        source
    }

    /// The number of lines given so far, which is the number of the last of them, counted from 1.
    pub fn number(&self) -> u64
        ensures { result ≡ lines_given self.now }
    {
        self.number
    }

    // Gives the line that a line feed ends, `length` bytes further in the block.
    fn take_line(&mut self, alloc: Global, length: usize) -> Result<Vec<u8>, LineFault>
        requires inside { self.old.place + length < self.old.end }
        requires feed { slice_index self.old.block.items (self.old.place + length) ≡ 10 }
        requires first { has_feed (take length (drop self.old.place self.old.block.items)) ≡ false }
        ensures line { IfOk result (λ line.
            GivesLine (coming self.old) (coming self.new) line.items) }
        ensures counted { OnOk result (self.new.number ≡ self.old.number + 1) }
        ensures bad_line { IsPastLimit self.old.number (coming self.old) result }
        ensures read_fault { IsErrOf result LineFault.ReadFault → ⊥ }
        ensures err_coming { OnErr result (coming self.new ≡ coming self.old) }
        ensures err_number { OnErr result (self.new.number ≡ self.old.number) }
        ensures source { self.new.source ≡ self.old.source }
    {
        let text = self.line.len() + length;
        let behind = self.used + text as u64 + 1;
        if passes_limit(text, behind) {
            return Err(LineFault::BadLine {
                number: self.number + 1,
            });
        }
        self.line
            .extend_from_slice(&self.block[self.place..self.place + length])?;
        self.place += length + 1;
        self.used = behind;
        self.number += 1;
        let mut line = mem::replace(&mut self.line, Vec::new(alloc));
        drop_return(&mut line);
        Ok(line)
    }

    // Moves what the block still has, which no line feed ends, to the front of the next line.
    fn keep_block(&mut self) -> Result<(), LineFault>
        requires no_feed { let chunk = drop self.old.place self.old.block.items in
            has_feed (take (self.old.end - self.old.place) chunk) ≡ false }
        ensures unread { OnOk result (self.new.line.items ≡ unread self.old) }
        ensures used_up { OnOk result (self.new.place ≡ self.new.end) }
        ensures bad_line { IsPastLimit self.old.number (coming self.old) result }
        ensures read_fault { IsErrOf result LineFault.ReadFault → ⊥ }
        ensures coming { coming self.new ≡ coming self.old }
        ensures number { self.new.number ≡ self.old.number }
        ensures source { self.new.source ≡ self.old.source }
    {
        let text = self.line.len() + (self.end - self.place);
        if passes_limit(text, self.used + text as u64) {
            let number = self.number + 1;
            return Err(LineFault::BadLine { number });
        }
        self.line
            .extend_from_slice(&self.block[self.place..self.end])?;
        self.place = self.end;
        Ok(())
    }

    // Reads the next block where the last is used up, and says whether it has anything: else the source is at its
    // end.
    fn read_block(&mut self, alloc: Global) -> Result<bool, LineFault>
        requires { self.old.place ≡ self.old.end }
        ensures some { IfOk result (λ some. some ≡ true → self.new.place < self.new.end) }
        ensures end { IfOk result (λ some. some ≡ false →
            ReachesEnd (I.left self.old.source) (I.left self.new.source)) }
        ensures used_up { IfOk result (λ some. some ≡ false → self.new.place ≡ self.new.end) }
        ensures bad_line { (number : ℕ) → result ≡ Err (LineFault.BadLine number) → ⊥ }
        ensures read_fault { IsErrOf result LineFault.ReadFault →
            Rose (I.faults self.old.source) (I.faults self.new.source) }
        ensures coming { Stays (coming self.old) (coming self.new) }
        ensures line { self.new.line ≡ self.old.line }
        ensures number { self.new.number ≡ self.old.number }
        ensures source { SourceGoesOn self.old self.new }
    {
        if self.block.is_empty() {
            self.block = zeros(alloc, BLOCK)?;
        }
        let count = self.source.read(&mut self.block)?;
        self.place = 0;
        self.end = count;
        Ok(count > 0)
    }

    // Gives what no line feed ends as the last line, at the source's end.
    fn take_rest(&mut self, alloc: Global) -> Option<Vec<u8>>
        requires { self.old.place ≡ self.old.end }
        ensures line { IfSome result (λ line. I.left self.old.source ≡ Some [] →
            GivesLine (coming self.old) (coming self.new) line.items) }
        ensures counted { self.new.number ≡ self.old.number + (if is_some result then 1 else 0) }
        ensures none { IfNone result
            (I.left self.old.source ≡ Some [] → coming self.old ≡ Some []) }
        ensures source { self.new.source ≡ self.old.source }
    {
        if self.line.is_empty() {
            return None;
        }
        self.used += self.line.len() as u64;
        self.number += 1;
        Some(mem::replace(&mut self.line, Vec::new(alloc)))
    }
}

// Whether a text of so many bytes, or what stands behind it, is past its limit.
fn passes_limit(text: usize, behind: u64) -> bool
    ensures { result ≡ passes_limits text behind }
{
    text > LINE_LIMIT || behind > SCRIPT_LIMIT
}

// So many zero bytes.
fn zeros(alloc: Global, count: usize) -> Result<Vec<u8>, AllocError>
    ensures { IfOk result (λ bytes. vec_len bytes ≡ count) }
{
    vec![in alloc; 0u8; count]
}

// Drops the carriage return at a line's end, where one stands there.
fn drop_return(line: &mut Vec<u8>)
    ensures { line.new.items ≡ without_return line.old.items }
{
    if line.last() == Some(&CARRIAGE_RETURN) {
        line.truncate(line.len() - 1);
    }
}
