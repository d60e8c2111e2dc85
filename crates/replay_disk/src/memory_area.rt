// One area of a rack in memory: its contents, and what its last sync left. Of the latter only the part behind the
// first byte that was written since is kept apart, so a sync of an area that grew at its end costs nothing.
ghost use Rattle.std.specs.Prelude.{◌≡◌, ℕ, ◌+◌, ◌-◌, ◌/◌, ◌<◌, ◌≤◌, ◌^◌, [], ◌++◌, length, take, drop, min, max, vec_capacity, vec_len, OnOk, replicate};
ghost use Rattle.replay_disk.specs.Disk.{with_bytes, ReadsFrom};
ghost use Rattle.replay_disk.specs.Kept.{Buffer};
ghost use Rattle.replay_disk.specs.MemoryRack.{laid, torn};

use mix_base::{Memory, copy_front};
use std::alloc::{AllocError, Global};
use std::marker::Model;

/// The bytes of one area. Its last sync left the first `same` bytes of the contents, and then the tail.
#[derive(Drop)]
pub struct MemArea {
    contents: Vec<u8>,
    same: usize,
    tail: Vec<u8>,
    greatest: usize,
}

impl Model for MemArea {
    ghost use Rattle.std.specs.Prelude.{◌≤◌, ◌++◌, take, min, vec_len, vec_capacity};
    ghost use Rattle.replay_disk.specs.Kept.{Buffer};

    ghost Value = { Buffer };

    ghost view = { λ a.
        record {
          contents = a.contents.items;
          synced = take a.same a.contents.items ++ a.tail.items;
          greatest = a.greatest;
          limit = min (vec_capacity a.contents) (vec_capacity a.tail);
        } };

    ghost invariant = { λ a. a.same ≤ vec_len a.contents };
}

impl MemArea {
    /// At rest, with these bytes. Takes no memory.
    pub fn new(alloc: Global, bytes: Vec<u8>) -> MemArea
        ensures contents { result.contents ≡ bytes.items }
        ensures synced { result.synced ≡ bytes.items }
        ensures greatest { result.greatest ≡ length bytes.items }
    {
        MemArea {
            same: bytes.len(),
            greatest: bytes.len(),
            contents: bytes,
            tail: Vec::new(alloc),
        }
    }

    pub fn bytes(&self) -> &[u8]
        ensures { result.now ≡ self.now.contents }
    {
        self.contents.as_slice()
    }

    pub fn greatest(&self) -> usize
        ensures { result ≡ self.now.greatest }
    {
        self.greatest
    }

    /// Room for growing to this length.
    pub fn reserve(&mut self, limit: usize) -> Result<(), Memory>
        ensures ok { OnOk result (limit ≤ self.new.limit) }
        ensures no_lower { self.old.limit ≤ self.new.limit }
        ensures contents { self.new.contents ≡ self.old.contents }
        ensures synced { self.new.synced ≡ self.old.synced }
        ensures greatest { self.new.greatest ≡ self.old.greatest }
    {
        reserve_to(&mut self.contents, limit)?;
        reserve_to(&mut self.tail, limit)?;
        Ok(())
    }

    /// Writes at a place at most the length.
    pub fn write(&mut self, place: usize, bytes: &[u8])
        requires place { place ≤ length self.old.contents }
        requires fits { place + length bytes.now ≤ self.old.limit }
        requires synced { length self.old.synced ≤ self.old.limit }
        ensures contents { self.new.contents ≡ with_bytes place bytes.now self.old.contents }
        ensures synced { self.new.synced ≡ self.old.synced }
        ensures greatest { self.new.greatest ≡ self.old.greatest }
        ensures limit { self.old.limit ≤ self.new.limit }
    {
        self.same = keep_front(&self.contents, self.same, &mut self.tail, place);
        lay(&mut self.contents, 0, place, bytes);
    }

    /// A write up to this place was tried.
    pub fn reach(&mut self, end: usize)
        ensures { self.new ≡ record self.old { greatest = max self.old.greatest end } }
    {
        self.greatest = self.greatest.max(end);
    }

    /// The last sync left what the contents are now.
    pub fn settle(&mut self)
        ensures contents { self.new.contents ≡ self.old.contents }
        ensures synced { self.new.synced ≡ self.old.contents }
        ensures greatest { self.new.greatest ≡ length self.old.contents }
        ensures limit { self.old.limit ≤ self.new.limit }
    {
        self.tail.clear();
        self.same = self.contents.len();
        self.greatest = self.contents.len();
    }

    /// The contents are again what the last sync left.
    pub fn restore(&mut self)
        requires { length self.old.synced ≤ length self.old.contents }
        ensures contents { self.new.contents ≡ self.old.synced }
        ensures greatest { self.new.greatest ≡ self.old.greatest }
        ensures limit { self.old.limit ≤ self.new.limit }
    {
        self.contents.truncate(self.same);
        append(&mut self.contents, &self.tail);
    }

    /// Lays bytes at a place of the contents, and fills a gap before them. What the last sync left is then any list.
    pub fn patch(&mut self, place: usize, bytes: &[u8])
        requires { place + length bytes.now ≤ self.old.limit }
        ensures contents { self.new.contents ≡ laid 0x7f place bytes.now self.old.contents }
        ensures greatest { self.new.greatest ≡ self.old.greatest }
        ensures limit { self.old.limit ≤ self.new.limit }
    {
        lay(&mut self.contents, 0x7f, place, bytes);
    }

    /// The same for the first half of the bytes, and 0x7f for each of the rest.
    pub fn patch_torn(&mut self, place: usize, bytes: &[u8])
        requires { place + length bytes.now ≤ self.old.limit }
        ensures contents { self.new.contents ≡ laid 0x7f place (torn bytes.now) self.old.contents }
        ensures greatest { self.new.greatest ≡ self.old.greatest }
        ensures limit { self.old.limit ≤ self.new.limit }
    {
        lay_torn(&mut self.contents, place, bytes);
    }

    /// Reads from a place into the front of the buffer.
    pub fn read(&self, at: u64, buf: &mut [u8]) -> usize
        ensures read { ReadsFrom at self.now.contents buf.old buf.new result }
    {
        let from = (at as usize).min(self.contents.len());
        copy_front(&self.contents[from..], buf)
    }
}

fn reserve_to(bytes: &mut Vec<u8>, limit: usize) -> Result<(), AllocError>
    ensures ok { OnOk result (limit ≤ vec_capacity bytes.new) }
    ensures no_lower { vec_capacity bytes.old ≤ vec_capacity bytes.new }
    ensures items { bytes.new.items ≡ bytes.old.items }
    ensures len { vec_len bytes.new ≡ vec_len bytes.old }
{
    bytes.reserve(limit.saturating_sub(bytes.len()))
}

/// Appends bytes for which there is room.
fn append(bytes: &mut Vec<u8>, more: &[u8])
    requires { vec_len bytes.old + length more.now ≤ vec_capacity bytes.old }
    ensures items { bytes.new.items ≡ bytes.old.items ++ more.now }
    ensures capacity { vec_capacity bytes.old ≤ vec_capacity bytes.new }
{
    let _ = bytes.extend_from_slice(more);
}

/// Puts bytes in front of others, where there is room.
fn prepend(bytes: &mut Vec<u8>, front: &[u8])
    requires { vec_len bytes.old + length front.now ≤ vec_capacity bytes.old }
    ensures items { bytes.new.items ≡ front.now ++ bytes.old.items }
    ensures capacity { vec_capacity bytes.old ≤ vec_capacity bytes.new }
{
    append(bytes, front);
    bytes.rotate_right(front.len());
}

/// Keeps in the tail what a write at this place covers of the first bytes, and answers how many of these stay.
fn keep_front(contents: &[u8], same: usize, tail: &mut Vec<u8>, place: usize) -> usize
    requires within { same ≤ length contents.now }
    requires room { same + vec_len tail.old ≤ vec_capacity tail.old }
    ensures place { result ≤ place }
    ensures fewer { result ≤ same }
    ensures kept { take result contents.now ++ tail.new.items
        ≡ take same contents.now ++ tail.old.items }
    ensures capacity { vec_capacity tail.old ≤ vec_capacity tail.new }
{
    if same <= place {
        return same;
    }
    prepend(tail, &contents[place..same]);
    place
}

/// Lays bytes at a place, where there is room for them, and fills a gap before them.
fn lay(contents: &mut Vec<u8>, fill: u8, place: usize, bytes: &[u8])
    requires { place + length bytes.now ≤ vec_capacity contents.old }
    ensures laid { contents.new.items ≡ laid fill place bytes.now contents.old.items }
    ensures capacity { vec_capacity contents.old ≤ vec_capacity contents.new }
{
    lengthen(contents, place + bytes.len(), fill);
    overwrite(contents, place, bytes);
}

/// Lays the first half of the bytes, and 0x7f for each of the rest.
fn lay_torn(contents: &mut Vec<u8>, place: usize, bytes: &[u8])
    requires { place + length bytes.now ≤ vec_capacity contents.old }
    ensures laid { contents.new.items ≡ laid 0x7f place (torn bytes.now) contents.old.items }
    ensures capacity { vec_capacity contents.old ≤ vec_capacity contents.new }
{
    lengthen(contents, place + bytes.len(), 0x7f);
    overwrite_torn(contents, place, bytes);
}

fn overwrite_torn(target: &mut [u8], place: usize, bytes: &[u8])
    requires { place + length bytes.now ≤ length target.old }
    ensures { target.new ≡ with_bytes place (torn bytes.now) target.old }
{
    overwrite(target, place, bytes);
    blot(target, place + bytes.len() / 2, place + bytes.len());
}

/// 0x7f from a place to another.
fn blot(target: &mut [u8], from: usize, to: usize)
    requires range { from ≤ to }
    requires within { to ≤ length target.old }
    ensures { target.new ≡ with_bytes from (replicate (to - from) 0x7f) target.old }
{
    target[from..to].fill(0x7f);
}

/// At least this length, by bytes at the end.
fn lengthen(contents: &mut Vec<u8>, len: usize, fill: u8)
    requires { len ≤ vec_capacity contents.old }
    ensures items { contents.new.items
        ≡ contents.old.items ++ replicate (len - vec_len contents.old) fill }
    ensures capacity { vec_capacity contents.old ≤ vec_capacity contents.new }
{
    if contents.len() < len {
        let _ = contents.resize(len, fill);
    }
}

fn overwrite(target: &mut [u8], place: usize, bytes: &[u8])
    requires { place + length bytes.now ≤ length target.old }
    ensures { target.new ≡ with_bytes place bytes.now target.old }
{
    target[place..place + bytes.len()].copy_from_slice(bytes);
}
