// Where bytes come from: a source that may fail, and one in memory whose failing calls are listed.
ghost use Rattle.std.specs.Prelude.{◌≡◌, ℕ, ◌+◌, ◌-◌, ◌^◌, ◌≤◌, ◌↔◌, List, Option, [], length, min, Some, None, IsErr, IsSomeAnd, IfOk, IfSome, OnErr, Contains, drop};
ghost use Rattle.mix_base.specs.Faults.{Rose, one_more};
ghost use Rattle.mix_base.specs.Reading.{TakesFront, SourceState};

use crate::{Failed, copy_front};
use std::marker::Model;

/// A source of bytes.
pub trait Source: Drop {
    /// The bytes left, where the source tells them.
    ghost left: { Self → Option (List ℕ) };

    /// How often it has failed, at most 2^64 - 1.
    ghost faults: { Self → ℕ };

    /// The name of the reference that the source is, where it is one: its lender finds by it what was read.
    ghost reference: { Self → ℕ } = { λ _. 0 };

    /// Reads the next bytes into the front of the buffer, and answers how many they are. It answers 0 for a
    /// buffer that isn't empty only at the end.
    fn read(&mut self, buf: &mut [u8]) -> Result<usize, Failed>
        ensures within { IfOk result (λ n. n ≤ length buf.old) }
        ensures taken { IfOk result (λ n. IfSome (left self.old) (λ before.
            IsSomeAnd (left self.new) (λ after. TakesFront before after buf.new n))) }
        ensures failed { OnErr result (Rose (faults self.old) (faults self.new)) }
        ensures failed_left { OnErr result (left self.new ≡ left self.old) }
        ensures count { faults self.old ≤ faults self.new }
        ensures same_reference { reference self.new ≡ reference self.old };
}

impl<I: Source> Source for &mut I {
    ghost left = { λ source. I.left source.now };

    ghost faults = { λ source. I.faults source.now };

    ghost reference = { λ source. source.ghost_name };

    fn read(&mut self, buf: &mut [u8]) -> Result<usize, Failed> {
        (**self).read(buf)
    }
}

/// A list of bytes, read from its front. It numbers its calls from 1, and those that are listed fail.
#[derive(Drop)]
pub struct MemSource {
    bytes: Vec<u8>,
    place: usize,
    failing: Vec<u64>,
    calls: u64,
    faults: u64,
}

impl Model for MemSource {
    ghost use Rattle.std.specs.Prelude.{◌≤◌, vec_len, drop};
    ghost use Rattle.mix_base.specs.Reading.{SourceState};

    ghost Value = { SourceState };

    ghost view = { λ s.
        record {
          left = drop s.place s.bytes.items;
          failing = s.failing.items;
          calls = s.calls;
          faults = s.faults;
        } };

    ghost invariant = { λ s. s.place ≤ vec_len s.bytes };
}

impl MemSource {
    /// Has these bytes left. Takes no memory.
    pub fn new(bytes: Vec<u8>, failing: Vec<u64>) -> MemSource
        ensures { result
            ≡ record { left = bytes.items; failing = failing.items; calls = 0; faults = 0 } }
    {
        MemSource {
            bytes,
            place: 0,
            failing,
            calls: 0,
            faults: 0,
        }
    }
}

impl Source for MemSource {
    ghost left = { λ source. Some source.left };

    ghost faults = { λ source. source.faults };

    fn read(&mut self, buf: &mut [u8]) -> Result<usize, Failed>
        ensures within { IfOk result (λ n. n ≤ length buf.old) }
        ensures taken { IfOk result (λ n. TakesFront self.old.left self.new.left buf.new n) }
        ensures failed { OnErr result (self.new.faults ≡ one_more self.old.faults) }
        ensures failed_left { OnErr result (self.new.left ≡ self.old.left) }
        ensures count { self.old.faults ≤ self.new.faults }

        // It gives as much as it has and the buffer holds, and leaves the rest of the buffer.
        ensures most { IfOk result (λ n. n ≡ min (length buf.old) (length self.old.left)) }
        ensures rest { IfOk result (λ n. drop n buf.new ≡ drop n buf.old) }
        ensures failed_buffer { OnErr result (buf.new ≡ buf.old) }

        // Just the listed calls fail.
        ensures calls { self.new.calls ≡ min (self.old.calls + 1) (2 ^ 64 - 1) }
        ensures listed { IsErr result ↔ Contains self.old.failing self.new.calls }
        ensures failing { self.new.failing ≡ self.old.failing }
        ensures no_fault { IfOk result (λ _. self.new.faults ≡ self.old.faults) }
    {
        self.calls = self.calls.saturating_add(1);
        if self.failing.contains(&self.calls) {
            self.faults = self.faults.saturating_add(1);
            return Err(Failed);
        }
        let count = copy_front(&self.bytes[self.place..], buf);
        self.place += count;
        Ok(count)
    }
}
