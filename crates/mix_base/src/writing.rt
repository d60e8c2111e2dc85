// Where bytes go: a sink that may fail, and one in memory whose failing calls are listed.
ghost use Rattle.std.specs.Prelude.{◌≡◌, ℕ, ◌+◌, ◌-◌, ◌^◌, ◌≤◌, ◌↔◌, ◌++◌, List, Option, [], length, min, Some, None, IsSomeAnd, IfOk, IfSome, OnOk, OnErr, IsErrOf, Contains};
ghost use Rattle.mix_base.specs.Faults.{Rose, one_more};
ghost use Rattle.mix_base.specs.Writing.{GivesFront, SinkState};
ghost use Rattle.mix_base.specs.declared.writing.PutFault.TheVariants.{Memory as want_of_memory};

use crate::Memory;
use std::alloc::{AllocError, Global};
use std::marker::Model;
use thiserror::Error;

/// Why a sink took less than a piece.
#[derive(Clone, Copy, Debug, PartialEq, Eq, Error)]
pub enum PutFault {
    /// The sink failed.
    #[error("the sink failed")]
    WriteFault,
    #[error("want of memory")]
    Memory,
}

impl From<AllocError> for PutFault {
    ghost from_gives = { λ _ e. e ≡ want_of_memory };

    fn from(_: AllocError) -> Self {
        PutFault::Memory
    }
}

impl From<Memory> for PutFault {
    ghost from_gives = { λ _ e. e ≡ want_of_memory };

    fn from(_: Memory) -> Self {
        PutFault::Memory
    }
}

/// A sink of bytes.
pub trait Sink: Drop {
    /// The bytes given, where the sink tells them.
    ghost given: { Self → Option (List ℕ) };

    /// How often it has failed, at most 2^64 - 1.
    ghost faults: { Self → ℕ };

    /// Gives the whole piece, or after a refusal a front of it.
    fn put(&mut self, alloc: Global, bytes: &[u8]) -> Result<(), PutFault>
        ensures whole { OnOk result
            (IfSome (given self.old) (λ before. given self.new ≡ Some (before ++ bytes.now))) }
        ensures front { OnErr result (IfSome (given self.old) (λ before.
            IsSomeAnd (given self.new) (λ after. GivesFront before after bytes.now))) }
        ensures fault { IsErrOf result PutFault.WriteFault →
            Rose (faults self.old) (faults self.new) }
        ensures count { faults self.old ≤ faults self.new };
}

impl<O: Sink> Sink for &mut O {
    ghost given = { λ sink. O.given sink.now };

    ghost faults = { λ sink. O.faults sink.now };

    fn put(&mut self, alloc: Global, bytes: &[u8]) -> Result<(), PutFault> {
        (**self).put(alloc, bytes)
    }
}

/// Keeps all that it is given. It numbers its calls from 1, and those that are listed fail and are given nothing.
#[derive(Drop)]
pub struct MemSink {
    bytes: Vec<u8>,
    failing: Vec<u64>,
    calls: u64,
    faults: u64,
}

impl Model for MemSink {
    ghost use Rattle.mix_base.specs.Writing.{SinkState};

    ghost Value = { SinkState };

    ghost view = { λ s.
        record {
          given = s.bytes.items;
          failing = s.failing.items;
          calls = s.calls;
          faults = s.faults;
        } };
}

impl MemSink {
    /// Was given nothing. Takes no memory.
    pub fn new(alloc: Global, failing: Vec<u64>) -> MemSink
        ensures { result ≡ record { given = []; failing = failing.items; calls = 0; faults = 0 } }
    {
        MemSink {
            bytes: Vec::new(alloc),
            failing,
            calls: 0,
            faults: 0,
        }
    }

    /// All that it was given.
    pub fn bytes(&self) -> &[u8]
        ensures { result.now ≡ self.now.given }
    {
        self.bytes.as_slice()
    }
}

impl Sink for MemSink {
    ghost given = { λ sink. Some sink.given };

    ghost faults = { λ sink. sink.faults };

    fn put(&mut self, _alloc: Global, bytes: &[u8]) -> Result<(), PutFault>
        ensures whole { OnOk result (self.new.given ≡ self.old.given ++ bytes.now) }
        ensures front { OnErr result (self.new.given ≡ self.old.given) }
        ensures fault { IsErrOf result PutFault.WriteFault →
            self.new.faults ≡ one_more self.old.faults }
        ensures count { self.old.faults ≤ self.new.faults }

        // Just the listed calls fail, and no other raises the count.
        ensures calls { self.new.calls ≡ min (self.old.calls + 1) (2 ^ 64 - 1) }
        ensures listed { IsErrOf result PutFault.WriteFault
            ↔ Contains self.old.failing self.new.calls }
        ensures failing { self.new.failing ≡ self.old.failing }
        ensures no_fault { (IsErrOf result PutFault.WriteFault → ⊥) →
            self.new.faults ≡ self.old.faults }
    {
        self.calls = self.calls.saturating_add(1);
        if self.failing.contains(&self.calls) {
            self.faults = self.faults.saturating_add(1);
            return Err(PutFault::WriteFault);
        }
        self.bytes.extend_from_slice(bytes)?;
        Ok(())
    }
}
