// A rack in memory. It tells all that it holds, fails just at the calls that it was told to fail at, and crashes
// by the digits of a pick.
ghost use Rattle.std.specs.Prelude.{◌≡◌, ℕ, ◌+◌, ◌-◌, ◌<◌, ◌≤◌, ◌^◌, ◌↔◌, [], ◌∷◌, ◌++◌, length, Some, None, IfOk, OnOk, OnErr, IsErr, is_ok, if◌then◌else◌};
ghost use Rattle.replay_disk.specs.Disk.{Range, area_at, contents_of, with_bytes, settled, ContentsAreImages, IsTried, IsSynced, IsCrashed, ChangesOnly, OnlyRead, Owes, armed_at, one_less, ReadsFrom};
ghost use Rattle.mix_base.specs.Faults.{one_more};
ghost use Rattle.replay_disk.specs.Failing.{FailsNext, after_call};
ghost use Rattle.replay_disk.specs.MemoryRack.{MemState, Write, at_first, without_area, picked};
ghost use Rattle.replay_disk.specs.Moments.{PassesOne};

use super::failures::Failures;
use super::memory_disk::MemDisk;
use crate::{CrashRack, Rack};
use mix_base::{Failed, History, Memory};
use std::alloc::Global;
use std::marker::Model;

/// A disk in memory. Its calls `length`, `read`, `write` and `sync` are numbered; those that it was told to fail at
/// fail, and no other.
#[derive(Drop)]
pub struct MemRack {
    disk: MemDisk,
    failures: Failures,
    room: u64,
    past: History<MemDisk>,
    arms: History<u64>,
    crashes: History<u64>,
}

impl Model for MemRack {
    ghost use Rattle.std.specs.Prelude.{map};
    ghost use Rattle.replay_disk.specs.MemoryDisk.{IsSound, areas_of};
    ghost use Rattle.replay_disk.specs.MemoryRack.{MemState};

    ghost Value = { MemState };

    ghost view = { λ r. record {
      rack = record {
        areas = areas_of r.disk;
        past = map areas_of r.past.items;
        faults = r.failures.faults;
        room = r.room;
        calls = r.failures.calls;
        left = r.failures.left;
        arms = r.arms.items;
        crashes = r.crashes.items;
      };
      pending = r.disk.log.list;
      failing = r.failures.failing;
    } };

    ghost invariant = { λ r. IsSound r.disk r.room };
}

impl MemRack {
    /// Three empty areas. Takes no memory.
    pub fn new(alloc: Global) -> MemRack
        ensures rack { result.rack ≡ at_first [] [] [] }
        ensures pending { result.pending ≡ [] }
        ensures failing { result.failing ≡ record { listed = []; calls = 0 } }
    {
        MemRack::holding(alloc, Vec::new(alloc), Vec::new(alloc), Vec::new(alloc))
    }

    /// Three areas that hold these bytes, at rest. Takes no memory.
    pub fn holding(alloc: Global, root: Vec<u8>, one: Vec<u8>, two: Vec<u8>) -> MemRack
        ensures rack { result.rack ≡ at_first root.items one.items two.items }
        ensures pending { result.pending ≡ [] }
        ensures failing { result.failing ≡ record { listed = []; calls = 0 } }
    {
        MemRack {
            disk: MemDisk::new(alloc, root, one, two),
            failures: Failures::none(alloc),
            room: 0,
            past: History::new(),
            arms: History::new(),
            crashes: History::new(),
        }
    }

    /// The calls of these numbers are to fail, counted from now from 1, and no others that were listed before.
    pub fn fail_at(&mut self, calls: Vec<u64>)
        ensures { self.new
            ≡ record self.old { failing = record { listed = calls.items; calls = 0 } } }
    {
        self.failures.list(calls);
    }

    /// What a read of an area gives, whole. Asks an area below 3.
    pub fn bytes(&self, area: u8) -> &[u8]
        requires { area < 3 }
        ensures { result.now ≡ contents_of area self.now.rack }
    {
        self.disk.bytes(area)
    }
}

impl Rack for MemRack {
    ghost tells = { Unit {0} };

    ghost state = { λ r. r.rack };

    fn length(&mut self, area: u8) -> Result<u64, Failed>
        ensures answer { IfOk result (λ n. n ≡ length (contents_of area self.old.rack)) }
        ensures same { OnlyRead self.old.rack self.new.rack }
        ensures images { ContentsAreImages self.new.rack.areas }
        ensures armed { self.old.rack.left ≡ Some 0 → IsErr result }
        ensures countdown { self.new.rack.left ≡ one_less self.old.rack.left }
        ensures owes { Owes 1 (IsErr result) self.old.rack self.new.rack }

        // Just the calls that it was told to fail at fail, and each is one fault.
        ensures fails { IsErr result ↔ FailsNext self.old.rack.left self.old.failing }
        ensures counted { self.new.failing ≡ after_call self.old.failing }
        ensures calls { self.new.rack.calls ≡ self.old.rack.calls + 1 }
        ensures one_fault { OnErr result (self.new.rack.faults ≡ one_more self.old.rack.faults) }
        ensures pending { self.new.pending ≡ self.old.pending }
    {
        self.failures.next()?;
        Ok(self.disk.bytes(area).len() as u64)
    }

    fn read(&mut self, area: u8, at: u64, buf: &mut [u8]) -> Result<usize, Failed>
        ensures within { IfOk result (λ n. n ≤ length buf.old) }
        ensures bytes { IfOk result
            (ReadsFrom at (contents_of area self.old.rack) buf.old buf.new) }
        ensures same { OnlyRead self.old.rack self.new.rack }
        ensures images { ContentsAreImages self.new.rack.areas }
        ensures armed { self.old.rack.left ≡ Some 0 → IsErr result }
        ensures countdown { self.new.rack.left ≡ one_less self.old.rack.left }
        ensures owes { Owes 1 (IsErr result) self.old.rack self.new.rack }

        // Just the calls that it was told to fail at fail, and each is one fault.
        ensures fails { IsErr result ↔ FailsNext self.old.rack.left self.old.failing }
        ensures counted { self.new.failing ≡ after_call self.old.failing }
        ensures calls { self.new.rack.calls ≡ self.old.rack.calls + 1 }
        ensures one_fault { OnErr result (self.new.rack.faults ≡ one_more self.old.rack.faults) }
        ensures pending { self.new.pending ≡ self.old.pending }
    {
        self.failures.next()?;
        Ok(self.disk.read(area, at, buf))
    }

    fn write(&mut self, area: u8, at: u64, bytes: &[u8]) -> Result<(), Failed>
        requires area { area < 3 }
        requires some { 0 < length bytes.now }
        requires range { at + length bytes.now ≤ 2 ^ 40 }
        requires place { at ≤ length (contents_of area self.old.rack) }
        requires room { length bytes.now ≤ self.old.rack.room }
        ensures written { OnOk result
            (contents_of area self.new.rack
            ≡ with_bytes at bytes.now (contents_of area self.old.rack)) }
        ensures tried { ChangesOnly area
            (IsTried (record {
              place = at;
              size = length bytes.now;
            })) self.old.rack.areas self.new.rack.areas }
        ensures moment { PassesOne self.old.rack self.new.rack }
        ensures room { self.new.rack.room + length bytes.now ≡ self.old.rack.room }
        ensures images { ContentsAreImages self.new.rack.areas }
        ensures armed { self.old.rack.left ≡ Some 0 → IsErr result }
        ensures countdown { self.new.rack.left ≡ one_less self.old.rack.left }
        ensures owes { Owes 1 (IsErr result) self.old.rack self.new.rack }

        // A write that failed leaves the contents, and is pending as one that was done.
        ensures left { OnErr result
            (contents_of area self.new.rack ≡ contents_of area self.old.rack) }
        ensures pending { self.new.pending
            ≡ self.old.pending ++ (record { area = area; place = at; bytes = bytes.now }) ∷ [] }

        // Just the calls that it was told to fail at fail, and each is one fault.
        ensures fails { IsErr result ↔ FailsNext self.old.rack.left self.old.failing }
        ensures counted { self.new.failing ≡ after_call self.old.failing }
        ensures calls { self.new.rack.calls ≡ self.old.rack.calls + 1 }
        ensures one_fault { OnErr result (self.new.rack.faults ≡ one_more self.old.rack.faults) }
    {
        let answer = self.failures.next();
        self.past.push(&self.disk);
        self.disk.write(area, at as usize, bytes, answer.is_ok());
        self.room -= bytes.len() as u64;
        answer
    }

    fn sync(&mut self, area: u8) -> Result<(), Failed>
        requires { area < 3 }
        ensures synced { OnOk result
            (ChangesOnly area IsSynced self.old.rack.areas self.new.rack.areas) }
        ensures failed { OnErr result (self.new.rack.areas ≡ self.old.rack.areas) }
        ensures moment { PassesOne self.old.rack self.new.rack }
        ensures room { self.new.rack.room ≡ self.old.rack.room }
        ensures images { ContentsAreImages self.old.rack.areas }
        ensures armed { self.old.rack.left ≡ Some 0 → IsErr result }
        ensures countdown { self.new.rack.left ≡ one_less self.old.rack.left }
        ensures owes { Owes 1 (IsErr result) self.old.rack self.new.rack }

        // The area's writes are no longer pending, unless the call failed.
        ensures pending { self.new.pending
            ≡ (if is_ok result then without_area area self.old.pending else self.old.pending) }

        // Just the calls that it was told to fail at fail, and each is one fault.
        ensures fails { IsErr result ↔ FailsNext self.old.rack.left self.old.failing }
        ensures counted { self.new.failing ≡ after_call self.old.failing }
        ensures calls { self.new.rack.calls ≡ self.old.rack.calls + 1 }
        ensures one_fault { OnErr result (self.new.rack.faults ≡ one_more self.old.rack.faults) }
    {
        let answer = self.failures.next();
        self.past.push(&self.disk);
        if answer.is_ok() {
            self.disk.sync(area);
        }
        answer
    }

    fn room(&mut self, bytes: u64) -> Result<(), Memory>
        ensures made { OnOk result (bytes ≤ self.new.rack.room) }
        ensures no_lower { self.old.rack.room ≤ self.new.rack.room }
        ensures same { self.new.rack ≡ record self.old.rack { room = self.new.rack.room } }
        ensures pending { self.new.pending ≡ self.old.pending }
        ensures failing { self.new.failing ≡ self.old.failing }
    {
        if bytes > self.room {
            self.disk.reserve(bytes as usize)?;
            self.room = bytes;
        }
        Ok(())
    }
}

impl CrashRack for MemRack {
    fn arm(&mut self, calls: u64)
        requires { 0 < calls }
        ensures rack { self.new.rack ≡ record self.old.rack {
          left = armed_at calls self.old.rack.left;
          arms = self.old.rack.arms ++ calls ∷ [];
        } }
        ensures failing { self.new.failing ≡ self.old.failing }
        ensures pending { self.new.pending ≡ self.old.pending }
    {
        self.failures.arm(calls);
        self.arms.push(&calls);
    }

    fn crash(&mut self, pick: u64)
        ensures image { IsCrashed self.old.rack.areas self.new.rack.areas }
        ensures moment { PassesOne self.old.rack self.new.rack }
        ensures faults { self.new.rack.faults ≡ self.old.rack.faults }
        ensures calls { self.new.rack.calls ≡ self.old.rack.calls }
        ensures left { self.new.rack.left ≡ None }
        ensures arms { self.new.rack.arms ≡ self.old.rack.arms }
        ensures crashes { self.new.rack.crashes ≡ self.old.rack.crashes ++ pick ∷ [] }

        // The pick says which image is left.
        ensures picked { (area : ℕ) → area < 3 →
            area_at area self.new.rack.areas
            ≡ settled (picked area pick self.old.pending
            (area_at area self.old.rack.areas).synced) }
        ensures pending { self.new.pending ≡ [] }
        ensures failing { self.new.failing ≡ self.old.failing }
    {
        self.past.push(&self.disk);
        self.disk.crash(pick);
        self.failures.disarm();
        self.crashes.push(&pick);
    }
}
