// Which calls of a rack in memory fail: single ones by their number, and once armed all from a number on.
ghost use Rattle.std.specs.Prelude.{◌≡◌, ℕ, ◌+◌, ◌-◌, ◌^◌, ◌<◌, ◌≤◌, ◌↔◌, ◌⊎◌, [], None, Some, min, OnOk, OnErr, IsErr, IsTrue, Contains};
ghost use Rattle.mix_base.specs.Faults.{Rose, one_more};
ghost use Rattle.replay_disk.specs.Disk.{armed_at, one_less as one_less_of};
ghost use Rattle.replay_disk.specs.Failing.{Failing, FailsNext, after_call};

use mix_base::{Failed, History};
use std::alloc::Global;
use std::marker::Model;

/// Counts calls, says which fail, and counts those that did.
#[derive(Drop)]
pub struct Failures {
    listed: Vec<u64>,
    calls: u64,
    left: Option<u64>,
    made: History<()>,
    faults: u64,
}

impl Model for Failures {
    ghost use Rattle.std.specs.Prelude.{ℕ, length};
    ghost use Rattle.replay_disk.specs.Failing.{Failing};
    ghost use Rattle.replay_disk.specs.Kept.{Counting};

    ghost Value = { Counting };

    ghost view = { λ f.
        record {
          failing = record { listed = f.listed.items; calls = f.calls };
          left = f.left;
          calls = length f.made.items;
          faults = f.faults;
        } };
}

impl Failures {
    /// No call fails. Takes no memory.
    pub fn none(alloc: Global) -> Failures
        ensures { result
            ≡ record {
              failing = record { listed = []; calls = 0 };
              left = None;
              calls = 0;
              faults = 0;
            } }
    {
        Failures {
            listed: Vec::new(alloc),
            calls: 0,
            left: None,
            made: History::new(),
            faults: 0,
        }
    }

    /// The calls of these numbers are to fail, counted from now from 1.
    pub fn list(&mut self, listed: Vec<u64>)
        ensures { self.new
            ≡ record self.old { failing = record { listed = listed.items; calls = 0 } } }
    {
        self.listed = listed;
        self.calls = 0;
    }

    /// The call of this number, counted from now from 1, and all after it are to fail.
    pub fn arm(&mut self, calls: u64)
        requires { 0 < calls }
        ensures { self.new ≡ record self.old { left = armed_at calls self.old.left } }
    {
        self.left = nearer(self.left, calls - 1);
    }

    /// No longer armed.
    pub fn disarm(&mut self)
        ensures { self.new ≡ record self.old { left = None } }
    {
        self.left = None;
    }

    /// One call more, which may fail.
    pub fn next(&mut self) -> Result<(), Failed>
        ensures fails { IsErr result ↔ FailsNext self.old.left self.old.failing }
        ensures counted { self.new.failing ≡ after_call self.old.failing }
        ensures left { self.new.left ≡ one_less_of self.old.left }
        ensures calls { self.new.calls ≡ self.old.calls + 1 }
        ensures ok { OnOk result (self.new.faults ≡ self.old.faults) }
        ensures failed { OnErr result (self.new.faults ≡ one_more self.old.faults) }
        ensures rose { OnErr result (Rose self.old.faults self.new.faults) }
    {
        let all_fail = none_left(self.left);
        self.made.push(&());
        self.calls = self.calls.saturating_add(1);
        self.left = one_less(self.left);
        if all_fail || self.listed.contains(&self.calls) {
            self.faults = self.faults.saturating_add(1);
            return Err(Failed);
        }
        Ok(())
    }
}

fn none_left(left: Option<u64>) -> bool
    ensures { IsTrue result ↔ (left ≡ Some 0) }
{
    match left {
        Some(n) => n == 0,
        None => false,
    }
}

fn one_less(left: Option<u64>) -> Option<u64>
    ensures { result ≡ one_less_of left }
{
    match left {
        Some(n) => Some(n.saturating_sub(1)),
        None => None,
    }
}

fn nearer(left: Option<u64>, calls: u64) -> Option<u64>
    ensures { result ≡ armed_at (calls + 1) left }
{
    match left {
        Some(n) => Some(n.min(calls)),
        None => Some(calls),
    }
}
