// Nets, which make lines: two links that belong together. In memory a line is a pipe under a lock. Whoever waits for
// a packet sleeps until one was sent or the line was finished.
ghost use Rattle.std.specs.Prelude.{◌≡◌, ℕ, ◌+◌, ◌-◌, ◌^◌, ◌≤◌, ◌↔◌, min, None, IfOk, IsOk, IsErrOf, OnOk, OnErr, Contains};
ghost use Rattle.mix_base.specs.Faults.{Rose, one_more};

use crate::pipe::Pipe;
use crate::{Arrived, LineFailed, LinkIn, LinkOut};
use mix_base::Failed;
use std::alloc::Global;
use std::marker::Model;
use std::sync::{Arc, Condvar, Mutex, Wait};

/// What makes lines.
pub trait Net: Drop {
    type Into: LinkIn + Send;

    type Onto: LinkOut + Send;

    /// How often it has failed, at most 2^64 - 1.
    ghost faults: { Self → ℕ };

    /// Makes a line: what is sent at the first link arrives at the second.
    fn line(&mut self, alloc: Global) -> Result<(Self::Onto, Self::Into), LineFailed>
        ensures failed { IsErrOf result LineFailed.Failed →
            Rose (faults self.old) (faults self.new) }
        ensures count { faults self.old ≤ faults self.new };
}

// What both ends of a line share.
#[derive(Drop)]
struct Line {
    pipe: Mutex<Pipe>,
    more: Condvar,
}

/// The end of a line in memory at which packets arrive. It tells nothing.
#[derive(Drop)]
pub struct MemIn<'a, H: Wait> {
    rt: &'a H,
    line: Arc<Line, Global>,
}

impl<'a, H: Wait> LinkIn for MemIn<'a, H> {
    ghost left = { λ _. None };

    ghost faults = { λ _. 0 };

    /// Waits for a packet, or for the end. It never fails.
    fn next_packet(&mut self, buf: &mut [u8]) -> Arrived {
        let size = buf.len();
        let line = &*self.line;
        let mut pipe = line.more.wait_while(
            self.rt,
            line.pipe.lock(self.rt),
            |pipe| !pipe.is_ready(size),
        );
        pipe.take(buf)
    }
}

/// The end of a line in memory to which packets are given. It tells nothing. One that is let go without `finish` leaves
/// its other end waiting.
#[derive(Drop)]
pub struct MemOut<'a, H: Wait> {
    rt: &'a H,
    line: Arc<Line, Global>,
    faults: u64,
}

impl<'a, H: Wait> Model for MemOut<'a, H> {
    ghost use Rattle.mix_links.specs.Objects.{EndState};

    ghost Value = { EndState };

    ghost view = { λ o. record { faults = o.faults } };
}

impl<'a, H: Wait> LinkOut for MemOut<'a, H> {
    ghost given = { λ _. None };

    ghost faults = { λ link. link.faults };

    /// A growth that memory refuses is a failure, and so is a send after `finish`.
    fn send(&mut self, packet: &[u8]) -> Result<(), Failed>
        ensures failed { OnErr result (Rose self.old.faults self.new.faults) }
        ensures count { self.old.faults ≤ self.new.faults }
        ensures one { OnErr result (self.new.faults ≡ one_more self.old.faults) }
        ensures no_fault { OnOk result (self.new.faults ≡ self.old.faults) }
    {
        let line = &*self.line;
        let put = line.pipe.lock(self.rt).put(packet);
        line.more.notify_one();
        if put.is_err() {
            self.faults = self.faults.saturating_add(1);
        }
        put
    }

    /// The other end then comes to its end, once it has taken all.
    fn finish(&mut self) -> Result<(), Failed>
        ensures failed { OnErr result (Rose self.old.faults self.new.faults) }
        ensures count { self.old.faults ≤ self.new.faults }
        ensures done { IsOk result }
        ensures no_fault { self.new ≡ self.old }
    {
        let line = &*self.line;
        line.pipe.lock(self.rt).close();
        line.more.notify_one();
        Ok(())
    }
}

/// Makes lines in memory. It numbers its calls from 1, and those that are listed fail.
#[derive(Drop)]
pub struct MemNet<'a, H: Wait> {
    rt: &'a H,
    failing: Vec<u64>,
    calls: u64,
    faults: u64,
}

impl<'a, H: Wait> Model for MemNet<'a, H> {
    ghost use Rattle.mix_links.specs.Objects.{NetState};

    ghost Value = { NetState };

    ghost view = { λ n. record { failing = n.failing.items; calls = n.calls; faults = n.faults } };
}

impl<'a, H: Wait> MemNet<'a, H> {
    /// Has made no line. Takes no memory.
    pub fn new(rt: &'a H, failing: Vec<u64>) -> MemNet<'a, H>
        ensures { result ≡ record { failing = failing.items; calls = 0; faults = 0 } }
    {
        MemNet {
            rt,
            failing,
            calls: 0,
            faults: 0,
        }
    }
}

impl<'a, H: Wait + Sync> Net for MemNet<'a, H> {
    type Into = MemIn<'a, H>;

    type Onto = MemOut<'a, H>;

    ghost faults = { λ net. net.faults };

    fn line(&mut self, alloc: Global) -> Result<(MemOut<'a, H>, MemIn<'a, H>), LineFailed>
        ensures failed { IsErrOf result LineFailed.Failed → Rose self.old.faults self.new.faults }
        ensures count { self.old.faults ≤ self.new.faults }
        ensures one { IsErrOf result LineFailed.Failed →
            self.new.faults ≡ one_more self.old.faults }
        ensures new { IfOk result (λ line. line.0.faults ≡ 0) }

        // Just the listed calls fail, and no other raises the count.
        ensures calls { self.new.calls ≡ min (self.old.calls + 1) (2 ^ 64 - 1) }
        ensures listed { IsErrOf result LineFailed.Failed ↔
            Contains self.old.failing self.new.calls }
        ensures failing { self.new.failing ≡ self.old.failing }
        ensures no_fault { (¬ IsErrOf result LineFailed.Failed) →
            self.new.faults ≡ self.old.faults }
    {
        self.calls = self.calls.saturating_add(1);
        if self.failing.contains(&self.calls) {
            self.faults = self.faults.saturating_add(1);
            return Err(LineFailed::Failed);
        }
        let line = Line {
            pipe: Mutex::new(Pipe::new(Vec::new(alloc), false)),
            more: Condvar::new(),
        };
        let Ok(line) = Arc::new(alloc, line) else {
            return Err(LineFailed::Memory);
        };
        let other = Arc::try_clone(&line)?;
        Ok((
            MemOut {
                rt: self.rt,
                line,
                faults: 0,
            },
            MemIn {
                rt: self.rt,
                line: other,
            },
        ))
    }
}
