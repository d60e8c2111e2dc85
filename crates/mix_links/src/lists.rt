// Links in memory that tell what they have: a list of bytes from which packets arrive, and a list of the packets
// given. Each numbers its calls from 1, and those that are listed fail.
ghost use Rattle.std.specs.Prelude.{◌≡◌, ℕ, ◌+◌, ◌-◌, ◌^◌, ◌<◌, ◌≤◌, ◌↔◌, [], ◌∷◌, ◌++◌, length, map, min, Some, IsOk, IsErr, OnOk, OnErr, Contains};
ghost use Rattle.mix_base.specs.Faults.{one_more};
ghost use Rattle.mix_links.specs.Links.{IsFailed, EndsShort, OnNoPacket, Takes};

use crate::pipe::Pipe;
use crate::{Arrived, LinkIn, LinkOut};
use mix_base::Failed;
use std::alloc::Global;
use std::marker::Model;

/// A list of bytes, taken from its front.
#[derive(Drop)]
pub struct ListIn {
    pipe: Pipe,
    failing: Vec<u64>,
    calls: u64,
    faults: u64,
}

impl Model for ListIn {
    ghost use Rattle.std.specs.Prelude.{◌≡◌, true};
    ghost use Rattle.mix_links.specs.Objects.{InState};

    ghost Value = { InState };

    ghost view = { λ s.
        record {
          left = s.pipe.left;
          failing = s.failing.items;
          calls = s.calls;
          faults = s.faults;
        } };

    ghost invariant = { λ s. s.pipe.closed ≡ true };
}

impl ListIn {
    /// Has these bytes left. Takes no memory.
    pub fn new(bytes: Vec<u8>, failing: Vec<u64>) -> ListIn
        ensures { result ≡ record {
          left = bytes.items;
          failing = failing.items;
          calls = 0;
          faults = 0;
        } }
    {
        ListIn {
            pipe: Pipe::new(bytes, true),
            failing,
            calls: 0,
            faults: 0,
        }
    }
}

impl LinkIn for ListIn {
    ghost left = { λ link. Some link.left };

    ghost faults = { λ link. link.faults };

    fn next_packet(&mut self, buf: &mut [u8]) -> Arrived
        ensures taken { Takes result self.old.left buf.new self.new.left }
        ensures short { EndsShort result (length buf.old) }
        ensures failed { IsFailed result → self.new.faults ≡ one_more self.old.faults }
        ensures count { self.old.faults ≤ self.new.faults }

        // The buffer stays where no packet comes.
        ensures buffer { OnNoPacket result (buf.new ≡ buf.old) }

        // Just the listed calls fail, and no other raises the count.
        ensures calls { self.new.calls ≡ min (self.old.calls + 1) (2 ^ 64 - 1) }
        ensures listed { IsFailed result ↔ Contains self.old.failing self.new.calls }
        ensures failing { self.new.failing ≡ self.old.failing }
        ensures no_fault { (¬ IsFailed result) → self.new.faults ≡ self.old.faults }
    {
        self.calls = self.calls.saturating_add(1);
        if self.failing.contains(&self.calls) {
            self.faults = self.faults.saturating_add(1);
            return Arrived::Failed;
        }
        self.pipe.take(buf)
    }
}

/// Keeps all packets that it is given. It numbers its sends alone.
#[derive(Drop)]
pub struct ListOut {
    alloc: Global,
    packets: Vec<Vec<u8>>,
    failing: Vec<u64>,
    calls: u64,
    faults: u64,
}

impl Model for ListOut {
    ghost use Rattle.std.specs.Prelude.{map};
    ghost use Rattle.mix_links.specs.Objects.{OutState};

    ghost Value = { OutState };

    ghost view = { λ s.
        record {
          given = map (λ p. p.items) s.packets.items;
          failing = s.failing.items;
          calls = s.calls;
          faults = s.faults;
        } };
}

impl ListOut {
    /// Was given nothing. Takes no memory.
    pub fn new(alloc: Global, failing: Vec<u64>) -> ListOut
        ensures { result ≡ record { given = []; failing = failing.items; calls = 0; faults = 0 } }
    {
        ListOut {
            alloc,
            packets: Vec::new(alloc),
            failing,
            calls: 0,
            faults: 0,
        }
    }

    /// The packets that it was given, in their order.
    pub fn packets(&self) -> &[Vec<u8>]
        ensures { map (λ p. p.items) result.now ≡ self.now.given }
    {
        self.packets.as_slice()
    }

    // Puts a copy of the packet behind the others.
    fn keep(&mut self, packet: &[u8]) -> Result<(), Failed>
        ensures ok { OnOk result
            (self.new ≡ record self.old { given = self.old.given ++ packet.now ∷ [] }) }
        ensures err { OnErr result (self.new ≡ self.old) }
    {
        let mut copy = Vec::new(self.alloc);
        if copy.extend_from_slice(packet).is_err() || self.packets.push(copy).is_err() {
            return Err(Failed);
        }
        Ok(())
    }
}

impl LinkOut for ListOut {
    ghost given = { λ link. Some link.given };

    ghost faults = { λ link. link.faults };

    /// A growth that memory refuses is a failure too.
    fn send(&mut self, packet: &[u8]) -> Result<(), Failed>
        ensures given { OnOk result (self.new.given ≡ self.old.given ++ packet.now ∷ []) }
        ensures same { OnErr result (self.new.given ≡ self.old.given) }
        ensures failed { OnErr result (self.new.faults ≡ one_more self.old.faults) }
        ensures count { self.old.faults ≤ self.new.faults }

        // The listed calls fail.
        ensures calls { self.new.calls ≡ min (self.old.calls + 1) (2 ^ 64 - 1) }
        ensures listed { Contains self.old.failing self.new.calls → IsErr result }
        ensures failing { self.new.failing ≡ self.old.failing }
        ensures no_fault { OnOk result (self.new.faults ≡ self.old.faults) }
    {
        self.calls = self.calls.saturating_add(1);
        if self.failing.contains(&self.calls) || self.keep(packet).is_err() {
            self.faults = self.faults.saturating_add(1);
            return Err(Failed);
        }
        Ok(())
    }

    /// Does nothing, and never fails.
    fn finish(&mut self) -> Result<(), Failed>
        ensures done { IsOk result }
        ensures same { self.new ≡ self.old }
    {
        Ok(())
    }
}
