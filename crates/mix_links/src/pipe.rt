// Bytes on their way from one end of a link to the other: what was put in at the back is taken from the front in
// packets of any length, and once the pipe is closed the rest may be too short for one.
ghost use Rattle.std.specs.Prelude.{◌≡◌, ◌<◌, ◌++◌, ◌↔◌, true, length, IsTrue, IsErr, OnOk, OnErr};
ghost use Rattle.mix_links.specs.Links.{Takes, EndsShort, IsFailed, OnNoPacket};
ghost use Rattle.mix_links.specs.Objects.{IsReady};

use crate::Arrived;
use mix_base::Failed;
use std::marker::Model;

#[derive(Drop)]
pub(crate) struct Pipe {
    bytes: Vec<u8>,
    place: usize,
    closed: bool,
}

impl Model for Pipe {
    ghost use Rattle.std.specs.Prelude.{◌≤◌, vec_len, drop};
    ghost use Rattle.mix_links.specs.Objects.{PipeState};

    ghost Value = { PipeState };

    ghost view = { λ p. record { left = drop p.place p.bytes.items; closed = p.closed } };

    ghost invariant = { λ p. p.place ≤ vec_len p.bytes };
}

impl Pipe {
    // These bytes are in it.
    pub(crate) fn new(bytes: Vec<u8>, closed: bool) -> Pipe
        ensures { result ≡ record { left = bytes.items; closed = closed } }
    {
        Pipe {
            bytes,
            place: 0,
            closed,
        }
    }

    // Makes room at the front for what was taken, once that is half of all.
    fn compact(&mut self)
        ensures { self.new ≡ self.old }
    {
        if self.place > self.bytes.len() / 2 {
            let rest = self.bytes.len() - self.place;
            self.bytes.copy_within(self.place.., 0);
            self.bytes.truncate(rest);
            self.place = 0;
        }
    }

    // Puts the packet in behind the others. It fails where memory is wanting, and in a closed pipe.
    pub(crate) fn put(&mut self, packet: &[u8]) -> Result<(), Failed>
        ensures ok { OnOk result
            (self.new ≡ record self.old { left = self.old.left ++ packet.now }) }
        ensures err { OnErr result (self.new ≡ self.old) }
        ensures closed { self.old.closed ≡ true → IsErr result }
    {
        if self.closed {
            return Err(Failed);
        }
        self.compact();
        match self.bytes.extend_from_slice(packet) {
            Ok(()) => Ok(()),
            Err(_) => Err(Failed),
        }
    }

    pub(crate) fn close(&mut self)
        ensures { self.new ≡ record self.old { closed = true } }
    {
        self.closed = true;
    }

    // Whether `take` has an answer: a packet of this size is there, or none will be.
    pub(crate) fn is_ready(&self, size: usize) -> bool
        ensures { IsTrue result ↔ IsReady self.now size }
    {
        self.closed || size <= self.bytes.len() - self.place
    }

    // Takes a packet of the buffer's length from the front, or comes to the end.
    pub(crate) fn take(&mut self, buf: &mut [u8]) -> Arrived
        requires { IsReady self.old (length buf.old) }
        ensures taken { Takes result self.old.left buf.new self.new.left }
        ensures short { EndsShort result (length buf.old) }
        ensures never_failed { ¬ IsFailed result }
        ensures ends { OnNoPacket result (self.old.closed ≡ true) }
        ensures rest { OnNoPacket result (buf.new ≡ buf.old) }
        ensures closed { self.new.closed ≡ self.old.closed }
    {
        let left = &self.bytes[self.place..];
        let size = buf.len();
        if left.len() < size {
            return Arrived::End { cut: left.len() };
        }
        buf.copy_from_slice(&left[..size]);
        self.place += size;
        Arrived::Packet
    }
}
