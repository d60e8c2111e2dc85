// Links. A link carries packets of one length, one after the other, with nothing between.
ghost use Rattle.std.specs.Prelude.{◌≡◌, ℕ, ◌<◌, ◌≤◌, [], ◌∷◌, ◌++◌, List, Option, length, Some, IfSome, IsSomeAnd, OnOk, OnErr};
ghost use Rattle.mix_base.specs.Faults.{Rose};
ghost use Rattle.mix_links.specs.Links.{IsFailed, EndsShort, Takes};

use mix_base::Failed;

/// What came over a link.
#[derive(Clone, Copy, Debug, PartialEq, Eq)]
pub enum Arrived {
    /// A packet, of the buffer's length.
    Packet,
    /// Less than a whole packet is left, and no more will come: so many bytes.
    End { cut: usize },
    /// The link failed, and took nothing.
    Failed,
}

/// The end of a link at which packets arrive.
pub trait LinkIn: Drop {
    /// The bytes left, where the link tells them.
    ghost left: { Self → Option (List ℕ) };

    /// How often it has failed, at most 2^64 - 1.
    ghost faults: { Self → ℕ };

    /// Fills the buffer with the next packet. It may wait for one. The end comes exactly where less than a whole
    /// packet is left. At the end and after a failure nothing is taken.
    fn next_packet(&mut self, buf: &mut [u8]) -> Arrived
        requires { 0 < length buf.old }
        ensures taken { IfSome (left self.old) (λ before.
            IsSomeAnd (left self.new) (λ after. Takes result before buf.new after)) }
        ensures short { EndsShort result (length buf.old) }
        ensures failed { IsFailed result → Rose (faults self.old) (faults self.new) }
        ensures count { faults self.old ≤ faults self.new };
}

/// The end of a link to which packets are given.
pub trait LinkOut: Drop {
    /// The packets given, where the link tells them.
    ghost given: { Self → Option (List (List ℕ)) };

    /// How often it has failed, at most 2^64 - 1.
    ghost faults: { Self → ℕ };

    /// Gives the packet, or after a failure nothing of it.
    fn send(&mut self, packet: &[u8]) -> Result<(), Failed>
        ensures given { IfSome (given self.old) (λ before.
            OnOk result (given self.new ≡ Some (before ++ packet.now ∷ []))) }
        ensures same { IfSome (given self.old) (λ before.
            OnErr result (given self.new ≡ Some before)) }
        ensures failed { OnErr result (Rose (faults self.old) (faults self.new)) }
        ensures count { faults self.old ≤ faults self.new };

    /// No packet follows: the other side then comes to its end.
    fn finish(&mut self) -> Result<(), Failed>
        ensures same { IfSome (given self.old) (λ before. given self.new ≡ Some before) }
        ensures failed { OnErr result (Rose (faults self.old) (faults self.new)) }
        ensures count { faults self.old ≤ faults self.new };
}
