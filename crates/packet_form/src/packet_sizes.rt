// The geometry of a network's packets: three sizes, and the lengths of all parts that follow from them.
ghost use Rattle.std.specs.Prelude.{◌≡◌, ◌==◌, ℕ, ◌≤◌, ◌↔◌, IsOk, IfOk, IsErrOf};
ghost use Rattle.std.proofs.Common.{rules};
ghost use Rattle.std.specs.Cmp.Rules.{comparing};
ghost use Rattle.std.specs.Ordering.{eq_of_both, on};
ghost use Rattle.packet_form.specs.Geometry.{Sizes, IsWithin, InRange};
ghost use Rattle.packet_form.specs.Geometry as lengths;

use crate::GeometryFault;
use std::marker::Model;

/// The sizes of a network's packets. Contracts see it as these sizes, and its lengths are in bytes.
#[derive(Clone, Copy, Debug)]
pub struct Geometry {
    ct: usize,
    hops: usize,
    body: usize,
}

impl Model for Geometry {
    ghost Value = { Sizes };

    ghost view = { λ g. record { ct = g.ct; hops = g.hops; body = g.body } };

    ghost invariant = { λ g. InRange (record { ct = g.ct; hops = g.hops; body = g.body }) };

    ghost inverse = { λ sizes. record { ct = sizes.ct; hops = sizes.hops; body = sizes.body } };
}

impl PartialEq for Geometry {
    ghost eq = { eq_of_both (on (λ g. g.ct) ◌==◌)
        (eq_of_both (on (λ g. g.hops) ◌==◌) (on (λ g. g.body) ◌==◌)) };

    ghost laws = { Prim.search (comparing, rules) };

    fn eq(&self, other: &Geometry) -> bool {
        self.ct == other.ct && self.hops == other.hops && self.body == other.body
    }
}

impl Eq for Geometry {
    ghost laws = { Prim.search (comparing, rules) };
}

impl Geometry {
    /// The geometry of a ciphertext's length, a greatest number of hops and a body's length. Asks a ciphertext
    /// of at most 4,096 bytes. `Hops` comes exactly where hops isn't 1 to 5, and else `Body` exactly where body
    /// isn't 1 to 4,096.
    pub fn new(ct: usize, hops: usize, body: usize) -> Result<Geometry, GeometryFault>
        requires { ct ≤ 4096 }
        ensures ok { IsOk result ↔ (IsWithin 1 5 hops × IsWithin 1 4096 body) }
        ensures hops { IsErrOf result GeometryFault.Hops ↔ ¬ IsWithin 1 5 hops }
        ensures body { IsErrOf result GeometryFault.Body ↔
            (IsWithin 1 5 hops × ¬ IsWithin 1 4096 body) }
        ensures sizes { IfOk result (λ made. made ≡ record { ct = ct; hops = hops; body = body }) }
    {
        if !(1..=5).contains(&hops) {
            return Err(GeometryFault::Hops);
        }
        if !(1..=4096).contains(&body) {
            return Err(GeometryFault::Body);
        }
        Ok(Geometry { ct, hops, body })
    }

    /// The length of a ciphertext.
    pub fn ct(&self) -> usize
        ensures value { result ≡ self.now.ct }
        ensures in_range { InRange self.now }
    {
        self.ct
    }

    /// The greatest number of hops, 1 to 5.
    pub fn hops(&self) -> usize
        ensures value { result ≡ self.now.hops }
        ensures in_range { InRange self.now }
    {
        self.hops
    }

    /// The length of a body, 1 to 4,096.
    pub fn body(&self) -> usize
        ensures value { result ≡ self.now.body }
        ensures in_range { InRange self.now }
    {
        self.body
    }

    /// The length of one hop's part of the routing information: a ciphertext and 72 bytes of commands.
    pub fn slot(&self) -> usize
        ensures value { result ≡ lengths.slot self.now }
        ensures most { result ≤ 4168 }
    {
        self.ct + 72
    }

    /// The length of the routing information: a slot for each hop.
    pub fn routing(&self) -> usize
        ensures value { result ≡ lengths.routing self.now }
        ensures most { result ≤ 20840 }
    {
        self.hops * self.slot()
    }

    /// The length of a header: version, ciphertext, routing information and MAC.
    pub fn header(&self) -> usize
        ensures value { result ≡ lengths.header self.now }
        ensures most { result ≤ 24970 }
    {
        2 + self.ct + self.routing() + 32
    }

    /// The length of a reply block: a header, the id of its first hop and a key of 128 bytes.
    pub fn block(&self) -> usize
        ensures value { result ≡ lengths.block self.now }
        ensures most { result ≤ 25130 }
    {
        self.header() + 32 + 128
    }

    /// The length of a payload: zeros, flag, the room of a block, and the body.
    pub fn payload(&self) -> usize
        ensures value { result ≡ lengths.payload self.now }
        ensures most { result ≤ 29260 }
    {
        32 + 2 + self.block() + self.body
    }

    /// The length of a packet: header and payload.
    pub fn packet(&self) -> usize
        ensures value { result ≡ lengths.packet self.now }
        ensures most { result ≤ 54230 }
    {
        self.header() + self.payload()
    }
}
