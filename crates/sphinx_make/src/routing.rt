// Routing information for a path: from the last hop outwards, each hop's under its stream, with the filler that
// makes the routing information behind it whole.
ghost use Rattle.std.specs.Prelude.{◌≡◌, ◌+◌, ◌-◌, ◌*◌, ◌<◌, ◌≤◌, ◌++◌, ◌∷◌, length, replicate, All, IfOk, OnOk};
ghost use Rattle.packet_form.specs.Commands.{HasLengths};
ghost use Rattle.packet_form.specs.Geometry as lengths;
ghost use Rattle.sphinx_make.specs.Making.{header_mac, hidden, next_filler, routing_beyond, routing_for, routing_of_last};
ghost use Rattle.sphinx_make.specs.Sealing.{HasKeyLengths, IsOnTime};

use crate::path::SealedHop;
use mix_base::{Mac, Stream, Suite};
use packet_form::{Cmds, Exit, Geometry, write_cmds};
use std::alloc::{AllocError, Global};

// The whole stream of a hop over zeros, with what it has of the filler before the last slot.
fn hide_filler<S: Suite>(
    alloc: Global,
    geo: &Geometry,
    hop: &SealedHop,
    filler: &[u8],
) -> Result<Vec<u8>, AllocError>
    requires { length filler.now ≤ lengths.routing geo.now }
    ensures value { IfOk result (λ made. made.items ≡ hidden S.meaning hop.now 0
        (replicate (lengths.routing geo.now - length filler.now) 0
        ++ filler.now ++ replicate (lengths.slot geo.now) 0)) }
    ensures length { IfOk result (λ made.
        length made.items ≡ lengths.routing geo.now + lengths.slot geo.now) }
{
    let whole = geo.routing() + geo.slot();
    let mut bytes = Vec::with_capacity(alloc, whole)?;
    bytes.resize(geo.routing() - filler.len(), 0)?;
    bytes.extend_from_slice(filler)?;
    bytes.resize(whole, 0)?;
    S::C::xor(&hop.keys.stream, &mut bytes);
    Ok(bytes)
}

// The filler that a hop passes on: the end of its stream over what it has and a slot of zeros.
fn pass_filler<S: Suite>(
    alloc: Global,
    geo: &Geometry,
    hop: &SealedHop,
    filler: &[u8],
) -> Result<Vec<u8>, AllocError>
    requires { length filler.now ≤ lengths.routing geo.now }
    ensures { IfOk result (λ passed.
        passed.items ≡ next_filler S.meaning geo.now hop.now filler.now) }
{
    let bytes = hide_filler::<S>(alloc, geo, hop, filler)?;
    let (_, passed) = bytes.split_at(geo.routing() - filler.len());
    Vec::from_slice(alloc, passed)
}

// The MAC of a hop's header.
#[tactic(auto, unfolding(crate::specs::Making::header_mac))]
pub fn code_of<S: Suite>(
    alloc: Global,
    hop: &SealedHop,
    routing: &[u8],
) -> Result<[u8; 32], AllocError>
    ensures { IfOk result (λ mac. mac ≡ header_mac S.meaning hop.now routing.now) }
{
    let mut message = Vec::new(alloc);
    message.extend_from_slice(&[0, 0])?;
    message.extend_from_slice(hop.ciphertext.as_slice())?;
    message.extend_from_slice(routing)?;
    Ok(S::M::tag(&hop.keys.mac, &message))
}

// The routing information for the last hop.
#[tactic(auto, unfolding(crate::specs::Making::routing_of_last))]
fn end_routing<S: Suite>(
    alloc: Global,
    geo: &Geometry,
    hop: &SealedHop,
    last: &Exit,
    filler: &[u8],
) -> Result<Vec<u8>, AllocError>
    requires room { length filler.now + lengths.slot geo.now ≤ lengths.routing geo.now }
    requires delay { IsOnTime hop.now }
    ensures value { IfOk result (λ made.
        made.items ≡ routing_of_last S.meaning geo.now last.now filler.now hop.now) }
    ensures length { IfOk result (λ made. length made.items ≡ lengths.routing geo.now) }
    ensures exit { OnOk result (HasLengths last.now) }
{
    let cmds = Cmds {
        delay: hop.delay,
        exit: *last,
    };
    let mut bytes = Vec::with_capacity(alloc, geo.routing())?;
    bytes.resize(geo.ct(), 0)?;
    bytes.extend_from_slice(&write_cmds(&cmds))?;
    bytes.resize(geo.routing() - filler.len(), 0)?;
    S::C::xor(&hop.keys.stream, &mut bytes);
    bytes.extend_from_slice(filler)?;
    Ok(bytes)
}

// The routing information for a hop whose next hop's is given.
#[tactic(auto, unfolding(crate::specs::Making::routing_beyond))]
fn outer_routing<S: Suite>(
    alloc: Global,
    geo: &Geometry,
    hop: &SealedHop,
    next: &SealedHop,
    behind: &[u8],
) -> Result<Vec<u8>, AllocError>
    requires ciphertext { length next.now.ciphertext ≡ geo.now.ct }
    requires behind { length behind.now ≡ lengths.routing geo.now }
    requires room { lengths.slot geo.now ≤ lengths.routing geo.now }
    requires delay { IsOnTime hop.now }
    ensures value { IfOk result (λ made.
        made.items ≡ routing_beyond S.meaning geo.now hop.now next.now behind.now) }
    ensures length { IfOk result (λ made. length made.items ≡ lengths.routing geo.now) }
{
    let cmds = Cmds {
        delay: hop.delay,
        exit: Exit::Hop {
            id: next.id,
            mac: code_of::<S>(alloc, next, behind)?,
        },
    };
    let mut bytes = Vec::with_capacity(alloc, geo.routing())?;
    bytes.extend_from_slice(next.ciphertext.as_slice())?;
    bytes.extend_from_slice(&write_cmds(&cmds))?;
    bytes.extend_from_slice(&behind[..geo.routing() - geo.slot()])?;
    S::C::xor(&hop.keys.stream, &mut bytes);
    Ok(bytes)
}

/// The routing information for the first of the hops, with the filler of those before it. Asks that filler and slots
/// have room.
pub fn route<S: Suite>(
    alloc: Global,
    geo: &Geometry,
    hops: &[SealedHop],
    last: &Exit,
    filler: &[u8],
) -> Result<Vec<u8>, AllocError>
    requires ciphertext { geo.now.ct ≡ S.K.CT }
    requires lengths { All (HasKeyLengths S.K.CT) hops.now }
    requires delays { All IsOnTime hops.now }
    requires room { length filler.now + length hops.now * lengths.slot geo.now
        ≤ lengths.routing geo.now }
    ensures value { IfOk result (λ made.
        made.items ≡ routing_for S.meaning geo.now last.now filler.now hops.now) }
    ensures length { IfOk result (λ made.
        0 < length hops.now → length made.items ≡ lengths.routing geo.now) }
    ensures exit { OnOk result (0 < length hops.now → HasLengths last.now) }
{
    let Some((hop, rest)) = hops.split_first() else {
        return Ok(Vec::new(alloc));
    };
    let Some((next, _)) = rest.split_first() else {
        return end_routing::<S>(alloc, geo, hop, last, filler);
    };
    let passed = pass_filler::<S>(alloc, geo, hop, filler)?;
    let behind = route::<S>(alloc, geo, rest, last, &passed)?;
    outer_routing::<S>(alloc, geo, hop, next, &behind)
}
