// Headers: encapsulation to each hop of a path, and routing information from the last hop outwards. What a header is
// for is a law: whatever payload stands behind it goes along the path.
ghost use Rattle.std.specs.Prelude.{◌≡◌, ◌+◌, ◌*◌, ◌<◌, ◌≤◌, length, All, Err, IfOk, OnOk, IsErrOf};
ghost use Rattle.mix_base.specs.Results.{GivesAs};
ghost use Rattle.packet_form.specs.Commands.{HasLengths};
ghost use Rattle.packet_form.specs.Geometry as lengths;
ghost use Rattle.sphinx_make.specs.Carrying.{CarriesEachPayload};
ghost use Rattle.sphinx_make.specs.Faults.{cause_of};
ghost use Rattle.sphinx_make.specs.Making.{checked, header_for, header_of, made_header, wides_of};
ghost use Rattle.sphinx_make.specs.Sealing.{HasKeyLengths, IsOnTime};
ghost use Rattle.sphinx_make.specs.declared.faults.MakeFault.{MakeFault};

use crate::path::SealedHop;
use crate::routing::{code_of, route};
use crate::sealing::{check_path, seal_path};
use crate::{HopSpec, MakeFault};
use mix_base::{Bytes, Suite};
use packet_form::{Exit, Geometry};
use std::alloc::{AllocError, Global};

/// A header, of the geometry's header length, and the key of the wide block cipher of each hop, in path order.
#[derive(Drop)]
pub struct MadeHeader {
    pub header: Bytes,
    pub wides: Vec<[u8; 128]>,
}

/// A header for a path, whose last hop finds these commands. Asks the geometry of the suite's ciphertexts, and as many
/// coins for each hop as the mechanism takes: hop i, from 0, gets those from i times that many on. Refuses with the first
/// cause that applies, as the order of `MakeFault` has them: `PathLength`, `Delay`, `KeyForm`.
#[tactic(auto, unfolding(crate::specs::Making::made_header))]
pub fn make_header<S: Suite>(
    alloc: Global,
    geo: &Geometry,
    path: &[HopSpec],
    last: &Exit,
    coins: &[u32],
) -> Result<MadeHeader, MakeFault>
    requires ciphertext { geo.now.ct ≡ S.K.CT }
    requires coins { length coins.now ≡ length path.now * S.K.COINS }

    // The bytes of the definition, or its refusal.
    ensures exact { GivesAs cause_of (λ made. (made.header, made.wides.items)) result
        (made_header S.meaning geo.now path.now last.now coins.now) }
    // What is refused for the path's length or a delay is refused whether or not there is memory.
    ensures at_once { (why : MakeFault) → checked geo.now path.now ≡ Err why → IsErrOf result why }
    ensures length { IfOk result (λ made. length made.header ≡ lengths.header geo.now) }
    // Where secret keys agree with the path's, a payload behind the header is carried along.
    ensures carries { IfOk result (λ made.
        CarriesEachPayload S.meaning geo.now path.now last.now made.header made.wides.items) }
{
    check_path(geo, path)?;
    let hops = seal_path::<S>(alloc, path, coins)?;
    let header = join_header::<S>(alloc, geo, &hops, last)?;
    let wides = wide_keys(alloc, &hops)?;
    Ok(MadeHeader { header, wides })
}

// The header for the first of the hops.
fn join_header<S: Suite>(
    alloc: Global,
    geo: &Geometry,
    hops: &[SealedHop],
    last: &Exit,
) -> Result<Bytes, AllocError>
    requires ciphertext { geo.now.ct ≡ S.K.CT }
    requires lengths { All (HasKeyLengths S.K.CT) hops.now }
    requires delays { All IsOnTime hops.now }
    requires room { length hops.now ≤ geo.now.hops }
    ensures value { IfOk result (λ header.
        header ≡ header_for S.meaning geo.now last.now hops.now) }
    ensures length { IfOk result (λ header.
        0 < length hops.now → length header ≡ lengths.header geo.now) }
    ensures exit { OnOk result (0 < length hops.now → HasLengths last.now) }
{
    let Some((first, _)) = hops.split_first() else {
        return Ok(Bytes::of(Vec::new(alloc)));
    };
    let routing = route::<S>(alloc, geo, hops, last, &[])?;
    write_header::<S>(alloc, first, &routing)
}

// A hop's header: version 0, ciphertext, routing information and MAC.
fn write_header<S: Suite>(
    alloc: Global,
    hop: &SealedHop,
    routing: &[u8],
) -> Result<Bytes, AllocError>
    ensures value { IfOk result (λ header. header ≡ header_of S.meaning hop.now routing.now) }
    ensures length { IfOk result (λ header.
        length header ≡ 2 + length hop.now.ciphertext + length routing.now + 32) }
{
    let mac = code_of::<S>(alloc, hop, routing)?;
    let mut header = Vec::new(alloc);
    header.extend_from_slice(&[0, 0])?;
    header.extend_from_slice(hop.ciphertext.as_slice())?;
    header.extend_from_slice(routing)?;
    header.extend_from_slice(&mac)?;
    Ok(Bytes::of(header))
}

// The keys of the wide block cipher, in path order.
fn wide_keys(alloc: Global, hops: &[SealedHop]) -> Result<Vec<[u8; 128]>, AllocError>
    ensures { IfOk result (λ wides. wides.items ≡ wides_of hops.now) }
{
    let mut wides = Vec::with_capacity(alloc, hops.len())?;
    'keys: for hop in hops {
        wides.push(hop.keys.wide)?;
    }
    Ok(wides)
}
