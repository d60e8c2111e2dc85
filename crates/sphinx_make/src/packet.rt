// Packets: a header for a path, and the payload for a recipient, encrypted from the last hop to the first.
ghost use Rattle.std.specs.Prelude.{◌≡◌, ◌*◌, ◌<◌, ◌++◌, length, Err, IfOk, OnOk, IsErrOf};
ghost use Rattle.std.specs.Option.{option_copied};
ghost use Rattle.mix_base.specs.Results.{GivesAs};
ghost use Rattle.packet_form.specs.Geometry as lengths;
ghost use Rattle.sphinx_unwrap.specs.Payload.{HasRoom, spell, spelled_block};
ghost use Rattle.sphinx_make.specs.Carrying.{CarriesSpelled, IsDelivered};
ghost use Rattle.sphinx_make.specs.Faults.{cause_of};
ghost use Rattle.sphinx_make.specs.Making.{checked_contents, checked_packet, encrypted_along, made_packet};
ghost use Rattle.sphinx_make.specs.declared.faults.MakeFault.{MakeFault};

use crate::header::make_header;
use crate::payload::{encrypt_along, spell_payload};
use crate::sealing::check_count;
use crate::{HopSpec, MakeFault};
use mix_base::Suite;
use packet_form::{Exit, Geometry};
use std::alloc::{AllocError, Global};

/// A packet for a path, of the geometry's packet length, that brings a recipient a body and, if there is one, a reply
/// block. Asks the geometry of the suite's ciphertexts, and as many coins for each hop as the mechanism takes. Refuses
/// with the first cause that applies, as the order of `MakeFault` has them.
#[tactic(auto, unfolding(crate::specs::Making::made_packet, crate::specs::Making::checked_packet))]
pub fn make_packet<S: Suite>(
    alloc: Global,
    geo: &Geometry,
    path: &[HopSpec],
    recipient: &[u8; 32],
    body: &[u8],
    block: Option<&[u8]>,
    coins: &[u32],
) -> Result<Vec<u8>, MakeFault>
    requires ciphertext { geo.now.ct ≡ S.K.CT }
    requires coins { length coins.now ≡ length path.now * S.K.COINS }

    // The bytes of the definition, or its refusal.
    ensures exact { let reply_block = option_copied block.entry in
        GivesAs cause_of (λ packet. packet.items) result
        (made_packet S.meaning geo.now path.now recipient.now body.now reply_block coins.now) }
    // What is refused for the length of path, body or block, or for a delay, is refused whether or not there is memory.
    ensures at_once { let reply_block = option_copied block.entry in (why : MakeFault) →
        checked_packet geo.now path.now body.now reply_block ≡ Err why → IsErrOf result why }
    ensures length { IfOk result (λ packet. length packet.items ≡ lengths.packet geo.now) }
    // Where secret keys agree with the path's, the packet carries the spelled payload along, and is delivered at the end.
    ensures carries { let reply_block = option_copied block.entry in IfOk result (λ packet.
        CarriesSpelled S.meaning geo.now path.now recipient.now body.now reply_block packet.items) }
    ensures arrives { let reply_block = option_copied block.entry in IfOk result (λ packet.
        IsDelivered S.meaning geo.now path.now recipient.now body.now reply_block packet.items) }
{
    check_count(geo, path)?;
    check_contents(geo, body, block)?;
    let last = Exit::Recipient { id: *recipient };
    let made = make_header::<S>(alloc, geo, path, &last, coins)?;
    let payload = hide_payload::<S>(alloc, geo, &made.wides, body, block)?;
    let mut packet = made.header.into_vec();
    packet.extend_from_slice(&payload)?;
    Ok(packet)
}

// The refusals of a body and of a block that haven't the geometry's lengths.
#[tactic(auto, unfolding(crate::specs::Making::checked_contents))]
fn check_contents(geo: &Geometry, body: &[u8], block: Option<&[u8]>) -> Result<(), MakeFault>
    ensures exact { result ≡ checked_contents geo.now body.now (option_copied block.entry) }
    ensures body { OnOk result (length body.now ≡ geo.now.body) }
    ensures block { OnOk result (HasRoom geo.now (option_copied block.entry)) }
{
    if body.len() != geo.body() {
        return Err(MakeFault::BodyLength);
    }
    match block {
        Some(block) if block.len() != geo.block() => Err(MakeFault::BlockLength),
        _ => Ok(()),
    }
}

// The payload that carries a block, or none, and a body, under the wide keys.
fn hide_payload<S: Suite>(
    alloc: Global,
    geo: &Geometry,
    wides: &[[u8; 128]],
    body: &[u8],
    block: Option<&[u8]>,
) -> Result<Vec<u8>, AllocError>
    requires body { length body.now ≡ geo.now.body }
    requires block { HasRoom geo.now (option_copied block) }
    ensures value { IfOk result (λ payload. payload.items ≡
        encrypted_along S.meaning wides.now (spell geo.now (option_copied block.entry) body.now)) }
    ensures length { IfOk result (λ payload. length payload.items ≡ lengths.payload geo.now) }
{
    let mut payload = spell_payload(alloc, geo, body, block)?;
    encrypt_along::<S>(wides, &mut payload);
    Ok(payload)
}
