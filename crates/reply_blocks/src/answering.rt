// Answers: a body goes into the payload under the block's own key, behind the block's header.
ghost use Rattle.std.specs.Prelude.{◌≡◌, ◌≢◌, ◌<◌, ◌↔◌, length, IfOk, IsErrOf};
ghost use Rattle.mix_base.specs.Results.{Gives};
ghost use Rattle.packet_form.specs.Geometry as lengths;
ghost use Rattle.reply_blocks.specs.Blocks.{first_in, header_in, own_in};
ghost use Rattle.reply_blocks.specs.Faults.{answer_cause};
ghost use Rattle.reply_blocks.specs.Replies.{AnswersParts, answer_payload, answer_to, answered};

use crate::AnswerFault;
use mix_base::{Bytes, Suite, Wide};
use packet_form::Geometry;
use sphinx_make::spell_payload;
use std::alloc::{AllocError, Global};

/// An answer to a block.
#[derive(Drop)]
pub struct Answered {
    /// The id of the hop that the packet goes to.
    pub first: [u8; 32],
    /// The packet, of the geometry's packet length.
    pub packet: Bytes,
}

/// The answer with this body to a block. Refuses a block that hasn't the geometry's length, and else a body that hasn't.
#[tactic(auto, unfolding(crate::specs::Replies::answered))]
pub fn answer<S: Suite>(
    alloc: Global,
    geo: &Geometry,
    block: &[u8],
    body: &[u8],
) -> Result<Answered, AnswerFault>
    // The id and the bytes of the definition, or its refusal.
    ensures exact { Gives answer_cause result (answered S.meaning geo.now block.now body.now) }
    // Both refusals come whether or not there is memory.
    ensures block_length { IsErrOf result AnswerFault.BlockLength ↔
        (length block.now ≢ lengths.block geo.now) }
    ensures body_length { IsErrOf result AnswerFault.BodyLength ↔
        ((length block.now ≡ lengths.block geo.now) × (length body.now ≢ geo.now.body)) }
    // To a block of three parts: the id, and the header with the body under the own key.
    ensures parts { IfOk result (AnswersParts S.meaning geo.now block.now body.now) }
    ensures length { IfOk result (λ made. length made.packet ≡ lengths.packet geo.now) }
{
    if block.len() != geo.block() {
        return Err(AnswerFault::BlockLength);
    }
    if body.len() != geo.body() {
        return Err(AnswerFault::BodyLength);
    }
    Ok(join_answer::<S>(alloc, geo, block, body)?)
}

// The answer to a block of the geometry's length.
fn join_answer<S: Suite>(
    alloc: Global,
    geo: &Geometry,
    block: &[u8],
    body: &[u8],
) -> Result<Answered, AllocError>
    requires block { length block.now ≡ lengths.block geo.now }
    requires body { length body.now ≡ geo.now.body }
    ensures value { IfOk result (λ made.
        made ≡ answer_to S.meaning geo.now block.now body.now) }
    ensures length { IfOk result (λ made. length made.packet ≡ lengths.packet geo.now) }
{
    let (header, first, own) = parts_of(geo, block);
    let payload = seal_body::<S>(alloc, geo, &own, body)?;
    let mut packet = Vec::with_capacity(alloc, geo.packet())?;
    packet.extend_from_slice(header)?;
    packet.extend_from_slice(&payload)?;
    Ok(Answered {
        first,
        packet: Bytes::of(packet),
    })
}

// A block's header, the id of its first hop and its own key.
fn parts_of<'a>(geo: &Geometry, block: &'a [u8]) -> (&'a [u8], [u8; 32], [u8; 128])
    requires { length block.now ≡ lengths.block geo.now }
    ensures header { result.0.now ≡ header_in geo.now block.now }
    ensures header_length { length result.0.now ≡ lengths.header geo.now }
    ensures first { result.1 ≡ first_in geo.now block.now }
    ensures own { result.2 ≡ own_in geo.now block.now }
{
    let (header, behind) = block.split_at(geo.header());
    let (id, key) = behind.split_at(32);
    let mut first = [0; 32];
    first.copy_from_slice(id);
    let mut own = [0; 128];
    own.copy_from_slice(key);
    (header, first, own)
}

// The payload of an answer, under the block's own key.
#[tactic(auto, unfolding(crate::specs::Replies::answer_payload))]
fn seal_body<S: Suite>(
    alloc: Global,
    geo: &Geometry,
    own: &[u8; 128],
    body: &[u8],
) -> Result<Vec<u8>, AllocError>
    requires { length body.now ≡ geo.now.body }
    ensures value { IfOk result (λ payload.
        payload.items ≡ answer_payload S.meaning geo.now own.now body.now) }
    ensures length { IfOk result (λ payload. length payload.items ≡ lengths.payload geo.now) }
{
    let payload = spell_payload(alloc, geo, body, None)?;
    Ok(encrypted::<S>(own, payload))
}

// The payload encrypted by a key.
fn encrypted<S: Suite>(key: &[u8; 128], payload: Vec<u8>) -> Vec<u8>
    requires { 32 < length payload.items }
    ensures value { result.items ≡ S.meaning.encrypt key.now payload.items }
    ensures length { length result.items ≡ length payload.items }
{
    let mut payload = payload;
    S::W::encrypt(key, &mut payload);
    payload
}
