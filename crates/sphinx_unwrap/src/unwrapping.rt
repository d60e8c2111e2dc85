// Unwrapping: a layer is taken off, and what goes out of it is made.
ghost use Rattle.std.specs.Prelude.{◌≡◌, ◌+◌, ◌↔◌, length, drop, slice_range, IfOk, OnOk, IsErrOf, IsTrue, option_map};
ghost use Rattle.std.specs.Option.{option_copied};
ghost use Rattle.mix_base.specs.Results.{Gives};
ghost use Rattle.packet_form.specs.Commands.{HasLengths};
ghost use Rattle.packet_form.specs.Geometry as lengths;
ghost use Rattle.sphinx_unwrap.specs.Buffers.{layer_seen};
ghost use Rattle.sphinx_unwrap.specs.Faults.{cause_of};
ghost use Rattle.sphinx_unwrap.specs.Layer.{HasOtherLength, HasOtherVersion, IsSealedTo, tag_of};
ghost use Rattle.sphinx_unwrap.specs.Outcome.{SaysUnder, out, packet_of, received, unwrapped};
ghost use Rattle.sphinx_unwrap.specs.Payload.{body_of, read_block};

use crate::layer::{OpenLayer, open_layer};
use crate::{Opened, Out, Refused, UnwrapFault};
use mix_base::{Bytes, Suite, is_zero};
use packet_form::{Exit, Geometry};
use std::alloc::{AllocError, Global};

/// The block, or none, of a payload that is right before its body; `None` where it isn't.
#[tactic(auto, unfolding(crate::specs::Payload::read_block))]
fn block_in<'a>(geo: &Geometry, payload: &'a [u8]) -> Option<Option<&'a [u8]>>
    requires { length payload.now ≡ lengths.payload geo.now }
    ensures { option_map (λ found. option_copied found) result ≡ read_block geo.now payload.now }
{
    if !is_zero(&payload[..32]) || payload[33] != 0 {
        return None;
    }
    let room = &payload[34..34 + geo.block()];
    match payload[32] {
        1 => Some(Some(room)),
        0 if is_zero(room) => Some(None),
        _ => None,
    }
}

/// A copy of these bytes.
fn owned(alloc: Global, bytes: &[u8]) -> Result<Bytes, AllocError>
    ensures { IfOk result (λ copied. copied ≡ bytes.now) }
{
    Ok(Bytes::of(Vec::from_slice(alloc, bytes)?))
}

/// What goes out to a recipient.
fn receive(
    alloc: Global,
    geo: &Geometry,
    recipient: [u8; 32],
    payload: &[u8],
) -> Result<Out, AllocError>
    requires { length payload.now ≡ lengths.payload geo.now }
    ensures { IfOk result (λ out. out ≡
        received recipient (body_of geo.now payload.now) (read_block geo.now payload.now)) }
{
    let Some(block) = block_in(geo, payload) else {
        return Ok(Out::Damaged { recipient });
    };
    let body = owned(alloc, &payload[34 + geo.block()..])?;
    let block = match block {
        Some(block) => Some(owned(alloc, block)?),
        None => None,
    };
    Ok(Out::Deliver {
        recipient,
        body,
        block,
    })
}

/// The packet for the next hop: its ciphertext and routing information stand in the slots.
fn forward(
    alloc: Global,
    geo: &Geometry,
    slots: &[u8],
    mac: &[u8; 32],
    payload: &[u8],
) -> Result<Bytes, AllocError>
    requires { length slots.now ≡ lengths.routing geo.now + lengths.slot geo.now }
    ensures { IfOk result (λ packet. packet ≡ packet_of (slice_range slots.now 0 geo.now.ct)
        (drop (lengths.slot geo.now) slots.now) mac.now payload.now) }
{
    let mut packet = Vec::with_capacity(alloc, geo.packet())?;
    packet.extend_from_slice(&[0, 0])?;
    packet.extend_from_slice(&slots[..geo.ct()])?;
    packet.extend_from_slice(&slots[geo.slot()..])?;
    packet.extend_from_slice(mac)?;
    packet.extend_from_slice(payload)?;
    Ok(Bytes::of(packet))
}

/// What goes out of a layer.
fn leave(alloc: Global, geo: &Geometry, layer: OpenLayer) -> Result<Out, AllocError>
    requires slots { length layer.slots.items ≡ lengths.routing geo.now + lengths.slot geo.now }
    requires payload { length layer.payload.items ≡ lengths.payload geo.now }
    ensures value { IfOk result (λ left. left ≡ out geo.now (layer_seen geo.now layer)) }
    ensures lengths { OnOk result (HasLengths layer.commands.exit) }
{
    let OpenLayer {
        tag: _,
        commands,
        slots,
        payload,
    } = layer;
    match commands.exit {
        Exit::Hop { id, mac } => {
            let packet = forward(alloc, geo, &slots, &mac, &payload)?;
            Ok(Out::Forward { next: id, packet })
        }
        Exit::Recipient { id } => receive(alloc, geo, id, &payload),
        Exit::Reply { id, surb } => Ok(Out::Reply {
            recipient: id,
            surb,
            payload: Bytes::of(payload),
        }),
    }
}

/// Unwraps a packet with a hop's secret key. Asks a geometry of the suite's ciphertext, and a secret key of the
/// suite's length. A refusal is the first cause of the order of `Refused`.
#[tactic(auto, unfolding(crate::specs::Outcome::unwrapped))]
pub fn unwrap<S: Suite>(
    alloc: Global,
    geo: &Geometry,
    sk: &[u8],
    packet: &[u8],
) -> Result<Opened, UnwrapFault>
    requires ciphertext_length { geo.now.ct ≡ S.K.CT }
    requires secret_length { length sk.now ≡ S.K.SK }
    ensures exact { Gives cause_of result (unwrapped S.meaning geo.now sk.now packet.now) }
    // These refusals come whether or not there is memory: of a length or a version, and, where the mechanism takes no
    // memory, of a secret key that doesn't open the packet.
    ensures length { IsErrOf result (UnwrapFault.Refused Refused.Length) ↔
        HasOtherLength geo.now packet.now }
    ensures version { IsErrOf result (UnwrapFault.Refused Refused.Version) ↔
        HasOtherVersion geo.now packet.now }
    ensures sealed { IsTrue S.K.LEAN → IsSealedTo S.meaning geo.now sk.now packet.now →
        IsErrOf result (UnwrapFault.Refused Refused.Sealed) }
    ensures tag { IfOk result (λ opened. opened.tag ≡ tag_of geo.now packet.now) }
    // The secret key opens the packet; delay and exit are those of the commands in its slot; and what goes out is, by
    // the exit, a packet of the parts behind the layer, what the payload spells, or the whole payload.
    ensures says { IfOk result (SaysUnder S.meaning geo.now sk.now packet.now) }
{
    let layer = open_layer::<S>(alloc, geo, sk, packet)?;
    let tag = layer.tag;
    let delay = layer.commands.delay;
    let out = leave(alloc, geo, layer)?;
    Ok(Opened { tag, delay, out })
}
