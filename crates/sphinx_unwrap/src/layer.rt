// Taking off one layer, step by step: shape, keys, routing information, commands, payload. Each step is the
// definition of its name in specs/Layer, so the refusals come in the definition's order.
ghost use Rattle.std.specs.Prelude.{◌≡◌, ◌+◌, ◌↔◌, length, Some, OnOk, IfOk, IsOk, IsErrOf, IsTrue, IsSomeAnd};
ghost use Rattle.std.specs.Option.{ok_or};
ghost use Rattle.mix_base.specs.Results.{GivesAs};
ghost use Rattle.packet_form.specs.Commands.{read};
ghost use Rattle.packet_form.specs.Geometry as lengths;
ghost use Rattle.sphinx_unwrap.specs.Buffers.{layer_seen};
ghost use Rattle.sphinx_unwrap.specs.Faults.{cause_of};
ghost use Rattle.sphinx_unwrap.specs.Layer.{HasOtherLength, HasOtherVersion, IsSealedTo, ciphertext_of, commands_of, hop_keys_of, is_authentic, opened, payload_under, shape, tag_of, unhidden, unsealed};
ghost use Rattle.sphinx_unwrap.specs.declared.faults.Refused.TheVariants.{Commands};

use crate::{Refused, UnwrapFault};
use mix_base::{HopKeys, Kdf, Kem, Mac, Memory, Stream, Suite, Wide};
use packet_form::{Cmds, Geometry, read_cmds};
use sha2::{Digest, Sha256};
use std::alloc::{AllocError, Global};

/// A layer that was taken off, in two buffers.
#[derive(Drop)]
pub struct OpenLayer {
    /// The replay tag.
    pub tag: [u8; 32],
    /// How long this hop holds the packet, and where it goes from here.
    pub commands: Cmds,
    /// This hop's slot, and behind it the next hop's routing information.
    pub slots: Vec<u8>,
    /// The payload after one decryption.
    pub payload: Vec<u8>,
}

/// The first two refusals: another length than the geometry's, and another version than 0.
#[tactic(auto, unfolding(crate::specs::Layer::shape))]
fn check_shape(geo: &Geometry, packet: &[u8]) -> Result<(), Refused>
    ensures exact { result ≡ shape geo.now packet.now }
    ensures whole { OnOk result (length packet.now ≡ lengths.packet geo.now) }
    ensures length { IsErrOf result Refused.Length ↔ HasOtherLength geo.now packet.now }
    ensures version { IsErrOf result Refused.Version ↔ HasOtherVersion geo.now packet.now }
{
    if packet.len() != geo.packet() {
        return Err(Refused::Length);
    }
    if packet[..2] != [0, 0] {
        return Err(Refused::Version);
    }
    Ok(())
}

/// A packet's ciphertext.
fn ciphertext<'a>(geo: &Geometry, packet: &'a [u8]) -> &'a [u8]
    requires { length packet.now ≡ lengths.packet geo.now }
    ensures value { result.now ≡ ciphertext_of geo.now packet.now }
    ensures length { length result.now ≡ geo.now.ct }
{
    &packet[2..2 + geo.ct()]
}

/// The keys of this hop, whether or not the MAC is true under them; `None` where the ciphertext is refused.
#[tactic(auto, unfolding(crate::specs::Layer::hop_keys_of))]
fn hop_keys<S: Suite>(
    alloc: Global,
    geo: &Geometry,
    sk: &[u8],
    packet: &[u8],
) -> Result<Option<HopKeys>, Memory>
    requires ciphertext_length { geo.now.ct ≡ S.K.CT }
    requires secret_length { length sk.now ≡ S.K.SK }
    requires whole { length packet.now ≡ lengths.packet geo.now }
    ensures value { IfOk result (λ keys. keys ≡ hop_keys_of S.meaning geo.now sk.now packet.now) }
    ensures lean { IsTrue S.K.LEAN → IsOk result }
{
    let mut secret = [0; 32];
    if S::K::decap(alloc, sk, ciphertext(geo, packet), &mut secret)? {
        Ok(Some(S::D::expand(&secret)))
    } else {
        Ok(None)
    }
}

/// Whether the header's MAC is true under these keys.
#[tactic(auto, unfolding(crate::specs::Layer::is_authentic))]
fn has_true_mac<S: Suite>(geo: &Geometry, keys: &HopKeys, packet: &[u8]) -> bool
    requires { length packet.now ≡ lengths.packet geo.now }
    ensures { result ≡ is_authentic S.meaning geo.now packet.now keys.now }
{
    let mac_at = geo.header() - 32;
    let code = S::M::tag(&keys.mac, &packet[..mac_at]);
    code.as_slice() == &packet[mac_at..geo.header()]
}

/// The keys of this hop, where the secret key opens the packet.
#[tactic(auto, unfolding(crate::specs::Layer::unsealed))]
fn unseal<S: Suite>(
    alloc: Global,
    geo: &Geometry,
    sk: &[u8],
    packet: &[u8],
) -> Result<Option<HopKeys>, Memory>
    requires ciphertext_length { geo.now.ct ≡ S.K.CT }
    requires secret_length { length sk.now ≡ S.K.SK }
    requires whole { length packet.now ≡ lengths.packet geo.now }
    ensures value { IfOk result (λ keys. keys ≡ unsealed S.meaning geo.now sk.now packet.now) }
    ensures lean { IsTrue S.K.LEAN → IsOk result }
{
    let Some(keys) = hop_keys::<S>(alloc, geo, sk, packet)? else {
        return Ok(None);
    };
    if has_true_mac::<S>(geo, &keys, packet) {
        Ok(Some(keys))
    } else {
        Ok(None)
    }
}

/// The routing information and a slot of zeros, under the hop's stream.
#[tactic(auto, unfolding(crate::specs::Layer::unhidden))]
fn unhide<S: Suite>(
    alloc: Global,
    geo: &Geometry,
    keys: &HopKeys,
    packet: &[u8],
) -> Result<Vec<u8>, AllocError>
    requires { length packet.now ≡ lengths.packet geo.now }
    ensures value { IfOk result (λ slots.
        slots.items ≡ unhidden S.meaning geo.now keys.now packet.now) }
    ensures length { IfOk result (λ slots.
        length slots.items ≡ lengths.routing geo.now + lengths.slot geo.now) }
{
    let whole = geo.routing() + geo.slot();
    let mut slots = Vec::with_capacity(alloc, whole)?;
    slots.extend_from_slice(&packet[2 + geo.ct()..geo.header() - 32])?;
    slots.resize(whole, 0)?;
    S::C::xor(&keys.stream, &mut slots);
    Ok(slots)
}

/// The commands that these 72 bytes spell.
fn read_commands(bytes: &[u8]) -> Result<Cmds, Refused>
    requires { length bytes.now ≡ 72 }
    ensures { result ≡ ok_or (read bytes.now) Commands }
{
    let mut commands = [0; 72];
    commands.copy_from_slice(bytes);
    read_cmds(&commands).ok_or(Refused::Commands)
}

/// The payload after one decryption.
fn decrypt_payload<S: Suite>(
    alloc: Global,
    geo: &Geometry,
    keys: &HopKeys,
    packet: &[u8],
) -> Result<Vec<u8>, AllocError>
    requires { length packet.now ≡ lengths.packet geo.now }
    ensures value { IfOk result (λ payload.
        payload.items ≡ payload_under S.meaning geo.now packet.now keys.now) }
    ensures length { IfOk result (λ payload. length payload.items ≡ lengths.payload geo.now) }
{
    let mut payload = Vec::from_slice(alloc, &packet[geo.header()..])?;
    S::W::decrypt(&keys.wide, &mut payload);
    Ok(payload)
}

/// The layer under a secret key.
#[tactic(auto, unfolding(crate::specs::Layer::opened, crate::specs::Layer::layer_of))]
pub fn open_layer<S: Suite>(
    alloc: Global,
    geo: &Geometry,
    sk: &[u8],
    packet: &[u8],
) -> Result<OpenLayer, UnwrapFault>
    requires ciphertext_length { geo.now.ct ≡ S.K.CT }
    requires secret_length { length sk.now ≡ S.K.SK }
    ensures exact { GivesAs cause_of (layer_seen geo.now) result
        (opened S.meaning geo.now sk.now packet.now) }
    ensures length { IsErrOf result (UnwrapFault.Refused Refused.Length) ↔
        HasOtherLength geo.now packet.now }
    ensures version { IsErrOf result (UnwrapFault.Refused Refused.Version) ↔
        HasOtherVersion geo.now packet.now }
    ensures sealed { IsTrue S.K.LEAN → IsSealedTo S.meaning geo.now sk.now packet.now →
        IsErrOf result (UnwrapFault.Refused Refused.Sealed) }
    ensures tag { IfOk result (λ layer. layer.tag ≡ tag_of geo.now packet.now) }
    ensures slots { IfOk result (λ layer. IsSomeAnd (unsealed S.meaning geo.now sk.now packet.now)
        (λ keys. layer.slots.items ≡ unhidden S.meaning geo.now keys packet.now)) }
    ensures commands { IfOk result (λ layer.
        read (commands_of geo.now layer.slots.items) ≡ Some layer.commands) }
    ensures payload { IfOk result (λ layer. IsSomeAnd (unsealed S.meaning geo.now sk.now packet.now)
        (λ keys. layer.payload.items ≡ payload_under S.meaning geo.now packet.now keys)) }
    ensures slots_length { IfOk result (λ layer.
        length layer.slots.items ≡ lengths.routing geo.now + lengths.slot geo.now) }
    ensures payload_length { IfOk result (λ layer.
        length layer.payload.items ≡ lengths.payload geo.now) }
{
    check_shape(geo, packet)?;
    let Some(keys) = unseal::<S>(alloc, geo, sk, packet)? else {
        return Err(UnwrapFault::Refused(Refused::Sealed));
    };
    let slots = unhide::<S>(alloc, geo, &keys, packet)?;
    let commands = read_commands(&slots[geo.ct()..geo.slot()])?;
    let payload = decrypt_payload::<S>(alloc, geo, &keys, packet)?;
    let tag = Sha256::digest(ciphertext(geo, packet));
    Ok(OpenLayer {
        tag,
        commands,
        slots,
        payload,
    })
}
