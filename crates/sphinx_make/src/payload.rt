// Payloads: what a recipient is to find is spelled, and encrypted from the last hop of a path to the first.
ghost use Rattle.std.specs.Prelude.{◌≡◌, ◌<◌, ◌++◌, length, IfOk, OnOk};
ghost use Rattle.std.specs.Option.{option_copied};
ghost use Rattle.packet_form.specs.Geometry as lengths;
ghost use Rattle.sphinx_unwrap.specs.Payload.{HasRoom, spell, spelled_block};
ghost use Rattle.sphinx_make.specs.Making.{encrypted_along};

use mix_base::{Suite, Wide};
use packet_form::Geometry;
use std::alloc::{AllocError, Global};

/// The payload that carries a block, or none, and a body: 32 zeros, a flag, a zero, the room of a block, and the body. It
/// has the geometry's payload length where body and block have theirs.
pub fn spell_payload(
    alloc: Global,
    geo: &Geometry,
    body: &[u8],
    block: Option<&[u8]>,
) -> Result<Vec<u8>, AllocError>
    ensures value { IfOk result (λ payload.
        payload.items ≡ spell geo.now (option_copied block.entry) body.now) }
    ensures length { IfOk result (λ payload.
        length body.now ≡ geo.now.body → HasRoom geo.now (option_copied block.entry) →
        length payload.items ≡ lengths.payload geo.now) }
{
    let mut payload = Vec::with_capacity(alloc, geo.payload())?;
    payload.resize(32, 0)?;
    add_block(&mut payload, geo, block)?;
    payload.extend_from_slice(body)?;
    Ok(payload)
}

// Writes the flag, a zero and the room of a block behind the zeros of a payload.
fn add_block(payload: &mut Vec<u8>, geo: &Geometry, block: Option<&[u8]>) -> Result<(), AllocError>
    requires { length payload.old.items ≡ 32 }
    ensures { OnOk result (payload.new.items ≡
        payload.old.items ++ spelled_block geo.now (option_copied block.entry)) }
{
    match block {
        Some(bytes) => {
            payload.extend_from_slice(&[1, 0])?;
            payload.extend_from_slice(bytes)
        }
        None => {
            payload.extend_from_slice(&[0, 0])?;
            payload.resize(34 + geo.block(), 0)
        }
    }
}

/// Encrypts a payload of more than 32 bytes by the keys of the wide block cipher, from the last to the first.
pub fn encrypt_along<S: Suite>(wides: &[[u8; 128]], payload: &mut [u8])
    requires { 32 < length payload.old }
    ensures { payload.new ≡ encrypted_along S.meaning wides.now payload.old }
{
    'layers: for place in (0..wides.len()).rev() {
        S::W::encrypt(&wides[place], payload);
    }
}
