// Opening what comes back to a block: the hops' decryptions are undone, and then the answer's encryption.
ghost use Rattle.std.specs.Prelude.{◌≡◌, ◌<◌, ◌≤◌, ℕ, List, length, slice_range, Ok, Err, IfOk, IfSome, IfNone, MatchResult};
ghost use Rattle.mix_base.specs.ByteLists.{all_zero};
ghost use Rattle.mix_base.specs.Results.{GivesAs};
ghost use Rattle.packet_form.specs.Geometry as lengths;
ghost use Rattle.reply_blocks.specs.Blocks.{keys_seen};
ghost use Rattle.reply_blocks.specs.Faults.{opening_cause};
ghost use Rattle.reply_blocks.specs.Replies.{body_in, opened_reply, reply_payload, undone};

use crate::{BlockKeys, OpenFault};
use mix_base::{Suite, Wide, is_zero};
use packet_form::Geometry;
use sphinx_make::encrypt_along;
use std::alloc::{AllocError, Global};

/// The body of a reply, of the geometry's length, from the payload that the last hop gave and the keys that the block's
/// maker kept. Asks a payload of the geometry's length. Refuses with `Damaged` exactly where the first 32 bytes of what
/// is recovered aren't all zero.
pub fn open_reply<S: Suite>(
    alloc: Global,
    geo: &Geometry,
    keys: &BlockKeys,
    payload: &[u8],
) -> Result<Vec<u8>, OpenFault>
    requires { length payload.now ≡ lengths.payload geo.now }

    // The body of the definition, or its refusal.
    ensures exact { GivesAs opening_cause (λ body. body.items) result
        (opened_reply S.meaning geo.now (keys_seen keys.now) payload.now) }
    // What was answered under the own key, and decrypted by the hops on the way, is never Damaged, and is that body.
    ensures honest { (body : List ℕ) → length body ≡ geo.now.body →
        payload.now ≡ reply_payload S.meaning geo.now (keys_seen keys.now) body →
        MatchResult result (λ found. found.items ≡ body) (λ why. why ≡ OpenFault.Memory) }
    ensures length { IfOk result (λ body. length body.items ≡ geo.now.body) }
{
    let recovered = undo::<S>(alloc, keys, payload)?;
    let Some(body) = take_body(geo, recovered) else {
        return Err(OpenFault::Damaged);
    };
    Ok(body)
}

// The payload as it was spelled: what was done to it on its way is undone last step first, and then what was done in
// the answer.
#[tactic(auto, unfolding(crate::specs::Replies::undone))]
fn undo<S: Suite>(alloc: Global, keys: &BlockKeys, payload: &[u8]) -> Result<Vec<u8>, AllocError>
    requires { 32 < length payload.now }
    ensures value { IfOk result (λ recovered.
        recovered.items ≡ undone S.meaning (keys_seen keys.now) payload.now) }
    ensures length { IfOk result (λ recovered. length recovered.items ≡ length payload.now) }
{
    let mut recovered = Vec::from_slice(alloc, payload)?;
    encrypt_along::<S>(&keys.hops, &mut recovered);
    S::W::decrypt(&keys.own, &mut recovered);
    Ok(recovered)
}

// Whether a payload is as a maker spells it, by its first 32 bytes, which are all zero.
fn is_recovered(recovered: &[u8]) -> bool
    requires { 32 ≤ length recovered.now }
    ensures { result ≡ all_zero (slice_range recovered.now 0 32) }
{
    is_zero(&recovered[..32])
}

// The body of a payload as it was spelled, in the same buffer; `None` where its first 32 bytes aren't all zero.
#[tactic(auto, unfolding(crate::specs::Replies::body_in))]
fn take_body(geo: &Geometry, recovered: Vec<u8>) -> Option<Vec<u8>>
    requires { length recovered.items ≡ lengths.payload geo.now }
    ensures body { IfSome result (λ body. body_in geo.now recovered.items ≡ Ok body.items) }
    ensures damaged { IfNone result (body_in geo.now recovered.items ≡ Err OpenFault.Damaged) }
    ensures length { IfSome result (λ body. length body.items ≡ geo.now.body) }
{
    if !is_recovered(&recovered) {
        return None;
    }
    let mut body = recovered;
    body.rotate_left(34 + geo.block());
    body.truncate(geo.body());
    Some(body)
}
