// Blocks answered and replies opened, and the keys of a block as bytes.
ghost use Rattle.std.specs.Prelude.{◌≡◌, ◌+◌, ◌-◌, ◌*◌, ◌/◌, ◌<◌, ◌≤◌, length};
ghost use Rattle.std.specs.Prelude.{Ok, IfOk, IsTrue, option_map, Some, None};
ghost use Rattle.packet_form.specs.Geometry as lengths;
ghost use Rattle.reply_blocks.specs.Blocks.{keys_seen};
ghost use Rattle.mix_base.specs.Results.{GivesAs};
ghost use Rattle.reply_blocks.specs.Faults.{answer_cause, opening_cause};
ghost use Rattle.mix_tools.specs.Drafts.{IsRequestInRange};
ghost use Rattle.mix_tools.specs.ReplyLines.{are_keys};
ghost use Rattle.mix_tools.specs.Replies.{block_answered, reply_opened};
ghost use Rattle.mix_tools.specs.Replies.{hop_keys, key_at, key_bytes, keys_of};
ghost use Rattle.mix_tools.specs.Suites.{meaning_for};
ghost use Rattle.mix_tools.specs.declared.requests.Request.TheVariants.{Answer, Open};

use crate::requests::{AnswerRequest, KEY, OpenRequest};
use mix_base::{Memory, Suite};
use ntru_prime::NtruSuite;
use prim_std::LabSuite;
use reply_blocks::{AnswerFault, Answered, BlockKeys, OpenFault, answer, open_reply};
use std::alloc::{AllocError, Global};

/// The packet that answers a block, and the hop that it goes to first.
pub fn answer_for(alloc: Global, request: &AnswerRequest) -> Result<Answered, Memory>
    requires { IsRequestInRange (Answer request.now) }
    ensures { IfOk result (λ made. block_answered request.now ≡ Ok made) }
{
    if request.layout.ntru {
        answer_with::<NtruSuite>(alloc, request)
    } else {
        answer_with::<LabSuite>(alloc, request)
    }
}

// The answer to a request for this suite.
fn answer_with<S: Suite>(alloc: Global, request: &AnswerRequest) -> Result<Answered, Memory>
    requires suite { S.meaning ≡ meaning_for request.now.layout.ntru }
    requires in_range { IsRequestInRange (Answer request.now) }
    ensures { IfOk result (λ made. block_answered request.now ≡ Ok made) }
{
    match answer::<S>(
        alloc,
        &request.layout.geometry,
        request.block.as_slice(),
        request.body.as_slice(),
    ) {
        Ok(made) => Ok(made),
        Err(fault) => Err(only_memory(fault)),
    }
}

// Want of memory, which is all that stops an answer to a request in the grammar.
fn only_memory(fault: AnswerFault) -> Memory
    requires { answer_cause fault ≡ None }
{
    match fault {
        AnswerFault::Memory => Memory,
        AnswerFault::BlockLength | AnswerFault::BodyLength => unreachable!(),
    }
}

/// The body of a reply, or `Damaged`.
pub fn body_for(alloc: Global, request: &OpenRequest) -> Result<Vec<u8>, OpenFault>
    requires { IsRequestInRange (Open request.now) }
    ensures { GivesAs opening_cause (λ body. body.items) result (reply_opened request.now) }
{
    if request.layout.ntru {
        body_with::<NtruSuite>(alloc, request)
    } else {
        body_with::<LabSuite>(alloc, request)
    }
}

// The body of a reply of this suite, or `Damaged`.
#[tactic(auto, using(crate::proofs::BlockKeyBytes::keys_fit))]
fn body_with<S: Suite>(alloc: Global, request: &OpenRequest) -> Result<Vec<u8>, OpenFault>
    requires suite { S.meaning ≡ meaning_for request.now.layout.ntru }
    requires in_range { IsRequestInRange (Open request.now) }
    ensures { GivesAs opening_cause (λ body. body.items) result (reply_opened request.now) }
{
    let keys = split_keys(alloc, request.keys.as_slice())?;
    open_reply::<S>(
        alloc,
        &request.layout.geometry,
        &keys,
        request.payload.as_slice(),
    )
}

/// The bytes of a block's keys: those of its hops in path order, and its own.
pub fn join_keys(alloc: Global, keys: &BlockKeys) -> Result<Vec<u8>, AllocError>
    ensures { IfOk result (λ bytes. bytes.items ≡ key_bytes (keys_seen keys.now)) }
{
    let mut bytes = Vec::new(alloc);
    'hops: for key in &keys.hops {
        bytes.extend_from_slice(key)?;
    }
    bytes.extend_from_slice(&keys.own)?;
    Ok(bytes)
}

// The keys that bytes spell.
#[tactic(auto, using(crate::proofs::BlockKeyBytes::hop_keys_more))]
fn split_keys(alloc: Global, bytes: &[u8]) -> Result<BlockKeys, AllocError>
    requires { 128 * (length bytes.now / 128 - 1) + 128 ≤ length bytes.now }
    ensures { IfOk result (λ keys. keys_seen keys ≡ keys_of bytes.now) }
{
    let count = bytes.len() / KEY - 1;
    let mut hops = Vec::new(alloc);
    'hops: for place in 0..count {
        hops.push(key_in(bytes, place))?;
    }
    let own = key_in(bytes, count);
    Ok(BlockKeys { hops, own })
}

// The key at a place.
fn key_in(bytes: &[u8], place: usize) -> [u8; 128]
    requires { 128 * place + 128 ≤ length bytes.now }
    ensures { result ≡ key_at bytes.now place }
{
    let mut key = [0; 128];
    key.copy_from_slice(&bytes[KEY * place..KEY * place + KEY]);
    key
}
