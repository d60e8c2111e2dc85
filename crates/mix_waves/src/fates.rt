// What became of messages and of replies, by what the last layer's nodes have for recipients of their own, and the replies to
// the messages that were delivered.
ghost use Rattle.std.specs.Prelude.{◌≡◌, [], ◌∷◌, length, map, IfOk, All};
ghost use Rattle.std.specs.List.{list_any};
ghost use Rattle.packet_form.specs.Geometry.{block};
ghost use Rattle.lab_text.specs.Settings.{IsConfigInRange};
ghost use Rattle.mix_tools.specs.Suites.{meaning_for};
ghost use Rattle.mix_waves.specs.Network.{sizes_of};
ghost use Rattle.mix_waves.specs.Sending.{message_seen};
ghost use Rattle.reply_blocks.specs.Replies.{answer_to};
ghost use Rattle.mix_waves.specs.Fates as fates;

use crate::sending::{Message, message_body, padded, reply_id};
use lab_text::Config;
use mix_base::{Memory, Suite};
use packet_form::Geometry;
use reply_blocks::{AnswerFault, Answered, OpenFault, answer, open_reply};
use sphinx_unwrap::Out;
use std::alloc::{AllocError, Global};

/// What became of a reply.
#[derive(Clone, Copy, Debug, PartialEq, Eq)]
pub enum ReplyFate {
    /// It came back and opened to the body that was sent.
    Opened,
    /// It came back changed.
    Damaged,
    /// It didn't come back.
    Lost,
}

/// What became of a message.
#[derive(Clone, Copy, Debug, PartialEq, Eq)]
pub struct MessageFate {
    pub number: u32,
    /// What became of the reply to it; `None` where the message itself was lost.
    pub reply: Option<ReplyFate>,
}

/// Of each message, whether it was delivered, by what the last layer's nodes have for recipients of their own.
pub fn deliveries(alloc: Global, config: &Config, local: &[&Out]) -> Result<Vec<bool>, AllocError>
    ensures { IfOk result (λ delivered.
        delivered.items ≡ fates.deliveries config.now (map (λ out. out.now) local.now)) }
{
    let mut delivered = Vec::new(alloc);
    'messages: for number in 0..config.messages {
        let body = message_body(alloc, config, number)?;
        delivered.push(any_delivery(&body, local))?;
    }
    Ok(delivered)
}

/// Whether a body was delivered.
fn any_delivery(body: &[u8], local: &[&Out]) -> bool
    ensures { result ≡ list_any (fates.is_delivery body.now) (map (λ out. out.now) local.now) }
{
    'packets: for out in local {
        if is_delivery(body, out) {
            return true;
        }
    }
    false
}

/// Whether a packet delivers a body.
fn is_delivery(body: &[u8], out: &Out) -> bool
    ensures { result ≡ fates.is_delivery body.now out.now }
{
    match out {
        Out::Deliver {
            recipient: _,
            body: found,
            block: _,
        } => found.as_slice() == body,
        Out::Forward { .. } | Out::Reply { .. } | Out::Damaged { .. } => false,
    }
}

/// The reply to each message that was delivered.
pub fn replies<S: Suite>(
    alloc: Global,
    config: &Config,
    geo: &Geometry,
    delivered: &[bool],
    messages: &[Message],
) -> Result<Vec<Answered>, Memory>
    requires suite { S.meaning ≡ meaning_for config.now.ntru }
    requires geometry { geo.now ≡ sizes_of config.now }
    requires blocks { All (λ message. length message.block ≡ block geo.now) messages.now }
    ensures { IfOk result (λ replies. replies.items
        ≡ fates.replies_to config.now delivered.now (map message_seen messages.now)) }
{
    let mut replies = Vec::new(alloc);
    'messages: for message in messages {
        if was_delivered(delivered, message.number) {
            replies.push(reply::<S>(alloc, config, geo, message)?)?;
        }
    }
    Ok(replies)
}

/// Whether the message of a number was delivered.
fn was_delivered(delivered: &[bool], number: u32) -> bool
    ensures { result ≡ fates.was_delivered delivered.now number }
{
    match delivered.get(number as usize) {
        Some(delivered) => *delivered,
        None => false,
    }
}

/// The reply to a message.
fn reply<S: Suite>(
    alloc: Global,
    config: &Config,
    geo: &Geometry,
    message: &Message,
) -> Result<Answered, Memory>
    requires suite { S.meaning ≡ meaning_for config.now.ntru }
    requires geometry { geo.now ≡ sizes_of config.now }
    requires block { length message.now.block ≡ block geo.now }
    ensures { IfOk result (λ reply. reply ≡ answer_to (meaning_for config.now.ntru)
        (sizes_of config.now) message.now.block
        (fates.reply_body config.now message.now.number)) }
{
    let body = reply_body(alloc, config, message.number)?;
    match answer::<S>(alloc, geo, message.block.as_slice(), &body) {
        Ok(reply) => Ok(reply),
        Err(AnswerFault::Memory) => Err(Memory),
        Err(AnswerFault::BlockLength | AnswerFault::BodyLength) => unreachable!(),
    }
}

/// The body of the reply to a message.
fn reply_body(alloc: Global, config: &Config, number: u32) -> Result<Vec<u8>, AllocError>
    ensures value { IfOk result (λ body. body.items ≡ fates.reply_body config.now number) }
    ensures length { IfOk result (λ body. length body.items ≡ config.now.body) }
{
    let text = format!(in alloc; "reply {number}")?;
    padded(alloc, config, &text)
}

/// What became of each message, and where it was delivered, of the reply to it, by what the last layer's nodes have for
/// recipients of their own after the second wave.
pub fn message_fates<S: Suite>(
    alloc: Global,
    config: &Config,
    geo: &Geometry,
    delivered: &[bool],
    local: &[&Out],
    messages: &[Message],
) -> Result<Vec<MessageFate>, Memory>
    requires suite { S.meaning ≡ meaning_for config.now.ntru }
    requires geometry { geo.now ≡ sizes_of config.now }
    ensures { IfOk result (λ told. told.items ≡ fates.message_fates config.now delivered.now
        (map (λ out. out.now) local.now) (map message_seen messages.now)) }
{
    let mut told = Vec::new(alloc);
    'messages: for message in messages {
        told.push(message_fate::<S>(alloc, config, geo, delivered, local, message)?)?;
    }
    Ok(told)
}

/// What became of a message.
fn message_fate<S: Suite>(
    alloc: Global,
    config: &Config,
    geo: &Geometry,
    delivered: &[bool],
    local: &[&Out],
    message: &Message,
) -> Result<MessageFate, Memory>
    requires suite { S.meaning ≡ meaning_for config.now.ntru }
    requires geometry { geo.now ≡ sizes_of config.now }
    ensures { IfOk result (λ fate. fate ≡ fates.message_fate config.now delivered.now
        (map (λ out. out.now) local.now) (message_seen message.now)) }
{
    let number = message.number;
    if !was_delivered(delivered, number) {
        return Ok(MessageFate {
            number,
            reply: None,
        });
    }
    let fate = reply_fate::<S>(alloc, config, geo, local, message)?;
    Ok(MessageFate {
        number,
        reply: Some(fate),
    })
}

/// What became of the reply to a message.
fn reply_fate<S: Suite>(
    alloc: Global,
    config: &Config,
    geo: &Geometry,
    local: &[&Out],
    message: &Message,
) -> Result<ReplyFate, Memory>
    requires suite { S.meaning ≡ meaning_for config.now.ntru }
    requires geometry { geo.now ≡ sizes_of config.now }
    ensures { IfOk result (λ fate. fate ≡ fates.reply_fate config.now
        (map (λ out. out.now) local.now) (message_seen message.now)) }
{
    let body = reply_body(alloc, config, message.number)?;
    let mut fate = ReplyFate::Lost;
    'packets: for out in local {
        fate = joined(fate, fate_by::<S>(alloc, config, geo, &body, out, message)?);
    }
    Ok(fate)
}

/// What two packets say together.
fn joined(first: ReplyFate, second: ReplyFate) -> ReplyFate
    ensures { result ≡ fates.fate_among (first ∷ second ∷ []) }
{
    match (first, second) {
        (ReplyFate::Opened, _) | (_, ReplyFate::Opened) => ReplyFate::Opened,
        (ReplyFate::Damaged, _) | (_, ReplyFate::Damaged) => ReplyFate::Damaged,
        (ReplyFate::Lost, ReplyFate::Lost) => ReplyFate::Lost,
    }
}

/// What one packet says of the reply to a message with this body.
fn fate_by<S: Suite>(
    alloc: Global,
    config: &Config,
    geo: &Geometry,
    body: &[u8],
    out: &Out,
    message: &Message,
) -> Result<ReplyFate, Memory>
    requires suite { S.meaning ≡ meaning_for config.now.ntru }
    requires geometry { geo.now ≡ sizes_of config.now }
    requires body { body.now ≡ fates.reply_body config.now message.now.number }
    ensures { IfOk result (λ fate.
        fate ≡ fates.fate_by config.now (message_seen message.now) out.now) }
{
    let Out::Reply {
        recipient: _,
        surb,
        payload,
    } = out
    else {
        return Ok(ReplyFate::Lost);
    };
    if *surb != reply_id(message.number) || payload.as_slice().len() != geo.payload() {
        return Ok(ReplyFate::Lost);
    }
    match open_reply::<S>(alloc, geo, &message.keys, payload.as_slice()) {
        Ok(found) if found.as_slice() == body => Ok(ReplyFate::Opened),
        Ok(_) => Ok(ReplyFate::Lost),
        Err(OpenFault::Damaged) => Ok(ReplyFate::Damaged),
        Err(OpenFault::Memory) => Err(Memory),
    }
}
