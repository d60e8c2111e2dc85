// The messages of the first wave: what is drawn for each, its path and its block's, the block and the packet.
ghost use Rattle.std.specs.Prelude.{◌≡◌, ℕ, ◌*◌, ◌<◌, ◌≤◌, List, length, map, None, Some, Ok, IfOk, IfErr, IsSomeAnd, All};
ghost use Rattle.packet_form.specs.Commands.{longest_delay};
ghost use Rattle.packet_form.specs.Geometry as lengths;
ghost use Rattle.epoch_keys.specs.Faults.{IfNoKey};
ghost use Rattle.lab_text.specs.Settings.{IsConfigInRange};
ghost use Rattle.sphinx_make.specs.Making.{made_packet};
ghost use Rattle.reply_blocks.specs.Blocks.{keys_seen, made_block};
ghost use Rattle.sphinx_make.specs.Faults.{cause_of};
ghost use Rattle.mix_tools.specs.Suites.{meaning_for, scheme_for};
ghost use Rattle.mix_waves.specs.Network.{all_keys, sizes_of};
ghost use Rattle.mix_waves.specs.Drawing.{client_words, choices_from};
ghost use Rattle.mix_waves.specs.Choosing.{AreDelays, AreKeys, HasDraws, IsFineHop, IsPath, drawn_with};
ghost use Rattle.mix_waves.specs.Sending.{hop_at, made_of, message_body, message_seen, padded};
ghost use Rattle.mix_waves.specs.Sending.{path_by, recipient_id, reply_id, sent};

use crate::drawing::{Drawn, draw_message, words_of_client};
use crate::network::{node_id, node_keys, node_number};
use epoch_keys::KeyFault;
use lab_text::Config;
use mix_base::{Bytes, Memory, Suite, Words};
use packet_form::Geometry;
use prim_std::ChaWords;
use reply_blocks::{BlockKeys, MadeBlock, make_block};
use sphinx_make::{HopSpec, MakeFault, make_packet};
use std::alloc::{AllocError, Global};

/// The recipient of all messages.
const RECIPIENT: [u8; 32] = [0xff; 32];

/// A message that is sent, and what the client keeps of it.
#[derive(Drop)]
pub struct Message {
    pub number: u32,
    /// The id of the node that the packet goes to.
    pub first: [u8; 32],
    pub packet: Bytes,
    /// The reply block that the message carries, and the keys that open the reply to it.
    pub block: Bytes,
    pub keys: BlockKeys,
}

/// The messages of a run that starts at a moment, under the nodes' keys of an epoch. Their draws are of the client's words,
/// from the first on. `NoKey` comes only where a node has no key of that epoch.
pub fn first_wave<S: Suite>(
    alloc: Global,
    config: &Config,
    geo: &Geometry,
    start: u64,
    epoch: u64,
) -> Result<Vec<Message>, KeyFault>
    requires suite { S.meaning ≡ meaning_for config.now.ntru }
    requires in_range { IsConfigInRange config.now }
    requires geometry { geo.now ≡ sizes_of config.now }
    ensures sent { IfOk result (λ messages. IsSomeAnd (all_keys config.now epoch) (λ keys.
        sent config.now keys (client_words config.now start) config.now.messages
        ≡ Ok (map message_seen messages.items))) }
    ensures blocks { IfOk result (λ messages.
        All (λ message. length message.block ≡ lengths.block geo.now) messages.items) }
    ensures no_key { IfErr result (λ fault. IfNoKey fault (λ named.
        (named ≡ epoch) × (all_keys config.now epoch ≡ None))) }
{
    let keys = node_keys::<S>(alloc, config, epoch)?;
    let mut words = words_of_client(config, start);
    match send_all::<S, ChaWords>(alloc, config, geo, &keys, &mut words) {
        Ok(messages) => Ok(messages),
        Err(Memory) => Err(KeyFault::Memory),
    }
}

/// All messages of the run, under these keys.
fn send_all<S: Suite, W: Words>(
    alloc: Global,
    config: &Config,
    geo: &Geometry,
    keys: &[Bytes],
    words: &mut W,
) -> Result<Vec<Message>, Memory>
    requires suite { S.meaning ≡ meaning_for config.now.ntru }
    requires in_range { IsConfigInRange config.now }
    requires geometry { geo.now ≡ sizes_of config.now }
    requires keys { AreKeys config.now keys.now }
    ensures sent { IfOk result (λ messages.
        sent config.now keys.now (W.to_come words.old) config.now.messages
        ≡ Ok (map message_seen messages.items)) }
    ensures blocks { IfOk result (λ messages.
        All (λ message. length message.block ≡ lengths.block geo.now) messages.items) }
{
    let mut messages = Vec::new(alloc);
    'messages: for number in 0..config.messages {
        let drawn = draw_message(alloc, words, config)?;
        messages.push(make_message::<S>(alloc, config, geo, keys, number, &drawn)?)?;
    }
    Ok(messages)
}

/// The message of a number, with what was drawn for it.
fn make_message<S: Suite>(
    alloc: Global,
    config: &Config,
    geo: &Geometry,
    keys: &[Bytes],
    number: u32,
    drawn: &Drawn,
) -> Result<Message, Memory>
    requires suite { S.meaning ≡ meaning_for config.now.ntru }
    requires in_range { IsConfigInRange config.now }
    requires geometry { geo.now ≡ sizes_of config.now }
    requires keys { AreKeys config.now keys.now }
    requires drawn { HasDraws config.now drawn.now }
    ensures made { IfOk result (λ message. (behind : ℕ → ℕ) →
        made_of config.now keys.now number (drawn_with drawn.now behind)
        ≡ Ok (message_seen message)) }
    ensures block { IfOk result (λ message. length message.block ≡ lengths.block geo.now) }
{
    let back = path(alloc, config, keys, &drawn.back, &drawn.back_delays)?;
    let made = make_reply_block::<S>(alloc, config, geo, number, &back, drawn)?;
    let there = path(alloc, config, keys, &drawn.there, &drawn.there_delays)?;
    let packet = seal_message::<S>(
        alloc,
        config,
        geo,
        number,
        &there,
        &made.block,
        &drawn.coins,
    )?;
    let first = there[0].id;
    let MadeBlock { block, keys } = made;
    Ok(Message {
        number,
        first,
        packet: Bytes::of(packet),
        block,
        keys,
    })
}

/// The reply block of a message.
fn make_reply_block<S: Suite>(
    alloc: Global,
    config: &Config,
    geo: &Geometry,
    number: u32,
    back: &[HopSpec],
    drawn: &Drawn,
) -> Result<MadeBlock, Memory>
    requires suite { S.meaning ≡ meaning_for config.now.ntru }
    requires geometry { geo.now ≡ sizes_of config.now }
    requires path { IsPath config.now back.now }
    requires in_range { IsConfigInRange config.now }
    requires coins { length drawn.now.block_coins.items
        ≡ config.now.layers * (scheme_for config.now.ntru).coins }
    ensures block { IfOk result (λ made.
        made_block (meaning_for config.now.ntru) (sizes_of config.now) back.now recipient_id
        (reply_id number) drawn.now.own drawn.now.block_coins.items
        ≡ Ok (made.block, keys_seen made.keys)) }
    ensures length { IfOk result (λ made. length made.block ≡ lengths.block geo.now) }
{
    let surb = reply_id(number);
    match make_block::<S>(
        alloc,
        geo,
        back,
        &RECIPIENT,
        &surb,
        &drawn.own,
        &drawn.block_coins,
    ) {
        Ok(made) => Ok(made),
        Err(fault) => Err(only_memory(fault)),
    }
}

/// The packet of a message that carries a block.
fn seal_message<S: Suite>(
    alloc: Global,
    config: &Config,
    geo: &Geometry,
    number: u32,
    there: &[HopSpec],
    block: &Bytes,
    coins: &[u32],
) -> Result<Vec<u8>, Memory>
    requires suite { S.meaning ≡ meaning_for config.now.ntru }
    requires geometry { geo.now ≡ sizes_of config.now }
    requires path { IsPath config.now there.now }
    requires in_range { IsConfigInRange config.now }
    requires block { length block.now ≡ lengths.block geo.now }
    requires coins { length coins.now ≡ config.now.layers * (scheme_for config.now.ntru).coins }
    ensures { IfOk result (λ packet.
        made_packet (meaning_for config.now.ntru) (sizes_of config.now) there.now recipient_id
        (message_body config.now number) (Some block.now) coins.now ≡ Ok packet.items) }
{
    let body = message_body(alloc, config, number)?;
    match make_packet::<S>(
        alloc,
        geo,
        there,
        &RECIPIENT,
        &body,
        Some(block.as_slice()),
        coins,
    ) {
        Ok(packet) => Ok(packet),
        Err(fault) => Err(only_memory(fault)),
    }
}

/// Want of memory, which is all that stops a maker at a path of the network.
fn only_memory(fault: MakeFault) -> Memory
    requires { cause_of fault ≡ None }
{
    match fault {
        MakeFault::Memory => Memory,
        MakeFault::PathLength
        | MakeFault::BodyLength
        | MakeFault::BlockLength
        | MakeFault::Delay { hop: _ }
        | MakeFault::KeyForm { hop: _ } => unreachable!(),
    }
}

/// A hop in each layer, by the words and the delays that were drawn for a path.
fn path(
    alloc: Global,
    config: &Config,
    keys: &[Bytes],
    words: &[u32],
    delays: &[u32],
) -> Result<Vec<HopSpec>, AllocError>
    requires in_range { IsConfigInRange config.now }
    requires keys { AreKeys config.now keys.now }
    requires words { length words.now ≡ config.now.layers }
    requires delays { AreDelays config.now delays.now }
    ensures path { IfOk result (λ path.
        path.items ≡ path_by config.now keys.now words.now delays.now) }
    ensures fine { IfOk result (λ path. IsPath config.now path.items) }
{
    let mut path = Vec::new(alloc);
    'layers: for layer in 0..config.layers {
        let place = layer as usize;
        path.push(hop(alloc, config, keys, layer, words[place], delays[place])?)?;
    }
    Ok(path)
}

/// The hop in a layer.
fn hop(
    alloc: Global,
    config: &Config,
    keys: &[Bytes],
    layer: u8,
    word: u32,
    delay: u32,
) -> Result<HopSpec, AllocError>
    requires in_range { IsConfigInRange config.now }
    requires keys { AreKeys config.now keys.now }
    requires layer { layer < config.now.layers }
    requires delay { delay ≤ longest_delay }
    ensures hop { IfOk result (λ hop. hop ≡ hop_at config.now keys.now layer word delay) }
    ensures fine { IfOk result (IsFineHop config.now) }
{
    let place = (word % config.width as u32) as u8;
    let number = node_number(config, layer, place) as usize;
    let key = Bytes::of(keys[number].as_slice().to_vec(alloc)?);
    Ok(HopSpec {
        id: node_id(layer, place),
        key,
        delay: Some(delay),
    })
}

/// The id of the reply to a message.
pub fn reply_id(number: u32) -> [u8; 16]
    ensures { result ≡ reply_id number }
{
    let mut id = [0; 16];
    id[..8].copy_from_slice(&(number as u64).to_be_bytes());
    id
}

/// The body of a message.
pub fn message_body(alloc: Global, config: &Config, number: u32) -> Result<Vec<u8>, AllocError>
    ensures value { IfOk result (λ body. body.items ≡ message_body config.now number) }
    ensures length { IfOk result (λ body. length body.items ≡ config.now.body) }
{
    let text = format!(in alloc; "message {number}")?;
    padded(alloc, config, &text)
}

/// A text with zeros behind it, up to a body's length.
pub fn padded(alloc: Global, config: &Config, text: &str) -> Result<Vec<u8>, AllocError>
    ensures value { IfOk result (λ body. body.items ≡ padded config.now.body text.now) }
    ensures length { IfOk result (λ body. length body.items ≡ config.now.body) }
{
    let mut body = text.as_bytes().to_vec(alloc)?;
    body.resize(config.body, 0)?;
    Ok(body)
}
