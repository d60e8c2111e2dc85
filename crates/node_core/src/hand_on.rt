// The line of the report for a packet that is handed on.
ghost use Rattle.std.specs.Prelude.{◌≡◌, ◌≤◌, [], ◌∷◌, ◌++◌, Some, IfSome, IsSomeAnd, IfOk, OnOk, OnErr, IsErrOf, string_bytes};
ghost use Rattle.mix_base.specs.Faults.{Rose};
ghost use Rattle.mix_base.specs.Writing.{GivesFront};
ghost use Rattle.hex.specs.Hex.{encode_lower};
ghost use Rattle.lab_text.specs.WordForms.{line_of};
ghost use Rattle.node_core.specs.HandOn.{block_word, hand_on_line, hand_on_words};
ghost use Rattle.node_core.specs.HandOn.{kind_of, words_behind_tag};

use mix_base::{Bytes, PutFault, Sink, Suite};
use mix_shard::Held;
use sphinx_unwrap::Out;
use std::alloc::{AllocError, Global};

/// Gives the hand-on line of a packet to the sink, all at once: its kind, the number of its arrival, the epoch of the key that
/// opened it, its tag, and what goes out, bytes in hexadecimal digits. After an `Err` a front of the line was given.
pub fn write_held<O: Sink, S: Suite>(
    alloc: Global,
    sink: &mut O,
    held: &Held<S>,
) -> Result<(), PutFault>
    ensures whole { OnOk result (IfSome (O.given sink.old) (λ before.
        O.given sink.new ≡ Some (before ++ hand_on_line held.now))) }
    ensures front { OnErr result (IfSome (O.given sink.old) (λ before.
        IsSomeAnd (O.given sink.new) (λ after. GivesFront before after (hand_on_line held.now)))) }
    ensures fault { IsErrOf result PutFault.WriteFault →
        Rose (O.faults sink.old) (O.faults sink.new) }
    ensures count { O.faults sink.old ≤ O.faults sink.new }
{
    write_hand_on(
        alloc,
        sink,
        held.number(),
        held.epoch(),
        held.tag(),
        held.out(),
    )
}

/// Gives the line of a packet of which this is known, in the same way: the number of its arrival, the epoch, the tag, and
/// what goes out.
pub fn write_hand_on<O: Sink>(
    alloc: Global,
    sink: &mut O,
    number: u64,
    epoch: u64,
    tag: &[u8; 32],
    out: &Out,
) -> Result<(), PutFault>
    ensures whole { OnOk result (IfSome (O.given sink.old) (λ before. O.given sink.new ≡
        Some (before ++ line_of (hand_on_words number epoch tag.now out.now)))) }
    ensures front { OnErr result (IfSome (O.given sink.old) (λ before.
        IsSomeAnd (O.given sink.new) (λ after.
        GivesFront before after (line_of (hand_on_words number epoch tag.now out.now))))) }
    ensures fault { IsErrOf result PutFault.WriteFault →
        Rose (O.faults sink.old) (O.faults sink.new) }
    ensures count { O.faults sink.old ≤ O.faults sink.new }
{
    match hand_on_text(alloc, number, epoch, tag, out) {
        Ok(text) => sink.put(alloc, text.as_bytes()),
        Err(_) => Err(PutFault::Memory),
    }
}

/// The text of the line.
#[tactic(auto, using(crate::proofs::HandOnLines::line_of_held))]
fn hand_on_text(
    alloc: Global,
    number: u64,
    epoch: u64,
    tag: &[u8; 32],
    out: &Out,
) -> Result<String, AllocError>
    ensures { IfOk result (λ text.
        string_bytes text ≡ line_of (hand_on_words number epoch tag.now out.now)) }
{
    let kind = kind_word(out);
    let tag = hex::encode(alloc, tag.as_slice())?;
    let tail = tail_text(alloc, out)?;
    format!(in alloc; "{kind} {number} {epoch} {tag} {tail}")
}

/// The first word of such a line.
fn kind_word(out: &Out) -> &'static str
    ensures { result.now ≡ kind_of out.now }
{
    match out {
        Out::Forward { .. } => "forward",
        Out::Deliver { .. } => "deliver",
        Out::Reply { .. } => "reply",
        Out::Damaged { .. } => "damaged",
    }
}

/// What stands behind the tag in such a line.
fn tail_text(alloc: Global, out: &Out) -> Result<String, AllocError>
    ensures { IfOk result (λ text. string_bytes text ≡ line_of (words_behind_tag out.now)) }
{
    match out {
        Out::Forward { next, packet } => pair_text(alloc, next.as_slice(), packet.as_slice()),
        Out::Deliver {
            recipient,
            body,
            block,
        } => {
            let block = block_text(alloc, block)?;
            let recipient = hex::encode(alloc, recipient.as_slice())?;
            let body = hex::encode(alloc, body.as_slice())?;
            format!(in alloc; "{recipient} {body} {block}\n")
        }
        Out::Reply {
            recipient,
            surb,
            payload,
        } => {
            let recipient = hex::encode(alloc, recipient.as_slice())?;
            let rest = pair_text(alloc, surb.as_slice(), payload.as_slice())?;
            format!(in alloc; "{recipient} {rest}")
        }
        Out::Damaged { recipient } => {
            let recipient = hex::encode(alloc, recipient.as_slice())?;
            format!(in alloc; "{recipient}\n")
        }
    }
}

/// Two byte lists as the last words of a line.
fn pair_text(alloc: Global, first: &[u8], second: &[u8]) -> Result<String, AllocError>
    ensures { IfOk result (λ text.
        string_bytes text ≡ line_of (encode_lower first.now ∷ encode_lower second.now ∷ [])) }
{
    let first = hex::encode(alloc, first)?;
    let second = hex::encode(alloc, second)?;
    format!(in alloc; "{first} {second}\n")
}

/// The word of a reply block: a dash where there is none.
fn block_text(alloc: Global, block: &Option<Bytes>) -> Result<String, AllocError>
    ensures { IfOk result (λ text. string_bytes text ≡ block_word block.now) }
{
    match block {
        Some(block) => hex::encode(alloc, block.as_slice()),
        None => String::from_str(alloc, "-"),
    }
}
