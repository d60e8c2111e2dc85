// The events of a script of `drive`: what each line behind the node line says. A line is read exactly where it is in
// the grammar.
ghost use Rattle.std.specs.Prelude.{◌≡◌, ℕ, ◌^◌, ◌<◌, IfOk, IfSome};
ghost use Rattle.lab_text.specs.Events.{IsEventInRange, arm_of, crash_of, event_of, only_moment};
ghost use Rattle.lab_text.specs.Events.{only_worker, recv_of, said_in, without_packet};
ghost use Rattle.lab_text.specs.Faults.{ReadsLine, ReadsWords};
ghost use Rattle.lab_text.specs.Words.{words_of};

use crate::word_forms::only_two;
use crate::words::read_below;
use crate::{LAST_MOMENT, LineFault, WordFault, one_word, read_bytes, read_number, said_line};
use mix_base::Bytes;
use std::alloc::Global;

/// The number of the last of four workers.
const LAST_WORKER: u64 = 3;

/// The greatest number of a call at which a disk can be told to fail: 2^32.
const LAST_CALL: u64 = 1 << 32;

/// What a line of a script says. Moments are in milliseconds and below 2^60, and workers 0 to 3.
#[derive(Drop)]
pub enum Event {
    /// A packet arrives at a moment.
    Recv { moment: u64, packet: Bytes },
    /// A worker unwraps the oldest arrival.
    Peel { worker: u8 },
    /// A worker claims the tag of its packet.
    Claim { worker: u8 },
    /// One packet that is due at a moment is handed on.
    Send { moment: u64 },
    /// Each shard, in order, retires the epochs below the least one that is live at a moment.
    Rotate { moment: u64 },
    /// The disk of a shard of the node fails at the call of this number, 1 to 2^32 and counted from now, and at all after
    /// it, until the next crash.
    Arm { shard: u8, calls: u64 },
    /// Every disk crashes, and what is left of it is picked by this number; then the node opens again.
    Crash { pick: u64 },
    /// Nothing.
    Skip,
}

/// What a line behind the node line says, in a node of so many shards; `number` is the line's. `BadLine` comes, for
/// this number, exactly where the line is outside the grammar, and `ReadFault` never.
pub fn read_event(alloc: Global, line: &[u8], number: u64, shards: u8) -> Result<Event, LineFault>
    ensures exact { ReadsLine (event_of shards line.now) number result }
    ensures in_range { IfOk result (IsEventInRange shards) }
{
    match said_event(alloc, line, shards) {
        Ok(event) => Ok(event),
        Err(WordFault::Outside) => Err(LineFault::BadLine { number }),
        Err(WordFault::Memory) => Err(LineFault::Memory),
    }
}

// What the words of a line say.
fn said_event(alloc: Global, line: &[u8], shards: u8) -> Result<Event, WordFault>
    ensures exact { ReadsWords (said_in shards (words_of line.now)) result }
    ensures in_range { IfOk result (IsEventInRange shards) }
{
    let Some((first, rest)) = said_line(line) else {
        return Ok(Event::Skip);
    };
    if first == b"recv".as_slice() {
        return recv(alloc, rest);
    }
    event_without_packet(first, rest, shards).ok_or(WordFault::Outside)
}

// What a line without a packet says by its first word.
fn event_without_packet(first: &[u8], rest: &[u8], shards: u8) -> Option<Event>
    ensures exact { result ≡ without_packet shards first.now (words_of rest.now) }
    ensures in_range { IfSome result (IsEventInRange shards) }
{
    if first == b"peel".as_slice() {
        let worker = worker(rest)?;
        Some(Event::Peel { worker })
    } else if first == b"claim".as_slice() {
        let worker = worker(rest)?;
        Some(Event::Claim { worker })
    } else if first == b"send".as_slice() {
        let moment = moment(rest)?;
        Some(Event::Send { moment })
    } else if first == b"rotate".as_slice() {
        let moment = moment(rest)?;
        Some(Event::Rotate { moment })
    } else if first == b"arm".as_slice() {
        arm(rest, shards)
    } else if first == b"crash".as_slice() {
        crash(rest)
    } else {
        None
    }
}

// A packet and the moment at which it arrives.
fn recv(alloc: Global, rest: &[u8]) -> Result<Event, WordFault>
    ensures exact { ReadsWords (recv_of (words_of rest.now)) result }
    ensures in_range { (shards : ℕ) → IfOk result (IsEventInRange shards) }
{
    let (moment, packet) = only_two(rest).ok_or(WordFault::Outside)?;
    let moment = read_number(moment, 0, LAST_MOMENT).ok_or(WordFault::Outside)?;
    let packet = read_bytes(alloc, packet)?;
    Ok(Event::Recv {
        moment,
        packet: Bytes::of(packet),
    })
}

// A shard, and the call at which its disk fails.
fn arm(rest: &[u8], shards: u8) -> Option<Event>
    ensures exact { result ≡ arm_of shards (words_of rest.now) }
    ensures in_range { IfSome result (IsEventInRange shards) }
{
    let (shard, calls) = only_two(rest)?;
    let shard = read_below(shard, u64::from(shards))?;
    let calls = read_number(calls, 1, LAST_CALL)?;
    Some(Event::Arm {
        shard: shard as u8,
        calls,
    })
}

// The pick of a crash as the only word.
fn crash(rest: &[u8]) -> Option<Event>
    ensures exact { result ≡ crash_of (words_of rest.now) }
    ensures in_range { (shards : ℕ) → IfSome result (IsEventInRange shards) }
{
    let pick = read_number(one_word(rest)?, 0, u64::MAX)?;
    Some(Event::Crash { pick })
}

// A worker as the only word.
fn worker(rest: &[u8]) -> Option<u8>
    ensures exact { result ≡ only_worker (words_of rest.now) }
    ensures in_range { IfSome result (λ worker. worker < 4) }
{
    let worker = read_number(one_word(rest)?, 0, LAST_WORKER)?;
    Some(worker as u8)
}

// A moment as the only word.
fn moment(rest: &[u8]) -> Option<u64>
    ensures exact { result ≡ only_moment (words_of rest.now) }
    ensures in_range { IfSome result (λ moment. moment < 2 ^ 60) }
{
    read_number(one_word(rest)?, 0, LAST_MOMENT)
}
