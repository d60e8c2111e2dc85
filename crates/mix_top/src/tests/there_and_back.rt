// A message over three nodes with a reply block, its answer over the same nodes, and the reply opened, all by the
// program's commands; and the same with a byte changed on the way.
use crate::{Bench, mix_command};
use lab_text::{LineReader, Status, next_word};
use mix_base::{MemSink, MemSource};
use std::alloc::{AllocError, Global};
use std::process::Abort;
use std::test::Fail;

/// What a capital letter of a request stands for: A, B and C the seeds of the nodes, X, Y and Z their ids, S and T seeds
/// of requests, R and Q recipients, M and N bodies, U the id of the reply.
fn meant(letter: u8) -> (&'static str, u64) {
    match letter {
        b'A' => ("01", 32),
        b'B' => ("02", 32),
        b'C' => ("03", 32),
        b'X' => ("a1", 32),
        b'Y' => ("a2", 32),
        b'Z' => ("a3", 32),
        b'S' => ("04", 32),
        b'T' => ("05", 32),
        b'R' => ("33", 32),
        b'Q' => ("22", 32),
        b'M' => ("41", 64),
        b'N' => ("42", 64),
        _ => ("44", 16),
    }
}

/// The text, with what is meant in place of each capital letter.
fn filled(alloc: Global, text: &str) -> Result<String, Fail> {
    let mut bytes = Vec::new(alloc);
    for byte in text.as_bytes() {
        if byte.is_ascii_uppercase() {
            let (digits, count) = meant(*byte);
            for _ in 0..count {
                bytes.extend_from_slice(digits.as_bytes())?;
            }
        } else {
            bytes.push(*byte)?;
        }
    }
    Ok(String::from_utf8(bytes)?)
}

/// What a command writes for an input; the words of the command are joined by spaces.
pub fn written(rt: &impl Abort, alloc: Global, command: &str, input: &str) -> Result<String, Fail> {
    let mut words = Vec::new(alloc);
    for word in command.split(' ') {
        words.push(String::from_str(alloc, word)?)?;
    }
    let mut source = MemSource::new(input.as_bytes().to_vec(alloc)?, Vec::new(alloc));
    let mut sink = MemSink::new(alloc, Vec::new(alloc));
    let mut bench = Bench::in_memory(alloc)?;
    let status = mix_command(alloc, &words, &mut source, &mut sink, &mut bench);
    assert!(rt; status == Status::Done, "{command}");
    Ok(String::from_utf8(sink.bytes().to_vec(alloc)?)?)
}

/// A word of a line, both counted from 0.
pub fn word_at(alloc: Global, text: &str, line: u64, place: u64) -> Result<String, Fail> {
    let source = MemSource::new(text.as_bytes().to_vec(alloc)?, Vec::new(alloc));
    let mut reader = LineReader::new(alloc, source);
    for _ in 0..line {
        let _ = reader.next_line(alloc)?;
    }
    let line = reader.next_line(alloc)?.ok_or("a line is missing")?;
    let mut rest = line.as_slice();
    for _ in 0..place {
        let (_, others) = next_word(rest).ok_or("a word is missing")?;
        rest = others;
    }
    let (word, _) = next_word(rest).ok_or("a word is missing")?;
    Ok(String::from_utf8(word.to_vec(alloc)?)?)
}

/// The lines of the three hops, with the keys of epoch 0.
fn hops(rt: &impl Abort, alloc: Global) -> Result<String, Fail> {
    let mut lines = String::new(alloc);
    for (seed, id) in [("A", "X"), ("B", "Y"), ("C", "Z")] {
        let seed = filled(alloc, seed)?;
        let command = format!(in alloc; "keys lab {seed} 0")?;
        let key = word_at(alloc, written(rt, alloc, &command, "")?.as_str(), 0, 2)?;
        let id = filled(alloc, id)?;
        lines.push_str(format!(in alloc; "hop {id} {key} -\n")?.as_str())?;
    }
    Ok(lines)
}

/// What `make` writes for the three hops, with the first line and the last.
fn made(rt: &impl Abort, alloc: Global, first: &str, last: &str) -> Result<String, Fail> {
    let first = filled(alloc, first)?;
    let hops = hops(rt, alloc)?;
    let last = filled(alloc, last)?;
    written(
        rt,
        alloc,
        "make",
        format!(in alloc; "{first}{hops}{last}\n")?.as_str(),
    )
}

/// What a node with this seed reports of a packet that it hands on.
fn reported(rt: &impl Abort, alloc: Global, seed: &str, packet: &str) -> Result<String, Fail> {
    let node = filled(alloc, "node lab 5 64 1 1200000 120000 ")?;
    let seed = filled(alloc, seed)?;
    written(
        rt,
        alloc,
        "drive",
        format!(in alloc;
            "{node}{seed}\nrecv 1000 {packet}\npeel 0\nclaim 0\nsend 1000\n"
        )?.as_str(),
    )
}

/// What the third node reports of a packet that the first two forward, each to the next.
fn carried(rt: &impl Abort, alloc: Global, packet: &str) -> Result<String, Fail> {
    let mut packet = String::from_str(alloc, packet)?;
    for (seed, next) in [("A", "Y"), ("B", "Z")] {
        let report = reported(rt, alloc, seed, packet.as_str())?;
        assert!(rt; word_at(alloc, report.as_str(), 0, 0)?.as_str() == "forward");
        assert!(rt; word_at(alloc, report.as_str(), 0, 4)? == filled(alloc, next)?);
        packet = word_at(alloc, report.as_str(), 0, 5)?;
    }
    reported(rt, alloc, "C", packet.as_str())
}

/// The packet with its last digit changed, which is one of the payload.
fn changed(alloc: Global, packet: &str) -> Result<String, AllocError> {
    let mut packet = String::from_str(alloc, packet)?;
    let last = packet.pop();
    packet.push(if last == Some('0') { '1' } else { '0' })?;
    Ok(packet)
}

/// Whether a report's line names these two behind the tag.
fn names(alloc: Global, report: &str, first: &str, second: &str) -> Result<bool, Fail> {
    Ok(
        word_at(alloc, report, 0, 4)? == filled(alloc, first)?
            && word_at(alloc, report, 0, 5)? == filled(alloc, second)?,
    )
}

/// What `open` writes for the keys and what the third node reports.
fn opened(rt: &impl Abort, alloc: Global, keys: &str, report: &str) -> Result<String, Fail> {
    assert!(rt; word_at(alloc, report, 0, 0)?.as_str() == "reply");
    assert!(rt; names(alloc, report, "R", "U")?);
    let payload = word_at(alloc, report, 0, 6)?;
    written(
        rt,
        alloc,
        "open",
        format!(in alloc; "open lab 5 64\nkeys {keys}\npayload {payload}\n")?.as_str(),
    )
}

#[test]
fn a_reply_comes_back_and_opens(rt: HostRuntime) -> Result<(), Fail> {
    let alloc = rt.alloc();
    let made_block = made(&rt, alloc, "block lab 5 64 S\n", "to R U")?;
    let block = word_at(alloc, made_block.as_str(), 0, 1)?;
    let keys = word_at(alloc, made_block.as_str(), 1, 1)?;

    let last = format!(in alloc; "to Q M {block}")?;
    let message = made(&rt, alloc, "packet lab 5 64 T\n", last.as_str())?;
    assert!(rt; word_at(alloc, message.as_str(), 0, 1)? == filled(alloc, "X")?);
    let packet = word_at(alloc, message.as_str(), 1, 1)?;
    let report = carried(&rt, alloc, packet.as_str())?;
    assert!(rt; word_at(alloc, report.as_str(), 0, 0)?.as_str() == "deliver");
    assert!(rt; names(alloc, report.as_str(), "Q", "M")?);
    assert!(rt; word_at(alloc, report.as_str(), 0, 6)? == block);
    let report = carried(&rt, alloc, changed(alloc, packet.as_str())?.as_str())?;
    assert!(rt; word_at(alloc, report.as_str(), 0, 0)?.as_str() == "damaged");

    let body = filled(alloc, "N")?;
    let request = format!(in alloc; "answer lab 5 64\nblock {block}\nbody {body}\n")?;
    let answer = written(&rt, alloc, "answer", request.as_str())?;
    let packet = word_at(alloc, answer.as_str(), 1, 1)?;
    let report = carried(&rt, alloc, packet.as_str())?;
    let text = opened(&rt, alloc, keys.as_str(), report.as_str())?;
    assert!(rt; text == format!(in alloc; "body {body}\n")?);
    let report = carried(&rt, alloc, changed(alloc, packet.as_str())?.as_str())?;
    let text = opened(&rt, alloc, keys.as_str(), report.as_str())?;
    assert!(rt; text.as_str() == "damaged\n");
    Ok(())
}
