// Whole scripts, and the reports and statuses that they are owed.
use super::packets::{
    forwarded, packet, packet_in, payload, tag, to_maker, to_next_hop, to_recipient,
    to_recipient_after, to_recipient_and_more,
};
use crate::{Bench, mix_command};
use lab_text::Status;
use mix_base::{MemSink, MemSource};
use std::alloc::{AllocError, Global};
use std::process::Abort;
use std::test::Fail;

/// The line of the node that all packets here are for.
const NODE: &str =
    "node lab 5 64 1 1200000 120000 0000000000000000000000000000000000000000000000000000000000000000";

/// How the report hands on the packet for the recipient, behind the number of its arrival.
const DELIVERED: &str =
    "0 62349cb971c7eee7872af55d5e01de21a5e0f58a933f2db96d90428fc0dfe6d6 2222222222222222222222222222222222222222222222222222222222222222 41414141414141414141414141414141414141414141414141414141414141414141414141414141414141414141414141414141414141414141414141414141 -";

/// The script of one packet that arrives and is handed on.
const ONE_PACKET: &str = "N\nrecv 1000 P\npeel 0\nclaim 0\nsend 1000\n";

/// The packet for the recipient.
fn to_deliver(alloc: Global) -> Result<Vec<u8>, AllocError> {
    packet(alloc, &[1; 32], &to_recipient())
}

/// That packet with one bit changed, in the byte of this place.
fn changed(alloc: Global, place: usize) -> Result<Vec<u8>, AllocError> {
    let mut packet = to_deliver(alloc)?;
    if let Some(byte) = packet.get_mut(place) {
        *byte ^= 1;
    }
    Ok(packet)
}

/// That packet without its last byte.
fn shorter(alloc: Global) -> Result<Vec<u8>, AllocError> {
    let mut packet = to_deliver(alloc)?;
    packet.pop();
    Ok(packet)
}

/// The packet with these commands.
fn commanded(alloc: Global, commands: &[u8; 72]) -> Result<String, AllocError> {
    let packet = packet(alloc, &[1; 32], commands)?;
    hex::encode(alloc, &packet)
}

/// Epoch, tag and recipient or next hop of the packets with this seed, as the report hands them on.
fn head(alloc: Global, seed: u8) -> Result<String, AllocError> {
    let tag = hex::encode(alloc, &tag(alloc, &[seed; 32], 0))?;
    let id = hex::encode(alloc, &[0x22; 32])?;
    format!(in alloc; "0 {tag} {id}")
}

/// How the report hands on the packet to the next hop.
fn at_next_hop(alloc: Global) -> Result<String, AllocError> {
    let head = head(alloc, 1)?;
    let packet = hex::encode(alloc, &forwarded(alloc, &[1; 32])?)?;
    format!(in alloc; "{head} {packet}")
}

/// How the report hands on the reply.
fn at_maker(alloc: Global) -> Result<String, AllocError> {
    let head = head(alloc, 1)?;
    let id = hex::encode(alloc, &[0x44; 16])?;
    let payload = hex::encode(alloc, &payload())?;
    format!(in alloc; "{head} {id} {payload}")
}

/// How the report hands on the packet with the other seed.
fn other_delivered(alloc: Global) -> Result<String, AllocError> {
    let head = head(alloc, 2)?;
    let body = hex::encode(alloc, &[0x41; 64])?;
    format!(in alloc; "{head} {body} -")
}

/// The packet for the recipient in an epoch.
fn to_deliver_in(alloc: Global, epoch: u64) -> Result<String, AllocError> {
    let packet = packet_in(alloc, &[1; 32], epoch, &to_recipient(), &[0x41; 64])?;
    hex::encode(alloc, &packet)
}

/// How the report hands on the packet of epoch 10.
fn later_delivered(alloc: Global) -> Result<String, AllocError> {
    let tag = hex::encode(alloc, &tag(alloc, &[1; 32], 10))?;
    let id = hex::encode(alloc, &[0x22; 32])?;
    let body = hex::encode(alloc, &[0x41; 64])?;
    format!(in alloc; "10 {tag} {id} {body} -")
}

/// What a capital letter of a report stands for, behind the number of the arrival: D the packet, E the one with the
/// other seed, V that of epoch 10, G what goes to the next hop, Y what goes to the maker of a reply block.
fn handed(alloc: Global, letter: u8) -> Result<String, AllocError> {
    match letter {
        b'D' => String::from_str(alloc, DELIVERED),
        b'E' => other_delivered(alloc),
        b'V' => later_delivered(alloc),
        b'G' => at_next_hop(alloc),
        _ => at_maker(alloc),
    }
}

/// What a capital letter of a script stands for: N the node's line, P the packet, Q one with another seed, S it
/// without its last byte, L and M it with its last byte or the last byte of its code changed; O and T those of epochs 9
/// and 10; and by its commands W after 500 milliseconds, X with a byte behind them, F to a next hop, R for the maker of a
/// reply block.
fn meant(alloc: Global, letter: u8) -> Result<String, AllocError> {
    match letter {
        b'N' => String::from_str(alloc, NODE),
        b'P' => commanded(alloc, &to_recipient()),
        b'Q' => hex::encode(alloc, &packet(alloc, &[2; 32], &to_recipient())?),
        b'S' => hex::encode(alloc, &shorter(alloc)?),
        b'L' => hex::encode(alloc, &changed(alloc, 1621)?),
        b'M' => hex::encode(alloc, &changed(alloc, 681)?),
        b'O' => to_deliver_in(alloc, 9),
        b'T' => to_deliver_in(alloc, 10),
        b'W' => commanded(alloc, &to_recipient_after(500)),
        b'X' => commanded(alloc, &to_recipient_and_more()),
        b'F' => commanded(alloc, &to_next_hop()),
        b'R' => commanded(alloc, &to_maker()),
        _ => handed(alloc, letter),
    }
}

/// The text, with what is meant in place of each capital letter.
fn filled(alloc: Global, text: &str) -> Result<Vec<u8>, AllocError> {
    let mut bytes = Vec::new(alloc);
    for byte in text.as_bytes() {
        if byte.is_ascii_uppercase() {
            bytes.extend_from_slice(meant(alloc, *byte)?.as_bytes())?;
        } else {
            bytes.push(*byte)?;
        }
    }
    Ok(bytes)
}

/// The words of a command line.
fn words(alloc: Global, line: &[&str]) -> Result<Vec<String>, AllocError> {
    let mut words = Vec::new(alloc);
    for word in line {
        words.push(String::from_str(alloc, word)?)?;
    }
    Ok(words)
}

/// A command over a script, with the calls of source and sink that fail, over new disks: its status and what was given.
fn run(
    alloc: Global,
    line: &[&str],
    script: &str,
    reads: &[u64],
    writes: &[u64],
) -> Result<(Status, MemSink), Fail> {
    run_on(alloc, line, script, reads, writes, &[])
}

/// The same, where these calls of the first disk fail.
fn run_on(
    alloc: Global,
    line: &[&str],
    script: &str,
    reads: &[u64],
    writes: &[u64],
    calls: &[u64],
) -> Result<(Status, MemSink), Fail> {
    let words = words(alloc, line)?;
    let mut source = MemSource::new(filled(alloc, script)?, Vec::from_slice(alloc, reads)?);
    let mut sink = MemSink::new(alloc, Vec::from_slice(alloc, writes)?);
    let mut bench = Bench::in_memory(alloc)?;
    bench.lab[0].fail_at(Vec::from_slice(alloc, calls)?);
    let status = mix_command(alloc, &words, &mut source, &mut sink, &mut bench);
    Ok((status, sink))
}

/// What a case shows, its script, and the status and the report that are owed.
type Case = (&'static str, &'static str, Status, &'static str);

fn expect_reports(rt: &impl Abort, alloc: Global, cases: &[Case]) -> Result<(), Fail> {
    for (shows, script, wanted, report) in cases {
        let (status, sink) = run(alloc, &["drive"], script, &[], &[])?;
        assert!(rt; status == *wanted, "{shows}");
        let report = filled(alloc, report)?;
        assert!(rt; sink.bytes() == report.as_slice(), "{shows}");
    }
    Ok(())
}

#[test]
fn handed_on_once(rt: HostRuntime) -> Result<(), Fail> {
    let alloc = rt.alloc();
    expect_reports(
        &rt,
        alloc,
        &[
            ("the node line alone", "N\n", Status::Done, ""),
            ("a packet", ONE_PACKET, Status::Done, "deliver 1 D\n"),
            (
                "the same packet again",
                "N\nrecv 1000 P\npeel 0\nclaim 0\nsend 1000\nrecv 1001 P\npeel 0\nclaim 0\n",
                Status::Done,
                "deliver 1 D\nrefuse 2 spent\n",
            ),
            (
                "the same with another payload",
                "N\nrecv 1000 P\npeel 0\nclaim 0\nsend 1000\nrecv 1001 L\npeel 0\nclaim 0\n",
                Status::Done,
                "deliver 1 D\nrefuse 2 spent\n",
            ),
        ],
    )
}

#[test]
fn refused_packets(rt: HostRuntime) -> Result<(), Fail> {
    let alloc = rt.alloc();
    expect_reports(
        &rt,
        alloc,
        &[
            (
                "a byte too short",
                "N\nrecv 1000 S\npeel 0\n",
                Status::Done,
                "refuse 1 length\n",
            ),
            (
                "a packet of an epoch below the floor, which the claim of a later one raised",
                "N\nrecv 12119999 O\npeel 0\nrecv 12120000 T\npeel 1\nclaim 1\nclaim 0\nsend 12120000\n",
                Status::Done,
                "refuse 1 retired 10\ndeliver 2 V\n",
            ),
            (
                "a changed code, and then the packet itself",
                "N\nrecv 1000 M\npeel 0\nrecv 1000 P\npeel 0\nclaim 0\nsend 1000\n",
                Status::Done,
                "refuse 1 sealed\ndeliver 2 D\n",
            ),
        ],
    )
}

#[test]
fn commands_of_all_kinds(rt: HostRuntime) -> Result<(), Fail> {
    let alloc = rt.alloc();
    expect_reports(
        &rt,
        alloc,
        &[
            (
                "held for its delay",
                "N\nrecv 1000 W\npeel 0\nclaim 0\nsend 1499\nsend 1500\n",
                Status::Done,
                "none\ndeliver 1 D\n",
            ),
            (
                "the least moment first",
                "N\nrecv 1000 W\nrecv 1200 Q\npeel 0\npeel 1\nclaim 0\nclaim 1\nsend 1500\nsend 1500\n",
                Status::Done,
                "deliver 2 E\ndeliver 1 D\n",
            ),
            (
                "to a next hop",
                "N\nrecv 1000 F\npeel 0\nclaim 0\nsend 1000\n",
                Status::Done,
                "forward 1 G\n",
            ),
            (
                "to the maker of a reply block",
                "N\nrecv 1000 R\npeel 0\nclaim 0\nsend 1000\n",
                Status::Done,
                "reply 1 Y\n",
            ),
            (
                "a byte behind the commands",
                "N\nrecv 1000 X\npeel 0\n",
                Status::Done,
                "refuse 1 commands\n",
            ),
        ],
    )
}

#[test]
fn workers_and_ends(rt: HostRuntime) -> Result<(), Fail> {
    let alloc = rt.alloc();
    expect_reports(
        &rt,
        alloc,
        &[
            (
                "idle, empty and busy workers",
                "N\npeel 0\nclaim 0\nrecv 1000 P\nrecv 1000 P\npeel 0\npeel 0\n",
                Status::Done,
                "peel 0 idle\nclaim 0 empty\npeel 0 busy\n",
            ),
            (
                "a line outside the grammar",
                "N\nsend 5\npeel 4\n",
                Status::Line { line: 3 },
                "none\n",
            ),
            ("an empty script", "", Status::Line { line: 1 }, ""),
            (
                "a rotation outside the grammar",
                "N\nrotate x\n",
                Status::Line { line: 2 },
                "",
            ),
            (
                "a failure of no shard of the node",
                "N\narm 1 1\n",
                Status::Line { line: 2 },
                "",
            ),
        ],
    )
}

#[test]
fn rotations(rt: HostRuntime) -> Result<(), Fail> {
    let alloc = rt.alloc();
    expect_reports(
        &rt,
        alloc,
        &[
            (
                "a packet of an epoch that a rotation retired after its receipt",
                "N\nrecv 12119999 O\npeel 0\nrotate 12120000\nclaim 0\n",
                Status::Done,
                "refuse 1 retired 10\n",
            ),
            (
                "a packet that was received long before a rotation",
                "N\nrotate 24000000\nrecv 12050000 T\npeel 0\nclaim 0\n",
                Status::Done,
                "refuse 1 retired 19\n",
            ),
            (
                "a rotation that the disk refused, and one that stands after a crash",
                "N\narm 0 1\nrotate 12120000\ncrash 0\nrotate 12120000\ncrash 0\n",
                Status::Done,
                "rotate 0 disk\nrestart 0 floor 0 spent 0\nrestart 0 floor 10 spent 0\n",
            ),
        ],
    )
}

#[test]
fn a_power_cut_at_each_call_of_a_claim(rt: HostRuntime) -> Result<(), Fail> {
    let alloc = rt.alloc();
    for call in 1..=4u64 {
        for pick in 0..3u64 {
            let spent = call >= 3 && pick == 1;
            let script = format!(in alloc;
                "{ONE_PACKET}arm 0 {call}\nrecv 1000 Q\npeel 0\nclaim 0\ncrash {pick}\nrecv 1000 Q\npeel 0\nclaim 0\nsend 1000\n"
            )?;
            let end = if spent {
                "restart 0 floor 0 spent 2\nrefuse 3 spent\nnone\n"
            } else {
                "restart 0 floor 0 spent 1\ndeliver 3 E\n"
            };
            let report = format!(in alloc; "deliver 1 D\nrefuse 2 disk\n{end}")?;
            let (status, sink) = run(alloc, &["drive"], script.as_str(), &[], &[])?;
            assert!(rt; status == Status::Done, "{call} {pick}");
            let report = filled(alloc, report.as_str())?;
            assert!(rt; sink.bytes() == report.as_slice(), "{call} {pick}");
        }
    }
    Ok(())
}

#[test]
fn an_opening_that_failed_is_made_up_for_by_the_next_claim(rt: HostRuntime) -> Result<(), Fail> {
    let alloc = rt.alloc();
    let (status, sink) = run_on(alloc, &["drive"], ONE_PACKET, &[], &[], &[1])?;
    assert!(rt; status == Status::Done);
    let report = filled(alloc, "open 0 disk\ndeliver 1 D\n")?;
    assert!(rt; sink.bytes() == report.as_slice());
    Ok(())
}

#[test]
fn words_and_failed_calls(rt: HostRuntime) -> Result<(), Fail> {
    let alloc = rt.alloc();
    let (status, sink) = run(alloc, &["drive", "now"], ONE_PACKET, &[], &[])?;
    assert!(rt; status == Status::Words && sink.bytes().is_empty());
    let (status, sink) = run(alloc, &["drive"], ONE_PACKET, &[1], &[])?;
    assert!(rt; status == Status::ReadFault && sink.bytes().is_empty());
    let (status, sink) = run(alloc, &["drive"], ONE_PACKET, &[], &[1])?;
    assert!(rt; status == Status::WriteFault && sink.bytes().is_empty());
    Ok(())
}
