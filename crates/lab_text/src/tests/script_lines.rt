// What no clause says: that the lines of a script come out as they are meant, at both ends of each range.
use crate::{Event, LineFault, NodeLine, read_event, read_node};
use std::alloc::{AllocError, Global};
use std::process::Abort;
use std::test::Fail;

/// What was read of a line, in one spelling.
fn spelled(alloc: Global, read: &Result<Event, LineFault>) -> Result<String, AllocError> {
    match read {
        Ok(Event::Recv { moment, packet }) => {
            let digits = hex::encode(alloc, packet.as_slice())?;
            format!(in alloc; "recv {moment} {digits}")
        }
        Ok(Event::Peel { worker }) => format!(in alloc; "peel {worker}"),
        Ok(Event::Claim { worker }) => format!(in alloc; "claim {worker}"),
        Ok(Event::Send { moment }) => format!(in alloc; "send {moment}"),
        Ok(Event::Rotate { moment }) => format!(in alloc; "rotate {moment}"),
        Ok(Event::Arm { shard, calls }) => format!(in alloc; "arm {shard} {calls}"),
        Ok(Event::Crash { pick }) => format!(in alloc; "crash {pick}"),
        Ok(Event::Skip) => format!(in alloc; "skip"),
        Err(fault) => format!(in alloc; "{fault}"),
    }
}

/// What is said of line 7 where it is outside the grammar.
const BAD: &str = "line 7 is outside the grammar";

/// Lines in a node of so many shards, and what each says; each is line 7.
const EVENTS: [(u8, &str, &str); 52] = [
    (4, "", "skip"),
    (4, " \t", "skip"),
    (4, " # recv", "skip"),
    (4, "\trecv  0001000\t0aBF ", "recv 1000 0abf"),
    (4, "recv 0 -", "recv 0 "),
    (
        4,
        "recv 1152921504606846975 00",
        "recv 1152921504606846975 00",
    ),
    (4, "recv 1152921504606846976 00", BAD),
    (4, "recv 5 xy", BAD),
    (4, "recv 5 abc", BAD),
    (4, "recv 5", BAD),
    (4, "recv 5 00 00", BAD),
    (4, "peel 0", "peel 0"),
    (4, "peel 3", "peel 3"),
    (4, "peel 4", BAD),
    (4, "peel -1", BAD),
    (4, "peel", BAD),
    (4, "peel 0 0", BAD),
    (4, "claim 0", "claim 0"),
    (4, "claim 3", "claim 3"),
    (4, "claim 4", BAD),
    (4, "claim", BAD),
    (4, "send 00000000000000000000", "send 0"),
    (4, "send 000000000000000000000", BAD),
    (4, "send 1152921504606846975", "send 1152921504606846975"),
    (4, "send 1152921504606846976", BAD),
    (4, "send +5", BAD),
    (4, "send", BAD),
    (4, "rotate 0", "rotate 0"),
    (
        4,
        "rotate 1152921504606846975",
        "rotate 1152921504606846975",
    ),
    (4, "rotate 1152921504606846976", BAD),
    (4, "rotate x", BAD),
    (4, "rotate", BAD),
    (4, "rotate 0 0", BAD),
    (4, "arm 0 1", "arm 0 1"),
    (4, "arm 3 4294967296", "arm 3 4294967296"),
    (4, "arm 4 1", BAD),
    (4, "arm 0 0", BAD),
    (4, "arm 0 4294967297", BAD),
    (4, "arm 0", BAD),
    (4, "arm 0 1 1", BAD),
    (1, "arm 0 1", "arm 0 1"),
    (1, "arm 1 1", BAD),
    (16, "arm 15 1", "arm 15 1"),
    (0, "arm 0 1", BAD),
    (4, "crash 0", "crash 0"),
    (
        4,
        "crash 18446744073709551615",
        "crash 18446744073709551615",
    ),
    (4, "crash 18446744073709551616", BAD),
    (4, "crash", BAD),
    (4, "crash 0 0", BAD),
    (4, "node lab", BAD),
    (4, "Peel 0", BAD),
    (4, "peels 0", BAD),
];

#[test]
fn events_of_lines(rt: HostRuntime) -> Result<(), Fail> {
    let alloc = rt.alloc();
    for (shards, line, said) in EVENTS {
        let read = read_event(alloc, line.as_bytes(), 7, shards);
        assert!(rt; spelled(alloc, &read)?.as_str() == said, "{line}");
    }
    Ok(())
}

/// The words of node lines before the seed, and whether they are in the grammar.
const NODES: [(&str, bool); 22] = [
    ("node lab 1 1 1 4 0", true),
    (" node\tntru 5 4096 16 1099511627776 274877906944", true),
    ("node lab 5 64 1 7 1", true),
    ("node lab 0 64 1 1200000 120000", false),
    ("node lab 6 64 1 1200000 120000", false),
    ("node lab 5 0 1 1200000 120000", false),
    ("node lab 5 4097 1 1200000 120000", false),
    ("node lab 5 64 0 1200000 120000", false),
    ("node lab 5 64 17 1200000 120000", false),
    ("node lab 5 64 1 3 0", false),
    ("node lab 5 64 1 1099511627777 0", false),
    ("node lab 5 64 1 7 2", false),
    ("node lab 5 64 1 1099511627776 274877906945", false),
    ("node LAB 5 64 1 1200000 120000", false),
    ("node lab 5 64 1 1200000", false),
    ("node lab 5 64 1 1200000 120000 -", false),
    ("node lab 5 64 1 1200000 120000 00", false),
    ("node", false),
    ("nodes lab 5 64 1 1200000 120000", false),
    ("lab 5 64 1 1200000 120000", false),
    ("# node lab 5 64 1 1200000 120000", false),
    ("", false),
];

/// A seed: 7 and 31 zeros.
const SEED: &str = "0700000000000000000000000000000000000000000000000000000000000000";

#[test]
fn node_lines(rt: HostRuntime) -> Result<(), Fail> {
    let alloc = rt.alloc();
    for (words, is_read) in NODES {
        let line = format!(in alloc; "{words} {SEED}")?;
        match read_node(line.as_bytes(), 3) {
            Ok(_) => assert!(rt; is_read, "{line}"),
            Err(fault) => assert!(rt;
                !is_read && fault == LineFault::BadLine { number: 3 },
                "{line}"
            ),
        }
    }
    let line = format!(in alloc; "node ntru 5 64 16 1200000 120000 {SEED}")?;
    let mut seed = [0; 32];
    seed[0] = 7;
    let meant = NodeLine {
        ntru: true,
        hops: 5,
        body: 64,
        shards: 16,
        epoch: 1_200_000,
        grace: 120_000,
        seed,
    };
    assert!(rt; read_node(line.as_bytes(), 1)? == meant);
    let without = &line.as_bytes()[..line.len() - 1];
    assert!(rt; read_node(without, 1) == Err(LineFault::BadLine { number: 1 }));
    Ok(())
}
