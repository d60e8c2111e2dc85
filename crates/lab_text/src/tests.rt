// What no clause says: that lines, settings and texts come out as written, and that a failed read is named and loses nothing.
mod script_lines;
mod settings;

use crate::{LineFault, LineReader, Status, code, write_status};
use mix_base::{MemSink, MemSource, Shape, Source};
use std::alloc::{AllocError, Global};
use std::process::Abort;
use std::test::Fail;

fn source(alloc: Global, script: &[u8], failing: &[u64]) -> Result<MemSource, AllocError> {
    let script = Vec::from_slice(alloc, script)?;
    Ok(MemSource::new(script, Vec::from_slice(alloc, failing)?))
}

fn expect_lines(
    rt: &impl Abort,
    alloc: Global,
    script: &[u8],
    lines: &[&[u8]],
) -> Result<(), Fail> {
    let mut source = source(alloc, script, &[])?;
    let mut reader = LineReader::new(alloc, &mut source);
    for line in lines {
        let found = reader.next_line(alloc)?.ok_or("a line is missing")?;
        assert!(rt; found.as_slice() == *line);
    }
    assert!(rt; reader.next_line(alloc)?.is_none());
    assert!(rt; reader.number() == lines.len() as u64);
    Ok(())
}

#[test]
fn lines_as_they_stand(rt: HostRuntime) -> Result<(), Fail> {
    let alloc = rt.alloc();
    expect_lines(&rt, alloc, b"", &[])?;
    expect_lines(&rt, alloc, b"\n", &[b""])?;
    expect_lines(&rt, alloc, b"a\r\n\r\r\nb\r", &[b"a", b"\r", b"b\r"])?;
    expect_lines(&rt, alloc, b"a\n\nb\n", &[b"a", b"", b"b"])
}

// Two lines of 40,000 bytes, so that a block ends in the second.
fn two_long_lines(alloc: Global) -> Result<Vec<u8>, AllocError> {
    let mut script = vec![in alloc; b'x'; 40_000]?;
    script.push(b'\n')?;
    script.extend_from_slice(&vec![in alloc; b'y'; 40_000]?)?;
    Ok(script)
}

#[test]
fn a_failed_read_loses_nothing(rt: HostRuntime) -> Result<(), Fail> {
    let alloc = rt.alloc();
    let script = two_long_lines(alloc)?;
    let mut reader = LineReader::new(alloc, source(alloc, &script, &[2])?);
    assert!(rt; reader.next_line(alloc)?.is_some());
    assert!(rt; reader.next_line(alloc) == Err(LineFault::ReadFault));
    assert!(rt; reader.number() == 1);
    let second = reader
        .next_line(alloc)?
        .ok_or("the second line is missing")?;
    assert!(rt; second.len() == 40_000);
    assert!(rt; reader.next_line(alloc)?.is_none());
    let mut source = reader.into_source();
    assert!(rt; source.read(&mut [0u8; 1]) == Ok(0));
    Ok(())
}

#[test]
fn a_line_past_its_limit(rt: HostRuntime) -> Result<(), Fail> {
    let alloc = rt.alloc();
    for (size, is_read) in [(65_536, true), (65_537, false)] {
        let mut reader = LineReader::new(alloc, source(alloc, &vec![in alloc; b'#'; size]?, &[])?);
        match reader.next_line(alloc) {
            Ok(_) => assert!(rt; is_read),
            Err(fault) => assert!(rt; !is_read && fault == LineFault::BadLine { number: 1 }),
        }
    }
    Ok(())
}

#[test]
fn texts_of_statuses(rt: HostRuntime) -> Result<(), Fail> {
    let alloc = rt.alloc();
    let mut sink = MemSink::new(alloc, Vec::new(alloc));
    write_status(alloc, &mut sink, &Status::Done)?;
    write_status(alloc, &mut sink, &Status::Line { line: 3 })?;
    write_status(alloc, &mut sink, &Status::ReadFault)?;
    assert!(rt; sink.bytes() == b"mix: line 3\nmix: read fault\n".as_slice());
    assert!(rt; code(&Status::Line { line: 3 }) == 2 && code(&Status::ReadFault) == 3);
    Ok(())
}

/// What each status of a journal, a disk, a thread, a line or a key is written as, and its code.
const TEXTS: [(Status, u8, &str); 7] = [
    (
        Status::Foreign {
            node: 4_294_967_295,
            shard: 15,
            area: 2,
            at: 18_446_744_073_709_551_615,
        },
        5,
        "mix: journal 4294967295 15 foreign area 2 at 18446744073709551615\n",
    ),
    (
        Status::OtherShape {
            node: 0,
            shard: 0,
            stored: Shape {
                shards: 4,
                index: 0,
            },
            asked: Shape {
                shards: 8,
                index: 0,
            },
        },
        5,
        "mix: journal 0 0 stored 4/0 asked 8/0\n",
    ),
    (
        Status::OtherShape {
            node: 7,
            shard: 3,
            stored: Shape {
                shards: 16,
                index: 2,
            },
            asked: Shape {
                shards: 16,
                index: 3,
            },
        },
        5,
        "mix: journal 7 3 stored 16/2 asked 16/3\n",
    ),
    (Status::NoThread, 7, "mix: no thread\n"),
    (Status::NoKey { epoch: 12 }, 8, "mix: no key for epoch 12\n"),
    (Status::NoLine, 9, "mix: no line\n"),
    (
        Status::Disk {
            node: 4_294_967_295,
            shard: 15,
        },
        10,
        "mix: disk 4294967295 15\n",
    ),
];

/// The name of each place of the settings, and of two behind them.
const NAMES: [(u8, &str); 17] = [
    (0, "toml"),
    (1, "suite"),
    (2, "body"),
    (3, "layers"),
    (4, "width"),
    (5, "workers"),
    (6, "shards"),
    (7, "epoch_ms"),
    (8, "grace_ms"),
    (9, "seed"),
    (10, "messages"),
    (11, "delay_threshold"),
    (12, "delay_unit"),
    (13, "delay_cap"),
    (14, "unknown"),
    (15, "unknown"),
    (255, "unknown"),
];

#[test]
fn texts_of_settings(rt: HostRuntime) -> Result<(), Fail> {
    let alloc = rt.alloc();
    for (key, name) in NAMES {
        let mut sink = MemSink::new(alloc, Vec::new(alloc));
        write_status(alloc, &mut sink, &Status::Key { key })?;
        let text = format!(in alloc; "mix: key {name}\n")?;
        assert!(rt; sink.bytes() == text.as_bytes(), "{name}");
        assert!(rt; code(&Status::Key { key }) == 2, "{name}");
    }
    Ok(())
}

#[test]
fn texts_of_journals_and_disks(rt: HostRuntime) -> Result<(), Fail> {
    let alloc = rt.alloc();
    for (status, number, text) in TEXTS {
        let mut sink = MemSink::new(alloc, Vec::new(alloc));
        write_status(alloc, &mut sink, &status)?;
        assert!(rt; sink.bytes() == text.as_bytes(), "{text}");
        assert!(rt; code(&status) == number, "{text}");
    }
    Ok(())
}
