// Settings: which texts are read, and which place is named of those that aren't.
use crate::{Config, ConfigFault, Status, read_config};
use sphinx_make::Draw;
use std::alloc::{AllocError, Global};
use std::process::Abort;
use std::test::Fail;

/// Settings that are in their ranges, a key on each line.
const LINES: [(&str, &str); 13] = [
    ("suite", "suite = \"lab\""),
    ("body", "body = 64"),
    ("layers", "layers = 3"),
    ("width", "width = 2"),
    ("workers", "workers = 2"),
    ("shards", "shards = 2"),
    ("epoch_ms", "epoch_ms = 1099511627776"),
    ("grace_ms", "grace_ms = 120000"),
    (
        "seed",
        "seed = \"0707070707070707070707070707070707070707070707070707070707070707\"",
    ),
    ("messages", "messages = 40"),
    ("delay_threshold", "delay_threshold = 2147483648"),
    ("delay_unit", "delay_unit = 2"),
    ("delay_cap", "delay_cap = 20"),
];

/// What they say.
const CONFIG: Config = Config {
    ntru: false,
    body: 64,
    layers: 3,
    width: 2,
    workers: 2,
    shards: 2,
    epoch: 1_099_511_627_776,
    grace: 120_000,
    seed: [7; 32],
    messages: 40,
    draw: Draw {
        threshold: 2_147_483_648,
        unit: 2,
        cap: 20,
    },
};

/// The settings above with these lines in place of those of their keys; a line of no key stands at the end.
fn text_with<'a>(alloc: Global, changes: &[(&'a str, &'a str)]) -> Result<String, AllocError> {
    let mut text = String::new(alloc);
    for (key, line) in LINES {
        push_changed(&mut text, changes, key, line)?;
    }
    for (key, line) in changes {
        if key.is_empty() {
            push_line(&mut text, line)?;
        }
    }
    Ok(text)
}

/// The line of this key among the changes, or else this line.
fn push_changed<'a>(
    text: &mut String,
    changes: &[(&'a str, &'a str)],
    key: &str,
    line: &str,
) -> Result<(), AllocError> {
    for (changed, other) in changes {
        if *changed == key {
            return push_line(text, other);
        }
    }
    push_line(text, line)
}

fn push_line(text: &mut String, line: &str) -> Result<(), AllocError> {
    text.push_str(line)?;
    text.push_str("\n")
}

/// The place that is named of the settings with these changes, or None where they are read.
fn bad_place<'a>(alloc: Global, changes: &[(&'a str, &'a str)]) -> Result<Option<u8>, Fail> {
    let text = text_with(alloc, changes)?;
    match read_config(alloc, text.as_bytes()) {
        Ok(_) => Ok(None),
        Err(ConfigFault::BadConfig { key }) => Ok(Some(key)),
        Err(ConfigFault::Memory) => Err("want of memory".into()),
    }
}

#[test]
fn settings_in_their_ranges(rt: HostRuntime) -> Result<(), Fail> {
    let alloc = rt.alloc();
    let text = text_with(alloc, &[])?;
    assert!(rt; read_config(alloc, text.as_bytes()) == Ok(CONFIG));
    let changes = [
        ("suite", "suite = \"ntru\""),
        (
            "seed",
            "seed = \"ABabABabABabABabABabABabABabABabABabABabABabABabABabABabABabABab\"",
        ),
    ];
    let text = text_with(alloc, &changes)?;
    let other = Config {
        ntru: true,
        seed: [0xab; 32],
        ..CONFIG
    };
    assert!(rt; read_config(alloc, text.as_bytes()) == Ok(other));
    Ok(())
}

/// One line for a key each, and its place where it is bad.
const CASES: [(&str, &str, Option<u8>); 58] = [
    ("suite", "", Some(1)),
    ("suite", "suite = \"LAB\"", Some(1)),
    ("suite", "suite = 1", Some(1)),
    ("body", "", Some(2)),
    ("body", "body = 15", Some(2)),
    ("body", "body = 16", None),
    ("body", "body = 4096", None),
    ("body", "body = 4097", Some(2)),
    ("body", "body = -64", Some(2)),
    ("body", "body = \"64\"", Some(2)),
    ("body", "body = 64.0", Some(2)),
    ("layers", "layers = 0", Some(3)),
    ("layers", "layers = 1", None),
    ("layers", "layers = 5", None),
    ("layers", "layers = 6", Some(3)),
    ("width", "width = 0", Some(4)),
    ("width", "width = 1", None),
    ("width", "width = 4", None),
    ("width", "width = 5", Some(4)),
    ("width", "", Some(4)),
    ("workers", "workers = 0", Some(5)),
    ("workers", "workers = 1", None),
    ("workers", "workers = 4", None),
    ("workers", "workers = 5", Some(5)),
    ("workers", "workers = [1]", Some(5)),
    ("shards", "shards = 0", Some(6)),
    ("shards", "shards = 1", None),
    ("shards", "shards = 16", None),
    ("shards", "shards = 17", Some(6)),
    ("epoch_ms", "epoch_ms = 3", Some(7)),
    ("epoch_ms", "epoch_ms = 480000", None),
    ("epoch_ms", "epoch_ms = 479999", Some(8)),
    ("epoch_ms", "epoch_ms = 1099511627777", Some(7)),
    ("grace_ms", "grace_ms = -1", Some(8)),
    ("grace_ms", "grace_ms = 0", None),
    ("grace_ms", "grace_ms = 274877906944", None),
    ("grace_ms", "grace_ms = 274877906945", Some(8)),
    ("seed", "seed = 7", Some(9)),
    (
        "seed",
        "seed = \"070707070707070707070707070707070707070707070707070707070707070\"",
        Some(9),
    ),
    (
        "seed",
        "seed = \"07070707070707070707070707070707070707070707070707070707070707070\"",
        Some(9),
    ),
    (
        "seed",
        "seed = \"070707070707070707070707070707070707070707070707070707070707070g\"",
        Some(9),
    ),
    ("messages", "messages = -1", Some(10)),
    ("messages", "messages = 0", None),
    ("messages", "messages = 10000", None),
    ("messages", "messages = 10001", Some(10)),
    ("delay_threshold", "delay_threshold = -1", Some(11)),
    ("delay_threshold", "delay_threshold = 0", None),
    ("delay_threshold", "delay_threshold = 4294967295", None),
    ("delay_threshold", "delay_threshold = 4294967296", Some(11)),
    ("delay_unit", "delay_unit = 0", Some(12)),
    ("delay_unit", "delay_unit = 1", None),
    ("delay_unit", "delay_unit = 60000", None),
    ("delay_unit", "delay_unit = 60001", Some(12)),
    ("delay_cap", "delay_cap = -1", Some(13)),
    ("delay_cap", "delay_cap = 0", None),
    ("delay_cap", "delay_cap = 10800000", None),
    ("delay_cap", "delay_cap = 10800001", Some(13)),
    ("", "extra = 1", Some(14)),
];

#[test]
fn each_key_at_the_ends_of_its_range(rt: HostRuntime) -> Result<(), Fail> {
    let alloc = rt.alloc();
    for (key, line, place) in CASES {
        assert!(rt; bad_place(alloc, &[(key, line)])? == place, "{line}");
    }
    Ok(())
}

#[test]
fn the_first_bad_place_is_named(rt: HostRuntime) -> Result<(), Fail> {
    let alloc = rt.alloc();
    let cases = [
        (
            ("layers", "layers = 6"),
            ("delay_unit", "delay_unit = 60001"),
            Some(3),
        ),
        (("shards", "shards = 0"), ("suite", "suite = 1"), Some(1)),
        (("delay_cap", ""), ("", "extra = 1"), Some(13)),
        (
            ("epoch_ms", "epoch_ms = 0"),
            ("grace_ms", "grace_ms = -1"),
            Some(7),
        ),
        (
            ("epoch_ms", "epoch_ms = 4"),
            ("grace_ms", "grace_ms = 1"),
            None,
        ),
        (("seed", "seed = 7"), ("", "= 1"), Some(0)),
    ];
    for (one, other, place) in cases {
        assert!(rt; bad_place(alloc, &[one, other])? == place);
    }
    Ok(())
}

/// A comment that makes a text so many bytes long.
fn long_text(alloc: Global, size: usize) -> Result<String, AllocError> {
    let mut text = text_with(alloc, &[])?;
    text.push_str("#")?;
    for _ in text.len()..size {
        text.push_str("x")?;
    }
    Ok(text)
}

#[test]
fn texts_that_are_no_document(rt: HostRuntime) -> Result<(), Fail> {
    let alloc = rt.alloc();
    let no_document = Err(ConfigFault::BadConfig { key: 0 });
    for line in [
        "body = 64",
        "= 1",
        "extra = 9223372036854775808",
        "extra = ",
    ] {
        assert!(rt; bad_place(alloc, &[("", line)])? == Some(0), "{line}");
    }
    assert!(rt; read_config(alloc, b"# \xff\n") == no_document);
    assert!(rt; read_config(alloc, long_text(alloc, 65_536)?.as_bytes()) == Ok(CONFIG));
    assert!(rt; read_config(alloc, long_text(alloc, 65_537)?.as_bytes()) == no_document);
    assert!(rt; read_config(alloc, b"") == Err(ConfigFault::BadConfig { key: 1 }));
    Ok(())
}

#[test]
fn bad_settings_are_the_status_of_their_key(rt: HostRuntime) -> Result<(), Fail> {
    let status = Status::from(ConfigFault::BadConfig { key: 4 });
    assert!(rt; status == Status::Key { key: 4 });
    assert!(rt; Status::from(ConfigFault::Memory) == Status::Memory);
    Ok(())
}
