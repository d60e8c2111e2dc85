// Roots that no store writes, each with its place; what stores write, read again; and the order of what is looked for.
ghost use Rattle.std.specs.Prelude.{◌<◌, ◌≤◌, ◌^◌};
ghost use Rattle.mix_base.specs.Shards.{IsShape};

use crate::{Book, OpenStore, look};
use mix_base::Shape;
use replay_disk::{MemRack, Rack};
use std::alloc::{AllocError, Global};
use std::process::Abort;
use std::test::Fail;

// A root of these records of kind and value, with a closed gate behind the last.
fn root(alloc: Global, records: &[(u8, u64)]) -> Result<Vec<u8>, AllocError> {
    let mut bytes = Vec::new(alloc);
    for (kind, value) in records {
        bytes.push(1)?;
        bytes.push(*kind)?;
        bytes.extend_from_slice(&value.to_be_bytes())?;
    }
    bytes.push(0)?;
    Ok(bytes)
}

// A log of these tags, each 32 times the byte, with a closed gate behind the last.
fn log(alloc: Global, tags: &[u8]) -> Result<Vec<u8>, AllocError> {
    let mut bytes = Vec::new(alloc);
    for tag in tags {
        bytes.push(1)?;
        bytes.extend_from_slice(&[*tag; 32])?;
    }
    bytes.push(0)?;
    Ok(bytes)
}

// What a look finds on a rack.
fn looked<R: Rack>(
    alloc: Global,
    rack: &mut R,
    shape: &Shape,
    limit: u64,
) -> Result<Book, OpenStore>
    requires some { 2 ≤ limit }
    requires limit { limit ≤ 2 ^ 26 }
    requires shape { IsShape shape.now }
{
    look(alloc, rack, shape, limit)
}

// What a look finds on a rack that holds these bytes, for the first of so many shards. The bytes stay.
fn look_at(
    rt: &impl Abort,
    alloc: Global,
    root: &[u8],
    logs: (&[u8], &[u8]),
    shards: u8,
    limit: u16,
) -> Result<Result<Book, OpenStore>, Fail> {
    let one = logs.0.to_vec(alloc)?;
    let two = logs.1.to_vec(alloc)?;
    let mut rack = MemRack::holding(alloc, root.to_vec(alloc)?, one, two);
    let shape = Shape { shards, index: 0 };
    assert!(rt; (1..=16).contains(&shards) && limit >= 2);
    let found = looked(alloc, &mut rack, &shape, u64::from(limit));
    assert_eq!(rt; rack.bytes(0), root);
    assert_eq!(rt; rack.bytes(1), logs.0);
    assert_eq!(rt; rack.bytes(2), logs.1);
    Ok(found)
}

const fn foreign(area: u8, at: u64) -> OpenStore {
    OpenStore::Foreign { area, at }
}

// What a look finds of these records and logs, for the first of so many shards, and logs of at most `limit` records.
fn found(
    rt: &impl Abort,
    alloc: Global,
    records: &[(u8, u64)],
    tags: (&[u8], &[u8]),
    shards: u8,
    limit: u16,
) -> Result<Result<Book, OpenStore>, Fail> {
    let root = root(alloc, records)?;
    let one = log(alloc, tags.0)?;
    let two = log(alloc, tags.1)?;
    look_at(rt, alloc, &root, (&one, &two), shards, limit)
}

#[test]
fn roots_that_no_store_writes(rt: HostRuntime) -> Result<(), Fail> {
    let rows: [(&[(u8, u64)], u64); 9] = [
        (&[(2, 0)], 1),
        (&[(1, 4352)], 1),
        (&[(1, 257)], 1),
        (&[(1, 256), (3, 0)], 11),
        (&[(1, 256), (2, 2)], 11),
        (&[(1, 256), (9, 0)], 11),
        (&[(1, 256), (1, 256)], 11),
        (&[(1, 256), (2, 0), (2, 0)], 21),
        (&[(1, 256), (3, u64::MAX), (2, 0)], 21),
    ];
    for (records, at) in rows {
        let answer = found(&rt, rt.alloc(), records, (&[], &[]), 1, 100)?;
        assert_eq!(rt; answer, Err(foreign(0, at)));
    }
    Ok(())
}

// The records of a root are counted first, then judged; then the shape; then area 1, then area 2.
#[test]
fn the_first_objection(rt: HostRuntime) -> Result<(), Fail> {
    let three: &[u8] = &[7, 7, 8];
    let four: &[u8] = &[7, 7, 8, 9];
    let stored = Shape {
        shards: 2,
        index: 0,
    };
    let begun: &[(u8, u64)] = &[(1, 256), (2, 1), (2, 0)];
    let rows = [
        (begun, (three, three), 2, foreign(0, 20)),
        (begun, (four, four), 3, foreign(1, 99)),
        (begun, (three, four), 3, foreign(2, 99)),
        (
            &[(1, 512), (2, 1)],
            (three, three),
            2,
            OpenStore::OtherShape { stored },
        ),
    ];
    for (records, tags, limit, want) in rows {
        let answer = found(&rt, rt.alloc(), records, tags, 1, limit)?;
        assert_eq!(rt; answer, Err(want));
    }
    Ok(())
}

// The floor, the number of spent pairs and the number of root records, for so many shards.
#[test]
fn what_books_come_to(rt: HostRuntime) -> Result<(), Fail> {
    let rows: [(&[(u8, u64)], (&[u8], &[u8]), u8, (u64, u64, u64)); 5] = [
        (&[], (&[], &[]), 4, (0, 0, 0)),
        (&[(1, 1024)], (&[], &[]), 4, (0, 0, 1)),
        (&[(1, 256), (2, 1)], (&[], &[10]), 1, (0, 1, 2)),
        (&[(1, 256), (2, 0)], (&[10, 11], &[]), 1, (0, 2, 2)),
        (&[(1, 256), (2, 0)], (&[7, 7, 8], &[9]), 1, (0, 2, 2)),
    ];
    for (records, tags, shards, want) in rows {
        let book = found(&rt, rt.alloc(), records, tags, shards, 100)??;
        assert_eq!(rt; (book.floor, book.spent, book.root), want);
    }
    Ok(())
}

// A root without a record may have 11 bytes and no more; and one that was made for the first of four shards is none of
// eight.
#[test]
fn roots_without_a_record_or_of_another_shape(rt: HostRuntime) -> Result<(), Fail> {
    let alloc = rt.alloc();
    let none = (b"".as_slice(), b"".as_slice());
    let long = look_at(&rt, alloc, &[0; 12], none, 1, 2)?;
    assert_eq!(rt; long, Err(foreign(0, 0)));
    let book = look_at(&rt, alloc, &[0; 11], none, 1, 2)??;
    assert_eq!(rt; (book.floor, book.spent, book.root), (0, 0, 0));
    let stored = Shape {
        shards: 4,
        index: 0,
    };
    let other = found(&rt, alloc, &[(1, 1024)], (&[], &[]), 8, 100)?;
    assert_eq!(rt; other, Err(OpenStore::OtherShape { stored }));
    Ok(())
}
