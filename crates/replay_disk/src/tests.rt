// The rack in memory through the bounds that code above uses it by: what a crash leaves by each pick, against a
// plain reading made by another program, and which calls fail.
ghost use Rattle.std.specs.Prelude.{◌≡◌, ◌<◌, ◌≤◌, ◌^◌, length};

use crate::{CrashRack, MemRack, Rack};
use mix_base::{Failed, Memory};
use std::alloc::Global;
use std::test::Fail;

/// Appends bytes to an area, with room made for them; None where the area is longer than 2^30.
fn append<R: Rack>(
    rack: &mut R,
    area: u8,
    bytes: &[u8],
) -> Result<Option<Result<(), Failed>>, Memory>
    requires area { area < 3 }
    requires some { 0 < length bytes.now }
    requires short { length bytes.now ≤ 2 ^ 30 }
{
    rack.room(bytes.len() as u64)?;
    match rack.length(area) {
        Ok(at) if at <= 1 << 30 => Ok(Some(rack.write(area, at, bytes))),
        Ok(_) => Ok(None),
        Err(failed) => Ok(Some(Err(failed))),
    }
}

/// Whether the area holds just these bytes, as its length and a read say.
fn holds<R: Rack>(rack: &mut R, area: u8, want: &[u8]) -> Result<bool, Failed>
    requires { area < 3 }
{
    let length = rack.length(area)?;
    let mut buf = [0x5au8; 16];
    let count = rack.read(area, 0, &mut buf)?;
    Ok(length == want.len() as u64 && &buf[..count] == want)
}

fn armed_and_crashed<R: CrashRack>(rack: &mut R, calls: u64, pick: u64) -> Result<(), Failed>
    requires { 0 < calls }
{
    rack.arm(calls);
    let answer = rack.sync(2);
    rack.crash(pick);
    answer
}

/// Area 0 is "ab" and at rest, and then three writes are pending: two of area 0 and one of area 1 between them.
fn three_writes(alloc: Global) -> Result<MemRack, Memory> {
    let root = b"ab".to_vec(alloc)?;
    let two = b"2".to_vec(alloc)?;
    let mut rack = MemRack::holding(alloc, root, Vec::new(alloc), two);
    let _ = append(&mut rack, 0, b"cdef")?;
    let _ = append(&mut rack, 1, b"xyz")?;
    let _ = append(&mut rack, 0, b"ghi")?;
    Ok(rack)
}

const LEFT: [(&[u8], &[u8]); 27] = [
    (b"ab", b""),
    (b"abcdef", b""),
    (b"abcd\x7f\x7f", b""),
    (b"ab", b"xyz"),
    (b"abcdef", b"xyz"),
    (b"abcd\x7f\x7f", b"xyz"),
    (b"ab", b"x\x7f\x7f"),
    (b"abcdef", b"x\x7f\x7f"),
    (b"abcd\x7f\x7f", b"x\x7f\x7f"),
    (b"ab\x7f\x7f\x7f\x7fghi", b""),
    (b"abcdefghi", b""),
    (b"abcd\x7f\x7fghi", b""),
    (b"ab\x7f\x7f\x7f\x7fghi", b"xyz"),
    (b"abcdefghi", b"xyz"),
    (b"abcd\x7f\x7fghi", b"xyz"),
    (b"ab\x7f\x7f\x7f\x7fghi", b"x\x7f\x7f"),
    (b"abcdefghi", b"x\x7f\x7f"),
    (b"abcd\x7f\x7fghi", b"x\x7f\x7f"),
    (b"ab\x7f\x7f\x7f\x7fg\x7f\x7f", b""),
    (b"abcdefg\x7f\x7f", b""),
    (b"abcd\x7f\x7fg\x7f\x7f", b""),
    (b"ab\x7f\x7f\x7f\x7fg\x7f\x7f", b"xyz"),
    (b"abcdefg\x7f\x7f", b"xyz"),
    (b"abcd\x7f\x7fg\x7f\x7f", b"xyz"),
    (b"ab\x7f\x7f\x7f\x7fg\x7f\x7f", b"x\x7f\x7f"),
    (b"abcdefg\x7f\x7f", b"x\x7f\x7f"),
    (b"abcd\x7f\x7fg\x7f\x7f", b"x\x7f\x7f"),
];

#[test]
fn each_pick_leaves_what_a_plain_reading_says(rt: HostRuntime) -> Result<(), Fail> {
    for (pick, left) in LEFT.iter().enumerate() {
        let mut rack = three_writes(rt.alloc())?;
        assert!(rt; holds(&mut rack, 0, b"abcdefghi")?);
        rack.crash(pick as u64);
        assert_eq!(rt; rack.bytes(0), left.0, "area 0 after {pick}");
        assert_eq!(rt; rack.bytes(1), left.1, "area 1 after {pick}");
        assert_eq!(rt; rack.bytes(2), b"2".as_slice());
    }
    Ok(())
}

#[test]
fn listed_calls_fail_and_no_others(rt: HostRuntime) -> Result<(), Fail> {
    let mut rack = MemRack::new(rt.alloc());
    rack.fail_at(vec![in rt.alloc(); 2, 3, 6]?);
    // The calls are numbered: length 1, write 2; length 3; length 4, write 5; sync 6; sync 7.
    assert_eq!(rt; append(&mut rack, 1, b"a")?, Some(Err(Failed)));
    assert_eq!(rt; append(&mut rack, 1, b"b")?, Some(Err(Failed)));
    assert_eq!(rt; append(&mut rack, 1, b"c")?, Some(Ok(())));
    assert_eq!(rt; rack.sync(1), Err(Failed));
    assert_eq!(rt; rack.sync(1), Ok(()));
    rack.crash(0);
    assert_eq!(rt; rack.bytes(1), b"c".as_slice());
    Ok(())
}

#[test]
fn a_failed_write_may_be_left_by_a_crash(rt: HostRuntime) -> Result<(), Fail> {
    let mut rack = MemRack::new(rt.alloc());
    rack.arm(9);
    rack.arm(2);
    assert_eq!(rt; append(&mut rack, 2, b"pq")?, Some(Err(Failed)));
    assert_eq!(rt; rack.bytes(2), b"".as_slice());
    assert_eq!(rt; rack.sync(2), Err(Failed));
    rack.crash(1);
    assert_eq!(rt; rack.bytes(2), b"pq".as_slice());
    assert_eq!(rt; armed_and_crashed(&mut rack, 2, 0), Ok(()));
    assert_eq!(rt; armed_and_crashed(&mut rack, 1, 0), Err(Failed));
    assert_eq!(rt; rack.sync(2), Ok(()));
    Ok(())
}
