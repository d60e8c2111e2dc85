// A log over the rack in memory: what stands in its area after a crash at each call of an append, what is read and
// written at opening, which calls an opening makes, and the bytes that appending and emptying leave.
ghost use Rattle.std.specs.Prelude.{◌≡◌, ◌+◌, ◌≤◌, ◌<◌, ◌^◌, length, IsTrue};
ghost use Rattle.gate_log.specs.Log.{Stands};

use crate::{GateLog, LogAppend, LogOpen, LogRead};
use mix_base::Memory;
use replay_disk::{CrashRack, MemRack, Rack};
use std::alloc::Global;
use std::test::Fail;

const TAG: [u8; 32] = *b"the tag of a packet, spent once.";

/// An area: a gate byte, and behind it nothing, the tag and a closed gate, half of that and 0x7f, or one byte less
/// than the tag.
#[derive(Clone, Copy)]
enum Area {
    Gate(u8),
    Whole(u8),
    Torn(u8),
    Short(u8),
}

fn area_bytes(alloc: Global, area: Area) -> Result<Vec<u8>, Memory> {
    let mut bytes = Vec::new(alloc);
    match area {
        Area::Gate(gate) => bytes.push(gate)?,
        Area::Whole(gate) => {
            bytes.push(gate)?;
            bytes.extend_from_slice(&TAG)?;
            bytes.push(0)?;
        }
        Area::Torn(gate) => {
            bytes.push(gate)?;
            bytes.extend_from_slice(&TAG[..16])?;
            bytes.extend_from_slice(&[0x7f; 17])?;
        }
        Area::Short(gate) => {
            bytes.push(gate)?;
            bytes.extend_from_slice(&TAG[..31])?;
        }
    }
    Ok(bytes)
}

fn holding(alloc: Global, root: Vec<u8>) -> MemRack {
    MemRack::holding(alloc, root, Vec::new(alloc), Vec::new(alloc))
}

/// Appends the tag, with room made for it, to a rack that is armed at a call of the append.
fn append_armed<R: CrashRack>(
    log: &mut GateLog,
    rack: &mut R,
    calls: u64,
) -> Result<Result<(), LogAppend>, Memory>
    requires sound { IsTrue log.old.sound }
    requires size { log.old.size ≡ 32 }
    requires stands { R.tells → Stands log.old (R.state rack.old) }
    requires calls { 0 < calls }
{
    rack.room(34)?;
    rack.arm(calls);
    Ok(log.append(rack, &TAG))
}

/// Opens the log of area 0 and appends the tag; None where it isn't opened.
fn open_and_append<R: CrashRack>(
    alloc: Global,
    rack: &mut R,
    limit: u64,
    calls: u64,
) -> Result<Option<Result<(), LogAppend>>, Memory>
    requires limit { limit ≤ 2 ^ 26 }
    requires calls { 0 < calls }
{
    match GateLog::open(alloc, rack, 0, 32, limit) {
        Ok(opened) => {
            let mut log = opened.log;
            Ok(Some(append_armed(&mut log, rack, calls)?))
        }
        Err(_) => Ok(None),
    }
}

/// Whether the log of area 0 opens with these records, one after the other.
fn opens_with<R: Rack>(alloc: Global, rack: &mut R, records: &[u8]) -> bool {
    match GateLog::open(alloc, rack, 0, 32, 4) {
        Ok(opened) => opened.records.as_slice() == records,
        Err(_) => false,
    }
}

/// What an opening of the log of area 0 is refused for, on a rack that is armed at one of its calls.
fn opens_armed<R: CrashRack>(alloc: Global, rack: &mut R, calls: u64) -> Option<LogOpen>
    requires { 0 < calls }
{
    rack.arm(calls);
    match GateLog::open(alloc, rack, 0, 32, 4) {
        Ok(_) => None,
        Err(fault) => Some(fault),
    }
}

/// Appends two records, empties the log and appends a third; None where a call fails. Answers whether the log is sound,
/// and its count.
fn append_reset_append<R: Rack>(
    log: &mut GateLog,
    rack: &mut R,
    records: &[[u8; 32]; 3],
) -> Result<Option<(bool, u64)>, Memory>
    requires sound { IsTrue log.old.sound }
    requires size { log.old.size ≡ 32 }
    requires stands { R.tells → Stands log.old (R.state rack.old) }
{
    rack.room(103)?;
    let Ok(()) = log.append(rack, &records[0]) else {
        return Ok(None);
    };
    let Ok(()) = log.append(rack, &records[1]) else {
        return Ok(None);
    };
    let Ok(()) = log.reset(rack) else {
        return Ok(None);
    };
    let Ok(()) = log.append(rack, &records[2]) else {
        return Ok(None);
    };
    Ok(Some((log.is_sound(), log.count())))
}

fn open_and_reset<R: Rack>(
    alloc: Global,
    rack: &mut R,
    records: &[[u8; 32]; 3],
) -> Result<Option<(bool, u64)>, Memory> {
    match GateLog::open(alloc, rack, 0, 32, 4) {
        Ok(opened) => {
            let mut log = opened.log;
            append_reset_append(&mut log, rack, records)
        }
        Err(_) => Ok(None),
    }
}

/// The first records of area 0, at most so many, and whether there are more.
fn reads<R: Rack>(
    alloc: Global,
    rack: &mut R,
    limit: u64,
    records: &[u8],
    more: bool,
) -> Result<bool, LogRead>
    requires { limit ≤ 2 ^ 26 }
{
    let found = GateLog::read_records(alloc, rack, 0, 32, limit)?;
    Ok(found.records.as_slice() == records && found.more == more)
}

fn start_only<R: Rack>(rack: &mut R) -> Result<Option<u64>, Memory> {
    rack.room(1)?;
    match GateLog::start(rack, 0, 32, 4) {
        Ok(log) => Ok(Some(log.count())),
        Err(_) => Ok(None),
    }
}

fn is_overfull<R: Rack>(alloc: Global, rack: &mut R, place: u64) -> bool {
    match GateLog::open(alloc, rack, 0, 32, 1) {
        Ok(_) => false,
        Err(fault) => fault == LogOpen::Overfull { at: place },
    }
}

// The calls above at the rack in memory, once each.

fn appends(
    alloc: Global,
    rack: &mut MemRack,
    limit: u64,
    calls: u64,
) -> Result<Option<Result<(), LogAppend>>, Memory>
    requires limit { limit ≤ 2 ^ 26 }
    requires calls { 0 < calls }
{
    open_and_append(alloc, rack, limit, calls)
}

fn opens(alloc: Global, rack: &mut MemRack, records: &[u8]) -> bool {
    opens_with(alloc, rack, records)
}

fn starts(rack: &mut MemRack) -> Result<Option<u64>, Memory> {
    start_only(rack)
}

fn opens_at(alloc: Global, rack: &mut MemRack, calls: u64) -> Option<LogOpen>
    requires { 0 < calls }
{
    opens_armed(alloc, rack, calls)
}

fn resets(
    alloc: Global,
    rack: &mut MemRack,
    records: &[[u8; 32]; 3],
) -> Result<Option<(bool, u64)>, Memory> {
    open_and_reset(alloc, rack, records)
}

fn reads_at(
    alloc: Global,
    rack: &mut MemRack,
    limit: u64,
    records: &[u8],
    more: bool,
) -> Result<bool, LogRead>
    requires { limit ≤ 2 ^ 26 }
{
    reads(alloc, rack, limit, records, more)
}

fn overfull(alloc: Global, rack: &mut MemRack, place: u64) -> bool {
    is_overfull(alloc, rack, place)
}

/// Whether an append that is armed at a call and crashed leaves this area, and how many records.
fn leaves(alloc: Global, calls: u64, pick: u64, area: Area, there: bool) -> Result<bool, Memory>
    requires { 0 < calls }
{
    let root = area_bytes(alloc, Area::Gate(0))?;
    let mut rack = holding(alloc, root);
    let _ = appends(alloc, &mut rack, 4, calls)?;
    rack.crash(pick);
    let want = area_bytes(alloc, area)?;
    let same = rack.bytes(0) == want.as_slice();
    let records: &[u8] = if there { &TAG } else { &[] };
    Ok(same && opens(alloc, &mut rack, records))
}

/// Whether opening over an area reads these records and leaves the area so.
fn opening(alloc: Global, area: &[u8], records: &[u8], after: &[u8]) -> Result<bool, Memory> {
    let root = area.to_vec(alloc)?;
    let mut rack = holding(alloc, root);
    let read = opens(alloc, &mut rack, records);
    Ok(read && rack.bytes(0) == after)
}

const LEFT: [(u64, u64, Area, bool); 10] = [
    (2, 0, Area::Gate(0), false),
    (2, 1, Area::Whole(0), false),
    (2, 2, Area::Torn(0), false),
    (3, 0, Area::Whole(0), false),
    (3, 1, Area::Whole(1), true),
    (3, 2, Area::Whole(0x7f), false),
    (4, 0, Area::Whole(0), false),
    (4, 1, Area::Whole(1), true),
    (4, 2, Area::Whole(0x7f), false),
    (5, 0, Area::Whole(1), true),
];

#[test]
fn a_crash_at_each_call_leaves_the_record_whole_or_not_at_all(rt: HostRuntime) -> Result<(), Fail> {
    for (calls, pick, area, there) in LEFT {
        assert!(rt; calls > 0);
        assert!(rt; leaves(rt.alloc(), calls, pick, area, there)?);
    }
    Ok(())
}

#[test]
fn opening_reads_whole_records_and_closes_the_end(rt: HostRuntime) -> Result<(), Fail> {
    let alloc = rt.alloc();
    let shut = area_bytes(alloc, Area::Whole(0x7f))?;
    assert!(rt; opening(alloc, &shut, b"", &shut)?);
    let open = area_bytes(alloc, Area::Whole(1))?;
    assert!(rt; opening(alloc, &open, &TAG, &open)?);
    let short = area_bytes(alloc, Area::Short(1))?;
    let closed = area_bytes(alloc, Area::Short(0))?;
    assert!(rt; opening(alloc, &short, b"", &closed)?);
    assert!(rt; opening(alloc, b"", b"", b"\x00")?);
    Ok(())
}

#[test]
fn a_full_log_is_refused_and_an_overfull_one_not_opened(rt: HostRuntime) -> Result<(), Fail> {
    let alloc = rt.alloc();
    let mut rack = MemRack::new(alloc);
    assert_eq!(rt; appends(alloc, &mut rack, 1, 1000)?, Some(Ok(())));
    assert_eq!(rt;
        appends(alloc, &mut rack, 1, 1000)?,
        Some(Err(LogAppend::LogFull))
    );
    assert_eq!(rt; appends(alloc, &mut rack, 2, 1000)?, Some(Ok(())));
    assert!(rt; overfull(alloc, &mut rack, 33));
    assert_eq!(rt; starts(&mut rack)?, Some(0));
    assert!(rt; opens(alloc, &mut rack, b""));
    Ok(())
}

/// Whether an opening over an area makes just so many calls of the rack: it fails where the rack is armed at one of them,
/// and else not.
fn opens_in(alloc: Global, area: Area, calls: u64) -> Result<bool, Memory>
    requires { calls < 10 }
{
    for call in 0..calls + 1 {
        let mut rack = holding(alloc, area_bytes(alloc, area)?);
        let want = if call < calls {
            Some(LogOpen::Failed)
        } else {
            None
        };
        if opens_at(alloc, &mut rack, call + 1) != want {
            return Ok(false);
        }
    }
    Ok(true)
}

// A sync, a read of the block and one of the gate behind it; and where the end isn't closed a write and a sync.
#[test]
fn an_opening_makes_three_calls_and_two_more_to_close_the_end(rt: HostRuntime) -> Result<(), Fail> {
    assert!(rt; opens_in(rt.alloc(), Area::Whole(1), 3)?);
    assert!(rt; opens_in(rt.alloc(), Area::Short(1), 5)?);
    Ok(())
}

#[test]
fn a_record_after_emptying_closes_what_is_behind_it(rt: HostRuntime) -> Result<(), Fail> {
    let alloc = rt.alloc();
    let mut rack = MemRack::new(alloc);
    let done = resets(alloc, &mut rack, &[[0xa1; 32], [0xb2; 32], [0xc3; 32]])?;
    assert_eq!(rt; done, Some((true, 1)));
    let mut want = vec![in alloc; 1]?;
    want.extend_from_slice(&[0xc3; 32])?;
    want.push(0)?;
    want.extend_from_slice(&[0xb2; 32])?;
    want.push(0)?;
    assert_eq!(rt; rack.bytes(0), want.as_slice());
    Ok(())
}

#[test]
fn the_first_records_are_read_and_more_are_told(rt: HostRuntime) -> Result<(), Fail> {
    let alloc = rt.alloc();
    let mut rack = MemRack::new(alloc);
    assert_eq!(rt; appends(alloc, &mut rack, 2, 1000)?, Some(Ok(())));
    assert_eq!(rt; appends(alloc, &mut rack, 2, 1000)?, Some(Ok(())));
    assert_eq!(rt; reads_at(alloc, &mut rack, 1, &TAG, true), Ok(true));
    let mut both = TAG.to_vec(alloc)?;
    both.extend_from_slice(&TAG)?;
    assert_eq!(rt; reads_at(alloc, &mut rack, 2, &both, false), Ok(true));
    Ok(())
}
