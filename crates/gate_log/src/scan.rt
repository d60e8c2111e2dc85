// Reading the records of an area from its front, as many as a log may have, in blocks.
ghost use Rattle.std.specs.Prelude.{◌≡◌, ◌↔◌, IsTrue, ℕ, ◌+◌, ◌-◌, ◌*◌, ◌/◌, ◌<◌, ◌≤◌, ◌^◌, ◌++◌};
ghost use Rattle.std.specs.Prelude.{length, take, drop, min, vec_len, IfOk, OnOk, IsErr, IsErrOf};
ghost use Rattle.std.specs.List.{concat};
ghost use Rattle.replay_disk.specs.Disk.{contents_of, ReadsAnImage, OnlyRead, Owes};
ghost use Rattle.gate_log.specs.Log.{most_reads};
ghost use Rattle.gate_log.specs.Records.{records};
ghost use Rattle.gate_log.specs.Scanning.{gate_of, IsFront};

use super::steps::OPEN;
use crate::LogRead;
use mix_base::Failed;
use replay_disk::Rack;
use std::alloc::{AllocError, Global};

/// What stands at a place where a gate byte may be.
#[derive(Clone, Copy, Debug, PartialEq, Eq)]
pub enum Gate {
    /// An open gate with a whole record and one byte more behind it.
    Record,
    /// A byte other than an open gate.
    Closed,
    /// No byte, or an open gate with no whole record behind it.
    Open,
}

impl Gate {
    /// Whether a record stands behind it.
    pub fn is_record(self) -> bool
        ensures { IsTrue result ↔ (self ≡ Gate.Record) }
    {
        match self {
            Gate::Record => true,
            Gate::Closed | Gate::Open => false,
        }
    }
}

/// The first records of an area.
#[derive(Drop)]
pub struct Front {
    /// The records, one after the other.
    pub records: Vec<u8>,
    pub count: u64,
    /// What stands behind them.
    pub gate: Gate,
}

/// Reads the first `limit` records of an area and the gate behind them.
pub fn read_front<R: Rack>(
    alloc: Global,
    rack: &mut R,
    area: u8,
    size: usize,
    limit: u64,
) -> Result<Front, LogRead>
    requires area { area < 3 }
    requires some { 0 < size }
    requires size { size ≤ 63 }
    requires limit { limit ≤ 2 ^ 26 }
    ensures front { R.tells →
        IfOk result (IsFront size limit (contents_of area (R.state rack.old))) }
    ensures within { IfOk result (λ front. front.count ≤ limit) }
    ensures whole { IfOk result (λ front. vec_len front.records ≡ size * front.count) }
    ensures same { OnlyRead (R.state rack.old) (R.state rack.new) }
    ensures image { R.tells → ReadsAnImage (R.state rack.new).areas area }
    ensures owes { Owes (most_reads limit) (IsErrOf result LogRead.Failed)
        (R.state rack.old) (R.state rack.new) }
{
    let mut records = Vec::new(alloc);
    let count = read_blocks(rack, area, size, limit, &mut records)?;
    let gate = gate_at(rack, area, size, count * (size as u64 + 1))?;
    Ok(Front {
        records,
        count,
        gate,
    })
}

/// Reads the first `limit` records of an area, 128 at a time, and answers how many.
fn read_blocks<R: Rack>(
    rack: &mut R,
    area: u8,
    size: usize,
    limit: u64,
    found: &mut Vec<u8>,
) -> Result<u64, LogRead>
    requires area { area < 3 }
    requires size { size ≤ 63 }
    requires limit { limit ≤ 2 ^ 26 }
    requires none { vec_len found.old ≡ 0 }
    ensures count { R.tells → IfOk result (λ n.
        n ≡ min limit (length (records size (contents_of area (R.state rack.old))))) }
    ensures found { R.tells → IfOk result (λ n.
        found.new.items ≡ concat (take n (records size (contents_of area (R.state rack.old))))) }
    ensures within { IfOk result (λ n. n ≤ limit) }
    ensures whole { IfOk result (λ n. vec_len found.new ≡ size * n) }
    ensures same { OnlyRead (R.state rack.old) (R.state rack.new) }
    ensures image { R.tells → ReadsAnImage (R.state rack.new).areas area }
    ensures owes { Owes (limit / 128 + 1) (IsErrOf result LogRead.Failed)
        (R.state rack.old) (R.state rack.new) }
{
    let mut buf = [0; 8193];
    for block in 0..limit / 128 + 1 {
        let count = block * 128;
        let most = (limit - count).min(128);
        let taken = read_block(rack, area, size, count, most, &mut buf, found)?;
        if taken < 128 {
            return Ok(count + taken);
        }
    }
    // Never here: the last block has room for fewer than 128 records.
    Ok(limit)
}

/// Reads records behind the first ones of an area, at most so many, and answers how many. Asks a buffer with room for 128
/// of them and one byte more.
fn read_block<R: Rack>(
    rack: &mut R,
    area: u8,
    size: usize,
    count: u64,
    most: u64,
    buf: &mut [u8],
    found: &mut Vec<u8>,
) -> Result<u64, LogRead>
    requires area { area < 3 }
    requires size { size ≤ 63 }
    requires most { most ≤ 128 }
    requires range { count * (size + 1) + length buf.old ≤ 2 ^ 40 }
    requires long { 128 * (size + 1) + 1 ≤ length buf.old }
    requires there { R.tells → count ≤ length (records size (contents_of area (R.state rack.old))) }
    requires so_far { R.tells →
        found.old.items ≡ concat (take count (records size (contents_of area (R.state rack.old)))) }
    ensures taken { R.tells → IfOk result (λ n.
        n ≡ min most (length (records size (contents_of area (R.state rack.old))) - count)) }
    ensures found { R.tells → IfOk result (λ n. found.new.items
        ≡ concat (take (count + n) (records size (contents_of area (R.state rack.old))))) }
    ensures within { IfOk result (λ n. n ≤ most) }
    ensures whole { IfOk result (λ n. vec_len found.new ≡ vec_len found.old + size * n) }
    ensures long { length buf.new ≡ length buf.old }
    ensures same { OnlyRead (R.state rack.old) (R.state rack.new) }
    ensures image { R.tells → ReadsAnImage (R.state rack.new).areas area }
    ensures no_fault { OnOk result ((R.state rack.new).faults ≡ (R.state rack.old).faults) }
    ensures owes { Owes 1 (IsErrOf result LogRead.Failed) (R.state rack.old) (R.state rack.new) }
{
    let bytes = rack.read(area, count * (size as u64 + 1), buf)?;
    let taken = copy_records(&buf[..bytes], size, most, found)?;
    Ok(taken)
}

/// Copies the records at the front of these bytes behind others, at most so many, and answers how many.
fn copy_records(
    bytes: &[u8],
    size: usize,
    most: u64,
    found: &mut Vec<u8>,
) -> Result<u64, AllocError>
    requires size { size ≤ 63 }
    ensures count { IfOk result (λ n. n ≡ min most (length (records size bytes.now))) }
    ensures found { IfOk result (λ n.
        found.new.items ≡ found.old.items ++ concat (take n (records size bytes.now))) }
    ensures whole { IfOk result (λ n. vec_len found.new ≡ vec_len found.old + size * n) }
    ensures within { IfOk result (λ n. n ≤ most) }
{
    let mut rest = bytes;
    for count in 0..most {
        match gate_in(rest, size) {
            Gate::Record => {
                found.extend_from_slice(&rest[1..size + 1])?;
                rest = &rest[size + 1..];
            }
            _ => return Ok(count),
        }
    }
    Ok(most)
}

/// What stands at a place of an area where a gate byte may be.
fn gate_at<R: Rack>(rack: &mut R, area: u8, size: usize, at: u64) -> Result<Gate, Failed>
    requires area { area < 3 }
    requires size { size ≤ 63 }
    requires range { at + size + 2 ≤ 2 ^ 40 }
    ensures gate { R.tells →
        IfOk result (λ gate. gate ≡ gate_of size (drop at (contents_of area (R.state rack.old)))) }
    ensures same { OnlyRead (R.state rack.old) (R.state rack.new) }
    ensures image { R.tells → ReadsAnImage (R.state rack.new).areas area }
    ensures owes { Owes 1 (IsErr result) (R.state rack.old) (R.state rack.new) }
{
    let mut buf = [0; 65];
    let count = rack.read(area, at, &mut buf[..size + 2])?;
    Ok(gate_in(&buf[..count], size))
}

/// What stands at the front of these bytes.
fn gate_in(bytes: &[u8], size: usize) -> Gate
    ensures { result ≡ gate_of size bytes.now }
{
    match bytes.split_first() {
        None => Gate::Open,
        Some((gate, behind)) => {
            if *gate != OPEN {
                Gate::Closed
            } else if behind.len() > size {
                Gate::Record
            } else {
                Gate::Open
            }
        }
    }
}
