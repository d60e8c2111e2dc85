// Opening a log in two parts. The reading brings the area to the disk, reads its records, and writes nothing. The
// closing puts a closed gate behind them where none stands, and takes no memory.
ghost use Rattle.std.specs.Prelude.{◌≡◌, ◌≢◌, ℕ, ◌+◌, ◌*◌, ◌<◌, ◌≤◌, ◌^◌, length, true, IsTrue};
ghost use Rattle.std.specs.Prelude.{IfOk, OnOk, IfErr, IsErr, IsErrOf};
ghost use Rattle.replay_disk.specs.Disk.{RackState, contents_of, ReadsAnImage, ContentsAreImages};
ghost use Rattle.replay_disk.specs.Disk.{MadeNoCall, Owes};
ghost use Rattle.gate_log.specs.Faults.{IfOverfull};
ghost use Rattle.gate_log.specs.Log.{ReadState, WasRead, sound_log, Stands, ReadingLeaves};
ghost use Rattle.gate_log.specs.Log.{ClosingLeaves, most_reads};
ghost use Rattle.gate_log.specs.Records.{ClosesEnd};

use super::scan::{Front, Gate, read_front};
use super::steps::close_end;
use crate::{GateLog, LogOpen, OpenedLog};
use mix_base::{Bytes, Failed};
use replay_disk::Rack;
use std::alloc::Global;
use std::marker::Model;

/// What stands in the area of a log, before anything is written: its records, and whether its end is closed.
#[derive(Drop)]
pub struct ReadLog {
    area: u8,
    size: usize,
    limit: u64,
    count: u64,
    closed: bool,
    records: Bytes,
}

impl Model for ReadLog {
    ghost use Rattle.std.specs.Prelude.{◌<◌, ◌≤◌, ◌^◌};
    ghost use Rattle.gate_log.specs.Log.{ReadState};

    ghost Value = { ReadState };

    ghost view = { λ l. record {
      area = l.area;
      size = l.size;
      limit = l.limit;
      count = l.count;
      closed = l.closed;
      records = l.records;
    } };

    ghost invariant = { λ l. (l.area < 3) × (0 < l.size) × (l.size ≤ 63) × (l.limit ≤ 2 ^ 26)
        × (l.count ≤ l.limit) };
}

impl ReadLog {
    /// Brings an area to the disk and reads the records of the log on it. Writes nothing. Asks an area below 3, a size of
    /// 1 to 63 bytes and a limit of 1 to 2^26 records.
    pub fn read<R: Rack>(
        alloc: Global,
        rack: &mut R,
        area: u8,
        size: usize,
        limit: u64,
    ) -> Result<ReadLog, LogOpen>
        requires area { area < 3 }
        requires some { 0 < size }
        requires size { size ≤ 63 }
        requires limit { limit ≤ 2 ^ 26 }

        // The rack is as it was read.
        ensures was_read { R.tells → IfOk result (λ read. WasRead read (R.state rack.new)) }
        ensures log { IfOk result (λ read.
            read ≡ record read { area = area; size = size; limit = limit }) }
        ensures within { IfOk result (λ read. read.count ≤ limit) }
        ensures whole { IfOk result (λ read. length read.records ≡ size * read.count) }
        ensures overfull { R.tells →
            IfErr result (IfOverfull size limit (contents_of area (R.state rack.old))) }

        // Nothing is written, whatever the answer: a crash leaves at every moment what it might have left before.
        ensures unwritten { R.tells →
            contents_of area (R.state rack.new) ≡ contents_of area (R.state rack.old) }
        ensures each_moment { R.tells → ReadingLeaves area (R.state rack.old) (R.state rack.new) }
        ensures image { R.tells → ReadsAnImage (R.state rack.new).areas area }
        ensures images { R.tells → ContentsAreImages (R.state rack.old).areas }
        ensures room { R.tells → (R.state rack.new).room ≡ (R.state rack.old).room }
        ensures owes { Owes (most_reads limit + 1) (IsErrOf result LogOpen.Failed)
            (R.state rack.old) (R.state rack.new) }
    {
        rack.sync(area)?;
        let front = read_front(alloc, rack, area, size, limit)?;
        match front.gate {
            Gate::Record => Err(LogOpen::Overfull {
                at: front.count * (size as u64 + 1),
            }),
            Gate::Closed => Ok(ReadLog::of(area, size, limit, front, true)),
            Gate::Open => Ok(ReadLog::of(area, size, limit, front, false)),
        }
    }

    fn of(area: u8, size: usize, limit: u64, front: Front, closed: bool) -> ReadLog
        requires area { area < 3 }
        requires some { 0 < size }
        requires size { size ≤ 63 }
        requires limit { limit ≤ 2 ^ 26 }
        requires count { front.count ≤ limit }
        ensures { result ≡ record {
          area = area;
          size = size;
          limit = limit;
          count = front.count;
          closed = closed;
          records = front.records.items;
        } }
    {
        let Front { records, count, .. } = front;
        ReadLog {
            area,
            size,
            limit,
            count,
            closed,
            records: Bytes::of(records),
        }
    }

    /// How many records stand there.
    pub fn count(&self) -> u64
        ensures count { result ≡ self.now.count }
        ensures within { result ≤ self.now.limit }
    {
        self.count
    }

    /// The records, one after the other.
    pub fn records(&self) -> &[u8]
        ensures { result.now ≡ self.now.records }
    {
        self.records.as_slice()
    }

    /// Whether the end is closed, so that closing it writes nothing.
    pub fn is_closed(&self) -> bool
        ensures { result ≡ self.now.closed }
    {
        self.closed
    }

    /// Closes the end, and gives the log. Asks that the rack is as the log was read, and room for one byte. Takes no
    /// memory.
    pub fn close<R: Rack>(self, rack: &mut R) -> Result<OpenedLog, Failed>
        requires was_read { R.tells → WasRead self (R.state rack.old) }
        requires room { R.tells → 1 ≤ (R.state rack.old).room }

        // The log has the records that were read, and stands on the rack.
        ensures records { IfOk result (λ opened. opened.records ≡ self.records) }
        ensures log { IfOk result (λ opened.
            opened.log ≡ sound_log self.area self.size self.limit self.count) }
        ensures stands { R.tells → IfOk result (λ opened. Stands opened.log (R.state rack.new)) }

        // One byte is written, 00 at the end place, and none where the end is closed.
        ensures contents { R.tells → OnOk result (ClosesEnd self.size
            (contents_of self.area (R.state rack.old)) (contents_of self.area (R.state rack.new))) }
        ensures closed { IsTrue self.closed → MadeNoCall (R.state rack.old) (R.state rack.new) }

        // At every moment a crash leaves the records that were read.
        ensures each_moment { R.tells →
            ClosingLeaves self.area self.size (R.state rack.old) (R.state rack.new) }
        ensures image { R.tells → ReadsAnImage (R.state rack.new).areas self.area }
        ensures room { R.tells → (R.state rack.old).room ≤ (R.state rack.new).room + 1 }
        ensures owes { Owes 2 (IsErr result) (R.state rack.old) (R.state rack.new) }
    {
        close_end(rack, self.area, self.size, self.count, self.closed)?;
        Ok(self.opened())
    }

    /// The log that was read.
    fn opened(self) -> OpenedLog
        ensures records { result.records ≡ self.records }
        ensures log { result.log ≡ sound_log self.area self.size self.limit self.count }
    {
        let ReadLog {
            area,
            size,
            limit,
            count,
            records,
            ..
        } = self;
        OpenedLog {
            log: GateLog::sound(area, size, limit, count),
            records,
        }
    }
}
