// The log itself: opening what a crash may have left, appending, and emptying. A log is sound until a call on its
// rack fails; then it is opened again.
ghost use Rattle.std.specs.Prelude.{◌≡◌, ◌≢◌, ℕ, ◌+◌, ◌*◌, ◌<◌, ◌≤◌, ◌^◌, ◌↔◌, ◌++◌, [], ◌∷◌};
ghost use Rattle.std.specs.Prelude.{length, take, true, false, IsTrue, IfOk, IfErr, OnOk, OnErr};
ghost use Rattle.std.specs.Prelude.{IsErr, IsErrOf};
ghost use Rattle.std.specs.List.{concat};
ghost use Rattle.replay_disk.specs.Disk.{RackState, contents_of, ReadsAnImage, MadeNoCall};
ghost use Rattle.replay_disk.specs.Disk.{OnlyRead, Owes};
ghost use Rattle.gate_log.specs.Faults.{IfOverfull};
ghost use Rattle.gate_log.specs.Log.{LogState, sound_log, Stands, AppendLeaves, ResetLeaves};
ghost use Rattle.gate_log.specs.Log.{OpeningLeaves, OthersStayThrough, records_of, most_reads};
ghost use Rattle.gate_log.specs.Records.{records, with_records, emptied, ClosesEnd};

use super::scan::read_front;
use super::steps::{CLOSED, append_at, write_synced};
use crate::{LogAppend, LogOpen, LogRead, ReadLog};
use mix_base::{Bytes, Failed};
use replay_disk::Rack;
use std::alloc::Global;
use std::marker::Model;

/// A log of records of one size on one area.
#[derive(Drop)]
pub struct GateLog {
    area: u8,
    size: usize,
    limit: u64,
    count: u64,
    sound: bool,
}

impl Model for GateLog {
    ghost use Rattle.std.specs.Prelude.{◌<◌, ◌≤◌, ◌^◌};
    ghost use Rattle.gate_log.specs.Log.{LogState};

    ghost Value = { LogState };

    ghost view = { λ l. record {
      area = l.area;
      size = l.size;
      limit = l.limit;
      count = l.count;
      sound = l.sound;
    } };

    ghost invariant = { λ l. (l.area < 3) × (0 < l.size) × (l.size ≤ 63) × (l.limit ≤ 2 ^ 26)
        × (l.count ≤ l.limit) };
}

/// A log that was opened, with its records one after the other.
#[derive(Drop)]
pub struct OpenedLog {
    pub log: GateLog,
    pub records: Bytes,
}

/// The first records of an area, one after the other, and whether there are more.
#[derive(Drop)]
pub struct ReadRecords {
    pub records: Bytes,
    pub more: bool,
}

impl GateLog {
    /// Opens the log on an area: reads its records, and closes its end where no closed gate stands there. Asks an
    /// area below 3, a size of 1 to 63 bytes and a limit of 1 to 2^26 records.
    pub fn open<R: Rack>(
        alloc: Global,
        rack: &mut R,
        area: u8,
        size: usize,
        limit: u64,
    ) -> Result<OpenedLog, LogOpen>
        requires area { area < 3 }
        requires some { 0 < size }
        requires size { size ≤ 63 }
        requires limit { limit ≤ 2 ^ 26 }

        // The records are those that were there, and the log stands on the rack.
        ensures records { R.tells → IfOk result (λ opened.
            opened.records ≡ concat (records size (contents_of area (R.state rack.old)))) }
        ensures kept { R.tells → OnOk result (records size (contents_of area (R.state rack.new))
            ≡ records size (contents_of area (R.state rack.old))) }
        ensures stands { R.tells → IfOk result (λ opened. Stands opened.log (R.state rack.new)) }
        ensures log { IfOk result (λ opened.
            opened.log ≡ sound_log area size limit opened.log.count) }
        ensures within { IfOk result (λ opened. opened.log.count ≤ limit) }
        ensures whole { IfOk result (λ opened. length opened.records ≡ size * opened.log.count) }
        ensures overfull { R.tells →
            IfErr result (IfOverfull size limit (contents_of area (R.state rack.old))) }

        // One byte is written, 00 at the end place, and none where the end is closed or where it is refused.
        ensures contents { R.tells → OnOk result (ClosesEnd size
            (contents_of area (R.state rack.old)) (contents_of area (R.state rack.new))) }
        ensures unwritten { R.tells → IfErr result (λ fault. fault ≢ LogOpen.Failed →
            contents_of area (R.state rack.new) ≡ contents_of area (R.state rack.old)) }

        // At every moment a crash leaves the records of an image that was there before.
        ensures each_moment { R.tells →
            OpeningLeaves area size (R.state rack.old) (R.state rack.new) }
        ensures image { R.tells → ReadsAnImage (R.state rack.new).areas area }
        ensures room { R.tells → (R.state rack.old).room ≤ (R.state rack.new).room + 1 }
        ensures owes { Owes (most_reads limit + 3) (IsErrOf result LogOpen.Failed)
            (R.state rack.old) (R.state rack.new) }
    {
        let read = ReadLog::read(alloc, rack, area, size, limit)?;
        rack.room(1)?;
        Ok(read.close(rack)?)
    }

    /// The first `limit` records of an area, one after the other, as a log on it would have them, and whether there are
    /// more. Nothing is written, nor brought to the disk. Asks what `open` asks.
    pub fn read_records<R: Rack>(
        alloc: Global,
        rack: &mut R,
        area: u8,
        size: usize,
        limit: u64,
    ) -> Result<ReadRecords, LogRead>
        requires area { area < 3 }
        requires some { 0 < size }
        requires size { size ≤ 63 }
        requires limit { limit ≤ 2 ^ 26 }
        ensures records { R.tells → IfOk result (λ found. found.records
            ≡ concat (take limit (records size (contents_of area (R.state rack.old))))) }
        ensures more { R.tells → IfOk result (λ found. IsTrue found.more
            ↔ (limit < length (records size (contents_of area (R.state rack.old))))) }
        ensures short { IfOk result (λ found. length found.records ≤ size * limit) }
        ensures same { OnlyRead (R.state rack.old) (R.state rack.new) }
        ensures image { R.tells → ReadsAnImage (R.state rack.new).areas area }
        ensures owes { Owes (most_reads limit) (IsErrOf result LogRead.Failed)
            (R.state rack.old) (R.state rack.new) }
    {
        let front = read_front(alloc, rack, area, size, limit)?;
        Ok(ReadRecords {
            records: Bytes::of(front.records),
            more: front.gate.is_record(),
        })
    }

    /// Takes an area for a log that is empty, whatever stood there. Asks what `open` asks, and room for one byte.
    /// Takes no memory.
    pub fn start<R: Rack>(
        rack: &mut R,
        area: u8,
        size: usize,
        limit: u64,
    ) -> Result<GateLog, Failed>
        requires area { area < 3 }
        requires some { 0 < size }
        requires size { size ≤ 63 }
        requires limit { limit ≤ 2 ^ 26 }
        requires room { R.tells → 1 ≤ (R.state rack.old).room }

        // The log is empty, and stands on the rack.
        ensures log { IfOk result (λ log. log ≡ sound_log area size limit 0) }
        ensures emptied { R.tells →
            OnOk result (records size (contents_of area (R.state rack.new)) ≡ []) }
        ensures contents { R.tells → OnOk result
            (contents_of area (R.state rack.new) ≡ emptied (contents_of area (R.state rack.old))) }
        ensures stands { R.tells → IfOk result (λ log. Stands log (R.state rack.new)) }

        ensures others { R.tells → OthersStayThrough area (R.state rack.old) (R.state rack.new) }
        ensures image { R.tells → ReadsAnImage (R.state rack.new).areas area }
        ensures room { R.tells → (R.state rack.old).room ≤ (R.state rack.new).room + 1 }
        ensures owes { Owes 2 (IsErr result) (R.state rack.old) (R.state rack.new) }
    {
        write_synced(rack, area, 0, &[CLOSED])?;
        Ok(GateLog::sound(area, size, limit, 0))
    }

    /// Appends a record of the log's size. Asks a sound log that stands on the rack, and room for the record and two
    /// bytes. Makes at most four calls of the rack. Takes no memory.
    pub fn append<R: Rack>(&mut self, rack: &mut R, bytes: &[u8]) -> Result<(), LogAppend>
        requires sound { IsTrue self.old.sound }
        requires size { length bytes.now ≡ self.old.size }
        requires stands { R.tells → Stands self.old (R.state rack.old) }
        requires room { R.tells → self.old.size + 2 ≤ (R.state rack.old).room }

        // After Ok the record is there, between an open gate and a closed one.
        ensures appended { R.tells → OnOk result (records_of self.old (R.state rack.new)
            ≡ records_of self.old (R.state rack.old) ++ bytes.now ∷ []) }
        ensures contents { R.tells → OnOk result (contents_of self.old.area (R.state rack.new)
            ≡ with_records self.old.size (bytes.now ∷ [])
            (contents_of self.old.area (R.state rack.old))) }
        ensures stands { R.tells → OnOk result (Stands self.new (R.state rack.new)) }
        ensures counted { OnOk result (self.new ≡ record self.old { count = self.old.count + 1 }) }

        // A full log is refused, and nothing is done.
        ensures full { IsErrOf result LogAppend.LogFull ↔ (self.old.count ≡ self.old.limit) }
        ensures full_log { IsErrOf result LogAppend.LogFull → self.new ≡ self.old }
        ensures full_rack { IsErrOf result LogAppend.LogFull →
            MadeNoCall (R.state rack.old) (R.state rack.new) }

        // At every moment a crash leaves the old records, or these and the new one.
        ensures each_moment { R.tells →
            AppendLeaves self.old (bytes.now ∷ []) (R.state rack.old) (R.state rack.new) }
        ensures image { R.tells → ReadsAnImage (R.state rack.new).areas self.old.area }
        ensures room { R.tells →
            (R.state rack.old).room ≤ (R.state rack.new).room + self.old.size + 2 }

        // It fails only where the rack did, and must then be opened again.
        ensures failed_log { IsErrOf result LogAppend.Failed →
            self.new ≡ record self.old { sound = false } }
        ensures owes { Owes 4 (IsErrOf result LogAppend.Failed)
            (R.state rack.old) (R.state rack.new) }
    {
        if self.count == self.limit {
            return Err(LogAppend::LogFull);
        }
        let place = self.count * (self.size as u64 + 1);
        match append_at(rack, self.area, place, bytes) {
            Ok(()) => {
                self.count += 1;
                Ok(())
            }
            Err(Failed) => {
                self.sound = false;
                Err(LogAppend::Failed)
            }
        }
    }

    /// Empties the log. Asks a sound log that stands on the rack, and room for one byte. Takes no memory.
    pub fn reset<R: Rack>(&mut self, rack: &mut R) -> Result<(), Failed>
        requires sound { IsTrue self.old.sound }
        requires stands { R.tells → Stands self.old (R.state rack.old) }
        requires room { R.tells → 1 ≤ (R.state rack.old).room }

        // After Ok there is no record: a closed gate stands first.
        ensures emptied { R.tells → OnOk result (records_of self.old (R.state rack.new) ≡ []) }
        ensures contents { R.tells → OnOk result (contents_of self.old.area (R.state rack.new)
            ≡ emptied (contents_of self.old.area (R.state rack.old))) }
        ensures stands { R.tells → OnOk result (Stands self.new (R.state rack.new)) }
        ensures log { OnOk result (self.new ≡ record self.old { count = 0 }) }

        // Where there was a record, a crash leaves at every moment the old records or none.
        ensures each_moment { R.tells → 0 < self.old.count →
            ResetLeaves self.old (R.state rack.old) (R.state rack.new) }
        ensures others { R.tells →
            OthersStayThrough self.old.area (R.state rack.old) (R.state rack.new) }
        ensures image { R.tells → ReadsAnImage (R.state rack.new).areas self.old.area }
        ensures room { R.tells → (R.state rack.old).room ≤ (R.state rack.new).room + 1 }

        // It fails only where the rack did, and must then be opened again.
        ensures failed_log { OnErr result (self.new ≡ record self.old { sound = false }) }
        ensures owes { Owes 2 (IsErr result) (R.state rack.old) (R.state rack.new) }
    {
        match write_synced(rack, self.area, 0, &[CLOSED]) {
            Ok(()) => {
                self.count = 0;
                Ok(())
            }
            Err(failed) => {
                self.sound = false;
                Err(failed)
            }
        }
    }

    /// How many records the log has.
    pub fn count(&self) -> u64
        ensures count { result ≡ self.now.count }
        ensures within { result ≤ self.now.limit }
    {
        self.count
    }

    /// Whether no call on the log's rack has failed since it was opened or started.
    pub fn is_sound(&self) -> bool
        ensures { result ≡ self.now.sound }
    {
        self.sound
    }

    /// A sound log over what was read or made.
    pub(crate) fn sound(area: u8, size: usize, limit: u64, count: u64) -> GateLog
        requires area { area < 3 }
        requires some { 0 < size }
        requires size { size ≤ 63 }
        requires limit { limit ≤ 2 ^ 26 }
        requires count { count ≤ limit }
        ensures { result ≡ sound_log area size limit count }
    {
        GateLog {
            area,
            size,
            limit,
            count,
            sound: true,
        }
    }
}
