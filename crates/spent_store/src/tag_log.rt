// The log of an epoch: its area on the rack, and its tags in memory, in the order in which they were spent. Tags are
// looked for one by one.
ghost use Rattle.std.specs.Prelude.{◌≡◌, ◌≢◌, ℕ, ◌+◌, ◌^◌, ◌<◌, ◌≤◌, [], ◌∷◌, ◌++◌, length, true};
ghost use Rattle.std.specs.Prelude.{false, IsTrue, None, vec_len, vec_capacity, IfOk, OnOk, OnErr};
ghost use Rattle.std.specs.Prelude.{IfErr, IsErr, IsErrOf};
ghost use Rattle.std.specs.List.{list_any};
ghost use Rattle.std.specs.Str.{bytes_eq};
ghost use Rattle.replay_disk.specs.Disk.{area_at, contents_of, ReadsAnImage, Owes};
ghost use Rattle.gate_log.specs.Log.{AppendLeavesIn, ReadingLeaves, ClosingLeaves};
ghost use Rattle.gate_log.specs.Log.{OthersStayThrough, most_reads};
ghost use Rattle.spent_store.specs.Faults.{Refuses};
ghost use Rattle.spent_store.specs.Books as books;
ghost use Rattle.spent_store.specs.Books.{EpochLog, area_of};
ghost use Rattle.spent_store.specs.TagLogs.{TagLogState, LogStands, ReadTagsState, TagsWereRead};
ghost use Rattle.spent_store.specs.TagLogs.{epoch_log};

use crate::faults::OpenStore;
use crate::known::{distinct_count, has_tag};
use crate::logs::{read_log, tags_of};
use gate_log::{GateLog, LogAppend, ReadLog};
use mix_base::{Failed, Memory};
use replay_disk::Rack;
use std::alloc::Global;
use std::marker::Model;

/// The area that an epoch's log stands in: 1 for an even number, and 2 for an odd one.
pub fn area_of_epoch(epoch: u64) -> u8
    ensures value { result ≡ area_of epoch }
    ensures low { result < 3 }
{
    if epoch % 2 == 0 { 1 } else { 2 }
}

/// The log of an epoch that was read: its tags, and its area before anything is written.
#[derive(Drop)]
pub struct ReadTags {
    epoch: u64,
    tags: Vec<[u8; 32]>,
    log: ReadLog,
}

impl Model for ReadTags {
    ghost use Rattle.std.specs.Prelude.{◌≡◌, ◌^◌, ◌≤◌, vec_len};
    ghost use Rattle.spent_store.specs.Books.{area_of};
    ghost use Rattle.spent_store.specs.TagLogs.{ReadTagsState};

    ghost Value = { ReadTagsState };

    ghost view = { λ l. record { epoch = l.epoch; tags = l.tags.items; log = l.log } };

    ghost invariant = { λ l. (l.log.area ≡ area_of l.epoch) × (l.log.size ≡ 32)
        × (l.log.count ≡ vec_len l.tags) × (l.log.limit ≤ 2 ^ 26) × (l.log.count ≤ l.log.limit) };
}

impl ReadTags {
    /// Brings the log of an epoch to the disk and reads it; or says that it has more tags than the limit, which is 1 to
    /// 2^26. Nothing is written.
    pub fn read<R: Rack>(
        alloc: Global,
        rack: &mut R,
        epoch: u64,
        limit: u64,
    ) -> Result<ReadTags, OpenStore>
        requires limit { limit ≤ 2 ^ 26 }
        ensures epoch { IfOk result (λ read. read.epoch ≡ epoch) }
        ensures limit { IfOk result (λ read. read.log.limit ≡ limit) }
        ensures were_read { R.tells → IfOk result (λ read. TagsWereRead read (R.state rack.new)) }
        ensures fits { R.tells → OnOk result (books.overfull limit (area_of epoch) 32
            (contents_of (area_of epoch) (R.state rack.old)) ≡ None) }
        ensures objection { R.tells → IfErr result (λ fault. Refuses fault
            (books.overfull limit (area_of epoch) 32
            (contents_of (area_of epoch) (R.state rack.old)))) }
        ensures unwritten { R.tells → contents_of (area_of epoch) (R.state rack.new)
            ≡ contents_of (area_of epoch) (R.state rack.old) }
        ensures each_moment { R.tells →
            ReadingLeaves (area_of epoch) (R.state rack.old) (R.state rack.new) }
        ensures room { R.tells → (R.state rack.new).room ≡ (R.state rack.old).room }
        ensures owes { Owes (most_reads limit + 1) (IsErrOf result OpenStore.Failed)
            (R.state rack.old) (R.state rack.new) }
    {
        let log = read_log::<R, 32>(alloc, rack, limit, area_of_epoch(epoch))?;
        let tags = tags_of(alloc, log.records())?;
        Ok(ReadTags { epoch, tags, log })
    }

    /// Closes the end of the log, and gives it. Asks that the rack is as it was read, and room for one byte. Takes no
    /// memory.
    pub fn close<R: Rack>(self, rack: &mut R) -> Result<TagLog, Failed>
        requires were_read { R.tells → TagsWereRead self (R.state rack.old) }
        requires room { R.tells → 1 ≤ (R.state rack.old).room }
        ensures log { IfOk result (λ log. log ≡ record {
          epoch = self.epoch;
          tags = self.tags;
          limit = self.log.limit;
          is_sound = true;
          spare = log.spare;
        }) }
        ensures stands { R.tells → IfOk result (λ log. LogStands log (R.state rack.new).areas) }
        ensures each_moment { R.tells →
            ClosingLeaves (area_of self.epoch) 32 (R.state rack.old) (R.state rack.new) }
        ensures image { R.tells → ReadsAnImage (R.state rack.new).areas (area_of self.epoch) }
        ensures room { R.tells → (R.state rack.old).room ≤ (R.state rack.new).room + 1 }
        ensures owes { Owes 2 (IsErr result) (R.state rack.old) (R.state rack.new) }
    {
        let ReadTags { epoch, tags, log } = self;
        let log = log.close(rack)?.log;
        Ok(TagLog { epoch, tags, log })
    }

    /// The epoch.
    pub fn epoch(&self) -> u64
        ensures { result ≡ self.now.epoch }
    {
        self.epoch
    }
}

/// An epoch's log.
#[derive(Drop)]
pub struct TagLog {
    epoch: u64,
    tags: Vec<[u8; 32]>,
    log: GateLog,
}

impl Model for TagLog {
    ghost use Rattle.std.specs.Prelude.{◌≡◌, ◌-◌, ◌^◌, ◌≤◌, vec_len, vec_capacity};
    ghost use Rattle.spent_store.specs.Books.{area_of};
    ghost use Rattle.spent_store.specs.TagLogs.{TagLogState};

    ghost Value = { TagLogState };

    ghost view = { λ l. record {
      epoch = l.epoch;
      tags = l.tags.items;
      limit = l.log.limit;
      is_sound = l.log.sound;
      spare = vec_capacity l.tags - vec_len l.tags;
    } };

    ghost invariant = { λ l. (l.log.area ≡ area_of l.epoch) × (l.log.size ≡ 32)
        × (l.log.count ≡ vec_len l.tags) × (l.log.limit ≤ 2 ^ 26) × (l.log.count ≤ l.log.limit) };
}

impl TagLog {
    /// Takes the area of an epoch for a log without tags, whatever stood there. `tags` is empty, and its room is the
    /// log's. Asks a limit of 1 to 2^26, and room for one byte. Takes no memory.
    pub fn start<R: Rack>(
        rack: &mut R,
        epoch: u64,
        limit: u64,
        tags: Vec<[u8; 32]>,
    ) -> Result<TagLog, Failed>
        requires limit { limit ≤ 2 ^ 26 }
        requires empty { tags.items ≡ [] }
        requires room { R.tells → 1 ≤ (R.state rack.old).room }
        ensures log { IfOk result (λ log. log ≡ record {
          epoch = epoch;
          tags = [];
          limit = limit;
          is_sound = true;
          spare = vec_capacity tags;
        }) }
        ensures stands { R.tells → IfOk result (λ log. LogStands log (R.state rack.new).areas) }
        ensures others { R.tells →
            OthersStayThrough (area_of epoch) (R.state rack.old) (R.state rack.new) }
        ensures room { R.tells → (R.state rack.old).room ≤ (R.state rack.new).room + 1 }
        ensures owes { Owes 2 (IsErr result) (R.state rack.old) (R.state rack.new) }
    {
        let log = GateLog::start(rack, area_of_epoch(epoch), 32, limit)?;
        Ok(TagLog { epoch, tags, log })
    }

    /// Spends a tag. Asks a sound log that stands on the rack and has fewer tags than it may have, and room for one in
    /// memory and for 34 bytes on the rack. Takes no memory.
    pub fn append<R: Rack>(&mut self, rack: &mut R, tag: &[u8; 32]) -> Result<(), Failed>
        requires sound { IsTrue self.old.is_sound }
        requires fits { length self.old.tags < self.old.limit }
        requires spare { 0 < self.old.spare }
        requires stands { R.tells → LogStands self.old (R.state rack.old).areas }
        requires room { R.tells → 34 ≤ (R.state rack.old).room }
        ensures ok { OnOk result (self.new
            ≡ record self.old { tags = self.old.tags ++ tag.now ∷ []; spare = self.new.spare }) }
        ensures stands { R.tells → OnOk result (LogStands self.new (R.state rack.new).areas) }
        ensures each_moment { R.tells → AppendLeavesIn (area_of self.old.epoch) 32 (tag.now ∷ [])
            (R.state rack.old) (R.state rack.new) }
        ensures image { R.tells → ReadsAnImage (R.state rack.new).areas (area_of self.old.epoch) }
        ensures room { R.tells → (R.state rack.old).room ≤ (R.state rack.new).room + 34 }
        ensures failed { OnErr result (self.new ≡ record self.old { is_sound = false }) }
        ensures owes { Owes 4 (IsErr result) (R.state rack.old) (R.state rack.new) }
    {
        match self.log.append(rack, tag.as_slice()) {
            Ok(()) => {
                self.tags.push_reserved(*tag);
                Ok(())
            }
            Err(LogAppend::Failed) => Err(Failed),
            Err(LogAppend::LogFull) => unreachable!(),
        }
    }

    /// Makes room in memory for one tag more.
    pub fn reserve(&mut self) -> Result<(), Memory>
        ensures ok { OnOk result (0 < self.new.spare) }
        ensures same { self.new ≡ record self.old { spare = self.new.spare } }
        ensures no_lower { self.old.spare ≤ self.new.spare }
    {
        self.tags.reserve(1)?;
        Ok(())
    }

    /// The epoch.
    pub fn epoch(&self) -> u64
        ensures { result ≡ self.now.epoch }
    {
        self.epoch
    }

    /// How many tags are spent in the epoch.
    pub fn len(&self) -> u64
        ensures count { result ≡ length self.now.tags }
        ensures most { result ≤ 2 ^ 26 }
    {
        self.log.count()
    }

    /// Whether a tag is spent in the epoch.
    pub fn has(&self, tag: &[u8; 32]) -> bool
        ensures { result ≡ list_any (λ other. bytes_eq other tag.now) self.now.tags }
    {
        has_tag(&self.tags, tag)
    }

    /// How many different tags are spent in the epoch.
    pub fn spent(&self) -> u64
        ensures value { result ≡ books.distinct_count self.now.tags }
        ensures bound { result ≤ 2 ^ 26 }
    {
        distinct_count(&self.tags)
    }
}
