// A store that was found on a rack: all that an opening reads, judges and takes memory for, before it writes a byte; and
// the writes that make a store of it, which take no memory.
ghost use Rattle.std.specs.Prelude.{◌≡◌, ℕ, ◌+◌, ◌*◌, ◌^◌, ◌<◌, ◌≤◌, ◌==◌, max, [], ◌∷◌, ◌++◌};
ghost use Rattle.std.specs.Prelude.{length, map, true, Some, None, Ok, Contains, IfOk, OnOk, OnErr};
ghost use Rattle.std.specs.Prelude.{IfErr, IsErr, IsErrOf, vec_len, vec_capacity};
ghost use Rattle.std.specs.Option.{option_map};
ghost use Rattle.std.specs.Result.{result_err};
ghost use Rattle.mix_base.specs.Shards.{IsShape};
ghost use Rattle.replay_disk.specs.Disk.{contents_of, ContentsAreImages, ReadsAnImage, Owes};
ghost use Rattle.replay_disk.specs.Moments.{AtEachMoment};
ghost use Rattle.gate_log.specs.Log as gate;
ghost use Rattle.gate_log.specs.Log.{sound_log, OthersStay, WasRead, most_reads};
ghost use Rattle.gate_log.specs.Records.{records};
ghost use Rattle.spent_store.specs.Faults.{Refuses};
ghost use Rattle.spent_store.specs.Books as books;
ghost use Rattle.spent_store.specs.Books.{area_of};
ghost use Rattle.spent_store.specs.Changes as changes;
ghost use Rattle.spent_store.specs.Changes.{made};
ghost use Rattle.spent_store.specs.Found.{IsFound, NothingNewThrough, Making, MakingLeaves, Rests};
ghost use Rattle.spent_store.specs.Found.{IsInArea, IfRead, IfClosed, IfStands, ClosesLog};
ghost use Rattle.spent_store.specs.Found.{made_records, listed, in_order, epoch_in, begins_in_two};
ghost use Rattle.spent_store.specs.Stores.{SameContents, Stands, as_read, begun_on, book_in};
ghost use Rattle.spent_store.specs.TagLogs.{ReadTagsState, epoch_log, read_log};

use super::SpentStore;
use crate::faults::OpenStore;
use crate::logs::{read_log, roots_of};
use crate::root::RootRecord;
use crate::standing::judge_root;
use crate::tag_log::{ReadTags, TagLog, area_of_epoch};
use gate_log::{GateLog, LogAppend, ReadLog};
use mix_base::{Failed, History, Shape};
use replay_disk::Rack;
use std::alloc::Global;
use std::marker::Model;

/// What an opening finds before it writes. `second_first` says whether the log of area 2 began before that of area 1;
/// `logs` is empty, with room for both.
#[derive(Drop)]
pub struct FoundStore {
    shape: Shape,
    limit: u64,
    floor: u64,
    roots: History<RootRecord>,
    root: ReadLog,
    one: Option<ReadTags>,
    two: Option<ReadTags>,
    second_first: bool,
    logs: Vec<TagLog>,
}

impl Model for FoundStore {
    ghost use Rattle.std.specs.Prelude.{◌≡◌, ◌^◌, ◌<◌, ◌≤◌, [], length, map, vec_capacity};
    ghost use Rattle.spent_store.specs.Found.{FoundState, IsInArea, in_order};
    ghost use Rattle.spent_store.specs.Root.{AreNear};
    ghost use Rattle.spent_store.specs.TagLogs.{read_log};

    ghost Value = { FoundState };

    ghost view = { λ s. record {
      shape = s.shape;
      limit = s.limit;
      book = record {
        floor = s.floor;
        logs = map read_log (in_order s.second_first s.one s.two);
        roots = s.roots.items;
      };
      root = s.root;
      one = s.one;
      two = s.two;
    } };

    ghost invariant = { λ s. (s.limit ≤ 2 ^ 26)
        × (0 < s.limit)
        × (s.root.area ≡ 0)
        × (s.root.size ≡ 9)
        × (s.root.limit ≡ s.limit)
        × (s.root.count ≡ length s.roots.items)
        × IsInArea 1 s.limit s.one
        × IsInArea 2 s.limit s.two
        × AreNear s.floor (map (λ log. log.epoch) (in_order s.second_first s.one s.two))
        × (s.logs.items ≡ [])
        × (2 ≤ vec_capacity s.logs) };
}

impl FoundStore {
    /// Reads the store of a rack, and judges it. Each area that it uses is brought to the disk; nothing is written. Makes
    /// the room for the writes to come.
    pub fn read<R: Rack>(
        alloc: Global,
        rack: &mut R,
        shape: &Shape,
        limit: u64,
    ) -> Result<FoundStore, OpenStore>
        requires some { 0 < limit }
        requires limit { limit ≤ 2 ^ 26 }
        ensures asked { IfOk result (λ found. (found.shape ≡ shape.now) × (found.limit ≡ limit)) }
        ensures found { R.tells → IfOk result (λ found. IsFound found (R.state rack.new)) }
        ensures book { R.tells → IfOk result (λ found.
            book_in (R.state rack.old).areas shape.now limit ≡ Ok found.book) }
        ensures room { R.tells → OnOk result (14 ≤ (R.state rack.new).room) }
        ensures objection { R.tells → IfErr result (λ fault.
            Refuses fault (result_err (book_in (R.state rack.old).areas shape.now limit))) }
        ensures unwritten { R.tells →
            SameContents (R.state rack.old).areas (R.state rack.new).areas }
        ensures each_moment { R.tells →
            NothingNewThrough (begun_on (R.state rack.old)) (R.state rack.old) (R.state rack.new) }
        ensures images { R.tells → ContentsAreImages (R.state rack.old).areas }
        ensures owes { Owes (3 * most_reads limit + 4) (IsErrOf result OpenStore.Failed)
            (R.state rack.old) (R.state rack.new) }
    {
        let size = rack.length(0)?;
        let root = read_log::<R, 9>(alloc, rack, limit, 0)?;
        let roots = roots_of(alloc, root.records())?;
        let standing = judge_root(alloc, shape, size, &roots)?;
        let one = read_epoch(alloc, rack, limit, 1, &standing.begun)?;
        let two = read_epoch(alloc, rack, limit, 2, &standing.begun)?;
        let logs = Vec::with_capacity(alloc, 2)?;
        rack.room(14)?;
        Ok(FoundStore {
            shape: *shape,
            limit,
            floor: standing.floor,
            roots: history_of(&roots),
            root,
            one,
            two,
            second_first: starts_in_two(&standing.begun),
            logs,
        })
    }

    /// Makes the store, which stands on the rack: the ends of its logs are closed, and a root without a record gets the one
    /// of its shape. Asks that the rack is as it was found, and its room. Takes no memory.
    pub fn close<R: Rack>(self, rack: &mut R) -> Result<SpentStore, Failed>
        requires shape { IsShape self.shape }
        requires found { R.tells → IsFound self (R.state rack.old) }
        requires room { R.tells → 14 ≤ (R.state rack.old).room }
        ensures store { IfOk result (λ store. store ≡ record {
          shape = self.shape;
          limit = self.limit;
          book = made self.shape self.book;
          is_sound = true;
          spare = 0;
        }) }
        ensures stands { R.tells → IfOk result (λ store. Stands store (R.state rack.new).areas) }
        ensures rests { R.tells → Rests self.shape self.limit self.book (R.state rack.old).areas }
        ensures each_moment { R.tells → AtEachMoment
            (Making self.shape self.limit self.book (R.state rack.old).areas)
            (R.state rack.old) (R.state rack.new) }
        ensures reads { R.tells → OnErr result (Contains
            (as_read (self.book ∷ made self.shape self.book ∷ []))
            (book_in (R.state rack.new).areas self.shape self.limit)) }
        ensures owes { Owes 10 (IsErr result) (R.state rack.old) (R.state rack.new) }
    {
        let FoundStore {
            shape,
            limit,
            floor,
            roots,
            root,
            one,
            two,
            second_first,
            logs,
        } = self;
        let roots = with_made(roots, root.count() == 0, &shape);
        let root = close_root(rack, root, &shape)?;
        let one = close_log(rack, one, limit)?;
        let two = close_log(rack, two, limit)?;
        Ok(SpentStore {
            shape,
            limit,
            floor,
            roots,
            root,
            logs: put_in_order(logs, one, two, second_first),
            fresh: None,
            ready: false,
            sound: true,
        })
    }
}

/// The records of a root, for contracts alone.
fn history_of(roots: &[RootRecord]) -> History<RootRecord>
    ensures { result.items ≡ roots.now }
{
    let mut history = History::new();
    'noting: for root in roots {
        history.push(root);
    }
    history
}

/// The records of a root that was made where it had none.
fn with_made(roots: History<RootRecord>, bare: bool, shape: &Shape) -> History<RootRecord>
    requires { bare ≡ (length roots.items == 0) }
    ensures { result.items ≡ changes.with_made shape.now roots.items }
{
    let mut roots = roots;
    if bare {
        roots.push(&RootRecord::made(shape));
    }
    roots
}

/// The epoch of these whose log stands in an area.
fn epoch_of_area(epochs: &[u64], area: u8) -> Option<u64>
    ensures { result ≡ epoch_in area epochs.now }
{
    epochs
        .iter()
        .copied()
        .find(|epoch| area_of_epoch(*epoch) == area)
}

/// Whether the first epoch of these has its log in area 2.
fn starts_in_two(epochs: &[u64]) -> bool
    ensures { result ≡ begins_in_two epochs.now }
{
    match epochs.first() {
        Some(epoch) => area_of_epoch(*epoch) == 2,
        None => false,
    }
}

/// Reads the log of the begun epoch that stands in an area, if there is one; or says that it has more tags than the
/// limit. Nothing is written.
fn read_epoch<R: Rack>(
    alloc: Global,
    rack: &mut R,
    limit: u64,
    area: u8,
    begun: &[u64],
) -> Result<Option<ReadTags>, OpenStore>
    requires area { area < 3 }
    requires limit { limit ≤ 2 ^ 26 }
    ensures epoch { IfOk result (λ found.
        option_map (λ read. read.epoch) found ≡ epoch_in area begun.now) }
    ensures in_area { IfOk result (IsInArea area limit) }
    ensures read { R.tells → IfOk result (λ found. IfRead found (R.state rack.new)) }
    ensures fits { R.tells → OnOk result
        (books.overfull_log limit area (contents_of area (R.state rack.old)) begun.now ≡ None) }
    ensures objection { R.tells → IfErr result (λ fault. Refuses fault
        (books.overfull_log limit area (contents_of area (R.state rack.old)) begun.now)) }
    ensures unwritten { R.tells → SameContents (R.state rack.old).areas (R.state rack.new).areas }
    ensures each_moment { R.tells →
        NothingNewThrough begun.now (R.state rack.old) (R.state rack.new) }
    ensures others { R.tells → OthersStay area (R.state rack.old).areas (R.state rack.new).areas }
    ensures owes { Owes (most_reads limit + 1) (IsErrOf result OpenStore.Failed)
        (R.state rack.old) (R.state rack.new) }
{
    match epoch_of_area(begun, area) {
        Some(epoch) => {
            let read = ReadTags::read(alloc, rack, epoch, limit)?;
            Ok(Some(read))
        }
        None => Ok(None),
    }
}

/// Closes the end of the root's log, and appends the record of the shape where there is none. Asks room for 12 bytes.
fn close_root<R: Rack>(rack: &mut R, root: ReadLog, shape: &Shape) -> Result<GateLog, Failed>
    requires area { root.area ≡ 0 }
    requires size { root.size ≡ 9 }
    requires some { 0 < root.limit }
    requires read { R.tells → WasRead root (R.state rack.old) }
    requires room { R.tells → 12 ≤ (R.state rack.old).room }
    ensures log { IfOk result (λ log. log ≡ sound_log 0 9 root.limit (max root.count 1)) }
    ensures stands { R.tells → IfOk result (λ log. gate.Stands log (R.state rack.new)) }
    ensures records { R.tells → OnOk result (records 9 (contents_of 0 (R.state rack.new))
        ≡ made_records shape.now (records 9 (contents_of 0 (R.state rack.old)))) }
    ensures each_moment { R.tells → MakingLeaves shape.now (R.state rack.old) (R.state rack.new) }
    ensures image { R.tells → ReadsAnImage (R.state rack.new).areas 0 }
    ensures room { R.tells → (R.state rack.old).room ≤ (R.state rack.new).room + 12 }
    ensures owes { Owes 6 (IsErr result) (R.state rack.old) (R.state rack.new) }
{
    if root.count() == 0 {
        make_root(rack, root, shape)
    } else {
        let opened = root.close(rack)?;
        Ok(opened.log)
    }
}

/// Closes the end of the log of a root without a record, and appends the one of the shape. Asks room for 12 bytes.
fn make_root<R: Rack>(rack: &mut R, root: ReadLog, shape: &Shape) -> Result<GateLog, Failed>
    requires bare { root.count ≡ 0 }
    requires area { root.area ≡ 0 }
    requires size { root.size ≡ 9 }
    requires some { 0 < root.limit }
    requires read { R.tells → WasRead root (R.state rack.old) }
    requires room { R.tells → 12 ≤ (R.state rack.old).room }
    ensures log { IfOk result (λ log. log ≡ sound_log 0 9 root.limit (max root.count 1)) }
    ensures stands { R.tells → IfOk result (λ log. gate.Stands log (R.state rack.new)) }
    ensures records { R.tells → OnOk result (records 9 (contents_of 0 (R.state rack.new))
        ≡ made_records shape.now (records 9 (contents_of 0 (R.state rack.old)))) }
    ensures each_moment { R.tells → MakingLeaves shape.now (R.state rack.old) (R.state rack.new) }
    ensures image { R.tells → ReadsAnImage (R.state rack.new).areas 0 }
    ensures room { R.tells → (R.state rack.old).room ≤ (R.state rack.new).room + 12 }
    ensures owes { Owes 6 (IsErr result) (R.state rack.old) (R.state rack.new) }
{
    let opened = root.close(rack)?;
    let mut log = opened.log;
    match log.append(rack, RootRecord::made(shape).to_bytes().as_slice()) {
        Ok(()) => Ok(log),
        Err(LogAppend::Failed) => Err(Failed),
        Err(LogAppend::LogFull) => unreachable!(),
    }
}

/// Closes the end of a log, if there is one. Asks room for a byte.
fn close_log<R: Rack>(
    rack: &mut R,
    read: Option<ReadTags>,
    limit: u64,
) -> Result<Option<TagLog>, Failed>
    requires limit { (log : ReadTagsState) → read ≡ Some log → log.log.limit ≡ limit }
    requires read { R.tells → IfRead read (R.state rack.old) }
    requires room { R.tells → 1 ≤ (R.state rack.old).room }
    ensures log { IfOk result (λ found. option_map epoch_log found ≡ option_map read_log read) }
    ensures closed { IfOk result (IfClosed limit) }
    ensures stands { R.tells → IfOk result (λ found. IfStands found (R.state rack.new).areas) }
    ensures each_moment { R.tells → AtEachMoment (ClosesLog read (R.state rack.old).areas)
        (R.state rack.old) (R.state rack.new) }
    ensures image { R.tells → (log : ReadTagsState) → read ≡ Some log →
        ReadsAnImage (R.state rack.new).areas (area_of log.epoch) }
    ensures room { R.tells → (R.state rack.old).room ≤ (R.state rack.new).room + 1 }
    ensures owes { Owes 2 (IsErr result) (R.state rack.old) (R.state rack.new) }
{
    match read {
        Some(read) => {
            let log = read.close(rack)?;
            Ok(Some(log))
        }
        None => Ok(None),
    }
}

/// Puts a log behind others that have room for it, if there is one.
fn put(logs: Vec<TagLog>, log: Option<TagLog>) -> Vec<TagLog>
    requires { vec_len logs < vec_capacity logs }
    ensures logs { result.items ≡ logs.items ++ listed log }
    ensures one { vec_len result ≤ vec_len logs + 1 }
    ensures capacity { vec_capacity logs ≤ vec_capacity result }
{
    let mut logs = logs;
    if let Some(log) = log {
        logs.push_reserved(log);
    }
    logs
}

/// The logs of areas 1 and 2, in the order in which their epochs began. `logs` is empty, with room for both.
fn put_in_order(
    logs: Vec<TagLog>,
    one: Option<TagLog>,
    two: Option<TagLog>,
    second_first: bool,
) -> Vec<TagLog>
    requires empty { logs.items ≡ [] }
    requires capacity { 2 ≤ vec_capacity logs }
    ensures logs { result.items ≡ in_order second_first one two }
    ensures capacity { 2 ≤ vec_capacity result }
{
    let (first, second) = if second_first { (two, one) } else { (one, two) };
    put(put(logs, first), second)
}
