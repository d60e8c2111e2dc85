// The steps of a store's changes, each with what a crash leaves of it at its every moment: the floor is raised, an
// epoch's log is started and the epoch begins, and tags are spent.
ghost use Rattle.std.specs.Prelude.{◌≡◌, ℕ, ◌+◌, ◌^◌, ◌<◌, ◌≤◌, ◌==◌, List, [], ◌∷◌, ◌++◌, length};
ghost use Rattle.std.specs.Prelude.{filter, true, false, IsTrue, Contains, IfOk, OnOk, OnErr, IsOk};
ghost use Rattle.std.specs.Prelude.{IsErr, vec_capacity, None, if◌then◌else◌};
ghost use Rattle.replay_disk.specs.Disk.{contents_of, ReadsAnImage, MadeNoCall, Owes};
ghost use Rattle.gate_log.specs.Log.{AppendLeavesIn, OthersStayThrough};
ghost use Rattle.gate_log.specs.Records.{records};
ghost use Rattle.spent_store.specs.Books.{area_of, has_begun, pairs};
ghost use Rattle.spent_store.specs.Changes.{raised, begun_with, added, claimed, claim_stages};
ghost use Rattle.spent_store.specs.Changes.{retirement_stages};
ghost use Rattle.spent_store.specs.Journals.{claim_refusal, is_full};
ghost use Rattle.spent_store.specs.Kept.{ChangeLeaves, beginning_stages};
ghost use Rattle.spent_store.specs.Root.{IsNear, spell_root};
ghost use Rattle.spent_store.specs.Stores.{Stands, ReadsOneOf};
ghost use Rattle.spent_store.specs.TagLogs.{LogStands, RestsClosed};

use super::SpentStore;
use crate::faults::ClaimFault;
use crate::log_lists::{has_log, keep_from, place_of, tags_in};
use crate::root::RootRecord;
use crate::tag_log::TagLog;
use gate_log::LogAppend;
use mix_base::Failed;
use replay_disk::Rack;

impl SpentStore {
    /// Why a claim is refused, if it is.
    pub(super) fn refusal(&self, epoch: u64, tag: &[u8; 32], least: u64) -> Option<ClaimFault>
        requires sound { IsTrue self.now.is_sound }
        requires low { least ≤ epoch }
        ensures answer { result ≡ claim_refusal self.now.limit epoch tag.now least self.now.book }
        ensures one { self.now.spare ≤ 1 }
    {
        if epoch < self.floor {
            return Some(ClaimFault::Retired { floor: self.floor });
        }
        if self.holds(epoch, tag) {
            return Some(ClaimFault::Spent);
        }
        if self.is_full(epoch, least) {
            return Some(ClaimFault::ShardFull);
        }
        None
    }

    /// Whether the epoch's log is full, or the root has no room for what a claim needs.
    fn is_full(&self, epoch: u64, least: u64) -> bool
        requires low { least ≤ epoch }
        ensures { result ≡ is_full self.now.limit epoch least self.now.book }
    {
        let needed = records_needed(self.floor < least, has_log(&self.logs, epoch));
        self.limit <= tags_in(&self.logs, epoch) || self.limit < self.root.count() + needed
    }

    /// Does what a claim does that isn't refused.
    pub(super) fn accept<R: Rack>(
        &mut self,
        rack: &mut R,
        epoch: u64,
        tag: &[u8; 32],
        least: u64,
    ) -> Result<(), Failed>
        requires sound { IsTrue self.old.is_sound }
        requires spare { 1 ≤ self.old.spare }
        requires low { least ≤ epoch }
        requires high { epoch ≤ least + 1 }
        requires accepted { claim_refusal self.old.limit epoch tag.now least self.old.book ≡ None }
        requires stands { R.tells → Stands self.old (R.state rack.old).areas }
        requires room { R.tells → 57 ≤ (R.state rack.old).room }
        ensures ok { OnOk result (self.new ≡ record self.old {
          book = claimed epoch (tag.now ∷ []) least self.old.book;
          spare = 0;
        }) }
        ensures failed { OnErr result (self.new
            ≡ record self.old { book = self.new.book; is_sound = false; spare = self.new.spare }) }
        ensures stands { R.tells → OnOk result (Stands self.new (R.state rack.new).areas) }
        ensures each_moment { R.tells → ChangeLeaves self.old
            (claim_stages epoch (tag.now ∷ []) least self.old.book) (epoch ∷ [])
            (R.state rack.old) (R.state rack.new) }
        ensures reads { R.tells → OnErr result (ReadsOneOf self.old
            (claim_stages epoch (tag.now ∷ []) least self.old.book) (R.state rack.new)) }
        ensures room { R.tells → (R.state rack.old).room ≤ (R.state rack.new).room + 57 }
        ensures owes { Owes 14 (IsErr result) (R.state rack.old) (R.state rack.new) }
    {
        self.raise(rack, least)?;
        if has_log(&self.logs, epoch) {
            self.add(rack, epoch, tag)
        } else {
            let log = self.start_log(rack, epoch)?;
            self.begin(rack, log, tag)
        }
    }

    /// Raises the floor, where it rises.
    pub(super) fn raise<R: Rack>(&mut self, rack: &mut R, floor: u64) -> Result<(), Failed>
        requires sound { IsTrue self.old.is_sound }
        requires fits { self.old.book.floor < floor → length self.old.book.roots < self.old.limit }
        requires stands { R.tells → Stands self.old (R.state rack.old).areas }
        requires room { R.tells → 11 ≤ (R.state rack.old).room }
        ensures ok { OnOk result
            (self.new ≡ record self.old { book = raised floor self.old.book }) }
        ensures failed { OnErr result (self.new ≡ record self.old { is_sound = false }) }
        ensures stands { R.tells → OnOk result (Stands self.new (R.state rack.new).areas) }
        ensures each_moment { R.tells → (epochs : List ℕ) → ChangeLeaves self.old
            (retirement_stages floor self.old.book) epochs (R.state rack.old) (R.state rack.new) }
        ensures reads { R.tells → OnErr result
            (ReadsOneOf self.old (retirement_stages floor self.old.book) (R.state rack.new)) }
        ensures nothing { floor ≤ self.old.book.floor →
            IsOk result × (self.new ≡ self.old) × MadeNoCall (R.state rack.old) (R.state rack.new) }
        ensures room { R.tells → (R.state rack.old).room ≤ (R.state rack.new).room + 11 }
        ensures owes { Owes 4 (IsErr result) (R.state rack.old) (R.state rack.new) }
    {
        if floor <= self.floor {
            return Ok(());
        }
        self.append_root(rack, &RootRecord::Floor(floor))?;
        self.floor = floor;
        keep_from(&mut self.logs, floor);
        Ok(())
    }

    /// Takes the area of an epoch for its log, whatever stood there. No claim finds room in memory then.
    fn start_log<R: Rack>(&mut self, rack: &mut R, epoch: u64) -> Result<TagLog, Failed>
        requires spare { 1 ≤ self.old.spare }
        requires room { R.tells → 1 ≤ (R.state rack.old).room }
        ensures log { IfOk result (λ log. log ≡ record {
          epoch = epoch;
          tags = [];
          limit = self.old.limit;
          is_sound = true;
          spare = log.spare;
        }) }
        ensures log_room { IfOk result (λ log. 0 < log.spare) }
        ensures log_stands { R.tells → IfOk result (λ log. LogStands log (R.state rack.new).areas) }
        ensures ok { OnOk result (self.new ≡ record self.old { spare = 0 }) }
        ensures failed { OnErr result (self.new ≡ record self.old { is_sound = false; spare = 0 }) }
        ensures others { R.tells →
            OthersStayThrough (area_of epoch) (R.state rack.old) (R.state rack.new) }
        ensures room { R.tells → (R.state rack.old).room ≤ (R.state rack.new).room + 1 }
        ensures owes { Owes 2 (IsErr result) (R.state rack.old) (R.state rack.new) }
    {
        let tags = self.take_fresh();
        match TagLog::start(rack, epoch, self.limit, tags) {
            Ok(log) => Ok(log),
            Err(failed) => {
                self.sound = false;
                Err(failed)
            }
        }
    }

    /// Begins an epoch whose log was started, and spends its first tag.
    fn begin<R: Rack>(&mut self, rack: &mut R, log: TagLog, tag: &[u8; 32]) -> Result<(), Failed>
        requires sound { IsTrue self.old.is_sound }
        requires log { log ≡ record {
          epoch = log.epoch;
          tags = [];
          limit = self.old.limit;
          is_sound = true;
          spare = log.spare;
        } }
        requires log_room { 0 < log.spare }
        requires spare { self.old.spare ≡ 0 }
        requires new { has_begun log.epoch self.old.book ≡ false }
        requires near { IsNear self.old.book.floor log.epoch }
        requires fits { length self.old.book.roots < self.old.limit }
        requires stands { R.tells → Stands self.old (R.state rack.old).areas }
        requires log_stands { R.tells → LogStands log (R.state rack.old).areas }
        requires room { R.tells → 45 ≤ (R.state rack.old).room }
        ensures ok { OnOk result (self.new ≡ record self.old {
          book = added log.epoch (tag.now ∷ []) (begun_with log.epoch self.old.book);
        }) }
        ensures failed { OnErr result
            (self.new ≡ record self.old { book = self.new.book; is_sound = false }) }
        ensures stands { R.tells → OnOk result (Stands self.new (R.state rack.new).areas) }
        ensures each_moment { R.tells → ChangeLeaves self.old
            (beginning_stages log.epoch (tag.now ∷ []) self.old.book) (log.epoch ∷ [])
            (R.state rack.old) (R.state rack.new) }
        ensures reads { R.tells → OnErr result (ReadsOneOf self.old
            (beginning_stages log.epoch (tag.now ∷ []) self.old.book) (R.state rack.new)) }
        ensures room { R.tells → (R.state rack.old).room ≤ (R.state rack.new).room + 45 }
        ensures owes { Owes 8 (IsErr result) (R.state rack.old) (R.state rack.new) }
    {
        self.append_root(rack, &RootRecord::Begin(log.epoch()))?;
        let mut log = log;
        match log.append(rack, tag) {
            Ok(()) => {
                self.logs.push_reserved(log);
                Ok(())
            }
            Err(failed) => {
                self.sound = false;
                Err(failed)
            }
        }
    }

    /// Spends a tag of an epoch that has begun.
    fn add<R: Rack>(&mut self, rack: &mut R, epoch: u64, tag: &[u8; 32]) -> Result<(), Failed>
        requires sound { IsTrue self.old.is_sound }
        requires spare { 1 ≤ self.old.spare }
        requires there { has_begun epoch self.old.book ≡ true }
        requires fits { length (filter (λ pair. pair.0 == epoch) (pairs self.old.book))
            < self.old.limit }
        requires stands { R.tells → Stands self.old (R.state rack.old).areas }
        requires room { R.tells → 34 ≤ (R.state rack.old).room }
        ensures ok { OnOk result (self.new
            ≡ record self.old { book = added epoch (tag.now ∷ []) self.old.book; spare = 0 }) }
        ensures failed { OnErr result
            (self.new ≡ record self.old { is_sound = false; spare = self.new.spare }) }
        ensures stands { R.tells → OnOk result (Stands self.new (R.state rack.new).areas) }
        ensures each_moment { R.tells → ChangeLeaves self.old
            (self.old.book ∷ added epoch (tag.now ∷ []) self.old.book ∷ []) (epoch ∷ [])
            (R.state rack.old) (R.state rack.new) }
        ensures reads { R.tells → OnErr result (ReadsOneOf self.old
            (self.old.book ∷ added epoch (tag.now ∷ []) self.old.book ∷ []) (R.state rack.new)) }
        ensures room { R.tells → (R.state rack.old).room ≤ (R.state rack.new).room + 34 }
        ensures owes { Owes 4 (IsErr result) (R.state rack.old) (R.state rack.new) }
    {
        let place = place_of(&self.logs, epoch);
        self.ready = false;
        match self.logs[place].append(rack, tag) {
            Ok(()) => Ok(()),
            Err(failed) => {
                self.sound = false;
                Err(failed)
            }
        }
    }

    /// Puts a record behind those of the root.
    fn append_root<R: Rack>(&mut self, rack: &mut R, root: &RootRecord) -> Result<(), Failed>
        requires sound { IsTrue self.old.is_sound }
        requires fits { length self.old.book.roots < self.old.limit }
        requires stands { R.tells → Stands self.old (R.state rack.old).areas }
        requires room { R.tells → 11 ≤ (R.state rack.old).room }
        ensures ok { OnOk result (self.new ≡ record self.old
            { book = record self.old.book { roots = self.old.book.roots ++ root.now ∷ [] } }) }
        ensures failed { OnErr result (self.new ≡ record self.old { is_sound = false }) }
        ensures rest { R.tells → OnOk result (RestsClosed 9 0 (R.state rack.new).areas) }
        ensures records { R.tells → OnOk result (records 9 (contents_of 0 (R.state rack.new))
            ≡ records 9 (contents_of 0 (R.state rack.old)) ++ spell_root root.now ∷ []) }
        ensures each_moment { R.tells →
            AppendLeavesIn 0 9 (spell_root root.now ∷ []) (R.state rack.old) (R.state rack.new) }
        ensures image { R.tells → ReadsAnImage (R.state rack.new).areas 0 }
        ensures room { R.tells → (R.state rack.old).room ≤ (R.state rack.new).room + 11 }
        ensures owes { Owes 4 (IsErr result) (R.state rack.old) (R.state rack.new) }
    {
        match self.root.append(rack, root.to_bytes().as_slice()) {
            Ok(()) => {
                self.roots.push(root);
                Ok(())
            }
            Err(LogAppend::Failed) => {
                self.sound = false;
                Err(Failed)
            }
            Err(LogAppend::LogFull) => unreachable!(),
        }
    }

    /// The room for the tags of an epoch that begins. No claim finds room then.
    fn take_fresh(&mut self) -> Vec<[u8; 32]>
        requires { 1 ≤ self.old.spare }
        ensures empty { result.items ≡ [] }
        ensures room { 0 < vec_capacity result }
        ensures store { self.new ≡ record self.old { spare = 0 } }
    {
        self.ready = false;
        match self.fresh.take() {
            Some(tags) => tags,
            None => unreachable!(),
        }
    }
}

/// How many root records a claim needs: one where the floor rises, and one where the epoch hasn't begun.
fn records_needed(rises: bool, has_begun: bool) -> u64
    ensures { result ≡ (if rises then 1 else 0) + (if has_begun then 0 else 1) }
{
    let floor = if rises { 1 } else { 0 };
    let begin = if has_begun { 0 } else { 1 };
    floor + begin
}
