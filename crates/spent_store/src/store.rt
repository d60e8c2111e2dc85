// The store of spent tags: a journal on the three areas of a rack. A store is sound until a call on its rack fails;
// then it is opened again, and what a crash or a failure has left of a change is one of its stages.
ghost use Rattle.std.specs.Prelude.{◌≡◌, ◌≢◌, ℕ, ◌+◌, ◌*◌, ◌^◌, ◌≤◌, [], ◌∷◌, true, false};
ghost use Rattle.std.specs.Prelude.{Contains, IsTrue, Ok, IsOk, IfOk, OnOk, IfErr, IsErrOf};
ghost use Rattle.std.specs.Result.{result_err};
ghost use Rattle.mix_base.specs.Shards.{IsShape};
ghost use Rattle.replay_disk.specs.Disk.{MadeNoCall, Owes};
ghost use Rattle.gate_log.specs.Log.{most_reads};
ghost use Rattle.spent_store.specs.Faults.{Refuses, IsRefused};
ghost use Rattle.spent_store.specs.Books.{is_spent};
ghost use Rattle.spent_store.specs.Changes.{raised, claimed, claim_stages, retirement_stages};
ghost use Rattle.spent_store.specs.Changes.{made_where_read};
ghost use Rattle.spent_store.specs.Journals.{Claims, Retires};
ghost use Rattle.spent_store.specs.Stores.{Stands, SameContents, ReadsSameOrMade, OpensFromThrough};
ghost use Rattle.spent_store.specs.Stores.{OpensJournal, OpensToOneOf, LeavesOneOf};
ghost use Rattle.spent_store.specs.Stores.{LeavesOneThrough, ReadsOneOf, UnusedStayThrough};
ghost use Rattle.spent_store.specs.Stores.{as_read, begun_on, book_in, journal_of};

mod changes;
mod found;

use crate::faults::{ClaimFault, OpenStore, RetireFault};
use crate::log_lists::{is_in, reserve_logs, spent_in};
use crate::root::RootRecord;
use crate::summary::Book;
use crate::tag_log::TagLog;
use found::FoundStore;
use gate_log::GateLog;
use mix_base::{Failed, History, Memory, Shape};
use replay_disk::Rack;
use std::alloc::Global;
use std::marker::Model;

/// A store of spent replay tags, which stands on the rack that it was opened on. Tags are looked for one by one.
#[derive(Drop)]
pub struct SpentStore {
    shape: Shape,
    limit: u64,
    floor: u64,
    roots: History<RootRecord>,
    root: GateLog,
    logs: Vec<TagLog>,
    /// Empty, for the next epoch that begins.
    fresh: Option<Vec<[u8; 32]>>,
    /// Whether a claim finds room in memory.
    ready: bool,
    sound: bool,
}

impl Model for SpentStore {
    ghost use Rattle.std.specs.Prelude.{◌≡◌, ◌^◌, ◌<◌, ◌≤◌, [], true, IsSomeAnd, vec_capacity};
    ghost use Rattle.std.specs.Prelude.{if◌then◌else◌};
    ghost use Rattle.spent_store.specs.Kept.{IsRootOf, AreNearLogs, AreOfStore, book_with};
    ghost use Rattle.spent_store.specs.Stores.{StoreState};

    ghost Value = { StoreState };

    ghost view = { λ s. record {
      shape = s.shape;
      limit = s.limit;
      book = book_with s.floor s.logs.items s.roots.items;
      is_sound = s.sound;
      spare = (if s.ready then 1 else 0);
    } };

    ghost invariant = { λ s. (s.limit ≤ 2 ^ 26)
        × IsRootOf s.limit s.sound s.roots.items s.root
        × AreNearLogs s.floor s.logs.items
        × AreOfStore s.limit s.sound s.ready s.logs.items
        × (2 ≤ vec_capacity s.logs)
        × (s.ready ≡ true → IsSomeAnd s.fresh
        (λ tags. (tags.items ≡ []) × (0 < vec_capacity tags))) };
}

impl SpentStore {
    ghost use Rattle.spent_store.specs.Seen as seen;

    /// Opens the store of a rack, whose logs have at most `limit` records, 2 to 2^26; or says what is against it. All is
    /// brought to the disk, read and judged, and the memory is taken, before a byte is written. Then a root without a record
    /// gets the one of its shape, and the ends of the logs are closed.
    pub fn open<R: Rack>(
        alloc: Global,
        rack: &mut R,
        shape: &Shape,
        limit: u64,
    ) -> Result<SpentStore, OpenStore>
        requires some { 2 ≤ limit }
        requires limit { limit ≤ 2 ^ 26 }
        requires shape { IsShape shape.now }

        // The store has the book of what was there, with its root made, and stands on the rack.
        ensures store { IfOk result (λ store.
            store ≡ record store { shape = shape.now; limit = limit; is_sound = true }) }
        ensures book { R.tells → IfOk result (λ store. made_where_read shape.now
            (book_in (R.state rack.old).areas shape.now limit) ≡ Ok store.book) }
        ensures stands { R.tells → IfOk result (λ store. Stands store (R.state rack.new).areas) }
        ensures alone { R.tells → IfOk result (λ store.
            OpensToOneOf shape.now limit (as_read (store.book ∷ [])) (R.state rack.new).areas) }

        // It is refused where something is against the book. Nothing was written then, nor where memory was wanting.
        ensures objection { R.tells → IfErr result (λ fault.
            Refuses fault (result_err (book_in (R.state rack.old).areas shape.now limit))) }
        ensures unwritten { R.tells → IfErr result (λ fault. fault ≢ OpenStore.Failed →
            SameContents (R.state rack.old).areas (R.state rack.new).areas) }

        // Where it isn't opened, a read gives what it gave before, or that with its root made.
        ensures reads { R.tells → IfErr result (λ fault.
            ReadsSameOrMade shape.now limit (R.state rack.old) (R.state rack.new)) }

        // The journal's rule says what it leaves of an unsound journal: after Ok the store's own book.
        ensures journal { R.tells →
            OpensJournal shape.now limit (R.state rack.old).areas result (R.state rack.new).areas }

        // At every moment a crash leaves what might have been left before, with its root made or not.
        ensures each_moment { R.tells →
            OpensFromThrough shape.now limit (R.state rack.old) (R.state rack.new) }
        ensures unused { R.tells →
            UnusedStayThrough (begun_on (R.state rack.old)) (R.state rack.old) (R.state rack.new) }

        // It fails only where the rack did.
        ensures owes { Owes (3 * most_reads limit + 14) (IsErrOf result OpenStore.Failed)
            (R.state rack.old) (R.state rack.new) }
    {
        let found = FoundStore::read(alloc, rack, shape, limit)?;
        match found.close(rack) {
            Ok(store) => Ok(store),
            Err(Failed) => Err(OpenStore::Failed),
        }
    }

    /// Makes room in memory for a claim.
    pub fn reserve(&mut self, alloc: Global) -> Result<(), Memory>
        ensures ok { OnOk result (1 ≤ self.new.spare) }
        ensures same { self.new ≡ record self.old { spare = self.new.spare } }
        ensures no_lower { self.old.spare ≤ self.new.spare }
    {
        if self.ready {
            return Ok(());
        }
        self.fresh = Some(Vec::with_capacity(alloc, 1)?);
        reserve_logs(&mut self.logs)?;
        self.ready = true;
        Ok(())
    }

    /// Whether the tag is spent in the epoch. Asks a sound store.
    pub fn holds(&self, epoch: u64, tag: &[u8; 32]) -> bool
        requires { IsTrue self.now.is_sound }
        ensures { result ≡ is_spent epoch tag.now self.now.book }
    {
        is_in(&self.logs, epoch, tag)
    }

    /// The least epoch whose tags are still taken. Asks a sound store.
    pub fn floor(&self) -> u64
        requires { IsTrue self.now.is_sound }
        ensures { result ≡ self.now.book.floor }
    {
        self.floor
    }

    /// What the book comes to. Asks a sound store.
    pub fn book(&self) -> Book
        requires { IsTrue self.now.is_sound }
        ensures { result ≡ seen.summary self.now.book }
    {
        Book {
            floor: self.floor,
            spent: spent_in(&self.logs),
            root: self.root.count(),
        }
    }

    /// Whether no call on the rack has failed since the store was opened.
    pub fn is_sound(&self) -> bool
        ensures { result ≡ self.now.is_sound }
    {
        self.sound
    }

    /// Spends a tag in an epoch, where `least` is the least epoch that was live at the receipt, and the epoch is that or
    /// the one above it. The first refusal that holds is the answer: the epoch is below the floor, the pair is spent, or
    /// there is no room. Asks a sound store that stands on the rack, room for a claim in memory, and for 57 bytes on the
    /// rack. Takes no memory.
    pub fn claim<R: Rack>(
        &mut self,
        rack: &mut R,
        epoch: u64,
        tag: &[u8; 32],
        least: u64,
    ) -> Result<(), ClaimFault>
        requires sound { IsTrue self.old.is_sound }
        requires spare { 1 ≤ self.old.spare }
        requires low { least ≤ epoch }
        requires high { epoch ≤ least + 1 }
        requires stands { R.tells → Stands self.old (R.state rack.old).areas }
        requires room { R.tells → 57 ≤ (R.state rack.old).room }

        // The journal's rule says when it is refused, and what it leaves.
        ensures journal { Claims self.old.limit epoch tag.now least self.old.book result
            (journal_of self.new (claim_stages epoch (tag.now ∷ []) least self.old.book)) }
        ensures store { self.new ≡ record self.old {
          book = self.new.book;
          is_sound = self.new.is_sound;
          spare = self.new.spare;
        } }
        ensures sound { ¬ IsErrOf result ClaimFault.Failed → IsTrue self.new.is_sound }
        ensures unsound { IsErrOf result ClaimFault.Failed → self.new.is_sound ≡ false }
        ensures spare { self.old.spare ≤ self.new.spare + 1 }

        // A refusal changes nothing, and makes no call on the rack.
        ensures refused { IsRefused result → self.new ≡ self.old }
        ensures unwritten { IsRefused result → MadeNoCall (R.state rack.old) (R.state rack.new) }

        // At every moment a crash leaves one of the stages, and after Ok the last alone.
        ensures each_moment { R.tells → LeavesOneThrough self.old
            (claim_stages epoch (tag.now ∷ []) least self.old.book)
            (R.state rack.old) (R.state rack.new) }
        ensures unused { R.tells →
            UnusedStayThrough (epoch ∷ []) (R.state rack.old) (R.state rack.new) }
        ensures done { R.tells → OnOk result (LeavesOneOf self.old
            (claimed epoch (tag.now ∷ []) least self.old.book ∷ []) (R.state rack.new).areas) }
        ensures stands { R.tells → ¬ IsErrOf result ClaimFault.Failed →
            Stands self.new (R.state rack.new).areas }
        ensures reads { R.tells → IsErrOf result ClaimFault.Failed → ReadsOneOf self.old
            (claim_stages epoch (tag.now ∷ []) least self.old.book) (R.state rack.new) }
        ensures room { R.tells → (R.state rack.old).room ≤ (R.state rack.new).room + 57 }

        // It fails only where the rack did, and makes at most 14 calls of it.
        ensures owes { Owes 14 (IsErrOf result ClaimFault.Failed)
            (R.state rack.old) (R.state rack.new) }
    {
        if let Some(fault) = self.refusal(epoch, tag, least) {
            return Err(fault);
        }
        match self.accept(rack, epoch, tag, least) {
            Ok(()) => Ok(()),
            Err(Failed) => Err(ClaimFault::Failed),
        }
    }

    /// Raises the floor to an epoch that is above it, and does nothing otherwise. Asks a sound store that stands on the
    /// rack, and room for 11 bytes there. Takes no memory.
    pub fn retire<R: Rack>(&mut self, rack: &mut R, floor: u64) -> Result<(), RetireFault>
        requires sound { IsTrue self.old.is_sound }
        requires stands { R.tells → Stands self.old (R.state rack.old).areas }
        requires room { R.tells → 11 ≤ (R.state rack.old).room }

        // The journal's rule says when it is refused, and what it leaves.
        ensures journal { Retires self.old.limit floor self.old.book result
            (journal_of self.new (retirement_stages floor self.old.book)) }
        ensures store { self.new
            ≡ record self.old { book = self.new.book; is_sound = self.new.is_sound } }
        ensures sound { ¬ IsErrOf result RetireFault.Failed → IsTrue self.new.is_sound }
        ensures unsound { IsErrOf result RetireFault.Failed → self.new.is_sound ≡ false }

        // A refusal changes nothing, and makes no call on the rack.
        ensures refused { IsErrOf result RetireFault.RootFull → self.new ≡ self.old }
        ensures unwritten { IsErrOf result RetireFault.RootFull →
            MadeNoCall (R.state rack.old) (R.state rack.new) }

        // A floor that isn't above changes nothing either.
        ensures nothing { floor ≤ self.old.book.floor →
            IsOk result × (self.new ≡ self.old) × MadeNoCall (R.state rack.old) (R.state rack.new) }

        // At every moment a crash leaves one of the stages, and after Ok the last alone.
        ensures each_moment { R.tells → LeavesOneThrough self.old
            (retirement_stages floor self.old.book) (R.state rack.old) (R.state rack.new) }
        ensures unused { R.tells → UnusedStayThrough [] (R.state rack.old) (R.state rack.new) }
        ensures done { R.tells → OnOk result
            (LeavesOneOf self.old (raised floor self.old.book ∷ []) (R.state rack.new).areas) }
        ensures stands { R.tells → ¬ IsErrOf result RetireFault.Failed →
            Stands self.new (R.state rack.new).areas }
        ensures reads { R.tells → IsErrOf result RetireFault.Failed →
            ReadsOneOf self.old (retirement_stages floor self.old.book) (R.state rack.new) }
        ensures room { R.tells → (R.state rack.old).room ≤ (R.state rack.new).room + 11 }

        // It fails only where the rack did, and makes at most 4 calls of it.
        ensures owes { Owes 4 (IsErrOf result RetireFault.Failed)
            (R.state rack.old) (R.state rack.new) }
    {
        if self.floor < floor && self.limit <= self.root.count() {
            return Err(RetireFault::RootFull);
        }
        match self.raise(rack, floor) {
            Ok(()) => Ok(()),
            Err(Failed) => Err(RetireFault::Failed),
        }
    }
}
