// The shard: what its callers see of it, how it is made, and what is read from it.
ghost use Rattle.std.specs.Prelude.{◌≡◌, ℕ, ◌^◌, ◌<◌, ◌≤◌, ◌↔◌, ◌%◌, true, false, map, replicate, IfOk, IfErr, IfSome, IfNone, IsTrue, None};
ghost use Rattle.mix_base.specs.Shards.{IsShape};
ghost use Rattle.due_queue.specs.Queues.{IsFirstDue, NoneDue};
ghost use Rattle.mix_shard.specs.Items.{Item, setup_of, whens};
ghost use Rattle.mix_shard.specs.Kept.{AreEvenDone};
ghost use Rattle.mix_shard.specs.Laws.{AcceptsNew, AddsOnlyClaimed, IsOwn, KeepsAccepted, KeepsCovered, NoneTwice, accepted, first_journal};
ghost use Rattle.mix_shard.specs.Shards.{IsDrained, IsKept, floor_of, new_shard, terms_of};

mod admitting;
mod crashing;
mod opening;
mod rotating;
mod story;
mod taking;

use crate::causes::Cause;
use crate::entries::{Entry, Told};
use crate::held::Held;
use crate::setup::Setup;
use crate::terms::Terms;
use due_queue::{DueQueue, Next};
use epoch_keys::Times;
use mix_base::{History, Memory, Shape, Suite};
use packet_form::Geometry;
use replay_disk::Rack;
use spent_store::SpentStore;
use std::alloc::Global;
use std::marker::Model;
use std::snapshot::Snapshot;

/// One shard of a node on its rack: it claims the tags of packets, holds these until they are due, and has a tale of all
/// that was done to it. Its callers are numbered from 0; those of even numbers may claim.
pub struct Shard<R: Rack, S: Suite> {
    rack: R,
    terms: Terms,
    /// None where the journal isn't sound.
    store: Option<SpentStore>,
    held: DueQueue<Held<S>>,
    done: Vec<bool>,
    entries: Vec<Entry>,
    /// The entries again, each claim's with its packet; for contracts alone.
    told: History<Told>,
    /// What the journal's books came from since the tale began; for contracts alone.
    causes: History<Cause>,
    /// The rack when the tale began, and when the shard was made; for contracts alone.
    first: Snapshot<R>,
    made: Snapshot<R>,
}

impl<R: Rack, S: Suite> Model for Shard<R, S> {
    ghost use Rattle.std.specs.Prelude.{◌≡◌, ◌+◌, ◌-◌, ◌≤◌, length, map, not, count_by, vec_len, vec_capacity};
    ghost use Rattle.mix_shard.specs.Kept.{Keeps, shard_of};
    ghost use Rattle.mix_shard.specs.Shards.{ShardState};

    ghost Value = { ShardState };

    ghost view = { λ s. shard_of s.terms (R.state s.rack) (R.state s.first.value)
        (R.state s.made.value).faults s.told.items s.store s.causes.items s.held.items s.done.items
        (vec_capacity s.entries - vec_len s.entries) };

    ghost invariant = { λ s.
        Keeps R.tells S.meaning (shard_of s.terms (R.state s.rack) (R.state s.first.value)
        (R.state s.made.value).faults s.told.items s.store s.causes.items s.held.items s.done.items
        0) s.store
        × (s.entries.items ≡ map (λ told. told.entry) s.told.items)
        × (vec_len s.entries + (length s.held.items + count_by not s.done.items)
        ≤ vec_capacity s.entries)
        × (s.terms.callers ≤ vec_capacity s.entries) };
}

impl<R: Rack, S: Suite> Drop for Shard<R, S> {
    fn drop(self) {
        let Shard {
            rack: _,
            terms: _,
            store: _,
            held: _,
            done: _,
            entries: _,
            told: _,
            causes: _,
            first: _,
            made: _,
        } = self;
    }
}

impl<R: Rack, S: Suite> Shard<R, S> {
    /// The shard of a rack, for packets of this geometry under keys of this seed in these epochs, whose logs have at most
    /// `limit` records, 2 to 2^26, and which has so many callers. Its journal isn't opened yet, and no call of the rack is
    /// made. On want of memory the rack is handed back.
    pub fn new(
        alloc: Global,
        rack: R,
        shape: Shape,
        geo: Geometry,
        times: Times,
        seed: &[u8; 32],
        limit: u64,
        callers: u32,
    ) -> Result<Shard<R, S>, (R, Memory)>
        requires shape { IsShape shape }
        requires some { 2 ≤ limit }
        requires limit { limit ≤ 2 ^ 26 }
        ensures shard { let terms = terms_of shape (setup_of geo times seed.now) limit callers in
            IfOk result (λ shard. shard ≡ new_shard terms (R.state rack) shard.spare) }
        ensures kept { IfOk result (IsKept R.tells S.meaning) }
        ensures back { IfErr result (λ back. back.0 ≡ rack) }
    {
        let Ok(entries) = Vec::with_capacity(alloc, callers as usize) else {
            return Err((rack, Memory));
        };
        let Ok(done) = nobody_done(alloc, callers) else {
            return Err((rack, Memory));
        };
        let setup = Setup {
            geometry: geo,
            times,
            seed: *seed,
        };
        Ok(Shard {
            first: Snapshot::of(&rack),
            made: Snapshot::of(&rack),
            rack,
            terms: Terms {
                shape,
                setup,
                limit,
                callers,
            },
            store: None,
            held: DueQueue::new(alloc),
            done,
            entries,
            told: History::new(),
            causes: History::new(),
        })
    }

    /// When the first packet that is due at the moment is due, its number and its destination, over all destinations; None
    /// exactly where none is due. The moment is in milliseconds.
    pub fn next_due(&self, moment: u64) -> Option<Next>
        ensures first { IfSome result (λ next. (item : Item)
            × IsFirstDue whens None moment self.now.state.held item × (next ≡ whens item)) }
        ensures none { IfNone result (NoneDue whens None moment self.now.state.held) }
    {
        self.held.next_due(moment)
    }

    /// Whether every caller that may claim is done and nothing is held.
    pub fn is_drained(&self) -> bool
        ensures { IsTrue result ↔ IsDrained self.now }
    {
        self.held.is_empty() && are_done(&self.done)
    }

    /// The floor of the journal's book, the least epoch whose tags are still taken; 0 where the journal isn't sound.
    pub fn floor(&self) -> u64
        ensures { result ≡ floor_of self.now.state.journal }
    {
        match &self.store {
            Some(store) => store.floor(),
            None => 0,
        }
    }

    /// The tale since the shard was made, or since its last crash.
    pub fn tale(&self) -> &[Entry]
        ensures entries { result.now ≡ map (λ told. told.entry) self.now.told }
        // Every book covers each pair that was accepted, and each that all books covered at first.
        ensures accepted_stays { R.tells → KeepsAccepted self.now.told self.now.state.journal }
        ensures covered_stays { let now = self.now in
            R.tells → KeepsCovered (first_journal now) now.state.journal }
        // No pair was accepted twice, and none that all books covered at first.
        ensures accepted_once { R.tells → NoneTwice (accepted self.now.told) }
        ensures accepted_new { R.tells → AcceptsNew (first_journal self.now) self.now.told }
        // A pair in a book was in one at first, or was claimed and not refused.
        ensures only_claimed { let now = self.now in
            R.tells → AddsOnlyClaimed (first_journal now) now.told now.state.journal }
        // Nothing in a journal that was opened is objected to.
        ensures own { IsOwn (first_journal self.now) self.now.told self.now.state.journal }
        ensures kept { IsKept R.tells S.meaning self.now }
    {
        self.entries.as_slice()
    }

    /// The rack and the tale. What is held is lost.
    pub fn into_parts(self) -> (R, Vec<Entry>)
        ensures rack { R.state result.0 ≡ self.rack }
        ensures tale { result.1.items ≡ map (λ told. told.entry) self.told }
    {
        let Shard {
            rack,
            terms: _,
            store: _,
            held: _,
            done: _,
            entries,
            told: _,
            causes: _,
            first: _,
            made: _,
        } = self;
        (rack, entries)
    }
}

/// For each caller, that it isn't done.
fn nobody_done(alloc: Global, callers: u32) -> Result<Vec<bool>, Memory>
    ensures { IfOk result (λ done. done.items ≡ replicate callers false) }
{
    Ok(vec![in alloc; false; callers as usize]?)
}

/// Whether every caller of an even number is done.
fn are_done(done: &[bool]) -> bool
    ensures { IsTrue result ↔ AreEvenDone 0 done.now }
{
    for (caller, is_done) in done.iter().enumerate() {
        if !is_over(caller, *is_done) {
            return false;
        }
    }
    true
}

/// Whether a caller is done, if its number is even.
fn is_over(caller: usize, is_done: bool) -> bool
    ensures { IsTrue result ↔ (caller % 2 ≡ 0 → is_done ≡ true) }
{
    caller % 2 != 0 || is_done
}
