// The journal is made ready: where it isn't sound it is opened, and that is told.
ghost use Rattle.std.specs.Prelude.{◌≡◌, ℕ, ◌+◌, ◌*◌, ◌<◌, ◌≤◌, false, [], ◌∷◌, ◌++◌, vec_len, vec_capacity, OnOk, IfOk, IfErr, IsErrOf, IsTrue};
ghost use Rattle.spent_store.specs.Seen.{summary};
ghost use Rattle.mix_shard.specs.Faults.{hindrance};
ghost use Rattle.mix_shard.specs.Kept.{Asks, IsSound, ToldFor, opening};
ghost use Rattle.mix_shard.specs.Shards.{IsCharted, IsKept, IsReady, ObjectsToBook, ObjectsToRack, opening_calls, OpensThroughout, OwesFor, RefusesOpening, through_opening};
ghost use Rattle.mix_shard.specs.declared.entries.Entry.TheVariants as entry;

use super::Shard;
use super::story::tell;
use crate::causes::Cause;
use crate::entries::{Answer, Entry, Told};
use mix_base::{History, Suite};
use replay_disk::Rack;
use spent_store::{Book, OpenStore, SpentStore};
use std::alloc::Global;

impl<R: Rack, S: Suite> Shard<R, S> {
    /// Makes the journal ready: opens it where it isn't sound, and says what its book comes to. Asks a caller's number.
    /// Where the opening is refused or fails, no entry tells of it.
    pub fn ready(&mut self, alloc: Global, caller: u32) -> Result<Book, OpenStore>
        requires { caller < self.old.terms.callers }
        ensures ok { IfOk result (λ book. IsReady R.tells S.meaning caller book self.old self.new) }
        ensures refused { IfErr result (λ fault. RefusesOpening fault self.old self.new) }
        // It objects exactly to what the rack holds, which is one of the journal's books.
        ensures objection { R.tells → IfErr result (ObjectsToRack self.old) }
        ensures among { R.tells → IfErr result (ObjectsToBook self.old) }
        ensures each_moment { R.tells → IsCharted self.old →
            OpensThroughout (through_opening self.old) self.old self.new }
        ensures owes { OwesFor (opening_calls self.old)
            (IsErrOf result OpenStore.Failed) self.old self.new }
        ensures kept { IsKept R.tells S.meaning self.new }
        ensures callers { self.new.state.done ≡ self.old.state.done }
    {
        if let Some(store) = &self.store {
            return Ok(store.book());
        }
        self.reserve_entries(1)?;
        self.reopen(alloc, caller)
    }

    /// Opens the journal, which isn't sound, and tells it. Asks room for an entry. Where the opening is refused or fails,
    /// nothing is told.
    fn reopen(&mut self, alloc: Global, caller: u32) -> Result<Book, OpenStore>
        requires unsound { self.old.state.journal.is_sound ≡ false }
        requires room { 1 ≤ self.old.spare }
        ensures ok { IfOk result (λ book. IsReady R.tells S.meaning caller book self.old self.new) }
        ensures refused { IfErr result (λ fault. RefusesOpening fault self.old self.new) }
        ensures objection { R.tells → IfErr result (ObjectsToRack self.old) }
        ensures each_moment { R.tells → IsCharted self.old →
            OpensThroughout (through_opening self.old) self.old self.new }
        ensures owes { OwesFor (opening_calls self.old)
            (IsErrOf result OpenStore.Failed) self.old self.new }
        ensures kept { IsKept R.tells S.meaning self.new }
        ensures callers { self.new.state.done ≡ self.old.state.done }
    {
        match SpentStore::open(alloc, &mut self.rack, &self.terms.shape, self.terms.limit) {
            Ok(store) => {
                let book = tell_opening(&mut self.entries, &mut self.told, caller, &store);
                self.store = Some(store);
                Ok(book)
            }
            Err(fault) => match answer_of(&fault) {
                Some(_) => {
                    self.causes.push(&Cause::Unopened);
                    Err(fault)
                }
                None => Err(fault),
            },
        }
    }

    /// Opens the journal, which isn't sound, for a call that asked for it, and tells it. Asks room for an entry. Where the
    /// opening is refused or fails, the call's entry is told, with that answer; where memory is wanting, nothing is.
    fn reopen_for(&mut self, alloc: Global, caller: u32, asked: Told) -> Result<Book, OpenStore>
        requires unsound { self.old.state.journal.is_sound ≡ false }
        requires room { 1 ≤ self.old.spare }
        requires asked { Asks S.meaning self.old.terms self.old.state asked }
        ensures ok { IfOk result (λ book. IsReady R.tells S.meaning caller book self.old self.new) }
        ensures room { IfOk result (λ book. self.old.spare ≤ self.new.spare + 1) }
        ensures refused { IfErr result (λ fault.
            ToldFor (hindrance fault) asked self.old self.new) }
        ensures objection { R.tells → IfErr result (ObjectsToRack self.old) }
        ensures each_moment { R.tells → IsCharted self.old →
            OpensThroughout (through_opening self.old) self.old self.new }
        ensures owes { OwesFor (opening_calls self.old)
            (IsErrOf result OpenStore.Failed) self.old self.new }
        ensures kept { IsKept R.tells S.meaning self.new }
        ensures callers { self.new.state.done ≡ self.old.state.done }
    {
        match SpentStore::open(alloc, &mut self.rack, &self.terms.shape, self.terms.limit) {
            Ok(store) => {
                let_go(asked);
                let book = tell_opening(&mut self.entries, &mut self.told, caller, &store);
                self.store = Some(store);
                Ok(book)
            }
            Err(fault) => match answer_of(&fault) {
                Some(answer) => {
                    self.causes.push(&Cause::Unopened);
                    tell(&mut self.entries, &mut self.told, asked.with_answer(answer));
                    Err(fault)
                }
                None => {
                    let_go(asked);
                    Err(fault)
                }
            },
        }
    }

    /// Makes the journal sound, with room for so many entries, 2 or 3, less the one of an opening. Where it can't be opened,
    /// the entry of the call that asked for it is told.
    pub(super) fn sound_for(
        &mut self,
        alloc: Global,
        caller: u32,
        entries: usize,
        asked: Told,
    ) -> Result<(), OpenStore>
        requires some { 2 ≤ entries }
        requires few { entries ≤ 3 }
        requires asked { Asks S.meaning self.old.terms self.old.state asked }
        ensures ok { OnOk result (IsSound R.tells S.meaning caller self.old self.new) }
        ensures room { OnOk result (entries ≤ self.new.spare + 1) }
        ensures refused { IfErr result (λ fault.
            ToldFor (hindrance fault) asked self.old self.new) }
        ensures objection { R.tells → IfErr result (ObjectsToRack self.old) }
        ensures among { R.tells → IfErr result (ObjectsToBook self.old) }
        ensures each_moment { R.tells → IsCharted self.old →
            OpensThroughout (through_opening self.old) self.old self.new }
        ensures owes { OwesFor (opening_calls self.old)
            (IsErrOf result OpenStore.Failed) self.old self.new }
        ensures kept { IsKept R.tells S.meaning self.new }
        ensures callers { self.new.state.done ≡ self.old.state.done }
    {
        let is_sound = self.store.is_some();
        if self.reserve_entries(entries).is_err() {
            let_go(asked);
            return Err(OpenStore::Memory);
        }
        if is_sound {
            let_go(asked);
            return Ok(());
        }
        match self.reopen_for(alloc, caller, asked) {
            Ok(_) => Ok(()),
            Err(fault) => Err(fault),
        }
    }
}

/// An entry that isn't told.
fn let_go(_told: Told) {}

/// Tells that the journal was opened, and says what its book comes to. Asks room for an entry.
fn tell_opening(
    entries: &mut Vec<Entry>,
    tale: &mut History<Told>,
    caller: u32,
    store: &SpentStore,
) -> Book
    requires sound { IsTrue store.now.is_sound }
    requires room { vec_len entries.old < vec_capacity entries.old }
    ensures book { result ≡ summary store.now.book }
    ensures entries { entries.new.items
        ≡ entries.old.items ++ entry.Reopened caller result.floor result.spent ∷ [] }
    ensures tale { tale.new.items ≡ tale.old.items ++ opening caller result ∷ [] }
    ensures one_more { vec_len entries.new ≡ vec_len entries.old + 1 }
    ensures room { vec_capacity entries.new ≡ vec_capacity entries.old }
{
    let book = store.book();
    let entry = Entry::Reopened {
        caller,
        floor: book.floor,
        spent: book.spent,
    };
    tell(
        entries,
        tale,
        Told {
            entry,
            packet: None,
        },
    );
    book
}

/// What a refused or failed opening is called in the tale; none where memory was wanting.
fn answer_of(fault: &OpenStore) -> Option<Answer>
    ensures { result ≡ hindrance fault.now }
{
    match fault {
        OpenStore::Failed => Some(Answer::Disk),
        OpenStore::Foreign { .. } | OpenStore::OtherShape { .. } => Some(Answer::Journal),
        OpenStore::Memory => None,
    }
}
