// A shard on a rack that can be told to fail and to crash.
ghost use Rattle.std.specs.Prelude.{◌≡◌, ℕ, ◌<◌, [], ◌∷◌, ◌++◌, Contains};
ghost use Rattle.mix_shard.specs.Laws.{KeepsCovered};
ghost use Rattle.mix_shard.specs.Shards.{anew, armed_with, IsCharted, IsCrash, IsKept, rack_book};

use super::Shard;
use mix_base::{History, Suite};
use replay_disk::{CrashRack, MemRack};
use std::snapshot::Snapshot;

impl<R: CrashRack, S: Suite> Shard<R, S> {
    /// Arms the rack: the call of this number, counted from now from 1, and all after it fail until the next crash. Asks at
    /// least 1. Nothing else changes.
    pub fn arm(&mut self, calls: u64)
        requires { 0 < calls }
        ensures { self.new ≡ record self.old { rack = armed_with calls self.old.rack } }
    {
        self.rack.arm(calls);
    }

    /// Crashes the rack: each area has one of its images as contents, which the pick decides. Nothing is held any more, no
    /// caller is done, the tale begins anew, and the journal is unsound with the one book of what the rack holds. Takes no
    /// memory.
    pub fn crash(&mut self, pick: u64)
        ensures rack { IsCrash R.tells pick self.old.rack self.new.rack }
        ensures shard { self.new ≡ anew self.old self.new.rack self.new.spare }
        ensures book { R.tells → IsCharted self.old →
            Contains self.old.state.journal.books (rack_book self.old.terms self.new.rack) }
        // So what every book covered before is covered after it.
        ensures covered_stays { R.tells → IsCharted self.old →
            KeepsCovered self.old.state.journal self.new.state.journal }
        ensures charted { R.tells → IsCharted self.new }
        ensures kept { IsKept R.tells S.meaning self.new }
    {
        self.rack.crash(pick);
        self.store = None;
        self.held.clear();
        self.done.fill(false);
        self.entries.clear();
        self.told = History::new();
        self.causes = History::new();
        self.first = Snapshot::of(&self.rack);
    }
}

impl<S: Suite> Shard<MemRack, S> {
    /// Lists the single calls of the rack that fail, numbered from now from 1. Nothing else changes.
    pub fn fail_at(&mut self, calls: Vec<u64>)
        ensures { self.new ≡ self.old }
    {
        self.rack.fail_at(calls);
    }
}
