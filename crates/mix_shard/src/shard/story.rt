// The tale's room, its entries, and the shard as a value that knows them.
ghost use Rattle.std.specs.Prelude.{◌≡◌, ℕ, ◌≤◌, ◌<◌, ◌+◌, ◌++◌, ◌∷◌, [], OnOk, vec_len, vec_capacity};
ghost use Rattle.mix_shard.specs.Entries.{caller_of};
ghost use Rattle.mix_shard.specs.Origins.{origin_of};

use super::Shard;
use crate::entries::{Entry, Told};
use mix_base::{History, Memory, Storied, Suite};
use replay_disk::Rack;

impl<R: Rack, S: Suite> Shard<R, S> {
    /// Makes room for so many entries beside those that what is held and who isn't done will need.
    pub(super) fn reserve_entries(&mut self, entries: usize) -> Result<(), Memory>
        requires { entries ≤ 3 }
        ensures ok { OnOk result (entries ≤ self.new.spare) }
        ensures same { self.new ≡ record self.old { spare = self.new.spare } }
    {
        let owed = self.held.len() + self.done.len();
        self.entries.reserve(owed + entries)?;
        Ok(())
    }
}

/// Adds an entry to the tale. Asks room for it. Takes no memory.
pub(super) fn tell(entries: &mut Vec<Entry>, tale: &mut History<Told>, told: Told)
    requires { vec_len entries.old < vec_capacity entries.old }
    ensures entries { entries.new.items ≡ entries.old.items ++ told.entry ∷ [] }
    ensures tale { tale.new.items ≡ tale.old.items ++ told ∷ [] }
    ensures one_more { vec_len entries.new ≡ vec_len entries.old + 1 }
    ensures room { vec_capacity entries.new ≡ vec_capacity entries.old }
{
    tale.push(&told);
    entries.push_reserved(told.entry);
}

impl<R: Rack, S: Suite> Storied for Shard<R, S> {
    type Entry = Told;

    ghost origin = { λ shard. origin_of shard };

    ghost story = { λ shard. shard.told };

    ghost caller = { λ told. caller_of told.entry };

    fn entries(&self) -> u64 {
        self.entries.len() as u64
    }
}
