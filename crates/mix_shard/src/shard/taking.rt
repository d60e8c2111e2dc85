// Held packets are taken out when they are due, and callers end.
ghost use Rattle.std.specs.Prelude.{◌≡◌, ℕ, ◌<◌, ◌∷◌, IfSome, IfNone, IsPermutation, Some};
ghost use Rattle.due_queue.specs.Queues.{IsFirstDue, NoneDue};
ghost use Rattle.mix_shard.specs.Items.{whens};
ghost use Rattle.mix_shard.specs.Shards.{Adds, IsEntry, IsKept};
ghost use Rattle.mix_shard.specs.Tale.{IsActive};
ghost use Rattle.mix_shard.specs.declared.entries.Entry.TheVariants as entry;

use super::Shard;
use super::story::tell;
use crate::entries::{Entry, Told};
use crate::held::Held;
use due_queue::Dest;
use mix_base::Suite;
use replay_disk::Rack;

impl<R: Rack, S: Suite> Shard<R, S> {
    /// Takes the first packet out that is due at the moment for the destination; None exactly where none is due, and then
    /// nothing changes. Asks a caller's number. The moment is in milliseconds. Takes no memory.
    pub fn take_due(&mut self, caller: u32, dest: &Dest, moment: u64) -> Option<Held<S>>
        requires { caller < self.old.terms.callers }
        ensures taken { let held = self.old.state.held in
            IfSome result (IsFirstDue whens (Some dest.now) moment held) }
        ensures rest { IfSome result (λ held.
            IsPermutation self.old.state.held (held ∷ self.new.state.held)) }
        ensures told { IfSome result (λ held. Adds R.tells S.meaning caller
            (IsEntry (entry.Take caller held.number dest.now moment)) self.old self.new) }
        ensures rack { self.new.rack ≡ self.old.rack }
        ensures none { IfNone result (NoneDue whens (Some dest.now) moment self.old.state.held) }
        ensures unchanged { IfNone result (self.new ≡ self.old) }
        ensures callers { self.new.state.done ≡ self.old.state.done }
        ensures kept { IsKept R.tells S.meaning self.new }
    {
        let held = self.held.take(dest, moment)?;
        let entry = Entry::Take {
            caller,
            number: held.number(),
            dest: *dest,
            moment,
        };
        tell(
            &mut self.entries,
            &mut self.told,
            Told {
                entry,
                packet: None,
            },
        );
        Some(held)
    }

    /// The caller claims no more. Asks a caller that isn't done. Takes no memory.
    pub fn done(&mut self, caller: u32)
        requires { IsActive caller self.old.state }
        ensures told { Adds R.tells S.meaning caller
            (IsEntry (entry.Done caller)) self.old self.new }
        ensures rack { self.new.rack ≡ self.old.rack }
        ensures kept { IsKept R.tells S.meaning self.new }
    {
        self.done[caller as usize] = true;
        let entry = Entry::Done { caller };
        tell(
            &mut self.entries,
            &mut self.told,
            Told {
                entry,
                packet: None,
            },
        );
    }
}
