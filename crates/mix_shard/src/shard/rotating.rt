// Epochs that are no longer live are retired.
ghost use Rattle.std.specs.Prelude.{◌≡◌, ℕ, ◌+◌, ◌*◌, ◌^◌, ◌<◌, ◌≤◌, true, [], ◌∷◌, ◌++◌, IfErr, IsErrOf};
ghost use Rattle.mix_shard.specs.Faults.{IsObjection, OfReopening, rotate_answer};
ghost use Rattle.mix_shard.specs.Kept.{Retires};
ghost use Rattle.mix_shard.specs.Shards.{Adds, IsCharted, IsKept, IsRotateEntry, ObjectsToBook, ObjectsToRack, opening_calls, OpensThroughout, OwesFor, through_rotation};
ghost use Rattle.mix_shard.specs.declared.causes.Cause.TheVariants as cause;
ghost use Rattle.mix_shard.specs.declared.entries.Entry.TheVariants as entry;

use super::Shard;
use super::story::tell;
use crate::causes::Cause;
use crate::entries::{Answer, Entry, Told};
use crate::faults::RotateFault;
use epoch_keys::least_live;
use mix_base::{History, Suite};
use replay_disk::Rack;
use spent_store::{RetireFault, SpentStore};
use std::alloc::Global;
use std::snapshot::Snapshot;

impl<R: Rack, S: Suite> Shard<R, S> {
    /// Retires the epochs below the least that is live at the moment, which is below 2^60, in milliseconds. The journal is
    /// made ready first. Asks a caller's number.
    pub fn rotate(&mut self, alloc: Global, caller: u32, moment: u64) -> Result<(), RotateFault>
        requires caller { caller < self.old.terms.callers }
        requires moment { moment < 2 ^ 60 }
        ensures told { Adds R.tells S.meaning caller
            (IsRotateEntry caller moment (rotate_answer result)) self.old self.new }
        ensures objection { R.tells →
            IfErr result (λ why. OfReopening why (ObjectsToRack self.old)) }
        ensures among { R.tells → IfErr result (λ why. OfReopening why (ObjectsToBook self.old)) }
        ensures objects { IfErr result (λ why. OfReopening why IsObjection) }
        ensures each_moment { R.tells → IsCharted self.old →
            OpensThroughout (through_rotation self.old moment) self.old self.new }
        ensures owes { OwesFor (opening_calls self.old + 4)
            (IsErrOf result RotateFault.Disk) self.old self.new }
        ensures kept { IsKept R.tells S.meaning self.new }
        ensures callers { self.new.state.done ≡ self.old.state.done }
    {
        self.sound_for(alloc, caller, 2, rotation_of(caller, moment, Answer::Disk))?;
        self.retire(caller, moment)
    }

    /// Retires epochs of a sound journal. Asks room for an entry.
    fn retire(&mut self, caller: u32, moment: u64) -> Result<(), RotateFault>
        requires moment { moment < 2 ^ 60 }
        requires sound { self.old.state.journal.is_sound ≡ true }
        requires room { 1 ≤ self.old.spare }
        ensures told { Retires R.tells S.meaning caller moment result self.old self.new }
        ensures objects { IfErr result (λ why. OfReopening why (λ fault. ⊥)) }
        ensures each_moment { R.tells →
            OpensThroughout (through_rotation self.old moment) self.old self.new }
        ensures owes { OwesFor 4 (IsErrOf result RotateFault.Disk) self.old self.new }
        ensures kept { IsKept R.tells S.meaning self.new }
        ensures callers { self.new.state.done ≡ self.old.state.done }
    {
        self.rack.room(11)?;
        let Some(store) = &mut self.store else {
            unreachable!()
        };
        let floor = least_live(moment, &self.terms.setup.times);
        let before = Snapshot::of(store);
        match store.retire(&mut self.rack, floor) {
            Ok(()) => {
                tell(
                    &mut self.entries,
                    &mut self.told,
                    rotation_of(caller, moment, Answer::Taken),
                );
                Ok(())
            }
            Err(fault) => match fault {
                RetireFault::Failed => {
                    cut_off(&mut self.causes, before, floor);
                    self.store = None;
                    tell(
                        &mut self.entries,
                        &mut self.told,
                        rotation_of(caller, moment, Answer::Disk),
                    );
                    Err(RotateFault::Disk)
                }
                RetireFault::RootFull => {
                    tell(
                        &mut self.entries,
                        &mut self.told,
                        rotation_of(caller, moment, Answer::RootFull),
                    );
                    Err(RotateFault::RootFull)
                }
            },
        }
    }
}

/// The entry of a rotation.
fn rotation_of(caller: u32, moment: u64, answer: Answer) -> Told
    ensures { result.entry ≡ entry.Rotate caller moment answer }
{
    Told {
        entry: Entry::Rotate {
            caller,
            moment,
            answer,
        },
        packet: None,
    }
}

/// Notes that a retirement of a store was cut off.
fn cut_off(causes: &mut History<Cause>, store: Snapshot<SpentStore>, floor: u64)
    ensures { causes.new.items ≡ causes.old.items ++ cause.CutRetirement store floor ∷ [] }
{
    causes.push(&Cause::CutRetirement { store, floor });
}
