// A packet's tag is claimed, and the packet is held where it was accepted.
ghost use Rattle.std.specs.Prelude.{◌≡◌, ℕ, ◌+◌, ◌*◌, ◌%◌, ◌<◌, ◌≤◌, true, [], ◌∷◌, ◌++◌, Some, Err, IfErr, IsErrOf};
ghost use Rattle.epoch_keys.specs.Epochs as epochs;
ghost use Rattle.mix_shard.specs.Faults.{IsObjection, OfOpening, admit_answer};
ghost use Rattle.mix_shard.specs.Entries.{claim_answer, packet_of};
ghost use Rattle.mix_shard.specs.Items.{IsHeld};
ghost use Rattle.mix_shard.specs.Kept.{Spends};
ghost use Rattle.mix_shard.specs.Shards.{Adds, IsCharted, IsClaimEntry, IsKept, ObjectsToBook, ObjectsToRack, opening_calls, OpensThroughout, OwesFor, through_claim};
ghost use Rattle.mix_shard.specs.Tale.{IsActive};
ghost use Rattle.mix_shard.specs.declared.causes.Cause.TheVariants as cause;
ghost use Rattle.mix_shard.specs.declared.entries.Entry.TheVariants as entry;

use super::Shard;
use super::story::tell;
use crate::causes::Cause;
use crate::entries::{Answer, Entry, Told};
use crate::faults::Denied;
use crate::held::Held;
use due_queue::Due;
use mix_base::{History, Suite};
use replay_disk::Rack;
use spent_store::{ClaimFault, SpentStore};
use std::alloc::Global;
use std::snapshot::Snapshot;

impl<R: Rack, S: Suite> Shard<R, S> {
    /// Claims the packet's tag, and holds the packet where it is accepted; it is gone after every refusal. The journal is
    /// made ready first, and the memory is taken before the claim's first write. Asks a caller of an even number that isn't
    /// done, and a packet that was unwrapped under this shard's geometry, seed and epochs.
    pub fn admit(&mut self, alloc: Global, caller: u32, held: Held<S>) -> Result<(), Denied>
        requires active { IsActive caller self.old.state }
        requires even { caller % 2 ≡ 0 }
        requires setup { held.setup ≡ self.old.terms.setup }
        // The opening of the journal, where there was one, and the claim with its answer lead from the old state to the new;
        // want of memory tells no claim.
        ensures told { Adds R.tells S.meaning caller
            (IsClaimEntry caller held (admit_answer result)) self.old self.new }
        // The opening objects exactly to what the rack holds, which is one of the journal's books.
        ensures objection { R.tells → IfErr result (λ why. OfOpening why (ObjectsToRack self.old)) }
        ensures among { R.tells → IfErr result (λ why. OfOpening why (ObjectsToBook self.old)) }
        ensures objects { IfErr result (λ why. OfOpening why IsObjection) }
        ensures each_moment { R.tells → IsCharted self.old →
            OpensThroughout (through_claim self.old held) self.old self.new }
        ensures owes { OwesFor (opening_calls self.old + 14)
            (IsErrOf result Denied.Disk) self.old self.new }
        ensures kept { IsKept R.tells S.meaning self.new }
        ensures callers { self.new.state.done ≡ self.old.state.done }
    {
        self.sound_for(alloc, caller, 3, claim_of(caller, &held, Answer::Disk))?;
        self.spend(alloc, caller, held)
    }

    /// Claims the packet's tag on a sound journal. Asks room for two entries.
    fn spend(&mut self, alloc: Global, caller: u32, held: Held<S>) -> Result<(), Denied>
        requires active { IsActive caller self.old.state }
        requires setup { held.setup ≡ self.old.terms.setup }
        requires sound { self.old.state.journal.is_sound ≡ true }
        requires room { 2 ≤ self.old.spare }
        ensures told { Spends R.tells S.meaning caller held result self.old self.new }
        ensures objects { IfErr result (λ why. OfOpening why (λ fault. ⊥)) }
        ensures each_moment { R.tells →
            OpensThroughout (through_claim self.old held) self.old self.new }
        ensures owes { OwesFor 14 (IsErrOf result Denied.Disk) self.old self.new }
        ensures kept { IsKept R.tells S.meaning self.new }
        ensures callers { self.new.state.done ≡ self.old.state.done }
    {
        self.held.reserve(alloc, &held.dest())?;
        self.rack.room(57)?;
        let Some(store) = &mut self.store else {
            unreachable!()
        };
        store.reserve(alloc)?;
        let epoch = held.epoch();
        let tag = *held.tag();
        let least = held.least();
        let before = Snapshot::of(store);
        match store.claim(&mut self.rack, epoch, &tag, least) {
            Ok(()) => {
                tell(
                    &mut self.entries,
                    &mut self.told,
                    claim_of(caller, &held, Answer::Taken),
                );
                self.held.put(held);
                Ok(())
            }
            Err(fault) => match fault {
                ClaimFault::Failed => {
                    cut_off(&mut self.causes, before, epoch, tag, least);
                    self.store = None;
                    tell(
                        &mut self.entries,
                        &mut self.told,
                        claim_of(caller, &held, Answer::Disk),
                    );
                    Err(Denied::Disk)
                }
                refusal => {
                    tell(
                        &mut self.entries,
                        &mut self.told,
                        claim_of(caller, &held, answer_to(&refusal)),
                    );
                    Err(Denied::from(refusal))
                }
            },
        }
    }
}

/// The entry of a claim, with the packet beside it.
fn claim_of<S: Suite>(caller: u32, held: &Held<S>, answer: Answer) -> Told
    ensures entry { let item = held.now in
        result.entry ≡ entry.Claim caller item.number item.epoch item.tag item.at answer }
    ensures packet { packet_of result ≡ Some held.now.packet }
    ensures held { IsHeld S.meaning held.now }
{
    Told {
        entry: Entry::Claim {
            caller,
            number: held.number(),
            epoch: held.epoch(),
            tag: *held.tag(),
            at: held.at(),
            answer,
        },
        packet: Some(held.remembered()),
    }
}

/// What a refusal of a claim is called in the tale.
fn answer_to(fault: &ClaimFault) -> Answer
    ensures { result ≡ claim_answer (Err fault.now) }
{
    match fault {
        ClaimFault::Retired { floor } => Answer::Retired { floor: *floor },
        ClaimFault::Spent => Answer::Spent,
        ClaimFault::ShardFull => Answer::ShardFull,
        ClaimFault::Failed => Answer::Disk,
    }
}

/// Notes that a claim on a store was cut off.
fn cut_off(
    causes: &mut History<Cause>,
    store: Snapshot<SpentStore>,
    epoch: u64,
    tag: [u8; 32],
    least: u64,
)
    ensures { causes.new.items ≡ causes.old.items ++ cause.CutClaim store epoch tag least ∷ [] }
{
    causes.push(&Cause::CutClaim {
        store,
        epoch,
        tag,
        least,
    });
}
