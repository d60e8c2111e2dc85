// The seat of one caller at a node: a pass to each of the node's shards. Each call takes one turn at one shard.
ghost use Rattle.std.specs.Prelude.{◌≡◌, ◌%◌, ◌<◌, ◌^◌, ℕ, [], false, length, IsTrue, Some, slice_get};
ghost use Rattle.mix_shard.specs.Faults.{admit_answer};
ghost use Rattle.mix_shard.specs.Items.{IsHeld, destination};
ghost use Rattle.mix_shard.specs.Shards.{IsClaimEntry, IsEntry};
ghost use Rattle.mix_shard.specs.declared.entries.Entry.TheVariants as entry;
ghost use Rattle.turn_lock.specs.Seen.{Caller};
ghost use Rattle.turn_lock.specs.Stories.{after};
ghost use Rattle.node_actors.specs.Calls.{IsSpent, has_ended, terms_in};
ghost use Rattle.node_actors.specs.Found.{IfFound, IsTakenBy, IsUnlinked};
ghost use Rattle.node_actors.specs.Seats.{ActsAt, IsOpen, IsSeated};
ghost use Rattle.node_actors.specs.Takings.{WasAccepted};
ghost use Rattle.node_actors.specs.Turns.{IsRotatedAt};

use crate::actors::turns;
use crate::actors::turns::{Found, Rotation, ShardLock, ShardPass};
use due_queue::Dest;
use epoch_keys::least_live;
use mix_base::Suite;
use mix_shard::{Denied, Held, Setup};
use replay_disk::Rack;
use std::alloc::Global;
use std::marker::Model;
use std::sync::Wait;

/// One caller's place at a node.
#[derive(Drop)]
pub struct Seat<'a, H: Wait, R: Rack, S: Suite> {
    pub(crate) rt: &'a H,
    pub(crate) alloc: Global,
    pub(crate) locks: &'a [ShardLock<R, S>],
    pub(crate) setup: Setup,
    pub(crate) caller: u32,
    pub(crate) passes: Vec<ShardPass<R, S>>,
}

impl<'a, H: Wait, R: Rack, S: Suite> Model for Seat<'a, H, R, S> {
    ghost use Rattle.node_actors.specs.Seats.{IsSeated, SeatState};

    ghost Value = { SeatState };

    ghost view = { λ s.
        record {
          locks = s.locks.now;
          setup = s.setup;
          caller = s.caller;
          passes = s.passes.items;
        } };

    ghost invariant = { λ s.
        IsSeated (record {
          locks = s.locks.now;
          setup = s.setup;
          caller = s.caller;
          passes = s.passes.items;
        }) };
}

impl<'a, H: Wait, R: Rack, S: Suite> Seat<'a, H, R, S> {
    /// The seat of a caller with a pass to each shard. Asks that it holds none of them, and that each shard has this
    /// setup and this caller.
    pub fn new(
        rt: &'a H,
        alloc: Global,
        locks: &'a [ShardLock<R, S>],
        setup: Setup,
        caller: u32,
        passes: Vec<ShardPass<R, S>>,
    ) -> Seat<'a, H, R, S>
        requires { IsSeated (record {
          locks = locks.now;
          setup = setup;
          caller = caller;
          passes = passes.items;
        }) }
        ensures { result ≡ record {
          locks = locks.now;
          setup = setup;
          caller = caller;
          passes = passes.items;
        } }
    {
        Seat {
            rt,
            alloc,
            locks,
            setup,
            caller,
            passes,
        }
    }

    /// How many shards there are.
    pub(crate) fn shards(&self) -> usize
        ensures { result ≡ length self.now.locks }
    {
        self.locks.len()
    }

    /// Claims the packet's tag at a shard. Asks a caller of an even number that hasn't ended.
    pub(crate) fn claim(&mut self, shard: usize, held: Held<S>) -> Result<(), Denied>
        requires shard { shard < length self.old.locks }
        requires even { self.old.caller % 2 ≡ 0 }
        requires open { IsOpen self.old }
        requires setup { held.setup ≡ self.old.setup }
        ensures { ActsAt shard (IsClaimEntry self.old.caller held (admit_answer result))
            self.old self.new }
    {
        let caller = self.caller;
        let lock = &self.locks[shard];
        let pass = &mut self.passes[shard];
        turns::claim(self.rt, self.alloc, lock, pass, caller, held)
    }

    /// Takes a packet out of a shard, or says what is left.
    pub(crate) fn take_out(&mut self, shard: usize, dest: &Dest, moment: u64) -> Found<Held<S>>
        requires { shard < length self.old.locks }
        ensures acts { ActsAt shard (IsTakenBy self.old.caller moment result)
            self.old self.new }
        ensures dest { IfFound result (λ item. destination item.out ≡ dest.now) }
        ensures held { IfFound result (IsHeld S.meaning) }
        // It was accepted since the shard's lock was made.
        ensures accepted { IfFound result (λ item. (lock : _) (pass : _) →
            slice_get self.old.locks shard ≡ Some lock →
            slice_get self.new.passes shard ≡ Some pass →
            WasAccepted (after lock.story pass.seen) item) }
        ensures setup { IfFound result (λ item. item.setup ≡ self.old.setup) }
    {
        let caller = self.caller;
        let lock = &self.locks[shard];
        let pass = &mut self.passes[shard];
        turns::take_out(self.rt, lock, pass, caller, dest, moment)
    }

    /// Takes a packet out of a shard that goes over none of the links to these hops, or says what is left.
    pub(crate) fn take_out_local(
        &mut self,
        shard: usize,
        hops: &[[u8; 32]],
        moment: u64,
    ) -> Found<Held<S>>
        requires { shard < length self.old.locks }
        ensures acts { ActsAt shard (IsTakenBy self.old.caller moment result) self.old self.new }
        ensures dest { IfFound result (λ item. IsUnlinked hops.now (destination item.out)) }
        ensures held { IfFound result (IsHeld S.meaning) }
        // It was accepted since the shard's lock was made.
        ensures accepted { IfFound result (λ item. (lock : _) (pass : _) →
            slice_get self.old.locks shard ≡ Some lock →
            slice_get self.new.passes shard ≡ Some pass →
            WasAccepted (after lock.story pass.seen) item) }
        ensures setup { IfFound result (λ item. item.setup ≡ self.old.setup) }
    {
        let caller = self.caller;
        let lock = &self.locks[shard];
        let pass = &mut self.passes[shard];
        turns::take_out_local(self.rt, lock, pass, caller, hops, moment)
    }

    /// Retires epochs of a shard where they are no longer live and that wasn't tried yet, and says whether it is drained.
    pub(crate) fn rotate(&mut self, shard: usize, moment: u64, tried: u64) -> Rotation
        requires shard { shard < length self.old.locks }
        requires moment { moment < 2 ^ 60 }
        ensures acts { ActsAt shard (IsRotatedAt self.old.caller moment) self.old self.new }
        ensures drained { (lock : _) (pass : _) → slice_get self.old.locks shard ≡ Some lock →
            slice_get self.new.passes shard ≡ Some pass → IsTrue result.drained →
            IsSpent (terms_in lock.origin).callers pass.seen }
    {
        let caller = self.caller;
        let least = least_live(moment, &self.setup.times);
        let lock = &self.locks[shard];
        let pass = &mut self.passes[shard];
        turns::rotate(
            self.rt, self.alloc, lock, pass, caller, moment, least, tried,
        )
    }

    /// The caller claims no more at a shard. Asks that it hasn't ended there.
    pub(crate) fn end(&mut self, shard: usize)
        requires shard { shard < length self.old.locks }
        requires open { (pass : Caller _) → slice_get self.old.passes shard ≡ Some pass →
            has_ended self.old.caller pass.seen ≡ false }
        ensures { ActsAt shard (IsEntry (entry.Done self.old.caller)) self.old self.new }
    {
        let caller = self.caller;
        let lock = &self.locks[shard];
        let pass = &mut self.passes[shard];
        turns::end(self.rt, lock, pass, caller);
    }

    /// The passes.
    pub(crate) fn into_passes(self) -> Vec<ShardPass<R, S>>
        ensures items { result.items ≡ self.entry.passes }
        ensures seated { IsSeated self.entry }
    {
        let Seat {
            rt: _,
            alloc: _,
            locks: _,
            setup: _,
            caller: _,
            passes,
        } = self;
        passes
    }
}
