// The rotator: it retires epochs that are no longer live, and ends when the shards are drained.
ghost use Rattle.std.specs.Prelude.{◌≡◌, ◌<◌, ◌^◌, length, vec_len, IsTrue, Some, slice_get};
ghost use Rattle.node_actors.specs.Calls.{IsSpent, terms_in};
ghost use Rattle.node_actors.specs.Connecting.{GoesOnRotating};
ghost use Rattle.node_actors.specs.Seats.{ActsAt, AllSpent, ClaimsNothing, HasMadeNothing, HasTakenNothing, MovesAt};
ghost use Rattle.node_actors.specs.Turns.{IsRotatedAt};

use crate::actors::seats::Seat;
use crate::actors::turns::ShardPass;
use crate::queues::bell::Bell;
use mix_base::Suite;
use mix_links::Clock;
use replay_disk::Rack;
use std::marker::Model;
use std::sync::Wait;

/// How many milliseconds the rotator sleeps at most.
const LATER: u64 = 20;

/// The rotator of a node.
#[derive(Drop)]
pub struct Rotator<'a, H: Wait, R: Rack, S: Suite, C: Clock> {
    pub(crate) seat: Seat<'a, H, R, S>,
    pub(crate) claims: &'a Bell,
    pub(crate) clock: &'a C,
    /// For each shard, the greatest least live epoch that was tried there.
    pub(crate) tried: Vec<u64>,
}

impl<'a, H: Wait, R: Rack, S: Suite, C: Clock> Model for Rotator<'a, H, R, S, C> {
    ghost use Rattle.std.specs.Prelude.{◌≡◌, length, vec_len};
    ghost use Rattle.node_actors.specs.Connecting.{RotatorState};
    ghost use Rattle.node_actors.specs.Seats.{HasTakenNothing, MovesAt};

    ghost Value = { RotatorState C };

    ghost view = { λ r. record { seat = r.seat; clock = r.clock.now } };

    ghost invariant = { λ r.
        (vec_len r.tried ≡ length r.seat.locks)
        × HasTakenNothing r.seat × MovesAt (C.may_give r.clock.now) r.seat.passes };
}

impl<'a, H: Wait, R: Rack, S: Suite, C: Clock> Rotator<'a, H, R, S, C> {
    /// A rotator that has tried the epochs at each shard up to these. Asks a caller that has done nothing.
    pub fn new(
        seat: Seat<'a, H, R, S>,
        claims: &'a Bell,
        clock: &'a C,
        tried: Vec<u64>,
    ) -> Rotator<'a, H, R, S, C>
        requires many { vec_len tried ≡ length seat.locks }
        requires nothing { HasMadeNothing seat }
        ensures { result ≡ record { seat = seat.entry; clock = clock.now } }
    {
        Rotator {
            seat,
            claims,
            clock,
            tried,
        }
    }

    /// Rotates the shards until all are drained.
    pub(crate) fn run(mut self) -> Seat<'a, H, R, S>
        ensures seat { ClaimsNothing self.entry.seat result }
        ensures drained { AllSpent result }
        ensures takes { HasTakenNothing result }
        ensures moves { MovesAt (C.may_give self.entry.clock) result.passes }
    {
        self.serve();
        let Rotator {
            seat,
            claims: _,
            clock: _,
            tried: _,
        } = self;
        seat
    }

    /// Goes through the shards until all are drained.
    fn serve(&mut self)
        ensures kept { GoesOnRotating self.old self.new }
        ensures drained { AllSpent self.new.seat }
    {
        for _ in self.seat.rt.forever() {
            let heard = self.claims.heard();
            let moment = self.clock.now();
            if self.round(moment) {
                return;
            }
            self.claims.doze(self.seat.rt, heard, LATER);
        }
        unreachable!()
    }

    /// The passes, where it isn't run.
    pub(crate) fn into_passes(self) -> Vec<ShardPass<R, S>>
        ensures { result.items ≡ self.entry.seat.passes }
    {
        let Rotator {
            seat,
            claims: _,
            clock: _,
            tried: _,
        } = self;
        seat.into_passes()
    }

    /// Rotates each shard once, where that is due, and says whether all are drained.
    fn round(&mut self, moment: u64) -> bool
        requires low { moment < 2 ^ 60 }
        requires moment { C.may_give self.old.clock moment }
        ensures kept { GoesOnRotating self.old self.new }
        ensures drained { IsTrue result → AllSpent self.new.seat }
    {
        let mut drained = true;
        for shard in 0..self.seat.shards() {
            drained = both(drained, self.visit(shard, moment));
        }
        drained
    }

    /// Rotates a shard once, where that is due, and says whether it is drained.
    fn visit(&mut self, shard: usize, moment: u64) -> bool
        requires shard { shard < length self.old.seat.locks }
        requires low { moment < 2 ^ 60 }
        requires moment { C.may_give self.old.clock moment }
        ensures clock { self.new.clock ≡ self.old.clock }
        ensures acts { ActsAt shard (IsRotatedAt self.old.seat.caller moment)
            self.old.seat self.new.seat }
        ensures drained { (lock : _) (pass : _) → slice_get self.old.seat.locks shard ≡ Some lock →
            slice_get self.new.seat.passes shard ≡ Some pass → IsTrue result →
            IsSpent (terms_in lock.origin).callers pass.seen }
    {
        let found = self.seat.rotate(shard, moment, self.tried[shard]);
        self.tried[shard] = found.tried;
        found.drained
    }
}

/// Whether both are so.
fn both(first: bool, second: bool) -> bool
    ensures first { IsTrue result → IsTrue first }
    ensures second { IsTrue result → IsTrue second }
{
    first && second
}
