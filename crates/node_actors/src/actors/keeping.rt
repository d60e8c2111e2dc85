// The local connector: it takes out what is due for a recipient of this node, and keeps it. What goes to a hop without a
// link is taken out too, and lost.
ghost use Rattle.std.specs.Prelude.{◌≡◌, ◌<◌, ◌++◌, [], All, length, true, vec_capacity, vec_len};
ghost use Rattle.due_queue.specs.declared.destinations.Dest.TheVariants.{Local};
ghost use Rattle.mix_shard.specs.Items.{destination};
ghost use Rattle.node_actors.specs.Connecting.{GoesOnKeeping};
ghost use Rattle.node_actors.specs.Handing.{KeepsLocal, kept_where};
ghost use Rattle.node_actors.specs.Seats.{ClaimsNothing, HasMadeNothing, MovesAt};
ghost use Rattle.node_actors.specs.Takings.{HasTaken};

use crate::actors::seats::Seat;
use crate::actors::sights::{Sight, goes_on, unsent_with};
use crate::actors::takings::Taking;
use crate::actors::turns::{Found, ShardPass};
use crate::queues::bell::Bell;
use mix_base::{History, Suite};
use mix_links::Clock;
use mix_shard::Held;
use replay_disk::Rack;
use sphinx_unwrap::Out;
use std::marker::Model;
use std::snapshot::Snapshot;
use std::sync::Wait;

/// The local connector of a node with links to these hops.
#[derive(Drop)]
pub struct Keeper<'a, H: Wait, R: Rack, S: Suite, C: Clock> {
    pub(crate) seat: Seat<'a, H, R, S>,
    pub(crate) claims: &'a Bell,
    pub(crate) clock: &'a C,
    pub(crate) hops: Vec<[u8; 32]>,
    pub(crate) local: Vec<Held<S>>,
    pub(crate) log: History<Taking<Held<S>>>,
    pub(crate) unsent: u64,
}

impl<'a, H: Wait, R: Rack, S: Suite, C: Clock> Model for Keeper<'a, H, R, S, C> {
    ghost use Rattle.node_actors.specs.Connecting.{HasKept, KeeperState};

    ghost Value = { KeeperState C };

    ghost view = { λ t.
        record {
          taker = record { seat = t.seat; log = t.log.items; unsent = t.unsent };
          clock = t.clock.now;
          hops = t.hops.items;
          local = t.local.items;
        } };

    ghost invariant = { λ t.
        HasKept S.meaning C.may_give (record {
          taker = record { seat = t.seat; log = t.log.items; unsent = t.unsent };
          clock = t.clock.now;
          hops = t.hops.items;
          local = t.local.items;
        }) };
}

/// A local connector that has ended.
#[derive(Drop)]
pub struct KeeperEnd<'a, H: Wait, R: Rack, S: Suite> {
    pub(crate) seat: Seat<'a, H, R, S>,
    pub(crate) local: Vec<Held<S>>,
    pub(crate) log: History<Taking<Held<S>>>,
    pub(crate) unsent: u64,
}

impl<'a, H: Wait, R: Rack, S: Suite, C: Clock> Keeper<'a, H, R, S, C> {
    /// A local connector that has taken nothing yet. Asks a caller that has done nothing.
    pub fn new(
        seat: Seat<'a, H, R, S>,
        claims: &'a Bell,
        clock: &'a C,
        hops: Vec<[u8; 32]>,
        local: Vec<Held<S>>,
    ) -> Keeper<'a, H, R, S, C>
        requires nothing { HasMadeNothing seat }
        requires local { local.items ≡ [] }
        ensures { result ≡ record {
          taker = record { seat = seat.entry; log = []; unsent = 0 };
          clock = clock.now;
          hops = hops.items;
          local = [];
        } }
    {
        Keeper {
            seat,
            claims,
            clock,
            hops,
            local,
            log: History::new(),
            unsent: 0,
        }
    }

    /// Takes packets until the shards are drained.
    pub(crate) fn run(mut self) -> KeeperEnd<'a, H, R, S>
        ensures seat { ClaimsNothing self.entry.taker.seat result.seat }
        ensures taken { HasTaken S.meaning
            (record { seat = result.seat; log = result.log.items; unsent = result.unsent }) }
        ensures moves { MovesAt (C.may_give self.entry.clock) result.seat.passes }
        ensures keeps { KeepsLocal self.entry.hops result.local.items result.log.items }
    {
        self.serve();
        let Keeper {
            seat,
            claims: _,
            clock: _,
            hops: _,
            local,
            log,
            unsent,
        } = self;
        KeeperEnd {
            seat,
            local,
            log,
            unsent,
        }
    }

    /// The passes, where it isn't run.
    pub(crate) fn into_passes(self) -> Vec<ShardPass<R, S>>
        ensures { result.items ≡ self.entry.taker.seat.passes }
    {
        let Keeper {
            seat,
            claims: _,
            clock: _,
            hops: _,
            local: _,
            log: _,
            unsent: _,
        } = self;
        seat.into_passes()
    }

    /// Goes through the shards until they are drained.
    fn serve(&mut self)
        ensures { GoesOnKeeping self.old self.new }
    {
        for _ in self.seat.rt.forever() {
            let heard = self.claims.heard();
            let moment = self.clock.now();
            let sight = self.round(moment);
            if !goes_on(self.seat.rt, self.claims, heard, sight) {
                return;
            }
        }
        unreachable!()
    }

    /// Takes at most one packet out of each shard.
    fn round(&mut self, moment: u64) -> Sight
        requires { C.may_give self.old.clock moment }
        ensures { GoesOnKeeping self.old self.new }
    {
        let mut sight = Sight::Drained;
        for shard in 0..self.seat.shards() {
            sight = sight.with(self.visit(shard, moment));
        }
        sight
    }

    /// Takes at most one packet out of a shard. Room for it comes first; where memory is wanting none is taken in this round.
    fn visit(&mut self, shard: usize, moment: u64) -> Sight
        requires shard { shard < length self.old.taker.seat.locks }
        requires moment { C.may_give self.old.clock moment }
        ensures { GoesOnKeeping self.old self.new }
    {
        if self.local.reserve(1).is_err() {
            return Sight::Waiting;
        }
        match self
            .seat
            .take_out_local(shard, self.hops.as_slice(), moment)
        {
            Found::Packet(held) => {
                let item = Snapshot::of(&held);
                let sent = keep(&mut self.local, held);
                self.log.push(&Taking { shard, item, sent });
                self.unsent = unsent_with(self.unsent, sent);
                Sight::Moved
            }
            Found::Waiting => Sight::Waiting,
            Found::Empty => Sight::Empty,
            Found::Drained => Sight::Drained,
        }
    }
}

/// Puts what is for a recipient of this node behind the others, and says whether it is for one. Asks room for it.
fn keep<S: Suite>(local: &mut Vec<Held<S>>, held: Held<S>) -> bool
    requires { vec_len local.old < vec_capacity local.old }
    ensures kept { local.new.items ≡ local.old.items ++ kept_where result held }
    ensures for_recipient { All (λ item. destination item.out ≡ Local) (kept_where result held) }
    ensures none_lost { destination held.out ≡ Local → result ≡ true }
{
    match held.out() {
        Out::Forward { .. } => false,
        _ => {
            local.push_reserved(held);
            true
        }
    }
}
