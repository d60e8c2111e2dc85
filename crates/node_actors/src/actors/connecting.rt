// The connector of an outgoing link: it takes out what is due for the link's hop, and sends it.
ghost use Rattle.std.specs.Prelude.{◌≡◌, ◌<◌, ◌++◌, [], length, IfSome, IsSomeAnd};
ghost use Rattle.due_queue.specs.declared.destinations.Dest.TheVariants.{Local};
ghost use Rattle.mix_shard.specs.Items.{destination};
ghost use Rattle.node_actors.specs.Connecting.{GoesOnConnecting};
ghost use Rattle.node_actors.specs.Handing.{HandsOver, RoseBy, link_out, sent_where};
ghost use Rattle.node_actors.specs.Seats.{ClaimsNothing, HasMadeNothing, MovesAt};
ghost use Rattle.node_actors.specs.Takings.{HasTaken, not_sent};

use crate::actors::seats::Seat;
use crate::actors::sights::{Sight, goes_on, unsent_with};
use crate::actors::takings::Taking;
use crate::actors::turns::{Found, ShardPass};
use crate::queues::bell::Bell;
use due_queue::Dest;
use mix_base::{History, Suite};
use mix_links::{Clock, LinkOut};
use mix_shard::Held;
use replay_disk::Rack;
use sphinx_unwrap::Out;
use std::marker::Model;
use std::snapshot::Snapshot;
use std::sync::Wait;

/// The connector of the link to a hop.
#[derive(Drop)]
pub struct Connector<'a, H: Wait, R: Rack, S: Suite, O: LinkOut, C: Clock> {
    pub(crate) seat: Seat<'a, H, R, S>,
    pub(crate) claims: &'a Bell,
    pub(crate) clock: &'a C,
    pub(crate) hop: [u8; 32],
    /// The link at first; for contracts alone.
    pub(crate) was: Snapshot<O>,
    pub(crate) link: O,
    pub(crate) log: History<Taking<Held<S>>>,
    pub(crate) unsent: u64,
}

impl<'a, H: Wait, R: Rack, S: Suite, O: LinkOut, C: Clock> Model for Connector<'a, H, R, S, O, C> {
    ghost use Rattle.node_actors.specs.Connecting.{ConnectorState, HasConnected};
    ghost use Rattle.node_actors.specs.Handing.{link_out};

    ghost Value = { ConnectorState C };

    ghost view = { λ t.
        record {
          taker = record { seat = t.seat; log = t.log.items; unsent = t.unsent };
          clock = t.clock.now;
          hop = t.hop;
          was = link_out O.given O.faults t.was.value;
          link = link_out O.given O.faults t.link;
        } };

    ghost invariant = { λ t.
        HasConnected S.meaning C.may_give (record {
          taker = record { seat = t.seat; log = t.log.items; unsent = t.unsent };
          clock = t.clock.now;
          hop = t.hop;
          was = link_out O.given O.faults t.was.value;
          link = link_out O.given O.faults t.link;
        }) };
}

/// A connector that has ended.
#[derive(Drop)]
pub struct ConnectorEnd<'a, H: Wait, R: Rack, S: Suite, O: LinkOut> {
    pub(crate) seat: Seat<'a, H, R, S>,
    pub(crate) hop: [u8; 32],
    pub(crate) link: O,
    pub(crate) log: History<Taking<Held<S>>>,
    pub(crate) unsent: u64,
}

impl<'a, H: Wait, R: Rack, S: Suite, O: LinkOut, C: Clock> Connector<'a, H, R, S, O, C> {
    /// A connector that has taken nothing yet. Asks a caller that has done nothing.
    pub fn new(
        seat: Seat<'a, H, R, S>,
        claims: &'a Bell,
        clock: &'a C,
        hop: [u8; 32],
        link: O,
    ) -> Connector<'a, H, R, S, O, C>
        requires { HasMadeNothing seat }
        ensures { result ≡ record {
          taker = record { seat = seat.entry; log = []; unsent = 0 };
          clock = clock.now;
          hop = hop;
          was = link_out O.given O.faults link;
          link = link_out O.given O.faults link;
        } }
    {
        Connector {
            seat,
            claims,
            clock,
            hop,
            was: Snapshot::of(&link),
            link,
            log: History::new(),
            unsent: 0,
        }
    }

    /// Hands packets on until the shards are drained, and finishes the link.
    pub(crate) fn run(mut self) -> ConnectorEnd<'a, H, R, S, O>
        ensures seat { ClaimsNothing self.entry.taker.seat result.seat }
        ensures taken { HasTaken S.meaning
            (record { seat = result.seat; log = result.log.items; unsent = result.unsent }) }
        ensures moves { MovesAt (C.may_give self.entry.clock) result.seat.passes }
        ensures hop { result.hop ≡ self.entry.hop }
        ensures hands { HandsOver self.entry.hop self.entry.was
            (link_out O.given O.faults result.link) result.log.items }
    {
        self.serve();
        let Connector {
            seat,
            claims: _,
            clock: _,
            hop,
            was: _,
            mut link,
            log,
            unsent,
        } = self;
        let _ = link.finish();
        ConnectorEnd {
            seat,
            hop,
            link,
            log,
            unsent,
        }
    }

    /// The passes, where it isn't run.
    pub(crate) fn into_passes(self) -> Vec<ShardPass<R, S>>
        ensures { result.items ≡ self.entry.taker.seat.passes }
    {
        let Connector {
            seat,
            claims: _,
            clock: _,
            hop: _,
            was: _,
            link: _,
            log: _,
            unsent: _,
        } = self;
        seat.into_passes()
    }

    /// Goes through the shards until they are drained.
    fn serve(&mut self)
        ensures { GoesOnConnecting self.old self.new }
    {
        for _ in self.seat.rt.forever() {
            let heard = self.claims.heard();
            let moment = self.clock.now();
            let sight = self.round(moment);
            if !goes_on(self.seat.rt, self.claims, heard, sight) {
                return;
            }
        }
        unreachable!()
    }

    /// Takes at most one packet out of each shard, and sends it.
    fn round(&mut self, moment: u64) -> Sight
        requires { C.may_give self.old.clock moment }
        ensures { GoesOnConnecting self.old self.new }
    {
        let mut sight = Sight::Drained;
        for shard in 0..self.seat.shards() {
            sight = sight.with(self.visit(shard, moment));
        }
        sight
    }

    /// Takes at most one packet out of a shard, and sends it.
    fn visit(&mut self, shard: usize, moment: u64) -> Sight
        requires shard { shard < length self.old.taker.seat.locks }
        requires moment { C.may_give self.old.clock moment }
        ensures { GoesOnConnecting self.old self.new }
    {
        match self.seat.take_out(shard, &Dest::Hop(self.hop), moment) {
            Found::Packet(held) => {
                let sent = send(&mut self.link, &held);
                self.log.push(&Taking {
                    shard,
                    item: Snapshot::of(&held),
                    sent,
                });
                self.unsent = unsent_with(self.unsent, sent);
                Sight::Moved
            }
            Found::Waiting => Sight::Waiting,
            Found::Empty => Sight::Empty,
            Found::Drained => Sight::Drained,
        }
    }
}

/// Sends what goes out to the next hop, and says whether that was done. Asks a packet that goes to one.
fn send<O: LinkOut, S: Suite>(link: &mut O, held: &Held<S>) -> bool
    requires { ¬ (destination held.now.out ≡ Local) }
    ensures given { IfSome (O.given link.old) (λ was.
        IsSomeAnd (O.given link.new) (λ is. is ≡ was ++ sent_where result held.now.out)) }
    ensures failed { RoseBy (not_sent result) (O.faults link.old) (O.faults link.new) }
{
    match held.out() {
        Out::Forward { next: _, packet } => link.send(packet.as_slice()).is_ok(),
        _ => false,
    }
}
