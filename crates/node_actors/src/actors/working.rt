// A worker: it deals with the packets that come out of its queue, until each listener has ended.
ghost use Rattle.std.specs.Prelude.{◌≡◌, ◌++◌, []};
ghost use Rattle.node_actors.specs.Fates.{HasDealt};
ghost use Rattle.node_actors.specs.Packets.{arrived, dealt_packets};
ghost use Rattle.node_actors.specs.Queues.{marks};
ghost use Rattle.node_actors.specs.Seats.{IsSameSeat, MovesNothing};
ghost use Rattle.node_actors.specs.Working.{DealsWithNext, KeepsWorking, Worked};

use crate::actors::dealing::{Dealer, DealerEnd};
use crate::actors::gates::Gate;
use crate::actors::turns::ShardPass;
use crate::queues::{Arrival, PacketQueue, Receiver};
use mix_base::Suite;
use replay_disk::Rack;
use std::marker::Model;
use std::sync::Wait;

/// A worker of a node.
#[derive(Drop)]
pub struct Worker<'a, H: Wait, R: Rack, S: Suite, G: Gate> {
    pub(crate) dealer: Dealer<'a, H, R, S>,
    pub(crate) gate: &'a G,
    pub(crate) worker: u32,
    pub(crate) queue: &'a PacketQueue,
    pub(crate) receiver: Receiver,
}

impl<'a, H: Wait, R: Rack, S: Suite, G: Gate> Model for Worker<'a, H, R, S, G> {
    ghost use Rattle.node_actors.specs.Working.{HasWorked, WorkerState};

    ghost Value = { WorkerState };

    ghost view = { λ w. record { dealer = w.dealer; queue = w.queue.now; receiver = w.receiver } };

    ghost invariant = { λ w.
        HasWorked (record { dealer = w.dealer; queue = w.queue.now; receiver = w.receiver }) };
}

/// A worker that has ended.
#[derive(Drop)]
pub struct WorkerEnd<'a, H: Wait, R: Rack, S: Suite> {
    pub(crate) dealer: DealerEnd<'a, H, R, S>,
    pub(crate) receiver: Receiver,
}

impl<'a, H: Wait, R: Rack, S: Suite, G: Gate> Worker<'a, H, R, S, G> {
    /// A worker that has popped nothing yet.
    pub fn new(
        dealer: Dealer<'a, H, R, S>,
        gate: &'a G,
        worker: u32,
        queue: &'a PacketQueue,
        receiver: Receiver,
    ) -> Worker<'a, H, R, S, G>
        requires own { receiver.queue ≡ queue.now }
        requires popped { receiver.popped ≡ [] }
        requires log { dealer.log ≡ [] }
        ensures { result ≡ record {
          dealer = dealer.entry;
          queue = queue.now;
          receiver = receiver;
        } }
    {
        Worker {
            dealer,
            gate,
            worker,
            queue,
            receiver,
        }
    }

    /// Deals with what comes out of the queue.
    pub(crate) fn run(mut self) -> WorkerEnd<'a, H, R, S>
        ensures worked { Worked self.entry
            result.dealer.seat result.dealer.log.items result.receiver }
        ensures dealt { HasDealt S.meaning (record {
          seat = result.dealer.seat;
          log = result.dealer.log.items;
          dropped = result.dealer.dropped;
        }) }
        ensures moves { MovesNothing result.dealer.seat.passes }
    {
        self.serve();
        let Worker {
            dealer,
            gate: _,
            worker: _,
            queue: _,
            receiver,
        } = self;
        WorkerEnd {
            dealer: dealer.end(),
            receiver,
        }
    }

    /// The passes, where it isn't run.
    pub(crate) fn into_passes(self) -> Vec<ShardPass<R, S>>
        ensures { result.items ≡ self.entry.dealer.seat.passes }
    {
        let Worker {
            dealer,
            gate: _,
            worker: _,
            queue: _,
            receiver: _,
        } = self;
        dealer.into_passes()
    }

    /// Deals with what comes out of the queue until each listener has ended.
    fn serve(&mut self)
        ensures kept { KeepsWorking self.old self.new }
        ensures ended { marks self.new.receiver.popped ≡ self.new.receiver.senders }
    {
        for _ in self.dealer.seat.rt.forever() {
            if self.receiver.is_done() {
                return;
            }
            self.work();
        }
        unreachable!()
    }

    /// Pops the next item, and deals with it.
    fn work(&mut self)
        ensures { KeepsWorking self.old self.new }
    {
        pop_and_deal(
            &mut self.dealer,
            self.gate,
            self.worker,
            self.queue,
            &mut self.receiver,
        );
    }
}

/// Pops the next item of the queue, and deals with its packet.
fn pop_and_deal<H: Wait, R: Rack, S: Suite, G: Gate>(
    dealer: &mut Dealer<'_, H, R, S>,
    gate: &G,
    worker: u32,
    queue: &PacketQueue,
    receiver: &mut Receiver,
)
    requires { receiver.old.queue ≡ queue.now }
    ensures seat { IsSameSeat dealer.old.seat dealer.new.seat }
    ensures item { DealsWithNext receiver.old dealer.old.log receiver.new dealer.new.log }
{
    let rt = dealer.seat.rt;
    let item = queue.pop(rt, receiver);
    deal_arrival(dealer, gate, worker, item.arrival);
}

/// Deals with the packet of an item, where it isn't an end mark.
fn deal_arrival<H: Wait, R: Rack, S: Suite, G: Gate>(
    dealer: &mut Dealer<'_, H, R, S>,
    gate: &G,
    worker: u32,
    arrival: Option<Arrival>,
)
    ensures seat { IsSameSeat dealer.old.seat dealer.new.seat }
    ensures log { dealt_packets dealer.new.log
        ≡ dealt_packets dealer.old.log ++ arrived arrival }
{
    match arrival {
        Some(arrival) => dealer.deal(gate, worker, arrival),
        None => {}
    }
}
