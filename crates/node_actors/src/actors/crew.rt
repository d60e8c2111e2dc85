// All that a thread of a life may be, as one enum, and what each leaves.
ghost use Rattle.std.specs.Prelude.{◌≡◌, map};
ghost use Rattle.node_actors.specs.Handing.{link_out};
ghost use Rattle.node_actors.specs.Logging.{LeavesConnector, LeavesFeed, LeavesKeeper, LeavesListener, LeavesRotator, LeavesSpare, LeavesWorker};
ghost use Rattle.node_actors.specs.Seats.{ClaimsNothing, HasMadeNothing, IsOpen, MovesNothing};

use crate::actors::connecting::{Connector, ConnectorEnd};
use crate::actors::dealing::{DealerEnd, end_all};
use crate::actors::feeds::Feed;
use crate::actors::gates::Gate;
use crate::actors::keeping::{Keeper, KeeperEnd};
use crate::actors::listening::{Listener, ListenerEnd};
use crate::actors::rotating::Rotator;
use crate::actors::seats::Seat;
use crate::actors::turns::ShardPass;
use crate::actors::working::{Worker, WorkerEnd};
use crate::actors::works::{Left, Work};
use crate::queues::bell::Bell;
use mix_base::Suite;
use mix_links::{Clock, LinkIn, LinkOut};
use mix_shard::Held;
use replay_disk::Rack;
use std::alloc::Global;
use std::sync::Wait;

/// A caller that has nothing to do but to end.
#[derive(Drop)]
pub struct Spare<'a, H: Wait, R: Rack, S: Suite> {
    pub(crate) seat: Seat<'a, H, R, S>,
    pub(crate) claims: &'a Bell,
    pub ghost may_end: { IsOpen seat },
    pub ghost nothing: { HasMadeNothing seat },
}

impl<'a, H: Wait, R: Rack, S: Suite> Spare<'a, H, R, S> {
    /// A caller that only ends. Asks that it hasn't, and that it has done nothing.
    pub fn new(seat: Seat<'a, H, R, S>, claims: &'a Bell) -> Spare<'a, H, R, S>
        requires open { IsOpen seat }
        requires nothing { HasMadeNothing seat }
        ensures { result.seat ≡ seat.entry }
    {
        Spare { seat, claims }
    }
}

/// A feed that is to be sent.
#[derive(Drop)]
pub struct Feeder<O: LinkOut> {
    pub(crate) alloc: Global,
    pub(crate) feed: Feed<O>,
}

impl<O: LinkOut> Feeder<O> {
    /// Of a feed that wasn't sent yet.
    pub fn new(alloc: Global, feed: Feed<O>) -> Feeder<O>
        ensures { result.feed ≡ feed }
    {
        Feeder { alloc, feed }
    }
}

/// A thread of a life: a caller of a node's shards, or a feed.
#[derive(Drop)]
pub enum NodeActor<'a, H: Wait, R: Rack, S: Suite, N: LinkIn, O: LinkOut, C: Clock, G: Gate> {
    Listens(Listener<'a, H, R, S, N, C>),
    Works(Worker<'a, H, R, S, G>),
    Connects(Connector<'a, H, R, S, O, C>),
    Keeps(Keeper<'a, H, R, S, C>),
    Rotates(Rotator<'a, H, R, S, C>),
    Ends(Spare<'a, H, R, S>),
    Feeds(Feeder<O>),
}

pub type LeftBy<R, S, N, O> = Left<ShardPass<R, S>, Held<S>, N, O>;

pub(crate) fn run_listener<H: Wait, R: Rack, S: Suite, N: LinkIn, O: LinkOut, C: Clock>(
    listener: Listener<'_, H, R, S, N, C>,
) -> LeftBy<R, S, N, O>
    ensures { LeavesListener S.meaning C.may_give N.left N.faults
        listener.entry result.passes.items result.work }
{
    let ListenerEnd {
        dealer,
        link,
        senders,
        course,
        ending,
    } = listener.run();
    let DealerEnd { seat, log, dropped } = dealer;
    Left {
        passes: seat.into_passes(),
        work: Work::Listened {
            link,
            log,
            dropped,
            senders,
            course,
            ending,
        },
    }
}

pub(crate) fn run_worker<H: Wait, R: Rack, S: Suite, N: LinkIn, O: LinkOut, G: Gate>(
    worker: Worker<'_, H, R, S, G>,
) -> LeftBy<R, S, N, O>
    ensures { LeavesWorker S.meaning worker.entry result.passes.items result.work }
{
    let WorkerEnd { dealer, receiver } = worker.run();
    let DealerEnd { seat, log, dropped } = dealer;
    Left {
        passes: seat.into_passes(),
        work: Work::Worked {
            receiver,
            log,
            dropped,
        },
    }
}

pub(crate) fn run_connector<H: Wait, R: Rack, S: Suite, N: LinkIn, O: LinkOut, C: Clock>(
    connector: Connector<'_, H, R, S, O, C>,
) -> LeftBy<R, S, N, O>
    ensures { LeavesConnector S.meaning C.may_give O.given O.faults
        connector.entry result.passes.items result.work }
{
    let ConnectorEnd {
        seat,
        hop,
        link,
        log,
        unsent,
    } = connector.run();
    Left {
        passes: seat.into_passes(),
        work: Work::Connected {
            hop,
            link,
            log,
            unsent,
        },
    }
}

pub(crate) fn run_keeper<H: Wait, R: Rack, S: Suite, N: LinkIn, O: LinkOut, C: Clock>(
    keeper: Keeper<'_, H, R, S, C>,
) -> LeftBy<R, S, N, O>
    ensures { LeavesKeeper S.meaning C.may_give
        keeper.entry result.passes.items result.work }
{
    let KeeperEnd {
        seat,
        local,
        log,
        unsent,
    } = keeper.run();
    Left {
        passes: seat.into_passes(),
        work: Work::Kept { local, log, unsent },
    }
}

pub(crate) fn run_rotator<H: Wait, R: Rack, S: Suite, N: LinkIn, O: LinkOut, C: Clock>(
    rotator: Rotator<'_, H, R, S, C>,
) -> LeftBy<R, S, N, O>
    ensures { LeavesRotator C.may_give rotator.entry result.passes.items result.work }
{
    Left {
        passes: rotator.run().into_passes(),
        work: Work::Rotated,
    }
}

pub(crate) fn run_spare<H: Wait, R: Rack, S: Suite, N: LinkIn, O: LinkOut>(
    spare: Spare<'_, H, R, S>,
) -> LeftBy<R, S, N, O>
    ensures { LeavesSpare spare.entry.seat result.passes.items result.work }
{
    let Spare { mut seat, claims } = spare;
    end_where_even(&mut seat, claims);
    Left {
        passes: seat.into_passes(),
        work: Work::Ended,
    }
}

/// A caller of an even number ends at each shard, and wakes those who wait for that.
fn end_where_even<H: Wait, R: Rack, S: Suite>(seat: &mut Seat<'_, H, R, S>, claims: &Bell)
    requires open { IsOpen seat.old }
    requires moves { MovesNothing seat.old.passes }
    ensures claims { ClaimsNothing seat.old seat.new }
    ensures moves { MovesNothing seat.new.passes }
{
    if seat.caller % 2 == 0 {
        end_all(seat);
        claims.ring_all();
    }
}

pub(crate) fn run_feed<R: Rack, S: Suite, N: LinkIn, O: LinkOut>(
    feeder: Feeder<O>,
) -> LeftBy<R, S, N, O>
    ensures { LeavesFeed O.given O.faults
        (map (λ packet. packet.items) feeder.feed.packets.items)
        (link_out O.given O.faults feeder.feed.link) result.passes.items result.work }
{
    let Feeder { alloc, feed } = feeder;
    Left {
        passes: Vec::new(alloc),
        work: Work::Fed { link: feed.run() },
    }
}
