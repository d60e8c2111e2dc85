// A node is closed when its threads have ended.
ghost use Rattle.std.specs.Prelude.{◌≡◌, All, length};
ghost use Rattle.mix_shard.specs.Shards.{IsKept};
ghost use Rattle.node_run.specs.Accounts.{hands_of};
ghost use Rattle.node_run.specs.Closings.{AreClosed};
ghost use Rattle.node_run.specs.Ends.{CanEnd, IsEnd};
ghost use Rattle.node_run.specs.Gatherings.{all_of, link_in, link_out_in, receiver_in, senders_in};
ghost use Rattle.node_run.specs.Rooms.{IsRoomFor};
ghost use Rattle.node_run.specs.Settlings.{AreAllPopped};

use crate::life::closing::close_all;
use crate::life::gathering::gather;
use crate::life::halls::Hall;
use crate::life::rooms::{Rooms, RoomsOf, Works};
use crate::life::seats::NodeEnd;
use crate::life::settling::settle_all;
use mix_base::Suite;
use mix_links::{LinkIn, LinkOut};
use node_actors::LeftBy;
use replay_disk::Rack;
use std::snapshot::Snapshot;

/// The node of this hall, whose callers left this. Takes no memory.
pub(crate) fn end_node<R: Rack, S: Suite, N: LinkIn, O: LinkOut>(
    hall: Hall<R, S>,
    rooms: RoomsOf<R, S, N, O>,
    lefts: Vec<LeftBy<R, S, N, O>>,
) -> NodeEnd<R, S, N, O>
    requires ended { CanEnd hall lefts.items }
    requires room { IsRoomFor (length hall.locks) hall.callers
        (length (all_of link_in lefts.items)) (length (all_of receiver_in lefts.items))
        (length (all_of link_out_in lefts.items)) rooms }
    ensures left { result.left.value ≡ lefts }
    // Each shard's tale goes on from its lock's with the calls that the callers' passes made.
    ensures closed { AreClosed hall.locks (hands_of lefts.items) result.shards.items }
    ensures kept { All (IsKept R.tells S.meaning) result.shards.items }
    // Each worker popped all that the listeners pushed to it.
    ensures popped { AreAllPopped (all_of receiver_in lefts.items)
        (all_of senders_in lefts.items) }
    ensures end { IsEnd lefts.items result.incoming.items result.outgoing.items
        result.local.items result.unsent result.dropped }
{
    let left = Snapshot::of(&lefts);
    let Hall {
        locks,
        queues,
        keys: _,
        claims: _,
        setup: _,
        callers: _,
    } = hall;
    let Rooms {
        passes,
        shards,
        works,
    } = rooms;
    let (passes, works) = gather(passes, works, lefts);
    let Works {
        incoming,
        senders,
        receivers,
        outgoing,
        local,
        unsent,
        dropped,
    } = works;
    settle_all(&queues, receivers, senders);
    let shards = close_all(locks, passes, shards);
    NodeEnd {
        shards,
        local,
        incoming,
        outgoing,
        unsent,
        dropped,
        left,
    }
}
