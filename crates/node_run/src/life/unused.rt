// A node that was opened and didn't live: its shards are taken out of their locks as they were put in.
ghost use Rattle.std.specs.Prelude.{◌≡◌, ℕ, [], All, length, map};
ghost use Rattle.node_run.specs.Closings.{AreColumns};
ghost use Rattle.node_run.specs.Ends.{AreBack, AreUnused};
ghost use Rattle.node_run.specs.Rooms.{AreEmpty, IsRoomFor};

use crate::life::closing::close_all;
use crate::life::gathering::put_passes;
use crate::life::halls::Hall;
use crate::life::rooms::{Rooms, RoomsOf, Works};
use crate::life::seats::NodeSeat;
use epoch_keys::Times;
use mix_base::Suite;
use mix_links::{LinkIn, LinkOut};
use node_actors::ShardPass;
use packet_form::Geometry;
use replay_disk::Rack;

// For each lock the passes to it, in the callers' order.
fn turn_round<Q: Drop>(mut lists: Vec<Vec<Q>>, hands: Vec<Vec<Q>>) -> Vec<Vec<Q>>
    requires hands { All (λ hand. length hand.items ≡ length lists.items) hands.items }
    requires lists { AreEmpty (length lists.items) (length hands.items) lists }
    ensures many { length result.items ≡ length lists.items }
    ensures columns { AreColumns (map (λ hand. hand.items) hands.items) result.items }
{
    for hand in hands {
        put_passes(&mut lists, hand);
    }
    lists
}

/// The seat of the node of this hall, which didn't live: each caller's passes are as they were made. Its links are gone.
/// Takes no memory.
pub(crate) fn end_unrun<R: Rack, S: Suite, N: LinkIn, O: LinkOut>(
    hall: Hall<R, S>,
    rooms: RoomsOf<R, S, N, O>,
    hands: Vec<Vec<ShardPass<R, S>>>,
    geo: Geometry,
    times: Times,
    seed: [u8; 32],
) -> NodeSeat<R, S, N, O>
    requires unused { AreUnused hall hands.items }
    requires room { (listeners workers links : ℕ)
        × IsRoomFor (length hall.locks) hall.callers listeners workers links rooms }
    ensures back { AreBack R.tells S.meaning hall.locks result.shards.items }
    ensures setup { (result.geo ≡ geo) × (result.times ≡ times) × (result.seed ≡ seed) }
    ensures links { (result.incoming.items ≡ []) × (result.outgoing.items ≡ []) }
{
    let Hall {
        locks,
        queues: _,
        keys: _,
        claims: _,
        setup: _,
        callers: _,
    } = hall;
    let Rooms {
        passes,
        shards,
        works,
    } = rooms;
    let Works {
        incoming,
        senders: _,
        receivers: _,
        outgoing,
        local: _,
        unsent: _,
        dropped: _,
    } = works;
    let passes = turn_round(passes, hands);
    NodeSeat {
        geo,
        times,
        shards: close_all(locks, passes, shards),
        seed,
        incoming,
        outgoing,
    }
}
