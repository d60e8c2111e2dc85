// A node is opened: its shards go behind locks, and each of its callers gets what it needs. All memory is taken here.
ghost use Rattle.std.specs.Prelude.{◌≡◌, ◌+◌, ◌*◌, ◌^◌, ◌<◌, ◌≤◌, length, map, IfOk, IfErr};
ghost use Rattle.mix_shard.specs.Items.{setup_of};
ghost use Rattle.node_run.specs.Halls.{IsHall, hall_with};
ghost use Rattle.node_run.specs.Openings.{AreFreshHands, CanOpen, IsHallOver, plan_of, tale_of};
ghost use Rattle.node_run.specs.Posts.{ArePosts, plan_for};
ghost use Rattle.node_run.specs.Roles.{callers_for};

use crate::life::halls::Hall;
use crate::life::locking::{Locked, lock_shards};
use crate::life::posts::{Post, posts_of};
use crate::life::queues::open_queues;
use crate::life::seats::NodeSeat;
use epoch_keys::KeyRing;
use mix_base::{Memory, Suite};
use mix_links::{LinkIn, LinkOut};
use mix_shard::{Setup, Shard};
use node_actors::{Bell, PacketQueue, ShardLock, ShardPass};
use replay_disk::Rack;
use std::alloc::Global;
use std::snapshot::Snapshot;
use std::sync::Mutex;

/// What the callers of a node get of their own: each caller's passes, and what else it gets by its role.
#[derive(Drop)]
pub(crate) struct Desk<R: Rack, S: Suite, N: LinkIn, O: LinkOut> {
    pub(crate) hands: Vec<Vec<ShardPass<R, S>>>,
    pub(crate) posts: Vec<Post<N, O>>,
    /// The links as they were handed in; for contracts alone.
    pub(crate) incoming: Snapshot<Vec<N>>,
    pub(crate) outgoing: Snapshot<Vec<([u8; 32], O)>>,
}

/// A node that was opened.
#[derive(Drop)]
pub(crate) struct Opened<R: Rack, S: Suite, N: LinkIn, O: LinkOut> {
    pub(crate) hall: Hall<R, S>,
    pub(crate) desk: Desk<R, S, N, O>,
}

/// Opens a node for so many workers. Where memory is wanting its shards come back with the same tales, and its links
/// are gone.
pub(crate) fn open_node<R: Rack, S: Suite, N: LinkIn, O: LinkOut>(
    alloc: Global,
    seat: NodeSeat<R, S, N, O>,
    workers: u32,
) -> Result<Opened<R, S, N, O>, NodeSeat<R, S, N, O>>
    requires { CanOpen (setup_of seat.geo seat.times seat.seed) seat.shards.items
        (length seat.incoming.items) workers (length seat.outgoing.items) }
    ensures hall { IfOk result (λ opened.
        IsHallOver (setup_of seat.geo seat.times seat.seed) seat.shards.items
        (callers_for (length seat.incoming.items) workers (length seat.outgoing.items)) workers
        opened.hall) }
    ensures hands { IfOk result (λ opened.
        AreFreshHands opened.hall.locks opened.hall.callers opened.desk.hands.items) }
    ensures posts { IfOk result (λ opened.
        ArePosts (plan_of opened.hall seat.incoming.items seat.outgoing.items)
        opened.hall.callers opened.desk.posts.items) }
    ensures incoming { IfOk result (λ opened.
        opened.desk.incoming.value.items ≡ seat.incoming.items) }
    ensures outgoing { IfOk result (λ opened.
        opened.desk.outgoing.value.items ≡ seat.outgoing.items) }
    ensures tales { IfErr result (λ back.
        map tale_of back.shards.items ≡ map tale_of seat.shards.items) }
    ensures setup { IfErr result (λ back.
        setup_of back.geo back.times back.seed ≡ setup_of seat.geo seat.times seat.seed) }
{
    let NodeSeat {
        geo,
        times,
        shards,
        seed,
        incoming,
        outgoing,
    } = seat;
    let setup = Setup {
        geometry: geo,
        times,
        seed,
    };
    let pairs = pairs_for(incoming.len(), workers, outgoing.len());
    let links = (Snapshot::of(&incoming), Snapshot::of(&outgoing));
    let Ok((queues, posts)) = make_posts(
        alloc,
        geo.packet(),
        workers,
        incoming,
        outgoing,
        shards.len(),
        pairs,
    ) else {
        return Err(unopened(alloc, &setup, shards));
    };
    match lock_shards(alloc, shards, 2 * pairs as u32) {
        Ok(Locked { locks, hands }) => Ok(Opened {
            hall: hall_of(locks, queues, &setup, 2 * pairs as u32),
            desk: Desk {
                hands,
                posts,
                incoming: links.0,
                outgoing: links.1,
            },
        }),
        Err(shards) => Err(unopened(alloc, &setup, shards)),
    }
}

/// Half of how many callers a node has with so many listeners, workers and outgoing links.
pub(crate) fn pairs_for(listeners: usize, workers: u32, links: usize) -> usize
    requires { callers_for listeners workers links < 2 ^ 32 }
    ensures { 2 * result ≡ callers_for listeners workers links }
{
    (listeners + workers as usize).max(links + 2)
}

/// The workers' queues, and a post for each caller.
fn make_posts<N: LinkIn, O: LinkOut>(
    alloc: Global,
    size: usize,
    workers: u32,
    incoming: Vec<N>,
    outgoing: Vec<([u8; 32], O)>,
    shards: usize,
    pairs: usize,
) -> Result<(Vec<PacketQueue>, Vec<Post<N, O>>), Memory>
    requires even { length incoming.items + workers ≤ pairs }
    requires odd { length outgoing.items + 2 ≤ pairs }
    requires fit { pairs < 2 ^ 32 }
    ensures many { IfOk result (λ made. length made.0.items ≡ workers) }
    ensures posts { IfOk result (λ made.
        ArePosts (plan_for made.0.items shards size incoming.items outgoing.items)
        (2 * pairs) made.1.items) }
{
    let (queues, receivers) = open_queues(alloc, workers)?;
    let posts = posts_of(
        alloc, &queues, receivers, incoming, outgoing, size, shards, pairs,
    )?;
    Ok((queues, posts))
}

/// What the callers share: these locks and queues, keys that were not made yet, and a bell that hasn't rung.
fn hall_of<R: Rack, S: Suite>(
    locks: Vec<ShardLock<R, S>>,
    queues: Vec<PacketQueue>,
    setup: &Setup,
    callers: u32,
) -> Hall<R, S>
    requires { IsHall (hall_with locks.items queues.items setup.now callers) }
    ensures { result ≡ hall_with locks.items queues.items setup.now callers }
{
    Hall {
        locks,
        queues,
        keys: Mutex::new(KeyRing::new(&setup.seed, setup.times)),
        claims: Bell::new(),
        setup: *setup,
        callers,
    }
}

/// The seat of a node that wasn't opened. Its links are gone.
fn unopened<R: Rack, S: Suite, N: LinkIn, O: LinkOut>(
    alloc: Global,
    setup: &Setup,
    shards: Vec<Shard<R, S>>,
) -> NodeSeat<R, S, N, O>
    ensures shards { result.shards.items ≡ shards.items }
    ensures setup { setup_of result.geo result.times result.seed ≡ setup.now }
{
    NodeSeat {
        geo: setup.geometry,
        times: setup.times,
        shards,
        seed: setup.seed,
        incoming: Vec::new(alloc),
        outgoing: Vec::new(alloc),
    }
}
