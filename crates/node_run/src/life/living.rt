// The life of a network's nodes, from their seats to their ends.
ghost use Rattle.std.specs.Prelude.{◌≡◌, ◌+◌, ◌≤◌, All, IfErr, IfOk, length, map};
ghost use Rattle.std.specs.List.{AllZip};
ghost use Rattle.mix_base.specs.Faults.{Rose};
ghost use Rattle.node_run.specs.Crews.{AreAllHands, AreAllLeft, staff_in};
ghost use Rattle.node_run.specs.Houses.{IsDesk, IsStanding, kept_in, node_of};
ghost use Rattle.node_run.specs.Partings.{HasServed, IsFedBy};
ghost use Rattle.node_run.specs.Promises.{HasArrivals, HasGivenBack, HasHandOns, HasLife, HasMoments, HasMoves, HasNoThread, HasRest, seats_in};
ghost use Rattle.node_run.specs.Rooms.{HasRoom, HasRooms};
ghost use Rattle.node_run.specs.Runs.{IfLeft, IfUnrun, IfUnstaffed};
ghost use Rattle.node_run.specs.Runs as runs;
ghost use Rattle.node_run.specs.Seats.{CanLive, kept_of};

use crate::life::crews::count_threads;
use crate::life::houses::{House, Street, close_street, open_all};
use crate::life::partings::{end_life, return_all};
use crate::life::running::{Outcome, run_crew};
use crate::life::seats::{LifeEnd, LifeFault, NodeEnd, NodeSeat};
use mix_base::{Memory, Suite};
use mix_links::{Clock, LinkIn, LinkOut};
use node_actors::{Feed, Gate, ShardPass, Spawner};
use replay_disk::Rack;
use std::alloc::Global;
use std::snapshot::Snapshot;
use std::sync::Wait;

/// Room for the ends of all nodes and for the links of all feeds, or for each thread's passes where none is run.
#[derive(Drop)]
pub(crate) struct Ends<R: Rack, S: Suite, N: LinkIn, O: LinkOut> {
    pub(crate) threads: usize,
    pub(crate) hands: Vec<Vec<ShardPass<R, S>>>,
    pub(crate) nodes: Vec<NodeEnd<R, S, N, O>>,
    pub(crate) links: Vec<O>,
}

/// Room for so many threads, nodes and feeds.
fn make_room<R: Rack, S: Suite, N: LinkIn, O: LinkOut>(
    alloc: Global,
    threads: usize,
    nodes: usize,
    feeds: usize,
) -> Result<Ends<R, S, N, O>, Memory>
    ensures { IfOk result (HasRooms threads nodes feeds) }
{
    Ok(Ends {
        threads,
        hands: Vec::with_capacity(alloc, threads)?,
        nodes: Vec::with_capacity(alloc, nodes)?,
        links: Vec::with_capacity(alloc, feeds)?,
    })
}

/// The end of a life whose threads came to this; or the seats of its nodes, where none was run.
fn settle<R: Rack, S: Suite, N: LinkIn, O: LinkOut, C: Clock>(
    clock: &C,
    houses: Vec<House<R, S, N, O>>,
    seats: Vec<NodeSeat<R, S, N, O>>,
    feeds: &Snapshot<Vec<Feed<O>>>,
    outcome: Outcome<R, S, N, O>,
    nodes: Vec<NodeEnd<R, S, N, O>>,
    links: Vec<O>,
) -> Result<LifeEnd<R, S, N, O>, LifeFault<R, S, N, O>>
    requires standing { All (IsStanding S.K.CT) houses.items }
    requires left { IfLeft outcome (AreAllLeft S.meaning C.may_give N.left N.faults O.given
        O.faults clock.now houses.items feeds.now.value.items) }
    requires unrun { IfUnrun outcome (AreAllHands houses.items) }
    requires unstaffed { IfUnstaffed outcome (AllZip IsDesk houses.items) }
    requires seats { HasRoom (length houses.items) seats }
    requires nodes { HasRoom (length houses.items) nodes }
    requires links { HasRoom (length feeds.now.value.items) links }
    ensures served { IfOk result (λ ended. AllZip (λ house end. HasServed R.tells S.meaning
        C.may_give N.left N.faults O.given O.faults (node_of clock.now house) end)
        houses.items ended.nodes.items) }
    ensures fed { IfOk result (λ ended.
        AllZip (IsFedBy O.given O.faults) feeds.now.value.items ended.feeds.items) }
    ensures back { IfErr result (λ fault.
        map kept_of (seats_in fault) ≡ map kept_in houses.items) }
    ensures no_thread { HasNoThread result → runs.HasNoThread outcome }
    ensures refused { IfLeft outcome (λ _. ⊥) → IfOk result (λ _. ⊥) }
{
    match outcome {
        Outcome::Left(lefts) => Ok(end_life(clock, houses, feeds, lefts, nodes, links)),
        Outcome::NoThread(hands) => Err(LifeFault::NoThread(return_all(houses, hands, seats))),
        Outcome::Memory(hands) => Err(LifeFault::Memory(return_all(houses, hands, seats))),
        Outcome::Unstaffed(desks) => Err(LifeFault::Memory(close_street(Street {
            houses,
            desks,
            seats,
        }))),
    }
}

/// The life of the opened nodes of a street.
fn live<H, R, S, N, O, C, G, P>(
    rt: &H,
    alloc: Global,
    street: Street<R, S, N, O>,
    feeds: Vec<Feed<O>>,
    room: Ends<R, S, N, O>,
    clock: &C,
    gate: &G,
    spawner: &mut P,
) -> Result<LifeEnd<R, S, N, O>, LifeFault<R, S, N, O>>
where
    H: Wait + Sync,
    R: Rack + Send,
    S: Suite + Send + Sync,
    S::K: Send,
    S::M: Send,
    S::D: Send,
    S::C: Send,
    S::W: Send,
    N: LinkIn + Send,
    O: LinkOut + Send,
    C: Clock + Sync,
    G: Gate + Sync,
    P: Spawner,
    requires standing { All (IsStanding S.K.CT) street.houses.items }
    requires desks { AllZip IsDesk street.houses.items street.desks.items }
    requires seats { HasRoom (length street.houses.items) street.seats }
    requires threads { staff_in street.houses.items + length feeds.items ≤ room.threads }
    requires room { HasRooms room.threads (length street.houses.items) (length feeds.items) room }
    ensures served { IfOk result (λ ended. AllZip (λ house end. HasServed R.tells S.meaning
        C.may_give N.left N.faults O.given O.faults (node_of clock.now house) end)
        street.houses.items ended.nodes.items) }
    ensures fed { IfOk result (λ ended.
        AllZip (IsFedBy O.given O.faults) feeds.items ended.feeds.items) }
    ensures back { IfErr result (λ fault.
        map kept_of (seats_in fault) ≡ map kept_in street.houses.items) }
    ensures no_thread { HasNoThread result → Rose (P.faults spawner.old) (P.faults spawner.new) }
    ensures refused { P.refuses spawner.old → IfOk result (λ _. ⊥) }
    ensures count { P.faults spawner.old ≤ P.faults spawner.new }
{
    let Street {
        houses,
        desks,
        seats,
    } = street;
    let Ends {
        threads,
        hands,
        nodes,
        links,
    } = room;
    let told = Snapshot::of(&feeds);
    let outcome = run_crew(
        rt, alloc, threads, &houses, clock, gate, desks, feeds, hands, spawner,
    );
    settle(clock, houses, seats, &told, outcome, nodes, links)
}

/// Runs these nodes until their links have ended: each has a listener for each of its links in, so many workers, a connector
/// for each of its links out, a local connector and a rotator, and sends what is due; and each feed sends its packets and
/// then finishes its link. Each node's shards, links and counts, and the feeds' links, come back once all threads have ended.
///
/// Asks at least one worker; and of each seat that its shards hold nothing, that nobody has ended there, that the i-th of n
/// is the one with index i of n, that all are of the seat's setup, with as many callers as the node has threads, and that
/// the geometry's ciphertext has the suite's length.
///
/// Where a thread can't be started, or memory is wanting, no thread has run: the seats are back, their shards as they were.
pub fn node_life<H, R, S, N, O, C, G, P>(
    rt: &H,
    alloc: Global,
    nodes: Vec<NodeSeat<R, S, N, O>>,
    feeds: Vec<Feed<O>>,
    workers: u32,
    clock: &C,
    gate: &G,
    spawner: &mut P,
) -> Result<LifeEnd<R, S, N, O>, LifeFault<R, S, N, O>>
where
    H: Wait + Sync,
    R: Rack + Send,
    S: Suite + Send + Sync,
    S::K: Send,
    S::M: Send,
    S::D: Send,
    S::C: Send,
    S::W: Send,
    N: LinkIn + Send,
    O: LinkOut + Send,
    C: Clock + Sync,
    G: Gate + Sync,
    P: Spawner,
    requires { All (CanLive S.K.CT workers) nodes.items }
    // What became of each node's shards, and that nothing is held.
    ensures life { IfOk result (λ ended. AllZip (HasLife workers clock.now R.tells S.meaning)
        nodes.items ended.nodes.items) }
    // Each packet that arrived was dealt with once, and its fate has its cause.
    ensures arrivals { IfOk result (λ ended. AllZip (HasArrivals workers clock.now S.meaning
        N.left N.faults) nodes.items ended.nodes.items) }
    // No packet has two claims.
    ensures moves { IfOk result (λ ended. AllZip (HasMoves workers clock.now)
        nodes.items ended.nodes.items) }
    // No packet is handed on twice, and each is one that was accepted.
    ensures hand_ons { IfOk result (λ ended. AllZip (HasHandOns workers clock.now R.tells S.meaning
        O.given O.faults) nodes.items ended.nodes.items) }
    // Each moment is one that the clock may give.
    ensures moments { IfOk result (λ ended. AllZip (HasMoments workers clock.now C.may_give)
        nodes.items ended.nodes.items) }
    // What was accepted lasts.
    ensures rest { IfOk result (λ ended. All (HasRest R.tells) ended.nodes.items) }
    // The links, local packets and counts are those that the threads left.
    ensures given_back { IfOk result (λ ended. All HasGivenBack ended.nodes.items) }
    // Each feed's packets were given to its link, but for those whose sending failed.
    ensures fed { IfOk result (λ ended.
        AllZip (IsFedBy O.given O.faults) feeds.items ended.feeds.items) }
    // Where the life didn't begin, each shard has the origin and the tale that it came with.
    ensures refusal { IfErr result (λ fault.
        map kept_of (seats_in fault) ≡ map kept_of nodes.items) }
    // No thread for a stated cause: the spawner's count of failures rose.
    ensures no_thread { HasNoThread result → Rose (P.faults spawner.old) (P.faults spawner.new) }
    // A spawner that refuses lets no life begin.
    ensures refused { P.refuses spawner.old → IfOk result (λ _. ⊥) }
    ensures count { P.faults spawner.old ≤ P.faults spawner.new }
{
    let Some(threads) = count_threads(&nodes, feeds.len(), workers) else {
        return Err(LifeFault::Memory(nodes));
    };
    let Ok(room) = make_room(alloc, threads, nodes.len(), feeds.len()) else {
        return Err(LifeFault::Memory(nodes));
    };
    match open_all(alloc, nodes, workers) {
        Ok(street) => live(rt, alloc, street, feeds, room, clock, gate, spawner),
        Err(nodes) => Err(LifeFault::Memory(nodes)),
    }
}
