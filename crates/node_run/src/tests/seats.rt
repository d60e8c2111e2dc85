// Nodes over racks in memory, for the laboratory suite, and their lives.
ghost use Rattle.std.specs.Prelude.{◌≡◌, ℕ, ◌≤◌, ◌<◌, All, IfOk, Some, length, slice_get};
ghost use Rattle.mix_base.specs.Shards.{IsShape};
ghost use Rattle.mix_shard.specs.Shards.{ShardState};
ghost use Rattle.node_run.specs.Openings.{IsShardAt, IsUnused};
ghost use Rattle.node_run.specs.Roles.{callers_for};
ghost use Rattle.node_run.specs.Seats.{CanLive};

use crate::{LifeEnd, NodeEnd, NodeSeat, node_life};
use epoch_keys::Times;
use mix_base::Shape;
use mix_links::{LinkIn, LinkOut, StepClock};
use mix_shard::{Setup, Shard};
use node_actors::{Feed, Gate, ThreadSpawner};
use packet_form::Geometry;
use prim_std::LabSuite;
use replay_disk::MemRack;
use std::alloc::Global;
use std::sync::Wait;
use std::test::Fail;
use std::thread::Threads;

/// A node that is to live, and one that has lived.
pub type Seat<N, O> = NodeSeat<MemRack, LabSuite, N, O>;

pub type End<N, O> = NodeEnd<MemRack, LabSuite, N, O>;

/// How many records a log may have.
const LIMIT: u64 = 65_536;

/// More callers than this no node here has.
const MOST: usize = 1000;

/// The moment that a life's clock gives first.
const START: u64 = 1000;

/// Five hops at most, bodies of 64 bytes, epochs of 2^40 milliseconds without a grace, and a seed of 32 times a byte.
pub fn setup(seed: u8) -> Result<Setup, Fail>
    ensures { IfOk result (λ setup. setup.geometry.ct ≡ 48) }
{
    Ok(Setup {
        geometry: Geometry::new(48, 5, 64)?,
        times: Times::new(1 << 40, 0)?,
        seed: [seed; 32],
    })
}

/// How many callers a node has with so many listeners, workers and outgoing links.
pub fn callers(listeners: usize, workers: u32, links: usize) -> Result<u32, Fail>
    ensures { IfOk result (λ callers. callers ≡ callers_for listeners workers links) }
{
    let even = listeners.saturating_add(workers as usize);
    let odd = links.saturating_add(2);
    let most = even.max(odd);
    if most > MOST {
        return Err(Fail::from("too many callers"));
    }
    Ok(2 * most as u32)
}

/// A shard for so many callers over a rack, to which nothing was done yet.
pub fn shard(
    alloc: Global,
    setup: &Setup,
    rack: MemRack,
    shape: Shape,
    callers: u32,
) -> Result<Shard<MemRack, LabSuite>, Fail>
    requires { IsShape shape }
    ensures unused { IfOk result (IsUnused callers) }
    ensures shape { IfOk result (λ shard. shard.terms.shape ≡ shape) }
    ensures setup { IfOk result (λ shard. shard.terms.setup ≡ setup.now) }
{
    let (geometry, times, seed) = (setup.geometry, setup.times, &setup.seed);
    match Shard::new(alloc, rack, shape, geometry, times, seed, LIMIT, callers) {
        Ok(shard) => Ok(shard),
        Err((_, memory)) => Err(Fail::from(memory)),
    }
}

/// So many shards, 1 to 16, over empty racks.
pub fn shards(
    alloc: Global,
    setup: &Setup,
    count: u8,
    callers: u32,
) -> Result<Vec<Shard<MemRack, LabSuite>>, Fail>
    requires { (1 ≤ count) × (count ≤ 16) }
    ensures many { IfOk result (λ shards. length shards.items ≡ count) }
    ensures unused { IfOk result (λ shards. All (IsUnused callers) shards.items) }
    ensures places { IfOk result (λ shards. (i : ℕ) (shard : ShardState) →
        slice_get shards.items i ≡ Some shard → IsShardAt setup.now count i shard) }
{
    let mut shards = Vec::new(alloc);
    for index in 0..count {
        let shape = Shape {
            shards: count,
            index,
        };
        shards.push(shard(alloc, setup, MemRack::new(alloc), shape, callers)?)?;
    }
    Ok(shards)
}

/// A node whose seed is 32 times a byte, with so many shards, 1 to 16, for so many workers.
pub fn seat<N: LinkIn, O: LinkOut>(
    alloc: Global,
    seed: u8,
    count: u8,
    workers: u32,
    incoming: Vec<N>,
    outgoing: Vec<([u8; 32], O)>,
) -> Result<Seat<N, O>, Fail>
    requires shards { (1 ≤ count) × (count ≤ 16) }
    requires workers { 0 < workers }
    ensures { IfOk result (CanLive 48 workers) }
{
    let callers = callers(incoming.len(), workers, outgoing.len())?;
    let setup = setup(seed)?;
    let shards = shards(alloc, &setup, count, callers)?;
    Ok(NodeSeat {
        geo: setup.geometry,
        times: setup.times,
        shards,
        seed: setup.seed,
        incoming,
        outgoing,
    })
}

/// The life of these nodes with so many workers.
pub fn live<H, N, O, G>(
    rt: &H,
    alloc: Global,
    nodes: Vec<Seat<N, O>>,
    feeds: Vec<Feed<O>>,
    workers: u32,
    gate: &G,
) -> Result<LifeEnd<MemRack, LabSuite, N, O>, Fail>
where
    H: Threads + Wait + Sync,
    N: LinkIn + Send,
    O: LinkOut + Send,
    G: Gate + Sync,
    requires { All (CanLive 48 workers) nodes.items }
{
    let clock = StepClock::new(START);
    let mut spawner = ThreadSpawner::new(rt, Vec::new(alloc));
    match node_life(rt, alloc, nodes, feeds, workers, &clock, gate, &mut spawner) {
        Ok(ended) => Ok(ended),
        Err(_) => Err(Fail::from("not run")),
    }
}

/// The life of one node without feeds.
pub fn live_alone<H, N, O, G>(
    rt: &H,
    alloc: Global,
    node: Seat<N, O>,
    workers: u32,
    gate: &G,
) -> Result<End<N, O>, Fail>
where
    H: Threads + Wait + Sync,
    N: LinkIn + Send,
    O: LinkOut + Send,
    G: Gate + Sync,
    requires { CanLive 48 workers node }
{
    let nodes = vec![in alloc; node]?;
    let mut ended = live(rt, alloc, nodes, Vec::new(alloc), workers, gate)?;
    match ended.nodes.pop() {
        Some(end) => Ok(end),
        None => Err(Fail::from("no node")),
    }
}
