// A node over racks in memory, for the laboratory suite, and its life.
ghost use Rattle.std.specs.Prelude.{◌≡◌, ℕ, ◌≤◌, ◌<◌, All, IfOk, Some, length, slice_get};
ghost use Rattle.mix_base.specs.Shards.{IsShape};
ghost use Rattle.mix_shard.specs.Shards.{ShardState};
ghost use Rattle.node_run.specs.Openings.{IsShardAt, IsUnused};
ghost use Rattle.node_run.specs.Roles.{callers_for};
ghost use Rattle.node_run.specs.Seats.{CanLive};

use anyhow::{Result, bail};
use epoch_keys::Times;
use mix_base::Shape;
use mix_links::{LinkIn, ListOut, StepClock};
use mix_shard::{Setup, Shard};
use node_actors::{OpenGate, ThreadSpawner};
use node_run::{NodeEnd, NodeSeat, node_life};
use packet_form::Geometry;
use prim_std::LabSuite;
use replay_disk::MemRack;
use std::alloc::Global;
use std::sync::Wait;
use std::thread::Threads;

/// A node that is to live, and one that has lived.
pub type Seat<N> = NodeSeat<MemRack, LabSuite, N, ListOut>;

pub type End<N> = NodeEnd<MemRack, LabSuite, N, ListOut>;

/// How many records a log may have, and how many shards the node has.
const LIMIT: u64 = 65_536;

const SHARDS: u8 = 4;

/// More callers than this no node here has.
const MOST: usize = 1000;

/// The moment that a life's clock gives first.
const START: u64 = 1000;

/// Five hops at most, bodies of 64 bytes, epochs of 2^40 milliseconds without a grace, and a seed of zeros.
pub fn setup() -> Result<Setup>
    ensures { IfOk result (λ setup. setup.geometry.ct ≡ 48) }
{
    Ok(Setup {
        geometry: Geometry::new(48, 5, 64)?,
        times: Times::new(1 << 40, 0)?,
        seed: [0; 32],
    })
}

/// How many callers a node has with so many listeners and workers and no outgoing link.
fn callers(listeners: usize, workers: u32) -> Result<u32>
    ensures { IfOk result (λ callers. callers ≡ callers_for listeners workers 0) }
{
    let even = listeners.saturating_add(workers as usize);
    let most = even.max(2);
    if most > MOST {
        bail!("too many callers");
    }
    Ok(2 * most as u32)
}

/// A shard for so many callers over a rack, to which nothing was done yet.
fn shard(
    alloc: Global,
    setup: &Setup,
    rack: MemRack,
    shape: Shape,
    callers: u32,
) -> Result<Shard<MemRack, LabSuite>>
    requires { IsShape shape }
    ensures unused { IfOk result (IsUnused callers) }
    ensures shape { IfOk result (λ shard. shard.terms.shape ≡ shape) }
    ensures setup { IfOk result (λ shard. shard.terms.setup ≡ setup.now) }
{
    let (geometry, times, seed) = (setup.geometry, setup.times, &setup.seed);
    match Shard::new(alloc, rack, shape, geometry, times, seed, LIMIT, callers) {
        Ok(shard) => Ok(shard),
        Err((_, memory)) => bail!("{memory}"),
    }
}

/// The shards, over empty racks.
fn shards(alloc: Global, setup: &Setup, callers: u32) -> Result<Vec<Shard<MemRack, LabSuite>>>
    ensures many { IfOk result (λ shards. length shards.items ≡ 4) }
    ensures unused { IfOk result (λ shards. All (IsUnused callers) shards.items) }
    ensures places { IfOk result (λ shards. (i : ℕ) (shard : ShardState) →
        slice_get shards.items i ≡ Some shard → IsShardAt setup.now 4 i shard) }
{
    let mut shards = Vec::new(alloc);
    for index in 0..SHARDS {
        let shape = Shape {
            shards: SHARDS,
            index,
        };
        shards.push(shard(alloc, setup, MemRack::new(alloc), shape, callers)?)?;
    }
    Ok(shards)
}

/// A node with these links in, for so many workers.
pub fn node_with<N: LinkIn>(alloc: Global, workers: u32, incoming: Vec<N>) -> Result<Seat<N>>
    requires { 0 < workers }
    ensures { IfOk result (CanLive 48 workers) }
{
    let callers = callers(incoming.len(), workers)?;
    let setup = setup()?;
    let shards = shards(alloc, &setup, callers)?;
    Ok(NodeSeat {
        geo: setup.geometry,
        times: setup.times,
        shards,
        seed: setup.seed,
        incoming,
        outgoing: Vec::new(alloc),
    })
}

/// The life of the node with so many workers.
pub fn live<H, N>(rt: &H, alloc: Global, node: Seat<N>, workers: u32) -> Result<End<N>>
where
    H: Threads + Wait + Sync,
    N: LinkIn + Send,
    requires { CanLive 48 workers node }
{
    let clock = StepClock::new(START);
    let mut spawner = ThreadSpawner::new(rt, Vec::new(alloc));
    let nodes = vec![in alloc; node]?;
    match node_life(
        rt,
        alloc,
        nodes,
        Vec::new(alloc),
        workers,
        &clock,
        &OpenGate,
        &mut spawner,
    ) {
        Ok(mut ended) => match ended.nodes.pop() {
            Some(end) => Ok(end),
            None => bail!("no node"),
        },
        Err(_) => bail!("not run"),
    }
}
