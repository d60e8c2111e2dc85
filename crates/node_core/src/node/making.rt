// How a node is made of racks, and gives them back.
ghost use Rattle.std.specs.Prelude.{◌≡◌, ℕ, [], ◌++◌, ◌+◌, ◌<◌, ◌≤◌, length, map, reverse, IfOk, IfErr, vec_len, vec_capacity};
ghost use Rattle.node_core.specs.Kept.{AreMade, IsMade};
ghost use Rattle.node_core.specs.Nodes.{AreShardsOf, IsNewNode, IsNodeSetup};

use super::Node;
use crate::setup::NodeSetup;
use epoch_keys::KeyRing;
use mix_base::{Memory, Shape, Suite};
use mix_shard::Shard;
use replay_disk::CrashRack;
use std::alloc::Global;
use std::collections::VecDeque;

impl<R: CrashRack, S: Suite> Node<R, S> {
    /// A node over these racks, one for each shard, at which nothing has arrived. The journals aren't opened yet, and no call
    /// of a rack is made. Asks 1 to 16 shards, as many racks, and a limit in 2..=2^26. On want of memory the racks are
    /// handed back, in their order.
    pub fn new(
        alloc: Global,
        racks: Vec<R>,
        setup: NodeSetup,
    ) -> Result<Node<R, S>, (Vec<R>, Memory)>
        requires allowed { IsNodeSetup setup }
        requires count { length racks.items ≡ setup.shards }
        ensures node { IfOk result (IsNewNode setup (map R.state racks.items)) }
        ensures kept { IfOk result (λ node. AreShardsOf R.tells S.meaning setup node.shards) }
        ensures back { IfErr result (λ back.
            map R.state back.0.items ≡ map R.state racks.items) }
    {
        let Ok(room) = Vec::with_capacity(alloc, racks.len()) else {
            return Err((racks, Memory));
        };
        match make_shards(alloc, racks, &setup, room) {
            Ok((shards, places)) => Ok(Node {
                setup,
                ring: KeyRing::new(&setup.seed, setup.times),
                next: 1,
                arrivals: VecDeque::new(alloc),
                workers: [None, None, None, None],
                shards,
                places,
            }),
            Err(back) => Err((back, Memory)),
        }
    }

    /// The racks, in their order. What waits and what is held is lost. Takes no memory.
    pub fn into_racks(self) -> Vec<R>
        ensures { map R.state result.items ≡ map (λ shard. shard.rack) self.shards }
    {
        let Node {
            setup: _,
            ring: _,
            next: _,
            arrivals: _,
            workers: _,
            shards,
            places,
        } = self;
        take_back(shards, places)
    }
}

/// The shards of these racks, in their order, and the emptied list of the racks; or the racks again. `shards` has room for all.
fn make_shards<R: CrashRack, S: Suite>(
    alloc: Global,
    mut racks: Vec<R>,
    setup: &NodeSetup,
    mut shards: Vec<Shard<R, S>>,
) -> Result<(Vec<Shard<R, S>>, Vec<R>), Vec<R>>
    requires allowed { IsNodeSetup setup.now }
    requires count { length racks.items ≡ setup.now.shards }
    requires none { shards.items ≡ [] }
    requires room { vec_len racks ≤ vec_capacity shards }
    ensures made { IfOk result (λ made. AreMade R.tells S.meaning setup.now made.0.items) }
    ensures racks { IfOk result (λ made.
        map (λ shard. shard.rack) made.0.items ≡ map R.state racks.items) }
    ensures places { IfOk result (λ made. made.1.items ≡ []) }
    ensures room { IfOk result (λ made. vec_len made.0 ≤ vec_capacity made.1) }
    ensures back { IfErr result (λ back. map R.state back.items ≡ map R.state racks.items) }
{
    racks.reverse();
    while let Some(rack) = racks.pop() {
        match make_shard(alloc, setup, shards.len(), rack) {
            Ok(shard) => shards.push_reserved(shard),
            Err(rack) => {
                racks.push_reserved(rack);
                return Err(take_back(shards, racks));
            }
        }
    }
    Ok((shards, racks))
}

/// The shard of a rack, in its place among those of a node; or the rack again.
fn make_shard<R: CrashRack, S: Suite>(
    alloc: Global,
    setup: &NodeSetup,
    place: usize,
    rack: R,
) -> Result<Shard<R, S>, R>
    requires allowed { IsNodeSetup setup.now }
    requires place { place < setup.now.shards }
    ensures made { IfOk result (IsMade R.tells S.meaning setup.now place) }
    ensures rack { IfOk result (λ shard. shard.rack ≡ R.state rack) }
    ensures back { IfErr result (λ back. back ≡ rack) }
{
    let shape = Shape {
        shards: setup.shards,
        index: place as u8,
    };
    match Shard::new(
        alloc,
        rack,
        shape,
        setup.geo,
        setup.times,
        &setup.seed,
        setup.limit,
        1,
    ) {
        Ok(shard) => Ok(shard),
        Err((rack, Memory)) => Err(rack),
    }
}

/// The racks of these shards, in their order, and behind them those of `places`, the last first. `places` has room for all.
/// Takes no memory.
fn take_back<R: CrashRack, S: Suite>(mut shards: Vec<Shard<R, S>>, mut places: Vec<R>) -> Vec<R>
    requires { vec_len shards + vec_len places ≤ vec_capacity places }
    ensures { map R.state result.items ≡
        map (λ shard. shard.rack) shards.items ++ map R.state (reverse places.items) }
{
    while let Some(shard) = shards.pop() {
        let (rack, _) = shard.into_parts();
        places.push_reserved(rack);
    }
    places.reverse();
    places
}
