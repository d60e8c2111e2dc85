// What comes back of an actor that wasn't run.
ghost use Rattle.std.specs.Prelude.{◌≡◌};
ghost use Rattle.node_actors.specs.Acting.{passes_of};

use crate::actors::crew::{Feeder, NodeActor, Spare};
use crate::actors::gates::Gate;
use crate::actors::turns::ShardPass;
use mix_base::Suite;
use mix_links::{Clock, LinkIn, LinkOut};
use replay_disk::Rack;
use std::sync::Wait;

/// The passes of an actor that wasn't run, as they were; a feed has none. What else it had is gone.
pub fn hand_back<'a, H, R, S, N, O, C, G>(
    actor: NodeActor<'a, H, R, S, N, O, C, G>,
) -> Vec<ShardPass<R, S>>
where
    H: Wait,
    R: Rack,
    S: Suite,
    N: LinkIn,
    O: LinkOut,
    C: Clock,
    G: Gate,
    ensures { result.items ≡ passes_of actor.entry }
{
    match actor {
        NodeActor::Listens(listener) => listener.into_passes(),
        NodeActor::Works(worker) => worker.into_passes(),
        NodeActor::Connects(connector) => connector.into_passes(),
        NodeActor::Keeps(keeper) => keeper.into_passes(),
        NodeActor::Rotates(rotator) => rotator.into_passes(),
        NodeActor::Ends(Spare { seat, claims: _ }) => seat.into_passes(),
        NodeActor::Feeds(Feeder { alloc, feed: _ }) => Vec::new(alloc),
    }
}
