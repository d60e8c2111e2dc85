// All threads of a life, side by side.
ghost use Rattle.std.specs.Prelude.{◌≡◌, ◌+◌, ◌≤◌, [], All, length, vec_capacity, vec_len, IfSome};
ghost use Rattle.std.specs.List.{AllZip};
ghost use Rattle.node_run.specs.Crews.{AddsFeeders, IsHandOf, IsStaffOf, callers_in, staff_in};
ghost use Rattle.node_run.specs.Seats.{CanLive};
ghost use Rattle.node_run.specs.Houses.{IsDesk, IsStanding};
ghost use Rattle.node_run.specs.Parts.{Parted};
ghost use Rattle.node_run.specs.Rooms.{HasRoom};

use crate::life::houses::House;
use crate::life::opening::{Desk, pairs_for};
use crate::life::seats::NodeSeat;
use crate::life::staffing::staff;
use mix_base::Suite;
use mix_links::{Clock, LinkIn, LinkOut};
use node_actors::{Feed, Feeder, Gate, NodeActor, ShardPass, hand_back};
use replay_disk::Rack;
use std::alloc::Global;
use std::sync::Wait;

/// How many threads these nodes and so many feeds need, where that is below 2^64.
pub(crate) fn count_threads<R: Rack, S: Suite, N: LinkIn, O: LinkOut>(
    nodes: &[NodeSeat<R, S, N, O>],
    feeds: usize,
    workers: u32,
) -> Option<usize>
    requires { All (CanLive S.K.CT workers) nodes.now }
    ensures { IfSome result (λ many. many ≡ callers_in workers nodes.now + feeds) }
{
    let mut many = feeds;
    for seat in nodes {
        let pairs = pairs_for(seat.incoming.len(), workers, seat.outgoing.len());
        many = many.checked_add(2 * pairs)?;
    }
    Some(many)
}

/// The actors of all nodes, in the room of this list.
pub(crate) fn staff_all<'a, H, R, S, N, O, C, G>(
    rt: &'a H,
    alloc: Global,
    houses: &'a [House<R, S, N, O>],
    clock: &'a C,
    gate: &'a G,
    desks: Vec<Desk<R, S, N, O>>,
    mut actors: Vec<NodeActor<'a, H, R, S, N, O, C, G>>,
) -> Vec<NodeActor<'a, H, R, S, N, O, C, G>>
where
    H: Wait,
    R: Rack,
    S: Suite,
    N: LinkIn,
    O: LinkOut,
    C: Clock,
    G: Gate,
    requires standing { All (IsStanding S.K.CT) houses.now }
    requires desks { AllZip IsDesk houses.now desks.items }
    requires room { HasRoom (staff_in houses.now) actors }
    ensures staff { Parted
        (IsStaffOf S.meaning C.may_give N.left N.faults O.given O.faults clock.now)
        (λ rest. rest ≡ []) houses.now result.items }
    ensures len { vec_len result ≡ staff_in houses.now }
    ensures room { vec_capacity result ≡ vec_capacity actors.entry }
{
    let mut desks = desks.into_iter();
    for house in houses {
        let Some(desk) = desks.next() else {
            unreachable!()
        };
        staff(rt, alloc, &house.hall, clock, gate, desk, &mut actors);
    }
    actors
}

/// Puts the actors of these feeds behind the others.
pub(crate) fn add_feeders<'a, H, R, S, N, O, C, G>(
    alloc: Global,
    feeds: Vec<Feed<O>>,
    mut actors: Vec<NodeActor<'a, H, R, S, N, O, C, G>>,
) -> Vec<NodeActor<'a, H, R, S, N, O, C, G>>
where
    H: Wait,
    R: Rack,
    S: Suite,
    N: LinkIn,
    O: LinkOut,
    C: Clock,
    G: Gate,
    requires room { vec_len actors + length feeds.items ≤ vec_capacity actors }
    ensures { AddsFeeders feeds.items actors.entry.items result.items }
{
    for feed in feeds {
        actors.push_reserved(NodeActor::Feeds(Feeder::new(alloc, feed)));
    }
    actors
}

/// The passes of actors that weren't run, one list for each, in the room of this list.
pub(crate) fn hand_all_back<'a, H, R, S, N, O, C, G>(
    actors: Vec<NodeActor<'a, H, R, S, N, O, C, G>>,
    mut hands: Vec<Vec<ShardPass<R, S>>>,
) -> Vec<Vec<ShardPass<R, S>>>
where
    H: Wait,
    R: Rack,
    S: Suite,
    N: LinkIn,
    O: LinkOut,
    C: Clock,
    G: Gate,
    requires { HasRoom (length actors.items) hands }
    ensures { AllZip IsHandOf actors.entry.items result.items }
{
    for actor in actors {
        hands.push_reserved(hand_back(actor));
    }
    hands
}
