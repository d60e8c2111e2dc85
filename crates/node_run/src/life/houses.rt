// The nodes of a life are opened: all of them, or none.
ghost use Rattle.std.specs.Prelude.{◌≡◌, ◌+◌, ◌++◌, ◌≤◌, ℕ, All, length, map, reverse, vec_capacity, vec_len, IfOk, IfErr};
ghost use Rattle.std.specs.List.{AllZip};
ghost use Rattle.node_run.specs.Seats.{CanLive, kept_of};
ghost use Rattle.node_run.specs.Houses.{IsDesk, IsHouse, IsOpen, IsStanding, kept_in};
ghost use Rattle.node_run.specs.Openings.{AreFreshHands, tale_behind};
ghost use Rattle.node_run.specs.Rooms.{HasRoom, IsRoomFor};

use crate::life::halls::Hall;
use crate::life::opening::{Desk, Opened, open_node, pairs_for};
use crate::life::rooms::RoomsOf;
use crate::life::seats::NodeSeat;
use crate::life::unused::end_unrun;
use mix_base::Suite;
use mix_links::{LinkIn, LinkOut};
use node_actors::{LeftBy, ShardPass};
use replay_disk::Rack;
use std::alloc::Global;
use std::snapshot::Snapshot;

/// An opened node: what its callers share, the memory for its closing, and room for what each caller leaves, or for
/// each caller's passes where none is run.
#[derive(Drop)]
pub(crate) struct House<R: Rack, S: Suite, N: LinkIn, O: LinkOut> {
    pub(crate) hall: Hall<R, S>,
    pub(crate) rooms: RoomsOf<R, S, N, O>,
    pub(crate) lefts: Vec<LeftBy<R, S, N, O>>,
    pub(crate) hands: Vec<Vec<ShardPass<R, S>>>,
    /// The links as they were handed in; for contracts alone.
    pub(crate) incoming: Snapshot<Vec<N>>,
    pub(crate) outgoing: Snapshot<Vec<([u8; 32], O)>>,
}

/// The houses of all nodes, what was made for the callers of each, and room for their seats.
#[derive(Drop)]
pub(crate) struct Street<R: Rack, S: Suite, N: LinkIn, O: LinkOut> {
    pub(crate) houses: Vec<House<R, S, N, O>>,
    pub(crate) desks: Vec<Desk<R, S, N, O>>,
    pub(crate) seats: Vec<NodeSeat<R, S, N, O>>,
}

/// A node, with all memory that its life needs. Where that is wanting its shards come back with the same tales.
fn open_house<R: Rack, S: Suite, N: LinkIn, O: LinkOut>(
    alloc: Global,
    seat: NodeSeat<R, S, N, O>,
    workers: u32,
) -> Result<(House<R, S, N, O>, Desk<R, S, N, O>), NodeSeat<R, S, N, O>>
    requires { CanLive S.K.CT workers seat }
    ensures house { IfOk result (λ opened. IsHouse S.K.CT workers seat opened.0) }
    ensures desk { IfOk result (λ opened. IsDesk opened.0 opened.1) }
    ensures back { IfErr result (λ back. kept_of back ≡ kept_of seat) }
{
    let (listeners, links) = (seat.incoming.len(), seat.outgoing.len());
    let callers = 2 * pairs_for(listeners, workers, links);
    let shards = seat.shards.len();
    let (incoming, outgoing) = (Snapshot::of(&seat.incoming), Snapshot::of(&seat.outgoing));
    let Ok(rooms) = RoomsOf::new(alloc, shards, callers, listeners, workers as usize, links) else {
        return Err(seat);
    };
    let Ok(lefts) = Vec::with_capacity(alloc, callers) else {
        return Err(seat);
    };
    let Ok(hands) = Vec::with_capacity(alloc, callers) else {
        return Err(seat);
    };
    let Opened { hall, desk } = open_node(alloc, seat, workers)?;
    let house = House {
        hall,
        rooms,
        lefts,
        hands,
        incoming,
        outgoing,
    };
    Ok((house, desk))
}

/// Opens all nodes. Where memory is wanting all seats come back, in their order.
pub(crate) fn open_all<R: Rack, S: Suite, N: LinkIn, O: LinkOut>(
    alloc: Global,
    nodes: Vec<NodeSeat<R, S, N, O>>,
    workers: u32,
) -> Result<Street<R, S, N, O>, Vec<NodeSeat<R, S, N, O>>>
    requires { All (CanLive S.K.CT workers) nodes.items }
    ensures open { IfOk result (IsOpen S.K.CT workers nodes.items) }
    ensures back { IfErr result (λ back. map kept_of back.items ≡ map kept_of nodes.items) }
{
    let Ok(houses) = Vec::with_capacity(alloc, nodes.len()) else {
        return Err(nodes);
    };
    let Ok(desks) = Vec::with_capacity(alloc, nodes.len()) else {
        return Err(nodes);
    };
    open_each(alloc, nodes, workers, houses, desks)
}

/// Opens each of these nodes, in the room of these lists.
fn open_each<R: Rack, S: Suite, N: LinkIn, O: LinkOut>(
    alloc: Global,
    mut nodes: Vec<NodeSeat<R, S, N, O>>,
    workers: u32,
    mut houses: Vec<House<R, S, N, O>>,
    mut desks: Vec<Desk<R, S, N, O>>,
) -> Result<Street<R, S, N, O>, Vec<NodeSeat<R, S, N, O>>>
    requires nodes { All (CanLive S.K.CT workers) nodes.items }
    requires houses { HasRoom (length nodes.items) houses }
    requires desks { HasRoom (length nodes.items) desks }
    ensures open { IfOk result (IsOpen S.K.CT workers nodes.items) }
    ensures back { IfErr result (λ back. map kept_of back.items ≡ map kept_of nodes.items) }
{
    while let Some(seat) = nodes.pop() {
        match open_house(alloc, seat, workers) {
            Ok((house, desk)) => {
                houses.push_reserved(house);
                desks.push_reserved(desk);
            }
            Err(back) => {
                nodes.push_reserved(back);
                close_all(&mut nodes, houses, desks);
                return Err(nodes);
            }
        }
    }
    houses.reverse();
    desks.reverse();
    Ok(Street {
        houses,
        desks,
        seats: nodes,
    })
}

/// Puts the seats of these nodes behind the others, the last of them first.
fn close_all<R: Rack, S: Suite, N: LinkIn, O: LinkOut>(
    seats: &mut Vec<NodeSeat<R, S, N, O>>,
    mut houses: Vec<House<R, S, N, O>>,
    mut desks: Vec<Desk<R, S, N, O>>,
)
    requires standing { All (IsStanding S.K.CT) houses.items }
    requires desks { AllZip IsDesk (reverse houses.items) (reverse desks.items) }
    requires room { vec_len seats.old + vec_len houses ≤ vec_capacity seats.old }
    ensures { map kept_of seats.new.items
        ≡ map kept_of seats.old.items ++ map kept_in (reverse houses.items) }
{
    while let Some(house) = houses.pop() {
        let Some(desk) = desks.pop() else {
            unreachable!()
        };
        seats.push_reserved(unlived(house.hall, house.rooms, desk.hands));
    }
}

/// The seats of all nodes of a street, in their order. Their links are gone.
pub(crate) fn close_street<R: Rack, S: Suite, N: LinkIn, O: LinkOut>(
    street: Street<R, S, N, O>,
) -> Vec<NodeSeat<R, S, N, O>>
    requires standing { All (IsStanding S.K.CT) street.houses.items }
    requires desks { AllZip IsDesk street.houses.items street.desks.items }
    requires seats { HasRoom (length street.houses.items) street.seats }
    ensures { map kept_of result.items ≡ map kept_in street.houses.items }
{
    let Street {
        mut houses,
        mut desks,
        mut seats,
    } = street;
    houses.reverse();
    desks.reverse();
    close_all(&mut seats, houses, desks);
    seats
}

/// The seat of the node of this hall, which didn't live. Its links are gone.
pub(crate) fn unlived<R: Rack, S: Suite, N: LinkIn, O: LinkOut>(
    hall: Hall<R, S>,
    rooms: RoomsOf<R, S, N, O>,
    hands: Vec<Vec<ShardPass<R, S>>>,
) -> NodeSeat<R, S, N, O>
    requires hands { AreFreshHands hall.locks hall.callers hands.items }
    requires room { (listeners workers links : ℕ)
        × IsRoomFor (length hall.locks) hall.callers listeners workers links rooms }
    ensures { kept_of result ≡ (hall.setup, map tale_behind hall.locks) }
{
    let setup = hall.setup;
    end_unrun(hall, rooms, hands, setup.geometry, setup.times, setup.seed)
}
