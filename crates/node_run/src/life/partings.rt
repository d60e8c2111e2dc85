// The nodes of a life are closed, or given back where they didn't live. Takes no memory.
ghost use Rattle.std.specs.Prelude.{◌≡◌, ◌++◌, ◌≤◌, All, length, map};
ghost use Rattle.std.specs.List.{AllZip};
ghost use Rattle.std.specs.Vec.Iter.{into_iter_items};
ghost use Rattle.node_run.specs.Crews.{AreAllHands, AreAllLeft, AreFed, AreHandsIn, AreLeftIn, HasLink, IsFeed};
ghost use Rattle.node_run.specs.Seats.{kept_of};
ghost use Rattle.node_run.specs.Houses.{IsStanding, kept_in, node_of};
ghost use Rattle.node_run.specs.Partings.{HasServed, IsFedBy};
ghost use Rattle.node_run.specs.Parts.{BeginsWith, IsShorter};
ghost use Rattle.node_run.specs.Rooms.{HasRoom};

use crate::life::ending::end_node;
use crate::life::houses::{House, unlived};
use crate::life::seats::{LifeEnd, NodeEnd, NodeSeat};
use mix_base::Suite;
use mix_links::{Clock, LinkIn, LinkOut};
use node_actors::{Feed, Left, LeftBy, ShardPass, Work};
use replay_disk::Rack;
use std::snapshot::Snapshot;
use std::vec::IntoIter;

/// The next of these items, so many, in the room of this list.
fn take_next<T: Drop>(items: &mut IntoIter<T>, many: u32, mut taken: Vec<T>) -> Vec<T>
    requires room { HasRoom many taken }
    requires enough { many ≤ length (into_iter_items items.old) }
    ensures taken { into_iter_items items.old ≡ result.items ++ into_iter_items items.new }
    ensures many { length result.items ≡ many }
{
    for _ in 0..many {
        let Some(item) = items.next() else {
            unreachable!()
        };
        taken.push_reserved(item);
    }
    taken
}

/// The node of this house, whose callers left the next of these.
fn end_house<R: Rack, S: Suite, N: LinkIn, O: LinkOut, C: Clock>(
    clock: &C,
    house: House<R, S, N, O>,
    lefts: &mut IntoIter<LeftBy<R, S, N, O>>,
) -> NodeEnd<R, S, N, O>
    requires stands { IsStanding S.K.CT house }
    requires left { BeginsWith (AreLeftIn S.meaning C.may_give N.left N.faults O.given O.faults
        clock.now house) (into_iter_items lefts.old) }
    ensures served { HasServed R.tells S.meaning C.may_give N.left N.faults O.given O.faults
        (node_of clock.now house) result }
    ensures taken { IsShorter house.hall.callers (into_iter_items lefts.old)
        (into_iter_items lefts.new) }
{
    let House {
        hall,
        rooms,
        lefts: room,
        hands: _,
        incoming: _,
        outgoing: _,
    } = house;
    let own = take_next(lefts, hall.callers, room);
    end_node(hall, rooms, own)
}

/// The nodes of these houses, in the room of this list.
fn end_houses<R: Rack, S: Suite, N: LinkIn, O: LinkOut, C: Clock>(
    clock: &C,
    houses: Vec<House<R, S, N, O>>,
    feeds: &Snapshot<Vec<Feed<O>>>,
    lefts: &mut IntoIter<LeftBy<R, S, N, O>>,
    mut ends: Vec<NodeEnd<R, S, N, O>>,
) -> Vec<NodeEnd<R, S, N, O>>
    requires standing { All (IsStanding S.K.CT) houses.items }
    requires left { AreAllLeft S.meaning C.may_give N.left N.faults O.given O.faults
        clock.now houses.items feeds.now.value.items (into_iter_items lefts.old) }
    requires room { HasRoom (length houses.items) ends }
    ensures served { AllZip (λ house end. HasServed R.tells S.meaning C.may_give N.left N.faults
        O.given O.faults (node_of clock.now house) end) houses.items result.items }
    ensures fed { AreFed O.given O.faults feeds.now.value.items (into_iter_items lefts.new) }
{
    for house in houses {
        ends.push_reserved(end_house(clock, house, lefts));
    }
    ends
}

/// The link of a feed, which left this.
fn link_of<R: Rack, S: Suite, N: LinkIn, O: LinkOut>(left: LeftBy<R, S, N, O>) -> O
    requires { IsFeed left }
    ensures { HasLink left result }
{
    let Left { passes: _, work } = left;
    match work {
        Work::Fed { link } => link,
        _ => unreachable!(),
    }
}

/// The links of the feeds, which left all of these, in the room of this list.
fn end_feeds<R: Rack, S: Suite, N: LinkIn, O: LinkOut>(
    feeds: &Snapshot<Vec<Feed<O>>>,
    lefts: IntoIter<LeftBy<R, S, N, O>>,
    mut links: Vec<O>,
) -> Vec<O>
    requires fed { AreFed O.given O.faults feeds.now.value.items (into_iter_items lefts) }
    requires room { HasRoom (length feeds.now.value.items) links }
    ensures { AllZip (IsFedBy O.given O.faults) feeds.now.value.items result.items }
{
    for left in lefts {
        links.push_reserved(link_of(left));
    }
    links
}

/// The end of a life in which the callers of these nodes and the feeds left this.
pub(crate) fn end_life<R: Rack, S: Suite, N: LinkIn, O: LinkOut, C: Clock>(
    clock: &C,
    houses: Vec<House<R, S, N, O>>,
    feeds: &Snapshot<Vec<Feed<O>>>,
    lefts: Vec<LeftBy<R, S, N, O>>,
    ends: Vec<NodeEnd<R, S, N, O>>,
    links: Vec<O>,
) -> LifeEnd<R, S, N, O>
    requires standing { All (IsStanding S.K.CT) houses.items }
    requires left { AreAllLeft S.meaning C.may_give N.left N.faults O.given O.faults
        clock.now houses.items feeds.now.value.items lefts.items }
    requires ends { HasRoom (length houses.items) ends }
    requires links { HasRoom (length feeds.now.value.items) links }
    ensures served { AllZip (λ house end. HasServed R.tells S.meaning C.may_give N.left N.faults
        O.given O.faults (node_of clock.now house) end) houses.items result.nodes.items }
    ensures fed { AllZip (IsFedBy O.given O.faults) feeds.now.value.items result.feeds.items }
{
    let mut lefts = lefts.into_iter();
    let nodes = end_houses(clock, houses, feeds, &mut lefts, ends);
    LifeEnd {
        nodes,
        feeds: end_feeds(feeds, lefts, links),
    }
}

/// The seat of this house's node, whose callers' passes are the next of these.
fn return_house<R: Rack, S: Suite, N: LinkIn, O: LinkOut>(
    house: House<R, S, N, O>,
    hands: &mut IntoIter<Vec<ShardPass<R, S>>>,
) -> NodeSeat<R, S, N, O>
    requires stands { IsStanding S.K.CT house }
    requires hands { BeginsWith (AreHandsIn house) (into_iter_items hands.old) }
    ensures kept { kept_of result ≡ kept_in house }
    ensures taken { IsShorter house.hall.callers (into_iter_items hands.old)
        (into_iter_items hands.new) }
{
    let House {
        hall,
        rooms,
        lefts: _,
        hands: room,
        incoming: _,
        outgoing: _,
    } = house;
    let own = take_next(hands, hall.callers, room);
    unlived(hall, rooms, own)
}

/// The seats of the nodes of these houses, in the room of this list. The first hands are those of their callers.
pub(crate) fn return_all<R: Rack, S: Suite, N: LinkIn, O: LinkOut>(
    houses: Vec<House<R, S, N, O>>,
    hands: Vec<Vec<ShardPass<R, S>>>,
    mut seats: Vec<NodeSeat<R, S, N, O>>,
) -> Vec<NodeSeat<R, S, N, O>>
    requires standing { All (IsStanding S.K.CT) houses.items }
    requires hands { AreAllHands houses.items hands.items }
    requires room { HasRoom (length houses.items) seats }
    ensures { map kept_of result.items ≡ map kept_in houses.items }
{
    let mut hands = hands.into_iter();
    for house in houses {
        seats.push_reserved(return_house(house, &mut hands));
    }
    seats
}
