// A node is staffed: an actor for each of its callers, in their order. Takes no memory.
ghost use Rattle.std.specs.Prelude.{◌≡◌, ◌+◌, ◌%◌, ◌<◌, ◌≤◌, length, vec_len, vec_capacity};
ghost use Rattle.node_run.specs.Halls.{fresh_dealer, fresh_seat};
ghost use Rattle.node_run.specs.Openings.{AreFreshHands, plan_of};
ghost use Rattle.node_run.specs.Posts.{ArePosts, IsPost, role_in};
ghost use Rattle.node_run.specs.Staffs.{AddsStaff, IsStaff, staffing_of};

use crate::life::halls::Hall;
use crate::life::opening::Desk;
use crate::life::posts::Post;
use mix_base::Suite;
use mix_links::{Clock, LinkIn, LinkOut};
use node_actors::{
    Connector, Dealer, Gate, Keeper, Listener, NodeActor, Rotator, Seat, Spare, Worker,
};
use replay_disk::Rack;
use std::alloc::Global;
use std::snapshot::Snapshot;
use std::sync::Wait;

/// Puts an actor for each caller of the node behind the others, where there is room.
pub(crate) fn staff<'a, H, R, S, N, O, C, G>(
    rt: &'a H,
    alloc: Global,
    hall: &'a Hall<R, S>,
    clock: &'a C,
    gate: &'a G,
    desk: Desk<R, S, N, O>,
    actors: &mut Vec<NodeActor<'a, H, R, S, N, O, C, G>>,
)
where
    H: Wait,
    R: Rack,
    S: Suite,
    N: LinkIn,
    O: LinkOut,
    C: Clock,
    G: Gate,
    requires hands { AreFreshHands hall.now.locks hall.now.callers desk.hands.items }
    requires posts { ArePosts
        (plan_of hall.now desk.incoming.value.items desk.outgoing.value.items)
        hall.now.callers desk.posts.items }
    requires working { 0 < length hall.now.queues }
    requires ciphertext { hall.now.setup.geometry.ct ≡ S.K.CT }
    requires room { vec_len actors.old + hall.now.callers ≤ vec_capacity actors.old }
    ensures staff { AddsStaff S.meaning C.may_give N.left N.faults O.given O.faults
        (staffing_of hall.now desk.incoming.value.items desk.outgoing.value.items clock.now)
        actors.old.items actors.new.items }
    ensures len { vec_len actors.new ≡ vec_len actors.old + hall.now.callers }
    ensures room { vec_capacity actors.new ≡ vec_capacity actors.old }
{
    let Desk {
        hands,
        posts,
        incoming,
        outgoing,
    } = desk;
    let mut hands = hands.into_iter();
    let mut posts = posts.into_iter();
    for caller in 0..hall.callers {
        let Some(passes) = hands.next() else {
            unreachable!()
        };
        let Some(post) = posts.next() else {
            unreachable!()
        };
        let seat = Seat::new(rt, alloc, &hall.locks, hall.setup, caller, passes);
        actors.push_reserved(actor_of(alloc, hall, clock, gate, seat, post, &incoming, &outgoing));
    }
}

/// The actor of this post.
fn actor_of<'a, H, R, S, N, O, C, G>(
    alloc: Global,
    hall: &'a Hall<R, S>,
    clock: &'a C,
    gate: &'a G,
    seat: Seat<'a, H, R, S>,
    post: Post<N, O>,
    incoming: &Snapshot<Vec<N>>,
    outgoing: &Snapshot<Vec<([u8; 32], O)>>,
) -> NodeActor<'a, H, R, S, N, O, C, G>
where
    H: Wait,
    R: Rack,
    S: Suite,
    N: LinkIn,
    O: LinkOut,
    C: Clock,
    G: Gate,
    requires seat { seat ≡ fresh_seat hall.now seat.caller }
    requires caller { seat.caller < hall.now.callers }
    requires post { let plan = plan_of hall.now incoming.now.value.items outgoing.now.value.items in
        IsPost plan (role_in plan seat.caller) post }
    requires working { 0 < length hall.now.queues }
    requires ciphertext { hall.now.setup.geometry.ct ≡ S.K.CT }
    ensures { let plan = plan_of hall.now incoming.now.value.items outgoing.now.value.items in
        IsStaff S.meaning C.may_give N.left N.faults O.given O.faults
        (staffing_of hall.now incoming.now.value.items outgoing.now.value.items clock.now)
        (role_in plan seat.entry.caller) seat.entry.caller result }
{
    match post {
        Post::Listener {
            place,
            listeners,
            link,
            senders,
            buffer,
        } => NodeActor::Listens(Listener::new(
            dealer_of(hall, seat),
            clock,
            link,
            &hall.queues,
            senders,
            buffer,
            place as u64,
            listeners as u64,
        )),
        Post::Worker { place, receiver } => {
            let queue = &hall.queues[place as usize];
            let dealer = dealer_of(hall, seat);
            NodeActor::Works(Worker::new(dealer, gate, place, queue, receiver))
        }
        Post::Keeper { hops } => {
            let local = Vec::new(alloc);
            NodeActor::Keeps(Keeper::new(seat, &hall.claims, clock, hops, local))
        }
        Post::Connector { hop, link } => {
            NodeActor::Connects(Connector::new(seat, &hall.claims, clock, hop, link))
        }
        Post::Rotator { tried } => {
            NodeActor::Rotates(Rotator::new(seat, &hall.claims, clock, tried))
        }
        Post::Spare => NodeActor::Ends(Spare::new(seat, &hall.claims)),
    }
}

/// A caller of an even number that deals with packets.
fn dealer_of<'a, H: Wait, R: Rack, S: Suite>(
    hall: &'a Hall<R, S>,
    seat: Seat<'a, H, R, S>,
) -> Dealer<'a, H, R, S>
    requires seat { seat ≡ fresh_seat hall.now seat.caller }
    requires caller { seat.caller < hall.now.callers }
    requires even { seat.caller % 2 ≡ 0 }
    requires ciphertext { hall.now.setup.geometry.ct ≡ S.K.CT }
    ensures { result ≡ fresh_dealer hall.now seat.entry.caller }
{
    Dealer::new(seat, &hall.keys, &hall.claims)
}
