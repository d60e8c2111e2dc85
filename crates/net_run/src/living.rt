// A life of the network's nodes: they take their seats, live until their lines have ended, and their racks come back.
ghost use Rattle.std.specs.Prelude.{◌≡◌, ◌≤◌, [], IfErr, IfOk, IsErrOf, length, map, vec_capacity};
ghost use Rattle.std.specs.List.{AllZip};
ghost use Rattle.mix_base.specs.Faults.{Rose};
ghost use Rattle.net_run.specs.Living.{AreOriginsOf, HasLeft, HasLived, HasRoomsFor, StopsLife, WereOpened};
ghost use Rattle.net_run.specs.Nodes.{AreSitesLater};
ghost use Rattle.net_run.specs.Parting.{shards_left, shards_of_seat};
ghost use Rattle.net_run.specs.Seats.{CanSit, site_of};
ghost use Rattle.net_run.specs.Sites.{IsEmptyFor};

use crate::lines::NodeLinks;
use crate::nodes::{OpenNode, push_nodes};
use crate::parting::{Parted, any_dropped, part_ends, part_seats, tally_ends};
use crate::refilling::refill_sites;
use crate::seats::{Seated, seat_nodes};
use crate::sites::Site;
use lab_text::Status;
use mix_base::{Memory, Suite};
use mix_links::{Clock, LinkIn, LinkOut};
use mix_shard::{Held, Shard};
use node_actors::{Feed, OpenGate, Spawner};
use node_run::{LifeEnd, LifeFault, NodeSeat, node_life};
use replay_disk::Rack;
use std::alloc::Global;
use std::snapshot::Snapshot;
use std::sync::Wait;

/// What a life left besides its racks: the packets for each node's recipients, and how many packets were taken out of each
/// shard of each node.
#[derive(Drop)]
pub(crate) struct Lived<S: Suite> {
    pub(crate) locals: Vec<Vec<Held<S>>>,
    pub(crate) takes: Vec<Vec<u64>>,
}

/// The memory that the nodes of a life need around it: empty lists.
#[derive(Drop)]
struct Rooms<R: Rack, S: Suite, N: LinkIn, O: LinkOut> {
    seats: Vec<NodeSeat<R, S, N, O>>,
    waiting: Vec<Site<R>>,
    shards: Vec<Vec<Shard<R, S>>>,
    locals: Vec<Vec<Held<S>>>,
}

/// Room for so many nodes.
fn make_rooms<R: Rack, S: Suite, N: LinkIn, O: LinkOut>(
    alloc: Global,
    nodes: usize,
) -> Result<Rooms<R, S, N, O>, Memory>
    ensures { IfOk result (HasRoomsFor nodes) }
{
    Ok(Rooms {
        seats: Vec::with_capacity(alloc, nodes)?,
        waiting: Vec::with_capacity(alloc, nodes)?,
        shards: Vec::with_capacity(alloc, nodes)?,
        locals: Vec::with_capacity(alloc, nodes)?,
    })
}

/// Runs open nodes until their lines have ended: so many workers each, and the feeds beside them. Then each rack is back in
/// its site, whatever the answer; each site stands at its node's place, as at first. `NoThread` comes only where the spawner
/// failed; a packet that met want of memory makes the whole life one that wanted it.
pub(crate) fn live<H, R, S, N, O, C, P>(
    rt: &H,
    alloc: Global,
    before: &Snapshot<Vec<Site<R>>>,
    workers: u32,
    nodes: Vec<OpenNode<R, S>>,
    links: Vec<NodeLinks<N, O>>,
    feeds: Vec<Feed<O>>,
    clock: &C,
    spawner: &mut P,
    sites: &mut Vec<Site<R>>,
) -> Result<Lived<S>, Status>
where
    H: Wait + Sync,
    R: Rack + Send,
    S: Suite + Send + Sync,
    S::K: Send,
    S::M: Send,
    S::D: Send,
    S::C: Send,
    S::W: Send,
    N: LinkIn + Send,
    O: LinkOut + Send,
    C: Clock + Sync,
    P: Spawner,
    requires nodes { AllZip (CanSit R.tells S.meaning S.K.CT workers) nodes.items links.items }
    requires opened { WereOpened R.state R.tells S.meaning before.now.value.items nodes.items }
    requires empty { sites.old.items ≡ [] }
    requires room { length nodes.items ≤ vec_capacity sites.old }
    ensures sites { AreSitesLater R.state before.now.value.items sites.new.items }
    ensures lived { IfOk result (HasLived R.tells S.meaning C.may_give N.left N.faults O.given
        O.faults workers clock.now nodes.items) }
    ensures kind { IfErr result StopsLife }
    ensures no_thread { IsErrOf result Status.NoThread →
        Rose (P.faults spawner.old) (P.faults spawner.new) }
    ensures refused { P.refuses spawner.old → IfOk result (λ _. ⊥) }
    ensures count { P.faults spawner.old ≤ P.faults spawner.new }
    ensures capacity { vec_capacity sites.new ≡ vec_capacity sites.old }
{
    let Ok(rooms) = make_rooms(alloc, nodes.len()) else {
        push_nodes(sites, nodes);
        sites.reverse();
        return Err(Status::Memory);
    };
    let Rooms {
        seats,
        waiting,
        shards,
        locals,
    } = rooms;
    let told = Snapshot::of(&nodes);
    let Seated {
        seats,
        sites: waiting,
    } = seat_nodes(nodes, links, workers, seats, waiting);
    match node_life(rt, alloc, seats, feeds, workers, clock, &OpenGate, spawner) {
        Ok(ended) => end_life(alloc, before, &told, ended, waiting, shards, locals, sites),
        Err(LifeFault::NoThread(seats)) => {
            undo(before, &told, seats, waiting, shards, sites);
            Err(Status::NoThread)
        }
        Err(LifeFault::Memory(seats)) => {
            undo(before, &told, seats, waiting, shards, sites);
            Err(Status::Memory)
        }
    }
}

/// What nodes that have lived leave, once their racks are back.
fn end_life<R: Rack, S: Suite, N: LinkIn, O: LinkOut>(
    alloc: Global,
    before: &Snapshot<Vec<Site<R>>>,
    nodes: &Snapshot<Vec<OpenNode<R, S>>>,
    ended: LifeEnd<R, S, N, O>,
    waiting: Vec<Site<R>>,
    shards: Vec<Vec<Shard<R, S>>>,
    locals: Vec<Vec<Held<S>>>,
    sites: &mut Vec<Site<R>>,
) -> Result<Lived<S>, Status>
    requires opened { WereOpened R.state R.tells S.meaning
        before.now.value.items nodes.now.value.items }
    requires waiting { waiting.items ≡ map site_of nodes.now.value.items }
    requires origins { AreOriginsOf nodes.now.value.items (map shards_left ended.nodes.items) }
    requires shards { IsEmptyFor (length ended.nodes.items) shards }
    requires locals { IsEmptyFor (length ended.nodes.items) locals }
    requires empty { sites.old.items ≡ [] }
    requires room { length nodes.now.value.items ≤ vec_capacity sites.old }
    ensures sites { AreSitesLater R.state before.now.value.items sites.new.items }
    ensures left { IfOk result (HasLeft ended.nodes.items) }
    ensures memory { IfErr result (λ status. status ≡ Status.Memory) }
    ensures capacity { vec_capacity sites.new ≡ vec_capacity sites.old }
{
    let takes = tally_ends(alloc, &ended.nodes);
    let dropped = any_dropped(&ended.nodes);
    let LifeEnd {
        nodes: ends,
        feeds: _,
    } = ended;
    let Parted { shards, locals } = part_ends(ends, shards, locals);
    put_back(before, nodes, waiting, shards, sites);
    if dropped {
        return Err(Status::Memory);
    }
    match takes {
        Ok(takes) => Ok(Lived { locals, takes }),
        Err(_) => Err(Status::Memory),
    }
}

/// Puts the racks of nodes that didn't live back into their sites. Takes no memory.
fn undo<R: Rack, S: Suite, N: LinkIn, O: LinkOut>(
    before: &Snapshot<Vec<Site<R>>>,
    nodes: &Snapshot<Vec<OpenNode<R, S>>>,
    seats: Vec<NodeSeat<R, S, N, O>>,
    waiting: Vec<Site<R>>,
    shards: Vec<Vec<Shard<R, S>>>,
    sites: &mut Vec<Site<R>>,
)
    requires opened { WereOpened R.state R.tells S.meaning
        before.now.value.items nodes.now.value.items }
    requires waiting { waiting.items ≡ map site_of nodes.now.value.items }
    requires origins { AreOriginsOf nodes.now.value.items (map shards_of_seat seats.items) }
    requires shards { IsEmptyFor (length seats.items) shards }
    requires empty { sites.old.items ≡ [] }
    requires room { length nodes.now.value.items ≤ vec_capacity sites.old }
    ensures sites { AreSitesLater R.state before.now.value.items sites.new.items }
    ensures capacity { vec_capacity sites.new ≡ vec_capacity sites.old }
{
    let shards = part_seats(seats, shards);
    put_back(before, nodes, waiting, shards, sites);
}

/// Puts the racks of these shards, which are those of the nodes as they are later, back into the nodes' sites. Takes no
/// memory.
fn put_back<R: Rack, S: Suite>(
    before: &Snapshot<Vec<Site<R>>>,
    nodes: &Snapshot<Vec<OpenNode<R, S>>>,
    waiting: Vec<Site<R>>,
    shards: Vec<Vec<Shard<R, S>>>,
    sites: &mut Vec<Site<R>>,
)
    requires opened { WereOpened R.state R.tells S.meaning
        before.now.value.items nodes.now.value.items }
    requires waiting { waiting.items ≡ map site_of nodes.now.value.items }
    requires origins { AreOriginsOf nodes.now.value.items shards.items }
    requires empty { sites.old.items ≡ [] }
    requires room { length nodes.now.value.items ≤ vec_capacity sites.old }
    ensures sites { AreSitesLater R.state before.now.value.items sites.new.items }
    ensures capacity { vec_capacity sites.new ≡ vec_capacity sites.old }
{
    refill_sites(sites, waiting, shards);
    sites.reverse();
}
