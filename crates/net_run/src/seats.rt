// Open nodes with their lines take their seats in a life.
ghost use Rattle.std.specs.Prelude.{◌≡◌, All, length, map, reverse};
ghost use Rattle.std.specs.List.{AllZip};
ghost use Rattle.node_run.specs.Seats.{CanLive, setup_in};
ghost use Rattle.net_run.specs.Seats.{CanSit, shards_in, site_of};
ghost use Rattle.net_run.specs.Sites.{IsEmptyFor};

use crate::lines::NodeLinks;
use crate::nodes::OpenNode;
use crate::opening::NodePlan;
use crate::sites::Site;
use mix_base::Suite;
use mix_links::{LinkIn, LinkOut};
use mix_shard::Shard;
use node_run::NodeSeat;
use replay_disk::Rack;

/// Nodes that are to live, and the sites that wait for their racks meanwhile, in the nodes' order.
#[derive(Drop)]
pub(crate) struct Seated<R: Rack, S: Suite, N: LinkIn, O: LinkOut> {
    pub(crate) seats: Vec<NodeSeat<R, S, N, O>>,
    pub(crate) sites: Vec<Site<R>>,
}

/// Gives each node its seat with its lines. Asks room for the seats and for the sites. Takes no memory.
pub(crate) fn seat_nodes<R: Rack, S: Suite, N: LinkIn, O: LinkOut>(
    mut nodes: Vec<OpenNode<R, S>>,
    mut links: Vec<NodeLinks<N, O>>,
    workers: u32,
    mut seats: Vec<NodeSeat<R, S, N, O>>,
    mut sites: Vec<Site<R>>,
) -> Seated<R, S, N, O>
    requires nodes { AllZip (CanSit R.tells S.meaning S.K.CT workers) nodes.items links.items }
    requires seats { IsEmptyFor (length nodes.items) seats }
    requires sites { IsEmptyFor (length nodes.items) sites }
    ensures can_live { All (CanLive S.K.CT workers) result.seats.items }
    ensures shards { map shards_in result.seats.items
        ≡ map (λ node. node.shards.items) nodes.items }
    ensures setups { map setup_in result.seats.items
        ≡ map (λ node. node.plan.setup) nodes.items }
    ensures sites { result.sites.items ≡ map site_of nodes.items }
{
    nodes.reverse();
    links.reverse();
    'nodes: while let Some(node) = nodes.pop() {
        let Some(ends) = links.pop() else {
            unreachable!()
        };
        let OpenNode { plan, shards, site } = node;
        seats.push_reserved(take_seat(&plan, shards, ends));
        sites.push_reserved(site);
    }
    Seated { seats, sites }
}

/// The seat of a node with this plan, these shards and these lines.
fn take_seat<R: Rack, S: Suite, N: LinkIn, O: LinkOut>(
    plan: &NodePlan,
    shards: Vec<Shard<R, S>>,
    links: NodeLinks<N, O>,
) -> NodeSeat<R, S, N, O>
    ensures setup { setup_in result ≡ plan.now.setup }
    ensures shards { result.shards ≡ shards }
    ensures incoming { result.incoming ≡ links.incoming }
    ensures outgoing { result.outgoing ≡ links.outgoing }
{
    let NodeLinks { incoming, outgoing } = links;
    NodeSeat {
        geo: plan.setup.geometry,
        times: plan.setup.times,
        shards,
        seed: plan.setup.seed,
        incoming,
        outgoing,
    }
}
