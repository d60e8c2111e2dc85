// The shards of all nodes are opened, or all racks come back.
ghost use Rattle.std.specs.Prelude.{◌≡◌, ◌+◌, ◌<◌, ◌≤◌, [], All, IfErr, IfOk, OnErr, OnOk, length, map, reverse, vec_len, vec_capacity};
ghost use Rattle.lab_text.specs.Settings.{IsConfigInRange};
ghost use Rattle.mix_waves.specs.Network.{node_count};
ghost use Rattle.net_run.specs.Nodes.{AreKept, AreNodesOpened, AreSitesLater, ArePut, HasShards, IsClosedTo, IsNodeOpened};
ghost use Rattle.net_run.specs.Nodes.{IsSiteLater, StopsNodes};
ghost use Rattle.net_run.specs.Opening.{StopsNode};
ghost use Rattle.net_run.specs.Plans.{plan_of};
ghost use Rattle.net_run.specs.Sites.{HasSizes};

use crate::opening::{NodePlan, open_shards};
use crate::planning::{count_nodes, plan_node};
use crate::refilling::refill_site;
use crate::sites::Site;
use lab_text::{Config, Status};
use mix_base::Suite;
use mix_shard::Shard;
use replay_disk::Rack;
use std::alloc::Global;

/// A node whose shards are open: what it was opened as, its shards, and its site without their racks.
#[derive(Drop)]
pub(crate) struct OpenNode<R: Rack, S: Suite> {
    pub(crate) plan: NodePlan,
    pub(crate) shards: Vec<Shard<R, S>>,
    pub(crate) site: Site<R>,
}

/// Opens the shards of all nodes on their sites, by node and shard. Where one isn't opened, all sites are back in their
/// places, with their racks.
pub(crate) fn open_nodes<R: Rack, S: Suite>(
    alloc: Global,
    config: &Config,
    sites: &mut Vec<Site<R>>,
) -> Result<Vec<OpenNode<R, S>>, Status>
    requires in_range { IsConfigInRange config.now }
    requires count { length sites.old.items ≡ node_count config.now }
    requires sizes { All (HasSizes config.now.shards) sites.old.items }
    ensures opened { IfOk result (λ nodes. AreNodesOpened R.state R.tells S.meaning config.now 0
        sites.old.items nodes.items) }
    ensures emptied { OnOk result (sites.new.items ≡ []) }
    ensures back { OnErr result (AreSitesLater R.state sites.old.items sites.new.items) }
    ensures cause { IfErr result (StopsNodes R.state R.tells config.now
        sites.old.items sites.new.items) }
    ensures capacity { vec_capacity sites.new ≡ vec_capacity sites.old }
{
    let count = count_nodes(config);
    let Ok(mut nodes) = Vec::with_capacity(alloc, count as usize) else {
        return Err(Status::Memory);
    };
    sites.reverse();
    'nodes: for number in 0..count {
        let Some(site) = sites.pop() else {
            unreachable!()
        };
        match open_node(alloc, config, number, site) {
            Ok(node) => nodes.push_reserved(node),
            Err((site, status)) => {
                sites.push_reserved(site);
                push_nodes(sites, nodes);
                sites.reverse();
                return Err(status);
            }
        }
    }
    Ok(nodes)
}

/// Opens the shards of the node of a number on its site.
fn open_node<R: Rack, S: Suite>(
    alloc: Global,
    config: &Config,
    number: u8,
    mut site: Site<R>,
) -> Result<OpenNode<R, S>, (Site<R>, Status)>
    requires in_range { IsConfigInRange config.now }
    requires number { number < node_count config.now }
    requires sizes { HasSizes config.now.shards site }
    ensures opened { IfOk result
        (IsNodeOpened R.state R.tells S.meaning config.now number site) }
    ensures back { IfErr result (λ back. IsSiteLater R.state site back.0) }
    ensures cause { IfErr result (λ back. StopsNode R.tells (plan_of config.now number)
        (map R.state site.used.items) (map R.state back.0.used.items) back.1) }
{
    let plan = plan_node(config, number);
    match open_shards(alloc, &plan, &mut site.used) {
        Ok(shards) => Ok(OpenNode { plan, shards, site }),
        Err(status) => Err((site, status)),
    }
}

/// Puts the racks of these nodes' shards back into their sites, and these behind the others, the last first. Takes no memory.
pub(crate) fn push_nodes<R: Rack, S: Suite>(
    sites: &mut Vec<Site<R>>,
    mut nodes: Vec<OpenNode<R, S>>,
)
    requires shards { All HasShards nodes.items }
    requires room { vec_len sites.old + vec_len nodes ≤ vec_capacity sites.old }
    ensures put { ArePut R.state nodes.items (reverse sites.old.items) (reverse sites.new.items) }
    ensures kept { All (AreKept R.tells S.meaning) nodes.items }
    ensures capacity { vec_capacity sites.new ≡ vec_capacity sites.old }
{
    while let Some(node) = nodes.pop() {
        sites.push_reserved(close_node(node));
    }
}

/// The site of a node, with the racks of its shards. Takes no memory.
fn close_node<R: Rack, S: Suite>(node: OpenNode<R, S>) -> Site<R>
    requires { HasShards node }
    ensures site { IsClosedTo R.state node result }
    ensures kept { AreKept R.tells S.meaning node }
{
    let OpenNode {
        plan: _,
        shards,
        site,
    } = node;
    refill_site(site, shards)
}
