// What each node of the network is: its place, how many links it has, and what it is opened as.
ghost use Rattle.std.specs.Prelude.{◌≡◌, ◌+◌, ◌*◌, ◌<◌, ◌≤◌};
ghost use Rattle.lab_text.specs.Settings.{IsConfigInRange};
ghost use Rattle.net_run.specs.Opening.{IsPlan};
ghost use Rattle.net_run.specs.Plans.{callers_at, links_into, links_onto, plan_of};
ghost use Rattle.mix_waves.specs.Network.{node_count};

use crate::opening::NodePlan;
use lab_text::Config;
use mix_shard::Setup;
use mix_waves::{geometry, node_seed, times};

/// How many nodes the network has.
pub(crate) fn count_nodes(config: &Config) -> u8
    requires in_range { IsConfigInRange config.now }
    ensures count { result ≡ node_count config.now }
    ensures most { result ≤ 20 }
{
    config.layers * config.width
}

/// How many lines come in at a node of a layer: one from the client, or one from each node of the layer before.
pub(crate) fn count_incoming(config: &Config, layer: u8) -> u32
    ensures { result ≡ links_into config.now layer }
{
    if layer == 0 {
        1
    } else {
        u32::from(config.width)
    }
}

/// How many lines go out from a node of a layer: one to each node of the next, and none where it is the last.
pub(crate) fn count_outgoing(config: &Config, layer: u8) -> u32
    requires in_range { IsConfigInRange config.now }
    requires layer { layer < config.now.layers }
    ensures { result ≡ links_onto config.now layer }
{
    if layer + 1 == config.layers {
        0
    } else {
        u32::from(config.width)
    }
}

/// How many callers the shards of a node of a layer have.
fn count_callers(config: &Config, layer: u8) -> u32
    requires in_range { IsConfigInRange config.now }
    requires layer { layer < config.now.layers }
    ensures { result ≡ callers_at config.now layer }
{
    let listeners = count_incoming(config, layer);
    let links = count_outgoing(config, layer);
    2 * (listeners + u32::from(config.workers)).max(links + 2)
}

/// What the node of a number is opened as.
pub(crate) fn plan_node(config: &Config, number: u8) -> NodePlan
    requires in_range { IsConfigInRange config.now }
    requires number { number < node_count config.now }
    ensures plan { result ≡ plan_of config.now number }
    ensures fine { IsPlan result }
{
    let layer = number / config.width;
    NodePlan {
        number: u32::from(number),
        setup: Setup {
            geometry: geometry(config),
            times: times(config),
            seed: node_seed(config, layer, number % config.width),
        },
        shards: config.shards,
        callers: count_callers(config, layer),
    }
}
