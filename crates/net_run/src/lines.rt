// The lines of the network: one from the client to each node of the first layer, and one from each node to each node of the
// next layer.
ghost use Rattle.std.specs.Prelude.{◌≡◌, ◌+◌, ◌*◌, ◌<◌, ◌≤◌, [], ◌∷◌, ◌++◌, IfOk, IsErrOf, OnOk, length, map, replicate};
ghost use Rattle.mix_base.specs.Faults.{Rose};
ghost use Rattle.lab_text.specs.Settings.{IsConfigInRange};
ghost use Rattle.net_run.specs.Lines.{AddsLinked, AreLinked, AreWired, IsSpread, ids_in, ids_onto, sizes};
ghost use Rattle.net_run.specs.Plans.{links_into, links_onto};

use crate::planning::count_outgoing;
use lab_text::Config;
use mix_links::{LineFailed, Net};
use mix_waves::node_id;
use std::alloc::{AllocError, Global};

/// The ends of lines at a node: those that come in, and those that go out, with the id of the node that each leads to.
#[derive(Drop)]
pub(crate) struct NodeLinks<N, O> {
    pub(crate) incoming: Vec<N>,
    pub(crate) outgoing: Vec<([u8; 32], O)>,
}

/// The lines of one sender, with the ends that come in at each node of a layer by now.
#[derive(Drop)]
pub(crate) struct Spread<N, O> {
    pub(crate) incoming: Vec<Vec<N>>,
    pub(crate) outgoing: Vec<([u8; 32], O)>,
}

/// All lines: those of the client, and the ends at each node by its number.
#[derive(Drop)]
pub(crate) struct Wires<N, O> {
    pub(crate) client: Vec<([u8; 32], O)>,
    pub(crate) nodes: Vec<NodeLinks<N, O>>,
}

/// Makes all lines. `Failed` comes only where the net failed.
pub(crate) fn connect_nodes<N: Net>(
    alloc: Global,
    config: &Config,
    net: &mut N,
) -> Result<Wires<N::Into, N::Onto>, LineFailed>
    requires in_range { IsConfigInRange config.now }
    ensures wired { IfOk result (AreWired config.now) }
    ensures failed { IsErrOf result LineFailed.Failed →
        Rose (N.faults net.old) (N.faults net.new) }
    ensures count { N.faults net.old ≤ N.faults net.new }
{
    let first = empty_lists(alloc, config.width)?;
    let Spread {
        mut incoming,
        outgoing,
    } = connect_sender(alloc, net, 0, first)?;
    let mut nodes = Vec::new(alloc);
    'layers: for layer in 0..config.layers {
        incoming = connect_layer(alloc, config, net, layer, incoming, &mut nodes)?;
    }
    Ok(Wires {
        client: outgoing,
        nodes,
    })
}

/// Adds the nodes of a layer, with these ends that come in, and makes their lines to the next layer. Answers the ends that
/// come in there.
fn connect_layer<N: Net>(
    alloc: Global,
    config: &Config,
    net: &mut N,
    layer: u8,
    incoming: Vec<Vec<N::Into>>,
    nodes: &mut Vec<NodeLinks<N::Into, N::Onto>>,
) -> Result<Vec<Vec<N::Into>>, LineFailed>
    requires in_range { IsConfigInRange config.now }
    requires layer { layer < config.now.layers }
    requires incoming { sizes incoming.items
        ≡ replicate config.now.width (links_into config.now layer) }
    ensures next { IfOk result (λ next. sizes next.items
        ≡ replicate (links_onto config.now layer) config.now.width) }
    ensures nodes { IfOk result (λ _. AddsLinked config.now.width
        (links_into config.now layer) (ids_onto config.now layer) nodes.old.items nodes.new.items) }
    ensures failed { IsErrOf result LineFailed.Failed →
        Rose (N.faults net.old) (N.faults net.new) }
    ensures count { N.faults net.old ≤ N.faults net.new }
{
    let mut next = empty_lists(alloc, count_outgoing(config, layer) as u8)?;
    'nodes: for ends in incoming {
        let spread = connect_sender(alloc, net, layer + 1, next)?;
        next = spread.incoming;
        let links = NodeLinks {
            incoming: ends,
            outgoing: spread.outgoing,
        };
        add(nodes, links)?;
    }
    Ok(next)
}

/// Makes a line from one sender to each node of a layer, at which these ends come in by now.
fn connect_sender<N: Net>(
    alloc: Global,
    net: &mut N,
    layer: u8,
    incoming: Vec<Vec<N::Into>>,
) -> Result<Spread<N::Into, N::Onto>, LineFailed>
    requires { length incoming.items ≤ 255 }
    ensures spread { IfOk result (IsSpread layer (sizes incoming.items)) }
    ensures failed { IsErrOf result LineFailed.Failed →
        Rose (N.faults net.old) (N.faults net.new) }
    ensures count { N.faults net.old ≤ N.faults net.new }
{
    let mut grown = Vec::new(alloc);
    let mut outgoing = Vec::new(alloc);
    'places: for mut ends in incoming {
        let (onto, into) = net.line(alloc)?;
        let id = node_id(layer, outgoing.len() as u8);
        add(&mut ends, into)?;
        add(&mut grown, ends)?;
        add(&mut outgoing, (id, onto))?;
    }
    Ok(Spread {
        incoming: grown,
        outgoing,
    })
}

/// So many empty lists.
fn empty_lists<T: Drop>(alloc: Global, count: u8) -> Result<Vec<Vec<T>>, AllocError>
    ensures { IfOk result (λ lists. sizes lists.items ≡ replicate count 0) }
{
    let mut lists = Vec::new(alloc);
    'lists: for _ in 0..count {
        lists.push(Vec::new(alloc))?;
    }
    Ok(lists)
}

/// Adds an item behind a list.
fn add<T: Drop>(list: &mut Vec<T>, item: T) -> Result<(), AllocError>
    ensures { OnOk result (list.new.items ≡ list.old.items ++ item ∷ []) }
{
    list.push(item)?;
    Ok(())
}
