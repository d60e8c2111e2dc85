// A node before its life and after it, and a life's two ends.
use epoch_keys::Times;
use mix_base::Suite;
use mix_links::{LinkIn, LinkOut};
use mix_shard::{Held, Shard};
use node_actors::LeftBy;
use packet_form::Geometry;
use replay_disk::Rack;
use std::snapshot::Snapshot;

/// A node that is to live: the lengths of its packets, its epochs, its shards in the order of their indexes, the seed of its
/// keys, its incoming links, and its outgoing links with the id of the hop that each leads to.
#[derive(Drop)]
pub struct NodeSeat<R: Rack, S: Suite, N: LinkIn, O: LinkOut> {
    pub geo: Geometry,
    pub times: Times,
    pub shards: Vec<Shard<R, S>>,
    pub seed: [u8; 32],
    pub incoming: Vec<N>,
    pub outgoing: Vec<([u8; 32], O)>,
}

/// A node that has lived: its shards and links in the order of its seat; the packets for its recipients, in the order in
/// which they were taken out; how many packets were taken out and not handed on, and how many met want of memory before
/// their claim. Both counts stay at 2^64 - 1.
#[derive(Drop)]
pub struct NodeEnd<R: Rack, S: Suite, N: LinkIn, O: LinkOut> {
    pub shards: Vec<Shard<R, S>>,
    pub local: Vec<Held<S>>,
    pub incoming: Vec<N>,
    pub outgoing: Vec<([u8; 32], O)>,
    pub unsent: u64,
    pub dropped: u64,
    /// What each of its callers left, by number; for contracts alone.
    pub left: Snapshot<Vec<LeftBy<R, S, N, O>>>,
}

/// A life that has ended: its nodes and the links of its feeds, in their order.
#[derive(Drop)]
pub struct LifeEnd<R: Rack, S: Suite, N: LinkIn, O: LinkOut> {
    pub nodes: Vec<NodeEnd<R, S, N, O>>,
    pub feeds: Vec<O>,
}

/// A life that didn't begin: the seats are back in their order, with their shards, and perhaps without their links.
#[derive(Drop)]
pub enum LifeFault<R: Rack, S: Suite, N: LinkIn, O: LinkOut> {
    /// A thread couldn't be started.
    NoThread(Vec<NodeSeat<R, S, N, O>>),
    /// Memory was wanting.
    Memory(Vec<NodeSeat<R, S, N, O>>),
}
