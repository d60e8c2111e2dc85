// The memory that closing a node needs. It is taken before a thread starts, since nothing may fail once all have ended.
ghost use Rattle.std.specs.Prelude.{◌≡◌, ◌+◌, ◌≤◌, [], IfOk, length, vec_capacity, vec_len};
ghost use Rattle.node_run.specs.Rooms.{AreEmpty, IsRoomFor};

use mix_base::{Memory, Suite};
use mix_links::{LinkIn, LinkOut};
use mix_shard::{Held, Shard};
use node_actors::{Receiver, Sender, ShardPass};
use replay_disk::Rack;
use std::alloc::Global;

/// What the callers of a node left besides their passes, by its kind and in the callers' order: the incoming links, with
/// each listener's senders; the workers' ends of their queues; the outgoing links with the ids of their hops; the packets
/// of the local connector. And how many packets were not handed on, and how many were dropped.
#[derive(Drop)]
pub(crate) struct Works<P: Drop, N: Drop, O: Drop> {
    pub(crate) incoming: Vec<N>,
    pub(crate) senders: Vec<Vec<Sender>>,
    pub(crate) receivers: Vec<Receiver>,
    pub(crate) outgoing: Vec<([u8; 32], O)>,
    pub(crate) local: Vec<P>,
    pub(crate) unsent: u64,
    pub(crate) dropped: u64,
}

/// For each lock a list for the callers' passes, a list for the shards, and lists for what the callers left.
#[derive(Drop)]
pub(crate) struct Rooms<Q: Drop, T: Drop, P: Drop, N: Drop, O: Drop> {
    pub(crate) passes: Vec<Vec<Q>>,
    pub(crate) shards: Vec<T>,
    pub(crate) works: Works<P, N, O>,
}

/// The rooms of a node.
pub(crate) type RoomsOf<R, S, N, O> = Rooms<ShardPass<R, S>, Shard<R, S>, Held<S>, N, O>;

/// An empty list for each lock, with room for so many passes.
fn make_lists<Q: Drop>(alloc: Global, shards: usize, callers: usize) -> Result<Vec<Vec<Q>>, Memory>
    ensures { IfOk result (AreEmpty shards callers) }
{
    let mut lists = Vec::with_capacity(alloc, shards)?;
    for _ in 0..shards {
        lists.push_reserved(Vec::with_capacity(alloc, callers)?);
    }
    Ok(lists)
}

impl<R: Rack, S: Suite, N: LinkIn, O: LinkOut> RoomsOf<R, S, N, O> {
    /// Room for a node with so many shards, callers, incoming links, workers and outgoing links.
    pub(crate) fn new(
        alloc: Global,
        shards: usize,
        callers: usize,
        listeners: usize,
        workers: usize,
        links: usize,
    ) -> Result<RoomsOf<R, S, N, O>, Memory>
        ensures { IfOk result (IsRoomFor shards callers listeners workers links) }
    {
        let works = Works {
            incoming: Vec::with_capacity(alloc, listeners)?,
            senders: Vec::with_capacity(alloc, listeners)?,
            receivers: Vec::with_capacity(alloc, workers)?,
            outgoing: Vec::with_capacity(alloc, links)?,
            local: Vec::new(alloc),
            unsent: 0,
            dropped: 0,
        };
        Ok(Rooms {
            passes: make_lists(alloc, shards, callers)?,
            shards: Vec::with_capacity(alloc, shards)?,
            works,
        })
    }
}
