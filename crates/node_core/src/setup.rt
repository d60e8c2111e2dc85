// What a node is.
use epoch_keys::Times;
use packet_form::Geometry;

/// The geometry of a node's packets, how many shards it has, 1 to 16, its epochs, the seed of its keys, and how many
/// records a log of a shard's journal may have, 2 to 2^26.
#[derive(Clone, Copy)]
pub struct NodeSetup {
    pub geo: Geometry,
    pub shards: u8,
    pub times: Times,
    pub seed: [u8; 32],
    pub limit: u64,
}
