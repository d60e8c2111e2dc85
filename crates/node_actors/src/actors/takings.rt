// The log of what a connector took. It is there for contracts alone and takes no bytes.
use std::snapshot::Snapshot;

/// A packet that a connector took out of a shard, and whether it handed it on.
#[derive(Drop)]
pub struct Taking<P> {
    pub shard: usize,
    pub item: Snapshot<P>,
    pub sent: bool,
}
