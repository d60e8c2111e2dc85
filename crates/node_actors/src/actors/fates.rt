// What becomes of a packet, and the log of it. A log is there for contracts alone and takes no bytes.
use std::snapshot::Snapshot;

/// What became of a packet; one that was claimed is a `P` once it is unwrapped.
#[derive(Drop)]
pub enum Fate<P> {
    /// Its tag was claimed: there is an entry of it in a shard's tale.
    Claimed { item: Snapshot<P> },
    /// It isn't unwrapped.
    Refused,
    /// A live epoch has no key pair.
    Unkeyed,
    /// Memory was wanting before its tag was claimed.
    Dropped,
}

/// A packet that was dealt with: its number, the moment of its receipt in milliseconds, its bytes and its fate.
#[derive(Drop)]
pub struct Dealt<P> {
    pub number: u64,
    pub receipt: u64,
    pub packet: Snapshot<Vec<u8>>,
    pub fate: Fate<P>,
}
