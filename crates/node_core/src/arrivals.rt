// Packets that wait to be unwrapped.
use mix_base::Bytes;

/// A packet that arrived: its number, counted from 1 over the node's life, and the moment of its receipt.
#[derive(Drop)]
pub struct Arrival {
    pub number: u64,
    pub at: u64,
    pub packet: Bytes,
}
