// What a packet is unwrapped under.
use epoch_keys::Times;
use packet_form::Geometry;

/// The geometry of a node's packets, its epochs, and the seed of its keys.
#[derive(Clone, Copy)]
pub struct Setup {
    pub geometry: Geometry,
    pub times: Times,
    pub seed: [u8; 32],
}
