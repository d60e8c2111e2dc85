// The path that a packet is made for, and what encapsulation to its hops made.
use mix_base::{Bytes, HopKeys};

/// A hop of a path.
#[derive(Drop)]
pub struct HopSpec {
    /// The hop's id, 32 bytes.
    pub id: [u8; 32],
    /// Its public key.
    pub key: Bytes,
    /// For how many milliseconds it is to hold the packet, at most `packet_form::LONGEST_DELAY`.
    pub delay: Option<u32>,
}

// A hop of a path, with the ciphertext that was made for it and the keys of its secret.
#[derive(Drop)]
pub struct SealedHop {
    pub id: [u8; 32],
    pub delay: Option<u32>,
    pub ciphertext: Bytes,
    pub keys: HopKeys,
}
