// What goes out of an opened layer, as plain data.
use mix_base::Bytes;

/// What goes out of a layer. Contracts see it as plain data.
#[derive(Drop)]
pub enum Out {
    /// To the next hop: its id, and its packet.
    Forward {
        next: [u8; 32],
        packet: Bytes,
    },
    /// To a recipient: a body, and the reply block that came with it, if any.
    Deliver {
        recipient: [u8; 32],
        body: Bytes,
        block: Option<Bytes>,
    },
    /// To the maker of a reply block: the block's id, and the payload that only the maker can open.
    Reply {
        recipient: [u8; 32],
        surb: [u8; 16],
        payload: Bytes,
    },
    /// To a recipient, but the payload isn't one that a maker spells.
    Damaged {
        recipient: [u8; 32],
    },
}

/// An unwrapped packet.
#[derive(Drop)]
pub struct Opened {
    /// The replay tag: SHA-256 of the ciphertext.
    pub tag: [u8; 32],
    /// For how many milliseconds the packet is to be held, where its commands say so.
    pub delay: Option<u32>,
    pub out: Out,
}
