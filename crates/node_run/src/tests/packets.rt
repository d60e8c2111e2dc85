// Packets in the laboratory suite, in networks of at most five hops and of bodies of 64 bytes, and the links that bring them.
ghost use Rattle.std.specs.Prelude.{◌≡◌, vec_len, IfOk};

use super::seats::setup;
use epoch_keys::epoch_pair;
use mix_base::{Bytes, Memory, next_words};
use mix_links::ListIn;
use prim_std::{ChaWords, LabSuite};
use sphinx_make::{HopSpec, make_packet};
use std::alloc::Global;
use std::test::Fail;

/// The id of the next hop.
pub const NEXT: [u8; 32] = [0xa2; 32];

/// The tags of the packets to a recipient at the node of seed 0 with the seeds 32 times 01 and 32 times 02.
pub const FIRST_TAG: [u8; 32] =
    *b"\x62\x34\x9c\xb9\x71\xc7\xee\xe7\x87\x2a\xf5\x5d\x5e\x01\xde\x21\xa5\xe0\xf5\x8a\x93\x3f\x2d\xb9\x6d\x90\x42\x8f\xc0\xdf\xe6\xd6";

pub const SECOND_TAG: [u8; 32] =
    *b"\x71\xf1\xa7\x41\x51\xe3\xb8\x4a\x8c\xc7\xaa\xeb\x7f\x25\xa5\xc1\xd1\x3a\x22\x64\x5b\xa1\x83\x78\xa1\x3f\xdf\xab\x1c\xbf\x33\x00";

/// The hop of this id with the key of epoch 0 of the node whose seed is 32 times a byte.
pub fn hop(alloc: Global, id: u8, seed: u8) -> Result<HopSpec, Fail> {
    let key = epoch_pair::<LabSuite>(alloc, &[seed; 32], 0)?;
    Ok(HopSpec {
        id: [id; 32],
        key: Bytes::of(key.pk.as_slice().to_vec(alloc)?),
        delay: None,
    })
}

/// So many words of a seed's key stream.
fn coins(alloc: Global, seed: &[u8; 32], count: usize) -> Result<Vec<u32>, Memory>
    ensures { IfOk result (λ coins. vec_len coins ≡ count) }
{
    next_words(alloc, &mut ChaWords::new(seed), count)
}

/// The packet with this seed along a path, with a body of 64 bytes 41 to the recipient of 32 bytes 22.
pub fn packet(alloc: Global, seed: &[u8; 32], path: &[HopSpec]) -> Result<Vec<u8>, Fail> {
    if path.len() > 5 {
        return Err(Fail::from("too long a path"));
    }
    let geometry = setup(0)?.geometry;
    let coins = coins(alloc, seed, path.len() * 8)?;
    let (recipient, body) = ([0x22; 32], [0x41; 64]);
    Ok(make_packet::<LabSuite>(alloc, &geometry, path, &recipient, &body, None, &coins)?)
}

/// The packet with the seed that is 32 times a byte for the recipient at the node of seed 0.
pub fn to_recipient(alloc: Global, seed: u8) -> Result<Vec<u8>, Fail> {
    let path = vec![in alloc; hop(alloc, 0x11, 0)?]?;
    packet(alloc, &[seed; 32], &path)
}

/// The packet with the seed that is 32 times a byte through the node of seed 0 to the next hop, and there to the recipient.
pub fn to_next(alloc: Global, seed: u8) -> Result<Vec<u8>, Fail> {
    let path = vec![in alloc; hop(alloc, 0x11, 0)?, hop(alloc, 0xa2, 1)?]?;
    packet(alloc, &[seed; 32], &path)
}

/// A link that brings these packets and never fails.
pub fn link(alloc: Global, packets: &[Vec<u8>]) -> Result<ListIn, Fail> {
    failing_link(alloc, packets, Vec::new(alloc))
}

/// A link that brings these packets, and whose listed calls fail.
pub fn failing_link(alloc: Global, packets: &[Vec<u8>], failing: Vec<u64>) -> Result<ListIn, Fail> {
    let mut bytes = Vec::new(alloc);
    for packet in packets {
        bytes.extend_from_slice(packet)?;
    }
    Ok(ListIn::new(bytes, failing))
}
