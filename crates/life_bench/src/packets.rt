// Packets in the laboratory suite, each with a seed of its own, for a recipient behind one hop.
ghost use Rattle.std.specs.Prelude.{◌≡◌, vec_len, IfOk};

use crate::nodes::setup;
use anyhow::Result;
use epoch_keys::epoch_pair;
use mix_base::{Bytes, Memory, next_words};
use mix_links::ListIn;
use prim_std::{ChaWords, LabSuite};
use sphinx_make::{HopSpec, make_packet};
use std::alloc::Global;

/// The hop with the key of epoch 0 of the node whose seed is zeros.
fn hop(alloc: Global) -> Result<HopSpec> {
    let key = epoch_pair::<LabSuite>(alloc, &[0; 32], 0)?;
    Ok(HopSpec {
        id: [0x11; 32],
        key: Bytes::of(key.pk.as_slice().to_vec(alloc)?),
        delay: None,
    })
}

/// The first words of a seed's key stream, as many as one hop takes.
fn coins(alloc: Global, seed: &[u8; 32]) -> Result<Vec<u32>, Memory>
    ensures { IfOk result (λ coins. vec_len coins ≡ 8) }
{
    next_words(alloc, &mut ChaWords::new(seed), 8)
}

/// The packet of a number: with a body of 64 bytes 41 to the recipient of 32 bytes 22.
fn packet(alloc: Global, number: u32, hop: &[HopSpec; 1]) -> Result<Vec<u8>> {
    let geometry = setup()?.geometry;
    let mut seed = [9; 32];
    seed[..4].copy_from_slice(&number.to_be_bytes());
    let coins = coins(alloc, &seed)?;
    let (recipient, body) = ([0x22; 32], [0x41; 64]);
    Ok(make_packet::<LabSuite>(alloc, &geometry, hop, &recipient, &body, None, &coins)?)
}

/// Two links that bring so many packets, each every other one.
pub fn links(alloc: Global, packets: u32) -> Result<Vec<ListIn>> {
    let path = [hop(alloc)?];
    let mut even = Vec::new(alloc);
    let mut odd = Vec::new(alloc);
    for number in 0..packets {
        let packet = packet(alloc, number, &path)?;
        let bytes = if number % 2 == 0 { &mut even } else { &mut odd };
        bytes.extend_from_slice(&packet)?;
    }
    Ok(vec![in alloc;
        ListIn::new(even, Vec::new(alloc)),
        ListIn::new(odd, Vec::new(alloc)),
    ]?)
}
