// Many packets over links, workers and shards, most of them more than once: each is accepted once, and handed on once.
use super::packets::{hop, packet};
use super::seats::{live_alone, seat};
use super::tallies::Tally;
use mix_links::{ListIn, ListOut};
use node_actors::OpenGate;
use prim_std::sha256;
use std::alloc::Global;
use std::sync::Wait;
use std::test::Fail;
use std::thread::Threads;

/// How many different packets there are, how many arrive, over how many links, and in how many lives.
const DIFFERENT: u64 = 4000;

const ARRIVING: u64 = 10_000;

const LINKS: u64 = 3;

const LIVES: u64 = 20;

/// The packets, each with a seed of its own.
fn all_packets(alloc: Global) -> Result<Vec<Vec<u8>>, Fail> {
    let path = vec![in alloc; hop(alloc, 0x11, 0)?]?;
    let mut packets = Vec::new(alloc);
    for number in 0..DIFFERENT {
        let mut seed = [9; 32];
        seed[..8].copy_from_slice(&number.to_be_bytes());
        packets.push(packet(alloc, &seed, &path)?)?;
    }
    Ok(packets)
}

/// The links: arrival i is packet i modulo their count, over link i modulo the count of links.
fn links(alloc: Global, packets: &[Vec<u8>]) -> Result<Vec<ListIn>, Fail> {
    let mut links = Vec::new(alloc);
    for place in 0..LINKS {
        let mut bytes = Vec::new(alloc);
        for arrival in 0..ARRIVING {
            if arrival % LINKS == place {
                if let Some(packet) = packets.get((arrival % DIFFERENT) as usize) {
                    bytes.extend_from_slice(packet)?;
                }
            }
        }
        links.push(ListIn::new(bytes, Vec::new(alloc)))?;
    }
    Ok(links)
}

/// The tags of the packets, in order: a tag is the digest of the ciphertext, which stands behind two bytes.
fn tags_of(alloc: Global, packets: &[Vec<u8>]) -> Result<Vec<[u8; 32]>, Fail> {
    let mut tags = Vec::new(alloc);
    for packet in packets {
        if let Some(ciphertext) = packet.get(2..50) {
            tags.push(sha256(ciphertext))?;
        }
    }
    tags.sort()?;
    Ok(tags)
}

/// What a life of one node makes of the packets: what its tales say, and the tags of what was delivered, in order.
fn delivered<H: Threads + Wait + Sync>(
    rt: &H,
    alloc: Global,
    packets: &[Vec<u8>],
) -> Result<(Tally, Vec<[u8; 32]>), Fail> {
    let node = seat::<_, ListOut>(alloc, 0, 5, 4, links(alloc, packets)?, Vec::new(alloc))?;
    let end = live_alone(rt, alloc, node, 4, &OpenGate)?;
    let mut tags = Vec::new(alloc);
    for held in &end.local {
        tags.push(*held.tag())?;
    }
    tags.sort()?;
    if end.unsent > 0 || end.dropped > 0 {
        return Err(Fail::from("unsent or dropped"));
    }
    Ok((Tally::of(&end.shards), tags))
}

#[test]
fn each_is_accepted_once_and_handed_on_once(rt: HostRuntime) -> Result<(), Fail> {
    let alloc = rt.alloc();
    let packets = all_packets(alloc)?;
    let wanted = tags_of(alloc, &packets)?;
    let tally = Tally {
        accepted: DIFFERENT,
        spent: ARRIVING - DIFFERENT,
        refused: 0,
        local: DIFFERENT,
        onward: 0,
    };
    for life in 0..LIVES {
        let (told, tags) = delivered(&rt, alloc, &packets)?;
        assert_eq!(rt; told, tally, "{life}");
        assert!(rt; tags == wanted, "{life}");
    }
    Ok(())
}
