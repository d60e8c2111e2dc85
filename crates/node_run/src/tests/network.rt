// A packet that goes through the three nodes of a network, over lines in memory.
ghost use Rattle.std.specs.Prelude.{All, IfOk};
ghost use Rattle.node_run.specs.Seats.{CanLive};

use super::packets::{hop, packet};
use super::seats::{Seat, live, seat};
use super::tallies::has_tag;
use mix_links::{LinkIn, LinkOut, MemIn, MemNet, MemOut, Net};
use mix_shard::{Entry, Shard};
use node_actors::{Feed, OpenGate};
use prim_std::LabSuite;
use replay_disk::MemRack;
use std::alloc::Global;
use std::sync::Wait;
use std::test::Fail;
use std::thread::Threads;

/// The tags of the packet at each node of its path.
const TAGS: [[u8; 32]; 3] = [
    *b"\x0b\x34\x86\xc8\x7c\x24\x7a\x54\x6f\xdd\x13\xe7\xbd\xe4\xf8\x81\x48\xbe\x95\x56\xc5\xa7\xaf\x22\xab\x36\xeb\x05\x2d\x4a\x63\x9c",
    *b"\x08\x9a\x05\xc4\xaf\x61\xe8\xda\x27\x6c\x78\xfd\xe2\x81\x59\x06\x4a\x0b\x51\xa0\x3f\xb1\x4f\x68\x51\x6e\x4a\xd1\xdd\x01\xcb\x86",
    *b"\x1c\x9f\x31\xf4\x79\xae\x04\x4f\x9e\xda\x95\x5e\x00\x34\x4c\xcc\xa4\x8c\x1a\x3d\xe8\x42\x02\x10\x48\xb5\x31\xf9\x36\x08\xb2\x13",
];

/// What a node saw of the packet: whether its one claim is of the tag that the packet has there, whether it was delivered
/// there, and how many packets weren't handed on or were dropped.
#[derive(Clone, Copy, Debug, PartialEq, Eq)]
struct Passage {
    claimed: bool,
    delivered: bool,
    unsent: u64,
    dropped: u64,
}

/// Whether the one claim of these shards is of this tag.
fn has_claimed(shards: &[Shard<MemRack, LabSuite>], wanted: &[u8; 32]) -> bool {
    let mut claims = 0u64;
    for shard in shards {
        for entry in shard.tale() {
            if let Entry::Claim { tag, .. } = entry {
                if tag != wanted {
                    return false;
                }
                claims = claims.saturating_add(1);
            }
        }
    }
    claims == 1
}

/// A list of one element.
fn list<T: Drop>(alloc: Global, element: T) -> Result<Vec<T>, Fail> {
    let mut elements = Vec::new(alloc);
    elements.push(element)?;
    Ok(elements)
}

/// The nodes with the seeds 1, 2 and 3: each has a link in, and those before the last have one to the next.
fn three<N: LinkIn, O: LinkOut>(
    alloc: Global,
    into: (N, N, N),
    onto: (O, O),
) -> Result<Vec<Seat<N, O>>, Fail>
    ensures { IfOk result (λ nodes. All (CanLive 48 1) nodes.items) }
{
    let (first, second, third) = into;
    let (to_second, to_third) = onto;
    let one = list(alloc, ([0xa2; 32], to_second))?;
    let two = list(alloc, ([0xa3; 32], to_third))?;
    Ok(vec![in alloc;
        seat(alloc, 1, 2, 1, list(alloc, first)?, one)?,
        seat(alloc, 2, 2, 1, list(alloc, second)?, two)?,
        seat(alloc, 3, 2, 1, list(alloc, third)?, Vec::new(alloc))?,
    ]?)
}

/// What the three nodes see of the packet that the feed's link brings to the first.
fn pass<H, N, O>(
    rt: &H,
    alloc: Global,
    link: O,
    into: (N, N, N),
    onto: (O, O),
) -> Result<Vec<Passage>, Fail>
where
    H: Threads + Wait + Sync,
    N: LinkIn + Send,
    O: LinkOut + Send,
{
    let path = vec![in alloc;
        hop(alloc, 0xa1, 1)?,
        hop(alloc, 0xa2, 2)?,
        hop(alloc, 0xa3, 3)?,
    ]?;
    let packets = vec![in alloc; packet(alloc, &[5; 32], &path)?]?;
    let feeds = list(alloc, Feed { link, packets })?;
    let nodes = three(alloc, into, onto)?;
    let ended = live(rt, alloc, nodes, feeds, 1, &OpenGate)?;
    let mut passages = Vec::new(alloc);
    for (end, tag) in ended.nodes.iter().zip(&TAGS) {
        passages.push(Passage {
            claimed: has_claimed(&end.shards, tag),
            delivered: has_tag(&end.local, tag),
            unsent: end.unsent,
            dropped: end.dropped,
        })?;
    }
    Ok(passages)
}

/// A line, or that there is none.
fn line<'a, H: Wait + Sync>(
    alloc: Global,
    net: &mut MemNet<'a, H>,
) -> Result<(MemOut<'a, H>, MemIn<'a, H>), Fail> {
    match net.line(alloc) {
        Ok(line) => Ok(line),
        Err(_) => Err(Fail::from("no line")),
    }
}

/// The same over lines in memory.
fn pass_over_lines<H: Threads + Wait + Sync>(rt: &H, alloc: Global) -> Result<Vec<Passage>, Fail> {
    let mut net = MemNet::new(rt, Vec::new(alloc));
    let (feed, first) = line(alloc, &mut net)?;
    let (to_second, second) = line(alloc, &mut net)?;
    let (to_third, third) = line(alloc, &mut net)?;
    pass(
        rt,
        alloc,
        feed,
        (first, second, third),
        (to_second, to_third),
    )
}

#[test]
fn a_packet_goes_through_three_nodes(rt: HostRuntime) -> Result<(), Fail> {
    let passed = Passage {
        claimed: true,
        delivered: false,
        unsent: 0,
        dropped: 0,
    };
    let arrived = Passage {
        delivered: true,
        ..passed
    };
    let passages = pass_over_lines(&rt, rt.alloc())?;
    assert_eq!(rt; passages.as_slice(), [passed, passed, arrived].as_slice());
    Ok(())
}
