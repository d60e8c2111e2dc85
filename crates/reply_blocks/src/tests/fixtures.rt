// Nodes, paths and coins of the laboratory suite, and packets that go from node to node.
ghost use Rattle.std.specs.Prelude.{◌≡◌, ◌*◌, length, vec_len, IfOk};

use crate::{BlockKeys, MadeBlock, OpenFault, make_block, open_reply};
use hex::FromHex;
use mix_base::{Bytes, draw, next_words, write_words};
use packet_form::Geometry;
use prim_std::{ChaWords, LabSuite, sha256};
use sphinx_make::HopSpec;
use sphinx_unwrap::{Opened, Out, unwrap};
use std::alloc::{AllocError, Global};
use std::process::Abort;
use std::test::Fail;

/// A node: its id, and the key of its epoch, which is public and secret.
#[derive(Clone, Copy)]
pub struct Node {
    pub id: [u8; 32],
    pub key: [u8; 32],
}

/// A geometry of the laboratory suite.
pub fn geometry(hops: usize, body: usize) -> Result<Geometry, Fail>
    ensures { IfOk result (λ geo. geo.ct ≡ 48) }
{
    Geometry::new(48, hops, body).map_err(|_| Fail::from("no geometry"))
}

/// The 32 bytes of these digits.
pub fn bytes_of(digits: &str) -> Result<[u8; 32], Fail> {
    Ok(<[u8; 32] as FromHex>::from_hex(digits)?)
}

/// SHA-256 of the bytes has these digits.
pub fn expect_sum(rt: &impl Abort, alloc: Global, bytes: &[u8], want: &str) -> Result<(), Fail> {
    let sum = hex::encode(alloc, sha256(bytes))?;
    assert_eq!(rt; sum.as_str(), want);
    Ok(())
}

/// The path over these nodes, with one delay at each.
pub fn path_over(
    alloc: Global,
    nodes: &[Node],
    delay: Option<u32>,
) -> Result<Vec<HopSpec>, AllocError> {
    let mut path = Vec::with_capacity(alloc, nodes.len())?;
    for node in nodes {
        let key = Bytes::of(node.key.to_vec(alloc)?);
        let hop = HopSpec {
            id: node.id,
            key,
            delay,
        };
        path.push(hop)?;
    }
    Ok(path)
}

/// The next words, eight for each hop of a path.
pub fn coins(alloc: Global, words: &mut ChaWords, path: &[HopSpec]) -> Result<Vec<u32>, Fail>
    ensures { IfOk result (λ coins. vec_len coins ≡ length path.now * 8) }
{
    let count = path.len().checked_mul(8).ok_or("too many hops")?;
    Ok(next_words(alloc, words, count)?)
}

/// The next 32 words as bytes.
fn own_key(words: &mut ChaWords) -> [u8; 128] {
    let mut drawn = [0; 32];
    draw(words, &mut drawn);
    let mut own = [0; 128];
    write_words(&drawn, &mut own);
    own
}

/// A block for this path, with coins and own key from this seed.
pub fn block_for(
    alloc: Global,
    geo: &Geometry,
    path: &[HopSpec],
    recipient: &[u8; 32],
    surb: &[u8; 16],
    seed: &[u8; 32],
) -> Result<MadeBlock, Fail>
    requires { geo.now.ct ≡ 48 }
{
    let mut words = ChaWords::new(seed);
    let coins = coins(alloc, &mut words, path)?;
    let own = own_key(&mut words);
    Ok(make_block::<LabSuite>(alloc, geo, path, recipient, surb, &own, &coins)?)
}

/// What goes out of this node.
fn opened(alloc: Global, geo: &Geometry, node: &Node, packet: &[u8]) -> Result<Out, Fail>
    requires { geo.now.ct ≡ 48 }
{
    let Opened {
        tag: _,
        delay: _,
        out,
    } = unwrap::<LabSuite>(alloc, geo, &node.key, packet)?;
    Ok(out)
}

/// The packet that goes from this node to the next one.
fn forwarded(
    rt: &impl Abort,
    alloc: Global,
    geo: &Geometry,
    node: &Node,
    next: &Node,
    packet: &[u8],
) -> Result<Vec<u8>, Fail>
    requires { geo.now.ct ≡ 48 }
{
    match opened(alloc, geo, node, packet)? {
        Out::Forward { next: id, packet } => {
            assert_eq!(rt; id, next.id);
            Ok(packet.into_vec())
        }
        _ => Err(Fail::from("not forwarded")),
    }
}

/// What goes out of the last of these nodes, where the packet goes over all of them.
pub fn leaving(
    rt: &impl Abort,
    alloc: Global,
    geo: &Geometry,
    nodes: &[Node],
    packet: &[u8],
) -> Result<Out, Fail>
    requires { geo.now.ct ≡ 48 }
{
    let mut packet = Vec::from_slice(alloc, packet)?;
    for i in 1..nodes.len() {
        packet = forwarded(rt, alloc, geo, &nodes[i - 1], &nodes[i], &packet)?;
    }
    match nodes.last() {
        Some(node) => opened(alloc, geo, node, &packet),
        None => Err(Fail::from("no node")),
    }
}

/// What the maker of a block finds in a payload.
pub fn found(
    alloc: Global,
    geo: &Geometry,
    keys: &BlockKeys,
    payload: &[u8],
) -> Result<Result<Vec<u8>, OpenFault>, Fail> {
    if payload.len() != geo.payload() {
        return Err(Fail::from("a payload of another length"));
    }
    Ok(open_reply::<LabSuite>(alloc, geo, keys, payload))
}

/// A copy with one bit of one byte changed.
pub fn changed(alloc: Global, bytes: &[u8], place: usize) -> Result<Vec<u8>, Fail> {
    let mut copy = Vec::from_slice(alloc, bytes)?;
    let byte = copy.get_mut(place).ok_or("no such place")?;
    *byte ^= 1;
    Ok(copy)
}
