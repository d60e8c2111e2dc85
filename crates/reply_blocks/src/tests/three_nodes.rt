// A message over three nodes with a block, its answer, and what the maker of the block opens; and what one changed byte
// makes of both. The sums are those of an independent program.
ghost use Rattle.std.specs.Prelude.{◌≡◌};

use super::fixtures::{
    Node, block_for, bytes_of, changed, coins, expect_sum, found, geometry, leaving, path_over,
};
use crate::{MadeBlock, OpenFault, answer};
use mix_base::Bytes;
use packet_form::Geometry;
use prim_std::{ChaWords, LabSuite};
use sphinx_make::{HopSpec, make_packet};
use sphinx_unwrap::Out;
use std::alloc::Global;
use std::process::Abort;
use std::test::Fail;

const RECIPIENT: [u8; 32] = [0x22; 32];

const MAKER: [u8; 32] = [0x33; 32];

const SURB: [u8; 16] = [0x44; 16];

const BODY: [u8; 64] = [0x41; 64];

const REPLY: [u8; 64] = [0x42; 64];

/// The nodes whose seeds are 32 bytes 01, 02 and 03, with their keys of epoch 0.
fn nodes() -> Result<[Node; 3], Fail> {
    let first = Node {
        id: [0xa1; 32],
        key: bytes_of("1809433e6e56d9505fae7dc62fc9440300bc0ca9137778a0521284f62f5c0595")?,
    };
    let second = Node {
        id: [0xa2; 32],
        key: bytes_of("2ba811bfc6bb59f007cc0ae087a7679ef16a6b1542eaa796000cc87580ee3c07")?,
    };
    let third = Node {
        id: [0xa3; 32],
        key: bytes_of("f3335f2f328f676918d8d6651d382da5f1cf4f6e23515e9e6e7eb7d7f8531d60")?,
    };
    Ok([first, second, third])
}

/// The message to the recipient, with this block.
fn message(alloc: Global, geo: &Geometry, path: &[HopSpec], block: &[u8]) -> Result<Vec<u8>, Fail>
    requires { geo.now.ct ≡ 48 }
{
    let coins = coins(alloc, &mut ChaWords::new(&[5; 32]), path)?;
    Ok(make_packet::<LabSuite>(alloc, geo, path, &RECIPIENT, &BODY, Some(block), &coins)?)
}

/// The block of the maker.
fn block(alloc: Global, geo: &Geometry, path: &[HopSpec]) -> Result<MadeBlock, Fail>
    requires { geo.now.ct ≡ 48 }
{
    block_for(alloc, geo, path, &MAKER, &SURB, &[4; 32])
}

/// The payload of the reply that goes out of the last node.
fn reply_of(
    rt: &impl Abort,
    alloc: Global,
    geo: &Geometry,
    nodes: &[Node],
    packet: &[u8],
) -> Result<Bytes, Fail>
    requires { geo.now.ct ≡ 48 }
{
    let Out::Reply {
        recipient,
        surb,
        payload,
    } = leaving(rt, alloc, geo, nodes, packet)?
    else {
        return Err(Fail::from("no reply"));
    };
    assert_eq!(rt; recipient, MAKER);
    assert_eq!(rt; surb, SURB);
    Ok(payload)
}

#[test]
fn a_message_is_delivered_with_its_block(rt: HostRuntime) -> Result<(), Fail> {
    let alloc = rt.alloc();
    let geo = geometry(5, 64)?;
    let nodes = nodes()?;
    let path = path_over(alloc, &nodes, None)?;
    let made = block(alloc, &geo, &path)?;
    let packet = message(alloc, &geo, &path, made.block.as_slice())?;
    expect_sum(
        &rt,
        alloc,
        &packet,
        "2d97f1d668f122d0a28b545a4278b2fda5879e849e8fdf7dec4f851ed7ec736f",
    )?;
    let Out::Deliver {
        recipient,
        body,
        block,
    } = leaving(&rt, alloc, &geo, &nodes, &packet)?
    else {
        return Err(Fail::from("not delivered"));
    };
    let block = block.ok_or("no block")?;
    assert_eq!(rt; recipient, RECIPIENT);
    assert_eq!(rt; body.as_slice(), BODY.as_slice());
    assert_eq!(rt; block.as_slice(), made.block.as_slice());
    expect_sum(
        &rt,
        alloc,
        block.as_slice(),
        "cbb34ed739c037210d43764bbf944b8c77c13aef919941e8e4060badae242d1e",
    )
}

#[test]
fn an_answer_comes_back_and_opens(rt: HostRuntime) -> Result<(), Fail> {
    let alloc = rt.alloc();
    let geo = geometry(5, 64)?;
    let nodes = nodes()?;
    let path = path_over(alloc, &nodes, None)?;
    let made = block(alloc, &geo, &path)?;
    let answered = answer::<LabSuite>(alloc, &geo, made.block.as_slice(), &REPLY)?;
    assert_eq!(rt; answered.first, nodes[0].id);
    expect_sum(
        &rt,
        alloc,
        answered.packet.as_slice(),
        "612339ba4c2513f374eba31321d8a1551fc85b5108f415c5f987e3ab62d33960",
    )?;
    let payload = reply_of(&rt, alloc, &geo, &nodes, answered.packet.as_slice())?;
    expect_sum(
        &rt,
        alloc,
        payload.as_slice(),
        "44b9ec2860a9e39d14fff1a577edd636907dca39d8fd6b57d1e9bfd3f014e3c5",
    )?;
    let body = found(alloc, &geo, &made.keys, payload.as_slice())??;
    assert_eq!(rt; body.as_slice(), REPLY.as_slice());
    Ok(())
}

#[test]
fn one_changed_payload_byte_damages_message_and_reply(rt: HostRuntime) -> Result<(), Fail> {
    let alloc = rt.alloc();
    let geo = geometry(5, 64)?;
    let nodes = nodes()?;
    let path = path_over(alloc, &nodes, None)?;
    let made = block(alloc, &geo, &path)?;
    let packet = message(alloc, &geo, &path, made.block.as_slice())?;
    let answered = answer::<LabSuite>(alloc, &geo, made.block.as_slice(), &REPLY)?;
    // the first byte of the payload, one in the middle, and the last one
    for place in [682, 1000, 1621] {
        let message = changed(alloc, &packet, place)?;
        match leaving(&rt, alloc, &geo, &nodes, &message)? {
            Out::Damaged { recipient } => assert_eq!(rt; recipient, RECIPIENT),
            _ => return Err(Fail::from("not damaged")),
        }
        let reply = changed(alloc, answered.packet.as_slice(), place)?;
        let payload = reply_of(&rt, alloc, &geo, &nodes, &reply)?;
        let body = found(alloc, &geo, &made.keys, payload.as_slice())?;
        assert_eq!(rt; body.err(), Some(OpenFault::Damaged));
    }
    Ok(())
}
