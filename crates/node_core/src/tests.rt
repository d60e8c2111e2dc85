// A node of two shards over racks in memory, for the laboratory suite.
ghost use Rattle.std.specs.Prelude.{◌≡◌, IfOk};

mod keyless;

use crate::{Claimed, Node, NodeSetup, Peeled, write_held};
use epoch_keys::{Times, epoch_pair};
use mix_base::{Bytes, MemSink, PutFault};
use mix_shard::{Denied, Held};
use packet_form::Geometry;
use prim_std::LabSuite;
use replay_disk::MemRack;
use sphinx_make::{HopSpec, make_packet};
use sphinx_unwrap::Refused;
use std::alloc::Global;
use std::test::Fail;

/// Five hops at most, bodies of 64 bytes, epochs of 20 minutes with a grace of two, and a seed of zeros.
fn two_shards() -> Result<NodeSetup, Fail>
    ensures ciphertext { IfOk result (λ setup. setup.geo.ct ≡ 48) }
    ensures shards { IfOk result (λ setup. setup.shards ≡ 2) }
    ensures limit { IfOk result (λ setup. setup.limit ≡ 100) }
{
    Ok(NodeSetup {
        geo: Geometry::new(48, 5, 64)?,
        shards: 2,
        times: Times::new(1_200_000, 120_000)?,
        seed: [0; 32],
        limit: 100,
    })
}

/// A node over two empty racks.
fn node_of_two(alloc: Global) -> Result<Node<MemRack, LabSuite>, Fail>
    ensures ciphertext { IfOk result (λ node. node.setup.geo.ct ≡ 48) }
    ensures next { IfOk result (λ node. node.next ≡ 1) }
{
    let setup = two_shards()?;
    let racks = vec![in alloc; MemRack::new(alloc), MemRack::new(alloc)]?;
    match Node::new(alloc, racks, setup) {
        Ok(node) => Ok(node),
        Err((_, memory)) => Err(Fail::from(memory)),
    }
}

/// A packet for this node alone, under its key of epoch 0, due half a second after its receipt: a body of 64 times 0x41 to the
/// recipient of 32 times 0x22.
fn packet(alloc: Global, coin: u32) -> Result<Vec<u8>, Fail> {
    let key = epoch_pair::<LabSuite>(alloc, &[0; 32], 0)?;
    let hop = HopSpec {
        id: [0x11; 32],
        key: Bytes::of(key.pk.as_slice().to_vec(alloc)?),
        delay: Some(500),
    };
    let geo = Geometry::new(48, 5, 64)?;
    Ok(make_packet::<LabSuite>(
        alloc,
        &geo,
        &[hop],
        &[0x22; 32],
        &[0x41; 64],
        None,
        &[coin; 8],
    )?)
}

#[test]
fn what_is_no_packet_is_refused(rt: HostRuntime) -> Result<(), Fail> {
    let alloc = rt.alloc();
    let mut node = node_of_two(alloc)?;
    node.recv(0, vec![in alloc; 0; 10]?)?;
    let why = Refused::Length;
    assert!(rt; node.peel(alloc, 3)? == Peeled::Refused { number: 1, why });
    assert!(rt; node.peel(alloc, 3)? == Peeled::Idle);
    assert!(rt; node.claim(alloc, 3) == Claimed::Empty);
    assert!(rt; node.send(1 << 59).is_none());
    Ok(())
}

#[test]
fn a_packet_is_handed_on_once_also_after_a_crash(rt: HostRuntime) -> Result<(), Fail> {
    let alloc = rt.alloc();
    let mut node = node_of_two(alloc)?;
    node.recv(1000, packet(alloc, 7)?)?;
    assert!(rt; node.peel(alloc, 0)? == Peeled::Holding { number: 1 });
    assert!(rt; node.peel(alloc, 0)? == Peeled::Busy);
    assert!(rt; node.claim(alloc, 0) == Claimed::Accepted { number: 1 });
    assert!(rt; node.send(1499).is_none());
    let Some(held) = node.send(1500) else {
        return Err(Fail::from("not sent"));
    };
    assert!(rt; held.number() == 1);
    assert!(rt; node.send(1500).is_none());
    node.crash(0);
    node.recv(2000, packet(alloc, 7)?)?;
    assert!(rt; node.peel(alloc, 1)? == Peeled::Holding { number: 2 });
    let shard = held.tag()[0] % 2;
    let why = Denied::Spent;
    assert!(rt;
        node.claim(alloc, 1)
            == Claimed::Denied {
                number: 2,
                shard,
                why
            }
    );
    Ok(())
}

/// The hand-on line of the packet that `packet` makes.
fn line_of(alloc: Global, held: &Held<LabSuite>) -> Result<String, Fail> {
    let tag = hex::encode(alloc, held.tag().as_slice())?;
    let recipient = "2222222222222222".repeat(alloc, 4)?;
    let body = "4141414141414141".repeat(alloc, 8)?;
    Ok(format!(in alloc; "deliver 1 0 {tag} {recipient} {body} -\n")?)
}

#[test]
fn what_is_handed_on_is_written_in_one_line(rt: HostRuntime) -> Result<(), Fail> {
    let alloc = rt.alloc();
    let mut node = node_of_two(alloc)?;
    node.recv(1000, packet(alloc, 7)?)?;
    assert!(rt; node.peel(alloc, 2)? == Peeled::Holding { number: 1 });
    assert!(rt; node.claim(alloc, 2) == Claimed::Accepted { number: 1 });
    let Some(held) = node.send(1500) else {
        return Err(Fail::from("not sent"));
    };
    let mut sink = MemSink::new(alloc, vec![in alloc; 1; 1]?);
    assert!(rt; write_held(alloc, &mut sink, &held) == Err(PutFault::WriteFault));
    assert!(rt; sink.bytes().is_empty());
    write_held(alloc, &mut sink, &held)?;
    let line = line_of(alloc, &held)?;
    assert!(rt; sink.bytes() == line.as_bytes());
    Ok(())
}
