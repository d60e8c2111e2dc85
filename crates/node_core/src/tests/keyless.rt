// A node of a suite whose words never make a key pair.
ghost use Rattle.std.specs.Prelude.{◌≡◌, true, None, IfOk, refl};
ghost use Rattle.prim_std.specs.StandardParts.{standard_meaning};

use crate::{Node, NodePeel, NodeSetup};
use epoch_keys::Times;
use mix_base::{EncapFault, Kem, Memory, PairFault, Suite, Words};
use packet_form::Geometry;
use prim_std::{ChaCha, HmacMac, LabelKdf, Lioness};
use replay_disk::MemRack;
use std::alloc::Global;
use std::test::Fail;

/// No words make a pair, no public key decodes, and every ciphertext is refused. All lengths are 1.
#[derive(Drop)]
struct Keyless;

impl Kem for Keyless {
    ghost scheme = { record {
      public_key = 1;
      secret_key = 1;
      ciphertext = 1;
      coins = 1;
      pair = λ words. None;
      encapsulate = λ key coins. None;
      decapsulate = λ key ciphertext. None;
    } };

    ghost PK = { 1 };

    ghost SK = { 1 };

    ghost CT = { 1 };

    ghost COINS = { 1 };

    ghost LEAN = { true };

    const PK: usize = 1;

    const SK: usize = 1;

    const CT: usize = 1;

    const COINS: usize = 1;

    const LEAN: bool = true;

    fn pair<W: Words>(
        _alloc: Global,
        _words: &mut W,
        _pk: &mut [u8],
        _sk: &mut [u8],
    ) -> Result<(), PairFault> {
        Err(PairFault::NoKey)
    }

    fn encap(
        _alloc: Global,
        _pk: &[u8],
        _coins: &[u32],
        _ct: &mut [u8],
        _secret: &mut [u8; 32],
    ) -> Result<(), EncapFault> {
        Err(EncapFault::KeyForm)
    }

    fn decap(
        _alloc: Global,
        _sk: &[u8],
        _ct: &[u8],
        _secret: &mut [u8; 32],
    ) -> Result<bool, Memory> {
        Ok(false)
    }

    ghost public_key_length = { refl };

    ghost secret_key_length = { refl };

    ghost ciphertext_length = { refl };

    ghost coins_length = { refl };
}

/// This mechanism with the standard parts.
#[derive(Drop)]
struct KeylessSuite;

impl Suite for KeylessSuite {
    type K = Keyless;

    type M = HmacMac;

    type D = LabelKdf;

    type C = ChaCha;

    type W = Lioness;

    ghost meaning = { standard_meaning ⟦<Keyless as Kem>⟧.scheme };

    ghost made_of_parts = { refl };
}

/// A node of this suite over one empty rack.
fn keyless_node(alloc: Global) -> Result<Node<MemRack, KeylessSuite>, Fail>
    ensures ciphertext { IfOk result (λ node. node.setup.geo.ct ≡ 1) }
    ensures next { IfOk result (λ node. node.next ≡ 1) }
{
    let setup = NodeSetup {
        geo: Geometry::new(1, 5, 64)?,
        shards: 1,
        times: Times::new(1_200_000, 120_000)?,
        seed: [0; 32],
        limit: 100,
    };
    match Node::new(alloc, vec![in alloc; MemRack::new(alloc)]?, setup) {
        Ok(node) => Ok(node),
        Err((_, memory)) => Err(Fail::from(memory)),
    }
}

/// The key that is missing is named before the packet's length is judged, and the arrival stays.
#[test]
fn an_epoch_without_a_pair_is_named_and_the_arrival_stays(rt: HostRuntime) -> Result<(), Fail> {
    let alloc = rt.alloc();
    let mut node = keyless_node(alloc)?;
    node.recv(1000, vec![in alloc; 0; 10]?)?;
    assert!(rt; node.peel(alloc, 0) == Err(NodePeel::NoKey { epoch: 0 }));
    assert!(rt; node.peel(alloc, 1) == Err(NodePeel::NoKey { epoch: 0 }));
    Ok(())
}
