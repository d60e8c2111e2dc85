// Which epochs are live, as tables; pairs that another program computed; and a suite in which some epochs have no
// pair. Each generic call is made at a concrete suite.
ghost use Rattle.std.specs.Prelude.{◌%◌, ◌==◌, [], true, Some, None, refl, if◌then◌else◌};
ghost use Rattle.prim_std.specs.Primitives.{hmac, hop_keys, chacha_byte, lioness_encrypted, lioness_decrypted};

use super::*;
use mix_base::{EncapFault, Kem, Memory, PairFault, Suite, Words};
use prim_std::{ChaCha, HmacMac, LabSuite, LabelKdf, Lioness};
use std::alloc::Global;
use std::process::Abort;
use std::test::Fail;

#[test]
fn lengths_at_the_ends_of_their_ranges(rt: HostRuntime) -> Result<(), Fail> {
    for (epoch, grace, want) in [
        (3, 0, Some(TimesFault::Epoch)),
        (4, 0, None),
        (4, 1, None),
        (4, 2, Some(TimesFault::Grace)),
        (7, 1, None),
        (7, 2, Some(TimesFault::Grace)),
        (1 << 40, 1 << 38, None),
        (1 << 40, (1 << 38) + 1, Some(TimesFault::Grace)),
        ((1 << 40) + 1, 0, Some(TimesFault::Epoch)),
        (0, 0, Some(TimesFault::Epoch)),
        (u64::MAX, u64::MAX, Some(TimesFault::Epoch)),
    ] {
        match Times::new(epoch, grace) {
            Ok(times) => {
                assert_eq!(rt; want, None);
                assert_eq!(rt; (times.epoch(), times.grace()), (epoch, grace));
            }
            Err(fault) => assert_eq!(rt; Some(fault), want),
        }
    }
    Ok(())
}

#[test]
fn epochs_live_round_their_ends(rt: HostRuntime) -> Result<(), Fail> {
    let times = Times::new(1_200_000, 120_000)?;
    for (moment, first, other, least) in [
        (0u32, 0, None, 0),
        (119_999, 0, None, 0),
        (1_079_999, 0, None, 0),
        (1_080_000, 0, Some(1), 0),
        (1_199_999, 0, Some(1), 0),
        (1_200_000, 1, Some(0), 0),
        (1_319_999, 1, Some(0), 0),
        (1_320_000, 1, None, 1),
        (12_050_000, 10, Some(9), 9),
        (12_119_999, 10, Some(9), 9),
        (12_120_000, 10, None, 10),
        (13_079_999, 10, None, 10),
        (13_080_000, 10, Some(11), 10),
        (24_000_000, 20, Some(19), 19),
    ] {
        let moment = u64::from(moment);
        assert_eq!(rt; live(moment, &times), Live { first, other }, "at {moment}");
        assert_eq!(rt; least_live(moment, &times), least, "at {moment}");
    }
    Ok(())
}

// Every pair of the laboratory suite has two equal keys. The values are another program's.
#[test]
fn pairs_of_the_laboratory_suite(rt: HostRuntime) -> Result<(), Fail> {
    let alloc = rt.alloc();
    for (byte, epoch, want) in [
        (
            0,
            0,
            "920d9f639d8390f5f6d811d4c99d61b6b772d759812c630090e7decc3a536bfa",
        ),
        (
            0,
            9,
            "6a1e8d0d2b1c4eaf1fa3d7faa7425238ed9d06514bbfe5883e3c407f3464bbf4",
        ),
        (
            0,
            (1 << 60) - 1,
            "f9ed77993428506779427c616720c3bdbb4839e6671ea8baff070eff6ff682b4",
        ),
        (
            0xaa,
            7,
            "de47ae82ff1d4182de43630750a3b76d585f9671dcf415d057408f15a4ca68e2",
        ),
    ] {
        let key = epoch_pair::<LabSuite>(alloc, &[byte; 32], epoch)?;
        assert_eq!(rt; key.epoch, epoch);
        assert_eq!(rt; hex::encode(alloc, key.pk.as_slice())?.as_str(), want);
        assert_eq!(rt; hex::encode(alloc, key.sk.as_slice())?.as_str(), want);
    }
    Ok(())
}

// The keys of the ring at a moment, and the front of each.
fn expect_keys(
    rt: &impl Abort,
    alloc: Global,
    ring: &mut KeyRing<LabSuite>,
    moment: u32,
    want: (u64, Option<u64>),
) -> Result<(), Fail> {
    let keys = ring.keys_at(alloc, u64::from(moment))?;
    assert_eq!(rt; keys.first.epoch, want.0);
    let other = match &keys.other {
        Some(key) => Some(key.epoch),
        None => None,
    };
    assert_eq!(rt; other, want.1, "at {moment}");
    Ok(())
}

// The ring answers the same whichever keys it holds already.
#[test]
fn a_ring_at_moments_out_of_order(rt: HostRuntime) -> Result<(), Fail> {
    let alloc = rt.alloc();
    let mut ring = KeyRing::new(&[0; 32], Times::new(1000, 100)?);
    for (moment, first, other) in [
        (9_500u32, 9, None),
        (9_050, 9, Some(8)),
        (8_950, 8, Some(9)),
        (0, 0, None),
        (9_950, 9, Some(10)),
        (8_950, 8, Some(9)),
        (9_500, 9, None),
    ] {
        expect_keys(&rt, alloc, &mut ring, moment, (first, other))?;
    }
    let keys = ring.keys_at(alloc, 9_500)?;
    assert_eq!(rt;
        hex::encode(alloc, keys.first.sk.as_slice())?.as_str(),
        "6a1e8d0d2b1c4eaf1fa3d7faa7425238ed9d06514bbfe5883e3c407f3464bbf4"
    );
    Ok(())
}

// A mechanism in which words make a pair just where the first is even. Its keys have no bytes.
#[derive(Drop)]
struct EvenKem;

impl Kem for EvenKem {
    ghost scheme = { record {
      public_key = 0;
      secret_key = 0;
      ciphertext = 0;
      coins = 0;
      pair = λ words. if words 0 % 2 == 0 then Some ([], []) else None;
      encapsulate = λ _ _. None;
      decapsulate = λ _ _. None;
    } };

    ghost PK = { 0 };

    ghost SK = { 0 };

    ghost CT = { 0 };

    ghost COINS = { 0 };

    ghost LEAN = { true };

    const PK: usize = 0;

    const SK: usize = 0;

    const CT: usize = 0;

    const COINS: usize = 0;

    const LEAN: bool = true;

    fn pair<W: Words>(
        _alloc: Global,
        words: &mut W,
        _pk: &mut [u8],
        _sk: &mut [u8],
    ) -> Result<(), PairFault> {
        if words.next() % 2 == 0 {
            Ok(())
        } else {
            Err(PairFault::NoKey)
        }
    }

    fn encap(
        _alloc: Global,
        _pk: &[u8],
        _coins: &[u32],
        _ct: &mut [u8],
        _secret: &mut [u8; 32],
    ) -> Result<(), EncapFault> {
        Err(EncapFault::KeyForm)
    }

    fn decap(
        _alloc: Global,
        _sk: &[u8],
        _ct: &[u8],
        _secret: &mut [u8; 32],
    ) -> Result<bool, Memory> {
        Ok(false)
    }

    ghost public_key_length = { refl };

    ghost secret_key_length = { refl };

    ghost ciphertext_length = { refl };

    ghost coins_length = { refl };
}

#[derive(Drop)]
struct EvenSuite;

impl Suite for EvenSuite {
    type K = EvenKem;

    type M = HmacMac;

    type D = LabelKdf;

    type C = ChaCha;

    type W = Lioness;

    ghost meaning = { record {
      kem = ⟦<EvenKem as Kem>⟧.scheme;
      mac = hmac;
      hop_keys = hop_keys;
      stream = chacha_byte;
      encrypt = lioness_encrypted;
      decrypt = lioness_decrypted;
    } };

    ghost made_of_parts = { refl };
}

// Under a seed of zeros the first words of epochs 8 and 9 are even, those of epochs 7, 10 and 11 odd.
#[test]
fn the_first_epoch_without_a_pair(rt: HostRuntime) -> Result<(), Fail> {
    let alloc = rt.alloc();
    for (epoch, is_paired) in [(7, false), (8, true), (9, true), (10, false)] {
        match epoch_pair::<EvenSuite>(alloc, &[0; 32], epoch) {
            Ok(key) => assert!(rt; is_paired && key.epoch == epoch),
            Err(fault) => assert!(rt; !is_paired && fault == KeyFault::NoKey { epoch }),
        }
    }
    let mut ring = KeyRing::<EvenSuite>::new(&[0; 32], Times::new(1000, 100)?);
    for (moment, want) in [
        (8_500u32, None),
        (8_950, None),
        (9_050, None),
        (9_950, Some(10)),
        (10_050, Some(10)),
        (10_950, Some(10)),
        (11_050, Some(11)),
        (7_950, Some(7)),
        (8_050, Some(7)),
        (9_500, None),
    ] {
        let answer = match ring.keys_at(alloc, u64::from(moment)) {
            Ok(_) => None,
            Err(KeyFault::NoKey { epoch }) => Some(epoch),
            Err(KeyFault::Memory) => return Err(Fail::from("memory")),
        };
        assert_eq!(rt; answer, want, "at {moment}");
    }
    Ok(())
}

fn may_cross<T: Send + Sync>(_value: &T) {}

#[test]
fn keys_may_cross_threads(rt: HostRuntime) -> Result<(), Fail> {
    let mut ring = KeyRing::<LabSuite>::new(&[0; 32], Times::new(1000, 100)?);
    may_cross(&ring);
    let keys = ring.keys_at(rt.alloc(), 500)?;
    may_cross(&keys);
    assert_eq!(rt; keys.first.epoch, 0);
    Ok(())
}
