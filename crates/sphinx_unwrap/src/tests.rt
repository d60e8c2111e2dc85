// Each refusal and each outcome once, over a suite so plain that a packet is written by hand: a ciphertext is
// the byte 9, a secret and a MAC are the secret key, and the stream and the wide block cipher change nothing.
ghost use Rattle.std.specs.Prelude.{◌==◌, true, Some, None, refl, replicate, slice_index, if◌then◌else◌};

use crate::{Opened, Out, Refused, UnwrapFault, unwrap};
use mix_base::{EncapFault, HopKeys, Kdf, Kem, Mac, Memory, PairFault, Stream, Suite, Wide, Words};
use packet_form::Geometry;
use std::alloc::{AllocError, Global};
use std::test::Fail;

#[derive(Drop)]
struct Plain;

impl Kem for Plain {
    ghost scheme = { record {
      public_key = 32;
      secret_key = 32;
      ciphertext = 1;
      coins = 0;
      pair = λ _. None;
      encapsulate = λ _ _. None;
      decapsulate = λ sk ct. if slice_index ct 0 == 9 then Some sk else None;
    } };

    ghost PK = { 32 };

    ghost SK = { 32 };

    ghost CT = { 1 };

    ghost COINS = { 0 };

    ghost LEAN = { true };

    const PK: usize = 32;

    const SK: usize = 32;

    const CT: usize = 1;

    const COINS: usize = 0;

    const LEAN: bool = true;

    fn pair<W: Words>(
        _alloc: Global,
        _words: &mut W,
        _pk: &mut [u8],
        _sk: &mut [u8],
    ) -> Result<(), PairFault> {
        Err(PairFault::NoKey)
    }

    fn encap(
        _alloc: Global,
        _pk: &[u8],
        _coins: &[u32],
        _ct: &mut [u8],
        _secret: &mut [u8; 32],
    ) -> Result<(), EncapFault> {
        Err(EncapFault::KeyForm)
    }

    fn decap(_alloc: Global, sk: &[u8], ct: &[u8], secret: &mut [u8; 32]) -> Result<bool, Memory> {
        if ct[0] == 9 {
            secret.copy_from_slice(sk);
            Ok(true)
        } else {
            Ok(false)
        }
    }

    ghost public_key_length = { refl };

    ghost secret_key_length = { refl };

    ghost ciphertext_length = { refl };

    ghost coins_length = { refl };
}

impl Mac for Plain {
    ghost code = { λ key _. key };

    fn tag(key: &[u8; 32], _message: &[u8]) -> [u8; 32] {
        *key
    }

    ghost code_length = { λ _ _ long. long };
}

impl Kdf for Plain {
    ghost keys = { λ secret. record { mac = secret; stream = secret; wide = replicate 128 0 } };

    fn expand(secret: &[u8; 32]) -> HopKeys {
        HopKeys {
            mac: *secret,
            stream: *secret,
            wide: [0; 128],
        }
    }
}

impl Stream for Plain {
    ghost byte = { λ _ _. 0 };

    fn xor(_key: &[u8; 32], _buf: &mut [u8]) {}
}

impl Wide for Plain {
    ghost encrypted = { λ _ block. block };

    ghost decrypted = { λ _ block. block };

    fn encrypt(_key: &[u8; 128], _block: &mut [u8]) {}

    fn decrypt(_key: &[u8; 128], _block: &mut [u8]) {}

    ghost decrypts = { λ _ _ _. refl };

    ghost encrypts = { λ _ _ _. refl };

    ghost encrypted_length = { λ _ _ _. refl };

    ghost decrypted_length = { λ _ _ _. refl };
}

impl Suite for Plain {
    type K = Plain;

    type M = Plain;

    type D = Plain;

    type C = Plain;

    type W = Plain;

    ghost meaning = { record {
      kem = ⟦<Plain as Kem>⟧.scheme;
      mac = ⟦<Plain as Mac>⟧.code;
      hop_keys = ⟦<Plain as Kdf>⟧.keys;
      stream = ⟦<Plain as Stream>⟧.byte;
      encrypt = ⟦<Plain as Wide>⟧.encrypted;
      decrypt = ⟦<Plain as Wide>⟧.decrypted;
    } };

    ghost made_of_parts = { refl };
}

/// SHA-256 of the ciphertext, by `sha256sum`.
const TAG: [u8; 32] = [
    0x2b, 0x4c, 0x34, 0x2f, 0x54, 0x33, 0xeb, 0xe5, 0x91, 0xa1, 0xda, 0x77, 0xe0, 0x13, 0xd1, 0xb7,
    0x24, 0x75, 0x56, 0x2d, 0x48, 0x57, 0x8d, 0xca, 0x8b, 0x84, 0xba, 0xc6, 0x65, 0x1c, 0x3c, 0xb9,
];

const ID: [u8; 32] = [0x22; 32];

const MAC: [u8; 32] = [0x66; 32];

const SURB: [u8; 16] = [0x44; 16];

/// What a row expects.
#[derive(Clone, Copy)]
enum Expected {
    Body,
    BodyAndBlock,
    Damaged,
    Forward,
    Reply,
    Refused(Refused),
}

/// Puts the payload that carries a body of 16 bytes and no block.
fn put_payload(packet: &mut Vec<u8>) -> Result<(), AllocError> {
    packet.extend_from_slice(&[0; 375])?;
    packet.extend_from_slice(&[0x41; 16])
}

/// A packet of 572 bytes in the geometry of two hops, a ciphertext of 1 byte and a body of 16 bytes. The slot
/// stands at 3 with its commands at 4, what is behind it at 76, the MAC at 149, the payload at 181, its block at 215
/// and its body at 556.
fn packet(alloc: Global, commands: &[&[u8]]) -> Result<Vec<u8>, AllocError> {
    let mut bytes = Vec::with_capacity(alloc, 572)?;
    bytes.extend_from_slice(&[0, 0, 9, 8])?;
    for part in commands {
        bytes.extend_from_slice(*part)?;
    }
    bytes.resize(76, 0)?;
    bytes.extend_from_slice(&[0x55; 73])?;
    bytes.extend_from_slice(&[7; 32])?;
    put_payload(&mut bytes)?;
    Ok(bytes)
}

/// The packet that goes from there to the next hop.
fn next_packet(alloc: Global) -> Result<Vec<u8>, AllocError> {
    let mut bytes = Vec::with_capacity(alloc, 572)?;
    bytes.extend_from_slice(&[0, 0, 8])?;
    bytes.extend_from_slice(&[0x55; 73])?;
    bytes.extend_from_slice(&[0; 73])?;
    bytes.extend_from_slice(&MAC)?;
    put_payload(&mut bytes)?;
    Ok(bytes)
}

/// Whether what went out is the expected one.
fn is_expected_out(alloc: Global, out: &Out, expected: Expected) -> Result<bool, AllocError> {
    Ok(match (out, expected) {
        (Out::Damaged { recipient }, Expected::Damaged) => *recipient == ID,
        (
            Out::Deliver {
                recipient,
                body,
                block,
            },
            Expected::Body | Expected::BodyAndBlock,
        ) => {
            *recipient == ID
                && body.as_slice() == [0x41; 16].as_slice()
                && block.is_some() == matches!(expected, Expected::BodyAndBlock)
        }
        (Out::Forward { next, packet }, Expected::Forward) => {
            *next == ID && packet.as_slice() == next_packet(alloc)?.as_slice()
        }
        (
            Out::Reply {
                recipient,
                surb,
                payload,
            },
            Expected::Reply,
        ) => {
            let mut whole = Vec::new(alloc);
            put_payload(&mut whole)?;
            *recipient == ID && *surb == SURB && payload.as_slice() == whole.as_slice()
        }
        _ => false,
    })
}

/// Whether the answer is the expected one.
fn is_expected(
    alloc: Global,
    answer: &Result<Opened, UnwrapFault>,
    delay: Option<u32>,
    expected: Expected,
) -> Result<bool, AllocError> {
    match (answer, expected) {
        (Ok(opened), expected) => Ok(
            opened.tag == TAG
                && opened.delay == delay
                && is_expected_out(alloc, &opened.out, expected)?,
        ),
        (Err(UnwrapFault::Refused(why)), Expected::Refused(expected)) => Ok(*why == expected),
        _ => Ok(false),
    }
}

#[test]
fn each_exit_has_its_outcome(rt: HostRuntime) -> Result<(), Fail> {
    let rows: [(Option<u32>, Expected, [&[u8]; 5]); 6] = [
        (None, Expected::Forward, [&[], &[1], &ID, &MAC, &[]]),
        (
            Some(1),
            Expected::Forward,
            [&[0x80, 0, 0, 0, 1], &[1], &ID, &MAC, &[]],
        ),
        (None, Expected::Body, [&[], &[2], &ID, &[], &[]]),
        (
            Some(0),
            Expected::Body,
            [&[0x80, 0, 0, 0, 0], &[2], &ID, &[], &[]],
        ),
        (None, Expected::Reply, [&[], &[2], &ID, &[3], &SURB]),
        (
            Some(10_800_000),
            Expected::Reply,
            [&[0x80, 0, 0xa4, 0xcb, 0x80], &[2], &ID, &[3], &SURB],
        ),
    ];
    let Ok(geo) = Geometry::new(1, 2, 16) else {
        return Err(Fail::from("no geometry"));
    };
    for (delay, expected, commands) in rows {
        let bytes = packet(rt.alloc(), &commands)?;
        let answer = unwrap::<Plain>(rt.alloc(), &geo, &[7; 32], &bytes);
        assert!(rt; is_expected(rt.alloc(), &answer, delay, expected)?);
    }
    Ok(())
}

#[test]
fn one_changed_byte_decides_the_outcome(rt: HostRuntime) -> Result<(), Fail> {
    let rows = [
        (556, 0x41, Expected::Body),
        (213, 1, Expected::BodyAndBlock),
        (0, 1, Expected::Refused(Refused::Version)),
        (1, 1, Expected::Refused(Refused::Version)),
        (2, 8, Expected::Refused(Refused::Sealed)),
        (180, 8, Expected::Refused(Refused::Sealed)),
        // a delay that is too long, and bytes behind the last command
        (4, 0x80, Expected::Refused(Refused::Commands)),
        (4, 3, Expected::Refused(Refused::Commands)),
        (37, 4, Expected::Refused(Refused::Commands)),
        (75, 1, Expected::Refused(Refused::Commands)),
        // what stands behind the layer isn't looked at
        (3, 0xff, Expected::Body),
        (76, 0xff, Expected::Body),
        (212, 1, Expected::Damaged),
        (213, 2, Expected::Damaged),
        (214, 1, Expected::Damaged),
        (215, 1, Expected::Damaged),
        (555, 1, Expected::Damaged),
    ];
    let Ok(geo) = Geometry::new(1, 2, 16) else {
        return Err(Fail::from("no geometry"));
    };
    for (place, byte, expected) in rows {
        let mut bytes = packet(rt.alloc(), &[&[2], &ID])?;
        if place < bytes.len() {
            bytes[place] = byte;
        }
        let answer = unwrap::<Plain>(rt.alloc(), &geo, &[7; 32], &bytes);
        assert!(rt;
            is_expected(rt.alloc(), &answer, None, expected)?,
            "{place} {byte}"
        );
    }
    Ok(())
}

#[test]
fn length_is_judged_first(rt: HostRuntime) -> Result<(), Fail> {
    let Ok(geo) = Geometry::new(1, 2, 16) else {
        return Err(Fail::from("no geometry"));
    };
    let ones = vec![in rt.alloc(); 1; 573]?;
    let rows = [
        (0, Refused::Length),
        (571, Refused::Length),
        (572, Refused::Version),
        (573, Refused::Length),
    ];
    for (length, why) in rows {
        let packet = ones.get(..length).ok_or("too long")?;
        let answer = unwrap::<Plain>(rt.alloc(), &geo, &[7; 32], packet);
        assert!(rt;
            is_expected(rt.alloc(), &answer, None, Expected::Refused(why))?,
            "{length}"
        );
    }
    Ok(())
}
