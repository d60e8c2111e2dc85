// A packet against another program's and unwrapped hop after hop, the refusals in their order, and drawn delays against
// counts made by hand.
ghost use Rattle.std.specs.Prelude.{◌≡◌, vec_len, IfOk};

mod unreadable;

use crate::{Draw, HopSpec, MakeFault, draw_delay, make_header, make_packet};
use mix_base::{Bytes, ListWords, Memory, Words, next_words};
use packet_form::{Exit, Geometry};
use prim_std::{ChaWords, LabSuite, hmac_sha256, sha256};
use sphinx_unwrap::{Opened, Out, unwrap};
use std::alloc::{AllocError, Global};
use std::process::Abort;
use std::test::Fail;
use unreadable::UnreadableKeys;

// The key of each hop, public and secret, and the id of each.
const KEY: [u8; 32] = [
    0x92, 0x0d, 0x9f, 0x63, 0x9d, 0x83, 0x90, 0xf5, 0xf6, 0xd8, 0x11, 0xd4, 0xc9, 0x9d, 0x61, 0xb6,
    0xb7, 0x72, 0xd7, 0x59, 0x81, 0x2c, 0x63, 0x00, 0x90, 0xe7, 0xde, 0xcc, 0x3a, 0x53, 0x6b, 0xfa,
];

const ID: [u8; 32] = [0x11; 32];

const RECIPIENT: [u8; 32] = [0x22; 32];

// A hop with the first bytes of the key, and zeros behind them.
fn hop(alloc: Global, key_length: usize, delay: Option<u32>) -> Result<HopSpec, AllocError> {
    let mut key = KEY.to_vec(alloc)?;
    key.resize(key_length, 0)?;
    Ok(HopSpec {
        id: ID,
        key: Bytes::of(key),
        delay,
    })
}

// Five hops with drawn delays.
fn drawn_path(alloc: Global, seed: &[u8; 32]) -> Result<Vec<HopSpec>, AllocError> {
    let mut words = ChaWords::new(&hmac_sha256(seed, b"mix-delay"));
    let draw = Draw {
        threshold: 0x8000_0000,
        unit: 100,
        cap: 1000,
    };
    let mut path = Vec::new(alloc);
    for _ in 0..5 {
        path.push(hop(alloc, 32, Some(draw_delay(&mut words, &draw)))?)?;
    }
    Ok(path)
}

// So many words of a seed's key stream.
fn coins(alloc: Global, seed: &[u8; 32], count: usize) -> Result<Vec<u32>, Memory>
    ensures { IfOk result (λ coins. vec_len coins ≡ count) }
{
    next_words(alloc, &mut ChaWords::new(seed), count)
}

// A hop opens the packet, and finds its own delay.
fn expect_opened(
    rt: &impl Abort,
    alloc: Global,
    geo: &Geometry,
    hop: &HopSpec,
    packet: &[u8],
) -> Result<Out, Fail> {
    let key: &[u8] = &KEY;
    assert_eq!(rt; (geo.ct(), key.len()), (48, 32));
    match unwrap::<LabSuite>(alloc, geo, key, packet) {
        Ok(Opened { tag: _, delay, out }) => {
            assert_eq!(rt; delay, hop.delay);
            Ok(out)
        }
        Err(_) => Err(Fail::from("not opened")),
    }
}

// What a hop forwards to the next one.
fn expect_forward(rt: &impl Abort, out: Out) -> Result<Bytes, Fail> {
    match out {
        Out::Forward { next, packet } => {
            assert_eq!(rt; next, ID);
            Ok(packet)
        }
        _ => Err(Fail::from("not forwarded")),
    }
}

// Body and block are delivered.
fn expect_delivery(
    rt: &impl Abort,
    out: &Out,
    want: &[u8],
    want_block: Option<&[u8]>,
) -> Result<(), Fail> {
    let Out::Deliver {
        recipient,
        body,
        block,
    } = out
    else {
        return Err(Fail::from("not delivered"));
    };
    assert_eq!(rt; *recipient, RECIPIENT);
    assert_eq!(rt; body.as_slice(), want);
    assert_eq!(rt; block.is_some(), want_block.is_some());
    if let (Some(block), Some(want)) = (block, want_block) {
        assert_eq!(rt; block.as_slice(), want);
    }
    Ok(())
}

// Each hop but the last forwards the packet, and the last one delivers body and block.
fn expect_arrival(
    rt: &impl Abort,
    alloc: Global,
    geo: &Geometry,
    path: &[HopSpec],
    made: Vec<u8>,
    body: &[u8],
    block: Option<&[u8]>,
) -> Result<(), Fail> {
    let (last, before) = path.split_last().ok_or("no hop")?;
    let mut packet = Bytes::of(made);
    for hop in before {
        packet = expect_forward(rt, expect_opened(rt, alloc, geo, hop, packet.as_slice())?)?;
    }
    let out = expect_opened(rt, alloc, geo, last, packet.as_slice())?;
    expect_delivery(rt, &out, body, block)
}

// The hashes are those of another program's packet, whole and up to the payload.
#[test]
fn packet_of_five_hops(rt: HostRuntime) -> Result<(), Fail> {
    let alloc = rt.alloc();
    let geo = Geometry::new(48, 5, 64)?;
    let seed = [0x01; 32];
    let path = drawn_path(alloc, &seed)?;
    let coins = coins(alloc, &seed, 40)?;
    assert_eq!(rt; path.len(), 5);
    let body = [0x41; 64];
    let packet = make_packet::<LabSuite>(alloc, &geo, &path, &RECIPIENT, &body, None, &coins)?;
    assert_eq!(rt;
        sha256(&packet),
        [
            0x05, 0xb2, 0xec, 0x27, 0x33, 0x8d, 0x73, 0xfb, 0xc3, 0x83, 0x05, 0x1a, 0x56, 0xe1,
            0x1e, 0x66, 0x24, 0xdd, 0xf2, 0x05, 0x35, 0x3f, 0xdf, 0xc1, 0xe3, 0x72, 0xd8, 0x2e,
            0xf9, 0x03, 0x45, 0x1e,
        ]
    );
    let last = Exit::Recipient { id: RECIPIENT };
    let made = make_header::<LabSuite>(alloc, &geo, &path, &last, &coins)?;
    assert_eq!(rt;
        sha256(made.header.as_slice()),
        [
            0x82, 0xb1, 0x52, 0x2e, 0x02, 0x6a, 0xe5, 0xf8, 0xc5, 0x8d, 0x94, 0xa9, 0xf2, 0x2a,
            0x70, 0x5e, 0xa6, 0xa1, 0x56, 0x97, 0x1e, 0xe5, 0x0e, 0x44, 0x62, 0x7b, 0xf7, 0x68,
            0x79, 0x22, 0x41, 0xfc,
        ]
    );
    assert_eq!(rt; made.wides.len(), 5);
    expect_arrival(&rt, alloc, &geo, &path, packet, &body, None)?;
    let block = [0x5a; 842];
    let packet = make_packet::<LabSuite>(
        alloc,
        &geo,
        &path,
        &RECIPIENT,
        &body,
        Some(&block),
        &coins,
    )?;
    expect_arrival(&rt, alloc, &geo, &path, packet, &body, Some(&block))
}

#[test]
fn first_cause_refuses(rt: HostRuntime) -> Result<(), Fail> {
    let alloc = rt.alloc();
    let geo = Geometry::new(48, 5, 64)?;
    // hops, one whose delay is too long, one whose key is a byte short, lengths of body and block; the refusal
    let rows = [
        (0, 9, 9, 63, Some(841), MakeFault::PathLength),
        (6, 1, 0, 63, Some(841), MakeFault::PathLength),
        (5, 1, 0, 63, Some(841), MakeFault::BodyLength),
        (5, 1, 0, 65, None, MakeFault::BodyLength),
        (5, 1, 0, 64, Some(841), MakeFault::BlockLength),
        (5, 1, 0, 64, Some(842), MakeFault::Delay { hop: 1 }),
        (2, 9, 1, 64, None, MakeFault::KeyForm { hop: 1 }),
    ];
    for (hops, late, short, body, block, want) in rows {
        let mut path = Vec::new(alloc);
        for place in 0..hops {
            let delay = if place == late {
                10_800_001
            } else {
                10_800_000
            };
            let key_length = if place == short { 31 } else { 32 };
            path.push(hop(alloc, key_length, Some(delay))?)?;
        }
        assert!(rt; path.len() <= 6);
        let coins = coins(alloc, &ID, 8 * path.len())?;
        let body = vec![in alloc; 0; body]?;
        let block = vec![in alloc; 0; block.unwrap_or(0)]?;
        let given = if block.is_empty() {
            None
        } else {
            Some(block.as_slice())
        };
        let made = make_packet::<LabSuite>(alloc, &geo, &path, &RECIPIENT, &body, given, &coins);
        assert_eq!(rt; made.err(), Some(want));
    }
    // a key of the right length that doesn't decode
    let path = [hop(alloc, 32, None)?, hop(alloc, 32, None)?];
    let last = Exit::Recipient { id: RECIPIENT };
    let made = make_header::<UnreadableKeys>(alloc, &geo, &path, &last, &[]);
    assert_eq!(rt; made.err(), Some(MakeFault::KeyForm { hop: 0 }));
    Ok(())
}

#[test]
fn delays_are_drawn_up_to_the_cap(rt: HostRuntime) -> Result<(), Fail> {
    // threshold, unit, cap; the delay, and the next word that is left
    let rows = [
        (0x8000_0000, 100, 1000, 200, 0x8000_0000),
        (0x8000_0000, 100, 150, 150, 0x7fff_ffff),
        (0x8000_0000, 100, 200, 200, 0x7fff_ffff),
        (0x8000_0000, 100, 201, 200, 0x8000_0000),
        (0, 100, 1000, 1000, 0xffff_ffff),
        (0xffff_ffff, 7, 1000, 0, 0xffff_ffff),
        (0, 60_000, 10_800_000, 10_800_000, 0x8000_0000),
        (0, 100, 0, 0, 0x8000_0000),
        (0xffff_ffff, 1, 1, 0, 0xffff_ffff),
    ];
    for (threshold, unit, cap, delay, left) in rows {
        let list = vec![in rt.alloc(); 0x8000_0000, 0xffff_ffff, 0x7fff_ffff]?;
        if list.is_empty() {
            return Err(Fail::from("no words"));
        }
        let mut words = ListWords::new(list);
        let draw = Draw {
            threshold,
            unit,
            cap,
        };
        if !draw.is_allowed() {
            return Err(Fail::from("outside of what is asked"));
        }
        assert_eq!(rt; draw_delay(&mut words, &draw), delay);
        assert_eq!(rt; words.next(), left);
    }
    Ok(())
}
