// A block, its answer and its reply, compared with those of an independent program.
use super::fixtures::{
    Node, block_for, bytes_of, changed, expect_sum, found, geometry, leaving, path_over,
};
use crate::{BlockKeys, OpenFault, answer};
use prim_std::LabSuite;
use sphinx_unwrap::Out;
use std::alloc::{AllocError, Global};
use std::test::Fail;

const SURB: [u8; 16] = [
    0xad, 0x16, 0x95, 0xad, 0x97, 0xa0, 0x8f, 0x1a, 0xb4, 0x73, 0xb5, 0xc6, 0x28, 0xa9, 0xab, 0x5a,
];

const BODY: [u8; 16] = [
    0x1b, 0x90, 0x03, 0xe3, 0x31, 0x34, 0xa5, 0xf3, 0x28, 0x9f, 0x7e, 0xb1, 0x7f, 0x5c, 0x66, 0xfe,
];

fn nodes() -> Result<[Node; 2], Fail> {
    let first = Node {
        id: bytes_of("a0d72ac1482fa07db627abf7b1fe33b7d46ea9cc633d3b290258b81fc846d8a0")?,
        key: bytes_of("3d2973e540cbcf0c57654dbd4e2fd9517738db92997f4585ef674e3ae91891eb")?,
    };
    let second = Node {
        id: bytes_of("e9cd84d785db9f1d83a34d882accb35dcbc9da34201cb3b405a9147ba6c4a930")?,
        key: bytes_of("d8828343e34f83b8918691fd3180ce82d05d0f031faa95a15d7a2070c98a1af4")?,
    };
    Ok([first, second])
}

/// The keys of the hops, and the own key behind them.
fn joined(alloc: Global, keys: &BlockKeys) -> Result<Vec<u8>, AllocError> {
    let mut bytes = Vec::new(alloc);
    for key in keys.hops.iter() {
        bytes.extend_from_slice(key)?;
    }
    bytes.extend_from_slice(&keys.own)?;
    Ok(bytes)
}

#[test]
fn a_block_its_answer_and_its_reply_are_those_of_another_program(
    rt: HostRuntime,
) -> Result<(), Fail> {
    let alloc = rt.alloc();
    let geo = geometry(3, 16)?;
    let nodes = nodes()?;
    let recipient = bytes_of("fb9e15bf967673038e829165a0c349c060a217e3e81f59d51eaac10bd49fb82a")?;
    let seed = bytes_of("792638477b7c777db6cb28465f5fae8280965a1e685b713ca2acb2ec9d823b76")?;
    let path = path_over(alloc, &nodes, Some(77))?;
    let made = block_for(alloc, &geo, &path, &recipient, &SURB, &seed)?;
    expect_sum(
        &rt,
        alloc,
        made.block.as_slice(),
        "02941e8ada97450f5d8e48eb1a1bca090892a7e09c0c964095a474198548149d",
    )?;
    expect_sum(
        &rt,
        alloc,
        &joined(alloc, &made.keys)?,
        "9f1bd51002e0caa40577f69c66e863f54d4418a812a62a7914bafec7dfaff770",
    )?;
    let answered = answer::<LabSuite>(alloc, &geo, made.block.as_slice(), &BODY)?;
    assert_eq!(rt; answered.first, nodes[0].id);
    expect_sum(
        &rt,
        alloc,
        answered.packet.as_slice(),
        "90cdbf29fbd0bc841d877990b8a13d98274120413b7d9c8120b4427e6407df15",
    )?;
    let Out::Reply {
        recipient: who,
        surb,
        payload,
    } = leaving(&rt, alloc, &geo, &nodes, answered.packet.as_slice())?
    else {
        return Err(Fail::from("no reply"));
    };
    assert_eq!(rt; who, recipient);
    assert_eq!(rt; surb, SURB);
    expect_sum(
        &rt,
        alloc,
        payload.as_slice(),
        "841f13569b5df690ad61ed8f368319bd473bb911301e652a371c9e35ad80f1e3",
    )?;
    let body = found(alloc, &geo, &made.keys, payload.as_slice())??;
    assert_eq!(rt; body.as_slice(), BODY.as_slice());
    let other = changed(alloc, payload.as_slice(), 130)?;
    let refused = found(alloc, &geo, &made.keys, &other)?.err();
    assert_eq!(rt; refused, Some(OpenFault::Damaged));
    Ok(())
}
