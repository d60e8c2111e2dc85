// The largest packets of the laboratory suite: five hops, a body of 4,096 bytes, and a block. Memory is ample, so each is
// made, goes along its path, and is opened.
use super::fixtures::{Node, block_for, coins, found, geometry, leaving, path_over};
use crate::answer;
use prim_std::{ChaWords, LabSuite};
use sphinx_make::make_packet;
use sphinx_unwrap::Out;
use std::test::Fail;

const RECIPIENT: [u8; 32] = [0xff; 32];

const SURB: [u8; 16] = [0xff; 16];

#[test]
fn the_largest_packets_arrive_and_come_back(rt: HostRuntime) -> Result<(), Fail> {
    let alloc = rt.alloc();
    let geo = geometry(5, 4096)?;
    let nodes = [1, 2, 3, 4, 5].map(|seed| Node {
        id: [seed; 32],
        key: [0xff; 32],
    });
    let sent_body = vec![in alloc; 0x41; 4096]?;
    let path = path_over(alloc, &nodes, Some(1))?;
    let made = block_for(alloc, &geo, &path, &RECIPIENT, &SURB, &[4; 32])?;
    let coins = coins(alloc, &mut ChaWords::new(&[5; 32]), &path)?;
    let sent = Some(made.block.as_slice());
    let packet = make_packet::<LabSuite>(alloc, &geo, &path, &RECIPIENT, &sent_body, sent, &coins)?;
    let Out::Deliver {
        recipient,
        body,
        block,
    } = leaving(&rt, alloc, &geo, &nodes, &packet)?
    else {
        return Err(Fail::from("not delivered"));
    };
    let block = block.ok_or("no block")?;
    assert_eq!(rt; recipient, RECIPIENT);
    assert_eq!(rt; body.as_slice(), sent_body.as_slice());
    assert_eq!(rt; block.as_slice(), made.block.as_slice());
    let answered = answer::<LabSuite>(alloc, &geo, block.as_slice(), &sent_body)?;
    let Out::Reply {
        recipient,
        surb,
        payload,
    } = leaving(&rt, alloc, &geo, &nodes, answered.packet.as_slice())?
    else {
        return Err(Fail::from("no reply"));
    };
    assert_eq!(rt; (recipient, surb), (RECIPIENT, SURB));
    let opened = found(alloc, &geo, &made.keys, payload.as_slice())??;
    assert_eq!(rt; opened.as_slice(), sent_body.as_slice());
    Ok(())
}
