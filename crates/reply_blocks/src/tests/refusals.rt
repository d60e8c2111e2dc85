// Blocks that aren't made, and answers that are refused: each cause.
use super::fixtures::{coins, geometry};
use crate::{AnswerFault, answer, make_block};
use mix_base::Bytes;
use prim_std::{ChaWords, LabSuite};
use sphinx_make::{HopSpec, MakeFault};
use std::test::Fail;

#[test]
fn the_first_cause_refuses_a_block(rt: HostRuntime) -> Result<(), Fail> {
    let alloc = rt.alloc();
    let geo = geometry(5, 64)?;
    // hops, one whose delay is a millisecond too long, one whose key is a byte short; the refusal
    let rows = [
        (0, 9, 9, MakeFault::PathLength),
        (6, 0, 0, MakeFault::PathLength),
        (5, 4, 0, MakeFault::Delay { hop: 4 }),
        (5, 9, 3, MakeFault::KeyForm { hop: 3 }),
    ];
    for (hops, late, short, want) in rows {
        let mut path = Vec::new(alloc);
        for place in 0..hops {
            let key = vec![in alloc; 7; if place == short { 31 } else { 32 }]?;
            path.push(HopSpec {
                id: [0xa1; 32],
                key: Bytes::of(key),
                delay: Some(if place == late {
                    10_800_001
                } else {
                    10_800_000
                }),
            })?;
        }
        let coins = coins(alloc, &mut ChaWords::new(&[4; 32]), &path)?;
        let made = make_block::<LabSuite>(
            alloc,
            &geo,
            &path,
            &[0x33; 32],
            &[0x44; 16],
            &[0x55; 128],
            &coins,
        );
        assert_eq!(rt; made.err(), Some(want));
    }
    Ok(())
}

#[test]
fn a_block_is_judged_before_the_body(rt: HostRuntime) -> Result<(), Fail> {
    let rows = [
        (841, 64, Some(AnswerFault::BlockLength)),
        (843, 64, Some(AnswerFault::BlockLength)),
        (841, 63, Some(AnswerFault::BlockLength)),
        (842, 63, Some(AnswerFault::BodyLength)),
        (842, 65, Some(AnswerFault::BodyLength)),
        (842, 64, None),
    ];
    let geo = geometry(5, 64)?;
    for (block, body, fault) in rows {
        let block = vec![in rt.alloc(); 7; block]?;
        let body = vec![in rt.alloc(); 8; body]?;
        let answered = answer::<LabSuite>(rt.alloc(), &geo, &block, &body);
        assert_eq!(rt; answered.err(), fault);
    }
    Ok(())
}
