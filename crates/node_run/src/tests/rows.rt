// A small life: what is delivered, what is sent, what is spent.
use super::packets::{FIRST_TAG, NEXT, SECOND_TAG, hop, link, packet, to_next, to_recipient};
use super::seats::{live_alone, seat, setup, shard};
use super::tallies::{Tally, has_tag};
use mix_base::Shape;
use mix_links::ListOut;
use mix_shard::Shard;
use node_actors::OpenGate;
use prim_std::LabSuite;
use replay_disk::{CrashRack, MemRack};
use std::alloc::Global;
use std::test::Fail;

/// How many pairs the one shard's journal has after a crash.
fn spent_after_crash(
    alloc: Global,
    shards: Vec<Shard<MemRack, LabSuite>>,
    pick: u64,
) -> Result<u64, Fail> {
    let mut shards = shards;
    let Some(lived) = shards.pop() else {
        return Err(Fail::from("no shard"));
    };
    let (mut rack, _) = lived.into_parts();
    rack.crash(pick);
    let shape = Shape {
        shards: 1,
        index: 0,
    };
    let mut again = shard(alloc, &setup(0)?, rack, shape, 1)?;
    Ok(again.ready(alloc, 0)?.spent)
}

#[test]
fn two_packets_and_the_first_again(rt: HostRuntime) -> Result<(), Fail> {
    let alloc = rt.alloc();
    let packets = vec![in alloc;
        to_recipient(alloc, 1)?,
        to_recipient(alloc, 2)?,
        to_recipient(alloc, 1)?,
    ]?;
    for pick in 0..3 {
        let incoming = vec![in alloc; link(alloc, &packets)?]?;
        let node = seat::<_, ListOut>(alloc, 0, 1, 2, incoming, Vec::new(alloc))?;
        let end = live_alone(&rt, alloc, node, 2, &OpenGate)?;
        assert_eq!(rt; end.local.len(), 2);
        assert!(rt; has_tag(&end.local, &FIRST_TAG) && has_tag(&end.local, &SECOND_TAG));
        assert_eq!(rt; (end.unsent, end.dropped), (0, 0));
        let wanted = Tally {
            accepted: 2,
            spent: 1,
            refused: 0,
            local: 2,
            onward: 0,
        };
        assert_eq!(rt; Tally::of(&end.shards), wanted);
        assert_eq!(rt; spent_after_crash(alloc, end.shards, pick)?, 2);
    }
    Ok(())
}

#[test]
fn a_packet_whose_send_failed_is_counted(rt: HostRuntime) -> Result<(), Fail> {
    let alloc = rt.alloc();
    let packets = vec![in alloc; to_next(alloc, 1)?, to_next(alloc, 2)?]?;
    let incoming = vec![in alloc; link(alloc, &packets)?]?;
    let outgoing = vec![in alloc; (NEXT, ListOut::new(alloc, vec![in alloc; 1]?))]?;
    let node = seat(alloc, 0, 1, 2, incoming, outgoing)?;
    let end = live_alone(&rt, alloc, node, 2, &OpenGate)?;
    assert_eq!(rt; (end.unsent, end.dropped, end.local.len()), (1, 0, 0));
    let Some(out) = end.outgoing.first() else {
        return Err(Fail::from("no link"));
    };
    assert!(rt; out.0 == NEXT);
    assert_eq!(rt; out.1.packets().len(), 1);
    assert_eq!(rt; Tally::of(&end.shards).onward, 2);
    Ok(())
}

// Two links in, two shards, packets for recipients, for a next hop with a link, and for one without.
#[test]
fn each_packet_goes_to_its_place(rt: HostRuntime) -> Result<(), Fail> {
    let alloc = rt.alloc();
    let lost = vec![in alloc; hop(alloc, 0x11, 0)?, hop(alloc, 0xa3, 1)?]?;
    let one = vec![in alloc;
        to_recipient(alloc, 1)?,
        to_next(alloc, 3)?,
        packet(alloc, &[4; 32], &lost)?,
    ]?;
    let other = vec![in alloc;
        to_next(alloc, 5)?,
        to_recipient(alloc, 2)?,
        to_recipient(alloc, 1)?,
    ]?;
    let incoming = vec![in alloc; link(alloc, &one)?, link(alloc, &other)?]?;
    let outgoing = vec![in alloc; (NEXT, ListOut::new(alloc, Vec::new(alloc)))]?;
    let node = seat(alloc, 0, 2, 2, incoming, outgoing)?;
    let end = live_alone(&rt, alloc, node, 2, &OpenGate)?;
    assert_eq!(rt; (end.unsent, end.dropped, end.local.len()), (1, 0, 2));
    assert!(rt; has_tag(&end.local, &FIRST_TAG) && has_tag(&end.local, &SECOND_TAG));
    let Some((_, link)) = end.outgoing.first() else {
        return Err(Fail::from("no link"));
    };
    assert_eq!(rt; link.packets().len(), 2);
    let wanted = Tally {
        accepted: 5,
        spent: 1,
        refused: 0,
        local: 2,
        onward: 3,
    };
    assert_eq!(rt; Tally::of(&end.shards), wanted);
    Ok(())
}
