// Links that fail.
ghost use Rattle.std.specs.Prelude.{None};

use super::packets::{FIRST_TAG, NEXT, failing_link, link, to_next, to_recipient};
use super::seats::{live_alone, seat};
use super::tallies::{Tally, has_tag};
use mix_base::Failed;
use mix_links::{Arrived, LinkIn, LinkOut, ListOut};
use node_actors::OpenGate;
use std::test::Fail;

#[test]
fn a_link_in_that_fails_ends_its_listener(rt: HostRuntime) -> Result<(), Fail> {
    let alloc = rt.alloc();
    let packets = vec![in alloc; to_recipient(alloc, 1)?, to_recipient(alloc, 2)?]?;
    let failing = failing_link(alloc, &packets, vec![in alloc; 2]?)?;
    let node = seat::<_, ListOut>(alloc, 0, 1, 2, vec![in alloc; failing]?, Vec::new(alloc))?;
    let mut end = live_alone(&rt, alloc, node, 2, &OpenGate)?;
    assert!(rt; end.local.len() == 1 && has_tag(&end.local, &FIRST_TAG));
    let Some(mut left) = end.incoming.pop() else {
        return Err(Fail::from("no link"));
    };
    // The packet that it failed at is still there.
    let mut buf = [0; 1622];
    assert_eq!(rt; left.next_packet(&mut buf), Arrived::Packet);
    assert!(rt; packets[1].as_slice() == buf.as_slice());
    assert_eq!(rt; left.next_packet(&mut buf), Arrived::End { cut: 0 });
    Ok(())
}

/// A link whose sends all fail. It counts them.
#[derive(Drop)]
struct Broken {
    faults: u64,
}

impl LinkOut for Broken {
    ghost given = { λ _. None };

    ghost faults = { λ link. link.faults };

    fn send(&mut self, _packet: &[u8]) -> Result<(), Failed> {
        self.faults = self.faults.saturating_add(1);
        Err(Failed)
    }

    fn finish(&mut self) -> Result<(), Failed> {
        Ok(())
    }
}

#[test]
fn each_packet_for_a_broken_link_is_counted(rt: HostRuntime) -> Result<(), Fail> {
    let alloc = rt.alloc();
    let mut packets = Vec::new(alloc);
    for seed in 1..6u8 {
        packets.push(to_next(alloc, seed)?)?;
    }
    packets.push(to_recipient(alloc, 6)?)?;
    let incoming = vec![in alloc; link(alloc, &packets)?]?;
    let outgoing = vec![in alloc; (NEXT, Broken { faults: 0 })]?;
    let node = seat(alloc, 0, 2, 2, incoming, outgoing)?;
    let end = live_alone(&rt, alloc, node, 2, &OpenGate)?;
    let tally = Tally::of(&end.shards);
    assert_eq!(rt; (tally.accepted, tally.local, tally.onward), (6, 1, 5));
    assert_eq!(rt; (end.unsent, end.dropped, end.local.len()), (5, 0, 1));
    let Some((_, link)) = end.outgoing.first() else {
        return Err(Fail::from("no link"));
    };
    assert_eq!(rt; link.faults, 5);
    Ok(())
}
