// Held packets come out by the moment from which they are due and by the number of their arrival, each for its own
// destination.
use super::packets::{packet, to_next_hop, to_recipient, to_recipient_after};
use super::setting::Rig;
use due_queue::{Dest, Next};
use std::alloc::Global;
use std::test::Fail;

/// The packet of this number for a delay arrives at the moment 1000 and is claimed. Whether it is held.
fn hold(alloc: Global, rig: &mut Rig, number: u64, delay: u32) -> Result<bool, Fail> {
    let mut seed = [9; 32];
    seed[..8].copy_from_slice(&number.to_be_bytes());
    let packet = packet(alloc, &seed, 0, &to_recipient_after(delay))?;
    Ok(rig.offer(alloc, number, 1000, packet)?.is_ok())
}

/// The delay of the packet of this number: each of 500 delays comes four times among 2,000.
fn delay_of(number: u32) -> u32 {
    number.wrapping_mul(77) % 500
}

/// A shard that holds so many packets, and whether each of them was accepted.
fn full(alloc: Global, count: u32) -> Result<(Rig, bool), Fail> {
    let mut rig = Rig::new(alloc, 5000)?;
    let mut all = true;
    for number in 0..count {
        all = hold(alloc, &mut rig, u64::from(number), delay_of(number))? && all;
    }
    Ok((rig, all))
}

/// When the first packet that is due at the moment is due, and its number; it is taken out.
fn next(rig: &mut Rig, moment: u64) -> Option<(u64, u64)> {
    let held = rig.take(0, &Dest::Local, moment)?;
    Some((held.due(), held.number()))
}

// The delays are 0 to 499, so four packets are due at each moment from 1000 to 1499.
#[test]
fn two_thousand_are_taken_in_order(rt: HostRuntime) -> Result<(), Fail> {
    let (mut rig, all) = full(rt.alloc(), 2000)?;
    assert!(rt; all);
    let mut before = (0, 0);
    for place in 0..2000u64 {
        let taken = next(&mut rig, u64::MAX).unwrap_or((0, 0));
        assert!(rt;
            before.0 < taken.0 || before.0 == taken.0 && before.1 < taken.1,
            "{place}"
        );
        assert_eq!(rt; taken.0, 1000 + place / 4);
        before = taken;
    }
    assert_eq!(rt; next(&mut rig, u64::MAX), None);
    Ok(())
}

/// Three packets that arrived at 1000: the first is due at 1500, the second at 1000 for a next hop, the third at 1000.
fn three(alloc: Global) -> Result<Rig, Fail> {
    let mut rig = Rig::new(alloc, 100)?;
    let delayed = packet(alloc, &[1; 32], 0, &to_recipient_after(500))?;
    rig.offer(alloc, 1, 1000, delayed)??;
    let onward = packet(alloc, &[2; 32], 0, &to_next_hop())?;
    rig.offer(alloc, 2, 1000, onward)??;
    let prompt = packet(alloc, &[3; 32], 0, &to_recipient())?;
    rig.offer(alloc, 3, 1000, prompt)??;
    Ok(rig)
}

#[test]
fn none_is_taken_before_it_is_due_or_for_another(rt: HostRuntime) -> Result<(), Fail> {
    let mut rig = three(rt.alloc())?;
    let hop = Dest::Hop([0x22; 32]);
    let first = Next {
        due: 1000,
        number: 2,
        dest: hop,
    };
    assert_eq!(rt; rig.shard.next_due(999), None);
    assert_eq!(rt; rig.shard.next_due(1000), Some(first));
    // A destination, a moment, and the number of the packet that is taken then.
    let rows = [
        (Dest::Hop([0x33; 32]), 5000, None),
        (Dest::Local, 999, None),
        (Dest::Local, 1499, Some(3)),
        (Dest::Local, 1499, None),
        (hop, 1000, Some(2)),
        (Dest::Local, 1500, Some(1)),
        (hop, 5000, None),
    ];
    for (dest, moment, number) in rows {
        let taken = rig.take(0, &dest, moment).map(|held| held.number());
        assert_eq!(rt; taken, number);
    }
    assert_eq!(rt; rig.shard.next_due(u64::MAX), None);
    Ok(())
}
