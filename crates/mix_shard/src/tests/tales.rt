// Tales: the entries of each call, and what is left after callers' ends and after crashes.
use super::packets::{FIRST_TAG, NINTH_TAG, TENTH_TAG, packet, to_recipient};
use super::setting::Rig;
use crate::{Answer, Denied, Entry, Shard};
use due_queue::Dest;
use prim_std::LabSuite;
use replay_disk::MemRack;
use std::alloc::Global;
use std::test::Fail;

/// The seed of the packet for an epoch.
fn seed_for(epoch: u64) -> [u8; 32] {
    match epoch {
        9 => [3; 32],
        10 => [4; 32],
        _ => [1; 32],
    }
}

/// The packet for an epoch arrives with a number at a moment and is claimed.
fn offered(
    alloc: Global,
    rig: &mut Rig,
    number: u64,
    epoch: u64,
    at: u32,
) -> Result<Result<(), Denied>, Fail> {
    let packet = packet(alloc, &seed_for(epoch), epoch, &to_recipient())?;
    rig.offer(alloc, number, at, packet)
}

/// The entry of a claim of caller 0.
fn claim(number: u64, epoch: u64, tag: [u8; 32], at: u64, answer: Answer) -> Entry {
    Entry::Claim {
        caller: 0,
        number,
        epoch,
        tag,
        at,
        answer,
    }
}

/// The tale of the calls below, but for the end of the caller.
fn wanted() -> [Entry; 9] {
    [
        Entry::Reopened {
            caller: 0,
            floor: 0,
            spent: 0,
        },
        claim(1, 0, FIRST_TAG, 1000, Answer::Taken),
        claim(2, 0, FIRST_TAG, 1001, Answer::Spent),
        Entry::Take {
            caller: 1,
            number: 1,
            dest: Dest::Local,
            moment: 1002,
        },
        Entry::Rotate {
            caller: 1,
            moment: 12_120_000,
            answer: Answer::Taken,
        },
        claim(3, 9, NINTH_TAG, 12_119_999, Answer::Retired { floor: 10 }),
        claim(4, 10, TENTH_TAG, 12_120_000, Answer::Disk),
        Entry::Reopened {
            caller: 2,
            floor: 10,
            spent: 0,
        },
        claim(5, 10, TENTH_TAG, 12_120_001, Answer::Taken),
    ]
}

/// A claim, another of the same packet, a taking and one of nothing, and a rotation.
fn begin(alloc: Global, rig: &mut Rig) -> Result<(), Fail> {
    let _ = offered(alloc, rig, 1, 0, 1000)?;
    let _ = offered(alloc, rig, 2, 0, 1001)?;
    let _ = rig.take(1, &Dest::Local, 1002);
    let _ = rig.take(1, &Dest::Local, 1003);
    let _ = rig.rotate(alloc, 1, 12_120_000);
    Ok(())
}

#[test]
fn each_call_has_its_entry(rt: HostRuntime) -> Result<(), Fail> {
    let alloc = rt.alloc();
    let mut rig = Rig::new(alloc, 100)?;
    begin(alloc, &mut rig)?;
    let _ = offered(alloc, &mut rig, 3, 9, 12_119_999)?;
    assert_eq!(rt; rig.shard.floor(), 10);
    rig.fail_at(alloc, 1)?;
    assert_eq!(rt;
        offered(alloc, &mut rig, 4, 10, 12_120_000)?,
        Err(Denied::Disk)
    );
    assert_eq!(rt; rig.shard.floor(), 0);
    assert_eq!(rt; rig.ready(alloc, 2)?.floor, 10);
    let _ = offered(alloc, &mut rig, 5, 10, 12_120_001)?;
    assert_eq!(rt; rig.shard.tale(), wanted().as_slice());
    let mut shard = rig.into_shard();
    shard.done(0);
    let (_, tale) = shard.into_parts();
    assert_eq!(rt; tale.len(), 10);
    assert_eq!(rt; tale.last(), Some(&Entry::Done { caller: 0 }));
    Ok(())
}

/// A shard with so many callers that holds a packet or none.
fn holding(alloc: Global, callers: u8, some: bool) -> Result<Rig, Fail> {
    let callers = if callers == 0 { 1 } else { callers };
    let mut rig = Rig::over(alloc, MemRack::new(alloc), 100, callers)?;
    if some {
        offered(alloc, &mut rig, 1, 0, 1000)??;
    }
    Ok(rig)
}

/// Whether it is drained: at first, after the end of caller 0, when nothing more is due, and after a crash.
fn drained(alloc: Global, callers: u8, some: bool) -> Result<[bool; 4], Fail> {
    let mut shard = holding(alloc, callers, some)?.into_shard();
    let first = shard.is_drained();
    shard.done(0);
    let ended = shard.is_drained();
    let _ = shard.take_due(0, &Dest::Local, 1000);
    let taken = shard.is_drained();
    shard.crash(0);
    Ok([first, ended, taken, shard.is_drained()])
}

#[test]
fn drained_where_callers_are_done_and_nothing_is_held(rt: HostRuntime) -> Result<(), Fail> {
    // Caller 1 claims nothing, and caller 2 isn't done.
    let rows = [
        (1, false, [false, true, true, false]),
        (1, true, [false, false, true, false]),
        (2, false, [false, true, true, false]),
        (2, true, [false, false, true, false]),
        (3, false, [false, false, false, false]),
        (3, true, [false, false, false, false]),
    ];
    for (callers, some, want) in rows {
        assert_eq!(rt;
            drained(rt.alloc(), callers, some)?,
            want,
            "{callers}, {some}"
        );
    }
    Ok(())
}

/// Whether the tale has no entry, the floor is unknown, and nothing is held.
fn is_new(shard: &Shard<MemRack, LabSuite>) -> bool {
    shard.tale().is_empty() && shard.floor() == 0 && shard.next_due(u64::MAX).is_none()
}

#[test]
fn a_crash_begins_the_tale_anew(rt: HostRuntime) -> Result<(), Fail> {
    let alloc = rt.alloc();
    let mut rig = Rig::new(alloc, 100)?;
    assert_eq!(rt; rig.rotate(alloc, 1, 12_120_000), Ok(()));
    assert_eq!(rt; offered(alloc, &mut rig, 1, 10, 12_120_000)?, Ok(()));
    rig.crash(0);
    assert!(rt; is_new(&rig.shard));
    assert_eq!(rt;
        offered(alloc, &mut rig, 2, 10, 12_120_000)?,
        Err(Denied::Spent)
    );
    let wanted = [
        Entry::Reopened {
            caller: 0,
            floor: 10,
            spent: 1,
        },
        claim(2, 10, TENTH_TAG, 12_120_000, Answer::Spent),
    ];
    assert_eq!(rt; rig.shard.tale(), wanted.as_slice());
    Ok(())
}
