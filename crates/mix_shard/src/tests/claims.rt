// Claims and rotations: the order of refusals, what a full store takes, epochs that were retired, and a rack of another
// shape.
use super::packets::{packet, to_recipient, to_recipient_after};
use super::setting::Rig;
use crate::{Answer, Denied, Entry, RotateFault};
use due_queue::Dest;
use mix_base::Shape;
use replay_disk::MemRack;
use spent_store::{Book, OpenStore};
use std::alloc::Global;
use std::test::Fail;

/// The packet with the seed that is 32 times a byte for an epoch arrives at a moment and is claimed.
fn offered(
    alloc: Global,
    rig: &mut Rig,
    seed: u8,
    epoch: u64,
    at: u32,
) -> Result<Result<(), Denied>, Fail> {
    let packet = packet(alloc, &[seed; 32], epoch, &to_recipient())?;
    rig.offer(alloc, 1, at, packet)
}

#[test]
fn a_shard_of_two_records_is_full(rt: HostRuntime) -> Result<(), Fail> {
    let alloc = rt.alloc();
    let mut rig = Rig::new(alloc, 2)?;
    let rows = [
        (1, 0, 1000, Ok(())),
        (2, 0, 1000, Ok(())),
        (3, 0, 1000, Err(Denied::ShardFull)),
        (1, 0, 1000, Err(Denied::Spent)),
        (4, 10, 12_120_000, Err(Denied::ShardFull)),
    ];
    for (seed, epoch, at, answer) in rows {
        assert_eq!(rt;
            offered(alloc, &mut rig, seed, epoch, at)?,
            answer,
            "{seed}"
        );
    }
    assert_eq!(rt;
        rig.rotate(alloc, 0, 12_120_000),
        Err(RotateFault::RootFull)
    );
    let book = Book {
        floor: 0,
        spent: 2,
        root: 2,
    };
    assert_eq!(rt; rig.ready(alloc, 0)?, book);
    Ok(())
}

#[test]
fn an_epoch_below_the_floor_is_retired(rt: HostRuntime) -> Result<(), Fail> {
    let alloc = rt.alloc();
    // Which packet is live is judged at its receipt, and whether it is retired at its claim.
    let rows = [
        (12_120_000, 9, 12_119_999, 10),
        (24_000_000, 10, 12_050_000, 19),
    ];
    for (moment, epoch, at, floor) in rows {
        let mut rig = Rig::new(alloc, 100)?;
        assert_eq!(rt; rig.rotate(alloc, 0, moment), Ok(()));
        assert_eq!(rt; rig.shard.floor(), floor);
        let answer = offered(alloc, &mut rig, 1, epoch, at)?;
        assert_eq!(rt; answer, Err(Denied::Retired { floor }));
        assert!(rt; rig.take(0, &Dest::Local, u64::MAX).is_none());
    }
    Ok(())
}

#[test]
fn a_claim_raises_the_floor_to_the_least_epoch_at_its_receipt(rt: HostRuntime) -> Result<(), Fail> {
    let alloc = rt.alloc();
    // The epoch, the delay, the moment of receipt, and the floor after the claim.
    let rows = [
        (0, 10_800_000, 1000, 0),
        (10, 0, 12_119_999, 9),
        (10, 10_800_000, 12_119_999, 9),
        (10, 0, 12_120_000, 10),
        (11, 0, 13_080_000, 10),
    ];
    for (epoch, delay, at, floor) in rows {
        let mut rig = Rig::new(alloc, 100)?;
        let packet = packet(alloc, &[1; 32], epoch, &to_recipient_after(delay))?;
        assert_eq!(rt; rig.offer(alloc, 1, at, packet)?, Ok(()));
        assert_eq!(rt; rig.shard.floor(), floor, "{epoch}, {delay}, {at}");
    }
    Ok(())
}

#[test]
fn the_tag_counts_and_not_the_packet(rt: HostRuntime) -> Result<(), Fail> {
    let alloc = rt.alloc();
    let mut rig = Rig::new(alloc, 100)?;
    assert_eq!(rt; offered(alloc, &mut rig, 1, 0, 1000)?, Ok(()));
    let other = packet(alloc, &[1; 32], 0, &to_recipient_after(5))?;
    assert_eq!(rt; rig.offer(alloc, 2, 1001, other)?, Err(Denied::Spent));
    assert_eq!(rt; offered(alloc, &mut rig, 1, 1, 1_200_000)?, Ok(()));
    Ok(())
}

// The calls of a claim of an epoch that has begun: the record is written, the disk is synced, the gate is opened, the
// disk is synced. Where the last failed, the record is there.
#[test]
fn after_a_failure_the_journal_is_opened_again(rt: HostRuntime) -> Result<(), Fail> {
    let alloc = rt.alloc();
    let rows = [
        (1, Ok(())),
        (2, Ok(())),
        (3, Ok(())),
        (4, Err(Denied::Spent)),
    ];
    for (call, answer) in rows {
        let mut rig = Rig::new(alloc, 100)?;
        assert_eq!(rt; offered(alloc, &mut rig, 1, 0, 1000)?, Ok(()));
        rig.fail_at(alloc, call)?;
        assert_eq!(rt; offered(alloc, &mut rig, 2, 0, 1000)?, Err(Denied::Disk));
        assert_eq!(rt; offered(alloc, &mut rig, 2, 0, 1000)?, answer, "{call}");
        assert_eq!(rt; offered(alloc, &mut rig, 3, 0, 1000)?, Ok(()));
    }
    Ok(())
}

/// A rack whose root was made for the first of four shards.
fn of_four_shards(alloc: Global) -> Result<MemRack, Fail> {
    let root = b"\x01\x01\x00\x00\x00\x00\x00\x00\x04\x00\x00".to_vec(alloc)?;
    Ok(MemRack::holding(alloc, root, Vec::new(alloc), Vec::new(alloc)))
}

/// The answer of an entry that has one.
fn answer_of(entry: &Entry) -> Option<Answer> {
    match entry {
        Entry::Claim { answer, .. } | Entry::Rotate { answer, .. } => Some(*answer),
        _ => None,
    }
}

#[test]
fn a_rack_of_another_shape_is_refused(rt: HostRuntime) -> Result<(), Fail> {
    let alloc = rt.alloc();
    let mut rig = Rig::over(alloc, of_four_shards(alloc)?, 100, 2)?;
    let stored = Shape {
        shards: 4,
        index: 0,
    };
    let why = OpenStore::OtherShape { stored };
    assert_eq!(rt; rig.ready(alloc, 0), Err(why));
    assert_eq!(rt;
        offered(alloc, &mut rig, 1, 0, 1000)?,
        Err(Denied::Journal(why))
    );
    assert_eq!(rt;
        rig.rotate(alloc, 0, 12_120_000),
        Err(RotateFault::Journal(why))
    );
    assert_eq!(rt; rig.shard.tale().len(), 2);
    for entry in rig.shard.tale() {
        assert_eq!(rt; answer_of(entry), Some(Answer::Journal));
    }
    Ok(())
}
