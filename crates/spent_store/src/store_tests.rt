// Stores over the rack in memory, through the bounds that code above uses them by: the bytes that claims leave, what is
// refused, and what is there after a crash at each call of a claim.
ghost use Rattle.std.specs.Prelude.{◌≡◌, ◌+◌, ◌<◌, ◌≤◌, ◌^◌, IsTrue};
ghost use Rattle.spent_store.specs.Stores.{Stands};
ghost use Rattle.mix_base.specs.Shards.{IsShape};

use crate::{Book, ClaimFault, OpenStore, RetireFault, SpentStore, look};
use mix_base::{Memory, Shape};
use replay_disk::{CrashRack, MemRack, Rack};
use std::alloc::Global;
use std::test::Fail;

const ONE: Shape = Shape {
    shards: 1,
    index: 0,
};

/// No call of a claim has this number.
const NEVER: u64 = 1000;

/// Opens a store of one shard and claims the tag that is 32 times a byte, on a rack that is armed at a call of the
/// claim; None where the store isn't opened.
fn claim<R: CrashRack>(
    alloc: Global,
    rack: &mut R,
    limit: u64,
    calls: u64,
    epoch: u64,
    tag: u8,
    least: u64,
) -> Result<Option<Result<(), ClaimFault>>, Memory>
    requires some { 2 ≤ limit }
    requires limit { limit ≤ 2 ^ 26 }
    requires calls { 0 < calls }
    requires low { least ≤ epoch }
    requires high { epoch ≤ least + 1 }
{
    match SpentStore::open(alloc, rack, &ONE, limit) {
        Ok(store) => {
            let mut store = store;
            store.reserve(alloc)?;
            rack.room(57)?;
            rack.arm(calls);
            Ok(Some(store.claim(rack, epoch, &[tag; 32], least)))
        }
        Err(_) => Ok(None),
    }
}

/// Opens a store of one shard and raises its floor.
fn retire<R: CrashRack>(
    alloc: Global,
    rack: &mut R,
    limit: u64,
    calls: u64,
    floor: u64,
) -> Result<Option<Result<(), RetireFault>>, Memory>
    requires some { 2 ≤ limit }
    requires limit { limit ≤ 2 ^ 26 }
    requires calls { 0 < calls }
{
    match SpentStore::open(alloc, rack, &ONE, limit) {
        Ok(store) => {
            let mut store = store;
            rack.room(11)?;
            rack.arm(calls);
            Ok(Some(store.retire(rack, floor)))
        }
        Err(_) => Ok(None),
    }
}

/// Two claims and a retirement of one store that isn't opened in between, and its book.
fn session<R: Rack>(alloc: Global, rack: &mut R) -> Result<Option<Book>, Memory> {
    match SpentStore::open(alloc, rack, &ONE, 100) {
        Ok(store) => {
            let mut store = store;
            store.reserve(alloc)?;
            rack.room(57)?;
            match store.claim(rack, 3, &[7; 32], 2) {
                Ok(()) => go_on(alloc, rack, &mut store),
                Err(_) => Ok(None),
            }
        }
        Err(_) => Ok(None),
    }
}

/// Another claim and a retirement.
fn go_on<R: Rack>(
    alloc: Global,
    rack: &mut R,
    store: &mut SpentStore,
) -> Result<Option<Book>, Memory>
    requires sound { IsTrue store.old.is_sound }
    requires stands { R.tells → Stands store.old (R.state rack.old).areas }
{
    store.reserve(alloc)?;
    rack.room(57)?;
    match store.claim(rack, 3, &[8; 32], 3) {
        Ok(()) => end(rack, store),
        Err(_) => Ok(None),
    }
}

fn end<R: Rack>(rack: &mut R, store: &mut SpentStore) -> Result<Option<Book>, Memory>
    requires sound { IsTrue store.old.is_sound }
    requires stands { R.tells → Stands store.old (R.state rack.old).areas }
{
    rack.room(11)?;
    match store.retire(rack, 3) {
        Ok(()) => Ok(Some(store.book())),
        Err(_) => Ok(None),
    }
}

/// The floor, and whether the tags that are 32 times 10, 11 and 12 are spent in the epochs 0, 1 and 2; and whether the
/// first of them is spent in epoch 2, whose log takes the area of epoch 0 again.
#[derive(Clone, Copy)]
struct Holding {
    floor: u64,
    first: bool,
    second: bool,
    third: bool,
    stale: bool,
}

fn found<R: Rack>(alloc: Global, rack: &mut R) -> Result<Holding, OpenStore> {
    let store = SpentStore::open(alloc, rack, &ONE, 100)?;
    Ok(Holding {
        floor: store.floor(),
        first: store.holds(0, &[10; 32]),
        second: store.holds(1, &[11; 32]),
        third: store.holds(2, &[12; 32]),
        stale: store.holds(2, &[10; 32]),
    })
}

fn opens<R: Rack>(alloc: Global, rack: &mut R, shape: &Shape) -> Result<(), OpenStore>
    requires shape { IsShape shape.now }
{
    let store = SpentStore::open(alloc, rack, shape, 100)?;
    if store.is_sound() {
        Ok(())
    } else {
        Err(OpenStore::Failed)
    }
}

// The calls above at the rack in memory, once each.

fn claimed(
    alloc: Global,
    rack: &mut MemRack,
    limit: u16,
    calls: u64,
    row: (u64, u8, u64),
) -> Result<Option<Result<(), ClaimFault>>, Memory> {
    let (epoch, tag, least) = row;
    if limit < 2 || calls == 0 || epoch < least || epoch - least > 1 {
        return Ok(None);
    }
    claim(alloc, rack, u64::from(limit), calls, epoch, tag, least)
}

fn retired(
    alloc: Global,
    rack: &mut MemRack,
    limit: u16,
    calls: u64,
    floor: u64,
) -> Result<Option<Result<(), RetireFault>>, Memory> {
    if limit < 2 || calls == 0 {
        return Ok(None);
    }
    retire(alloc, rack, u64::from(limit), calls, floor)
}

fn held(alloc: Global, rack: &mut MemRack) -> Result<Holding, OpenStore> {
    found(alloc, rack)
}

fn opened(alloc: Global, rack: &mut MemRack, shape: &Shape) -> Result<(), OpenStore>
    requires shape { IsShape shape.now }
{
    opens(alloc, rack, shape)
}

fn held_session(alloc: Global, rack: &mut MemRack) -> Result<Option<Book>, Memory> {
    session(alloc, rack)
}

/// An area of one tag, 32 times a byte.
fn log_of(alloc: Global, tag: u8) -> Result<Vec<u8>, Memory> {
    let mut bytes = Vec::new(alloc);
    bytes.push(1)?;
    bytes.extend_from_slice(&[tag; 32])?;
    bytes.push(0)?;
    Ok(bytes)
}

const MADE: &[u8] = b"\x01\x01\x00\x00\x00\x00\x00\x00\x01\x00\x00";

const ROOT_OF_FIVE: &[u8] =
    b"\x01\x01\x00\x00\x00\x00\x00\x00\x01\x00\x01\x03\x00\x00\x00\x00\x00\x00\x00\x05\x01\x02\x00\x00\x00\x00\x00\x00\x00\x05\x00";

const ROOT_OF_ONE: &[u8] =
    b"\x01\x01\x00\x00\x00\x00\x00\x00\x01\x00\x01\x02\x00\x00\x00\x00\x00\x00\x00\x01\x00";

/// Whether a claim on a fresh store, armed at a call, is done, and leaves these bytes in the root and the tag in area 2.
fn leaves(alloc: Global, calls: u64, row: (u64, u8, u64), root: &[u8]) -> Result<bool, Memory> {
    let mut rack = MemRack::new(alloc);
    let answer = claimed(alloc, &mut rack, 100, calls, row)?;
    let log = log_of(alloc, row.1)?;
    Ok(answer == Some(Ok(())) && rack.bytes(0) == root && rack.bytes(2) == log.as_slice())
}

#[test]
fn a_claim_with_a_new_floor_makes_14_calls(rt: HostRuntime) -> Result<(), Fail> {
    let alloc = rt.alloc();
    assert!(rt; leaves(alloc, 15, (5, 10, 5), ROOT_OF_FIVE)?);
    assert!(rt; !leaves(alloc, 14, (5, 10, 5), ROOT_OF_FIVE)?);
    assert!(rt; leaves(alloc, NEVER, (1, 84, 0), ROOT_OF_ONE)?);
    Ok(())
}

#[test]
fn an_epoch_below_the_floor_is_retired(rt: HostRuntime) -> Result<(), Fail> {
    let alloc = rt.alloc();
    let mut rack = MemRack::new(alloc);
    let _ = claimed(alloc, &mut rack, 100, NEVER, (5, 10, 5))?;
    let below = claimed(alloc, &mut rack, 100, NEVER, (4, 11, 4))?;
    assert_eq!(rt; below, Some(Err(ClaimFault::Retired { floor: 5 })));
    Ok(())
}

/// Whether a claim of a store with logs of at most two records is answered so.
fn answers(
    alloc: Global,
    rack: &mut MemRack,
    row: (u64, u8, u64),
    answer: Result<(), ClaimFault>,
) -> Result<bool, Memory> {
    Ok(claimed(alloc, rack, 2, NEVER, row)? == Some(answer))
}

/// Whether these claims are answered so, one after the other.
fn answers_in_turn(alloc: Global, rack: &mut MemRack) -> Result<bool, Memory> {
    let rows = [
        ((0, 10, 0), Ok(())),
        ((0, 11, 0), Ok(())),
        ((0, 12, 0), Err(ClaimFault::ShardFull)),
        ((0, 10, 0), Err(ClaimFault::Spent)),
        ((2, 13, 2), Err(ClaimFault::ShardFull)),
    ];
    for (row, answer) in rows {
        if !answers(alloc, rack, row, answer)? {
            return Ok(false);
        }
    }
    Ok(true)
}

/// Whether the root has no room for another floor.
fn has_full_root(alloc: Global, rack: &mut MemRack) -> Result<bool, Memory> {
    Ok(retired(alloc, rack, 2, NEVER, 1)? == Some(Err(RetireFault::RootFull)))
}

/// Whether a store of two records takes two tags and nothing more.
fn takes_two(alloc: Global, rack: &mut MemRack) -> Result<bool, Memory> {
    Ok(answers_in_turn(alloc, rack)? && has_full_root(alloc, rack)?)
}

#[test]
fn a_store_of_two_records_is_full(rt: HostRuntime) -> Result<(), Fail> {
    let alloc = rt.alloc();
    let mut rack = MemRack::new(alloc);
    let book = Book {
        floor: 0,
        spent: 2,
        root: 2,
    };
    assert!(rt; takes_two(alloc, &mut rack)?);
    assert_eq!(rt; look(alloc, &mut rack, &ONE, 2)?, book);
    Ok(())
}

#[test]
fn one_store_goes_on(rt: HostRuntime) -> Result<(), Fail> {
    let alloc = rt.alloc();
    let mut rack = MemRack::new(alloc);
    let book = Book {
        floor: 3,
        spent: 2,
        root: 4,
    };
    assert_eq!(rt; held_session(alloc, &mut rack)?, Some(book));
    assert_eq!(rt; look(alloc, &mut rack, &ONE, 100)?, book);
    Ok(())
}

/// Epochs 0 and 1 have a tag each.
fn two_epochs(alloc: Global) -> Result<MemRack, Memory> {
    let mut rack = MemRack::new(alloc);
    let _ = claimed(alloc, &mut rack, 100, NEVER, (0, 10, 0))?;
    let _ = claimed(alloc, &mut rack, 100, NEVER, (1, 11, 0))?;
    rack.crash(0);
    Ok(rack)
}

/// Whether a claim of epoch 2, which raises the floor to 1 and takes the area of epoch 0 again, keeps each accepted
/// pair and spends no other, where it is armed at a call and the rack is crashed then. From call 15 on it is done.
fn keeps_pairs(alloc: Global, calls: u64, pick: u64) -> Result<bool, OpenStore> {
    let mut rack = two_epochs(alloc)?;
    let answer = claimed(alloc, &mut rack, 100, calls, (2, 12, 1))?;
    let done = answer == Some(Ok(()));
    rack.crash(pick);
    let held = held(alloc, &mut rack)?;
    let covers_first = held.first || held.floor == 1;
    let claimed_only = done == (calls > 14) && held.floor <= 1 && !held.stale;
    Ok(claimed_only && covers_first && held.second && (held.third || !done))
}

#[test]
fn no_accepted_pair_is_lost_at_any_call(rt: HostRuntime) -> Result<(), Fail> {
    for calls in 1..16 {
        for pick in 0..3 {
            let kept = keeps_pairs(rt.alloc(), calls, pick)?;
            assert!(rt; kept, "call {calls}, pick {pick}");
        }
    }
    Ok(())
}

/// Whether opening a store over this root gives this answer, and leaves the root so.
fn opening(
    alloc: Global,
    root: &[u8],
    shape: &Shape,
    answer: Result<(), OpenStore>,
    after: &[u8],
) -> Result<bool, Memory>
    requires shape { IsShape shape.now }
{
    let root = root.to_vec(alloc)?;
    let mut rack = MemRack::holding(alloc, root, Vec::new(alloc), Vec::new(alloc));
    Ok(opened(alloc, &mut rack, shape) == answer && rack.bytes(0) == after)
}

#[test]
fn opening_makes_a_root_or_leaves_it(rt: HostRuntime) -> Result<(), Fail> {
    let alloc = rt.alloc();
    assert!(rt; opening(alloc, b"", &ONE, Ok(()), MADE)?);
    assert!(rt;
        opening(
            alloc,
            b"\x01\x02\x03\x04\x05\x06\x07\x08\x09\x0a",
            &ONE,
            Ok(()),
            MADE
        )?
    );
    assert!(rt; opening(alloc, &[0; 11], &ONE, Ok(()), MADE)?);
    let foreign = OpenStore::Foreign { area: 0, at: 0 };
    assert!(rt; opening(alloc, &[0; 12], &ONE, Err(foreign), &[0; 12])?);
    let two = Shape {
        shards: 2,
        index: 1,
    };
    let other = OpenStore::OtherShape { stored: ONE };
    assert!(rt; opening(alloc, MADE, &two, Err(other), MADE)?);
    Ok(())
}
