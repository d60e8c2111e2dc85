// A node's shards are put behind locks, and each caller gets a pass to each of them.
ghost use Rattle.std.specs.Prelude.{◌≡◌, ◌+◌, ◌^◌, ◌<◌, ◌≤◌, ◌++◌, [], length, map, reverse, All, IfOk, IfErr, vec_len, vec_capacity};
ghost use Rattle.node_run.specs.Openings.{AreDealt, AreEmptyHands, AreFreshHands, HasAllPasses, IsMade, IsQuiet, IsUnused, tale_behind, tale_of};

use mix_base::{Memory, Suite};
use mix_shard::Shard;
use node_actors::{ShardLock, ShardPass, nobody_ended};
use replay_disk::Rack;
use std::alloc::Global;
use turn_lock::{MadeLock, TurnLock};

/// The locks of a node's shards, in their order, and each caller's passes, one to each lock.
#[derive(Drop)]
pub(crate) struct Locked<R: Rack, S: Suite> {
    pub(crate) locks: Vec<ShardLock<R, S>>,
    pub(crate) hands: Vec<Vec<ShardPass<R, S>>>,
}

/// Puts each shard behind a lock for so many callers. Where memory is wanting the shards come back with the same tales.
pub(crate) fn lock_shards<R: Rack, S: Suite>(
    alloc: Global,
    shards: Vec<Shard<R, S>>,
    callers: u32,
) -> Result<Locked<R, S>, Vec<Shard<R, S>>>
    requires some { 0 < callers }
    requires unused { All (IsUnused callers) shards.items }
    ensures tales { IfOk result (λ locked.
        map tale_behind locked.locks.items ≡ map tale_of shards.items) }
    ensures quiet { IfOk result (λ locked. All (IsQuiet callers) locked.locks.items) }
    ensures hands { IfOk result (λ locked.
        AreFreshHands locked.locks.items callers locked.hands.items) }
    ensures back { IfErr result (λ back. map tale_of back.items ≡ map tale_of shards.items) }
{
    let Ok(room) = Vec::with_capacity(alloc, shards.len()) else {
        return Err(shards);
    };
    let Ok(locks) = Vec::with_capacity(alloc, shards.len()) else {
        return Err(shards);
    };
    let Ok(hands) = empty_hands(alloc, callers, shards.len()) else {
        return Err(shards);
    };
    let made = lock_all(alloc, shards, callers, room)?;
    Ok(deal_all(made, locks, hands))
}

/// A hand for each of so many callers, with room for so many passes.
fn empty_hands<T: Drop>(alloc: Global, callers: u32, room: usize) -> Result<Vec<Vec<T>>, Memory>
    ensures { IfOk result (λ hands. AreEmptyHands callers room hands.items) }
{
    let mut hands = Vec::new(alloc);
    'making: for _ in 0..callers {
        let hand = Vec::with_capacity(alloc, room)?;
        hands.push(hand)?;
    }
    Ok(hands)
}

/// A lock over each shard, in their order; or the shards again, in their order. `made` has room for all.
fn lock_all<R: Rack, S: Suite>(
    alloc: Global,
    mut shards: Vec<Shard<R, S>>,
    callers: u32,
    mut made: Vec<MadeLock<Shard<R, S>>>,
) -> Result<Vec<MadeLock<Shard<R, S>>>, Vec<Shard<R, S>>>
    requires some { 0 < callers }
    requires unused { All (IsUnused callers) shards.items }
    requires none { made.items ≡ [] }
    requires room { vec_len shards ≤ vec_capacity made }
    ensures tales { IfOk result (λ made.
        map (λ one. tale_behind one.lock) made.items ≡ map tale_of shards.items) }
    ensures made { IfOk result (λ made. All (IsMade callers) made.items) }
    ensures back { IfErr result (λ back. map tale_of back.items ≡ map tale_of shards.items) }
{
    shards.reverse();
    while let Some(shard) = shards.pop() {
        match lock(alloc, shard, callers) {
            Ok(one) => made.push_reserved(one),
            Err(shard) => {
                shards.push_reserved(shard);
                return Err(unlock_all(made, shards));
            }
        }
    }
    Ok(made)
}

/// A lock over the shard, or the shard again.
fn lock<R: Rack, S: Suite>(
    alloc: Global,
    shard: Shard<R, S>,
    callers: u32,
) -> Result<MadeLock<Shard<R, S>>, Shard<R, S>>
    requires some { 0 < callers }
    requires unused { IsUnused callers shard }
    ensures tale { IfOk result (λ one. tale_behind one.lock ≡ tale_of shard) }
    ensures made { IfOk result (IsMade callers) }
    ensures back { IfErr result (λ back. back ≡ shard) }
{
    nobody_ended(&shard);
    match TurnLock::new(alloc, shard, callers) {
        Ok(one) => Ok(one),
        Err((shard, Memory)) => Err(shard),
    }
}

/// The shards of these locks, in their order, and behind them those of `rest`, the last first. `rest` has room for all.
fn unlock_all<R: Rack, S: Suite>(
    mut made: Vec<MadeLock<Shard<R, S>>>,
    mut rest: Vec<Shard<R, S>>,
) -> Vec<Shard<R, S>>
    requires made { All HasAllPasses made.items }
    requires room { vec_len made + vec_len rest ≤ vec_capacity rest }
    ensures { map tale_of result.items ≡
        map (λ one. tale_behind one.lock) made.items ++ map tale_of (reverse rest.items) }
{
    while let Some(one) = made.pop() {
        rest.push_reserved(unlock(one));
    }
    rest.reverse();
    rest
}

/// The shard of a lock that nobody took.
fn unlock<R: Rack, S: Suite>(one: MadeLock<Shard<R, S>>) -> Shard<R, S>
    requires { HasAllPasses one }
    ensures { tale_of result ≡ tale_behind one.lock }
{
    let MadeLock { lock, passes } = one;
    lock.close(passes)
}

/// The locks, and each caller's passes, one to each lock. There is room for all.
fn deal_all<R: Rack, S: Suite>(
    made: Vec<MadeLock<Shard<R, S>>>,
    mut locks: Vec<ShardLock<R, S>>,
    mut hands: Vec<Vec<ShardPass<R, S>>>,
) -> Locked<R, S>
    requires made { All (IsMade (length hands.items)) made.items }
    requires none { locks.items ≡ [] }
    requires room { length made.items ≤ vec_capacity locks }
    requires hands { AreEmptyHands (length hands.items) (length made.items) hands.items }
    ensures locks { result.locks.items ≡ map (λ one. one.lock) made.items }
    ensures hands { AreFreshHands result.locks.items (length hands.items) result.hands.items }
{
    for one in made {
        let MadeLock { lock, passes } = one;
        deal(&mut hands, passes);
        locks.push_reserved(lock);
    }
    Locked { locks, hands }
}

/// Puts each card behind the others of its hand.
fn deal<T: Drop>(hands: &mut Vec<Vec<T>>, cards: Vec<T>)
    requires many { length cards.items ≡ length hands.old.items }
    requires room { All (λ hand. vec_len hand < vec_capacity hand) hands.old.items }
    ensures { AreDealt cards.items hands.old.items hands.new.items }
{
    let mut rest = cards.into_iter();
    for place in 0..hands.len() {
        let Some(card) = rest.next() else {
            unreachable!()
        };
        hands[place].push_reserved(card);
    }
}
