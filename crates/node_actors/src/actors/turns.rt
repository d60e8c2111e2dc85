// One turn of a caller at one shard: the shard is taken from its lock, one thing is done to it, and it is given back.
ghost use Rattle.std.specs.Prelude.{◌≡◌, ◌%◌, ◌<◌, ◌^◌, false, [], Contains, IfSome, IfNone, IsTrue};
ghost use Rattle.mix_shard.specs.Faults.{admit_answer};
ghost use Rattle.mix_shard.specs.Items.{IsHeld, destination};
ghost use Rattle.mix_shard.specs.Shards.{Adds, IsClaimEntry, IsEntry};
ghost use Rattle.mix_shard.specs.declared.entries.Entry.TheVariants as entry;
ghost use Rattle.turn_lock.specs.Seen.{IsIdle};
ghost use Rattle.turn_lock.specs.Stories.{Begins, after};
ghost use Rattle.node_actors.specs.Calls.{HoldsNothing, IsSpent, has_ended, terms_in};
ghost use Rattle.node_actors.specs.Found.{IfFound, IsNoPacket, IsTakenBy, IsUnlinked};
ghost use Rattle.node_actors.specs.Takings.{WasAccepted};
ghost use Rattle.node_actors.specs.Turns.{IsRotatedAt, TakesTurn};

use due_queue::Dest;
use mix_base::Suite;
use mix_shard::{Denied, Held, RotateFault, Shard};
use replay_disk::Rack;
use std::alloc::Global;
use std::sync::Wait;
use turn_lock::{Pass, TurnLock};

/// The lock of a shard, and a caller's pass to it.
pub type ShardLock<R, S> = TurnLock<Shard<R, S>>;

pub type ShardPass<R, S> = Pass<Shard<R, S>>;

/// Claims the packet's tag. Asks a caller of an even number that hasn't ended.
pub(crate) fn claim<H: Wait, R: Rack, S: Suite>(
    rt: &H,
    alloc: Global,
    lock: &ShardLock<R, S>,
    pass: &mut ShardPass<R, S>,
    caller: u32,
    held: Held<S>,
) -> Result<(), Denied>
    requires idle { IsIdle lock.now caller pass.old }
    requires caller { caller < (terms_in lock.now.origin).callers }
    requires even { caller % 2 ≡ 0 }
    requires open { has_ended caller pass.old.seen ≡ false }
    requires setup { held.setup ≡ (terms_in lock.now.origin).setup }
    ensures { TakesTurn lock.now caller
        (IsClaimEntry caller held (admit_answer result)) pass.old pass.new }
{
    let mut shard = lock.take(rt, pass);
    let _tale = shard.tale();
    let answer = shard.admit(alloc, caller, held);
    lock.give(pass, shard);
    answer
}

/// The caller claims no more. Asks a caller that hasn't ended.
pub(crate) fn end<H: Wait, R: Rack, S: Suite>(
    rt: &H,
    lock: &ShardLock<R, S>,
    pass: &mut ShardPass<R, S>,
    caller: u32,
)
    requires idle { IsIdle lock.now caller pass.old }
    requires caller { caller < (terms_in lock.now.origin).callers }
    requires open { has_ended caller pass.old.seen ≡ false }
    ensures { TakesTurn lock.now caller (IsEntry (entry.Done caller)) pass.old pass.new }
{
    let mut shard = lock.take(rt, pass);
    let _tale = shard.tale();
    shard.done(caller);
    lock.give(pass, shard);
}

/// What there is at a shard for a destination.
#[derive(Drop)]
pub(crate) enum Found<P> {
    /// A packet that was due; it was taken out.
    Packet(P),
    /// Packets that are not due yet, or for elsewhere.
    Waiting,
    /// Nothing is held, and callers that may claim haven't ended.
    Empty,
    /// Nothing is held, and nothing will be.
    Drained,
}

/// Takes the first packet out that is due at the moment for the destination, or says what is left.
pub(crate) fn take_out<H: Wait, R: Rack, S: Suite>(
    rt: &H,
    lock: &ShardLock<R, S>,
    pass: &mut ShardPass<R, S>,
    caller: u32,
    dest: &Dest,
    moment: u64,
) -> Found<Held<S>>
    requires idle { IsIdle lock.now caller pass.old }
    requires caller { caller < (terms_in lock.now.origin).callers }
    requires saw { Begins lock.now.story pass.old.seen }
    requires nothing_held { HoldsNothing lock.now.story }
    ensures turn { TakesTurn lock.now caller
        (IsTakenBy caller moment result) pass.old pass.new }
    ensures dest { IfFound result (λ item. destination item.out ≡ dest.now) }
    ensures held { IfFound result (IsHeld S.meaning) }
    // It was accepted since the lock was made.
    ensures accepted { IfFound result (WasAccepted (after lock.now.story pass.new.seen)) }
    ensures setup { IfFound result
        (λ item. item.setup ≡ (terms_in lock.now.origin).setup) }
{
    let mut shard = lock.take(rt, pass);
    let _tale = shard.tale();
    let found = find(&mut shard, caller, dest, moment);
    lock.give(pass, shard);
    found
}

/// Takes the first packet out that is due at the moment for the destination, or says what is left.
fn find<R: Rack, S: Suite>(
    shard: &mut Shard<R, S>,
    caller: u32,
    dest: &Dest,
    moment: u64,
) -> Found<Held<S>>
    requires { caller < shard.old.terms.callers }
    ensures adds { Adds R.tells S.meaning caller
        (IsTakenBy caller moment result) shard.old shard.new }
    ensures rack { shard.new.rack ≡ shard.old.rack }
    ensures dest { IfFound result (λ item. destination item.out ≡ dest.now) }
    ensures held { IfFound result (IsHeld S.meaning) }
    ensures was_held { IfFound result (Contains shard.old.state.held) }
{
    match shard.take_due(caller, dest, moment) {
        Some(held) => {
            let _number = held.number();
            Found::Packet(held)
        }
        None => what_is_left(shard),
    }
}

/// Takes the first packet out that is due at the moment for a recipient of this node, or else the first that is due, where
/// it goes to a hop that none of these links leads to; or says what is left.
pub(crate) fn take_out_local<H: Wait, R: Rack, S: Suite>(
    rt: &H,
    lock: &ShardLock<R, S>,
    pass: &mut ShardPass<R, S>,
    caller: u32,
    hops: &[[u8; 32]],
    moment: u64,
) -> Found<Held<S>>
    requires idle { IsIdle lock.now caller pass.old }
    requires caller { caller < (terms_in lock.now.origin).callers }
    requires saw { Begins lock.now.story pass.old.seen }
    requires nothing_held { HoldsNothing lock.now.story }
    ensures turn { TakesTurn lock.now caller (IsTakenBy caller moment result) pass.old pass.new }
    ensures dest { IfFound result (λ item. IsUnlinked hops.now (destination item.out)) }
    ensures held { IfFound result (IsHeld S.meaning) }
    // It was accepted since the lock was made.
    ensures accepted { IfFound result (WasAccepted (after lock.now.story pass.new.seen)) }
    ensures setup { IfFound result
        (λ item. item.setup ≡ (terms_in lock.now.origin).setup) }
{
    let mut shard = lock.take(rt, pass);
    let _tale = shard.tale();
    let found = find_local(&mut shard, caller, hops, moment);
    lock.give(pass, shard);
    found
}

/// Takes the first packet out that is due at the moment for a recipient of this node, or else the first that is due, where
/// it goes to a hop that none of these links leads to; or says what is left.
fn find_local<R: Rack, S: Suite>(
    shard: &mut Shard<R, S>,
    caller: u32,
    hops: &[[u8; 32]],
    moment: u64,
) -> Found<Held<S>>
    requires { caller < shard.old.terms.callers }
    ensures adds { Adds R.tells S.meaning caller
        (IsTakenBy caller moment result) shard.old shard.new }
    ensures rack { shard.new.rack ≡ shard.old.rack }
    ensures dest { IfFound result (λ item. IsUnlinked hops.now (destination item.out)) }
    ensures held { IfFound result (IsHeld S.meaning) }
    ensures was_held { IfFound result (Contains shard.old.state.held) }
{
    let dest = match shard.next_due(moment) {
        Some(next) if is_unlinked(&next.dest, hops) => next.dest,
        _ => Dest::Local,
    };
    find(shard, caller, &dest, moment)
}

/// Whether a packet for this destination goes over none of the links to these hops.
fn is_unlinked(dest: &Dest, hops: &[[u8; 32]]) -> bool
    ensures { IsTrue result → IsUnlinked hops.now dest.now }
{
    match dest {
        Dest::Local => true,
        Dest::Hop(id) => !hops.contains(id),
    }
}

/// What is held at a shard where nothing was found.
fn what_is_left<R: Rack, S: Suite>(shard: &Shard<R, S>) -> Found<Held<S>>
    ensures { IsNoPacket result }
{
    if shard.is_drained() {
        return Found::Drained;
    }
    if shard.next_due(u64::MAX).is_some() {
        return Found::Waiting;
    }
    Found::Empty
}

/// What the rotator found at a shard: the greatest least live epoch that it has tried there, and whether the shard is
/// drained.
#[derive(Drop)]
pub(crate) struct Rotation {
    pub(crate) tried: u64,
    pub(crate) drained: bool,
}

/// Retires the epochs below the least that is live at the moment, where these aren't retired yet and that wasn't tried
/// before. Then says whether the shard is drained. A try for which memory was wanting doesn't count.
pub(crate) fn rotate<H: Wait, R: Rack, S: Suite>(
    rt: &H,
    alloc: Global,
    lock: &ShardLock<R, S>,
    pass: &mut ShardPass<R, S>,
    caller: u32,
    moment: u64,
    least: u64,
    tried: u64,
) -> Rotation
    requires idle { IsIdle lock.now caller pass.old }
    requires caller { caller < (terms_in lock.now.origin).callers }
    requires moment { moment < 2 ^ 60 }
    ensures turn { TakesTurn lock.now caller (IsRotatedAt caller moment) pass.old pass.new }
    ensures drained { IsTrue result.drained →
        IsSpent (terms_in lock.now.origin).callers pass.new.seen }
{
    let mut shard = lock.take(rt, pass);
    let tried = rotate_once(&mut shard, alloc, caller, moment, least, tried);
    let _tale = shard.tale();
    let drained = shard.is_drained();
    lock.give(pass, shard);
    Rotation { tried, drained }
}

/// Retires epochs, where that wasn't done or tried before, and says what was tried.
fn rotate_once<R: Rack, S: Suite>(
    shard: &mut Shard<R, S>,
    alloc: Global,
    caller: u32,
    moment: u64,
    least: u64,
    tried: u64,
) -> u64
    requires caller { caller < shard.old.terms.callers }
    requires moment { moment < 2 ^ 60 }
    ensures adds { Adds R.tells S.meaning caller (IsRotatedAt caller moment) shard.old shard.new }
    ensures arms { shard.new.rack.arms ≡ shard.old.rack.arms }
    ensures crashes { shard.new.rack.crashes ≡ shard.old.rack.crashes }
{
    if least <= shard.floor() || least <= tried {
        return tried;
    }
    match shard.rotate(alloc, caller, moment) {
        Err(RotateFault::Memory) => tried,
        _ => least,
    }
}
