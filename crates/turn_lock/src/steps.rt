// The steps on the lock's table. Word 0 counts the entries of the one story, word 1 is busy while a seat is at
// turn, and the slot has the value. Each step keeps the rule, and tells its seat what it learned.
ghost use Rattle.std.specs.Prelude.{◌≡◌, List, [], ◌∷◌, Some, None, MatchBool};
ghost use Rattle.turn_lock.specs.Seats.{Took, MayTurn, IsSeatOf, IsSameSeat, Brings, IsBack, grown, ended};

use crate::view::View;
use atomic_table::{Join, Play, Seat, Shared, Split, TableRule};
use mix_base::Storied;
use std::hint::spin_loop;
use std::marker::{Brand, PhantomData};
use std::snapshot::Snapshot;
use std::sync::Wait;
use std::sync::atomic::AtomicU64;
use std::sync::atomic::Ordering::SeqCst;

pub(crate) const COUNT: usize = 0;

pub(crate) const BUSY: usize = 1;

// How often a taker looks whether the lock is free before it sleeps.
const LOOKS: u32 = 100;

// What a lock is made with: the value, and for how many callers. It is there for proofs alone.
#[derive(Drop)]
pub(crate) struct Start<T> {
    pub(crate) value: Snapshot<T>,
    pub(crate) callers: u32,
}

// The rule: there is one story.
pub(crate) struct Told;

impl<T: Storied> TableRule<Option<T>, View<T::Entry>, Start<T>> for Told {
    ghost use Rattle.turn_lock.specs.TurnRule.{OneStory};
    ghost use Rattle.turn_lock.specs.Seats.{first_seat};

    ghost holds = { λ key.
        OneStory T.origin T.story T.caller (T.origin key.value.value)
        (T.story key.value.value) key.callers };

    ghost first = { λ key. first_seat 1 (T.origin key.value.value) (T.story key.value.value) };
}

pub(crate) type Steps<T> = Shared<Option<T>, View<<T as Storied>::Entry>, Start<T>, Told>;

pub(crate) type Place<T> = Seat<Option<T>, View<<T as Storied>::Entry>>;

pub(crate) struct Takes;

impl<T: Storied> Play<Option<T>, View<T::Entry>> for Takes {
    ghost use Rattle.turn_lock.specs.Seats.{takes_turn};

    ghost then = { λ _. takes_turn T.origin T.story T.caller };
}

// Which entries a caller adds to the story: each call of `count` picks them. They are there for proofs alone.
pub(crate) trait Added<E> {
    ghost added: { List E };
}

impl<E> Added<E> for Brand {
    ghost added = { [] };
}

pub(crate) struct Counts<J> {
    of: PhantomData<J>,
}

impl<T: Storied, J: Added<T::Entry>> Play<Option<T>, View<T::Entry>> for Counts<J> {
    ghost use Rattle.std.specs.Prelude.{◌≡◌};
    ghost use Rattle.turn_lock.specs.Seats.{grown};

    ghost then = { λ _ m _ n. n ≡ grown J.added m };
}

pub(crate) struct Ends;

impl<T: Storied> Play<Option<T>, View<T::Entry>> for Ends {
    ghost use Rattle.std.specs.Prelude.{◌≡◌};
    ghost use Rattle.turn_lock.specs.Seats.{ended};

    ghost then = { λ _ m _ n. n ≡ ended m };
}

// The first seat gives a caller's number away.
pub(crate) struct Deals;

impl<E> Split<View<E>> for Deals {
    ghost use Rattle.turn_lock.specs.Seats.{dealt, newcomer};

    ghost left = { dealt };

    ghost right = { newcomer };
}

// Joins a seat into the first, which then speaks for the callers of both.
pub(crate) struct Gathers;

impl<E> Join<View<E>> for Gathers {
    ghost use Rattle.turn_lock.specs.Seats.{both, spent};

    ghost both = { both };

    ghost spent = { spent };
}

// Exchanges busy from 0 to 1. True where the seat is at turn now: it has taken the slot.
pub(crate) fn begin<T: Storied>(steps: &Steps<T>, seat: &mut Place<T>) -> bool
    requires table { IsSeatOf steps.now.table_id seat.old }
    requires rests { MayTurn seat.old.me }
    ensures seat { IsSameSeat seat.old seat.new }
    ensures begins { MatchBool result
        ((x : T) × Took T.origin T.story T.caller seat.old.me x seat.new.me)
        (seat.new.me ≡ seat.old.me) }
{
    steps.compare_exchange::<Takes>(seat, BUSY, 0, 1) == 0
}

// Begins a turn where the lock is free, or becomes free soon.
fn begin_soon<T: Storied>(steps: &Steps<T>, seat: &mut Place<T>) -> bool
    requires table { IsSeatOf steps.now.table_id seat.old }
    requires rests { MayTurn seat.old.me }
    ensures seat { IsSameSeat seat.old seat.new }
    ensures begins { MatchBool result
        ((x : T) × Took T.origin T.story T.caller seat.old.me x seat.new.me)
        (seat.new.me ≡ seat.old.me) }
{
    for _ in 0..LOOKS {
        if steps.peek(BUSY) == 0 && begin(steps, seat) {
            return true;
        }
        spin_loop();
    }
    false
}

// Sleeps while the lock is busy, until a turn begins.
fn begin_late<T: Storied, R: Wait>(rt: &R, steps: &Steps<T>, seat: &mut Place<T>)
    requires table { IsSeatOf steps.now.table_id seat.old }
    requires rests { MayTurn seat.old.me }
    ensures seat { IsSameSeat seat.old seat.new }
    ensures begins { (x : T) × Took T.origin T.story T.caller seat.old.me x seat.new.me }
{
    for _ in rt.forever() {
        if begin(steps, seat) {
            return;
        }
        steps.park(rt, BUSY, 1);
    }
    unreachable!()
}

// Waits until a turn begins. A taker who may sleep says so in `sleepers` first, so the next giver wakes it.
pub(crate) fn wait_begin<T: Storied, R: Wait>(
    rt: &R,
    steps: &Steps<T>,
    sleepers: &AtomicU64,
    seat: &mut Place<T>,
)
    requires table { IsSeatOf steps.now.table_id seat.old }
    requires rests { MayTurn seat.old.me }
    ensures seat { IsSameSeat seat.old seat.new }
    ensures begins { (x : T) × Took T.origin T.story T.caller seat.old.me x seat.new.me }
{
    if begin_soon(steps, seat) {
        return;
    }
    sleepers.fetch_add(1, SeqCst);
    begin_late(rt, steps, seat);
    sleepers.fetch_sub(1, SeqCst);
}

// Exchanges the value out of the slot that the seat took.
pub(crate) fn take_out<T: Storied>(steps: &Steps<T>, seat: &mut Place<T>) -> T
    requires table { IsSeatOf steps.now.table_id seat.old }
    requires full { (x : T) × (seat.old.me.1 ≡ (0, Some x) ∷ []) }
    ensures seat { IsSameSeat seat.old seat.new }
    ensures value { seat.old.me.1 ≡ (0, Some result) ∷ [] }
    ensures out { seat.new.me ≡ (seat.old.me.0, (0, None) ∷ []) }
{
    let Some(value) = steps.exchange(seat, 0, None) else {
        unreachable!()
    };
    value
}

// Adds the number of new entries to the count, while the value is out. From now on they stand in the one story.
pub(crate) fn count<T: Storied, J: Added<T::Entry>>(
    steps: &Steps<T>,
    seat: &mut Place<T>,
    value: &T,
    new: u64,
)
    requires table { IsSeatOf steps.now.table_id seat.old }
    requires brings { Brings T.origin T.story T.caller value.now J.added seat.old.me new }
    ensures seat { IsSameSeat seat.old seat.new }
    ensures counted { seat.new.me ≡ grown J.added seat.old.me }
{
    let _ = value;
    steps.fetch_add::<Counts<J>>(seat, COUNT, new);
}

// Exchanges the value back into its slot.
pub(crate) fn put_back<T: Storied>(steps: &Steps<T>, seat: &mut Place<T>, value: T)
    requires table { IsSeatOf steps.now.table_id seat.old }
    requires empty { seat.old.me.1 ≡ (0, None) ∷ [] }
    ensures seat { IsSameSeat seat.old seat.new }
    ensures back { seat.new.me ≡ (seat.old.me.0, (0, Some value) ∷ []) }
{
    let None = steps.exchange(seat, 0, Some(value)) else {
        unreachable!()
    };
}

// Swaps busy to 0: the slot is given back, and the turn is over.
pub(crate) fn end<T: Storied>(steps: &Steps<T>, seat: &mut Place<T>)
    requires table { IsSeatOf steps.now.table_id seat.old }
    requires back { IsBack T.origin T.story T.caller seat.old.me }
    ensures seat { IsSameSeat seat.old seat.new }
    ensures ends { seat.new.me ≡ ended seat.old.me }
{
    steps.swap::<Ends>(seat, BUSY, 0);
}
