// The lock and its passes.
ghost use Rattle.std.specs.Prelude.{◌≡◌, ◌+◌, ◌<◌, ◌≤◌, ℕ, [], true, false, All, Any, IfOk, IfErr, vec_len, vec_capacity};
ghost use Rattle.std.specs.List.Sorted.{IsPermutation};
ghost use Rattle.turn_lock.specs.Seen.{IsOf, IsLockOver, new_pass, new_passes, holding, resting};
ghost use Rattle.turn_lock.specs.Stories.{entries_by, after, Begins};
ghost use Rattle.turn_lock.specs.Seats.{IsFirst, IsSeatFor, IsSeatOfAll, passes_from};
ghost use Rattle.std.specs.Slots.{slots_items, slots_len, IsFull};
ghost use mathlib.Core.Option.{some};
ghost use lib.ListN.{get_elem?};

use crate::steps::{
    BUSY, Deals, Gathers, Place, Start, Told, count, end, put_back, take_out, wait_begin,
};
use crate::view::View;
use atomic_table::{Closed, Refused, Table};
use mix_base::{Memory, Storied};
use std::alloc::Global;
use std::marker::{Brand, Model};
use std::snapshot::Snapshot;
use std::sync::Wait;
use std::sync::atomic::AtomicU64;
use std::sync::atomic::Ordering::SeqCst;

/// One caller's right to take turns at one lock.
#[derive(Drop)]
pub struct Pass<T: Storied> {
    number: u32,
    // How many entries the story had when the pass last took the value.
    entries: u64,
    seat: Place<T>,
}

impl<T: Storied> Model for Pass<T> {
    ghost use Rattle.turn_lock.specs.Seen.{Caller, caller_code};

    ghost Value = { Caller T.Entry };

    ghost coded = { caller_code T.Entry.code };

    ghost use Rattle.turn_lock.specs.Seats.{IsPass, is_at_turn, made_by};

    ghost view = { λ p.
        record {
          lock = p.seat.table_id;
          number = p.number;
          holds = is_at_turn p.seat.me.0.role;
          origin = p.seat.me.0.origin;
          seen = p.seat.me.0.seen;
          made = made_by p.seat.me.0.callers;
        } };

    ghost invariant = { λ p. IsPass p.number p.entries p.seat.me };
}

/// A lock that hands its value from one caller to the next.
#[derive(Drop)]
pub struct TurnLock<T: Storied> {
    table: Table<Option<T>, View<T::Entry>, Start<T>, Told, Global>,
    // How many takers may be asleep. A giver reads it to know whether to wake one.
    pub(crate) sleepers: AtomicU64,
}

impl<T: Storied> Model for TurnLock<T> {
    ghost use Rattle.std.specs.Prelude.{◌≡◌, ◌<◌};
    ghost use Rattle.turn_lock.specs.Seen.{Lock, lock_code};

    ghost Value = { Lock T.Entry };

    ghost coded = { lock_code T.Entry.code };

    ghost view = { λ l.
        record {
          id = l.table.shared.table_id;
          callers = l.table.shared.key.callers;
          origin = T.origin l.table.shared.key.value.value;
          story = T.story l.table.shared.key.value.value;
        } };

    ghost invariant = { λ l. (l.table.shared.table_id.words ≡ 2) ×
        (l.table.shared.table_id.slots ≡ 1) × (0 < l.table.shared.key.callers) };
}

/// A lock, and a pass for each of its callers.
#[derive(Drop)]
pub struct MadeLock<T: Storied> {
    pub lock: TurnLock<T>,
    pub passes: Vec<Pass<T>>,
}

// The table with the value in its slot, and the first seat, which has caller 0.
fn lay<T: Storied>(
    alloc: Global,
    value: T,
    callers: u32,
) -> Result<(TurnLock<T>, Place<T>), (T, Memory)>
    requires { 0 < callers }
    ensures lock { IfOk result (λ r. IsLockOver r.0 callers (T.origin value) (T.story value)) }
    ensures first { IfOk result (λ r. IsFirst r.0 1 r.1) }
    ensures err { IfErr result (λ r. r.0 ≡ value) }
{
    let Ok(mut slots) = Vec::with_capacity(alloc, 1) else {
        return Err((value, Memory));
    };
    let entries = value.entries();
    let start = Start {
        value: Snapshot::of(&value),
        callers,
    };
    slots.push_reserved(Some(value));
    match Table::new(alloc, &[entries, 0], slots, &start) {
        Ok((table, seat)) => Ok((
            TurnLock {
                table,
                sleepers: AtomicU64::new(0),
            },
            seat,
        )),
        Err(Refused { mut slots }) => {
            let Some(Some(value)) = slots.pop() else {
                unreachable!()
            };
            Err((value, Memory))
        }
    }
}

// A pass for each of the callers but the first, whose room was made.
fn deal<T: Storied>(
    lock: &TurnLock<T>,
    first: &mut Place<T>,
    mut passes: Vec<Pass<T>>,
    callers: u32,
) -> Vec<Pass<T>>
    requires first { IsFirst lock.now 1 first.old }
    requires callers { callers ≡ lock.now.callers }
    requires some { 0 < callers }
    requires room { (passes.items ≡ []) × (callers ≤ vec_capacity passes) }
    ensures first { IsFirst lock.now callers first.new }
    ensures passes { result.items ≡ passes_from lock.now 1 callers }
    ensures room { vec_len result < vec_capacity result }
{
    for number in 1..callers {
        passes.push_reserved(lock.next_pass(first, number));
    }
    passes
}

// All passes: that of the first seat, which has caller 0, before the others.
fn with_first<T: Storied>(
    lock: &TurnLock<T>,
    first: Place<T>,
    mut passes: Vec<Pass<T>>,
) -> Vec<Pass<T>>
    requires first { IsFirst lock.now lock.now.callers first }
    requires passes { passes.items ≡ passes_from lock.now 1 lock.now.callers }
    requires some { 0 < lock.now.callers }
    requires room { vec_len passes < vec_capacity passes }
    ensures { result.items ≡ new_passes lock.now lock.now.callers }
{
    let pass = Pass {
        number: 0,
        entries: 0,
        seat: first,
    };
    let Ok(()) = passes.insert(0, pass) else {
        unreachable!()
    };
    passes
}

// The seat of a pass that is given up.
fn seat_of<T: Storied>(pass: Pass<T>) -> Place<T>
    requires { pass.holds ≡ false }
    ensures { IsSeatFor pass result }
{
    let Pass {
        number: _,
        entries: _,
        seat,
    } = pass;
    seat
}

// Puts the pass of the first seat at the end, where it is taken first.
fn first_to_end<T: Storied>(passes: &mut Vec<Pass<T>>)
    requires { 0 < vec_len passes.old }
    ensures same { IsPermutation passes.old.items passes.new.items }
    ensures len { vec_len passes.new ≡ vec_len passes.old }
{
    let last = passes.len() - 1;
    let at = passes
        .iter()
        .position(|pass| pass.number == 0)
        .unwrap_or(last);
    passes.swap(at, last);
}

// One seat that speaks for all passes: the others are joined into the last one's, which is the first seat.
fn gather<T: Storied>(lock: &TurnLock<T>, mut passes: Vec<Pass<T>>) -> Place<T>
    requires own { All (IsOf lock.now) passes.items }
    requires rest { All (λ p. p.holds ≡ false) passes.items }
    requires some { 0 < vec_len passes }
    ensures { IsSeatOfAll lock.now passes.items result }
{
    let Some(last) = passes.pop() else {
        unreachable!()
    };
    let mut all = seat_of(last);
    while let Some(pass) = passes.pop() {
        lock.table
            .shared
            .join_seat::<Gathers>(&mut all, seat_of(pass));
    }
    all
}

// What the one slot of a closed table has.
fn slot_of<T: Storied>(mut closed: Closed<Option<T>, Global>) -> Option<T>
    requires { (slots_len closed.slots ≡ 1) × IsFull closed.slots }
    ensures { get_elem? (slots_items closed.slots) 0 ≡ some result }
{
    let slot = closed.take(0);
    closed.free();
    slot
}

impl<T: Storied> TurnLock<T> {
    /// A lock over the value, with one pass for each caller, numbered from 0. Where memory is wanting the value comes back.
    pub fn new(alloc: Global, value: T, callers: u32) -> Result<MadeLock<T>, (T, Memory)>
        requires { 0 < callers }
        ensures lock { IfOk result
            (λ m. IsLockOver m.lock callers (T.origin value) (T.story value)) }
        ensures passes { IfOk result (λ m. m.passes.items ≡ new_passes m.lock callers) }
        ensures err { IfErr result (λ e. e.0 ≡ value) }
    {
        let Ok(room) = Vec::with_capacity(alloc, callers as usize) else {
            return Err((value, Memory));
        };
        let (lock, mut first) = lay(alloc, value, callers)?;
        let others = deal(&lock, &mut first, room, callers);
        let passes = with_first(&lock, first, others);
        Ok(MadeLock { lock, passes })
    }

    // The pass with the next number.
    fn next_pass(&self, first: &mut Place<T>, number: u32) -> Pass<T>
        requires first { IsFirst self.now number first.old }
        requires few { number < self.now.callers }
        ensures pass { result ≡ new_pass self.now number }
        ensures first { IsFirst self.now (number + 1) first.new }
    {
        let seat = self.table.shared.split_seat::<Deals>(first);
        Pass {
            number,
            entries: 0,
            seat,
        }
    }

    /// Waits until no other pass holds the value, and takes it. Nothing is said of how long that takes, nor of who comes first.
    pub fn take(&self, rt: &impl Wait, pass: &mut Pass<T>) -> T
        requires own { IsOf self.now pass.old }
        requires rests { pass.old.holds ≡ false }
        ensures origin { T.origin result ≡ self.now.origin }

        // The story begins with all that the pass had seen, and what follows was done by others.
        ensures begins { Begins pass.old.seen (T.story result) }
        ensures others { entries_by T.caller pass.old.number (after pass.old.seen (T.story result))
            ≡ [] }
        ensures pass { pass.new ≡ holding pass.old (T.story result) }
    {
        let steps = &self.table.shared;
        wait_begin(rt, steps, &self.sleepers, &mut pass.seat);
        let value = take_out(steps, &mut pass.seat);
        pass.entries = value.entries();
        value
    }

    /// Gives the value back, and lets another pass take it.
    pub fn give(&self, pass: &mut Pass<T>, value: T)
        requires own { IsOf self.now pass.old }
        requires holds { pass.old.holds ≡ true }
        requires origin { T.origin value ≡ self.now.origin }

        // The story only grew, by entries of this caller.
        requires begins { Begins pass.old.seen (T.story value) }
        requires own_entries { All (λ e. T.caller e ≡ pass.old.number)
            (after pass.old.seen (T.story value)) }
        ensures pass { pass.new ≡ resting pass.old (T.story value) }
    {
        let steps = &self.table.shared;
        let new = value.entries() - pass.entries;
        count::<T, Brand>(steps, &mut pass.seat, &value, new);
        put_back(steps, &mut pass.seat, value);
        end(steps, &mut pass.seat);
        if self.sleepers.load(SeqCst) > 0 {
            steps.wake_one(BUSY);
        }
    }

    /// Gives the value out for good, once every pass is back and none holds it.
    pub fn close(self, mut passes: Vec<Pass<T>>) -> T
        requires own { All (IsOf self) passes.items }
        requires rest { All (λ p. p.holds ≡ false) passes.items }
        requires every { (c : ℕ) → c < self.callers → Any (λ p. p.number ≡ c) passes.items }
        ensures origin { T.origin result ≡ self.origin }

        // The story begins with that of the value at `new`, and with all that each pass had seen.
        ensures begins { Begins self.story (T.story result) }
        ensures seen { All (λ p. Begins p.seen (T.story result)) passes.items }

        // After the story at `new` the entries of each caller are those that its pass made, each once and in its order, and there are no others.
        ensures made { All
            (λ p. entries_by T.caller p.number (after self.story (T.story result))
            ≡ p.made) passes.items }
        ensures others { All (λ e. T.caller e < self.callers) (after self.story (T.story result)) }
    {
        first_to_end(&mut passes);
        let all = gather(&self, passes);
        let TurnLock { table, sleepers: _ } = self;
        let Some(value) = slot_of(table.close_with(all)) else {
            unreachable!()
        };
        value
    }
}
