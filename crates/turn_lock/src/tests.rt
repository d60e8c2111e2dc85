// Turns of two and of four threads, and what they leave.
ghost use Rattle.std.specs.List.{list_all};
ghost use Rattle.std.specs.Prelude.{◌≡◌, ◌+◌, ◌<◌, ◌==◌, true, false, All, IfOk, [], ◌∷◌, length};
ghost use Rattle.turn_lock.specs.Seen.{IsIdle, AreIdle, new_passes};
ghost use Rattle.turn_lock.specs.Stories.{after, Begins};

use crate::{MadeLock, Pass, TurnLock};
use mix_base::Storied;
use std::alloc::Global;
use std::sync::Wait;
use std::sync::atomic::AtomicU64;
use std::sync::atomic::Ordering::SeqCst;
use std::test::Fail;
use std::thread::{Threads, join, yield_now};

const ROUNDS: u32 = 1000;

// A value whose story is the list of its callers.
#[derive(Drop)]
struct Book {
    callers: Vec<u32>,
}

impl Storied for Book {
    type Entry = u32;

    ghost origin = { λ _. [] };

    ghost story = { λ b. b.callers.items };

    ghost caller = { λ e. e };

    fn entries(&self) -> u64 {
        self.callers.len() as u64
    }
}

impl Book {
    // Adds the entries, all of one caller, or nothing where memory is wanting.
    fn add(&mut self, caller: u32, entries: &[u32])
        requires { list_all (λ e. e == caller) entries.now ≡ true }
        ensures begins { Begins self.old.callers.items self.new.callers.items }
        ensures own { All (λ e. e ≡ caller) (after self.old.callers.items self.new.callers.items) }
    {
        let _ = self.callers.extend_from_slice(entries);
    }

    fn count(&self, caller: u32) -> usize {
        self.callers.iter().filter(|c| **c == caller).count()
    }
}

fn turn<R: Wait>(rt: &R, lock: &TurnLock<Book>, pass: &mut Pass<Book>, number: u32, entries: &[u32])
    requires idle { IsIdle lock.now number pass.old }
    requires own { list_all (λ e. e == number) entries.now ≡ true }
    ensures { IsIdle lock.now number pass.new }
{
    let mut book = lock.take(rt, pass);
    book.add(number, entries);
    lock.give(pass, book);
}

// Takes turns, and adds the entries in each.
fn turns<R: Wait>(
    rt: &R,
    lock: &TurnLock<Book>,
    mut pass: Pass<Book>,
    number: u32,
    entries: &[u32],
) -> Pass<Book>
    requires idle { IsIdle lock.now number pass }
    requires own { list_all (λ e. e == number) entries.now ≡ true }
    ensures { IsIdle lock.now number result }
{
    for _ in 0..ROUNDS {
        turn(rt, lock, &mut pass, number, entries);
    }
    pass
}

// Two threads take turns.
fn two<R: Threads + Wait + Sync>(
    rt: &R,
    lock: &TurnLock<Book>,
    a: Pass<Book>,
    b: Pass<Book>,
    first: u32,
    second: u32,
    ones: &[u32],
    others: &[u32],
) -> (Pass<Book>, Pass<Book>)
    requires first { IsIdle lock.now first a }
    requires second { IsIdle lock.now second b }
    requires ones { (list_all (λ e. e == first) ones.now ≡ true) }
    requires others { (list_all (λ e. e == second) others.now ≡ true) }
    ensures first { IsIdle lock.now first result.0 }
    ensures second { IsIdle lock.now second result.1 }
{
    join(
        rt,
        move || -> Pass<Book>
            requires { IsIdle lock.now first a × (list_all (λ e. e == first) ones.now ≡ true) }
            ensures { IsIdle lock.entry.now first result }
        { turns(rt, lock, a, first, ones) },
        move || -> Pass<Book>
            requires { IsIdle lock.now second b × (list_all (λ e. e == second) others.now ≡ true) }
            ensures { IsIdle lock.entry.now second result }
        { turns(rt, lock, b, second, others) },
    )
}

// Four threads do, and some add several entries a turn.
fn four<R: Threads + Wait + Sync>(
    rt: &R,
    lock: &TurnLock<Book>,
    a: Pass<Book>,
    b: Pass<Book>,
    c: Pass<Book>,
    d: Pass<Book>,
) -> ((Pass<Book>, Pass<Book>), (Pass<Book>, Pass<Book>))
    requires first { IsIdle lock.now 0 a }
    requires second { IsIdle lock.now 1 b }
    requires third { IsIdle lock.now 2 c }
    requires fourth { IsIdle lock.now 3 d }
    ensures first { IsIdle lock.now 0 result.0.0 }
    ensures second { IsIdle lock.now 1 result.0.1 }
    ensures third { IsIdle lock.now 2 result.1.0 }
    ensures fourth { IsIdle lock.now 3 result.1.1 }
{
    join(
        rt,
        move || -> (Pass<Book>, Pass<Book>)
            requires { IsIdle lock.now 0 a × IsIdle lock.now 1 b }
            ensures { IsIdle lock.entry.now 0 result.0 × IsIdle lock.entry.now 1 result.1 }
        { two(rt, lock, a, b, 0, 1, &[0, 0, 0], &[1, 1]) },
        move || -> (Pass<Book>, Pass<Book>)
            requires { IsIdle lock.now 2 c × IsIdle lock.now 3 d }
            ensures { IsIdle lock.entry.now 2 result.0 × IsIdle lock.entry.now 3 result.1 }
        { two(rt, lock, c, d, 2, 3, &[2], &[3, 3, 3, 3]) },
    )
}

// A lock over a book with no entries, and its passes.
fn opened(alloc: Global, callers: u32) -> Result<MadeLock<Book>, Fail>
    requires { 0 < callers }
    ensures { IfOk result
        (λ m. (m.lock.callers ≡ callers) × (m.passes.items ≡ new_passes m.lock callers)) }
{
    let book = Book {
        callers: Vec::new(alloc),
    };
    match TurnLock::new(alloc, book, callers) {
        Ok(made) => Ok(made),
        Err(_) => Err(Fail::from("no memory")),
    }
}

// The last of the passes that are left.
fn last(
    lock: &TurnLock<Book>,
    passes: &mut Vec<Pass<Book>>,
    number: u32,
) -> Result<Pass<Book>, Fail>
    requires { passes.old.items ≡ new_passes lock.now (number + 1) }
    ensures { IfOk result
        (λ p. IsIdle lock.now number p × (passes.new.items ≡ new_passes lock.now number)) }
{
    match passes.pop() {
        Some(pass) => Ok(pass),
        None => Err(Fail::from("no pass")),
    }
}

fn closed(lock: TurnLock<Book>, passes: Vec<Pass<Book>>) -> Book
    requires { AreIdle lock 0 passes.items × (lock.callers ≡ length passes.items) }
{
    lock.close(passes)
}

#[test]
fn a_pass_finds_what_the_other_did(rt: HostRuntime) -> Result<(), Fail> {
    let MadeLock { lock, mut passes } = opened(rt.alloc(), 2)?;
    let mut b = last(&lock, &mut passes, 1)?;
    let mut a = last(&lock, &mut passes, 0)?;
    turn(&rt, &lock, &mut a, 0, &[0]);
    let mut book = lock.take(&rt, &mut b);
    assert_eq!(rt; book.callers.as_slice(), [0].as_slice());
    book.add(1, &[1]);
    lock.give(&mut b, book);
    let book = closed(lock, vec![in rt.alloc(); a, b]?);
    assert_eq!(rt; book.callers.as_slice(), [0, 1].as_slice());
    Ok(())
}

#[test]
fn two_threads_leave_each_entry_once(rt: HostRuntime) -> Result<(), Fail> {
    let MadeLock { lock, mut passes } = opened(rt.alloc(), 2)?;
    let b = last(&lock, &mut passes, 1)?;
    let a = last(&lock, &mut passes, 0)?;
    let (a, b) = two(&rt, &lock, a, b, 0, 1, &[0], &[1]);
    let book = closed(lock, vec![in rt.alloc(); a, b]?);
    assert_eq!(rt; book.callers.len(), 2000);
    assert_eq!(rt; (book.count(0), book.count(1)), (1000, 1000));
    Ok(())
}

#[test]
fn four_threads_leave_several_entries_a_turn(rt: HostRuntime) -> Result<(), Fail> {
    let MadeLock { lock, mut passes } = opened(rt.alloc(), 4)?;
    let d = last(&lock, &mut passes, 3)?;
    let c = last(&lock, &mut passes, 2)?;
    let b = last(&lock, &mut passes, 1)?;
    let a = last(&lock, &mut passes, 0)?;
    let ((a, b), (c, d)) = four(&rt, &lock, a, b, c, d);
    let book = closed(lock, vec![in rt.alloc(); a, b, c, d]?);
    assert_eq!(rt; book.callers.len(), 10_000);
    assert_eq!(rt; (book.count(0), book.count(1)), (3000, 2000));
    assert_eq!(rt; (book.count(2), book.count(3)), (1000, 4000));
    Ok(())
}

// Waits until a taker says that it may sleep, and then long enough that it does.
fn wait_sleeper<R: Wait>(rt: &R, lock: &TurnLock<Book>) {
    for _ in rt.forever() {
        if lock.sleepers.load(SeqCst) > 0 {
            break;
        }
        yield_now();
    }
    for _ in 0..10_000 {
        yield_now();
    }
}

// Takes the value, and gives it back once another taker sleeps.
fn hold<R: Wait>(
    rt: &R,
    lock: &TurnLock<Book>,
    mut pass: Pass<Book>,
    held: &AtomicU64,
) -> Pass<Book>
    requires { IsIdle lock.now 0 pass }
    ensures { IsIdle lock.now 0 result }
{
    let mut book = lock.take(rt, &mut pass);
    held.store(1, SeqCst);
    wait_sleeper(rt, lock);
    book.add(0, &[0]);
    lock.give(&mut pass, book);
    pass
}

// Takes the value once another has it.
fn follow<R: Wait>(
    rt: &R,
    lock: &TurnLock<Book>,
    mut pass: Pass<Book>,
    held: &AtomicU64,
) -> Pass<Book>
    requires { IsIdle lock.now 1 pass }
    ensures { IsIdle lock.now 1 result }
{
    for _ in rt.forever() {
        if held.load(SeqCst) > 0 {
            break;
        }
        yield_now();
    }
    turn(rt, lock, &mut pass, 1, &[1]);
    pass
}

// One taker sleeps while the other has the value.
fn sleep_once<R: Threads + Wait + Sync>(
    rt: &R,
    lock: &TurnLock<Book>,
    a: Pass<Book>,
    b: Pass<Book>,
) -> (Pass<Book>, Pass<Book>)
    requires first { IsIdle lock.now 0 a }
    requires second { IsIdle lock.now 1 b }
    ensures first { IsIdle lock.now 0 result.0 }
    ensures second { IsIdle lock.now 1 result.1 }
{
    let held = AtomicU64::new(0);
    let is_held = &held;
    join(
        rt,
        move || -> Pass<Book>
            requires { IsIdle lock.now 0 a }
            ensures { IsIdle lock.entry.now 0 result }
        { hold(rt, lock, a, is_held) },
        move || -> Pass<Book>
            requires { IsIdle lock.now 1 b }
            ensures { IsIdle lock.entry.now 1 result }
        { follow(rt, lock, b, is_held) },
    )
}

// A giver that doesn't wake its one sleeper lets this test run out of time.
#[test]
fn a_taker_that_sleeps_is_woken(rt: HostRuntime) -> Result<(), Fail> {
    for _ in 0..20 {
        let MadeLock { lock, mut passes } = opened(rt.alloc(), 2)?;
        let b = last(&lock, &mut passes, 1)?;
        let a = last(&lock, &mut passes, 0)?;
        let (a, b) = sleep_once(&rt, &lock, a, b);
        let book = closed(lock, vec![in rt.alloc(); a, b]?);
        assert_eq!(rt; book.callers.as_slice(), [0, 1].as_slice());
    }
    Ok(())
}
