// Actors in threads, and a queue between four of them.
ghost use Rattle.std.specs.Prelude.{◌≡◌};
ghost use Rattle.node_actors.specs.Queues.{marks};

use crate::{Actor, Arrival, NotRun, PacketQueue, Receiver, Sender, Spawner, ThreadSpawner};
use mix_base::Bytes;
use std::alloc::Global;
use std::sync::atomic::AtomicU64;
use std::sync::atomic::Ordering::SeqCst;
use std::sync::{Barrier, Wait};
use std::test::Fail;
use std::thread;
use std::thread::{Threads, join};

// Gives its number once all have come to the barrier.
#[derive(Drop)]
struct Meeting<'a, H: Wait> {
    rt: &'a H,
    barrier: &'a Barrier,
    number: u64,
}

impl<'a, H: Wait> Actor for Meeting<'a, H> {
    type Done = u64;

    ghost gives = { λ actor done. done ≡ actor.number };

    fn act(self) -> u64 {
        self.barrier.wait(self.rt);
        self.number
    }
}

// So many actors that meet each other.
fn meetings<'a, H: Wait>(
    rt: &'a H,
    alloc: Global,
    barrier: &'a Barrier,
    count: u64,
) -> Result<Vec<Meeting<'a, H>>, Fail> {
    let mut actors = Vec::new(alloc);
    for number in 0..count {
        actors.push(Meeting {
            rt,
            barrier,
            number,
        })?;
    }
    Ok(actors)
}

// Whether the numbers are 0, 1 and so on.
fn are_in_order(numbers: &[u64]) -> bool {
    let mut next = 0u64;
    for number in numbers {
        if *number != next {
            return false;
        }
        next = next.saturating_add(1);
    }
    true
}

#[test]
fn actors_that_meet_answer_in_their_order(rt: HostRuntime) -> Result<(), Fail> {
    let barrier = Barrier::new(32);
    let actors = meetings(&rt, rt.alloc(), &barrier, 32)?;
    let mut spawner = ThreadSpawner::new(&rt, Vec::new(rt.alloc()));
    let Ok(answers) = spawner.run_all(rt.alloc(), actors) else {
        return Err(Fail::from("not run"));
    };
    assert_eq!(rt; answers.len(), 32);
    assert!(rt; are_in_order(answers.as_slice()));
    Ok(())
}

// Gives its number.
#[derive(Drop)]
struct Plain {
    number: u64,
}

impl Actor for Plain {
    type Done = u64;

    ghost gives = { λ actor done. done ≡ actor.number };

    fn act(self) -> u64 {
        self.number
    }
}

// What came of a call with two actors: 0 where both answered in their order, 1 where the spawner failed and both came
// back in their order, 3 where memory was wanting, and 2 for anything else.
fn one_call<S: Spawner>(alloc: Global, spawner: &mut S) -> Result<u32, Fail> {
    let mut actors = Vec::new(alloc);
    actors.push(Plain { number: 0 })?;
    actors.push(Plain { number: 1 })?;
    let not_run = match spawner.run_all(alloc, actors) {
        Ok(answers) => {
            let good = answers.len() == 2 && are_in_order(answers.as_slice());
            return Ok(if good { 0 } else { 2 });
        }
        Err(not_run) => not_run,
    };
    match not_run {
        NotRun::Failed(actors) => Ok(if are_both(actors.as_slice()) { 1 } else { 2 }),
        NotRun::Memory(actors) => Ok(if are_both(actors.as_slice()) { 3 } else { 2 }),
    }
}

// Whether these are the two actors in their order.
fn are_both(actors: &[Plain]) -> bool {
    actors.len() == 2 && actors[0].number == 0 && actors[1].number == 1
}

#[test]
fn each_listed_call_fails_and_no_other(rt: HostRuntime) -> Result<(), Fail> {
    for (listed, failed) in [
        (1, [1, 0, 0]),
        (2, [0, 1, 0]),
        (3, [0, 0, 1]),
        (4, [0, 0, 0]),
    ] {
        let mut spawner = ThreadSpawner::new(&rt, vec![in rt.alloc(); listed]?);
        let first = one_call(rt.alloc(), &mut spawner)?;
        let second = one_call(rt.alloc(), &mut spawner)?;
        let third = one_call(rt.alloc(), &mut spawner)?;
        assert_eq!(rt; [first, second, third], failed);
    }
    Ok(())
}

const COUNT: u64 = 10_000;

// Pushes an arrival, and says whether there was room.
fn push_one<R: Wait>(rt: &R, queue: &PacketQueue, sender: &mut Sender, arrival: Arrival) -> bool
    requires { (sender.old.queue ≡ queue.now) × (marks sender.old.pushed ≡ 0) }
    ensures { (sender.new.queue ≡ queue.now) × (marks sender.new.pushed ≡ 0) }
{
    if queue.push(rt, sender, arrival).is_err() {
        return false;
    }
    true
}

// Pushes COUNT arrivals and the mark. It keeps those for which there was no room, and answers how many.
fn listen<R: Wait>(
    rt: &R,
    alloc: Global,
    queue: &PacketQueue,
    mut sender: Sender,
    fulls: &AtomicU64,
) -> (Sender, u64)
    requires { (sender.queue ≡ queue.now) × (marks sender.pushed ≡ 0) }
    ensures { result.0.queue ≡ queue.now }
{
    let mut kept = 0u64;
    for number in 0..COUNT {
        let arrival = Arrival {
            number,
            receipt: 0,
            packet: Bytes::of(Vec::new(alloc)),
        };
        if !push_one(rt, queue, &mut sender, arrival) {
            kept = kept.saturating_add(1);
            fulls.fetch_add(1, SeqCst);
        }
    }
    queue.finish(rt, &mut sender);
    (sender, kept)
}

// What a worker saw: how many arrivals of each of three listeners, and whether each one's numbers rose.
#[derive(Drop)]
struct Seen {
    counts: [u64; 3],
    least: [u64; 3],
    in_order: bool,
}

impl Seen {
    fn note(&mut self, from: u64, number: u64) {
        if from >= 3 {
            self.in_order = false;
            return;
        }
        let from = from as usize;
        if number < self.least[from] {
            self.in_order = false;
        }
        self.least[from] = number.saturating_add(1);
        self.counts[from] = self.counts[from].saturating_add(1);
    }
}

// Waits until the queue was full.
fn wait_full<R: Wait>(rt: &R, fulls: &AtomicU64) {
    for _ in rt.forever() {
        if fulls.load(SeqCst) > 0 {
            return;
        }
        thread::yield_now();
    }
}

// Pops until it has a mark of each listener.
fn work<R: Wait>(
    rt: &R,
    queue: &PacketQueue,
    mut receiver: Receiver,
    fulls: &AtomicU64,
) -> (Receiver, Seen)
    requires { receiver.queue ≡ queue.now }
    ensures { (result.0.queue ≡ queue.now) × (marks result.0.popped ≡ result.0.senders) }
{
    let mut seen = Seen {
        counts: [0; 3],
        least: [0; 3],
        in_order: true,
    };
    wait_full(rt, fulls);
    for _ in rt.forever() {
        if receiver.is_done() {
            return (receiver, seen);
        }
        let item = queue.pop(rt, &mut receiver);
        if let Some(arrival) = &item.arrival {
            seen.note(item.from, arrival.number);
        }
    }
    unreachable!()
}

// Two listeners.
fn two<R: Threads + Wait + Sync>(
    rt: &R,
    alloc: Global,
    queue: &PacketQueue,
    a: Sender,
    b: Sender,
    fulls: &AtomicU64,
) -> ((Sender, u64), (Sender, u64))
    requires a { (a.queue ≡ queue.now) × (marks a.pushed ≡ 0) }
    requires b { (b.queue ≡ queue.now) × (marks b.pushed ≡ 0) }
    ensures { (result.0.0.queue ≡ queue.now) × (result.1.0.queue ≡ queue.now) }
{
    join(
        rt,
        move || -> (Sender, u64)
            requires { (a.queue ≡ queue.now) × (marks a.pushed ≡ 0) }
            ensures { result.0.queue ≡ queue.entry.now }
        { listen(rt, alloc, queue, a, fulls) },
        move || -> (Sender, u64)
            requires { (b.queue ≡ queue.now) × (marks b.pushed ≡ 0) }
            ensures { result.0.queue ≡ queue.entry.now }
        { listen(rt, alloc, queue, b, fulls) },
    )
}

// A listener and the worker.
fn last<R: Threads + Wait + Sync>(
    rt: &R,
    alloc: Global,
    queue: &PacketQueue,
    c: Sender,
    receiver: Receiver,
    fulls: &AtomicU64,
) -> ((Sender, u64), (Receiver, Seen))
    requires sender { (c.queue ≡ queue.now) × (marks c.pushed ≡ 0) }
    requires receiver { receiver.queue ≡ queue.now }
    ensures sender { result.0.0.queue ≡ queue.now }
    ensures receiver { (result.1.0.queue ≡ queue.now) ×
        (marks result.1.0.popped ≡ result.1.0.senders) }
{
    join(
        rt,
        move || -> (Sender, u64)
            requires { (c.queue ≡ queue.now) × (marks c.pushed ≡ 0) }
            ensures { result.0.queue ≡ queue.entry.now }
        { listen(rt, alloc, queue, c, fulls) },
        move || -> (Receiver, Seen)
            requires { receiver.queue ≡ queue.now }
            ensures { (result.0.queue ≡ queue.entry.now) ×
                (marks result.0.popped ≡ result.0.senders) }
        { work(rt, queue, receiver, fulls) },
    )
}

// Three listeners and a worker. Afterwards the worker's end knows that it has popped all.
fn four<R: Threads + Wait + Sync>(
    rt: &R,
    alloc: Global,
    queue: &PacketQueue,
    mut receiver: Receiver,
    fulls: &AtomicU64,
) -> ([u64; 3], Seen)
    requires { (receiver.queue ≡ queue.now) × (receiver.senders ≡ 0) }
{
    let a = queue.sender(&mut receiver);
    let b = queue.sender(&mut receiver);
    let c = queue.sender(&mut receiver);
    let (((a, first), (b, second)), ((c, third), (mut receiver, seen))) = join(
        rt,
        move || -> ((Sender, u64), (Sender, u64))
            requires { (a.queue ≡ queue.now) × (marks a.pushed ≡ 0) × (b.queue ≡ queue.now) ×
                (marks b.pushed ≡ 0) }
            ensures { (result.0.0.queue ≡ queue.entry.now) × (result.1.0.queue ≡ queue.entry.now) }
        { two(rt, alloc, queue, a, b, fulls) },
        move || -> ((Sender, u64), (Receiver, Seen))
            requires { (c.queue ≡ queue.now) × (marks c.pushed ≡ 0) × (receiver.queue ≡ queue.now) }
            ensures { (result.0.0.queue ≡ queue.entry.now) × (result.1.0.queue ≡ queue.entry.now) ×
                (marks result.1.0.popped ≡ result.1.0.senders) }
        { last(rt, alloc, queue, c, receiver, fulls) },
    );
    queue.take_in(&mut receiver, a);
    queue.take_in(&mut receiver, b);
    queue.take_in(&mut receiver, c);
    queue.compare(&mut receiver);
    queue.settle(&mut receiver);
    ([first, second, third], seen)
}

#[test]
fn three_listeners_keep_their_order_through_a_full_queue(rt: HostRuntime) -> Result<(), Fail> {
    let Ok((queue, receiver)) = PacketQueue::new(rt.alloc()) else {
        return Err(Fail::from("no queue"));
    };
    let fulls = AtomicU64::new(0);
    let (kept, seen) = four(&rt, rt.alloc(), &queue, receiver, &fulls);
    assert!(rt; seen.in_order);
    assert!(rt; fulls.load(SeqCst) > 0);
    for from in 0..3usize {
        assert_eq!(rt; kept[from].saturating_add(seen.counts[from]), 10_000);
    }
    Ok(())
}
