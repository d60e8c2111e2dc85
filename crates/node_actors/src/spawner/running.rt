// How actors are run. Each is moved into a thread that first waits at one gate, which says go or back. After go the
// thread answers what its actor gave, after back the actor itself. Both answers stand beside the gate's token, and
// tokens of one gate agree, so all threads answer in the same way. Go is said once every thread has been started; where
// a start is refused, back is said, the threads are joined, and all actors are in one list again, in their order.
ghost use Rattle.std.specs.Prelude.{◌≡◌, ◌+◌, ◌≤◌, true, false, [], map, IfOk, IfErr, vec_len, vec_capacity};
ghost use Rattle.std.specs.List.{AllZip};
ghost use Rattle.node_actors.specs.Gates.{IsAnswer, IsToken, AreFrom, unstarted};

use crate::spawner::actors::Actor;
use std::alloc::Global;
use std::snapshot::Snapshot;
use std::sync::{OnceLock, OnceToken, Wait};
use std::thread;
use std::thread::{Promise, PromisedHandle, Scope, Threads};

// What a thread leaves: what its actor gave, or the actor as it was.
#[derive(Drop)]
pub(crate) enum Outcome<A, D> {
    Acted(D),
    Back(A),
}

// An outcome, and what the gate said.
#[derive(Drop)]
pub(crate) struct Answer<'g, A, D> {
    pub(crate) order: OnceToken<'g, bool>,
    pub(crate) outcome: Outcome<A, D>,
}

// What a thread promises: an answer of this actor, by the word of this gate. It is there for proofs alone.
#[derive(Drop)]
pub(crate) struct Asked<A> {
    pub(crate) gate: Snapshot<OnceLock<bool>>,
    pub(crate) actor: Snapshot<A>,
}

impl<'g, A: Actor> Promise<Answer<'g, A, A::Done>> for Asked<A> {
    ghost use Rattle.node_actors.specs.Gates.{IsAnswer};

    ghost kept_by = { λ asked answer.
        IsAnswer A.gives asked.actor.value asked.gate.value.id answer };
}

type Thread<'s, A> = PromisedHandle<Answer<'s, A, <A as Actor>::Done>, Asked<A>>;

// No actor was run: these are all of them.
#[derive(Drop)]
pub(crate) enum NotStarted<A> {
    Refused(Vec<A>),
    Memory(Vec<A>),
}

// Where a start was refused: the actors that are left, the threads that were started, and back as the gate's word.
#[derive(Drop)]
struct Stopped<'s, A: Actor> {
    order: OnceToken<'s, bool>,
    left: Vec<A>,
    threads: Vec<Thread<'s, A>>,
}

// Waits until the gate has said go or back.
fn wait_order<'g, H: Wait>(rt: &H, gate: &'g OnceLock<bool>) -> OnceToken<'g, bool>
    ensures { result.of ≡ gate.now.id }
{
    for _ in rt.forever() {
        gate.wait(rt);
        if let Some(order) = gate.witness() {
            return order;
        }
    }
    unreachable!()
}

// Says go or back, once for all threads.
fn give_order<'g, H: Wait>(rt: &H, gate: &'g OnceLock<bool>, go: bool) -> OnceToken<'g, bool>
    ensures { IsToken gate.now.id go result }
{
    for _ in rt.forever() {
        if let Ok(order) = gate.set(rt, go) {
            return order;
        }
    }
    unreachable!()
}

// What each thread does.
fn follow<'g, A: Actor, H: Wait>(
    rt: &H,
    gate: &'g OnceLock<bool>,
    actor: A,
) -> Answer<'g, A, A::Done>
    ensures { IsAnswer A.gives actor gate.now.id result }
{
    let order = wait_order(rt, gate);
    let go = *gate.value(&order);
    let outcome = if go {
        Outcome::Acted(actor.act())
    } else {
        Outcome::Back(actor)
    };
    Answer { order, outcome }
}

// A thread for the actor. Where none can be started the gate says back, and the actor comes back.
fn start<'s, E: 's, A: Actor + Send + 's, H: Wait + Sync>(
    rt: &'s H,
    scope: &Scope<'s, E>,
    gate: &'s OnceLock<bool>,
    actor: A,
) -> Result<Thread<'s, A>, (OnceToken<'s, bool>, A)>
    ensures ok { IfOk result
        (λ t. (t.promise.gate.value.id ≡ gate.now.id) × (t.promise.actor.value ≡ actor)) }
    ensures err { IfErr result (λ r. IsToken gate.now.id false r.0 × (r.1 ≡ actor)) }
{
    let asked = Asked {
        gate: Snapshot::of(gate),
        actor: Snapshot::of(&actor),
    };
    let follows = move || -> Answer<'_, A, A::Done>
        ensures { IsAnswer A.gives actor gate.entry.now.id result }
    { follow(rt, gate, actor) };
    match scope.spawn_with(asked, follows) {
        Ok(thread) => Ok(thread),
        Err(refused) => {
            let back = give_order(rt, gate, false);
            let Answer { order, outcome } = (refused.value)();
            order.agrees(&back);
            match outcome {
                Outcome::Back(actor) => Err((back, actor)),
                Outcome::Acted(_) => unreachable!(),
            }
        }
    }
}

// A thread for each actor, the last first. `threads` has room for all.
fn start_all<'s, E: 's, A: Actor + Send + 's, H: Wait + Sync>(
    rt: &'s H,
    scope: &Scope<'s, E>,
    gate: &'s OnceLock<bool>,
    mut actors: Vec<A>,
    mut threads: Vec<Thread<'s, A>>,
) -> Result<Vec<Thread<'s, A>>, Stopped<'s, A>>
    requires none { threads.items ≡ [] }
    requires room { vec_len actors ≤ vec_capacity threads }
    ensures ok { IfOk result
        (λ ts. AreFrom gate.now.id [] actors.items (map (λ t. t.promise) ts.items)) }
    ensures order { IfErr result (λ s. IsToken gate.now.id false s.order) }
    ensures left { IfErr result
        (λ s. AreFrom gate.now.id s.left.items actors.items
        (map (λ t. t.promise) s.threads.items)) }
    ensures room { IfErr result (λ s. vec_len s.left + vec_len s.threads ≤ vec_capacity s.left) }
{
    while let Some(actor) = actors.pop() {
        match start(rt, scope, gate, actor) {
            Ok(thread) => threads.push_reserved(thread),
            Err((order, actor)) => {
                actors.push_reserved(actor);
                return Err(Stopped {
                    order,
                    left: actors,
                    threads,
                });
            }
        }
    }
    Ok(threads)
}

// What the actor of a thread gave, after go.
fn done_of<'s, A: Actor, H: Threads>(
    rt: &H,
    thread: Thread<'s, A>,
    go: &OnceToken<'s, bool>,
) -> A::Done
    requires gate { thread.promise.gate.value.id ≡ go.now.of }
    requires go { go.now.value ≡ true }
    ensures { A.gives thread.entry.promise.actor.value result }
{
    let Answer { order, outcome } = thread.join(rt);
    order.agrees(go);
    match outcome {
        Outcome::Acted(done) => done,
        Outcome::Back(_) => unreachable!(),
    }
}

// The actor of a thread, after back.
fn actor_of<'s, A: Actor, H: Threads>(
    rt: &H,
    thread: Thread<'s, A>,
    back: &OnceToken<'s, bool>,
) -> A
    requires gate { thread.promise.gate.value.id ≡ back.now.of }
    requires back { back.now.value ≡ false }
    ensures { result ≡ thread.entry.promise.actor.value }
{
    let Answer { order, outcome } = thread.join(rt);
    order.agrees(back);
    match outcome {
        Outcome::Back(actor) => actor,
        Outcome::Acted(_) => unreachable!(),
    }
}

// What each actor gave, in the actors' order. `answers` has room for all.
fn join_all<'s, A: Actor, H: Threads>(
    rt: &H,
    mut threads: Vec<Thread<'s, A>>,
    go: &OnceToken<'s, bool>,
    mut answers: Vec<A::Done>,
    actors: &Snapshot<Vec<A>>,
) -> Vec<A::Done>
    requires go { go.now.value ≡ true }
    requires from { AreFrom go.now.of [] actors.now.value.items
        (map (λ t. t.promise) threads.items) }
    requires none { answers.items ≡ [] }
    requires room { vec_len threads ≤ vec_capacity answers }
    ensures { AllZip A.gives actors.now.value.items result.items }
{
    while let Some(thread) = threads.pop() {
        answers.push_reserved(done_of(rt, thread, go));
    }
    answers
}

// All actors again: those that are left, and those of the threads behind them.
fn take_back<'s, A: Actor, H: Threads>(
    rt: &H,
    stopped: Stopped<'s, A>,
    actors: &Snapshot<Vec<A>>,
) -> Vec<A>
    requires back { stopped.order.value ≡ false }
    requires from { AreFrom stopped.order.of stopped.left.items actors.now.value.items
        (map (λ t. t.promise) stopped.threads.items) }
    requires room { vec_len stopped.left + vec_len stopped.threads ≤ vec_capacity stopped.left }
    ensures { result.items ≡ actors.now.value.items }
{
    let Stopped {
        order,
        left: mut actors_back,
        mut threads,
    } = stopped;
    while let Some(thread) = threads.pop() {
        actors_back.push_reserved(actor_of(rt, thread, &order));
    }
    actors_back
}

// Runs the actors in threads of this scope.
fn run_in<'s, E: 's, A: Actor + Send + 's, H: Threads + Wait + Sync>(
    rt: &'s H,
    scope: &Scope<'s, E>,
    gate: &'s OnceLock<bool>,
    alloc: Global,
    actors: Vec<A>,
) -> Result<Vec<A::Done>, NotStarted<A>>
    ensures done { IfOk result (λ answers. AllZip A.gives actors.items answers.items) }
    ensures back { IfErr result (λ not_started. unstarted not_started ≡ actors.items) }
{
    let Ok(threads) = Vec::with_capacity(alloc, actors.len()) else {
        return Err(NotStarted::Memory(actors));
    };
    let Ok(answers) = Vec::with_capacity(alloc, actors.len()) else {
        return Err(NotStarted::Memory(actors));
    };
    let all = Snapshot::of(&actors);
    match start_all(rt, scope, gate, actors, threads) {
        Ok(threads) => {
            let go = give_order(rt, gate, true);
            Ok(join_all(rt, threads, &go, answers, &all))
        }
        Err(stopped) => Err(NotStarted::Refused(take_back(rt, stopped, &all))),
    }
}

// Runs every actor beside the others and waits for all, or runs none. All memory is taken before the first starts.
pub(crate) fn run_together<A: Actor + Send, H: Threads + Wait + Sync>(
    rt: &H,
    alloc: Global,
    actors: Vec<A>,
) -> Result<Vec<A::Done>, NotStarted<A>>
    ensures done { IfOk result (λ answers. AllZip A.gives actors.items answers.items) }
    ensures back { IfErr result (λ not_started. unstarted not_started ≡ actors.items) }
{
    let lock = OnceLock::new();
    let gate = &lock;
    thread::scope(
        thread::scope_env(),
        rt,
        move |scope| -> Result<Vec<A::Done>, NotStarted<A>>
            ensures { IfOk result (λ answers. AllZip A.gives actors.items answers.items) ×
                IfErr result (λ not_started. unstarted not_started ≡ actors.items) }
        { run_in(rt, scope, gate, alloc, actors) },
    )
}
