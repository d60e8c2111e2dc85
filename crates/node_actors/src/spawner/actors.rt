// What is run, and what comes back where it wasn't.

/// A part of a program that runs in a thread of its own until it is done.
pub trait Actor: Drop {
    /// What it leaves.
    type Done: Send + Drop;

    /// Which answers the actor may give.
    ghost gives: { Self → Self.Done → Type 0 };

    /// Runs to its end.
    fn act(self) -> Self::Done
        ensures { gives self result };
}

/// No actor was run: these are all of them, as they were and in their order.
#[derive(Drop)]
pub enum NotRun<A> {
    /// The spawner failed.
    Failed(Vec<A>),
    Memory(Vec<A>),
}
