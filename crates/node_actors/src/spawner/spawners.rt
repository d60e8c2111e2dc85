// Spawners. How actors are run is the same for each of them: another spawner chooses the handle, which of its calls
// fail, and how it counts.
ghost use Rattle.std.specs.Prelude.{◌≡◌, ℕ, ◌≤◌, IsTrue, IsFalse, IfOk, IfErr};
ghost use Rattle.std.specs.List.{AllZip};
ghost use Rattle.mix_base.specs.Faults.{Rose};
ghost use Rattle.node_actors.specs.Spawners.{actors_of, IsFailed, HasFailed};

use crate::spawner::actors::{Actor, NotRun};
use crate::spawner::running::{NotStarted, run_together};
use std::alloc::Global;
use std::sync::Wait;
use std::thread::Threads;

/// Runs all actors beside one another, or none.
pub trait Spawner: Drop {
    /// The runtime whose threads the actors run in.
    type Handle: Threads + Wait + Sync;

    /// How often it has failed, at most 2^64 - 1.
    ghost faults: { Self → ℕ };

    /// Whether the next call of `run_all` fails without running anything.
    ghost refuses: { Self → Type 0 };

    /// What one call of `run_all` makes of the spawner besides its count of faults.
    ghost counts: { Self → Self → Type 0 };

    /// Counts a call of `run_all`, and says whether it may go on.
    fn begin(&mut self) -> bool
        ensures go { IsTrue result → ¬ refuses self.old }
        ensures refused { IsFalse result → refuses self.old }
        ensures counted { counts self.old self.new }
        ensures no_fault { faults self.new ≡ faults self.old };

    /// Counts a failure.
    fn fail(&mut self)
        ensures rose { Rose (faults self.old) (faults self.new) }
        ensures same { (before : Self) → counts before self.old → counts before self.new };

    /// The runtime.
    fn handle(&self) -> &Self::Handle;

    /// Runs every actor beside the others, waits for all, and answers what each gave, in the actors' order. Or it
    /// runs none. It takes all its memory before the first actor acts.
    final fn run_all<A: Actor + Send>(
        &mut self,
        alloc: Global,
        actors: Vec<A>,
    ) -> Result<Vec<A::Done>, NotRun<A>>
        ensures done { IfOk result (λ answers. AllZip A.gives actors.items answers.items) }
        ensures back { IfErr result (λ not_run. actors_of not_run ≡ actors.items) }
        ensures failed { IfErr result (λ not_run.
            IsFailed not_run → Rose (faults self.old) (faults self.new)) }
        ensures refused { refuses self.old → HasFailed result }
        ensures counted { counts self.old self.new }
        ensures count { faults self.old ≤ faults self.new }
    {
        if !self.begin() {
            self.fail();
            return Err(NotRun::Failed(actors));
        }
        match run_together(self.handle(), alloc, actors) {
            Ok(answers) => Ok(answers),
            Err(NotStarted::Refused(actors)) => {
                self.fail();
                Err(NotRun::Failed(actors))
            }
            Err(NotStarted::Memory(actors)) => Err(NotRun::Memory(actors)),
        }
    }
}
