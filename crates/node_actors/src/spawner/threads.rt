// The spawner that starts a thread for each actor.
ghost use Rattle.std.specs.Prelude.{◌≡◌, ℕ, ◌+◌, ◌-◌, ◌^◌, ◌≤◌, min, IsTrue, IsFalse, Contains};
ghost use Rattle.mix_base.specs.Faults.{Rose, one_more};
ghost use Rattle.node_actors.specs.Spawners.{SpawnerState, CountsCall};

use crate::spawner::spawners::Spawner;
use std::marker::Model;
use std::sync::Wait;
use std::thread::Threads;

/// Starts a thread for each actor. It numbers its calls from 1, and those that are listed fail. Any other call fails
/// only where a thread can't be started.
#[derive(Drop)]
pub struct ThreadSpawner<'a, H: Threads + Wait> {
    rt: &'a H,
    failing: Vec<u64>,
    calls: u64,
    faults: u64,
}

impl<'a, H: Threads + Wait> Model for ThreadSpawner<'a, H> {
    ghost use Rattle.node_actors.specs.Spawners.{SpawnerState};

    ghost Value = { SpawnerState };

    ghost view = { λ s. record { failing = s.failing.items; calls = s.calls; faults = s.faults } };
}

impl<'a, H: Threads + Wait> ThreadSpawner<'a, H> {
    /// Has run nothing. Takes no memory.
    pub fn new(rt: &'a H, failing: Vec<u64>) -> ThreadSpawner<'a, H>
        ensures { result ≡ record { failing = failing.items; calls = 0; faults = 0 } }
    {
        ThreadSpawner {
            rt,
            failing,
            calls: 0,
            faults: 0,
        }
    }
}

impl<'a, H: Threads + Wait + Sync> Spawner for ThreadSpawner<'a, H> {
    ghost use Rattle.node_actors.specs.Spawners.{IsListed, CountsCall};

    type Handle = H;

    ghost faults = { λ spawner. spawner.faults };

    ghost refuses = { IsListed };

    ghost counts = { CountsCall };

    fn begin(&mut self) -> bool {
        self.calls = self.calls.saturating_add(1);
        !self.failing.contains(&self.calls)
    }

    fn fail(&mut self)
        ensures rose { Rose self.old.faults self.new.faults }
        ensures same { (before : SpawnerState) → CountsCall before self.old →
            CountsCall before self.new }
        ensures one { self.new ≡ record self.old { faults = one_more self.old.faults } }
    {
        self.faults = self.faults.saturating_add(1);
    }

    fn handle(&self) -> &H {
        self.rt
    }
}
