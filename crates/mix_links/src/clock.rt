// Clocks. A moment is a number below 2^60, in milliseconds.
ghost use Rattle.std.specs.Prelude.{◌≡◌, ℕ, ◌^◌, ◌<◌, ◌≤◌};

use std::marker::Model;
use std::sync::atomic::AtomicU64;
use std::sync::atomic::Ordering::SeqCst;

/// A clock. Nothing is promised of the order of what it gives.
pub trait Clock: Drop {
    /// The moments that it may give.
    ghost may_give: { Self → ℕ → Type 0 };

    /// The moment now.
    fn now(&self) -> u64
        ensures given { may_give self.now result }
        ensures moment { result < 2 ^ 60 };
}

const LAST: u64 = (1 << 60) - 1;

/// A clock that gives its start first and then at each call the next moment, up to 2^60 - 1.
#[derive(Drop)]
pub struct StepClock {
    start: u64,
    // How often it was read, up to the last moment.
    steps: AtomicU64,
}

impl Model for StepClock {
    ghost use Rattle.std.specs.Prelude.{ℕ, ◌<◌, ◌^◌};

    ghost Value = { ℕ };

    ghost view = { λ c. c.start };

    ghost invariant = { λ c. c.start < 2 ^ 60 };
}

impl StepClock {
    /// Gives this moment first.
    pub fn new(start: u64) -> StepClock
        requires { start < 2 ^ 60 }
        ensures { result ≡ start }
    {
        StepClock {
            start,
            steps: AtomicU64::new(0),
        }
    }
}

impl Clock for StepClock {
    ghost may_give = { λ start moment. start ≤ moment };

    fn now(&self) -> u64 {
        let mut steps = self.steps.load(SeqCst);
        if steps < LAST {
            steps = self.steps.fetch_add(1, SeqCst);
        }
        self.start.saturating_add(steps).min(LAST)
    }
}
