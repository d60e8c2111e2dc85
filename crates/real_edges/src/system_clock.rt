// The system's clock, as moments.
ghost use Rattle.std.specs.Prelude.{◌<◌, ◌^◌};

use mix_links::Clock;
use std::time;

/// The number of moments: they are below it.
const MOMENTS: u128 = 1 << 60;

/// The milliseconds since 1970 by the system's clock, modulo 2^60, and 0 where it can't be read. It may give any moment.
#[derive(Drop)]
pub struct SystemClock<'a, H: time::Clock> {
    rt: &'a H,
}

impl<'a, H: time::Clock> SystemClock<'a, H> {
    pub fn new(rt: &'a H) -> SystemClock<'a, H> {
        SystemClock { rt }
    }
}

impl<'a, H: time::Clock> Clock for SystemClock<'a, H> {
    ghost may_give = { λ _ moment. moment < 2 ^ 60 };

    fn now(&self) -> u64 {
        match self.rt.since_1970() {
            Ok(since) => (since.as_millis() % MOMENTS) as u64,
            Err(_) => 0,
        }
    }
}
