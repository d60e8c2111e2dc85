// Links on which nothing comes.
ghost use Rattle.std.specs.Prelude.{None};

use anyhow::Result;
use mix_links::{Arrived, LinkIn};
use std::alloc::Global;
use std::thread;
use std::time::{Clock, Duration};

/// A link that brings nothing for so many seconds, and then ends.
#[derive(Drop)]
pub struct Quiet<'a, H: Clock> {
    rt: &'a H,
    seconds: u32,
}

impl<'a, H: Clock> LinkIn for Quiet<'a, H> {
    ghost left = { λ _. None };

    ghost faults = { λ _. 0 };

    fn next_packet(&mut self, _buf: &mut [u8]) -> Arrived {
        thread::sleep(self.rt, Duration::from_secs(u64::from(self.seconds)));
        Arrived::End { cut: 0 }
    }
}

/// Two links that are quiet for so many seconds.
pub fn quiet_links<H: Clock>(rt: &H, alloc: Global, seconds: u32) -> Result<Vec<Quiet<'_, H>>> {
    Ok(vec![in alloc; Quiet { rt, seconds }, Quiet { rt, seconds }]?)
}
