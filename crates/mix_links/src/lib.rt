// What a node stands on besides its disks: links that carry packets, a clock, and a net that makes links. Each
// trait says what an outside object may do and counts its failures. `ListIn`, `ListOut` and `StepClock` tell
// contracts what they have; the lines of `MemNet` wait for their other end, and tell nothing.
#![tactic(auto)]

mod clock;
mod faults;
mod links;
mod lists;
mod net;
mod pipe;
#[cfg(test)]
mod tests;

pub use clock::{Clock, StepClock};
pub use faults::LineFailed;
pub use links::{Arrived, LinkIn, LinkOut};
pub use lists::{ListIn, ListOut};
pub use net::{MemIn, MemNet, MemOut, Net};
