// One layer of a Sphinx packet, taken off with a hop's secret key: either what the hop hands on, or the first
// refusal. Both are exactly those of the definitions in specs/, for every packet and every suite.
#![tactic(auto)]

mod faults;
mod layer;
mod outcome;
#[cfg(test)]
mod tests;
mod unwrapping;

pub use faults::{Refused, UnwrapFault};
pub use outcome::{Opened, Out};
pub use unwrapping::unwrap;
