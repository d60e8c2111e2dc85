//! One shard of a node: packets that were unwrapped and wait for their time, the journal of their tags on a disk, and
//! the tale of all that was done to both. A packet is held only where its tag was claimed, and taken out once.
#![tactic(auto)]

mod causes;
mod entries;
mod faults;
mod held;
mod setup;
mod shard;
mod terms;
#[cfg(test)]
mod tests;

pub use entries::{Answer, Entry, Told};
pub use faults::{Denied, PeelFault, RotateFault};
pub use held::{Held, peel};
pub use setup::Setup;
pub use shard::Shard;
pub use terms::Terms;
