//! Epochs of time, and the key pairs that a node has in them. Which epochs are live at a moment is exact, and so is
//! the pair of each: it is derived from the node's seed and the epoch's number, for every suite.
#![tactic(auto)]

mod epochs;
mod faults;
mod pairs;
mod ring;
#[cfg(test)]
mod tests;
mod times;

pub use epochs::{least_live, live};
pub use faults::{KeyFault, TimesFault};
pub use pairs::{EpochKey, epoch_pair};
pub use ring::{KeyRing, Keys};
pub use times::{Live, Times};
