// Held packets until they are due: a bag of items, of which the first that is due for a destination is taken. The queue
// takes memory for an item before it is put in, so that a packet is held or refused, and never lost between.
#![tactic(auto)]

mod destinations;
mod queue;
#[cfg(test)]
mod tests;

pub use destinations::Dest;
pub use queue::{Due, DueQueue, Next};
