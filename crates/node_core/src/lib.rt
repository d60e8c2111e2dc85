//! A node without threads: arrivals, four workers and shards. Each call is one event, and does what the definition's step
//! does to the node's own state.
#![tactic(auto)]

mod answers;
mod arrivals;
mod hand_on;
mod node;
mod setup;
#[cfg(test)]
mod tests;

pub use answers::{Claimed, NodePeel, Peeled};
pub use hand_on::{write_hand_on, write_held};
pub use node::Node;
pub use setup::NodeSetup;
