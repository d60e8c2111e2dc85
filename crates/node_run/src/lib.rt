// A node with threads.
#![tactic(auto)]

mod life;
mod roles;
#[cfg(test)]
mod tests;

pub use life::{LifeEnd, LifeFault, NodeEnd, NodeSeat, node_life};
pub use roles::Role;
