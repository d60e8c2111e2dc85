// The form of a packet: the lengths of its parts, and the commands that say what a hop does with it. Every length
// is by its formula. Commands have one spelling of 72 bytes, and no bytes spell two.
#![tactic(auto)]

mod commands;
mod faults;
mod packet_sizes;
#[cfg(test)]
mod tests;

pub use commands::{Cmds, Exit, LONGEST_DELAY, read_cmds, write_cmds};
pub use faults::GeometryFault;
pub use packet_sizes::Geometry;
