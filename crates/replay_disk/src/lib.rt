// A disk that may fail and crash, as a trait with a written meaning, and one in memory that fails and crashes
// just as it is told.
#![tactic(auto)]

mod failures;
mod memory_area;
mod memory_disk;
mod memory_rack;
mod rack;
#[cfg(test)]
mod tests;
mod write_log;

pub use memory_rack::MemRack;
pub use rack::{CrashRack, Rack};
