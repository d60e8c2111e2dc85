// A log of records of one size on an area of a disk. At every moment of a call its records are the old ones, or the
// old ones and the new one, whatever a crash leaves.
#![tactic(auto)]

mod faults;
mod log;
mod reading;
mod scan;
mod steps;
#[cfg(test)]
mod tests;

pub use faults::{LogAppend, LogOpen, LogRead};
pub use log::{GateLog, OpenedLog, ReadRecords};
pub use reading::ReadLog;
