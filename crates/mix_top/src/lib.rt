//! The program's top call over a source of bytes, a sink and a bench of disks: a script is read, a node goes through its
//! acts, and the report is written. The promise stands in `specs/Headline.antt`, and is a clause of `mix_command`.
#![tactic(auto)]

mod bench;
mod command;
mod drive;
mod look;
mod reading;
mod receiving;
mod report;
mod serving;
mod storm;
#[cfg(test)]
mod tests;

pub use bench::Bench;
pub use command::mix_command;
