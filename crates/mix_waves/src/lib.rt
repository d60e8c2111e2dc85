//! The two waves of a run, without its threads: the network that settings describe, the messages that its client sends and
//! the replies to them, what became of both, and the report. Each call gives exactly what its definition in specs/ has.
#![tactic(auto)]

mod drawing;
mod fates;
mod network;
mod report;
mod sending;
#[cfg(test)]
mod tests;

pub use fates::{MessageFate, ReplyFate, deliveries, message_fates, replies};
pub use network::{first_disk, geometry, node_id, node_keys, node_number, node_seed, times};
pub use report::{ReportLine, ShardCount, report_lines, write_report};
pub use sending::{Message, first_wave};
