// What every layer speaks of: want of memory, failures of the outside, bytes and words, the parts of a
// cipher suite, sources and sinks. Each trait says what an outside object may do, and counts its failures.
#![tactic(auto)]

mod byte_lists;
mod faults;
mod past;
mod reading;
mod shards;
mod stories;
mod suites;
#[cfg(test)]
mod tests;
mod word_streams;
mod writing;

pub use byte_lists::{Bytes, copy_front, is_zero, xor_into};
pub use faults::{Failed, Memory};
pub use past::History;
pub use reading::{MemSource, Source};
pub use shards::Shape;
pub use stories::Storied;
pub use suites::{EncapFault, HopKeys, Kdf, Kem, Mac, PairFault, Stream, Suite, Wide};
pub use word_streams::{ListWords, Words, draw, next_words, skip_words, write_words};
pub use writing::{MemSink, PutFault, Sink};
