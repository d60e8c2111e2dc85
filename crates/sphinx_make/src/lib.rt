// Packets made for a path of hops: the delays that a maker draws, and the nested path that a packet is made for.
#![tactic(auto)]

mod drawing;
mod faults;
mod header;
mod packet;
mod path;
mod payload;
mod routing;
mod sealing;
#[cfg(test)]
mod tests;

pub use drawing::{Draw, draw_delay};
pub use faults::MakeFault;
pub use header::{MadeHeader, make_header};
pub use packet::make_packet;
pub use path::HopSpec;
pub use payload::{encrypt_along, spell_payload};
