// The three byte forms of the ring's polynomials. What is written is read again, and what is read was written so:
// each polynomial has one spelling in each form.
#![tactic(auto)]

mod decoding;
mod encoding;
mod faults;
mod forms;
mod packing;
#[cfg(test)]
mod tests;

pub use decoding::{decode_q, decode_rounded, decode_small};
pub use encoding::{encode_q, encode_rounded, encode_small};
pub use faults::{CodeFault, Range};
