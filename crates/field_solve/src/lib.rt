// Inverses in the ring Z[x]/(x^761 - x - 1), modulo 3 and modulo 4591, by elimination over a prime field. Each
// polynomial has an inverse, which is found, or divides 0, and then a factor other than 0 is found.
#![tactic(auto)]

mod elimination;
mod fields;
mod powers;
mod rows;
#[cfg(test)]
mod tests;

pub use elimination::{Solved, invert};
pub use fields::Modulus;
