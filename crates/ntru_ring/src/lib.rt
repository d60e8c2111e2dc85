// Arithmetic in the rings Z/3[x]/(x^761 - x - 1) and Z/4591[x]/(x^761 - x - 1), whose polynomials are lists of
// 761 centred coefficients. Each call gives exactly what its definition on lists of integers gives.
#![tactic(auto)]

mod coefficients;
mod polynomials;
mod products;
#[cfg(test)]
mod tests;

pub use coefficients::{lift, reduce_3, round_q, triple, weight};
pub use polynomials::{Poly3, PolyQ};
pub use products::{mul_3, mul_q};
