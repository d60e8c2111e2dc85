// The key encapsulation mechanism after sntrup4591761, on the ring and its byte forms, and the suite that it makes
// with the standard parts. What each call gives is what the definition on lists gives, and each refusal comes exactly
// where the definition has no value.
#![tactic(auto)]

mod drawing;
mod faults;
mod inverses;
mod mechanism;
mod opening;
mod pairs;
mod reading;
mod sealing;
#[cfg(test)]
mod tests;

pub use mechanism::{NtruKem, NtruSuite};
pub use reading::is_public_key;
