// Reply blocks, each made for one answer. Who has a block answers without knowing the way, and who made it opens what
// comes back: an answer that went along the block's path opens to the body that was answered.
#![tactic(auto)]

mod answering;
mod blocks;
mod faults;
mod opening;
#[cfg(test)]
mod tests;

pub use answering::{Answered, answer};
pub use blocks::{BlockKeys, MadeBlock, make_block};
pub use faults::{AnswerFault, OpenFault};
pub use opening::open_reply;
