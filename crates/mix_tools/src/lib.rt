// The tools beside a node: the keys of an epoch, packets and reply blocks made from a request, blocks answered and
// replies opened. Each command reads its whole input before it writes, and writes exactly the text that its definition
// in specs/ has.
#![tactic(auto)]

mod commands;
mod drafts;
mod first_lines;
mod make_lines;
mod packets;
mod reading;
mod replies;
mod reply_lines;
mod requests;
#[cfg(test)]
mod tests;
mod texts;
mod tools;

pub use tools::tool;
