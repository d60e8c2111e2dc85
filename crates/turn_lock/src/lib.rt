// A lock that hands one value from caller to caller. What a caller is given begins with all that it had seen
// before, and what follows was done by others, so a caller who gave back a value finds again what it did to it.
// Nothing is promised of who comes first, of how long anyone waits, or that callers who hold several locks get on.
#![tactic(auto)]

mod lock;
mod steps;
#[cfg(test)]
mod tests;
mod view;

pub use lock::{MadeLock, Pass, TurnLock};
