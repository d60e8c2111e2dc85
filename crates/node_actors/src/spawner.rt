// Actors that run beside one another, each in a thread of its own. Either all run, and each has given its answer when
// the call returns, or no actor has run, and the caller has them all back.
mod actors;
mod running;
mod spawners;
mod threads;

pub use actors::{Actor, NotRun};
pub use spawners::Spawner;
pub use threads::ThreadSpawner;
