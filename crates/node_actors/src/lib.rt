// What the threads of a running node stand on, and what each of them does. A spawner runs all its actors beside one
// another, or none of them; a queue brings what each listener pushes to a worker in that listener's order, and then its
// end mark; and each actor of a node is one caller of every shard.
#![tactic(auto)]

mod actors;
mod queues;
mod spawner;
#[cfg(test)]
mod tests;

pub use actors::{
    Connector, Dealer, Dealt, Ending, Fate, Feed, Feeder, Gate, Keeper, Left, LeftBy, Listener,
    NodeActor, OpenGate, Rotator, Seat, ShardLock, ShardPass, Spare, Taken, Taking, Work, Worker,
    hand_back, nobody_ended, stays_drained,
};
pub use queues::{Arrival, Bell, Full, Item, PacketQueue, Receiver, Sender, Sent};
pub use spawner::{Actor, NotRun, Spawner, ThreadSpawner};
