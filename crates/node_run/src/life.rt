// The life of a network's nodes.
mod closing;
mod crews;
mod ending;
mod gathering;
mod halls;
mod houses;
mod living;
mod locking;
mod opening;
mod partings;
mod posts;
mod queues;
mod rooms;
mod running;
mod seats;
mod settling;
mod staffing;
mod unused;

pub use living::node_life;
pub use seats::{LifeEnd, LifeFault, NodeEnd, NodeSeat};
