// The queue between a node's listeners and one of its workers. What comes out of it of each listener is a front of what
// that listener pushed, in its order, and the end mark is its last push. So whoever has popped a mark of each listener
// has popped all that each of them pushed.
pub(crate) mod bell;
mod ends;
mod hands;
mod items;
mod packet_queue;

pub use bell::Bell;
pub use ends::{Receiver, Sender};
pub use hands::Sent;
pub use items::{Arrival, Full, Item};
pub use packet_queue::PacketQueue;
