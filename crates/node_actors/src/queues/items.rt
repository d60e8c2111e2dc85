// What lies in a queue.
ghost use Rattle.std.specs.Prelude.{◌<◌, ◌^◌};

use mix_base::Bytes;

/// A packet that arrived: its number in the node, the moment of its receipt in milliseconds, and its bytes.
#[derive(Drop)]
pub struct Arrival {
    pub number: u64,
    pub receipt: u64,
    pub packet: Bytes,
    pub ghost moment: { receipt < 2 ^ 60 },
}

/// An arrival or, where there is none, an end mark, and the number of the sender that pushed it.
#[derive(Drop)]
pub struct Item {
    pub from: u64,
    pub arrival: Option<Arrival>,
}

/// The queue was full: the arrival that wasn't pushed.
#[derive(Drop)]
pub struct Full {
    pub arrival: Arrival,
}
