// What a round over a node's shards comes to, and how long to wait for the next.
ghost use Rattle.std.specs.Prelude.{◌≡◌, ◌+◌, ◌-◌, ◌^◌, min};
ghost use Rattle.node_actors.specs.Takings.{not_sent};

use crate::queues::bell::Bell;
use std::sync::Wait;

/// How many milliseconds to sleep at most while packets wait, and while none does.
const SOON: u64 = 1;

const LATER: u64 = 20;

/// From what calls for another round at once to what ends them.
#[derive(Clone, Copy, Debug, PartialEq, Eq)]
pub(crate) enum Sight {
    /// A packet was taken out.
    Moved,
    /// Packets wait, and none is due.
    Waiting,
    /// Nothing is held.
    Empty,
    /// Nothing is held, and nothing will be.
    Drained,
}

impl Sight {
    /// What both come to.
    pub(crate) fn with(self, other: Sight) -> Sight {
        match (self, other) {
            (Sight::Moved, _) | (_, Sight::Moved) => Sight::Moved,
            (Sight::Waiting, _) | (_, Sight::Waiting) => Sight::Waiting,
            (Sight::Empty, _) | (_, Sight::Empty) => Sight::Empty,
            _ => Sight::Drained,
        }
    }
}

/// Sleeps, where nothing was found, until something may have changed. Says whether another round is due.
pub(crate) fn goes_on<H: Wait>(rt: &H, claims: &Bell, heard: u64, sight: Sight) -> bool {
    match sight {
        Sight::Moved => true,
        Sight::Waiting => {
            claims.doze(rt, heard, SOON);
            true
        }
        Sight::Empty => {
            claims.doze(rt, heard, LATER);
            true
        }
        Sight::Drained => false,
    }
}

/// The count of packets that weren't handed on, with this one.
pub(crate) fn unsent_with(unsent: u64, sent: bool) -> u64
    ensures { result ≡ min (unsent + not_sent sent) (2 ^ 64 - 1) }
{
    if sent {
        unsent
    } else {
        unsent.saturating_add(1)
    }
}
