// What the calls of a node answer.
use epoch_keys::KeyFault;
use mix_shard::Denied;
use sphinx_unwrap::Refused;
use std::alloc::AllocError;
use thiserror::Error;

/// What a worker's unwrapping came to.
#[derive(Clone, Copy, Debug, PartialEq, Eq)]
pub enum Peeled {
    /// The worker holds the packet of this arrival.
    Holding { number: u64 },
    /// The packet of this arrival is refused, and gone.
    Refused { number: u64, why: Refused },
    /// Nothing waits.
    Idle,
    /// The worker holds a packet already.
    Busy,
}

/// Why a worker unwraps nothing. What waits goes on waiting.
#[derive(Clone, Copy, Debug, PartialEq, Eq, Error)]
pub enum NodePeel {
    /// The words of this epoch, which was live at the receipt, make no key pair.
    #[error("no key for epoch {epoch}")]
    NoKey { epoch: u64 },
    #[error("want of memory")]
    Memory,
}

impl From<KeyFault> for NodePeel {
    ghost use Rattle.std.specs.Prelude.{◌≡◌};
    ghost use Rattle.node_core.specs.Steps.{of_keys};

    ghost from_gives = { λ fault answer. answer ≡ of_keys fault };

    fn from(fault: KeyFault) -> Self {
        match fault {
            KeyFault::NoKey { epoch } => NodePeel::NoKey { epoch },
            KeyFault::Memory => NodePeel::Memory,
        }
    }
}

impl From<AllocError> for NodePeel {
    ghost use Rattle.std.specs.Prelude.{◌≡◌};
    ghost use Rattle.node_core.specs.declared.answers.NodePeel.TheVariants as faults;

    ghost from_gives = { λ _ fault. fault ≡ faults.Memory };

    fn from(_: AllocError) -> Self {
        NodePeel::Memory
    }
}

/// What a worker's claim came to.
#[derive(Clone, Copy, Debug, PartialEq, Eq)]
pub enum Claimed {
    /// The packet of this arrival is held until it is due.
    Accepted { number: u64 },
    /// The packet of this arrival was claimed at the shard of this place, and is refused, and gone.
    Denied { number: u64, shard: u8, why: Denied },
    /// The worker holds nothing.
    Empty,
}
