// Why the calls of a shard are refused.
ghost use Rattle.std.specs.Prelude.{◌≡◌};

use mix_base::Memory;
use spent_store::{ClaimFault, OpenStore, RetireFault};
use sphinx_unwrap::{Refused, UnwrapFault};
use thiserror::Error;

/// Why `peel` gives no packet.
#[derive(Clone, Copy, Debug, PartialEq, Eq, Error)]
pub enum PeelFault {
    #[error("{0}")]
    Refused(Refused),
    #[error("want of memory")]
    Memory,
}

impl From<UnwrapFault> for PeelFault {
    ghost use Rattle.mix_shard.specs.Faults.{of_unwrapping};

    ghost from_gives = { λ fault answer. answer ≡ of_unwrapping fault };

    fn from(fault: UnwrapFault) -> Self {
        match fault {
            UnwrapFault::Refused(why) => PeelFault::Refused(why),
            UnwrapFault::Memory => PeelFault::Memory,
        }
    }
}

/// Why `admit` refuses a packet. The packet is gone then. A claim's causes come in this order; `Disk` and `Journal` may
/// come before them, from the opening of the journal, and `Disk` also after them.
#[derive(Clone, Copy, Debug, PartialEq, Eq, Error)]
pub enum Denied {
    /// The epoch is below the floor.
    #[error("the packet's epoch is below the floor, {floor}")]
    Retired { floor: u64 },
    /// The pair of epoch and tag was claimed before.
    #[error("the packet's tag is spent")]
    Spent,
    /// There is no room for the tag, or for what its claim needs before.
    #[error("the shard has no room for the packet's tag")]
    ShardFull,
    #[error("the disk failed")]
    Disk,
    /// The disk holds what no store of this shape has written.
    #[error("the journal isn't this shard's: {0}")]
    Journal(OpenStore),
    #[error("want of memory")]
    Memory,
}

impl From<ClaimFault> for Denied {
    ghost use Rattle.mix_shard.specs.Faults.{of_claim};

    ghost from_gives = { λ fault answer. answer ≡ of_claim fault };

    fn from(fault: ClaimFault) -> Self {
        match fault {
            ClaimFault::Retired { floor } => Denied::Retired { floor },
            ClaimFault::Spent => Denied::Spent,
            ClaimFault::ShardFull => Denied::ShardFull,
            ClaimFault::Failed => Denied::Disk,
        }
    }
}

impl From<OpenStore> for Denied {
    ghost use Rattle.mix_shard.specs.Faults.{denied_opening};

    ghost from_gives = { λ fault answer. answer ≡ denied_opening fault };

    fn from(fault: OpenStore) -> Self {
        match fault {
            OpenStore::Failed => Denied::Disk,
            OpenStore::Memory => Denied::Memory,
            OpenStore::Foreign { area, at } => Denied::Journal(OpenStore::Foreign { area, at }),
            OpenStore::OtherShape { stored } => Denied::Journal(OpenStore::OtherShape { stored }),
        }
    }
}

impl From<Memory> for Denied {
    ghost use Rattle.mix_shard.specs.declared.faults.Denied.TheVariants as faults;

    ghost from_gives = { λ _ fault. fault ≡ faults.Memory };

    fn from(_: Memory) -> Self {
        Denied::Memory
    }
}

/// Why `rotate` raises no floor. `Disk` and `Journal` may come from the opening of the journal, and `Disk` also after it.
#[derive(Clone, Copy, Debug, PartialEq, Eq, Error)]
pub enum RotateFault {
    /// The floor would rise, and the root has no room for it.
    #[error("the journal's root has no room for the floor")]
    RootFull,
    #[error("the disk failed")]
    Disk,
    /// The disk holds what no store of this shape has written.
    #[error("the journal isn't this shard's: {0}")]
    Journal(OpenStore),
    #[error("want of memory")]
    Memory,
}

impl From<RetireFault> for RotateFault {
    ghost use Rattle.mix_shard.specs.Faults.{of_retirement};

    ghost from_gives = { λ fault answer. answer ≡ of_retirement fault };

    fn from(fault: RetireFault) -> Self {
        match fault {
            RetireFault::RootFull => RotateFault::RootFull,
            RetireFault::Failed => RotateFault::Disk,
        }
    }
}

impl From<OpenStore> for RotateFault {
    ghost use Rattle.mix_shard.specs.Faults.{rotate_opening};

    ghost from_gives = { λ fault answer. answer ≡ rotate_opening fault };

    fn from(fault: OpenStore) -> Self {
        match fault {
            OpenStore::Failed => RotateFault::Disk,
            OpenStore::Memory => RotateFault::Memory,
            OpenStore::Foreign { area, at } => RotateFault::Journal(OpenStore::Foreign {
                area,
                at,
            }),
            OpenStore::OtherShape { stored } => RotateFault::Journal(OpenStore::OtherShape {
                stored,
            }),
        }
    }
}

impl From<Memory> for RotateFault {
    ghost use Rattle.mix_shard.specs.declared.faults.RotateFault.TheVariants as faults;

    ghost from_gives = { λ _ fault. fault ≡ faults.Memory };

    fn from(_: Memory) -> Self {
        RotateFault::Memory
    }
}
