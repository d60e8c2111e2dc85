// Why the calls of a store are refused.
ghost use Rattle.std.specs.Prelude.{◌≡◌};
ghost use Rattle.spent_store.specs.declared.faults.OpenStore.TheVariants as faults;
ghost use Rattle.spent_store.specs.Faults.{answered, reading_fault};

use gate_log::LogRead;
use mix_base::{Failed, Memory, Shape};
use std::alloc::AllocError;
use thiserror::Error;

/// Why the bytes of three areas aren't a store of the asked shape.
#[derive(Clone, Copy, Debug, PartialEq, Eq, Error)]
pub enum Objection {
    /// No store writes such bytes: the area, and the place in it of the first that isn't as it must be.
    #[error("no store writes such bytes: area {area}, place {at}")]
    Foreign { area: u8, at: u64 },
    /// The store was made for another shape.
    #[error("the store was made for another shape")]
    OtherShape { stored: Shape },
}

/// Why a store isn't opened, or its book not told.
#[derive(Clone, Copy, Debug, PartialEq, Eq, Error)]
pub enum OpenStore {
    /// The rack failed.
    #[error("the disk failed")]
    Failed,
    /// No store writes such bytes: the area, and the place in it of the first that isn't as it must be.
    #[error("no store writes such bytes: area {area}, place {at}")]
    Foreign { area: u8, at: u64 },
    /// The store was made for another shape.
    #[error("the store was made for another shape")]
    OtherShape { stored: Shape },
    #[error("want of memory")]
    Memory,
}

impl From<Objection> for OpenStore {
    ghost from_gives = { λ objection fault. fault ≡ answered objection };

    fn from(objection: Objection) -> Self {
        match objection {
            Objection::Foreign { area, at } => OpenStore::Foreign { area, at },
            Objection::OtherShape { stored } => OpenStore::OtherShape { stored },
        }
    }
}

impl From<LogRead> for OpenStore {
    ghost from_gives = { λ fault answer. answer ≡ reading_fault fault };

    fn from(fault: LogRead) -> Self {
        match fault {
            LogRead::Failed => OpenStore::Failed,
            LogRead::Memory => OpenStore::Memory,
        }
    }
}

impl From<AllocError> for OpenStore {
    ghost from_gives = { λ _ fault. fault ≡ faults.Memory };

    fn from(_: AllocError) -> Self {
        OpenStore::Memory
    }
}

impl From<Failed> for OpenStore {
    ghost from_gives = { λ _ fault. fault ≡ faults.Failed };

    fn from(_: Failed) -> Self {
        OpenStore::Failed
    }
}

impl From<Memory> for OpenStore {
    ghost from_gives = { λ _ fault. fault ≡ faults.Memory };

    fn from(_: Memory) -> Self {
        OpenStore::Memory
    }
}

/// Why a claim isn't accepted. The first of these causes, in this order, is the answer.
#[derive(Clone, Copy, Debug, PartialEq, Eq, Error)]
pub enum ClaimFault {
    /// The epoch is below the floor.
    #[error("the epoch is below the floor, {floor}")]
    Retired { floor: u64 },
    /// The pair of epoch and tag was spent before.
    #[error("the tag was spent before")]
    Spent,
    /// The epoch's log is full, or the root has no room for what the claim needs.
    #[error("the store is full")]
    ShardFull,
    /// The rack failed. The store must be opened again.
    #[error("the disk failed")]
    Failed,
}

/// Why the floor isn't raised.
#[derive(Clone, Copy, Debug, PartialEq, Eq, Error)]
pub enum RetireFault {
    /// The root has no room for a record.
    #[error("the root is full")]
    RootFull,
    /// The rack failed. The store must be opened again.
    #[error("the disk failed")]
    Failed,
}
