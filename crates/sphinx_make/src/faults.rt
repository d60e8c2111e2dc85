// Why no packet is made: one of the refusals, or want of memory.
ghost use Rattle.std.specs.Prelude.{◌≡◌};
ghost use Rattle.sphinx_make.specs.declared.faults.MakeFault.TheVariants.{Memory as want_of_memory};

use mix_base::Memory;
use std::alloc::{AllocError, AllocFailed};
use thiserror::Error;

/// Why no packet is made. The first of these causes, in this order, is the answer; hops are counted from 0.
#[derive(Clone, Copy, Debug, PartialEq, Eq, Error)]
pub enum MakeFault {
    /// The path has no hop, or more than the geometry allows.
    #[error("the path has no hop, or more than the geometry allows")]
    PathLength,
    /// The body hasn't the geometry's length.
    #[error("the body hasn't the geometry's length")]
    BodyLength,
    /// The reply block hasn't the geometry's length.
    #[error("the reply block hasn't the geometry's length")]
    BlockLength,
    /// This hop is the first whose delay is too long.
    #[error("the delay of hop {hop} is too long")]
    Delay { hop: usize },
    /// This hop is the first whose public key has another length than the suite's, or doesn't decode.
    #[error("the public key of hop {hop} has another length, or doesn't decode")]
    KeyForm { hop: usize },
    #[error("want of memory")]
    Memory,
}

impl From<AllocError> for MakeFault {
    ghost from_gives = { λ _ fault. fault ≡ want_of_memory };

    fn from(_: AllocError) -> Self {
        MakeFault::Memory
    }
}

impl From<Memory> for MakeFault {
    ghost from_gives = { λ _ fault. fault ≡ want_of_memory };

    fn from(_: Memory) -> Self {
        MakeFault::Memory
    }
}

impl<T: Drop> From<AllocFailed<T>> for MakeFault {
    ghost from_gives = { λ _ fault. fault ≡ want_of_memory };

    fn from(_: AllocFailed<T>) -> Self {
        MakeFault::Memory
    }
}
