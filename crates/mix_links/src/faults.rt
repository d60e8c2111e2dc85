// Why a net made no line.
ghost use Rattle.std.specs.Prelude.{◌≡◌};
ghost use Rattle.mix_links.specs.declared.faults.LineFailed.TheVariants.{Memory as want_of_memory};

use mix_base::Memory;
use std::alloc::AllocError;
use thiserror::Error;

/// Why a net made no line.
#[derive(Clone, Copy, Debug, PartialEq, Eq, Error)]
pub enum LineFailed {
    /// The net failed.
    #[error("the net failed")]
    Failed,
    #[error("want of memory")]
    Memory,
}

impl From<AllocError> for LineFailed {
    ghost from_gives = { λ _ e. e ≡ want_of_memory };

    fn from(_: AllocError) -> Self {
        LineFailed::Memory
    }
}

impl From<Memory> for LineFailed {
    ghost from_gives = { λ _ e. e ≡ want_of_memory };

    fn from(_: Memory) -> Self {
        LineFailed::Memory
    }
}
