// Why there are no epochs of these lengths, and why there is no key.
ghost use Rattle.std.specs.Prelude.{◌≡◌};

use std::alloc::{AllocError, AllocFailed};
use thiserror::Error;

/// Why there are no epochs of these lengths.
#[derive(Clone, Copy, Debug, PartialEq, Eq, Error)]
pub enum TimesFault {
    /// The length of an epoch isn't 4 to 2^40 milliseconds.
    #[error("an epoch isn't 4 to 2^40 milliseconds long")]
    Epoch,
    /// The grace is longer than a quarter of an epoch.
    #[error("the grace is longer than a quarter of an epoch")]
    Grace,
}

/// Why a call gave no key pair.
#[derive(Clone, Copy, Debug, PartialEq, Eq, Error)]
pub enum KeyFault {
    /// The words of this epoch make no pair in the suite's mechanism.
    #[error("epoch {epoch} has no key pair")]
    NoKey { epoch: u64 },
    #[error("want of memory")]
    Memory,
}

impl From<AllocError> for KeyFault {
    ghost use Rattle.epoch_keys.specs.declared.faults.KeyFault.TheVariants as faults;

    ghost from_gives = { λ _ fault. fault ≡ faults.Memory };

    fn from(_: AllocError) -> Self {
        KeyFault::Memory
    }
}

impl<T: Drop> From<AllocFailed<T>> for KeyFault {
    ghost use Rattle.epoch_keys.specs.declared.faults.KeyFault.TheVariants as faults;

    ghost from_gives = { λ _ fault. fault ≡ faults.Memory };

    fn from(_: AllocFailed<T>) -> Self {
        KeyFault::Memory
    }
}
