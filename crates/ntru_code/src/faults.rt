// How reading a byte form can fail.
use mix_base::Memory;
use std::alloc::{AllocError, AllocFailed};
use thiserror::Error;

/// A field is out of range, the first that is. In the small form the bits that are left over count as a field
/// behind the last, 761, that must be 0.
#[derive(Clone, Copy, Debug, PartialEq, Eq, Error)]
#[error("field {index} is out of range")]
pub struct Range {
    pub index: usize,
}

/// Why bytes were not read: a field out of range, or want of memory.
#[derive(Clone, Copy, Debug, PartialEq, Eq, Error)]
pub enum CodeFault {
    #[error("{0}")]
    Range(Range),
    #[error("want of memory")]
    Memory,
}

impl From<Range> for CodeFault {
    ghost use Rattle.std.specs.Prelude.{◌≡◌};
    ghost use Rattle.ntru_code.specs.declared.faults.CodeFault.TheVariants as faults;

    ghost from_gives = { λ range fault. fault ≡ faults.Range range };

    fn from(range: Range) -> Self {
        CodeFault::Range(range)
    }
}

impl From<Memory> for CodeFault {
    ghost use Rattle.std.specs.Prelude.{◌≡◌};
    ghost use Rattle.ntru_code.specs.declared.faults.CodeFault.TheVariants as faults;

    ghost from_gives = { λ _ fault. fault ≡ faults.Memory };

    fn from(_: Memory) -> Self {
        CodeFault::Memory
    }
}

impl From<AllocError> for CodeFault {
    ghost use Rattle.std.specs.Prelude.{◌≡◌};
    ghost use Rattle.ntru_code.specs.declared.faults.CodeFault.TheVariants as faults;

    ghost from_gives = { λ _ fault. fault ≡ faults.Memory };

    fn from(_: AllocError) -> Self {
        CodeFault::Memory
    }
}

impl<T: Drop> From<AllocFailed<T>> for CodeFault {
    ghost use Rattle.std.specs.Prelude.{◌≡◌};
    ghost use Rattle.ntru_code.specs.declared.faults.CodeFault.TheVariants as faults;

    ghost from_gives = { λ _ fault. fault ≡ faults.Memory };

    fn from(_: AllocFailed<T>) -> Self {
        CodeFault::Memory
    }
}
