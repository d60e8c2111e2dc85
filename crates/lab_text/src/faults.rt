// Why there is no line, and why words say nothing.
ghost use Rattle.std.specs.Prelude.{◌≡◌};
ghost use Rattle.lab_text.specs.Faults.{fault_at};
ghost use Rattle.lab_text.specs.declared.faults.LineFault.TheVariants as line_faults;
ghost use Rattle.lab_text.specs.declared.faults.WordFault.TheVariants as word_faults;

use mix_base::{Failed, Memory};
use std::alloc::AllocError;
use thiserror::Error;

/// Why there is no line, or no value of one.
#[derive(Clone, Copy, Debug, PartialEq, Eq, Error)]
pub enum LineFault {
    /// The line of this number, counted from 1, is outside the grammar.
    #[error("line {number} is outside the grammar")]
    BadLine { number: u64 },
    /// The source failed.
    #[error("the source failed")]
    ReadFault,
    #[error("want of memory")]
    Memory,
}

impl From<AllocError> for LineFault {
    ghost from_gives = { λ _ fault. fault ≡ line_faults.Memory };

    fn from(_: AllocError) -> Self {
        LineFault::Memory
    }
}

impl From<Failed> for LineFault {
    ghost from_gives = { λ _ fault. fault ≡ line_faults.ReadFault };

    fn from(_: Failed) -> Self {
        LineFault::ReadFault
    }
}

/// Why words say nothing.
#[derive(Clone, Copy, Debug, PartialEq, Eq, Error)]
pub enum WordFault {
    /// They are outside the grammar.
    #[error("outside the grammar")]
    Outside,
    #[error("want of memory")]
    Memory,
}

impl From<AllocError> for WordFault {
    ghost from_gives = { λ _ fault. fault ≡ word_faults.Memory };

    fn from(_: AllocError) -> Self {
        WordFault::Memory
    }
}

impl From<Memory> for WordFault {
    ghost from_gives = { λ _ fault. fault ≡ word_faults.Memory };

    fn from(_: Memory) -> Self {
        WordFault::Memory
    }
}

impl WordFault {
    /// The fault of the line whose words these are; `number` is the line's, counted from 1.
    pub fn at(self, number: u64) -> LineFault
        ensures { result ≡ fault_at number self }
    {
        match self {
            WordFault::Outside => LineFault::BadLine { number },
            WordFault::Memory => LineFault::Memory,
        }
    }
}
