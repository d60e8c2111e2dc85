// Why a block isn't answered, and why a reply isn't opened: one of the refusals, or want of memory.
ghost use Rattle.std.specs.Prelude.{◌≡◌};
ghost use Rattle.reply_blocks.specs.declared.faults.AnswerFault.TheVariants.{Memory as want_of_memory};
ghost use Rattle.reply_blocks.specs.declared.faults.OpenFault.TheVariants.{Memory as opening_wants_memory};

use std::alloc::AllocError;
use thiserror::Error;

/// Why a block isn't answered. The first of these causes, in this order, is the answer.
#[derive(Clone, Copy, Debug, PartialEq, Eq, Error)]
pub enum AnswerFault {
    /// The block hasn't the geometry's length.
    #[error("the reply block hasn't the geometry's length")]
    BlockLength,
    /// The body hasn't the geometry's length.
    #[error("the body hasn't the geometry's length")]
    BodyLength,
    #[error("want of memory")]
    Memory,
}

impl From<AllocError> for AnswerFault {
    ghost from_gives = { λ _ fault. fault ≡ want_of_memory };

    fn from(_: AllocError) -> Self {
        AnswerFault::Memory
    }
}

/// Why a reply isn't opened.
#[derive(Clone, Copy, Debug, PartialEq, Eq, Error)]
pub enum OpenFault {
    /// The first 32 bytes of what is recovered aren't all zero: the payload isn't that of an answer to this block, or it
    /// was changed on its way.
    #[error("the reply is damaged, or isn't one to this block")]
    Damaged,
    #[error("want of memory")]
    Memory,
}

impl From<AllocError> for OpenFault {
    ghost from_gives = { λ _ fault. fault ≡ opening_wants_memory };

    fn from(_: AllocError) -> Self {
        OpenFault::Memory
    }
}
