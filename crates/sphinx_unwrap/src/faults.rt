// Why a packet isn't unwrapped: one of the refusals, or want of memory.
ghost use Rattle.std.specs.Prelude.{◌≡◌};

use mix_base::Memory;
use std::alloc::AllocError;
use thiserror::Error;

/// Why a packet is refused. The first of these causes, in this order, is the answer.
#[derive(Clone, Copy, Debug, PartialEq, Eq, Error)]
pub enum Refused {
    /// The packet hasn't the geometry's length.
    #[error("the packet hasn't the geometry's length")]
    Length,
    /// The version isn't 0.
    #[error("the packet's version isn't 0")]
    Version,
    /// The secret key doesn't open the packet: its ciphertext is refused, or its MAC isn't true.
    #[error("the secret key doesn't open the packet")]
    Sealed,
    /// The commands are outside the grammar.
    #[error("the packet's commands are outside the grammar")]
    Commands,
}

/// Why `unwrap` gives no answer.
#[derive(Clone, Copy, Debug, PartialEq, Eq, Error)]
pub enum UnwrapFault {
    #[error("{0}")]
    Refused(Refused),
    #[error("want of memory")]
    Memory,
}

impl From<Refused> for UnwrapFault {
    ghost use Rattle.sphinx_unwrap.specs.declared.faults.UnwrapFault.TheVariants as faults;

    ghost from_gives = { λ why fault. fault ≡ faults.Refused why };

    fn from(why: Refused) -> Self {
        UnwrapFault::Refused(why)
    }
}

impl From<Memory> for UnwrapFault {
    ghost use Rattle.sphinx_unwrap.specs.declared.faults.UnwrapFault.TheVariants as faults;

    ghost from_gives = { λ _ fault. fault ≡ faults.Memory };

    fn from(_: Memory) -> Self {
        UnwrapFault::Memory
    }
}

impl From<AllocError> for UnwrapFault {
    ghost use Rattle.sphinx_unwrap.specs.declared.faults.UnwrapFault.TheVariants as faults;

    ghost from_gives = { λ _ fault. fault ≡ faults.Memory };

    fn from(_: AllocError) -> Self {
        UnwrapFault::Memory
    }
}
