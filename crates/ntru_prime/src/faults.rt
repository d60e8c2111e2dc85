// Why a step has no value: the bytes or the ciphertext are refused, or memory is wanting.
ghost use Rattle.std.specs.Prelude.{◌≡◌};

use mix_base::Memory;
use ntru_code::CodeFault;
use std::alloc::AllocError;

/// Why there is no value.
#[derive(Clone, Copy, Debug, PartialEq, Eq)]
pub(crate) enum Refusal {
    /// The definition has none.
    Refused,
    Memory,
}

impl From<CodeFault> for Refusal {
    ghost use Rattle.ntru_prime.specs.Faults.{refusal_of};

    ghost from_gives = { λ fault refusal. refusal ≡ refusal_of fault };

    fn from(fault: CodeFault) -> Self {
        match fault {
            CodeFault::Range(_) => Refusal::Refused,
            CodeFault::Memory => Refusal::Memory,
        }
    }
}

impl From<Memory> for Refusal {
    ghost use Rattle.ntru_prime.specs.declared.faults.Refusal.TheVariants as refusals;

    ghost from_gives = { λ _ refusal. refusal ≡ refusals.Memory };

    fn from(_: Memory) -> Self {
        Refusal::Memory
    }
}

impl From<AllocError> for Refusal {
    ghost use Rattle.ntru_prime.specs.declared.faults.Refusal.TheVariants as refusals;

    ghost from_gives = { λ _ refusal. refusal ≡ refusals.Memory };

    fn from(_: AllocError) -> Self {
        Refusal::Memory
    }
}
