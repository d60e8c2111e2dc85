// Why the calls of a log are refused.
ghost use Rattle.std.specs.Prelude.{◌≡◌};
ghost use Rattle.gate_log.specs.declared.faults.LogOpen.TheVariants.{Failed as opening_failed};
ghost use Rattle.gate_log.specs.declared.faults.LogOpen.TheVariants.{Memory as opening_memory};
ghost use Rattle.gate_log.specs.declared.faults.LogRead.TheVariants.{Failed as read_failed};
ghost use Rattle.gate_log.specs.declared.faults.LogRead.TheVariants.{Memory as read_memory};
ghost use Rattle.gate_log.specs.Faults.{opening_fault};

use mix_base::{Failed, Memory};
use std::alloc::AllocError;
use thiserror::Error;

/// Why a log wasn't opened.
#[derive(Clone, Copy, Debug, PartialEq, Eq, Error)]
pub enum LogOpen {
    /// A call on the rack failed.
    #[error("the disk failed")]
    Failed,
    /// More records than the limit stand there; `at` is the place of the gate byte behind the last allowed one.
    #[error("more records than the limit, at {at}")]
    Overfull { at: u64 },
    #[error("want of memory")]
    Memory,
}

/// Why the records of an area weren't read.
#[derive(Clone, Copy, Debug, PartialEq, Eq, Error)]
pub enum LogRead {
    /// A call on the rack failed.
    #[error("the disk failed")]
    Failed,
    #[error("want of memory")]
    Memory,
}

/// Why a record wasn't appended.
#[derive(Clone, Copy, Debug, PartialEq, Eq, Error)]
pub enum LogAppend {
    /// A call on the rack failed: the record may be there or not. The log must be opened again.
    #[error("the disk failed")]
    Failed,
    /// The log has as many records as it may have. Nothing was done.
    #[error("the log is full")]
    LogFull,
}

impl From<LogRead> for LogOpen {
    ghost from_gives = { λ fault e. e ≡ opening_fault fault };

    fn from(fault: LogRead) -> Self {
        match fault {
            LogRead::Failed => LogOpen::Failed,
            LogRead::Memory => LogOpen::Memory,
        }
    }
}

impl From<Failed> for LogOpen {
    ghost from_gives = { λ _ e. e ≡ opening_failed };

    fn from(_: Failed) -> Self {
        LogOpen::Failed
    }
}

impl From<Memory> for LogOpen {
    ghost from_gives = { λ _ e. e ≡ opening_memory };

    fn from(_: Memory) -> Self {
        LogOpen::Memory
    }
}

impl From<Failed> for LogRead {
    ghost from_gives = { λ _ e. e ≡ read_failed };

    fn from(_: Failed) -> Self {
        LogRead::Failed
    }
}

impl From<AllocError> for LogRead {
    ghost from_gives = { λ _ e. e ≡ read_memory };

    fn from(_: AllocError) -> Self {
        LogRead::Memory
    }
}
