//! Why a log could not be started.
ghost use Rattle.std.specs.Prelude.{◌≡◌};
ghost use Rattle.gate_log.specs.declared.fault.LogFault.TheVariants.{Failed as DiskFailed, OutOfMemory};

use delf_disk::Failed;
use std::alloc::{AllocError, AllocFailed};

/// Why a log could not be started. None of the four leaves anything to go on with.
#[derive(Clone, Copy, Debug, PartialEq, Eq)]
pub enum LogFault {
    /// A disk call failed.
    Failed,
    /// The area has more than nine bytes and another mark.
    NotOurs,
    /// The record whose gate stands open at byte `at` has lengths that agree with no body, or does not end, with
    /// the gate that follows it, within the area.
    Broken { at: u64 },
    /// There is no memory for the places of the records, or they are too many or too far to be kept.
    OutOfMemory,
}

impl From<Failed> for LogFault {
    ghost from_gives = { λ _ fault. fault ≡ DiskFailed };

    fn from(_: Failed) -> Self {
        LogFault::Failed
    }
}

impl From<AllocError> for LogFault {
    ghost from_gives = { λ _ fault. fault ≡ OutOfMemory };

    fn from(_: AllocError) -> Self {
        LogFault::OutOfMemory
    }
}

impl<T: Drop> From<AllocFailed<T>> for LogFault {
    ghost from_gives = { λ _ fault. fault ≡ OutOfMemory };

    fn from(_: AllocFailed<T>) -> Self {
        LogFault::OutOfMemory
    }
}
