//! Why an entry was not made.
ghost use Rattle.std.specs.Prelude.{◌≡◌};
ghost use Rattle.delf_book.specs.declared.faults.EntryFault.TheVariants.{OutOfMemory, Failed as EntryFailed};

use delf_disk::Failed;
use std::alloc::AllocError;

/// Why an entry was not made.
#[derive(Clone, Copy, PartialEq, Eq, Debug)]
pub(crate) enum EntryFault {
    /// Want of memory; no disk call was made.
    OutOfMemory,
    /// A disk call failed.
    Failed,
}

impl From<AllocError> for EntryFault {
    ghost from_gives = { λ _ fault. fault ≡ OutOfMemory };

    fn from(_: AllocError) -> Self {
        EntryFault::OutOfMemory
    }
}

impl From<Failed> for EntryFault {
    ghost from_gives = { λ _ fault. fault ≡ EntryFailed };

    fn from(_: Failed) -> Self {
        EntryFault::Failed
    }
}
