//! Why a store was not opened.
ghost use Rattle.std.specs.Prelude.{◌≡◌};
ghost use Rattle.delf_recovery.specs.declared.fault.OpenFault.TheVariants.{DiskFault as IsDiskFault, OutOfMemory as IsOutOfMemory};

use delf_disk::{Area, Failed};
use std::alloc::AllocError;

/// Why a store was not opened.
#[derive(Clone, Copy, PartialEq, Eq, Debug)]
pub enum OpenFault {
    /// A disk call failed. What the store stands for is as before.
    DiskFault,
    /// Want of memory. What the store stands for is as before.
    OutOfMemory,
    /// The store is not one of these rules: the area is bad at this byte, the first bad place of the journal, or where
    /// the journal is good, that of the vault.
    BadStore { area: Area, at: u64 },
}

impl From<Failed> for OpenFault {
    ghost from_gives = { λ _ fault. fault ≡ IsDiskFault };

    fn from(_: Failed) -> Self {
        OpenFault::DiskFault
    }
}

impl From<AllocError> for OpenFault {
    ghost from_gives = { λ _ fault. fault ≡ IsOutOfMemory };

    fn from(_: AllocError) -> Self {
        OpenFault::OutOfMemory
    }
}
