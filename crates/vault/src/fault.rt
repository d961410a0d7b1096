//! Why a payload could not be fetched.
ghost use Rattle.std.specs.Prelude.{◌≡◌};
ghost use Rattle.vault.specs.declared.fault.FetchFault.TheVariants.{Failed as FetchFailed};

use delf_disk::Failed;

/// Why a payload could not be fetched. Neither changes the disk.
#[derive(Clone, Copy, Debug, PartialEq, Eq)]
pub enum FetchFault {
    /// A disk call failed.
    Failed,
    /// The payload of record `item` has the SHA-256 `found`, and the record's head holds another one, `stored`.
    Damaged {
        item: u32,
        stored: [u8; 32],
        found: [u8; 32],
    },
}

impl From<Failed> for FetchFault {
    ghost from_gives = { λ _ fault. fault ≡ FetchFailed };

    fn from(_: Failed) -> Self {
        FetchFault::Failed
    }
}
