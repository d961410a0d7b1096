//! Why a schema was not read.

use crate::why::Why;
use std::alloc::AllocError;

/// Why a schema was not read.
#[derive(Clone, Copy, PartialEq, Eq, Debug)]
pub enum SchemaFault {
    /// The first line from the top that is at fault, counted from 1, and what is wrong with it. A line that is
    /// missing at the end has the number after the last.
    Bad { line: u32, why: Why },
    /// Want of memory.
    OutOfMemory,
}

impl From<AllocError> for SchemaFault {
    ghost use Rattle.std.specs.Prelude.{◌≡◌};
    ghost use Rattle.schema_lang.specs.declared.fault.SchemaFault.TheVariants.{OutOfMemory};

    ghost from_gives = { λ _ fault. fault ≡ OutOfMemory };

    fn from(_error: AllocError) -> SchemaFault {
        SchemaFault::OutOfMemory
    }
}
