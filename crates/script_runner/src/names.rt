//! The name that stands in for one that is not printed.
ghost use Rattle.std.specs.Prelude.{◌≡◌, IfOk, codes};

use delf_model::{Name, NameFault};
use std::alloc::{AllocError, Global};

/// A name for a line that prints none. The only error is want of memory.
pub(crate) fn unprinted_name(alloc: Global) -> Result<Name, AllocError>
    ensures { IfOk result (λ name. name ≡ codes "none") }
{
    match Name::of(alloc, b"none") {
        Ok(name) => Ok(name),
        Err(NameFault::NotAName) => unreachable!(),
        Err(NameFault::OutOfMemory) => Err(AllocError),
    }
}
