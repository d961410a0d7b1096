//! Texts that stand behind one another.
ghost use Rattle.std.specs.Prelude.{◌≡◌, ◌++◌, IfOk};

use delf_model::Bytes;
use std::alloc::{AllocError, Global};

/// A text with another one behind it. The only error is want of memory.
pub fn joined(alloc: Global, first: &[u8], second: &[u8]) -> Result<Bytes, AllocError>
    ensures { IfOk result (λ text. text ≡ first.now ++ second.now) }
{
    let mut text = Vec::from_slice(alloc, first)?;
    text.extend_from_slice(second)?;
    Ok(Bytes::from_vec(text))
}
