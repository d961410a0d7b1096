//! Bytes and numbers that contracts see as lists.
ghost use Rattle.std.specs.Prelude.{◌≡◌, ℕ, List, IfOk};

use std::alloc::{AllocError, Global};
use std::marker::Model;

/// Bytes that a disk is made of. Contracts see them as a list.
#[derive(Drop)]
pub struct Bytes {
    pub(crate) bytes: Vec<u8>,
}

impl Model for Bytes {
    ghost Value = { List ℕ };

    ghost view = { λ b. b.bytes.items };
}

impl Bytes {
    /// A copy of these bytes.
    pub fn of(alloc: Global, bytes: &[u8]) -> Result<Bytes, AllocError>
        ensures { IfOk result (λ made. made ≡ bytes.now) }
    {
        Ok(Bytes {
            bytes: Vec::from_slice(alloc, bytes)?,
        })
    }
}

/// Numbers of disk calls. Contracts see them as a list.
#[derive(Drop)]
pub struct Numbers {
    pub(crate) numbers: Vec<u64>,
}

impl Model for Numbers {
    ghost Value = { List ℕ };

    ghost view = { λ n. n.numbers.items };
}

impl Numbers {
    /// A copy of these numbers.
    pub fn of(alloc: Global, numbers: &[u64]) -> Result<Numbers, AllocError>
        ensures { IfOk result (λ made. made ≡ numbers.now) }
    {
        Ok(Numbers {
            numbers: Vec::from_slice(alloc, numbers)?,
        })
    }
}
