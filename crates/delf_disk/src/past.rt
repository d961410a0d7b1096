//! What a disk in memory was told, from one stable moment to the next.
ghost use Rattle.std.specs.Prelude.{◌≡◌, ◌<◌, [], ◌∷◌, ◌++◌, vec_len, vec_capacity, OnOk};

use crate::area::Area;
use std::alloc::{AllocError, Global};
use std::mem;

/// A write that a disk in memory was told to make.
#[derive(Drop)]
pub struct Write {
    pub(crate) area: Area,
    pub(crate) at: u64,
    pub(crate) bytes: Vec<u8>,
    /// The call did its work, so the bytes read.
    pub(crate) landed: bool,
}

/// How a stretch between two stable moments ended.
#[derive(Clone, Copy, Debug, PartialEq, Eq)]
pub enum End {
    /// A sync made what reads stable.
    Synced,
    /// The power was cut, and `pick` chose what was left of each write.
    Cut { pick: u64 },
}

/// What happened between two stable moments.
#[derive(Drop)]
pub struct Epoch {
    pub(crate) writes: Vec<Write>,
    pub(crate) end: End,
}

// What is pending is over, since it became stable or the power was cut.
pub(crate) fn end_epoch(alloc: Global, pending: &mut Vec<Write>, past: &mut Vec<Epoch>, end: End)
    requires { vec_len past.old < vec_capacity past.old }
    ensures past { (epoch : Epoch) × (epoch.writes.items ≡ pending.old.items) × (epoch.end ≡ end) × (past.new.items ≡ past.old.items ++ epoch ∷ []) }
    ensures pending { pending.new.items ≡ [] }
{
    let writes = mem::replace(pending, Vec::new(alloc));
    past.push_reserved(Epoch { writes, end });
}

// Makes room for one write more. Most epochs have one alone, and all of them are kept, so the first
// takes no room for others.
pub(crate) fn reserve_write(pending: &mut Vec<Write>) -> Result<(), AllocError>
    ensures items { pending.new.items ≡ pending.old.items }
    ensures ok { OnOk result (vec_len pending.new < vec_capacity pending.new) }
{
    if pending.is_empty() {
        return pending.reserve_exact(1);
    }
    pending.reserve(1)
}
