//! What is known of a shared book at one moment. No value of these types is made: they are for the proofs alone.
use delf_disk::Order;
use delf_model::{Entry, Moment, Rules};
use std::collections::LinkedList;

/// Whether a disk tells its bytes and is honest, and its last order with the number of orders.
pub struct DiskKind {
    pub told: bool,
    pub honest: bool,
    pub order: Order,
    pub orders: u64,
}

/// The disk as it was when its book was opened: its count of faults, and the bytes of both areas.
pub struct Opening {
    pub faults: u64,
    pub journal: LinkedList<u8>,
    pub vault: LinkedList<u8>,
}

/// What never changes of a shared book: its rules, the moment that each call hands in, where all hand in one, what kind of
/// disk it has, and what that was at the opening.
pub struct Key {
    pub rules: Rules,
    pub moment: Option<Moment>,
    pub disk: DiskKind,
    pub opening: Opening,
}

/// The history, the payloads by position and the seals of the items, the disk's count of faults, whether a disk fault was
/// answered, how many lanes of a block are left, and the key.
pub struct Standing {
    pub history: LinkedList<Entry>,
    pub payloads: LinkedList<(u32, LinkedList<u8>)>,
    pub seals: LinkedList<LinkedList<u8>>,
    pub faults: u64,
    pub down: bool,
    pub lanes: u8,
    pub key: Key,
}
