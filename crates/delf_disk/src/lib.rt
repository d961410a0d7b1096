//! A disk of two areas, and what a crash may leave of it.
//!
//! `Disk` says what a read gives, what a crash now may leave over both areas together, and what a
//! crash since a given moment may have left. `Rig` is a disk whose power can be cut.
#![tactic(auto)]

mod area;
mod content;
mod counts;
mod disk;
mod file_disk;
mod files;
mod lists;
mod mem_disk;
mod past;
#[cfg(test)]
mod tests;

pub use area::{Area, Failed, Order};
pub use disk::{Disk, Rig};
pub use file_disk::FileDisk;
pub use lists::{Bytes, Numbers};
pub use mem_disk::MemDisk;
