//! An append-only log of records behind gates, in one area of a disk.
//!
//! A record counts once its gate is open, and the gate is opened by a write of its own after all behind it is
//! on the disk. So a crash at any moment leaves the records from before a call or those from after it, and no
//! checksum is needed for that.
#![tactic(auto)]

mod begin;
mod close;
mod commit;
mod fault;
mod front;
mod lengths;
mod line;
mod log;
mod scan;
#[cfg(test)]
mod tests;
mod wipe;

pub use fault::LogFault;
pub use front::Front;
pub use log::GateLog;
