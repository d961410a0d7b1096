//! The state after a history without its graph, kept entry by entry.
#![tactic(auto)]

mod apply;
mod claims;
mod cuts;
mod ends;
mod free;
mod items;
mod jobs;
mod judged;
mod legal;
mod next;
mod owners;
mod payloads;
mod queue;
mod references;
mod restoring;
mod seats;
mod serial;
mod spans;
mod table;
mod tallies;
#[cfg(test)]
mod tests;
mod waiting;

pub use cuts::edge_item;
pub use free::is_touched;
pub use next::Next;
pub use references::takes_last_reference;
pub use table::JobTable;
