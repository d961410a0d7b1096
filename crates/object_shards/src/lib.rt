//! The objects of the graph that the service keeps while it runs, in shards, so that no call but the copy of all rows scans them.
#![tactic(auto)]

mod blocks;
mod due_rows;
mod object_shards;
mod rows;
mod shard;
mod shards;
mod table;
mod tables;
#[cfg(test)]
mod tests;

pub use object_shards::ObjectShards;
pub use rows::{due_after, insert_ready, place_of, put_row};
