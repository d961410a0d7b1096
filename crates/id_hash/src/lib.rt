//! Where an id has its place: a quick hash for keys that are a few numbers, as the ids of objects and the keys of edges are,
//! and the shard of an id.
#![tactic(auto)]

mod id_hasher;
mod shards;
#[cfg(test)]
mod tests;

pub use id_hasher::{IdHash, IdHasher};
pub use shards::{SHARDS, shard_of};
