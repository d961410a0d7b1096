//! What an erasing step writes to the restoration log: the item, and the record of the item with its payload.
#![tactic(auto)]

mod claim;
mod item;
mod prepared;
#[cfg(test)]
mod tests;

pub use claim::Claim;
pub use item::item_of;
pub use prepared::{Prepared, prepare};
