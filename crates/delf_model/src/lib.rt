//! The words of the deletion service: its types, and in `specs/` the definitions that every contract cites.
#![tactic(auto)]

mod bytes;
mod call;
mod distances;
mod entry;
mod graph_store;
mod ids;
mod list;
mod name;
mod numbering;
mod rows;
mod rules;
mod schema;
mod script;
mod spellable;
#[cfg(test)]
mod tests;
pub mod worked;

pub use bytes::Bytes;
pub use call::{Call, Cause, JobLine, Listed, Refusal, Status};
pub use entry::{Entry, Tag, What};
pub use graph_store::GraphStore;
pub use ids::{EdgeNo, Job, JobName, Moment, ObjectId, TypeNo};
pub use list::List;
pub use name::{Name, NameFault, is_name_byte, is_name_text};
pub use rows::{EdgeKey, EdgeRow, Item, ObjectRow};
pub use rules::{Broken, JudgeFault, Rules, RulesFault};
pub use schema::{EdgeRule, EdgeShape, EdgeType, ObjectRule, ObjectType, Schema};
pub use script::{Command, Lane, LaneCommand, Script};
pub use spellable::is_spellable;

/// The greatest size of a payload in bytes.
pub const LIMIT: usize = 512;

/// The greatest moment, in seconds.
pub const GREATEST_MOMENT: Moment = 999_999_999_999;

/// The greatest room of a history: the entries that are there, and those that may still be owed.
pub const ROOM_LIMIT: u32 = 500_000;

/// The greatest size of a record's head in bytes.
pub const HEAD_LIMIT: usize = 128;
