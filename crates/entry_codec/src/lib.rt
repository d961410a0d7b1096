//! The heads of journal and vault records: each entry and each erased item has one spelling in bytes, and
//! nothing else is read.
#![tactic(auto)]

mod entry_reader;
mod entry_writer;
mod field_reader;
mod field_writer;
mod fits;
mod item_reader;
mod item_writer;
mod laws;
mod limits;

pub use entry_reader::read_entry;
pub use entry_writer::write_entry;
pub use fits::has_spelling;
pub use item_reader::read_item;
pub use item_writer::write_item;
pub use laws::{entry_heads, item_heads};
pub use limits::{LARGEST_PAYLOAD, LAST_ID, LAST_MOMENT, TYPE_COUNT};

#[cfg(test)]
mod tests;
