//! Documents: the program's words, the bytes of an input, what they say or their first fault, what `check` prints of them,
//! and what a load makes. No store is needed for any of it.
#![tactic(auto)]

mod check;
mod document;
mod load;
mod names;
mod put;
mod read;
mod texts;
mod words;

pub use check::check_document;
pub use document::{Document, read_document};
pub use load::{load_commands, load_document, restored_count};
pub use names::{edge_name, edge_row_name, kind_name, object_row_name};
pub use put::put_all;
pub use read::{READ_LIMIT, ReadError, read_at_most};
pub use texts::joined;
pub use words::{Request, Start, read_words};
