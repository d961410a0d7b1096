//! The script language: the script part of a document, whole documents, and a script that is made to a size.
#![tactic(auto)]

mod block;
mod call;
mod command;
mod document;
mod fault;
mod groups;
mod laws;
mod part;
mod place;
mod script;
#[cfg(test)]
mod tests;

pub use document::{DOCUMENT_LIMIT, parse_document, told_fault, too_long};
pub use fault::DocumentFault;
pub use groups::generated;
pub use laws::{line_forms_are_read, spelled_script_is_read};
pub use script::parse_script;
