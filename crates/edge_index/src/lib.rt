//! The edges of a graph, kept so that each question of a deletion service costs a search and no scan.
#![tactic(auto)]

mod edge_index;
mod ends;
mod links;
mod refs;
mod shapes;
mod tables;
#[cfg(test)]
mod tests;

pub use edge_index::EdgeIndex;
pub use shapes::{is_counting, shapes_of};
