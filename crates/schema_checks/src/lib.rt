//! The four rules of a schema, with the line of the first broken one, and the route of each type.
#![tactic(auto)]

mod checked;
mod first_edge;
mod first_fault;

pub use checked::Checked;
pub use first_fault::{CheckFault, Fault, check};

#[cfg(test)]
mod tests;
