//! The top call: a document is read, the store is opened, the script is run against it, and the lines are put.
#![tactic(auto)]

mod answers;
mod blocks;
mod check;
mod faults;
mod graph;
mod jobs;
mod lanes;
mod loading;
mod names;
mod program;
mod readings;
mod script;
mod shows;
mod status;
mod store;

pub use graph::{ProgramBook, ProgramGraph};
pub use program::{run, run_plain};
pub use status::Status;
