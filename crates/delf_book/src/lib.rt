//! The book: a ledger over a disk, in which each call and each step is one record that a crash leaves whole or not at all.
#![tactic(auto)]

mod adding;
mod answers;
mod begin;
mod beside;
mod blank;
mod book;
mod call;
mod calls;
mod carried;
mod claims;
mod dead;
mod erasing;
mod faults;
mod finish;
mod folds;
mod logs;
mod purging;
mod putting;
mod reading;
mod reads;
mod ready;
mod receipts;
mod records;
mod settle;
mod stepping;
mod tails;
mod work;

pub use answers::{Begun, BookFault, Receipt, StepFault, Worked};
pub use beside::Beside;
pub use blank::fold;
pub use book::Book;
pub use delete_step::{Claim, Prepared, prepare};
pub use delf_model::{Call, Cause, JobLine, Listed, Status};
pub use folds::Fold;
