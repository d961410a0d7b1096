//! The opening of a store: both areas are read, tried against the rules, mended and scrubbed, and a book stands over
//! them.
#![tactic(auto)]

mod ahead;
mod blank;
mod entries;
mod fault;
mod items;
mod journal;
mod mending;
mod open;
mod parts;
mod piece;
mod read_ahead;
mod reading;
mod scrubs;
mod starting;
mod vaults;

pub use fault::OpenFault;
pub use open::open_book;
