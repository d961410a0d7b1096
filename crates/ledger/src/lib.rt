//! The ledger: what the service knows of one history in memory, and the one way to make the history longer.
#![tactic(auto)]

mod backs;
mod edit;
mod entries;
mod ledger;
mod legal;
mod spelling;

pub use ledger::Ledger;
pub use legal::moment_at;
