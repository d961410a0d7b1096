//! The restoration log: one record for each erased item, whose head names the row and holds the SHA-256 of the
//! payload, in the vault area of a disk.
#![tactic(auto)]

mod fault;
#[cfg(test)]
mod tests;
mod vault;

pub use fault::FetchFault;
pub use vault::Vault;
