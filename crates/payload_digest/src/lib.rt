//! The SHA-256 of a payload.
#![tactic(auto)]

mod digest;
#[cfg(test)]
mod tests;

pub use digest::digest_of;
