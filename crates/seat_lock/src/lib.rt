//! A turn lock: many seats share one value, and each knows what it has seen.
//!
//! A seat waits for its turn by a ticket. What it finds then is never older than what it, or a seat that was joined
//! into it, has seen, and of the entries with its number it finds exactly those that it made itself.
//! The lock stands on one table of the words history, next ticket and served ticket, a row of bells that seats sleep on,
//! and one slot for the value.
#![tactic(auto)]

mod counted;
mod lock;
mod plays;
#[cfg(test)]
mod tests;
mod view;

pub use counted::Counted;
pub use lock::{Seat, SeatLock};
