//! What a program reads from, writes to and asks the time of, as traits whose contracts name every
//! byte that they tell of, with forms in memory that tell all and thin forms over std that tell none.
#![tactic(auto)]

mod bytes;
mod clock;
mod list_clock;
mod mem_sink;
mod mem_source;
mod numbers;
mod sink;
mod source;
mod std_sink;
mod std_source;
mod system_clock;

pub use bytes::Bytes;
pub use clock::{Clock, Moment};
pub use list_clock::ListClock;
pub use mem_sink::MemSink;
pub use mem_source::MemSource;
pub use numbers::Numbers;
pub use sink::Sink;
pub use source::{Failed, Source};
pub use std_sink::StdSink;
pub use std_source::StdSource;
pub use system_clock::SystemClock;

#[cfg(test)]
mod tests;
