//! Whether an erased row may be put back, and the put itself.
#![tactic(auto)]

mod judge;
mod put;

pub use judge::judge_put;
pub use put::put_item;
