//! One book for many seats: writers and workers take turns at it on threads, and one legal history comes out of it,
//! whatever their order.
//!
//! A worker claims the row of a cut or an erasure in one turn and makes the step in another: in between, without the turn,
//! `Gate::between` makes the record, so its digest is computed while others have the turn. `run_lanes` runs lanes at once
//! with workers beside them, and then makes the steps that are left.
#![tactic(auto)]

mod answers;
mod block;
mod gate;
mod held;
mod lane;
mod numbered;
mod replies;
mod rows;
mod service;
mod standing;
mod worker;

pub use answers::{Answer, Asked, Turned};
pub use block::run_lanes;
pub use gate::{Gate, OpenGate};
pub use held::Held;
pub use numbered::{are_numbered, is_numbered};
pub use replies::{LaneOut, LaneReply};
pub use rows::Row;
pub use service::{Seat, Service};
pub use standing::{Key, Standing};
