//! What stands at the front of an area.
use crate::log::GateLog;

/// The log of an area as far as its records go: to a closed gate where the area is whole, else to an open one behind which
/// there is no record with its gate. Of an area that is not whole nothing but the heads can be read, by `read_front_head`.
#[derive(Drop)]
pub struct Front {
    pub log: GateLog,
    pub whole: bool,
}
