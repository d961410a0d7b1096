//! The words that disks and their callers share: the areas, the failed call and the orders.
/// The two areas of a store.
#[derive(Clone, Copy, Debug, PartialEq, Eq)]
pub enum Area {
    /// The log of all that was done.
    Journal,
    /// The log of what was erased, for as long as it can be put back.
    Vault,
}

/// A disk call that didn't do its work. The disk counted a fault.
#[derive(Clone, Copy, Debug, PartialEq, Eq)]
pub struct Failed;

/// What a rig was last told to do.
#[derive(Clone, Copy, Debug, PartialEq, Eq)]
pub enum Order {
    /// No order was given yet.
    Nothing,
    /// The power was cut. `pick` chooses what is left of each write that no sync covers.
    CutPower { pick: u64 },
    /// The `n`-th disk call from then is to fail.
    FailAfter { n: u32 },
}
