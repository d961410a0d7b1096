//! What runs the lanes of a block: nothing, where blocks are not served, or a closure that does.
ghost use Rattle.std.specs.Prelude.{◌≡◌, Bool, ℕ, List, Option, true, false};
ghost use Rattle.std.specs.Borrow.{Bor, MutBor};
ghost use Rattle.delf_model.specs.declared.script.Lane.{Lane as Laned};

use delf_model::Lane;
use delf_service::LaneOut;
use std::alloc::{AllocError, Global};

/// What each lane of a block is answered. The only error is want of memory.
pub(crate) type Outs = Result<Vec<LaneOut>, AllocError>;

/// What runs the lanes of a block over a store of type `S`, and gives answers of type `V`. Both are types of their own here, and
/// the store is lent in a slot, since the check states no call behind a bound that takes a book by value.
pub(crate) trait Blocks<S, V> {
    /// Whether a script may have blocks.
    ghost served: { Bool };

    /// It may be asked to run these lanes over the store in the slot.
    ghost may: { Self → Option S → Bor (List Laned) → ℕ → ℕ → Type 0 };

    /// What it then answers, and leaves in the slot.
    ghost ran: { Self → Option S → Bor (List Laned) → ℕ → ℕ → V → Option S → Type 0 };

    /// Whether a script may have blocks.
    fn are_served(&self) -> bool
        ensures { result ≡ served };

    /// Runs the lanes beside so many workers, of at most so many steps each.
    fn run(&self, slot: &mut Option<S>, lanes: &[Lane], workers: u8, turns: u32) -> V
        requires { may self.now slot.old lanes workers turns }
        ensures { ran self.now slot.old lanes.entry workers turns result slot.new };
}

/// No script has blocks.
#[derive(Clone, Copy)]
pub(crate) struct NoBlocks;

impl<S> Blocks<S, Outs> for NoBlocks {
    ghost served = { false };

    ghost may = { λ it slot lanes workers turns. slot ≡ slot };

    ghost ran = { λ it slot lanes workers turns r left. left ≡ slot };

    fn are_served(&self) -> bool
        ensures { result ≡ false }
    {
        false
    }

    // Never called, since no script has a block.
    fn run(&self, slot: &mut Option<S>, _lanes: &[Lane], _workers: u8, _turns: u32) -> Outs
        ensures { slot.new ≡ slot.old }
    {
        Err(AllocError)
    }
}

/// This function runs the lanes, by the handle of threads, and tells the gate of their entries. A trait's method cannot start
/// threads on a bound of its block: a function that is passed by name can.
#[derive(Drop)]
pub(crate) struct RunBy<'a, W, Q, F> {
    pub(crate) rt: &'a W,
    pub(crate) alloc: Global,
    pub(crate) gate: &'a Q,
    pub(crate) run: F,
}

impl<'a, W, Q, S, V, F: Fn(&W, Global, &Q, &mut Option<S>, &[Lane], u8, u32) -> V> Blocks<S, V>
    for RunBy<'a, W, Q, F> {
    ghost served = { true };

    ghost may = { λ it slot lanes workers turns. (p : MutBor (Option S)) → p.now ≡ slot → F.pre it.run it.rt it.alloc it.gate p lanes workers turns };

    ghost ran = { λ it slot lanes workers turns r left. (p q : MutBor (Option S)) × (p.now ≡ slot) × (q.now ≡ left)
        × F.post it.run it.rt it.alloc it.gate p lanes workers turns r q };

    fn are_served(&self) -> bool
        ensures { result ≡ true }
    {
        true
    }

    fn run(&self, slot: &mut Option<S>, lanes: &[Lane], workers: u8, turns: u32) -> V
        requires { (p : MutBor (Option S)) → p.now ≡ slot.old → F.pre self.now.run self.now.rt self.now.alloc self.now.gate p lanes workers turns }
        ensures { (p q : MutBor (Option S)) × (p.now ≡ slot.old) × (q.now ≡ slot.new)
            × F.post self.now.run self.now.rt self.now.alloc self.now.gate p lanes.entry workers turns result q }
    {
        (self.run)(self.rt, self.alloc, self.gate, slot, lanes, workers, turns)
    }
}
