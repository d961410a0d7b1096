//! What every legal history is, as one fact, with the laws of restores, and examples of what each law refuses. Each law is
//! the contract of a function that does nothing.
#![tactic(auto)]

pub mod examples;
pub mod inverses;
pub mod unions;

ghost use Rattle.std.specs.Prelude.{ℕ, List};
ghost use Rattle.delf_model.specs.declared.entry.Entry.{Entry};
ghost use Rattle.delf_model.specs.RuleSet.{RuleSet};
ghost use Rattle.delf_model.specs.Step.{after};
ghost use Rattle.delf_model.specs.Legal.{Legal};
ghost use Rattle.delf_model.specs.Sound.{Sound, FirstIsLegal};

/// Every legal history is sound: what leaves the graph has an owner; a done deletion erased exactly what it reached, and
/// in a calm part exactly the closure of its root; each handled item has one put, judged where it stands; a restore
/// followed by its puts alone is a union; in a calm part a restore is the inverse of its deletion; the payloads are those that calls
/// gave; and the room is kept.
pub fn legal_is_sound()
    ensures { (rules : RuleSet) (history : List Entry) → Legal rules history → Sound rules history }
{}

/// The first step of the serial order is legal where there is one, and where there is none no step is legal, at every
/// moment.
#[tactic(auto, using(crate::proofs::Whole::first_step))]
pub fn first_step_is_legal()
    ensures { (rules : RuleSet) (history : List Entry) (moment : ℕ) → Legal rules history →
        FirstIsLegal (after rules history) moment }
{}
