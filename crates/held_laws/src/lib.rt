//! The law of held steps, over every legal history. The law is the contract of a function that does nothing.
#![tactic(auto)]

ghost use Rattle.std.specs.Prelude.{List};
ghost use Rattle.delf_model.specs.declared.entry.Entry.{Entry};
ghost use Rattle.delf_model.specs.RuleSet.{RuleSet};
ghost use Rattle.delf_model.specs.Legal.{Legal};
ghost use Rattle.held_laws.specs.Held.{HeldStepsStay};

/// A legal cut or erasure stays legal over each legal entry that does not erase the same row, and over each list of such
/// entries, at every later moment up to the greatest; what it would log stays, and so does the record that carries the payload.
pub fn held_steps_stay()
    ensures { (rules : RuleSet) (history : List Entry) → Legal rules history → HeldStepsStay rules history }
{}
