//! The laws of the serial order, over every legal history. Each law is the contract of a function that does nothing.
#![tactic(auto)]

ghost use Rattle.std.specs.Prelude.{ℕ, List, IsTrue};
ghost use Rattle.delf_model.specs.declared.entry.Entry.{Entry};
ghost use Rattle.delf_model.specs.RuleSet.{RuleSet};
ghost use Rattle.delf_model.specs.Graph.{objects_rise};
ghost use Rattle.delf_model.specs.Step.{after};
ghost use Rattle.delf_model.specs.Legal.{Legal};
ghost use Rattle.delf_model.specs.Sound.{FirstIsLegal};

/// The first step of the serial order is legal where there is one, and where there is none no step is legal, at every
/// moment.
pub fn first_step_is_legal()
    ensures { (rules : RuleSet) (history : List Entry) (moment : ℕ) → Legal rules history → FirstIsLegal (after rules history) moment }
{}

/// No id stands twice in the graph, and rows go by rising id.
pub fn rows_rise()
    ensures { (rules : RuleSet) (history : List Entry) → Legal rules history → IsTrue (objects_rise (after rules history).graph.objects) }
{}
