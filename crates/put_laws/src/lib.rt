//! The laws of puts, over every legal history. Each law is the contract of a function that does nothing.
#![tactic(auto)]

ghost use Rattle.std.specs.Prelude.{List};
ghost use Rattle.delf_model.specs.declared.entry.Entry.{Entry};
ghost use Rattle.delf_model.specs.RuleSet.{RuleSet};
ghost use Rattle.delf_model.specs.Legal.{Legal};
ghost use Rattle.delf_model.specs.Sound.{PutsAreJudged};

/// Each handled item has one put, and its outcome is the judgement in the state before that put; where a restored job
/// has no unhandled item, every item of it is handled.
pub fn puts_are_judged()
    ensures { (rules : RuleSet) (history : List Entry) → Legal rules history → PutsAreJudged rules history }
{}
