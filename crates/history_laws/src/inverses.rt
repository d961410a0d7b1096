//! The law of restores: a restore puts back what its deletion took, over every legal history.

ghost use Rattle.std.specs.Prelude.{ℕ, List, [], ◌∷◌};
ghost use Rattle.delf_model.specs.declared.entry.Entry.{Entry};
ghost use Rattle.delf_model.specs.RuleSet.{RuleSet};
ghost use Rattle.delf_model.specs.Legal.{Legal};
ghost use Rattle.delf_model.specs.Sound.{Inverse};
ghost use Rattle.delf_model.specs.Worked.{example_rules};
ghost use Rattle.history_laws.specs.Parts.{IsRestored, IsRestoredAlone, alone_history, shared_history};

/// Where a part is calm for a deletion and all items of its job are handled at the end, every item was put back, and the
/// rows of the part are those right after the start. Where besides only the job's own entries stand in the part, the graph
/// and the needed positions are those right after the start.
#[tactic(auto, using(crate::proofs::Inverse::restore_is_inverse))]
pub fn restore_is_inverse()
    ensures { (rules : RuleSet) (history : List Entry) → Legal rules history → Inverse rules history }
{}

/// The premises can be met: a user and its photo are deleted and restored while other objects come, go and come back, and
/// another time with no entry between but the job's own.
#[tactic(auto, using(crate::proofs::Parts::restored_amid_others, crate::proofs::Parts::restored_alone))]
pub fn premises_are_met()
    ensures amid_others { IsRestored example_rules shared_history 4 1 17 (1 ∷ 2 ∷ []) }
    ensures alone { IsRestoredAlone example_rules alone_history 4 1 12 (1 ∷ 2 ∷ []) }
{}
