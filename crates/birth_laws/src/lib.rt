//! The laws of births and positions, over every list of entries. Each law is the contract of a function that does nothing.
#![tactic(auto)]

ghost use Rattle.std.specs.Prelude.{List};
ghost use Rattle.delf_model.specs.declared.entry.Entry.{Entry};
ghost use Rattle.delf_model.specs.RuleSet.{RuleSet};
ghost use Rattle.birth_laws.specs.Made.{RowsAreMade};

/// The birth of each row, in the graph and in the items, is the position of the Create or Link that made it, and the
/// position of an object's payload is that of its Create or of an Update of it.
pub fn rows_are_made_by_entries()
    ensures { (rules : RuleSet) (history : List Entry) → RowsAreMade rules history }
{}
