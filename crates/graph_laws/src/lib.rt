//! The laws of graphs, over every legal history: the graph is a graph of its rules, and who is condemned. Each law is the
//! contract of a function that does nothing.
#![tactic(auto)]

ghost use Rattle.std.specs.Prelude.{List};
ghost use Rattle.delf_model.specs.declared.entry.Entry.{Entry};
ghost use Rattle.delf_model.specs.RuleSet.{RuleSet};
ghost use Rattle.delf_model.specs.Graph.{IsGraph};
ghost use Rattle.delf_model.specs.Step.{after};
ghost use Rattle.delf_model.specs.Legal.{Legal};
ghost use Rattle.delf_model.specs.Checked.{KeepsRules};
ghost use Rattle.graph_laws.specs.Kinds.{OwnedForCause, NotDeletedStays, DirectlyOnlyIsRoot};

/// Ids and keys rise, and each end of each edge stands with the type that the edge type names.
pub fn graph_is_of_its_rules()
    ensures { (rules : RuleSet) (history : List Entry) → Legal rules history → IsGraph rules (after rules history).graph }
{}

/// Under checked rules each owned object is the root of its job, by a delete call that its type allows, by its expiry or by
/// the end of its last reference, or its job cut an edge into it that condemns; in the last two cases its type is one that
/// edges may condemn.
pub fn owned_objects_have_a_cause()
    ensures { (rules : RuleSet) (history : List Entry) → KeepsRules rules → Legal rules history → OwnedForCause rules history }
{}

/// Under checked rules an object of a not_deleted type never has an owner and is never erased: it stays.
pub fn not_deleted_stays()
    ensures { (rules : RuleSet) (history : List Entry) → KeepsRules rules → Legal rules history → NotDeletedStays rules history }
{}

/// Under checked rules an object of a directly_only type has an owner only as the root of a delete call of its own.
pub fn directly_only_is_a_root()
    ensures { (rules : RuleSet) (history : List Entry) → KeepsRules rules → Legal rules history → DirectlyOnlyIsRoot rules history }
{}
