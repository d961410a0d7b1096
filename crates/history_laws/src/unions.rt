//! The law of restores: with its puts alone a restore joins, over every legal history.

ghost use Rattle.std.specs.Prelude.{List, IsTrue};
ghost use Rattle.delf_model.specs.declared.entry.Entry.{Entry};
ghost use Rattle.delf_model.specs.RuleSet.{RuleSet};
ghost use Rattle.delf_model.specs.Graph.{edges_rise};
ghost use Rattle.delf_model.specs.Step.{after};
ghost use Rattle.delf_model.specs.Legal.{Legal};
ghost use Rattle.delf_model.specs.Sound.{RestoreIsUnion};

/// No key stands twice in the graph, and edges go by rising key.
#[tactic(auto, using(crate::proofs::SameGraph::edges_rise_after))]
pub fn keys_rise()
    ensures { (rules : RuleSet) (history : List Entry) → Legal rules history → IsTrue (edges_rise (after rules history).graph.edges) }
{}

/// Where a restore is followed by the puts of its job alone until no item is left, and no two of its objects have one
/// id, the graph is the union of the graph after the restore and the items: each object whose id is free there, and
/// each edge whose key is free and whose ends stand among those objects with their logged births and without an owner.
#[tactic(auto, using(crate::proofs::Union::restore_is_union))]
pub fn a_restore_is_a_union()
    ensures { (rules : RuleSet) (history : List Entry) → Legal rules history → RestoreIsUnion rules history }
{}
