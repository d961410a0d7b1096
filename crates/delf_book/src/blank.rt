//! The fold of the blank history.
ghost use Rattle.std.specs.Prelude.{◌≡◌, ℕ, []};
ghost use Rattle.delf_model.specs.RuleSet.{is_refcount};
ghost use Rattle.delf_model.specs.Graph.{empty_graph};

use crate::folds::Fold;
use delf_model::{GraphStore, Rules};
use ledger::Ledger;
use std::alloc::Global;

/// The fold of the blank history over a blank graph. Takes no memory.
pub fn fold<G: GraphStore>(alloc: Global, rules: Rules, graph: G) -> Fold<G>
    requires blank { G.graph graph ≡ empty_graph }
    requires counts { (edge : ℕ) → G.counts graph edge ≡ is_refcount rules edge }
    ensures rules { result.rules ≡ rules }
    ensures history { result.history ≡ [] }
    ensures store { result.store ≡ graph }
    ensures held { result.held ≡ [] }
{
    Fold {
        ledger: Ledger::new(alloc, rules, graph),
        carriers: Vec::new(alloc),
        claims: Vec::new(alloc),
    }
}
