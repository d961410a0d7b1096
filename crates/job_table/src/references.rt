//! What an edge that goes does to its target: the one place of this rule.
ghost use Rattle.std.specs.Prelude.{◌≡◌};
ghost use Rattle.delf_model.specs.RuleSet.{is_deep as is_deep_by};
ghost use Rattle.job_table.specs.Notes.{condemns_before, takes_last};

use delf_model::{EdgeKey, EdgeNo, EdgeRule, GraphStore, Rules};

/// Whether the edge condemns its target as it goes: it is deep, or the last reference of a refcount type.
pub(crate) fn condemns<G: GraphStore>(graph: &G, rules: &Rules, key: &EdgeKey) -> bool
    ensures { result ≡ condemns_before rules.now (G.counts graph.now) (G.graph graph.now) key.now }
{
    is_deep(rules, key.edge) || takes_last_reference(graph, rules, key)
}

fn is_deep(rules: &Rules, edge: EdgeNo) -> bool
    ensures { result ≡ is_deep_by rules.now edge }
{
    match rules.edge(edge) {
        Some(shape) => match shape.rule {
            EdgeRule::Deep => true,
            EdgeRule::Shallow => false,
            EdgeRule::Refcount => false,
        },
        None => false,
    }
}

/// Whether the edge is the last one of a refcount type into its target. Takes no memory.
pub fn takes_last_reference<G: GraphStore>(graph: &G, rules: &Rules, key: &EdgeKey) -> bool
    ensures { result ≡ takes_last rules.now (G.counts graph.now) (G.graph graph.now) key.now }
{
    match rules.edge(key.edge) {
        Some(shape) => match shape.rule {
            EdgeRule::Deep => false,
            EdgeRule::Shallow => false,
            EdgeRule::Refcount => graph.ref_count(key.to) == 1,
        },
        None => false,
    }
}
