//! Which edge type begins the printed route of a type.
ghost use Rattle.std.specs.Prelude.{◌≡◌, ◌↔◌, ◌≤◌, ◌<◌, IsTrue, slice_get};
ghost use Rattle.schema_checks.specs.Routes.{IsFirstEdge, BeginsShortest};

use delf_model::{EdgeNo, EdgeRule, Rules, TypeNo};

/// The first edge type of the type's printed route; None where the route is empty or there is none.
pub(crate) fn first_edge(rules: &Rules, kind: TypeNo) -> Option<EdgeNo>
    ensures { IsFirstEdge rules.now kind result }
{
    let edges = rules.distance(kind)?;
    if edges == 0 {
        return None;
    }
    for row in 0..rules.edges_len() {
        let edge = EdgeNo(row as u8);
        if begins_shortest(rules, kind, edges, edge) {
            return Some(edge);
        }
    }
    None
}

/// Whether the edge type begins a route of this many edge types that goes on by a shortest route of its source.
fn begins_shortest(rules: &Rules, kind: TypeNo, edges: u32, edge: EdgeNo) -> bool
    requires { 0 < edges }
    ensures { IsTrue result ↔ BeginsShortest rules.now kind edges edge }
{
    let Some(shape) = rules.edge(edge) else {
        return false;
    };
    if shape.to != kind {
        return false;
    }
    match shape.rule {
        EdgeRule::Deep => rules.distance(shape.from) == Some(edges - 1),
        EdgeRule::Shallow => false,
        EdgeRule::Refcount => edges == 1,
    }
}
