//! The lengths of the shortest routes, found by a search over the edge types.
ghost use Rattle.std.specs.Prelude.{◌≡◌, ◌<◌, ◌≤◌, ◌+◌, ◌-◌, ◌↔◌, IfOk, IsTrue, length, map, false, None, slice_index_or};
ghost use Rattle.delf_model.specs.Checked.{NoRow, LacksEnd};
ghost use Rattle.delf_model.specs.Distances.{AreDistances, AreDistancesBelow, BeginsRoute, Extends, start_distance, unknown_count};

use crate::numbering::{Numbering, starts_routes};
use crate::schema::{EdgeRule, EdgeShape, ObjectRule};
use std::alloc::{AllocError, Global};

/// For each object type the number of edge types of a shortest route, None where it has none; the only error is
/// want of memory. Each round of the search goes over the edge types once and finds the routes of one more edge type.
pub(crate) fn distances(
    alloc: Global,
    numbering: &Numbering,
) -> Result<Vec<Option<u32>>, AllocError>
    requires few { length numbering.now.objects ≤ 64 }
    requires ends { NoRow (length numbering.now.edges) (LacksEnd numbering.now) }
    ensures { IfOk result (λ distances. AreDistances numbering.now distances.items) }
{
    let mut distances = starts(alloc, numbering)?;
    let mut edges = 1;
    while lengthen(numbering, &mut distances, edges) {
        edges += 1;
    }
    Ok(distances)
}

/// The routes of no edge types.
fn starts(alloc: Global, numbering: &Numbering) -> Result<Vec<Option<u32>>, AllocError>
    ensures { IfOk result (λ distances. distances.items ≡ map start_distance numbering.now.objects) }
{
    numbering
        .objects
        .iter()
        .map(|rule| first_distance(*rule))
        .collect(alloc)
}

fn first_distance(rule: ObjectRule) -> Option<u32>
    ensures { result ≡ start_distance rule }
{
    if starts_routes(rule) { Some(0) } else { None }
}

/// Adds the types whose shortest routes have this many edge types, and tells whether there are any.
fn lengthen(numbering: &Numbering, distances: &mut [Option<u32>], edges: u32) -> bool
    requires above { 1 ≤ edges }
    requires ends { NoRow (length numbering.now.edges) (LacksEnd numbering.now) }
    requires below { AreDistancesBelow numbering.now edges distances.old }
    ensures found { AreDistancesBelow numbering.now (edges + 1) distances.new }
    ensures more { IsTrue result → unknown_count distances.new < unknown_count distances.old }
    ensures none { result ≡ false → distances.new ≡ distances.old }
{
    let mut more = false;
    for row in 0..numbering.edges.len() {
        if extend(distances, numbering.edges[row], edges) {
            more = true;
        }
    }
    more
}

/// Gives the edge type's target this distance where it has none and the edge type begins such a route.
fn extend(distances: &mut [Option<u32>], edge: EdgeShape, edges: u32) -> bool
    requires above { 1 ≤ edges }
    requires source { edge.from < length distances.old }
    requires target { edge.to < length distances.old }
    ensures set { IsTrue result → Extends distances.old distances.new edges edge }
    ensures kept { result ≡ false → distances.new ≡ distances.old }
    ensures not { result ≡ false → slice_index_or distances.old edge.to None ≡ None → BeginsRoute distances.old edges edge.rule edge.from → ⊥ }
{
    let target = edge.to.0 as usize;
    if distances[target].is_some() || !begins_route(edge, distances, edges) {
        return false;
    }
    distances[target] = Some(edges);
    true
}

/// Whether the edge type is the first of a route of this many edge types.
fn begins_route(edge: EdgeShape, distances: &[Option<u32>], edges: u32) -> bool
    requires above { 1 ≤ edges }
    requires source { edge.from < length distances.now }
    ensures { IsTrue result ↔ BeginsRoute distances.now edges edge.rule edge.from }
{
    match edge.rule {
        EdgeRule::Deep => distances[edge.from.0 as usize] == Some(edges - 1),
        EdgeRule::Shallow => false,
        EdgeRule::Refcount => edges == 1,
    }
}
