//! A step of an owned object that is not held.
ghost use Rattle.std.specs.Prelude.{◌≡◌};
ghost use Rattle.delf_model.specs.Graph.{out_edges, in_edges, is_touched as is_touched_in};
ghost use Rattle.job_table.specs.Free.{free_cut, free_erase as free_erase_of, free_step as free_step_of};

use crate::claims::Claims;
use crate::serial::cut;
use delf_model::{GraphStore, Job, ObjectId, What};

/// The step that takes the first edge out of the object whose step is not held.
fn free_out<G: GraphStore>(claims: &Claims, graph: &G, job: Job, id: ObjectId) -> Option<What>
    ensures { result ≡ free_cut claims.now.list job (out_edges (G.graph graph.now) id) }
{
    let mut i = 0;
    'edges: loop {
        match graph.out_at(id, i) {
            None => return None,
            Some(row) => {
                let step = cut(job, &row);
                if !claims.is_held(&step) {
                    return Some(step);
                }
                i += 1;
            }
        }
    }
}

/// The step that takes the first edge into the object whose step is not held.
fn free_in<G: GraphStore>(claims: &Claims, graph: &G, job: Job, id: ObjectId) -> Option<What>
    ensures { result ≡ free_cut claims.now.list job (in_edges (G.graph graph.now) id) }
{
    let mut i = 0;
    'edges: loop {
        match graph.in_at(id, i) {
            None => return None,
            Some(row) => {
                let step = cut(job, &row);
                if !claims.is_held(&step) {
                    return Some(step);
                }
                i += 1;
            }
        }
    }
}

/// Whether any edge touches the object. Looks at two edges at most.
pub fn is_touched<G: GraphStore>(graph: &G, id: ObjectId) -> bool
    ensures { result ≡ is_touched_in (G.graph graph.now) id }
{
    graph.out_at(id, 0).is_some() || graph.in_at(id, 0).is_some()
}

/// The step that takes the object, where no edge touches it and that step is not held.
fn free_erase<G: GraphStore>(claims: &Claims, graph: &G, job: Job, id: ObjectId) -> Option<What>
    ensures { result ≡ free_erase_of (G.graph graph.now) claims.now.list job id }
{
    let step = What::Erase { job, id };
    if is_touched(graph, id) || claims.is_held(&step) {
        return None;
    }
    Some(step)
}

/// A step of the owner that takes an edge of the object, or the object, and is not held.
pub(crate) fn free_step<G: GraphStore>(
    claims: &Claims,
    graph: &G,
    job: Job,
    id: ObjectId,
) -> Option<What>
    ensures { result ≡ free_step_of (G.graph graph.now) claims.now.list (id, job) }
{
    if let Some(step) = free_out(claims, graph, job, id) {
        return Some(step);
    }
    if let Some(step) = free_in(claims, graph, job, id) {
        return Some(step);
    }
    free_erase(claims, graph, job, id)
}
