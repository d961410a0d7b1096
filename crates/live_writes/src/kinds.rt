//! The first refusal of each kind of call but a restore.
ghost use Rattle.std.specs.Prelude.{◌≡◌, ◌≤◌, ℕ, Bool, None};
ghost use Rattle.delf_model.specs.declared.entry.What.{What};
ghost use Rattle.delf_model.specs.declared.entry.Tag.{Tag};
ghost use Rattle.delf_model.specs.State.{State};
ghost use Rattle.delf_model.specs.Reply.{refused, first_refusal};
ghost use Rattle.delf_model.specs.RuleSet.{RuleSet};
ghost use Rattle.live_writes.specs.History.{ends_refusals};
ghost use Rattle.job_table.specs.Table.{IsTableOf, IsGraphOf};

use crate::refusals::{
    absent, condemned, edge_taken, full, job_taken, name_taken, no_edge, not_direct, starts_job,
    too_long, wrong_source, wrong_target,
};
use delf_model::{EdgeKey, GraphStore, ObjectId, Refusal, Rules};
use job_table::JobTable;

pub fn refused_create<G: GraphStore>(
    graph: &G,
    jobs: &JobTable,
    rules: &Rules,
    id: ObjectId,
    size: usize,
) -> Option<Refusal>
    ensures refused { (s : State) (moment kind : ℕ) (tag : Tag) → IsTableOf s jobs.now → IsGraphOf s (G.graph graph.now) (G.counts graph.now) rules.now → result ≡ refused s moment (What.Create tag kind id size) }
    ensures small { result ≡ None → size ≤ 512 }
{
    if let Some(refusal) = too_long(size) {
        return Some(refusal);
    }
    if let Some(refusal) = name_taken(graph, id) {
        return Some(refusal);
    }
    full(jobs, 3)
}

pub fn refused_update<G: GraphStore>(
    graph: &G,
    jobs: &JobTable,
    rules: &Rules,
    id: ObjectId,
    size: usize,
) -> Option<Refusal>
    ensures refused { (s : State) (moment : ℕ) (tag : Tag) → IsTableOf s jobs.now → IsGraphOf s (G.graph graph.now) (G.counts graph.now) rules.now → result ≡ refused s moment (What.Update tag id size) }
    ensures small { result ≡ None → size ≤ 512 }
{
    if let Some(refusal) = too_long(size) {
        return Some(refusal);
    }
    if let Some(refusal) = absent(graph, id) {
        return Some(refusal);
    }
    if let Some(refusal) = condemned(jobs, id) {
        return Some(refusal);
    }
    full(jobs, 0)
}

pub fn refused_link<G: GraphStore>(
    graph: &G,
    jobs: &JobTable,
    rules: &Rules,
    key: &EdgeKey,
    size: usize,
) -> Option<Refusal>
    ensures refused { (s : State) (moment : ℕ) (tag : Tag) → IsTableOf s jobs.now → IsGraphOf s (G.graph graph.now) (G.counts graph.now) rules.now → result ≡ refused s moment (What.Link tag key.now.edge key.now.from key.now.to size) }
    ensures small { result ≡ None → size ≤ 512 }
{
    if let Some(refusal) = too_long(size) {
        return Some(refusal);
    }
    if let Some(refusal) = refused_ends(graph, jobs, key) {
        return Some(refusal);
    }
    if let Some(refusal) = wrong_source(graph, rules, key.edge, key.from) {
        return Some(refusal);
    }
    if let Some(refusal) = wrong_target(graph, rules, key.edge, key.to) {
        return Some(refusal);
    }
    if let Some(refusal) = edge_taken(graph, *key) {
        return Some(refusal);
    }
    full(jobs, 1)
}

/// An end of the edge that is absent, or else one that is condemned; of each the source comes first.
fn refused_ends<G: GraphStore>(graph: &G, jobs: &JobTable, key: &EdgeKey) -> Option<Refusal>
    ensures { (s : State) (refs : ℕ → Bool) (ruled : RuleSet) → IsTableOf s jobs.now → IsGraphOf s (G.graph graph.now) refs ruled → result ≡ first_refusal (ends_refusals s key.now.from key.now.to) }
{
    if let Some(refusal) = absent(graph, key.from) {
        return Some(refusal);
    }
    if let Some(refusal) = absent(graph, key.to) {
        return Some(refusal);
    }
    if let Some(refusal) = condemned(jobs, key.from) {
        return Some(refusal);
    }
    condemned(jobs, key.to)
}

pub fn refused_unlink<G: GraphStore>(
    graph: &G,
    jobs: &JobTable,
    rules: &Rules,
    key: &EdgeKey,
    name: u32,
) -> Option<Refusal>
    ensures { (s : State) (moment : ℕ) (tag : Tag) → IsTableOf s jobs.now → IsGraphOf s (G.graph graph.now) (G.counts graph.now) rules.now → result ≡ refused s moment (What.Unlink tag key.now.edge key.now.from key.now.to name) }
{
    if let Some(refusal) = refused_ends(graph, jobs, key) {
        return Some(refusal);
    }
    if let Some(refusal) = no_edge(graph, *key) {
        return Some(refusal);
    }
    if starts_job(graph, rules, *key) {
        return job_taken(jobs, name);
    }
    None
}

pub fn refused_delete<G: GraphStore>(
    graph: &G,
    jobs: &JobTable,
    rules: &Rules,
    id: ObjectId,
    name: u32,
) -> Option<Refusal>
    ensures { (s : State) (moment : ℕ) (tag : Tag) → IsTableOf s jobs.now → IsGraphOf s (G.graph graph.now) (G.counts graph.now) rules.now → result ≡ refused s moment (What.Delete tag id name) }
{
    if let Some(refusal) = absent(graph, id) {
        return Some(refusal);
    }
    if let Some(refusal) = condemned(jobs, id) {
        return Some(refusal);
    }
    if let Some(refusal) = not_direct(graph, rules, id) {
        return Some(refusal);
    }
    job_taken(jobs, name)
}
