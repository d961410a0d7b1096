//! The answer to each kind of call, from its first refusal.
ghost use Rattle.std.specs.Prelude.{◌≡◌, ℕ, Some};
ghost use Rattle.delf_model.specs.declared.entry.What.{What};
ghost use Rattle.delf_model.specs.State.{State, find_job};
ghost use Rattle.delf_model.specs.Reply.{answered, reply_at, restore_of};
ghost use Rattle.job_table.specs.Table.{IsTableOf, IsGraphOf};
ghost use Rattle.live_writes.specs.History.{AreOfOneHistory, IsTableOfHistory};

use crate::kinds::{refused_create, refused_delete, refused_link, refused_unlink, refused_update};
use crate::restores::refused_restore;
use delf_model::{
    Call, EdgeKey, GraphStore, JobName, Moment, ObjectId, Refusal, Rules, Tag, TypeNo, What,
};
use job_table::JobTable;

/// What a call is answered after a history, made with this tag at this moment: its entry, or the first refusal that holds.
/// Graph, table and rules are those of one history. Takes no memory, and walks over nothing.
pub fn judge<G: GraphStore>(
    graph: &G,
    jobs: &JobTable,
    rules: &Rules,
    moment: Moment,
    tag: Tag,
    call: &Call,
) -> Result<What, Refusal>
    requires { AreOfOneHistory jobs.now (G.graph graph.now) (G.counts graph.now) rules.now }
    ensures { (s : State) → IsTableOf s jobs.now → IsGraphOf s (G.graph graph.now) (G.counts graph.now) rules.now → result ≡ reply_at s moment tag call.now }
{
    match call {
        Call::Create { kind, id, payload } => {
            let size = payload.len();
            judge_create(graph, jobs, rules, tag, *kind, *id, size)
        }
        Call::Update { id, payload } => {
            let size = payload.len();
            judge_update(graph, jobs, rules, tag, *id, size)
        }
        Call::Link {
            edge,
            from,
            to,
            payload,
        } => {
            let size = payload.len();
            let key = EdgeKey {
                edge: *edge,
                from: *from,
                to: *to,
            };
            judge_link(graph, jobs, rules, tag, key, size)
        }
        Call::Unlink {
            edge,
            from,
            to,
            name,
        } => {
            let key = EdgeKey {
                edge: *edge,
                from: *from,
                to: *to,
            };
            judge_unlink(graph, jobs, rules, tag, key, *name)
        }
        Call::Delete { id, name } => judge_delete(graph, jobs, rules, tag, *id, *name),
        Call::Restore { name } => judge_restore(jobs, rules, moment, tag, name),
    }
}

fn judge_create<G: GraphStore>(
    graph: &G,
    jobs: &JobTable,
    rules: &Rules,
    tag: Tag,
    kind: TypeNo,
    id: ObjectId,
    size: usize,
) -> Result<What, Refusal>
    ensures { (s : State) (moment : ℕ) → IsTableOf s jobs.now → IsGraphOf s (G.graph graph.now) (G.counts graph.now) rules.now → result ≡ answered s moment (Some (What.Create tag kind id size)) }
{
    match refused_create(graph, jobs, rules, id, size) {
        Some(refusal) => Err(refusal),
        None => Ok(What::Create {
            tag,
            kind,
            id,
            size: size as u16,
        }),
    }
}

fn judge_update<G: GraphStore>(
    graph: &G,
    jobs: &JobTable,
    rules: &Rules,
    tag: Tag,
    id: ObjectId,
    size: usize,
) -> Result<What, Refusal>
    ensures { (s : State) (moment : ℕ) → IsTableOf s jobs.now → IsGraphOf s (G.graph graph.now) (G.counts graph.now) rules.now → result ≡ answered s moment (Some (What.Update tag id size)) }
{
    match refused_update(graph, jobs, rules, id, size) {
        Some(refusal) => Err(refusal),
        None => Ok(What::Update {
            tag,
            id,
            size: size as u16,
        }),
    }
}

fn judge_link<G: GraphStore>(
    graph: &G,
    jobs: &JobTable,
    rules: &Rules,
    tag: Tag,
    key: EdgeKey,
    size: usize,
) -> Result<What, Refusal>
    ensures { (s : State) (moment : ℕ) → IsTableOf s jobs.now → IsGraphOf s (G.graph graph.now) (G.counts graph.now) rules.now → result ≡ answered s moment (Some (What.Link tag key.edge key.from key.to size)) }
{
    match refused_link(graph, jobs, rules, &key, size) {
        Some(refusal) => Err(refusal),
        None => Ok(What::Link {
            tag,
            edge: key.edge,
            from: key.from,
            to: key.to,
            size: size as u16,
        }),
    }
}

fn judge_unlink<G: GraphStore>(
    graph: &G,
    jobs: &JobTable,
    rules: &Rules,
    tag: Tag,
    key: EdgeKey,
    name: u32,
) -> Result<What, Refusal>
    ensures { (s : State) (moment : ℕ) → IsTableOf s jobs.now → IsGraphOf s (G.graph graph.now) (G.counts graph.now) rules.now → result ≡ answered s moment (Some (What.Unlink tag key.edge key.from key.to name)) }
{
    match refused_unlink(graph, jobs, rules, &key, name) {
        Some(refusal) => Err(refusal),
        None => Ok(What::Unlink {
            tag,
            edge: key.edge,
            from: key.from,
            to: key.to,
            name,
        }),
    }
}

fn judge_delete<G: GraphStore>(
    graph: &G,
    jobs: &JobTable,
    rules: &Rules,
    tag: Tag,
    id: ObjectId,
    name: u32,
) -> Result<What, Refusal>
    ensures { (s : State) (moment : ℕ) → IsTableOf s jobs.now → IsGraphOf s (G.graph graph.now) (G.counts graph.now) rules.now → result ≡ answered s moment (Some (What.Delete tag id name)) }
{
    match refused_delete(graph, jobs, rules, id, name) {
        Some(refusal) => Err(refusal),
        None => Ok(What::Delete { tag, id, name }),
    }
}

fn judge_restore(
    jobs: &JobTable,
    rules: &Rules,
    moment: Moment,
    tag: Tag,
    name: &JobName,
) -> Result<What, Refusal>
    requires { IsTableOfHistory jobs.now rules.now }
    ensures { (s : State) → IsTableOf s jobs.now → rules.now ≡ s.rules → result ≡ answered s moment (restore_of tag (find_job s.jobs name.now)) }
{
    match jobs.find(*name) {
        Some(job) => match refused_restore(jobs, rules, moment, *name, job) {
            Some(refusal) => Err(refusal),
            None => Ok(What::Restore { tag, job }),
        },
        None => Err(Refusal::NoJob),
    }
}
