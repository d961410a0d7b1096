//! Whether an entry may come next.
ghost use Rattle.std.specs.Prelude.{◌≡◌, ℕ, max, min, is_none, nat_lt, slice_get};
ghost use Rattle.delf_model.specs.declared.entry.Tag.{Tag};
ghost use Rattle.delf_model.specs.declared.entry.What.{What};
ghost use Rattle.delf_model.specs.State.{State, is_owned_by};
ghost use Rattle.delf_model.specs.Step.{tag_of as tag_of_entry};
ghost use Rattle.delf_model.specs.Legal.{is_legal as is_legal_entry, is_allowed as is_allowed_entry, is_tag, is_numbered as is_numbered_entry, may_expire as may_expire_object};
ghost use Rattle.delf_model.specs.Room.{greatest_moment};
ghost use Rattle.job_table.specs.Table.{IsTableOf, IsGraphOf};

use delf_model::{
    EdgeKey, EdgeNo, Entry, GREATEST_MOMENT, GraphStore, Job, Moment, ObjectId, Rules, Tag, What,
};
use job_table::{JobTable, is_touched};
use live_writes::{refused_create, refused_delete, refused_link, refused_unlink, refused_update};

/// The moment of an entry that is made when the clock says `now`.
pub fn moment_at(last: Moment, now: Moment) -> Moment
    ensures { result ≡ max last (min now greatest_moment) }
{
    last.max(now.min(GREATEST_MOMENT))
}

/// Whether the entry may come next after a history of which graph, table and rules are.
pub(crate) fn is_legal<G: GraphStore>(
    graph: &G,
    jobs: &JobTable,
    rules: &Rules,
    entry: &Entry,
) -> bool
    ensures { (s : State) → IsTableOf s jobs.now → IsGraphOf s (G.graph graph.now) (G.counts graph.now) rules.now → result ≡ is_legal_entry s entry.now }
{
    jobs.may_come(entry.moment)
        && is_tagged(jobs, &entry.what)
        && is_numbered(rules, &entry.what)
        && is_allowed(graph, jobs, rules, entry.moment, &entry.what)
}

/// The tag of an entry that a call made.
fn tag_of(what: &What) -> Option<Tag>
    ensures { result ≡ tag_of_entry what.now }
{
    match what {
        What::Create { tag, .. } => Some(*tag),
        What::Update { tag, .. } => Some(*tag),
        What::Link { tag, .. } => Some(*tag),
        What::Unlink { tag, .. } => Some(*tag),
        What::Delete { tag, .. } => Some(*tag),
        What::Restore { tag, .. } => Some(*tag),
        What::Expire { .. } => None,
        What::Cut { .. } => None,
        What::Erase { .. } => None,
        What::Put { .. } => None,
        What::Purge { .. } => None,
    }
}

/// Whether the tag of the entry, where it has one, is the next of its seat.
fn is_tagged(jobs: &JobTable, what: &What) -> bool
    ensures { (s : State) → IsTableOf s jobs.now → result ≡ is_tag s (tag_of_entry what.now) }
{
    match tag_of(what) {
        Some(tag) => tag.k == jobs.seat_entries(tag.seat) && tag.seat <= 64 * (jobs.len() + 1),
        None => true,
    }
}

/// Whether the rules have the type that a Create names, or the edge type that a Link names.
fn is_numbered(rules: &Rules, what: &What) -> bool
    ensures { result ≡ is_numbered_entry rules.now what.now }
{
    match what {
        What::Create { kind, .. } => (kind.0 as usize) < rules.objects_len(),
        What::Link { edge, .. } => (edge.0 as usize) < rules.edges_len(),
        What::Update { .. } => true,
        What::Unlink { .. } => true,
        What::Delete { .. } => true,
        What::Restore { .. } => true,
        What::Expire { .. } => true,
        What::Cut { .. } => true,
        What::Erase { .. } => true,
        What::Put { .. } => true,
        What::Purge { .. } => true,
    }
}

/// Whether the entry meets what its kind has to meet.
fn is_allowed<G: GraphStore>(
    graph: &G,
    jobs: &JobTable,
    rules: &Rules,
    moment: Moment,
    what: &What,
) -> bool
    ensures { (s : State) → IsTableOf s jobs.now → IsGraphOf s (G.graph graph.now) (G.counts graph.now) rules.now → result ≡ is_allowed_entry s moment what.now }
{
    match what {
        What::Create { id, size, .. } => {
            refused_create(graph, jobs, rules, *id, *size as usize).is_none()
        }
        What::Update { id, size, .. } => {
            refused_update(graph, jobs, rules, *id, *size as usize).is_none()
        }
        What::Link {
            edge,
            from,
            to,
            size,
            ..
        } => may_link(graph, jobs, rules, *edge, *from, *to, *size),
        What::Unlink {
            edge,
            from,
            to,
            name,
            ..
        } => may_unlink(graph, jobs, rules, *edge, *from, *to, *name),
        What::Delete { id, name, .. } => refused_delete(graph, jobs, rules, *id, *name).is_none(),
        What::Restore { job, .. } => jobs.may_restore(rules.window(), moment, *job),
        What::Expire { id } => may_expire(graph, jobs, moment, *id),
        What::Cut {
            job,
            edge,
            from,
            to,
        } => may_cut(graph, jobs, *job, *edge, *from, *to),
        What::Erase { job, id } => owns(jobs, *job, *id) && !is_touched(graph, *id),
        What::Put { job, item } => jobs.may_put(*job, *item),
        What::Purge { job } => jobs.may_purge(rules.window(), moment, *job),
    }
}

/// Whether this edge may be linked.
fn may_link<G: GraphStore>(
    graph: &G,
    jobs: &JobTable,
    rules: &Rules,
    edge: EdgeNo,
    from: ObjectId,
    to: ObjectId,
    size: u16,
) -> bool
    ensures { (s : State) (moment : ℕ) (tag : Tag) → IsTableOf s jobs.now → IsGraphOf s (G.graph graph.now) (G.counts graph.now) rules.now → result ≡ is_allowed_entry s moment (What.Link tag edge from to size) }
{
    let key = EdgeKey { edge, from, to };
    refused_link(graph, jobs, rules, &key, size as usize).is_none()
}

/// Whether this edge may be unlinked, under this name for a job that it starts.
fn may_unlink<G: GraphStore>(
    graph: &G,
    jobs: &JobTable,
    rules: &Rules,
    edge: EdgeNo,
    from: ObjectId,
    to: ObjectId,
    name: u32,
) -> bool
    ensures { (s : State) (moment : ℕ) (tag : Tag) → IsTableOf s jobs.now → IsGraphOf s (G.graph graph.now) (G.counts graph.now) rules.now → result ≡ is_allowed_entry s moment (What.Unlink tag edge from to name) }
{
    let key = EdgeKey { edge, from, to };
    refused_unlink(graph, jobs, rules, &key, name).is_none()
}

/// Whether the job may cut this edge: it is there, and an end of it is the job's.
fn may_cut<G: GraphStore>(
    graph: &G,
    jobs: &JobTable,
    job: Job,
    edge: EdgeNo,
    from: ObjectId,
    to: ObjectId,
) -> bool
    ensures { (s : State) (moment : ℕ) → IsTableOf s jobs.now → G.graph graph.now ≡ s.graph → result ≡ is_allowed_entry s moment (What.Cut job edge from to) }
{
    let key = EdgeKey { edge, from, to };
    graph.edge(key).is_some() && (owns(jobs, job, from) || owns(jobs, job, to))
}

/// Whether the object is due at this moment and has no owner.
fn may_expire<G: GraphStore>(graph: &G, jobs: &JobTable, moment: Moment, id: ObjectId) -> bool
    ensures { (s : State) → IsTableOf s jobs.now → G.graph graph.now ≡ s.graph → result ≡ may_expire_object s moment id }
{
    match graph.object(id) {
        Some(row) => 0 < row.due && row.due <= moment && jobs.owner(id).is_none(),
        None => false,
    }
}

/// Whether the job owns the object.
fn owns(jobs: &JobTable, job: Job, id: ObjectId) -> bool
    ensures { (s : State) → IsTableOf s jobs.now → result ≡ is_owned_by s job id }
{
    match jobs.owner(id) {
        Some(other) => other == job,
        None => false,
    }
}
