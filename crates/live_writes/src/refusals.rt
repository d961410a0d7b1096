//! The refusals one by one: each is given exactly where its condition holds, with the values that it keeps.
ghost use Rattle.std.specs.Prelude.{◌≡◌, ◌+◌, ◌<◌, ◌^◌, ℕ, Bool};
ghost use Rattle.delf_model.specs.declared.entry.What.{What};
ghost use Rattle.delf_model.specs.RuleSet.{RuleSet};
ghost use Rattle.delf_model.specs.State.{State};
ghost use Rattle.delf_model.specs.Step.{step};
ghost use Rattle.delf_model.specs.Owners.{unlink_start};
ghost use Rattle.std.specs.Prelude.{slice_get, is_some, true, Some};
ghost use Rattle.delf_model.specs.Graph.{edge_stands, object_at};
ghost use Rattle.delf_model.specs.Room.{owed};
ghost use Rattle.delf_model.specs.Reply.{too_long as is_too_long, absent as is_absent, condemned as is_condemned, wrong_source as has_wrong_source, wrong_target as has_wrong_target, kind_differs as is_other_kind, name_taken as is_name_taken, edge_taken as is_edge_taken, no_edge as has_no_edge, not_direct as is_not_direct, not_direct_rule as is_not_direct_rule, is_direct as may_be_root, job_taken as is_job_taken, full as is_full};
ghost use Rattle.job_table.specs.Table.{IsTableOf, IsGraphOf};

use delf_model::{
    EdgeKey, EdgeNo, GraphStore, JobName, LIMIT, ObjectId, ObjectRule, ROOM_LIMIT, Refusal, Rules,
    TypeNo,
};
use job_table::{JobTable, takes_last_reference};

pub fn too_long(size: usize) -> Option<Refusal>
    ensures { result ≡ is_too_long size }
{
    if size > LIMIT {
        return Some(Refusal::TooLong { len: size as u64 });
    }
    None
}

pub fn absent<G: GraphStore>(graph: &G, id: ObjectId) -> Option<Refusal>
    ensures { (s : State) (refs : ℕ → Bool) (ruled : RuleSet) → IsGraphOf s (G.graph graph.now) refs ruled → result ≡ is_absent s id }
{
    match graph.object(id) {
        Some(_) => None,
        None => Some(Refusal::Absent { id }),
    }
}

pub fn condemned(jobs: &JobTable, id: ObjectId) -> Option<Refusal>
    ensures { (s : State) → IsTableOf s jobs.now → result ≡ is_condemned s id }
{
    match jobs.owner(id) {
        Some(job) => Some(Refusal::Condemned { id, job }),
        None => None,
    }
}

pub fn wrong_source<G: GraphStore>(
    graph: &G,
    rules: &Rules,
    edge: EdgeNo,
    from: ObjectId,
) -> Option<Refusal>
    ensures { (s : State) (refs : ℕ → Bool) → IsGraphOf s (G.graph graph.now) refs rules.now → result ≡ has_wrong_source s from (slice_get s.rules.edges edge) }
{
    match rules.edge(edge) {
        Some(shape) => other_kind(graph, from, shape.from),
        None => None,
    }
}

pub fn wrong_target<G: GraphStore>(
    graph: &G,
    rules: &Rules,
    edge: EdgeNo,
    to: ObjectId,
) -> Option<Refusal>
    ensures { (s : State) (refs : ℕ → Bool) → IsGraphOf s (G.graph graph.now) refs rules.now → result ≡ has_wrong_target s to (slice_get s.rules.edges edge) }
{
    match rules.edge(edge) {
        Some(shape) => other_kind(graph, to, shape.to),
        None => None,
    }
}

fn other_kind<G: GraphStore>(graph: &G, id: ObjectId, kind: TypeNo) -> Option<Refusal>
    ensures { result ≡ is_other_kind id kind (object_at (G.graph graph.now) id) }
{
    match graph.object(id) {
        Some(row) => {
            if row.kind.0 == kind.0 {
                None
            } else {
                Some(Refusal::WrongEnd { id, kind: row.kind })
            }
        }
        None => None,
    }
}

pub fn name_taken<G: GraphStore>(graph: &G, id: ObjectId) -> Option<Refusal>
    ensures { (s : State) (refs : ℕ → Bool) (ruled : RuleSet) → IsGraphOf s (G.graph graph.now) refs ruled → result ≡ is_name_taken s id }
{
    match graph.object(id) {
        Some(row) => Some(Refusal::NameTaken {
            id: row.id,
            birth: row.birth,
        }),
        None => None,
    }
}

pub fn edge_taken<G: GraphStore>(graph: &G, key: EdgeKey) -> Option<Refusal>
    ensures { (s : State) (refs : ℕ → Bool) (ruled : RuleSet) → IsGraphOf s (G.graph graph.now) refs ruled → result ≡ is_edge_taken s key }
{
    match graph.edge(key) {
        Some(row) => Some(Refusal::EdgeTaken { birth: row.birth }),
        None => None,
    }
}

pub fn no_edge<G: GraphStore>(graph: &G, key: EdgeKey) -> Option<Refusal>
    ensures { (s : State) (refs : ℕ → Bool) (ruled : RuleSet) → IsGraphOf s (G.graph graph.now) refs ruled → result ≡ has_no_edge s key }
{
    match graph.edge(key) {
        Some(_) => None,
        None => Some(Refusal::NoEdge),
    }
}

pub fn not_direct<G: GraphStore>(graph: &G, rules: &Rules, id: ObjectId) -> Option<Refusal>
    ensures { (s : State) (refs : ℕ → Bool) → IsGraphOf s (G.graph graph.now) refs rules.now → result ≡ is_not_direct s id }
{
    match graph.object(id) {
        Some(row) => match rules.object(row.kind) {
            Some(rule) => not_direct_rule(rule),
            None => None,
        },
        None => None,
    }
}

fn not_direct_rule(rule: ObjectRule) -> Option<Refusal>
    ensures { result ≡ is_not_direct_rule (Some rule) }
{
    if is_direct(&rule) {
        return None;
    }
    Some(Refusal::NotDirect { rule })
}

/// Whether objects with this annotation may be the root of a delete call.
fn is_direct(rule: &ObjectRule) -> bool
    ensures { result ≡ may_be_root rule.now }
{
    match rule {
        ObjectRule::Directly => true,
        ObjectRule::DirectlyOnly => true,
        ObjectRule::ByAny => false,
        ObjectRule::ShortTtl(_) => false,
        ObjectRule::NotDeleted => false,
    }
}

pub fn job_taken(jobs: &JobTable, name: u32) -> Option<Refusal>
    ensures { (s : State) → IsTableOf s jobs.now → result ≡ is_job_taken s name }
{
    match jobs.find(JobName::Named(name)) {
        Some(_) => Some(Refusal::JobTaken { name }),
        None => None,
    }
}

/// Whether an unlink of this edge, where it stands, starts a job: it is the last of a refcount type into its target.
/// Takes no memory.
pub fn starts_job<G: GraphStore>(graph: &G, rules: &Rules, key: EdgeKey) -> bool
    ensures { (s : State) (name : ℕ) → IsGraphOf s (G.graph graph.now) (G.counts graph.now) rules.now → edge_stands s.graph key ≡ true → result ≡ is_some (unlink_start s key.edge key.from key.to name) }
{
    takes_last_reference(graph, rules, &key)
}

/// No room for an entry after which so much more is owed.
pub fn full(jobs: &JobTable, more: u64) -> Option<Refusal>
    requires { more < 2 ^ 40 }
    ensures { (s : State) (moment : ℕ) (what : What) → IsTableOf s jobs.now → owed (step s (record { moment = moment; what = what })) ≡ owed s + more → result ≡ is_full s moment what }
{
    let (used, owed) = jobs.room();
    if u64::from(used) + 1 + u64::from(owed) + more > u64::from(ROOM_LIMIT) {
        return Some(Refusal::Full { used, owed });
    }
    None
}
