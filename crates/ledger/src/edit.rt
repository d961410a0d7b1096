//! What an entry does to the graph, and the size of its record's payload.
ghost use Rattle.std.specs.Prelude.{◌≡◌, ◌≤◌, ℕ, IsTrue, OnOk, cond, is_none, slice_get};
ghost use Rattle.delf_model.specs.declared.rows.EdgeKey.{EdgeKey};
ghost use Rattle.delf_model.specs.declared.rows.Item.{Item};
ghost use Rattle.delf_model.specs.Graph.{changed, Same};
ghost use Rattle.delf_model.specs.Room.{greatest_moment};
ghost use Rattle.delf_model.specs.State.{State, size_of};
ghost use Rattle.delf_model.specs.Puts.{judged};
ghost use Rattle.delf_model.specs.Step.{new_object as object_of, new_edge as edge_of, due_of, change_of, put_unless, put_of_item};
ghost use Rattle.job_table.specs.Table.{IsTableOf, IsGraphOf, item_at};
ghost use Rattle.ledger.specs.Edits.{change_of_edit, CanChange};
ghost use Rattle.ledger.specs.Ledgers.{has_room_for};
ghost use Rattle.payload_laws.specs.Holders.{record_size as record_size_of, put_size as put_size_of};

use delf_model::{
    EdgeKey, EdgeNo, EdgeRow, Entry, GraphStore, Item, Moment, ObjectId, ObjectRow, ObjectRule,
    Rules, TypeNo, What,
};
use job_table::JobTable;
use restorer::judge_put;
use std::alloc::AllocError;

/// What one entry does to the graph.
#[derive(Clone, Copy)]
pub(crate) enum Edit {
    Keep,
    PutObject(ObjectRow),
    TakeObject(ObjectId),
    RewriteObject { id: ObjectId, at: u32, size: u16 },
    PutEdge(EdgeRow),
    TakeEdge(EdgeKey),
}

/// What the entry does to the graph of a state, before it is done.
pub(crate) fn edit_of<G: GraphStore>(
    graph: &G,
    jobs: &JobTable,
    rules: &Rules,
    entry: &Entry,
) -> Edit
    requires { entry.now.moment ≤ greatest_moment }
    ensures { (s : State) → IsTableOf s jobs.now → IsGraphOf s (G.graph graph.now) (G.counts graph.now) rules.now → change_of_edit result ≡ change_of s entry.now.moment entry.now.what }
{
    let len = jobs.len();
    match &entry.what {
        What::Create { kind, id, size, .. } => {
            Edit::PutObject(new_object(rules, len, entry.moment, *kind, *id, *size))
        }
        What::Update { id, size, .. } => Edit::RewriteObject {
            id: *id,
            at: len,
            size: *size,
        },
        What::Link {
            edge,
            from,
            to,
            size,
            ..
        } => Edit::PutEdge(new_edge(len, *edge, *from, *to, *size)),
        What::Unlink { edge, from, to, .. } => Edit::TakeEdge(EdgeKey {
            edge: *edge,
            from: *from,
            to: *to,
        }),
        What::Delete { .. } => Edit::Keep,
        What::Restore { .. } => Edit::Keep,
        What::Expire { .. } => Edit::Keep,
        What::Cut { edge, from, to, .. } => Edit::TakeEdge(EdgeKey {
            edge: *edge,
            from: *from,
            to: *to,
        }),
        What::Erase { id, .. } => Edit::TakeObject(*id),
        What::Put { item, .. } => edit_of_put(graph, jobs, *item),
        What::Purge { .. } => Edit::Keep,
    }
}

/// The row of a new object.
fn new_object(
    rules: &Rules,
    len: u32,
    moment: Moment,
    kind: TypeNo,
    id: ObjectId,
    size: u16,
) -> ObjectRow
    requires { moment ≤ greatest_moment }
    ensures { (s : State) → len ≡ s.len → rules.now ≡ s.rules → result ≡ object_of s moment kind id size }
{
    ObjectRow {
        id,
        kind,
        birth: len,
        due: due(rules.object(kind), moment),
        at: len,
        size,
    }
}

/// The row of a new edge.
fn new_edge(len: u32, edge: EdgeNo, from: ObjectId, to: ObjectId, size: u16) -> EdgeRow
    ensures { (s : State) → len ≡ s.len → result ≡ edge_of s edge from to size }
{
    EdgeRow {
        key: EdgeKey { edge, from, to },
        birth: len,
        size,
    }
}

/// The moment from which an object of this annotation expires, where it is created at this moment.
fn due(rule: Option<ObjectRule>, moment: Moment) -> Moment
    requires { moment ≤ greatest_moment }
    ensures { result ≡ due_of rule moment }
{
    match rule {
        Some(ObjectRule::ShortTtl(seconds)) => moment + seconds as u64,
        Some(ObjectRule::Directly) => 0,
        Some(ObjectRule::DirectlyOnly) => 0,
        Some(ObjectRule::ByAny) => 0,
        Some(ObjectRule::NotDeleted) => 0,
        None => 0,
    }
}

/// What a put of the item with this number does to the graph.
fn edit_of_put<G: GraphStore>(graph: &G, jobs: &JobTable, item: u32) -> Edit
    ensures some { (s : State) (it : Item) → IsTableOf s jobs.now → G.graph graph.now ≡ s.graph → item_at s item ≡ Some it → change_of_edit result ≡ put_unless (judged s it) it }
    ensures none { (s : State) → IsTableOf s jobs.now → item_at s item ≡ None → change_of_edit result ≡ Same }
{
    match jobs.item_at(item) {
        Some(item) => edit_of_item(graph, jobs, &item),
        None => Edit::Keep,
    }
}

/// What a put of this item does to the graph.
fn edit_of_item<G: GraphStore>(graph: &G, jobs: &JobTable, item: &Item) -> Edit
    ensures { (s : State) → IsTableOf s jobs.now → G.graph graph.now ≡ s.graph → change_of_edit result ≡ put_unless (judged s item.now) item.now }
{
    if judge_put(graph, jobs, item).is_none() {
        edit_of_row(item)
    } else {
        Edit::Keep
    }
}

/// The edit that puts the item's row back.
fn edit_of_row(item: &Item) -> Edit
    ensures { change_of_edit result ≡ put_of_item item.now }
{
    match item {
        Item::Object { row, .. } => Edit::PutObject(*row),
        Item::Edge { row, .. } => Edit::PutEdge(*row),
    }
}

/// The size of the payload that a record of this entry has.
pub(crate) fn record_size<G: GraphStore>(graph: &G, jobs: &JobTable, what: &What) -> u16
    ensures { (s : State) → IsTableOf s jobs.now → G.graph graph.now ≡ s.graph → result ≡ record_size_of s what.now }
{
    match what {
        What::Create { size, .. } => *size,
        What::Update { size, .. } => *size,
        What::Link { size, .. } => *size,
        What::Unlink { .. } => 0,
        What::Delete { .. } => 0,
        What::Restore { .. } => 0,
        What::Expire { .. } => 0,
        What::Cut { .. } => 0,
        What::Erase { .. } => 0,
        What::Put { item, .. } => put_size(graph, jobs, *item),
        What::Purge { .. } => 0,
    }
}

/// The size of the payload that a record of a put of the item with this number has.
fn put_size<G: GraphStore>(graph: &G, jobs: &JobTable, i: u32) -> u16
    ensures { (s : State) → IsTableOf s jobs.now → G.graph graph.now ≡ s.graph → result ≡ put_size_of s (slice_get s.items i) }
{
    match jobs.item_at(i) {
        Some(item) => size_back(graph, jobs, &item),
        None => 0,
    }
}

/// The size of the payload of an item whose row is put back, and 0 where it is listed.
fn size_back<G: GraphStore>(graph: &G, jobs: &JobTable, item: &Item) -> u16
    ensures { (s : State) → IsTableOf s jobs.now → G.graph graph.now ≡ s.graph → result ≡ cond (is_none (judged s item.now)) (size_of item.now) 0 }
{
    if judge_put(graph, jobs, item).is_none() {
        item.size()
    } else {
        0
    }
}

/// Makes room for what the edit puts. The only error is want of memory; whatever it answers, the graph stays, and what
/// was ready stays ready.
pub(crate) fn make_room<G: GraphStore>(graph: &mut G, edit: &Edit) -> Result<(), AllocError>
    ensures graph { G.graph graph.new ≡ G.graph graph.old }
    ensures counts { G.counts graph.new ≡ G.counts graph.old }
    ensures ok { OnOk result (IsTrue (has_room_for (G.is_ready_object graph.new) (G.is_ready_edge graph.new) (change_of_edit edit.now))) }
    ensures objects { (id : ℕ) → IsTrue (G.is_ready_object graph.old id) → IsTrue (G.is_ready_object graph.new id) }
    ensures edges { (key : EdgeKey) → IsTrue (G.is_ready_edge graph.old key) → IsTrue (G.is_ready_edge graph.new key) }
{
    match edit {
        Edit::PutObject(row) => graph.ready_object(row.id),
        Edit::PutEdge(row) => graph.ready_edge(row.key),
        Edit::Keep => Ok(()),
        Edit::TakeObject(_) => Ok(()),
        Edit::RewriteObject { .. } => Ok(()),
        Edit::TakeEdge(_) => Ok(()),
    }
}

/// Changes the graph by an edit that it can take. Takes no memory.
pub(crate) fn carry_out<G: GraphStore>(graph: &mut G, edit: &Edit)
    requires { CanChange (G.graph graph.old) (G.is_ready_object graph.old) (G.is_ready_edge graph.old) (change_of_edit edit.now) }
    ensures graph { G.graph graph.new ≡ changed (G.graph graph.old) (change_of_edit edit.now) }
    ensures counts { G.counts graph.new ≡ G.counts graph.old }
{
    match edit {
        Edit::Keep => {}
        Edit::PutObject(row) => graph.put_object(*row),
        Edit::TakeObject(id) => {
            let _taken = graph.take_object(*id);
        }
        Edit::RewriteObject { id, at, size } => graph.rewrite_object(*id, *at, *size),
        Edit::PutEdge(row) => graph.put_edge(*row),
        Edit::TakeEdge(key) => {
            let _taken = graph.take_edge(*key);
        }
    }
}
