//! What a store of graph rows promises.
ghost use Rattle.std.specs.Prelude.{◌≡◌, ℕ, ◌<◌, ◌^◌, Bool, true, false, ◌||◌, nat_eq, IsTrue, IfOk, OnOk, OnErr, List, length, filter, slice_get, Some, None, Option, is_some, count_by, find};
ghost use Rattle.delf_model.specs.declared.rows.ObjectRow.{ObjectRow};
ghost use Rattle.delf_model.specs.declared.rows.EdgeRow.{EdgeRow};
ghost use Rattle.delf_model.specs.declared.rows.EdgeKey.{EdgeKey};
ghost use Rattle.delf_model.specs.Graph.{Graph, PutsObject, TakesObject, RewritesObject, PutsEdge, TakesEdge, changed, object_at, edge_at, edge_stands, is_touched, out_edges, in_edges, same_key, objects_rise, edges_rise};
ghost use Rattle.delf_model.specs.Store.{counted_refs, least_due, EndsStand};

use crate::ids::{Moment, ObjectId};
use crate::rows::{EdgeKey, EdgeRow, ObjectRow};
use std::alloc::{AllocError, Global};

/// A graph that the service keeps while it runs: object rows by rising id, and at most 4,294,967,295 edge rows by
/// rising key. Contracts see these two lists, which edge types are refcount, and what was made ready.
pub trait GraphStore {
    /// The two lists.
    ghost graph: { Self → Graph };

    /// Which edge types are refcount, by number.
    ghost counts: { Self → ℕ → Bool };

    /// Whether room was made for an object with this id since the last change.
    ghost is_ready_object: { Self → ℕ → Bool };

    /// Whether room was made for an edge with this key since the last change.
    ghost is_ready_edge: { Self → EdgeKey → Bool };

    /// The row of the object with this id. Takes no memory, as all calls here but `objects`, `edges` and the two
    /// that make ready.
    fn object(&self, id: ObjectId) -> Option<ObjectRow>
        ensures { result ≡ object_at (graph self.now) id };

    /// The row of the edge with this key.
    fn edge(&self, key: EdgeKey) -> Option<EdgeRow>
        ensures { result ≡ edge_at (graph self.now) key };

    /// The edge out of this object at this place, from 0, by edge type and target.
    fn out_at(&self, id: ObjectId, i: u32) -> Option<EdgeRow>
        ensures { result ≡ slice_get (out_edges (graph self.now) id) i };

    /// The edge into this object at this place, from 0, by edge type and source.
    fn in_at(&self, id: ObjectId, i: u32) -> Option<EdgeRow>
        ensures { result ≡ slice_get (in_edges (graph self.now) id) i };

    /// The number of edges of refcount types into this id.
    fn ref_count(&self, id: ObjectId) -> u32
        ensures { result ≡ counted_refs (counts self.now) (graph self.now) id };

    /// The least id above `after` whose due is above 0 and at most this moment.
    fn next_due(&self, moment: Moment, after: Option<ObjectId>) -> Option<ObjectId>
        ensures { result ≡ least_due moment after (graph self.now).objects };

    /// All object rows by rising id; the only error is want of memory.
    fn objects(&self, alloc: Global) -> Result<Vec<ObjectRow>, AllocError>
        ensures { IfOk result (λ rows. rows.items ≡ (graph self.now).objects) };

    /// All edge rows by rising key; the only error is want of memory.
    fn edges(&self, alloc: Global) -> Result<Vec<EdgeRow>, AllocError>
        ensures { IfOk result (λ rows. rows.items ≡ (graph self.now).edges) };

    /// Makes room for an object with this id, so that it can be put without memory. The only error is want of
    /// memory. Rows and edges stay, whatever it answers, and what was ready stays ready.
    fn ready_object(&mut self, id: ObjectId) -> Result<(), AllocError>
        ensures graph { graph self.new ≡ graph self.old }
        ensures counts { counts self.new ≡ counts self.old }
        ensures ready { OnOk result (IsTrue (is_ready_object self.new id)) }
        ensures objects { (other : ℕ) → IsTrue (is_ready_object self.old other) → IsTrue (is_ready_object self.new other) }
        ensures edges { (key : EdgeKey) → IsTrue (is_ready_edge self.old key) → IsTrue (is_ready_edge self.new key) };

    /// Makes room for an edge with this key, so that it can be put without memory. The only error is want of
    /// memory. Rows and edges stay, whatever it answers, and what was ready stays ready.
    fn ready_edge(&mut self, key: EdgeKey) -> Result<(), AllocError>
        ensures graph { graph self.new ≡ graph self.old }
        ensures counts { counts self.new ≡ counts self.old }
        ensures ready { OnOk result (IsTrue (is_ready_edge self.new key)) }
        ensures objects { (id : ℕ) → IsTrue (is_ready_object self.old id) → IsTrue (is_ready_object self.new id) }
        ensures edges { (other : EdgeKey) → IsTrue (is_ready_edge self.old other) → IsTrue (is_ready_edge self.new other) };

    /// Puts an object whose id is free and was made ready.
    fn put_object(&mut self, row: ObjectRow)
        requires free { object_at (graph self.old) row.id ≡ None }
        requires ready { IsTrue (is_ready_object self.old row.id) }
        ensures graph { graph self.new ≡ changed (graph self.old) (PutsObject row) }
        ensures counts { counts self.new ≡ counts self.old };

    /// Gives an object that stands a new payload: the position that gave it and its size.
    fn rewrite_object(&mut self, id: ObjectId, at: u32, size: u16)
        requires { IsTrue (is_some (object_at (graph self.old) id)) }
        ensures graph { graph self.new ≡ changed (graph self.old) (RewritesObject id at size) }
        ensures counts { counts self.new ≡ counts self.old };

    /// Takes an object that no edge touches, where there is one with this id.
    fn take_object(&mut self, id: ObjectId) -> Option<ObjectRow>
        requires { is_touched (graph self.old) id ≡ false }
        ensures row { result ≡ object_at (graph self.old) id }
        ensures graph { graph self.new ≡ changed (graph self.old) (TakesObject id) }
        ensures counts { counts self.new ≡ counts self.old };

    /// Puts an edge whose key is free and was made ready, where both ends stand and fewer than 4,294,967,295 edges do.
    fn put_edge(&mut self, row: EdgeRow)
        requires free { edge_at (graph self.old) row.key ≡ None }
        requires source { IsTrue (is_some (object_at (graph self.old) row.key.from)) }
        requires target { IsTrue (is_some (object_at (graph self.old) row.key.to)) }
        requires room { length (graph self.old).edges < 4294967295 }
        requires ready { IsTrue (is_ready_edge self.old row.key) }
        ensures graph { graph self.new ≡ changed (graph self.old) (PutsEdge row) }
        ensures counts { counts self.new ≡ counts self.old };

    /// Takes the edge with this key, where there is one.
    fn take_edge(&mut self, key: EdgeKey) -> Option<EdgeRow>
        ensures row { result ≡ edge_at (graph self.old) key }
        ensures graph { graph self.new ≡ changed (graph self.old) (TakesEdge key) }
        ensures counts { counts self.new ≡ counts self.old };

    /// Ids rise.
    ghost objects_in_order: { (g : Self) → IsTrue (objects_rise (graph g).objects) };

    /// Keys rise.
    ghost edges_in_order: { (g : Self) → IsTrue (edges_rise (graph g).edges) };

    /// Both ends of each edge stand.
    ghost ends_stand: { (g : Self) → EndsStand (graph g) };

    /// There are at most 4,294,967,295 edges.
    ghost edges_fit: { (g : Self) → length (graph g).edges < 2 ^ 32 };
}
