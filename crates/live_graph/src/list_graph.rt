//! The plain program of a graph: two lists by rising id and by rising key.
ghost use Rattle.std.specs.Prelude.{◌≡◌, ◌<◌, ◌^◌, IfOk, IsTrue, length};
ghost use Rattle.delf_model.specs.Graph.{objects_rise, edges_rise};
ghost use Rattle.live_graph.specs.Ends.{all_have_ends};

use crate::rows::{
    edge_place_of, edge_with, in_edge, object_with, out_edge, rewrite, without_edge, without_object,
};
use delf_model::{EdgeKey, EdgeRow, EdgeShape, GraphStore, Moment, ObjectId, ObjectRow, Rules};
use edge_index::{is_counting, shapes_of};
use object_shards::{due_after, insert_ready, put_row};
use std::alloc::{AllocError, Global};

/// A graph as two lists, which scans them: what it does says what every other graph store is to do.
#[derive(Drop)]
pub struct ListGraph {
    // By edge type.
    shapes: Vec<EdgeShape>,
    // By rising id.
    objects: Vec<ObjectRow>,
    // By rising key.
    edges: Vec<EdgeRow>,
    ghost ids_rise: { IsTrue (objects_rise objects.items) },
    ghost keys_rise: { IsTrue (edges_rise edges.items) },
    ghost ends: { IsTrue (all_have_ends objects.items edges.items) },
    ghost few: { length edges.items < 2 ^ 32 },
}

impl ListGraph {
    ghost use Rattle.delf_model.specs.RuleSet.{is_refcount};
    ghost use Rattle.delf_model.specs.Graph.{empty_graph, leads_to, is_reference};
    ghost use Rattle.delf_model.specs.Store.{is_counted};
    ghost use Rattle.live_graph.specs.ListGraph.{graph_of, counts_of};

    /// The graph with no object, for the edge types of these rules. The only error is want of memory.
    pub fn empty(alloc: Global, rules: &Rules) -> Result<ListGraph, AllocError>
        ensures graph { IfOk result (λ g. graph_of g ≡ empty_graph) }
        ensures counts { IfOk result (λ g. counts_of g ≡ is_refcount rules.now) }
    {
        Ok(ListGraph {
            shapes: shapes_of(alloc, rules)?,
            objects: Vec::new(alloc),
            edges: Vec::new(alloc),
        })
    }

    // Whether this is an edge of a refcount type into this id.
    fn is_reference(&self, row: &EdgeRow, id: ObjectId) -> bool
        ensures { result ≡ is_counted (counts_of self.now) id row.now }
    {
        is_counting(&self.shapes, row.key.edge) && row.key.to.get() == id.get()
    }
}

impl GraphStore for ListGraph {
    ghost use Rattle.live_graph.specs.ListGraph.{graph_of, counts_of, has_object_room, has_edge_room};
    ghost use Rattle.live_graph.specs.Laws.{each_end_stands};

    ghost graph = { graph_of };

    ghost counts = { counts_of };

    ghost is_ready_object = { has_object_room };

    ghost is_ready_edge = { has_edge_room };

    ghost objects_in_order = { λ g. g.ids_rise };

    ghost edges_in_order = { λ g. g.keys_rise };

    ghost ends_stand = { λ g. each_end_stands g.objects.items g.edges.items g.ends };

    ghost edges_fit = { λ g. g.few };

    fn object(&self, id: ObjectId) -> Option<ObjectRow> {
        object_with(&self.objects, id)
    }

    fn edge(&self, key: EdgeKey) -> Option<EdgeRow> {
        edge_with(&self.edges, &key)
    }

    fn out_at(&self, id: ObjectId, i: u32) -> Option<EdgeRow> {
        out_edge(&self.edges, id, i)
    }

    fn in_at(&self, id: ObjectId, i: u32) -> Option<EdgeRow> {
        in_edge(&self.edges, id, i)
    }

    fn ref_count(&self, id: ObjectId) -> u32 {
        self.edges
            .iter()
            .filter(|row| self.is_reference(row, id))
            .count() as u32
    }

    fn next_due(&self, moment: Moment, after: Option<ObjectId>) -> Option<ObjectId> {
        due_after(&self.objects, moment, after)
    }

    fn objects(&self, alloc: Global) -> Result<Vec<ObjectRow>, AllocError> {
        Vec::from_slice(alloc, &self.objects)
    }

    fn edges(&self, alloc: Global) -> Result<Vec<EdgeRow>, AllocError> {
        Vec::from_slice(alloc, &self.edges)
    }

    fn ready_object(&mut self, _id: ObjectId) -> Result<(), AllocError> {
        self.objects.reserve(1)
    }

    fn ready_edge(&mut self, _key: EdgeKey) -> Result<(), AllocError> {
        self.edges.reserve(1)
    }

    fn put_object(&mut self, row: ObjectRow) {
        put_row(&mut self.objects, row);
    }

    fn rewrite_object(&mut self, id: ObjectId, at: u32, size: u16) {
        rewrite(&mut self.objects, id, at, size);
    }

    fn take_object(&mut self, id: ObjectId) -> Option<ObjectRow> {
        let row = object_with(&self.objects, id);
        without_object(&mut self.objects, id);
        row
    }

    fn put_edge(&mut self, row: EdgeRow) {
        let place = edge_place_of(&self.edges, &row.key);
        insert_ready(&mut self.edges, place, row);
    }

    fn take_edge(&mut self, key: EdgeKey) -> Option<EdgeRow> {
        let row = edge_with(&self.edges, &key);
        without_edge(&mut self.edges, &key);
        row
    }
}
