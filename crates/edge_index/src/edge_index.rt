//! The edges of a graph with their orders and counts.
ghost use Rattle.std.specs.Prelude.{◌≡◌, ◌<◌, ◌^◌, Bool, IfOk, OnOk, IsTrue, None, [], length, find, filter, count_by, slice_get, take};
ghost use Rattle.delf_model.specs.RuleSet.{is_refcount};
ghost use Rattle.delf_model.specs.Graph.{has_key, leaves_from, leads_to, is_other_edge, edges_rise};
ghost use Rattle.delf_model.specs.Graph.{put_edge as edges_with};
ghost use Rattle.delf_model.specs.Store.{is_counted};
ghost use Rattle.delf_model.specs.declared.rows.EdgeKey.{EdgeKey};

use crate::ends::row_near;
use crate::refs::refs_to;
use crate::tables::Tables;
use delf_model::{EdgeKey, EdgeRow, ObjectId, Rules};
use std::alloc::{AllocError, Global};
use std::marker::Model;

/// The edges of a graph, at most 4,294,967,295, by rising key. They stand in sixteen shards by id modulo 16: what is asked of a
/// key or a source in the source's, what is asked of a target in the target's. A look-up by key and a count take a few steps,
/// however many there are; what asks an order of an end takes a number that grows with their logarithm, and the row at a place
/// also with the place. `ready_edge` goes over the keys of a shard where its table has to grow, and `edges` sorts all.
#[derive(Drop)]
pub struct EdgeIndex {
    tables: Tables,
}

impl Model for EdgeIndex {
    ghost use Rattle.edge_index.specs.IndexedEdges.{IndexedEdges};

    ghost Value = { IndexedEdges };

    ghost use Rattle.edge_index.specs.Inside.{edges_seen, AreAgreed};

    ghost view = { edges_seen };

    ghost invariant = { AreAgreed };
}

impl EdgeIndex {
    ghost use Rattle.edge_index.specs.IndexedEdges.{counts_of, is_ready};

    /// The index with no edge, for the edge types of these rules. The only error is want of memory.
    pub fn empty(alloc: Global, rules: &Rules) -> Result<EdgeIndex, AllocError>
        ensures edges { IfOk result (λ index. index.edges ≡ []) }
        ensures counts { IfOk result (λ index. counts_of index ≡ is_refcount rules.now) }
    {
        Ok(EdgeIndex {
            tables: Tables::empty(alloc, rules)?,
        })
    }

    /// The row of the edge with this key.
    pub fn edge(&self, key: EdgeKey) -> Option<EdgeRow>
        ensures { result ≡ find (has_key key) self.now.edges }
    {
        self.tables.links.row(&key)
    }

    /// The edge out of this object at this place, from 0, by edge type and target.
    pub fn out_at(&self, id: ObjectId, i: u32) -> Option<EdgeRow>
        ensures { result ≡ slice_get (filter (leaves_from id) self.now.edges) i }
    {
        row_near(&self.tables.links, &self.tables.outward, id, i)
    }

    /// The edge into this object at this place, from 0, by edge type and source.
    pub fn in_at(&self, id: ObjectId, i: u32) -> Option<EdgeRow>
        ensures { result ≡ slice_get (filter (leads_to id) self.now.edges) i }
    {
        row_near(&self.tables.links, &self.tables.inward, id, i)
    }

    /// The number of edges of refcount types into this id.
    pub fn ref_count(&self, id: ObjectId) -> u32
        ensures { result ≡ count_by (is_counted (counts_of self.now) id) self.now.edges }
    {
        refs_to(&self.tables.refs, id)
    }

    /// All edge rows by rising key, over a copy of the table; the only error is want of memory.
    pub fn edges(&self, alloc: Global) -> Result<Vec<EdgeRow>, AllocError>
        ensures { IfOk result (λ rows. rows.items ≡ self.now.edges) }
    {
        self.tables.links.rows(alloc)
    }

    /// Makes room for an edge with this key, so that it can be put without memory. The only error is want of memory.
    /// The edges stay, whatever it answers, and what was ready stays ready.
    pub fn ready_edge(&mut self, key: EdgeKey) -> Result<(), AllocError>
        ensures edges { self.new.edges ≡ self.old.edges }
        ensures counts { counts_of self.new ≡ counts_of self.old }
        ensures ready { OnOk result (IsTrue (is_ready self.new key)) }
        ensures stay { (other : EdgeKey) → IsTrue (is_ready self.old other) → IsTrue (is_ready self.new other) }
        ensures order { IsTrue (edges_rise self.new.edges) }
        ensures few { length self.new.edges < 2 ^ 32 }
    {
        self.tables.ready(key)
    }

    /// Puts an edge whose key is free and was made ready, where there are fewer than 4,294,967,295.
    pub fn put_edge(&mut self, row: EdgeRow)
        requires free { find (has_key row.key) self.old.edges ≡ None }
        requires ready { IsTrue (is_ready self.old row.key) }
        requires room { length self.old.edges < 4294967295 }
        ensures edges { self.new.edges ≡ edges_with row self.old.edges }
        ensures counts { counts_of self.new ≡ counts_of self.old }
        ensures order { IsTrue (edges_rise self.new.edges) }
        ensures few { length self.new.edges < 2 ^ 32 }
    {
        self.tables.put(&row);
    }

    /// Takes the edge with this key, where there is one.
    pub fn take_edge(&mut self, key: EdgeKey) -> Option<EdgeRow>
        ensures row { result ≡ find (has_key key) self.old.edges }
        ensures edges { self.new.edges ≡ filter (is_other_edge key) self.old.edges }
        ensures counts { counts_of self.new ≡ counts_of self.old }
        ensures order { IsTrue (edges_rise self.new.edges) }
        ensures few { length self.new.edges < 2 ^ 32 }
    {
        self.tables.take(&key)
    }
}
