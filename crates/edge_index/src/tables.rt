//! The tables of an index: the links, their orders by source and by target, and the counts by target.
ghost use Rattle.std.specs.Prelude.{◌≡◌, ◌<◌, true, false, [], OnOk, OnErr, IfOk, None, length, find, filter};
ghost use Rattle.delf_model.specs.declared.rows.EdgeKey.{EdgeKey};
ghost use Rattle.delf_model.specs.Graph.{same_key, has_key, put_edge, is_other_edge};
ghost use Rattle.edge_index.specs.Links.{has_room};

use crate::ends::{EndOrder, add_place, drop_place, empty_order, source_end, target_end};
use crate::links::Links;
use crate::refs::{Refs, count_down, count_up, empty_refs, forget, ready_ref};
use crate::shapes::{is_counting, is_row_counting, shapes_of};
use delf_model::{EdgeKey, EdgeRow, EdgeShape, Rules};
use std::alloc::{AllocError, Global};

/// The tables of an index of edges.
#[derive(Drop)]
pub struct Tables {
    /// By edge type.
    pub shapes: Vec<EdgeShape>,
    /// What stands at each key for which there is room.
    pub links: Links,
    /// The same keys by source.
    pub outward: EndOrder,
    /// The same by target.
    pub inward: EndOrder,
    /// By target.
    pub refs: Refs,
}

impl Tables {
    ghost use Rattle.edge_index.specs.Tables.{Agree, AgreeBut, rows};

    /// No keys, for the edge types of these rules. The only error is want of memory.
    pub fn empty(alloc: Global, rules: &Rules) -> Result<Tables, AllocError>
        ensures agree { IfOk result Agree }
        ensures rows { IfOk result (λ tables. rows tables ≡ []) }
        ensures shapes { IfOk result (λ tables. tables.shapes.items ≡ rules.now.edges) }
    {
        Ok(Tables {
            shapes: shapes_of(alloc, rules)?,
            links: Links::empty(alloc)?,
            outward: empty_order(alloc)?,
            inward: empty_order(alloc)?,
            refs: empty_refs(alloc)?,
        })
    }

    /// Makes room for this key in each table. The only error is want of memory.
    pub fn ready(&mut self, key: EdgeKey) -> Result<(), AllocError>
        requires { Agree self.old }
        ensures agree { Agree self.new }
        ensures rows { rows self.new ≡ rows self.old }
        ensures shapes { self.new.shapes.items ≡ self.old.shapes.items }
        ensures ready { OnOk result (has_room self.new.links.entries key ≡ true) }
        ensures stay { (other : EdgeKey) → has_room self.old.links.entries other ≡ true → has_room self.new.links.entries other ≡ true }
    {
        if self.links.has(&key) {
            return Ok(());
        }
        if let Err(error) = self.add_places(key) {
            drop_place(&mut self.outward, &source_end(&key));
            drop_place(&mut self.inward, &target_end(&key));
            return Err(error);
        }
        Ok(())
    }

    // The same for a key that has no room; without memory the orders may keep it.
    fn add_places(&mut self, key: EdgeKey) -> Result<(), AllocError>
        requires agree { Agree self.old }
        requires free { has_room self.old.links.entries key ≡ false }
        ensures agree { OnOk result (Agree self.new) }
        ensures part { OnErr result (AgreeBut (same_key key) self.new) }
        ensures links { OnErr result (self.new.links.entries ≡ self.old.links.entries) }
        ensures rows { rows self.new ≡ rows self.old }
        ensures shapes { self.new.shapes.items ≡ self.old.shapes.items }
        ensures ready { OnOk result (has_room self.new.links.entries key ≡ true) }
        ensures stay { (other : EdgeKey) → has_room self.old.links.entries other ≡ true → has_room self.new.links.entries other ≡ true }
    {
        add_place(&mut self.outward, source_end(&key), key)?;
        add_place(&mut self.inward, target_end(&key), key)?;
        ready_ref(&mut self.refs, key.to)?;
        self.links.ready(key)?;
        Ok(())
    }

    /// Puts a row whose key is free and has room, where there are fewer than 4,294,967,295.
    pub fn put(&mut self, row: &EdgeRow)
        requires agree { Agree self.old }
        requires free { find (has_key row.now.key) (rows self.old) ≡ None }
        requires ready { has_room self.old.links.entries row.now.key ≡ true }
        requires room { length (rows self.old) < 4294967295 }
        ensures agree { Agree self.new }
        ensures rows { rows self.new ≡ put_edge row.now (rows self.old) }
        ensures shapes { self.new.shapes.items ≡ self.old.shapes.items }
    {
        let counts = is_counting(&self.shapes, row.key.edge);
        self.links.put(row);
        count_up(&mut self.refs, row.key.to, counts);
    }

    /// Takes this key out of each table, and answers the row that stood there.
    pub fn take(&mut self, key: &EdgeKey) -> Option<EdgeRow>
        requires { Agree self.old }
        ensures row { result ≡ find (has_key key.now) (rows self.old) }
        ensures agree { Agree self.new }
        ensures rows { rows self.new ≡ filter (is_other_edge key.now) (rows self.old) }
        ensures shapes { self.new.shapes.items ≡ self.old.shapes.items }
    {
        let row = self.links.take(key);
        let counts = is_row_counting(&self.shapes, &row);
        drop_place(&mut self.outward, &source_end(key));
        drop_place(&mut self.inward, &target_end(key));
        count_down(&mut self.refs, key.to, counts);
        forget(&mut self.refs, &self.inward, key.to);
        row
    }
}
