//! The object rows in sixteen tables, each in that of its id modulo 16.
ghost use Rattle.std.specs.Prelude.{◌≡◌, ◌<◌, ◌≤◌, ◌%◌, ℕ, [], length, IfOk, OnOk, find, filter, map};
ghost use Rattle.delf_model.specs.Graph.{has_id, put_object as with_row, rewritten, is_other_object};
ghost use Rattle.object_shards.specs.Tables.{rows_at, room_at, all_put, joined, InShards};

use crate::table::ObjectTable;
use delf_model::{ObjectId, ObjectRow};
use id_hash::{SHARDS, shard_of};
use std::alloc::{AllocError, Global};

/// The number of the table of this id: that of its shard.
fn table_of(id: ObjectId) -> usize
    ensures { result ≡ id % 16 }
{
    shard_of(id.get())
}

/// Tables without rows. The only error is want of memory.
fn empty_tables(alloc: Global) -> Result<Vec<ObjectTable>, AllocError>
    ensures count { IfOk result (λ tables. length tables.items ≡ 16) }
    ensures none { IfOk result (λ tables. (table : ℕ) → rows_at tables.items table ≡ []) }
{
    let mut tables = Vec::with_capacity(alloc, SHARDS)?;
    'tables: while tables.len() < SHARDS {
        tables.push(ObjectTable::empty(alloc))?;
    }
    Ok(tables)
}

/// The table with these rows too. The only error is want of memory.
fn with_rows(table: ObjectTable, rows: &[ObjectRow]) -> Result<ObjectTable, AllocError>
    ensures { IfOk result (λ all. all.rows ≡ all_put rows.now table.rows) }
{
    let mut all = table;
    let mut place = rows.len();
    'rows: while place > 0 {
        place -= 1;
        all.ready()?;
        all.put(&rows[place]);
    }
    Ok(all)
}

/// One table with the rows of all. The only error is want of memory.
fn one_table(alloc: Global, tables: &[ObjectTable]) -> Result<ObjectTable, AllocError>
    ensures { IfOk result (λ all. all.rows ≡ joined tables.now) }
{
    let mut all = ObjectTable::empty(alloc);
    let mut place = tables.len();
    'tables: while place > 0 {
        place -= 1;
        let rows = tables[place].rows(alloc)?;
        all = with_rows(all, &rows)?;
    }
    Ok(all)
}

/// Makes room for a row more in the table of this id. The only error is want of memory. The rows stay, whatever it answers.
fn ready_in(tables: &mut Vec<ObjectTable>, id: ObjectId) -> Result<(), AllocError>
    requires count { length tables.old.items ≡ 16 }
    requires shards { InShards tables.old.items }
    ensures count { length tables.new.items ≡ 16 }
    ensures shards { InShards tables.new.items }
    ensures rows { joined tables.new.items ≡ joined tables.old.items }
    ensures room { OnOk result (0 < room_at tables.new.items (id % 16)) }
    ensures kept { (table : ℕ) → room_at tables.old.items table ≤ room_at tables.new.items table }
{
    let place = table_of(id);
    tables[place].ready()
}

/// Puts a row into the table of its id, where that has room.
fn put_in(tables: &mut Vec<ObjectTable>, row: &ObjectRow)
    requires count { length tables.old.items ≡ 16 }
    requires shards { InShards tables.old.items }
    requires room { 0 < room_at tables.old.items (row.now.id % 16) }
    ensures count { length tables.new.items ≡ 16 }
    ensures shards { InShards tables.new.items }
    ensures rows { joined tables.new.items ≡ with_row row.now (joined tables.old.items) }
{
    let place = table_of(row.id);
    tables[place].put(row);
}

/// Gives the object with this id, where there is one, a new payload: the position that gave it and its size.
fn rewrite_in(tables: &mut Vec<ObjectTable>, id: ObjectId, at: u32, size: u16)
    requires count { length tables.old.items ≡ 16 }
    requires shards { InShards tables.old.items }
    ensures count { length tables.new.items ≡ 16 }
    ensures shards { InShards tables.new.items }
    ensures rows { joined tables.new.items ≡ map (rewritten id at size) (joined tables.old.items) }
{
    let place = table_of(id);
    tables[place].rewrite(id, at, size);
}

/// Takes the row with this id, where there is one.
fn take_in(tables: &mut Vec<ObjectTable>, id: ObjectId) -> Option<ObjectRow>
    requires count { length tables.old.items ≡ 16 }
    requires shards { InShards tables.old.items }
    ensures row { result ≡ find (has_id id) (joined tables.old.items) }
    ensures count { length tables.new.items ≡ 16 }
    ensures shards { InShards tables.new.items }
    ensures rows { joined tables.new.items ≡ filter (is_other_object id) (joined tables.old.items) }
{
    let place = table_of(id);
    tables[place].take(id)
}

/// The rows of all objects by rising id, in sixteen tables by id modulo 16, so that a table that grows is a sixteenth of all.
#[derive(Drop)]
pub struct ObjectTables {
    tables: Vec<ObjectTable>,
    ghost count: { length tables.items ≡ 16 },
    ghost in_shards: { InShards tables.items },
}

impl ObjectTables {
    ghost use Rattle.std.specs.Prelude.{IsTrue};
    ghost use Rattle.delf_model.specs.Graph.{objects_rise};
    ghost use Rattle.object_shards.specs.ObjectTables.{table_rows_of, room_for};

    /// No row. The only error is want of memory.
    pub fn empty(alloc: Global) -> Result<ObjectTables, AllocError>
        ensures { IfOk result (λ tables. table_rows_of tables ≡ []) }
    {
        let tables = empty_tables(alloc)?;
        Ok(ObjectTables { tables })
    }

    /// The row of the object with this id.
    pub fn row(&self, id: ObjectId) -> Option<ObjectRow>
        ensures { result ≡ find (has_id id) (table_rows_of self.now) }
    {
        let place = table_of(id);
        self.tables[place].row(id)
    }

    /// All rows by rising id. The only error is want of memory.
    pub fn rows(&self, alloc: Global) -> Result<Vec<ObjectRow>, AllocError>
        ensures { IfOk result (λ rows. rows.items ≡ table_rows_of self.now) }
    {
        one_table(alloc, &self.tables)?.rows(alloc)
    }

    /// Makes room for a row with this id. The only error is want of memory. The rows stay, whatever it answers.
    pub fn ready(&mut self, id: ObjectId) -> Result<(), AllocError>
        ensures rows { table_rows_of self.new ≡ table_rows_of self.old }
        ensures room { OnOk result (0 < room_for self.new id) }
        ensures kept { (other : ℕ) → room_for self.old other ≤ room_for self.new other }
    {
        ready_in(&mut self.tables, id)
    }

    /// Puts a row, where there is room.
    pub fn put(&mut self, row: &ObjectRow)
        requires { 0 < room_for self.old row.now.id }
        ensures rows { table_rows_of self.new ≡ with_row row.now (table_rows_of self.old) }
        ensures rose { IsTrue (objects_rise (table_rows_of self.old)) }
    {
        put_in(&mut self.tables, row);
    }

    /// Gives the object with this id, where there is one, a new payload: the position that gave it and its size.
    pub fn rewrite(&mut self, id: ObjectId, at: u32, size: u16)
        ensures { table_rows_of self.new ≡ map (rewritten id at size) (table_rows_of self.old) }
    {
        rewrite_in(&mut self.tables, id, at, size);
    }

    /// Takes the row with this id, where there is one.
    pub fn take(&mut self, id: ObjectId) -> Option<ObjectRow>
        ensures row { result ≡ find (has_id id) (table_rows_of self.old) }
        ensures rows { table_rows_of self.new ≡ filter (is_other_object id) (table_rows_of self.old) }
    {
        take_in(&mut self.tables, id)
    }
}
