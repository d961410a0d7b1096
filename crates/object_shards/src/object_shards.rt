//! The object rows of a graph: in sixteen tables by id, with an order of those that expire.
ghost use Rattle.std.specs.Prelude.{◌≡◌, filter};
ghost use Rattle.object_shards.specs.DueRows.{due_rows_of};
ghost use Rattle.object_shards.specs.ObjectTables.{table_rows_of};
ghost use Rattle.object_shards.specs.Rows.{expires};

use crate::due_rows::DueRows;
use crate::tables::ObjectTables;
use delf_model::{Moment, ObjectId, ObjectRow};
use std::alloc::{AllocError, Global};

/// The object rows of a graph by rising id. A look-up takes a few steps, however many there are; what asks for a due takes a
/// number that grows with the logarithm of how many expire. `ready_object` goes over a sixteenth of all rows where a table has
/// to grow, and `objects` sorts all.
#[derive(Drop)]
pub struct ObjectShards {
    tables: ObjectTables,
    // A second time the rows of those that expire.
    dues: DueRows,
    ghost agree: { due_rows_of dues ≡ filter expires (table_rows_of tables) },
}

impl ObjectShards {
    ghost use Rattle.std.specs.Prelude.{ℕ, IsTrue, IfOk, OnOk, None, [], find, map, is_some};
    ghost use Rattle.delf_model.specs.Graph.{has_id, put_object as with_row, rewritten, is_other_object};
    ghost use Rattle.delf_model.specs.Store.{least_due};
    ghost use Rattle.object_shards.specs.ObjectShards.{objects_of, is_ready};

    /// No object. The only error is want of memory.
    pub fn empty(alloc: Global) -> Result<ObjectShards, AllocError>
        ensures { IfOk result (λ shards. objects_of shards ≡ []) }
    {
        Ok(ObjectShards {
            tables: ObjectTables::empty(alloc)?,
            dues: DueRows::empty(alloc)?,
        })
    }

    /// The row of the object with this id. Takes no memory, as all calls here but `empty`, `objects` and `ready_object`.
    pub fn object(&self, id: ObjectId) -> Option<ObjectRow>
        ensures { result ≡ find (has_id id) (objects_of self.now) }
    {
        self.tables.row(id)
    }

    /// The least id above `after` whose due is above 0 and at most this moment.
    pub fn next_due(&self, moment: Moment, after: Option<ObjectId>) -> Option<ObjectId>
        ensures { result ≡ least_due moment after (objects_of self.now) }
    {
        self.dues.next_due(moment, after)
    }

    /// All object rows by rising id. The only error is want of memory.
    pub fn objects(&self, alloc: Global) -> Result<Vec<ObjectRow>, AllocError>
        ensures { IfOk result (λ rows. rows.items ≡ objects_of self.now) }
    {
        self.tables.rows(alloc)
    }

    /// Makes room for an object with this id, so that it can be put without memory. The only error is want of memory. Rows stay, whatever
    /// it answers, and what was ready stays ready.
    pub fn ready_object(&mut self, id: ObjectId) -> Result<(), AllocError>
        ensures objects { objects_of self.new ≡ objects_of self.old }
        ensures ready { OnOk result (IsTrue (is_ready self.new id)) }
        ensures kept { (other : ℕ) → IsTrue (is_ready self.old other) → IsTrue (is_ready self.new other) }
    {
        self.tables.ready(id)?;
        self.dues.ready(id)
    }

    /// Puts an object whose id is free and was made ready.
    pub fn put_object(&mut self, row: ObjectRow)
        requires free { find (has_id row.id) (objects_of self.old) ≡ None }
        requires ready { IsTrue (is_ready self.old row.id) }
        ensures { objects_of self.new ≡ with_row row (objects_of self.old) }
    {
        self.tables.put(&row);
        if row.due == 0 {
            return;
        }
        self.dues.put(row);
    }

    /// Gives an object that stands a new payload: the position that gave it and its size.
    pub fn rewrite_object(&mut self, id: ObjectId, at: u32, size: u16)
        requires { IsTrue (is_some (find (has_id id) (objects_of self.old))) }
        ensures { objects_of self.new ≡ map (rewritten id at size) (objects_of self.old) }
    {
        self.tables.rewrite(id, at, size);
        self.dues.rewrite(id, at, size);
    }

    /// Takes the object with this id, where there is one.
    pub fn take_object(&mut self, id: ObjectId) -> Option<ObjectRow>
        ensures row { result ≡ find (has_id id) (objects_of self.old) }
        ensures objects { objects_of self.new ≡ filter (is_other_object id) (objects_of self.old) }
    {
        self.dues.take(id);
        self.tables.take(id)
    }
}
