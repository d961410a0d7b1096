//! A shard: a block of neighbouring rows with the least of their dues.
ghost use Rattle.std.specs.Prelude.{◌≡◌, ◌≤◌, IsTrue, length};
ghost use Rattle.delf_model.specs.Graph.{objects_rise};
ghost use Rattle.object_shards.specs.Rows.{least_of};

use crate::rows::{due_after, least_due_of, lesser_due, put_row, rewrite_row, take_row};
use delf_model::{Moment, ObjectId, ObjectRow};
use std::alloc::{AllocError, Global};

/// How many rows a shard holds at most.
pub const SHARD_ROWS: usize = 256;

/// The rows whose ids are at least `low` and below the next shard's.
#[derive(Drop)]
pub struct Shard {
    pub low: u64,
    // The least due above 0, or the greatest number where none is.
    pub least: Moment,
    // By rising id.
    pub rows: Vec<ObjectRow>,
    ghost ids_rise: { IsTrue (objects_rise rows.items) },
    ghost least_is: { least ≡ least_of rows.items },
    ghost few: { length rows.items ≤ 256 },
}

impl Shard {
    ghost use Rattle.std.specs.Prelude.{◌<◌, ◌+◌, ◌/◌, IfOk, OnOk, Some, None, find, filter, map, take, drop, slice_get, vec_capacity};
    ghost use Rattle.delf_model.specs.Graph.{has_id, put_object as with_row, rewritten, is_other_object};
    ghost use Rattle.delf_model.specs.Store.{least_due, id_of_row};
    ghost use Rattle.object_shards.specs.Shards.{has_room};

    /// A shard of these rows, with room for all that a shard holds. The only error is want of memory.
    pub fn of(alloc: Global, low: u64, rows: &[ObjectRow]) -> Result<Shard, AllocError>
        requires rise { IsTrue (objects_rise rows.now) }
        requires few { length rows.now < 256 }
        ensures low { IfOk result (λ shard. shard.low ≡ low) }
        ensures rows { IfOk result (λ shard. shard.rows.items ≡ rows.now) }
        ensures room { IfOk result (λ shard. IsTrue (has_room shard)) }
    {
        let mut held = Vec::with_capacity(alloc, SHARD_ROWS)?;
        held.extend_from_slice(rows)?;
        Ok(Shard {
            low,
            least: least_due_of(rows),
            rows: held,
        })
    }

    /// Whether a row can be put without memory.
    pub fn has_room(&self) -> bool
        ensures { result ≡ has_room self.now }
    {
        self.rows.len() < SHARD_ROWS && self.rows.len() < self.rows.capacity()
    }

    /// The least id above `after` whose due is above 0 and at most this moment.
    pub fn due(&self, moment: Moment, after: Option<ObjectId>) -> Option<ObjectId>
        ensures { result ≡ least_due moment after self.now.rows.items }
    {
        due_after(&self.rows, moment, after)
    }

    /// Makes room for all that a shard holds. The only error is want of memory.
    pub fn reserve(&mut self) -> Result<(), AllocError>
        requires { length self.old.rows.items < 256 }
        ensures low { self.new.low ≡ self.old.low }
        ensures least { self.new.least ≡ self.old.least }
        ensures rows { self.new.rows.items ≡ self.old.rows.items }
        ensures kept { IsTrue (has_room self.old) → IsTrue (has_room self.new) }
        ensures room { OnOk result (IsTrue (has_room self.new)) }
    {
        self.rows.reserve(SHARD_ROWS - self.rows.len())
    }

    /// Puts a row whose id is free.
    pub fn put(&mut self, row: ObjectRow)
        requires free { find (has_id row.id) self.old.rows.items ≡ None }
        requires room { IsTrue (has_room self.old) }
        ensures low { self.new.low ≡ self.old.low }
        ensures rows { self.new.rows.items ≡ with_row row self.old.rows.items }
    {
        let least = lesser_due(row.due, self.least);
        put_row(&mut self.rows, row);
        self.least = least;
    }

    /// Gives the row with this id a new payload.
    pub fn rewrite(&mut self, id: ObjectId, at: u32, size: u16)
        ensures low { self.new.low ≡ self.old.low }
        ensures least { self.new.least ≡ self.old.least }
        ensures rows { self.new.rows.items ≡ map (rewritten id at size) self.old.rows.items }
    {
        rewrite_row(&mut self.rows, id, at, size);
    }

    /// Takes the row with this id, where there is one.
    pub fn take(&mut self, id: ObjectId) -> Option<ObjectRow>
        ensures row { result ≡ find (has_id id) self.old.rows.items }
        ensures low { self.new.low ≡ self.old.low }
        ensures rows { self.new.rows.items ≡ filter (is_other_object id) self.old.rows.items }
    {
        match take_row(&mut self.rows, id) {
            Some(row) => {
                if row.due == self.least {
                    self.least = least_due_of(&self.rows);
                }
                Some(row)
            }
            None => None,
        }
    }

    /// The upper half of the rows as a shard of their own, with room for all that a shard holds. The only error is want of memory.
    pub fn upper_half(&self, alloc: Global) -> Result<Shard, AllocError>
        requires { 2 ≤ length self.now.rows.items }
        ensures low { IfOk result (λ upper. id_of_row (slice_get self.now.rows.items (length self.now.rows.items / 2)) ≡ Some upper.low) }
        ensures rows { IfOk result (λ upper. upper.rows.items ≡ drop (length self.now.rows.items / 2) self.now.rows.items) }
        ensures room { IfOk result (λ upper. IsTrue (has_room upper)) }
    {
        let middle = self.rows.len() / 2;
        let low = self.rows[middle].id.get();
        Shard::of(alloc, low, &self.rows[middle..])
    }

    /// Keeps the lower half of the rows alone.
    pub fn keep_lower_half(&mut self)
        requires { 2 ≤ length self.old.rows.items }
        ensures low { self.new.low ≡ self.old.low }
        ensures rows { self.new.rows.items ≡ take (length self.old.rows.items / 2) self.old.rows.items }
        ensures room { IsTrue (has_room self.new) }
    {
        let middle = self.rows.len() / 2;
        self.rows.truncate(middle);
        self.least = least_due_of(&self.rows);
    }
}
