//! The rows of the objects that expire, in shards.
ghost use Rattle.std.specs.Prelude.{◌≡◌, ℕ, ◌<◌, IsTrue, length, slice_index};
ghost use Rattle.object_shards.specs.Shards.{start, stand};
ghost use Rattle.object_shards.specs.Blocks.{least_in, block_of, block_count};

use crate::blocks::{refill, refresh};
use crate::shard::Shard;
use crate::shards::{due_after, make_room, place_of, put, rewrite, take};
use delf_model::{Moment, ObjectId, ObjectRow};
use std::alloc::{AllocError, Global};

/// The rows of the objects that expire by rising id, in shards of at most 256 neighbouring rows, with the least due of each 64 neighbouring shards.
#[derive(Drop)]
pub struct DueRows {
    alloc: Global,
    // By rising ids; the first begins at 0.
    shards: Vec<Shard>,
    // Of each block of neighbouring shards, in their order.
    leasts: Vec<Moment>,
    ghost in_order: { IsTrue (stand shards.items) },
    ghost whole: { start shards.items ≡ 0 },
    ghost blocks: { length leasts.items ≡ block_count (length shards.items) },
    ghost least_dues: { (block : ℕ) → block < length leasts.items → slice_index leasts.items block ≡ least_in (block_of block shards.items) },
}

impl DueRows {
    ghost use Rattle.std.specs.Prelude.{IfOk, OnOk, None, [], find, filter, map};
    ghost use Rattle.delf_model.specs.Graph.{has_id, put_object as with_row, rewritten, is_other_object};
    ghost use Rattle.delf_model.specs.Store.{least_due};
    ghost use Rattle.object_shards.specs.DueRows.{due_rows_of, is_ready_for};

    /// No row. The only error is want of memory.
    pub fn empty(alloc: Global) -> Result<DueRows, AllocError>
        ensures { IfOk result (λ shards. due_rows_of shards ≡ []) }
    {
        let mut shards = Vec::new(alloc);
        shards.push(Shard::of(alloc, 0, &[])?)?;
        let mut leasts = Vec::with_capacity(alloc, 1)?;
        refill(&mut leasts, &shards);
        Ok(DueRows {
            alloc,
            shards,
            leasts,
        })
    }

    /// The least id above `after` whose due is above 0 and at most this moment.
    pub fn next_due(&self, moment: Moment, after: Option<ObjectId>) -> Option<ObjectId>
        ensures { result ≡ least_due moment after (due_rows_of self.now) }
    {
        due_after(&self.shards, &self.leasts, moment, after)
    }

    /// Makes room for a row with this id, so that it can be put without memory. The only error is want of memory. Rows stay, whatever
    /// it answers, and what was ready stays ready.
    pub fn ready(&mut self, id: ObjectId) -> Result<(), AllocError>
        ensures rows { due_rows_of self.new ≡ due_rows_of self.old }
        ensures ready { OnOk result (IsTrue (is_ready_for self.new id)) }
        ensures kept { (other : ℕ) → IsTrue (is_ready_for self.old other) → IsTrue (is_ready_for self.new other) }
    {
        self.leasts.reserve(1)?;
        let count = self.shards.len();
        let made = make_room(self.alloc, &mut self.shards, id);
        if self.shards.len() == count {
            return made;
        }
        refill(&mut self.leasts, &self.shards);
        made
    }

    /// Puts a row whose id is free and was made ready.
    pub fn put(&mut self, row: ObjectRow)
        requires free { find (has_id row.id) (due_rows_of self.old) ≡ None }
        requires ready { IsTrue (is_ready_for self.old row.id) }
        ensures { due_rows_of self.new ≡ with_row row (due_rows_of self.old) }
    {
        let place = put(&mut self.shards, row);
        refresh(&mut self.leasts, &self.shards, place);
    }

    /// Gives the row with this id, where there is one, a new payload: the position that gave it and its size.
    pub fn rewrite(&mut self, id: ObjectId, at: u32, size: u16)
        ensures { due_rows_of self.new ≡ map (rewritten id at size) (due_rows_of self.old) }
    {
        rewrite(&mut self.shards, id, at, size);
    }

    /// Takes the row with this id, where there is one.
    pub fn take(&mut self, id: ObjectId) -> Option<ObjectRow>
        ensures row { result ≡ find (has_id id) (due_rows_of self.old) }
        ensures rows { due_rows_of self.new ≡ filter (is_other_object id) (due_rows_of self.old) }
    {
        let count = self.shards.len();
        let place = place_of(&self.shards, id);
        let row = take(&mut self.shards, id);
        if self.shards.len() == count {
            refresh(&mut self.leasts, &self.shards, place);
            return row;
        }
        refill(&mut self.leasts, &self.shards);
        row
    }
}
