//! Shards by rising ids: the shard of an id, the look-ups, and the calls that change one shard.
ghost use Rattle.std.specs.Prelude.{◌≡◌, ◌≢◌, ℕ, ◌+◌, ◌<◌, ◌≤◌, IsTrue, false, IfOk, OnOk, Some, None, slice_get, find, filter, map, length, drop, slice_index};
ghost use Rattle.delf_model.specs.Graph.{has_id, put_object as with_row, rewritten, is_other_object};
ghost use Rattle.delf_model.specs.Store.{least_due};
ghost use Rattle.object_shards.specs.Shards.{start, stand, shard_place, rows_of, dues_of, has_room, ready_in};
ghost use Rattle.object_shards.specs.Blocks.{least_in, block_of, block_count};

use crate::blocks::first_due;
use crate::rows::insert_ready;
use crate::shard::{SHARD_ROWS, Shard};
use delf_model::{Moment, ObjectId, ObjectRow};
use std::alloc::{AllocError, Global};

/// The place of the shard into whose ids this one falls.
pub fn place_of(shards: &[Shard], id: ObjectId) -> usize
    requires stand { IsTrue (stand shards.now) }
    requires first { start shards.now ≡ 0 }
    ensures place { result ≡ shard_place id shards.now }
    ensures within { result < length shards.now }
{
    let id = id.get();
    let mut low = 0;
    let mut high = shards.len();
    'halves: while high - low > 1 {
        let middle = low + (high - low) / 2;
        if shards[middle].low <= id {
            low = middle;
        } else {
            high = middle;
        }
    }
    low
}

/// The place of the first shard that may hold an id above `after`.
fn place_after(shards: &[Shard], after: Option<ObjectId>) -> usize
    requires stand { IsTrue (stand shards.now) }
    requires first { start shards.now ≡ 0 }
    ensures within { result ≤ length shards.now }
    ensures passed { (moment : ℕ) → least_due moment after (rows_of shards.now) ≡ least_due moment after (rows_of (drop result shards.now)) }
{
    match after {
        Some(id) => place_of(shards, id),
        None => 0,
    }
}

/// The least id above `after` whose due is above 0 and at most this moment.
pub fn due_after(
    shards: &[Shard],
    leasts: &[Moment],
    moment: Moment,
    after: Option<ObjectId>,
) -> Option<ObjectId>
    requires stand { IsTrue (stand shards.now) }
    requires first { start shards.now ≡ 0 }
    requires count { length leasts.now ≡ block_count (length shards.now) }
    requires leasts { (block : ℕ) → block < length leasts.now → slice_index leasts.now block ≡ least_in (block_of block shards.now) }
    ensures { result ≡ least_due moment after (rows_of shards.now) }
{
    due_from(shards, leasts, place_after(shards, after), moment, &after)
}

/// The least id above `after` in the shards from this place on whose due is above 0 and at most this moment.
fn due_from(
    shards: &[Shard],
    leasts: &[Moment],
    from: usize,
    moment: Moment,
    after: &Option<ObjectId>,
) -> Option<ObjectId>
    requires from { from ≤ length shards.now }
    requires count { length leasts.now ≡ block_count (length shards.now) }
    requires leasts { (block : ℕ) → block < length leasts.now → slice_index leasts.now block ≡ least_in (block_of block shards.now) }
    ensures { result ≡ least_due moment after.now (rows_of (drop from shards.now)) }
{
    let mut from = from;
    'dues: while from < shards.len() {
        let place = first_due(shards, leasts, moment, from);
        if place >= shards.len() {
            return None;
        }
        if let Some(id) = shards[place].due(moment, *after) {
            return Some(id);
        }
        from = place + 1;
    }
    None
}

/// Makes room in the shard of this id: a full shard is parted in two. The only error is want of memory.
pub fn make_room(alloc: Global, shards: &mut Vec<Shard>, id: ObjectId) -> Result<(), AllocError>
    requires stand { IsTrue (stand shards.old.items) }
    requires first { start shards.old.items ≡ 0 }
    ensures stand { IsTrue (stand shards.new.items) }
    ensures first { start shards.new.items ≡ 0 }
    ensures rows { rows_of shards.new.items ≡ rows_of shards.old.items }
    ensures ready { OnOk result (IsTrue (ready_in id shards.new.items)) }
    ensures kept { (other : ℕ) → IsTrue (ready_in other shards.old.items) → IsTrue (ready_in other shards.new.items) }
    ensures count { length shards.new.items ≤ length shards.old.items + 1 }
    ensures dues { length shards.new.items ≡ length shards.old.items → dues_of shards.new.items ≡ dues_of shards.old.items }
{
    let place = place_of(shards, id);
    if shards[place].has_room() {
        return Ok(());
    }
    if shards[place].rows.len() < SHARD_ROWS {
        return shards[place].reserve();
    }
    part(alloc, shards, place)
}

/// Parts the shard at this place in two of half its rows, each with room for a whole shard's. The only error is want of memory.
fn part(alloc: Global, shards: &mut Vec<Shard>, place: usize) -> Result<(), AllocError>
    requires stand { IsTrue (stand shards.old.items) }
    requires within { place < length shards.old.items }
    requires full { (shard : Shard) → slice_get shards.old.items place ≡ Some shard → (has_room shard ≡ false) × (2 ≤ length shard.rows.items) }
    ensures stand { IsTrue (stand shards.new.items) }
    ensures first { start shards.new.items ≡ start shards.old.items }
    ensures rows { rows_of shards.new.items ≡ rows_of shards.old.items }
    ensures ready { OnOk result ((id : ℕ) → shard_place id shards.old.items ≡ place → IsTrue (ready_in id shards.new.items)) }
    ensures kept { (other : ℕ) → IsTrue (ready_in other shards.old.items) → IsTrue (ready_in other shards.new.items) }
    ensures count { length shards.new.items ≤ length shards.old.items + 1 }
    ensures dues { length shards.new.items ≡ length shards.old.items → dues_of shards.new.items ≡ dues_of shards.old.items }
{
    let upper = shards[place].upper_half(alloc)?;
    shards.reserve(1)?;
    shards[place].keep_lower_half();
    insert_ready(shards, place + 1, upper);
    Ok(())
}

/// Puts a row whose id is free and was made ready, and gives the place of the shard that changed.
pub fn put(shards: &mut Vec<Shard>, row: ObjectRow) -> usize
    requires stand { IsTrue (stand shards.old.items) }
    requires first { start shards.old.items ≡ 0 }
    requires free { find (has_id row.id) (rows_of shards.old.items) ≡ None }
    requires ready { IsTrue (ready_in row.id shards.old.items) }
    ensures stand { IsTrue (stand shards.new.items) }
    ensures first { start shards.new.items ≡ 0 }
    ensures rows { rows_of shards.new.items ≡ with_row row (rows_of shards.old.items) }
    ensures place { result < length shards.new.items }
    ensures count { length shards.new.items ≡ length shards.old.items }
    ensures dues { (k : ℕ) → k ≢ result → slice_index (dues_of shards.new.items) k ≡ slice_index (dues_of shards.old.items) k }
{
    let place = place_of(shards, row.id);
    shards[place].put(row);
    place
}

/// Gives the row with this id a new payload.
pub fn rewrite(shards: &mut Vec<Shard>, id: ObjectId, at: u32, size: u16)
    requires stand { IsTrue (stand shards.old.items) }
    requires first { start shards.old.items ≡ 0 }
    ensures stand { IsTrue (stand shards.new.items) }
    ensures first { start shards.new.items ≡ 0 }
    ensures rows { rows_of shards.new.items ≡ map (rewritten id at size) (rows_of shards.old.items) }
    ensures count { length shards.new.items ≡ length shards.old.items }
    ensures dues { dues_of shards.new.items ≡ dues_of shards.old.items }
{
    let place = place_of(shards, id);
    shards[place].rewrite(id, at, size);
}

/// Takes the row with this id, where there is one, and drops a shard that it was the last row of.
pub fn take(shards: &mut Vec<Shard>, id: ObjectId) -> Option<ObjectRow>
    requires stand { IsTrue (stand shards.old.items) }
    requires first { start shards.old.items ≡ 0 }
    ensures row { result ≡ find (has_id id) (rows_of shards.old.items) }
    ensures stand { IsTrue (stand shards.new.items) }
    ensures first { start shards.new.items ≡ 0 }
    ensures rows { rows_of shards.new.items ≡ filter (is_other_object id) (rows_of shards.old.items) }
    ensures count { length shards.new.items ≤ length shards.old.items }
    ensures dues { length shards.new.items ≡ length shards.old.items → (k : ℕ) → k ≢ shard_place id shards.old.items → slice_index (dues_of shards.new.items) k ≡ slice_index (dues_of shards.old.items) k }
{
    let place = place_of(shards, id);
    let row = shards[place].take(id);
    drop_empty(shards, place);
    row
}

/// Drops the shard at this place where it has no row, but for the first.
fn drop_empty(shards: &mut Vec<Shard>, place: usize)
    requires stand { IsTrue (stand shards.old.items) }
    requires within { place < length shards.old.items }
    ensures stand { IsTrue (stand shards.new.items) }
    ensures first { start shards.new.items ≡ start shards.old.items }
    ensures rows { rows_of shards.new.items ≡ rows_of shards.old.items }
    ensures count { length shards.new.items ≤ length shards.old.items }
    ensures same { length shards.new.items ≡ length shards.old.items → shards.new.items ≡ shards.old.items }
{
    if place > 0 && shards[place].rows.is_empty() {
        shards.remove(place);
    }
}
