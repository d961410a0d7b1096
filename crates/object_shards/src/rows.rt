//! Rows by rising id: the place of an id, the look-ups, and one row put, changed or taken.
ghost use Rattle.std.specs.Prelude.{◌≡◌, ◌<◌, ◌≤◌, IsTrue, None, find, filter, map, vec_len, vec_capacity};
ghost use Rattle.std.specs.List.{insert};
ghost use Rattle.delf_model.specs.Graph.{objects_rise, has_id, put_object as with_row, rewritten, is_other_object};
ghost use Rattle.delf_model.specs.Store.{least_due};
ghost use Rattle.object_shards.specs.Rows.{place_in, least_of, lesser_due as least_with};

use delf_model::{Moment, ObjectId, ObjectRow};

/// The number of rows with a lesser id, which is the place of this id in the order.
pub fn place_of(rows: &[ObjectRow], id: ObjectId) -> usize
    requires { IsTrue (objects_rise rows.now) }
    ensures { result ≡ place_in id rows.now }
{
    let id = id.get();
    let mut low = 0;
    let mut high = rows.len();
    'halves: while low < high {
        let middle = low + (high - low) / 2;
        if rows[middle].id.get() < id {
            low = middle + 1;
        } else {
            high = middle;
        }
    }
    low
}

/// The least id above `after` whose due is above 0 and at most this moment.
pub fn due_after(rows: &[ObjectRow], moment: Moment, after: Option<ObjectId>) -> Option<ObjectId>
    ensures { result ≡ least_due moment after rows.now }
{
    let after = after.map_or(0, |id| id.get());
    let row = rows.iter().find(|row| after < row.id.get() && 0 < row.due && row.due <= moment)?;
    Some(row.id)
}

/// The least due above 0, or the greatest number where none is.
pub fn least_due_of(rows: &[ObjectRow]) -> Moment
    ensures { result ≡ least_of rows.now }
{
    let mut least = Moment::MAX;
    let mut place = rows.len();
    'rows: while place > 0 {
        place -= 1;
        least = lesser_due(rows[place].due, least);
    }
    least
}

/// The lesser of a due and a least due, where a due of 0 counts for none.
pub fn lesser_due(due: Moment, least: Moment) -> Moment
    ensures { result ≡ least_with due least }
{
    if 0 < due && due < least { due } else { least }
}

/// Puts a row whose id is free where a place is free.
pub fn put_row(rows: &mut Vec<ObjectRow>, row: ObjectRow)
    requires rise { IsTrue (objects_rise rows.old.items) }
    requires free { find (has_id row.id) rows.old.items ≡ None }
    requires ready { vec_len rows.old < vec_capacity rows.old }
    ensures { rows.new.items ≡ with_row row rows.old.items }
{
    let place = place_of(rows, row.id);
    insert_ready(rows, place, row);
}

/// Puts a value where a place is free.
pub fn insert_ready<T: Drop>(list: &mut Vec<T>, place: usize, item: T)
    requires place { place ≤ vec_len list.old }
    requires ready { vec_len list.old < vec_capacity list.old }
    ensures { list.new.items ≡ insert list.old.items place item }
{
    let _ = list.insert(place, item);
}

/// Gives the row with this id a new payload: the position that gave it and its size.
pub fn rewrite_row(rows: &mut Vec<ObjectRow>, id: ObjectId, at: u32, size: u16)
    requires { IsTrue (objects_rise rows.old.items) }
    ensures { rows.new.items ≡ map (rewritten id at size) rows.old.items }
{
    let place = place_of(rows, id);
    if place < rows.len() {
        let row = rows[place];
        if row.id.get() == id.get() {
            rows[place] = ObjectRow { at, size, ..row };
        }
    }
}

/// Takes the row with this id, where there is one.
pub fn take_row(rows: &mut Vec<ObjectRow>, id: ObjectId) -> Option<ObjectRow>
    requires { IsTrue (objects_rise rows.old.items) }
    ensures row { result ≡ find (has_id id) rows.old.items }
    ensures rest { rows.new.items ≡ filter (is_other_object id) rows.old.items }
{
    let place = place_of(rows, id);
    if place >= rows.len() {
        return None;
    }
    if rows[place].id.get() != id.get() {
        return None;
    }
    Some(rows.remove(place))
}
