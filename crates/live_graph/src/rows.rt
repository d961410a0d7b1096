//! Rows in two lists, objects by rising id and edges by rising key: the look-ups, and what one call changes.
ghost use Rattle.std.specs.Prelude.{◌≡◌, IsTrue, find, filter, map, slice_get};
ghost use Rattle.delf_model.specs.Graph.{objects_rise, has_id, has_key, leaves_from, leads_to, rewritten, is_other_object, is_other_edge};
ghost use Rattle.delf_model.specs.Graph.{same_key as is_same_key, key_before as is_before};
ghost use Rattle.live_graph.specs.Places.{edge_place_in};

use delf_model::{EdgeKey, EdgeRow, ObjectId, ObjectRow};
use object_shards::place_of;

/// The row with this id.
pub fn object_with(rows: &[ObjectRow], id: ObjectId) -> Option<ObjectRow>
    requires { IsTrue (objects_rise rows.now) }
    ensures { result ≡ find (has_id id) rows.now }
{
    let place = place_of(rows, id);
    if place >= rows.len() {
        return None;
    }
    let row = rows[place];
    if row.id.get() == id.get() {
        Some(row)
    } else {
        None
    }
}

/// The place at which an edge with this key keeps the order, where none has it yet.
pub fn edge_place_of(rows: &[EdgeRow], key: &EdgeKey) -> usize
    ensures { result ≡ edge_place_in key.now rows.now }
{
    for place in 0..rows.len() {
        if key_before(key, &rows[place].key) {
            return place;
        }
    }
    rows.len()
}

/// The row with this key.
pub fn edge_with(rows: &[EdgeRow], key: &EdgeKey) -> Option<EdgeRow>
    ensures { result ≡ find (has_key key.now) rows.now }
{
    for row in rows {
        if same_key(&row.key, key) {
            return Some(*row);
        }
    }
    None
}

/// Whether two keys are the same.
fn same_key(a: &EdgeKey, b: &EdgeKey) -> bool
    ensures { result ≡ is_same_key a.now b.now }
{
    a.edge.0 == b.edge.0 && a.from.get() == b.from.get() && a.to.get() == b.to.get()
}

/// Whether the first key stands before the second: by edge type, then source, then target.
fn key_before(a: &EdgeKey, b: &EdgeKey) -> bool
    ensures { result ≡ is_before a.now b.now }
{
    a.edge.0 < b.edge.0
        || (a.edge.0 == b.edge.0
            && (a.from.get() < b.from.get()
                || (a.from.get() == b.from.get() && a.to.get() < b.to.get())))
}

/// The edge out of this object at this place, from 0.
pub fn out_edge(rows: &[EdgeRow], id: ObjectId, i: u32) -> Option<EdgeRow>
    ensures { result ≡ slice_get (filter (leaves_from id) rows.now) i }
{
    let mut left = i;
    for row in rows {
        if row.key.from.get() == id.get() {
            if left == 0 {
                return Some(*row);
            }
            left -= 1;
        }
    }
    None
}

/// The edge into this object at this place, from 0.
pub fn in_edge(rows: &[EdgeRow], id: ObjectId, i: u32) -> Option<EdgeRow>
    ensures { result ≡ slice_get (filter (leads_to id) rows.now) i }
{
    let mut left = i;
    for row in rows {
        if row.key.to.get() == id.get() {
            if left == 0 {
                return Some(*row);
            }
            left -= 1;
        }
    }
    None
}

/// Gives the row with this id a new payload: the position that gave it and its size.
pub fn rewrite(rows: &mut [ObjectRow], id: ObjectId, at: u32, size: u16)
    ensures { rows.new ≡ map (rewritten id at size) rows.old }
{
    for i in 0..rows.len() {
        let row = rows[i];
        if row.id.get() == id.get() {
            rows[i] = ObjectRow { at, size, ..row };
        }
    }
}

/// Takes the rows with this id.
pub fn without_object(rows: &mut Vec<ObjectRow>, id: ObjectId)
    ensures { rows.new.items ≡ filter (is_other_object id) rows.old.items }
{
    rows.retain(|row| row.id.get() != id.get());
}

/// Takes the rows with this key.
pub fn without_edge(rows: &mut Vec<EdgeRow>, key: &EdgeKey)
    ensures { rows.new.items ≡ filter (is_other_edge key.now) rows.old.items }
{
    rows.retain(|row| !same_key(&row.key, key));
}
