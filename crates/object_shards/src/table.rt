//! The object rows by hashed id.
ghost use Rattle.std.specs.Prelude.{◌≡◌, ◌≤◌, ◌<◌, ℕ, [], cond, nat_eq, IsTrue, IfOk, OnOk, find, filter, map};
ghost use Rattle.delf_model.specs.Graph.{objects_rise, has_id, put_object as with_row, rewritten, is_other_object};
ghost use Rattle.object_shards.specs.Table.{row_of, row_of_entry, kept_of, found, renewed, by_id};

use delf_model::{Moment, ObjectId, ObjectRow, TypeNo};
use id_hash::IdHash;
use indexmap::IndexMap;
use std::alloc::{AllocError, Global};
use std::marker::Model;

/// What an object row has beside its id.
#[derive(Clone, Copy)]
pub struct Kept {
    pub kind: TypeNo,
    pub birth: u32,
    pub due: Moment,
    pub at: u32,
    pub size: u16,
}

// In no order.
type Entries = IndexMap<ObjectId, Kept, IdHash>;

/// The rows of all objects. They are seen by rising id, and kept in no order, so that a look-up takes the same time however
/// many there are.
#[derive(Drop)]
pub struct ObjectTable {
    entries: Entries,
}

impl Model for ObjectTable {
    ghost use Rattle.object_shards.specs.Table.{TableSeen};

    ghost Value = { TableSeen };

    ghost use Rattle.object_shards.specs.InsideTable.{table_seen};

    ghost view = { table_seen };
}

// The row of this id.
fn row_with(id: ObjectId, kept: &Kept) -> ObjectRow
    ensures { result ≡ row_of id kept.now }
{
    ObjectRow {
        id,
        kind: kept.kind,
        birth: kept.birth,
        due: kept.due,
        at: kept.at,
        size: kept.size,
    }
}

// What is kept of a row.
fn kept_with(row: &ObjectRow) -> Kept
    ensures { result ≡ kept_of row.now }
{
    Kept {
        kind: row.kind,
        birth: row.birth,
        due: row.due,
        at: row.at,
        size: row.size,
    }
}

// The same with a new payload.
fn with_payload(kept: Kept, at: u32, size: u16) -> Kept
    ensures { result ≡ record kept { at = at; size = size } }
{
    Kept { at, size, ..kept }
}

// Writes the new payload of an id, where it stands.
fn renew(entries: &mut Entries, id: ObjectId, at: u32, size: u16)
    ensures { (other : ℕ) → found entries.new.entries other ≡ cond (nat_eq id other) (renewed at size (found entries.old.entries id)) (found entries.old.entries other) }
{
    if let Some(kept) = entries.get_mut(&id) {
        *kept = with_payload(*kept, at, size);
    }
}

// A copy by rising id. The only error is want of memory.
fn sorted_copy(entries: &Entries) -> Result<Entries, AllocError>
    ensures { IfOk result (λ copy. map row_of_entry copy.entries ≡ by_id entries.now.entries) }
{
    let mut copy = entries.clone()?;
    copy.sort_keys()?;
    Ok(copy)
}

impl ObjectTable {
    /// No row.
    pub fn empty(alloc: Global) -> ObjectTable
        ensures { result.rows ≡ [] }
    {
        ObjectTable {
            entries: IndexMap::with_hasher(alloc, IdHash::new()),
        }
    }

    /// The row of the object with this id.
    pub fn row(&self, id: ObjectId) -> Option<ObjectRow>
        ensures { result ≡ find (has_id id) self.now.rows }
    {
        match self.entries.get(&id) {
            Some(kept) => Some(row_with(id, kept)),
            None => None,
        }
    }

    /// All rows by rising id. The only error is want of memory.
    pub fn rows(&self, alloc: Global) -> Result<Vec<ObjectRow>, AllocError>
        ensures { IfOk result (λ rows. rows.items ≡ self.now.rows) }
    {
        let sorted = sorted_copy(&self.entries)?;
        sorted
            .iter()
            .map(|(id, kept)| row_with(*id, kept))
            .collect(alloc)
    }

    /// Makes room for a row more. The only error is want of memory. The rows stay, whatever it answers.
    pub fn ready(&mut self) -> Result<(), AllocError>
        ensures rows { self.new.rows ≡ self.old.rows }
        ensures room { OnOk result (0 < self.new.room) }
        ensures kept { self.old.room ≤ self.new.room }
    {
        self.entries.reserve(1)
    }

    /// Puts a row, where there is room.
    pub fn put(&mut self, row: &ObjectRow)
        requires { 0 < self.old.room }
        ensures rows { self.new.rows ≡ with_row row.now self.old.rows }
        ensures rose { IsTrue (objects_rise self.old.rows) }
    {
        let _ = self.entries.insert(row.id, kept_with(row));
    }

    /// Gives the object with this id, where there is one, a new payload: the position that gave it and its size.
    pub fn rewrite(&mut self, id: ObjectId, at: u32, size: u16)
        ensures { self.new.rows ≡ map (rewritten id at size) self.old.rows }
    {
        renew(&mut self.entries, id, at, size);
    }

    /// Takes the row with this id, where there is one.
    pub fn take(&mut self, id: ObjectId) -> Option<ObjectRow>
        ensures row { result ≡ find (has_id id) self.old.rows }
        ensures rows { self.new.rows ≡ filter (is_other_object id) self.old.rows }
    {
        match self.entries.swap_remove(&id) {
            Some(kept) => Some(row_with(id, &kept)),
            None => None,
        }
    }
}
