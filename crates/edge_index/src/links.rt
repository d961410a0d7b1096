//! The tables of links: what stands at each key for which there is room.
ghost use Rattle.std.specs.Prelude.{◌≡◌, ◌%◌, ℕ, true, false, [], Some, None, cond, is_some, length, OnOk, OnErr, IfOk};
ghost use Rattle.std.specs.List.Sorted.{IsStrictlySortedBy};
ghost use Rattle.std.specs.Map.{keys_of, set_value, remove_entry};
ghost use Rattle.std.specs.BTreeMap.{is_at, insert_entry};
ghost use Rattle.std.specs.Ordering.{is_eq};
ghost use Rattle.std.specs.Option.{option_or};
ghost use Rattle.delf_model.specs.declared.rows.EdgeKey.{EdgeKey};
ghost use Rattle.edge_index.specs.Keys.{edge_cmp, edge_eq};
ghost use Rattle.edge_index.specs.Links.{row_of, rows_of, row_in, has_room, link_at, link_of, found, entries_at, all_entries, by_key};

use delf_model::{EdgeKey, EdgeRow};
use id_hash::{IdHash, SHARDS, shard_of};
use indexmap::IndexMap;
use std::alloc::{AllocError, Global};
use std::marker::Model;

/// What an edge row has beside its key.
#[derive(Clone, Copy)]
pub struct Link {
    /// The position of the entry that linked it.
    pub birth: u32,
    /// The size of its payload in bytes.
    pub size: u16,
}

// The same in no order.
type Table = IndexMap<EdgeKey, Option<Link>, IdHash>;

/// What stands at each key for which there is room: None until its edge is put. It is seen by rising key, and kept in no
/// order in the table of its source's shard, so that a look-up takes the same time whatever it holds.
#[derive(Drop)]
pub struct Links {
    tables: Vec<Table>,
}

impl Model for Links {
    ghost use Rattle.edge_index.specs.Links.{LinkTable};

    ghost Value = { LinkTable };

    ghost use Rattle.edge_index.specs.InsideLinks.{links_seen, AreSharded};

    ghost view = { links_seen };

    ghost invariant = { AreSharded };
}

/// The row of this key with this link, where there is one.
pub fn row_with(key: &EdgeKey, link: &Option<Link>) -> Option<EdgeRow>
    ensures { result ≡ row_of key.now link.now }
{
    match link {
        Some(link) => Some(EdgeRow {
            key: *key,
            birth: link.birth,
            size: link.size,
        }),
        None => None,
    }
}

// Writes what stands at a key for which there is room.
fn write_link(table: &mut Table, key: &EdgeKey, link: Link)
    requires { is_some (found table.old.entries key.now) ≡ true }
    ensures { (other : EdgeKey) → found table.new.entries other ≡ cond (edge_eq key.now other) (Some (Some link)) (found table.old.entries other) }
{
    if let Some(place) = table.get_mut(key) {
        *place = Some(link);
    }
}

// Tables without keys. The only error is want of memory.
fn empty_tables(alloc: Global) -> Result<Vec<Table>, AllocError>
    ensures count { IfOk result (λ tables. length tables.items ≡ 16) }
    ensures none { IfOk result (λ tables. (shard : ℕ) → entries_at tables.items shard ≡ []) }
{
    let mut tables = Vec::with_capacity(alloc, SHARDS)?;
    'shards: while tables.len() < SHARDS {
        tables.push(IndexMap::with_hasher(alloc, IdHash::new()))?;
    }
    Ok(tables)
}

// Writes what another table has over what stands here. The only error is want of memory.
fn add_table(all: &mut Table, table: &Table) -> Result<(), AllocError>
    ensures { OnOk result ((key : EdgeKey) → found all.new.entries key ≡ option_or (found table.now.entries key) (found all.old.entries key)) }
{
    all.extend(table.iter())
}

// What stands in all tables, in one. The only error is want of memory.
fn one_table(alloc: Global, tables: &[Table]) -> Result<Table, AllocError>
    ensures { IfOk result (λ all. (key : EdgeKey) → found all.entries key ≡ found (all_entries tables.now) key) }
{
    let mut all = IndexMap::with_hasher(alloc, IdHash::new());
    let mut shard = tables.len();
    'shards: while shard > 0 {
        shard -= 1;
        add_table(&mut all, &tables[shard])?;
    }
    Ok(all)
}

// The same by rising key. The only error is want of memory.
fn sorted_table(alloc: Global, tables: &[Table]) -> Result<Table, AllocError>
    ensures { IfOk result (λ all. all.entries ≡ by_key (all_entries tables.now)) }
{
    let mut all = one_table(alloc, tables)?;
    all.sort_keys()?;
    Ok(all)
}

impl Links {
    /// Room for no key. The only error is want of memory.
    pub fn empty(alloc: Global) -> Result<Links, AllocError>
        ensures none { IfOk result (λ links. links.entries ≡ []) }
        ensures rise { IfOk result (λ links. IsStrictlySortedBy edge_cmp (keys_of links.entries)) }
    {
        let tables = empty_tables(alloc)?;
        Ok(Links { tables })
    }

    /// Whether there is room for this key.
    pub fn has(&self, key: &EdgeKey) -> bool
        ensures { result ≡ has_room self.now.entries key.now }
    {
        self.tables[shard_of(key.from.get())].contains_key(key)
    }

    /// The row of the edge with this key.
    pub fn row(&self, key: &EdgeKey) -> Option<EdgeRow>
        ensures { result ≡ row_in self.now.entries key.now }
    {
        match self.tables[shard_of(key.from.get())].get(key) {
            Some(link) => row_with(key, link),
            None => None,
        }
    }

    /// All rows by rising key. The only error is want of memory.
    pub fn rows(&self, alloc: Global) -> Result<Vec<EdgeRow>, AllocError>
        ensures { IfOk result (λ rows. rows.items ≡ rows_of self.now.entries) }
    {
        let sorted = sorted_table(alloc, &self.tables)?;
        sorted
            .iter()
            .filter_map(|(key, link)| row_with(key, link))
            .collect(alloc)
    }

    /// Makes room for a key that has none. The only error is want of memory, and then nothing changes.
    pub fn ready(&mut self, key: EdgeKey) -> Result<(), AllocError>
        requires { has_room self.old.entries key ≡ false }
        ensures entries { OnOk result (self.new.entries ≡ insert_entry edge_cmp self.old.entries key None) }
        ensures linked { OnOk result ((other : EdgeKey) → link_at self.new.entries other ≡ cond (is_eq (edge_cmp key other)) (Some None) (link_at self.old.entries other)) }
        ensures rise { IsStrictlySortedBy edge_cmp (keys_of self.new.entries) }
        ensures err { OnErr result (self.new.entries ≡ self.old.entries) }
    {
        let shard = shard_of(key.from.get());
        self.tables[shard].insert(key, None)?;
        Ok(())
    }

    /// Writes the link of a row at its key, for which there is room.
    pub fn put(&mut self, row: &EdgeRow)
        requires { has_room self.old.entries row.now.key ≡ true }
        ensures { self.new.entries ≡ set_value (is_at (edge_cmp row.now.key)) self.old.entries (Some (link_of row.now)) }
    {
        let link = Link {
            birth: row.birth,
            size: row.size,
        };
        let shard = shard_of(row.key.from.get());
        write_link(&mut self.tables[shard], &row.key, link);
    }

    /// Takes this key out, and answers the row that stood there.
    pub fn take(&mut self, key: &EdgeKey) -> Option<EdgeRow>
        ensures row { result ≡ row_in self.old.entries key.now }
        ensures entries { self.new.entries ≡ remove_entry (is_at (edge_cmp key.now)) self.old.entries }
        ensures linked { (other : EdgeKey) → link_at self.new.entries other ≡ cond (is_eq (edge_cmp key.now other)) None (link_at self.old.entries other) }
        ensures rise { IsStrictlySortedBy edge_cmp (keys_of self.new.entries) }
    {
        let shard = shard_of(key.from.get());
        match self.tables[shard].swap_remove(key) {
            Some(link) => row_with(key, &link),
            None => None,
        }
    }
}
