//! The edges of one end, in the order in which that end's edges are asked for.
ghost use Rattle.std.specs.Prelude.{◌≡◌, ℕ, Bool, true, [], Some, None, List, OnOk, IfOk, length, filter, slice_get};
ghost use Rattle.std.specs.Map.Iter.{ShowsInOrder, deref_pair};
ghost use Rattle.delf_model.specs.declared.rows.EdgeKey.{EdgeKey};
ghost use Rattle.edge_index.specs.declared.ends.EndKey.{EndKey};
ghost use Rattle.edge_index.specs.Links.{Entry};
ghost use Rattle.edge_index.specs.Ends.{at_source, at_target, places_at, place_of, is_near, has_near, rows_near, Placed, Rises, StandAt, TellsApart, IsOrderOf};

use crate::links::Links;
use delf_model::{EdgeKey, EdgeRow, ObjectId};
use id_hash::{SHARDS, shard_of};
use std::alloc::{AllocError, Global};
use std::collections::BTreeMap;
use std::collections::btree_map::Range;

/// Where an edge stands among the edges of one of its ends: by edge type, then by the other end.
#[derive(Clone, Copy, PartialEq, Eq, PartialOrd, Ord)]
pub struct EndKey {
    pub near: u64,
    pub edge: u8,
    pub far: u64,
}

// The keys for which there is room and whose end is in one shard, by where they stand there.
type EndShard = BTreeMap<EndKey, EdgeKey>;

/// The keys for which there is room, by where they stand at one of their ends, in the shard of that end.
pub type EndOrder = Vec<EndShard>;

/// An order without keys. The only error is want of memory.
pub fn empty_order(alloc: Global) -> Result<EndOrder, AllocError>
    ensures count { IfOk result (λ order. length order.items ≡ 16) }
    ensures none { IfOk result (λ order. (shard : ℕ) → places_at order.items shard ≡ []) }
{
    let mut order = Vec::with_capacity(alloc, SHARDS)?;
    'shards: while order.len() < SHARDS {
        order.push(BTreeMap::new(alloc))?;
    }
    Ok(order)
}

/// Where the edge with this key stands at its source.
pub fn source_end(key: &EdgeKey) -> EndKey
    ensures { result ≡ at_source key.now }
{
    EndKey {
        near: key.from.get(),
        edge: key.edge.0,
        far: key.to.get(),
    }
}

/// Where the edge with this key stands at its target.
pub fn target_end(key: &EdgeKey) -> EndKey
    ensures { result ≡ at_target key.now }
{
    EndKey {
        near: key.to.get(),
        edge: key.edge.0,
        far: key.from.get(),
    }
}

// What stands before all edges of the end with this number.
fn start_of(near: u64) -> EndKey
    ensures { result ≡ record { near = near; edge = 0; far = 0 } }
{
    EndKey {
        near,
        edge: 0,
        far: 0,
    }
}

// The keys that stand at this end.
fn places_near(order: &EndShard, id: ObjectId) -> Range<'_, EndKey, EdgeKey>
    ensures rest { result ≡ filter (is_near id) order.now.entries }
    ensures runs { ShowsInOrder (deref_pair {K = EndKey} {X = EdgeKey}) }
{
    let near = id.get();
    order.range(start_of(near)..start_of(near + 1))
}

/// The row at this place, from 0, among those that stand at this end.
pub fn row_near(links: &Links, order: &EndOrder, id: ObjectId, i: u32) -> Option<EdgeRow>
    requires { length order.now.items ≡ 16 }
    ensures { result ≡ slice_get (rows_near links.now.entries (places_at order.now.items) id) i }
{
    places_near(&order[shard_of(id.get())], id)
        .filter_map(|(_, key)| links.row(key))
        .nth(i as usize)
}

/// Whether there is room for any edge at this end.
pub fn has_end(order: &EndOrder, id: ObjectId) -> bool
    requires { length order.now.items ≡ 16 }
    ensures { result ≡ has_near (places_at order.now.items) id }
{
    places_near(&order[shard_of(id.get())], id).next().is_some()
}

/// Puts a key at its place in an order. The only error is want of memory.
pub fn add_place(order: &mut EndOrder, place: EndKey, key: EdgeKey) -> Result<(), AllocError>
    requires { length order.old.items ≡ 16 }
    ensures count { length order.new.items ≡ 16 }
    ensures there { OnOk result (place_of (places_at order.new.items) place ≡ Some key) }
    ensures keeps { (end : EdgeKey → EndKey) → (spare : EdgeKey → Bool) → (links : List Entry) → TellsApart end → end key ≡ place → spare key ≡ true → IsOrderOf end spare links (places_at order.old.items) → IsOrderOf end spare links (places_at order.new.items) }
{
    let shard = shard_of(place.near);
    order[shard].insert(place, key)?;
    Ok(())
}

/// Takes what stands at a place out of an order.
pub fn drop_place(order: &mut EndOrder, place: &EndKey)
    requires { length order.old.items ≡ 16 }
    ensures count { length order.new.items ≡ 16 }
    ensures placed { Placed (places_at order.old.items) (places_at order.new.items) place.now None }
    ensures rise { Rises (places_at order.old.items) → Rises (places_at order.new.items) }
    ensures stand { (end : EdgeKey → EndKey) → StandAt end (places_at order.old.items) → StandAt end (places_at order.new.items) }
{
    let shard = shard_of(place.near);
    order[shard].remove(place);
}
