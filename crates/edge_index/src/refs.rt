//! How many edges of refcount types lead to each target.
ghost use Rattle.std.specs.Prelude.{◌≡◌, ◌+◌, ◌-◌, ◌<◌, ◌≤◌, ℕ, true, false, [], Some, cond, nat_eq, ◌&&◌, IsTrue, OnOk, IfOk, is_some, length, if◌then◌else◌};
ghost use Rattle.edge_index.specs.Refs.{ref_in, count_in, counts_at, refs_at, refs_of};
ghost use Rattle.edge_index.specs.Ends.{places_at, has_near};

use crate::ends::{EndOrder, has_end};
use delf_model::ObjectId;
use id_hash::{IdHash, SHARDS, shard_of};
use indexmap::IndexMap;
use std::alloc::{AllocError, Global};

// The same for the targets in one shard.
type RefShard = IndexMap<ObjectId, u32, IdHash>;

/// How many edges of refcount types lead to each target, in the shard of that target; 0 where none is kept.
pub type Refs = Vec<RefShard>;

/// No counts. The only error is want of memory.
pub fn empty_refs(alloc: Global) -> Result<Refs, AllocError>
    ensures count { IfOk result (λ refs. length refs.items ≡ 16) }
    ensures none { IfOk result (λ refs. (shard : ℕ) → counts_at refs.items shard ≡ []) }
{
    let mut refs = Vec::with_capacity(alloc, SHARDS)?;
    'shards: while refs.len() < SHARDS {
        refs.push(IndexMap::with_hasher(alloc, IdHash::new()))?;
    }
    Ok(refs)
}

/// The number of references to this target.
pub fn refs_to(refs: &Refs, id: ObjectId) -> u32
    requires { length refs.now.items ≡ 16 }
    ensures { result ≡ refs_of (counts_at refs.now.items) id }
{
    count_of(&refs[shard_of(id.get())], id)
}

fn count_of(refs: &RefShard, id: ObjectId) -> u32
    ensures { result ≡ count_in refs.now.entries id }
{
    refs.get(&id).copied().unwrap_or(0)
}

/// Makes a place for the count of this target. The only error is want of memory. No count changes.
pub fn ready_ref(refs: &mut Refs, id: ObjectId) -> Result<(), AllocError>
    requires { length refs.old.items ≡ 16 }
    ensures size { length refs.new.items ≡ 16 }
    ensures counts { (other : ℕ) → refs_of (counts_at refs.new.items) other ≡ refs_of (counts_at refs.old.items) other }
    ensures place { OnOk result (is_some (refs_at (counts_at refs.new.items) id) ≡ true) }
    ensures stay { (other : ℕ) → is_some (refs_at (counts_at refs.old.items) other) ≡ true → is_some (refs_at (counts_at refs.new.items) other) ≡ true }
{
    let shard = shard_of(id.get());
    if !refs[shard].contains_key(&id) {
        refs[shard].insert(id, 0)?;
    }
    Ok(())
}

/// Counts one reference more to this target, which has its place, if `counts`.
pub fn count_up(refs: &mut Refs, id: ObjectId, counts: bool)
    requires size { length refs.old.items ≡ 16 }
    requires place { is_some (refs_at (counts_at refs.old.items) id) ≡ true }
    requires room { refs_of (counts_at refs.old.items) id < 4294967295 }
    ensures size { length refs.new.items ≡ 16 }
    ensures count { (other : ℕ) → refs_of (counts_at refs.new.items) other ≡ refs_of (counts_at refs.old.items) other + (if counts && nat_eq id other then 1 else 0) }
    ensures places { (other : ℕ) → is_some (refs_at (counts_at refs.new.items) other) ≡ is_some (refs_at (counts_at refs.old.items) other) }
{
    if counts {
        let shard = shard_of(id.get());
        add_ref(&mut refs[shard], id);
    }
}

fn add_ref(refs: &mut RefShard, id: ObjectId)
    requires place { is_some (ref_in refs.old.entries id) ≡ true }
    requires room { count_in refs.old.entries id < 4294967295 }
    ensures { (other : ℕ) → ref_in refs.new.entries other ≡ cond (nat_eq id other) (Some (count_in refs.old.entries id + 1)) (ref_in refs.old.entries other) }
{
    if let Some(count) = refs.get_mut(&id) {
        *count += 1;
    }
}

/// Counts one reference less to this target, which has some, if `counts`.
pub fn count_down(refs: &mut Refs, id: ObjectId, counts: bool)
    requires size { length refs.old.items ≡ 16 }
    requires some { IsTrue counts → 0 < refs_of (counts_at refs.old.items) id }
    ensures size { length refs.new.items ≡ 16 }
    ensures count { (other : ℕ) → refs_of (counts_at refs.old.items) other ≡ refs_of (counts_at refs.new.items) other + (if counts && nat_eq id other then 1 else 0) }
    ensures places { (other : ℕ) → is_some (refs_at (counts_at refs.new.items) other) ≡ is_some (refs_at (counts_at refs.old.items) other) }
{
    if counts {
        let shard = shard_of(id.get());
        drop_ref(&mut refs[shard], id);
    }
}

fn drop_ref(refs: &mut RefShard, id: ObjectId)
    requires { 0 < count_in refs.old.entries id }
    ensures { (other : ℕ) → ref_in refs.new.entries other ≡ cond (nat_eq id other) (Some (count_in refs.old.entries id - 1)) (ref_in refs.old.entries other) }
{
    if let Some(count) = refs.get_mut(&id) {
        *count -= 1;
    }
}

/// Drops the place of this target, which has no references, where there is room for no edge into it.
pub fn forget(refs: &mut Refs, inward: &EndOrder, id: ObjectId)
    requires size { length refs.old.items ≡ 16 }
    requires ends { length inward.now.items ≡ 16 }
    requires none { has_near (places_at inward.now.items) id ≡ false → refs_of (counts_at refs.old.items) id ≡ 0 }
    ensures size { length refs.new.items ≡ 16 }
    ensures counts { (other : ℕ) → refs_of (counts_at refs.new.items) other ≡ refs_of (counts_at refs.old.items) other }
    ensures stay { (other : ℕ) → has_near (places_at inward.now.items) other ≡ true → is_some (refs_at (counts_at refs.new.items) other) ≡ is_some (refs_at (counts_at refs.old.items) other) }
{
    if !has_end(inward, id) {
        let shard = shard_of(id.get());
        refs[shard].swap_remove(&id);
    }
}
