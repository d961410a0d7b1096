//! The least due of each block of neighbouring shards, so that what is due is found without a look at every shard.
ghost use Rattle.std.specs.Prelude.{◌≡◌, ℕ, ◌+◌, ◌*◌, ◌/◌, ◌<◌, ◌≤◌, ◌≢◌, min, length, nat_lt, if◌then◌else◌, slice_index, vec_len, vec_capacity};
ghost use Rattle.object_shards.specs.Shards.{dues_of};
ghost use Rattle.object_shards.specs.Blocks.{least_in, block_of, block_count};

use crate::rows::insert_ready;
use crate::shard::Shard;
use delf_model::Moment;

/// How many shards a block holds at most.
pub const BLOCK_SHARDS: usize = 64;

/// How many blocks so many shards make.
fn blocks_of(shards: usize) -> usize
    ensures { result ≡ block_count shards }
{
    if shards % BLOCK_SHARDS == 0 {
        shards / BLOCK_SHARDS
    } else {
        shards / BLOCK_SHARDS + 1
    }
}

/// Where a block ends among so many shards.
fn block_end(shards: usize, block: usize) -> usize
    requires { 64 * block ≤ shards }
    ensures { result ≡ min (64 * block + 64) shards }
{
    let from = BLOCK_SHARDS * block;
    if shards - from > BLOCK_SHARDS {
        from + BLOCK_SHARDS
    } else {
        shards
    }
}

/// The lesser of two moments.
fn lesser(a: Moment, b: Moment) -> Moment
    ensures { result ≡ (if nat_lt a b then a else b) }
{
    if a < b { a } else { b }
}

/// The least of the shards' least dues, or the greatest number where there is no shard.
fn least_among(shards: &[Shard]) -> Moment
    ensures { result ≡ least_in shards.now }
{
    let mut least = Moment::MAX;
    let mut place = shards.len();
    'shards: while place > 0 {
        place -= 1;
        least = lesser(shards[place].least, least);
    }
    least
}

/// The least due of a block.
fn least_of_block(shards: &[Shard], block: usize) -> Moment
    requires { 64 * block ≤ length shards.now }
    ensures { result ≡ least_in (block_of block shards.now) }
{
    let from = BLOCK_SHARDS * block;
    least_among(&shards[from..block_end(shards.len(), block)])
}

/// Looks at the block of a changed shard anew.
pub fn refresh(leasts: &mut Vec<Moment>, shards: &[Shard], place: usize)
    requires within { place < length shards.now }
    requires count { length leasts.old.items ≡ block_count (length shards.now) }
    requires others { (block : ℕ) → block < length leasts.old.items → block ≢ place / 64 → slice_index leasts.old.items block ≡ least_in (block_of block shards.now) }
    ensures count { length leasts.new.items ≡ block_count (length shards.now) }
    ensures leasts { (block : ℕ) → block < length leasts.new.items → slice_index leasts.new.items block ≡ least_in (block_of block shards.now) }
{
    let block = place / BLOCK_SHARDS;
    leasts[block] = least_of_block(shards, block);
}

/// Looks at all blocks anew, where a shard came or went. A block more needs room.
pub fn refill(leasts: &mut Vec<Moment>, shards: &[Shard])
    requires near { block_count (length shards.now) ≤ length leasts.old.items + 1 }
    requires room { length leasts.old.items < block_count (length shards.now) → vec_len leasts.old < vec_capacity leasts.old }
    ensures count { length leasts.new.items ≡ block_count (length shards.now) }
    ensures leasts { (block : ℕ) → block < length leasts.new.items → slice_index leasts.new.items block ≡ least_in (block_of block shards.now) }
{
    let blocks = blocks_of(shards.len());
    if leasts.len() < blocks {
        let end = leasts.len();
        insert_ready(leasts, end, 0);
    }
    leasts.truncate(blocks);
    fill(leasts, shards);
}

/// The least due of each block in its place.
fn fill(leasts: &mut [Moment], shards: &[Shard])
    requires { length leasts.old ≡ block_count (length shards.now) }
    ensures { (block : ℕ) → block < length leasts.new → slice_index leasts.new block ≡ least_in (block_of block shards.now) }
{
    for block in 0..leasts.len() {
        leasts[block] = least_of_block(shards, block);
    }
}

/// The place of the first shard from this place on whose least due is at most the moment; the number of shards where there is none.
pub fn first_due(shards: &[Shard], leasts: &[Moment], moment: Moment, from: usize) -> usize
    requires from { from ≤ length shards.now }
    requires count { length leasts.now ≡ block_count (length shards.now) }
    requires leasts { (block : ℕ) → block < length leasts.now → slice_index leasts.now block ≡ least_in (block_of block shards.now) }
    ensures from { from ≤ result }
    ensures within { result ≤ length shards.now }
    ensures passed { (k : ℕ) → from ≤ k → k < result → moment < slice_index (dues_of shards.now) k }
    ensures found { result < length shards.now → slice_index (dues_of shards.now) result ≤ moment }
{
    let mut from = from;
    'ends: while from < shards.len() {
        let end = block_end(shards.len(), from / BLOCK_SHARDS);
        let place = first_in_block(shards, leasts, moment, from, end);
        if place < end {
            return place;
        }
        from = end;
    }
    shards.len()
}

/// The place of the first shard from this place to the end of its block whose least due is at most the moment; that end where there is none.
fn first_in_block(
    shards: &[Shard],
    leasts: &[Moment],
    moment: Moment,
    from: usize,
    end: usize,
) -> usize
    requires from { from < length shards.now }
    requires end { end ≡ min (64 * (from / 64) + 64) (length shards.now) }
    requires count { length leasts.now ≡ block_count (length shards.now) }
    requires leasts { (block : ℕ) → block < length leasts.now → slice_index leasts.now block ≡ least_in (block_of block shards.now) }
    ensures from { from ≤ result }
    ensures within { result ≤ end }
    ensures passed { (k : ℕ) → from ≤ k → k < result → moment < slice_index (dues_of shards.now) k }
    ensures found { result < end → slice_index (dues_of shards.now) result ≤ moment }
{
    if leasts[from / BLOCK_SHARDS] > moment {
        return end;
    }
    for place in from..end {
        if shards[place].least <= moment {
            return place;
        }
    }
    end
}
