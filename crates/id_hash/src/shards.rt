//! In which of sixteen shards an id has its place.
ghost use Rattle.std.specs.Prelude.{◌≡◌, ◌%◌};

/// How many shards there are.
pub const SHARDS: usize = 16;

/// The number of the shard of this id: the id modulo 16.
pub fn shard_of(id: u64) -> usize
    ensures { result ≡ id % 16 }
{
    (id % 16) as usize
}
