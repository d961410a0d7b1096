//! How evenly ids fall into the buckets of a table, which takes the low bits of both halves of a hash.
use crate::IdHash;
use std::alloc::Global;
use std::hash::BuildHasher;
use std::test::Fail;

const BUCKETS: usize = 4096;

const MOST_ID: u64 = 999_999_999_999;

// the bucket of this id
fn bucket(id: u64) -> usize {
    let hash = IdHash::new().hash_one(id);
    ((hash ^ (hash >> 32)) & 4095) as usize
}

// how many of the first 20,000 multiples of a number that are ids the fullest bucket has
fn fullest(alloc: Global, step: u64) -> Result<u32, Fail> {
    let mut counts: Vec<u32> = Vec::new(alloc);
    counts.resize(BUCKETS, 0)?;
    for n in 1..20_001u64 {
        let id = n.wrapping_mul(step);
        if id <= MOST_ID
            && let Some(count) = counts.get_mut(bucket(id))
        {
            *count = count.wrapping_add(1);
        }
    }
    Ok(counts.iter().copied().max().unwrap_or(0))
}

#[test]
fn ids_that_share_their_low_bits_fall_apart(rt: HostRuntime) -> Result<(), Fail> {
    for step in [1, 16, 1024, 1 << 20, 1 << 32] {
        assert!(rt; fullest(rt.alloc(), step)? < 24);
    }
    Ok(())
}
