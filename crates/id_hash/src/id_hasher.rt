//! The hasher: one multiplication for each number.
ghost use Rattle.std.specs.Prelude.{◌≡◌, ◌*◌};
ghost use Rattle.id_hash.specs.Written.{joined, mixed as mixed_with, started, written};

use std::hash::{BuildHasherDefault, Hasher};

/// Makes the hasher of each key.
pub type IdHash = BuildHasherDefault<IdHasher>;

/// A hasher that takes one multiplication for a number of 64 bits. It is not cryptographic and has no seed: whoever picks the
/// keys can make them collide, as with the hasher that maps have by default.
#[derive(Clone, Copy)]
pub struct IdHasher {
    state: u64,
}

impl Default for IdHasher {
    ghost is_default = { λ hasher. hasher ≡ started };

    fn default() -> IdHasher {
        IdHasher {
            state: 0x243f_6a88_85a3_08d3,
        }
    }
}

// Both halves of a product, so that each bit depends on high and low bits of the numbers.
fn joined_product(a: u64, b: u64) -> u64
    ensures { result ≡ joined (a * b) }
{
    let product = a as u128 * b as u128;
    (product & 0xFFFF_FFFF_FFFF_FFFF) as u64 ^ (product >> 64) as u64
}

// The state once this number is hashed too.
fn mixed(state: u64, number: u64) -> u64
    ensures { result ≡ mixed_with state number }
{
    joined_product(state ^ number, 0x9e37_79b9_7f4a_7c15)
}

impl Hasher for IdHasher {
    ghost write = { written };

    ghost finish = { λ hasher. hasher.state };

    fn finish(&self) -> u64 {
        self.state
    }

    fn write(&mut self, bytes: &[u8]) {
        if bytes.len() == 8 {
            let number = u64::from_le_bytes([
                bytes[0], bytes[1], bytes[2], bytes[3], bytes[4], bytes[5], bytes[6], bytes[7],
            ]);
            self.state = mixed(self.state, number);
            return;
        }
        for byte in bytes {
            self.state = mixed(self.state, *byte as u64);
        }
    }

    fn write_u8(&mut self, i: u8) {
        self.state = mixed(self.state, i as u64);
    }

    fn write_u64(&mut self, i: u64) {
        self.state = mixed(self.state, i);
    }
}
