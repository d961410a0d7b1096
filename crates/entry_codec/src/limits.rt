//! What a head may hold.

/// The greatest moment of an entry, in seconds.
pub const LAST_MOMENT: u64 = 999_999_999_999;

/// The greatest id of an object; the least is 1.
pub const LAST_ID: u64 = 999_999_999_999;

/// How many numbers of object types there are: 0 to 63. Those of edge types fill their byte.
pub const TYPE_COUNT: u8 = 64;

/// The greatest size of a payload, in bytes.
pub const LARGEST_PAYLOAD: u16 = 512;
