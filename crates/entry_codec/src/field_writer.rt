//! Each writer puts a field from `at` on and answers the place after it.

ghost use Rattle.std.specs.Prelude.{◌≡◌, ◌+◌, ◌<◌, ◌≤◌, ◌^◌, ◌++◌, [], ◌∷◌, length, take};
ghost use Rattle.std.specs.Int.{w8, w32, w64, to_be_bytes};
ghost use Rattle.entry_codec.specs.Field.{word, object_id, spelled};

use byteorder::{BigEndian, ByteOrder};
use delf_model::{ObjectId, Tag};

pub fn put_byte(out: &mut [u8], at: usize, number: u8) -> usize
    requires { at + 1 ≤ length out.old }
    ensures next { result ≡ at + 1 }
    ensures bytes { take result out.new ≡ take at out.old ++ to_be_bytes w8 number }
    ensures fits { number < 2 ^ 8 }
{
    out[at] = number;
    at + 1
}

pub fn put_word(out: &mut [u8], at: usize, number: u32) -> usize
    requires { at + 4 ≤ length out.old }
    ensures next { result ≡ at + 4 }
    ensures bytes { take result out.new ≡ take at out.old ++ to_be_bytes w32 number }
    ensures fits { number < 2 ^ 32 }
{
    BigEndian::write_u32(&mut out[at..], number);
    at + 4
}

pub fn put_long(out: &mut [u8], at: usize, number: u64) -> usize
    requires { at + 8 ≤ length out.old }
    ensures next { result ≡ at + 8 }
    ensures bytes { take result out.new ≡ take at out.old ++ to_be_bytes w64 number }
    ensures fits { number < 2 ^ 64 }
{
    BigEndian::write_u64(&mut out[at..], number);
    at + 8
}

pub fn put_id(out: &mut [u8], at: usize, id: ObjectId) -> usize
    requires { at + 8 ≤ length out.old }
    ensures next { result ≡ at + 8 }
    ensures bytes { take result out.new ≡ take at out.old ++ to_be_bytes w64 id }
    ensures above { 0 < id }
    ensures below { id ≤ 999999999999 }
{
    put_long(out, at, id.get())
}

pub fn put_tag(out: &mut [u8], at: usize, tag: Tag) -> usize
    requires { at + 8 ≤ length out.old }
    ensures next { result ≡ at + 8 }
    ensures bytes { take result out.new ≡ take at out.old ++ spelled (word tag.seat ∷ word tag.k ∷ []) }
    ensures seat { tag.seat < 2 ^ 32 }
    ensures k { tag.k < 2 ^ 32 }
{
    let at = put_word(out, at, tag.seat);
    put_word(out, at, tag.k)
}

/// The two ends of an edge.
pub fn put_ends(out: &mut [u8], at: usize, from: ObjectId, to: ObjectId) -> usize
    requires { at + 16 ≤ length out.old }
    ensures next { result ≡ at + 16 }
    ensures bytes { take result out.new ≡ take at out.old ++ spelled (object_id from ∷ object_id to ∷ []) }
    ensures from_above { 0 < from }
    ensures from_below { from ≤ 999999999999 }
    ensures to_above { 0 < to }
    ensures to_below { to ≤ 999999999999 }
{
    let at = put_id(out, at, from);
    put_id(out, at, to)
}
