//! Writes the head of an item: its kind, its fields and the digest of its payload.
ghost use Rattle.std.specs.Prelude.{◌≡◌, ◌+◌, ◌≤◌, ◌++◌, length, take};
ghost use Rattle.entry_codec.specs.Field.{spelled, AreFields};
ghost use Rattle.entry_codec.specs.ItemHead.{item_kind, row_fields, item_head, item_size, IsTypeBounded, IsItem};

use crate::field_writer::{put_byte, put_ends, put_id, put_long, put_word};
use crate::limits::LARGEST_PAYLOAD;
use delf_model::Item;

/// Puts the fields between the kind and the digest, and answers the place after them.
fn put_row(out: &mut [u8], at: usize, item: &Item) -> usize
    requires room { at + 33 ≤ length out.old }
    requires types { IsTypeBounded item.now }
    ensures next { result ≡ at + length (spelled (row_fields item.now)) }
    ensures bytes { take result out.new ≡ take at out.old ++ spelled (row_fields item.now) }
    ensures fields { AreFields (row_fields item.now) }
{
    match item {
        Item::Object { job, row } => {
            let at = put_word(out, at, job.0);
            let at = put_id(out, at, row.id);
            let at = put_byte(out, at, row.kind.0);
            let at = put_word(out, at, row.birth);
            let at = put_long(out, at, row.due);
            put_word(out, at, row.at)
        }
        Item::Edge {
            job,
            row,
            from_birth,
            to_birth,
        } => {
            let at = put_word(out, at, job.0);
            let at = put_byte(out, at, row.key.edge.0);
            let at = put_ends(out, at, row.key.from, row.key.to);
            let at = put_word(out, at, row.birth);
            let at = put_word(out, at, *from_birth);
            put_word(out, at, *to_birth)
        }
    }
}

fn put_digest(out: &mut [u8], at: usize, digest: &[u8; 32]) -> usize
    requires { at + 32 ≤ length out.old }
    ensures next { result ≡ at + 32 }
    ensures bytes { take result out.new ≡ take at out.old ++ digest.now }
{
    out[at..at + 32].copy_from_slice(digest);
    at + 32
}

fn kind_of(item: &Item) -> u8
    ensures { result ≡ item_kind item.now }
{
    match item {
        Item::Object { .. } => 1,
        Item::Edge { .. } => 2,
    }
}

/// Writes the head of the item to the front of `out`, with the SHA-256 of its payload, and answers its length
/// in bytes, which is at most 66. What stands behind it in `out` is left open.
pub fn write_item(item: &Item, digest: &[u8; 32], out: &mut [u8; 128]) -> u16
    requires types { IsTypeBounded item.now }
    requires size { item_size item.now ≤ LARGEST_PAYLOAD }
    ensures length { result ≡ length (item_head item.now digest.now) }
    ensures head { take result out.new ≡ item_head item.now digest.now }
    ensures within { result ≤ 66 }
    // So the head is read again as this item.
    ensures item { IsItem item.now }
    ensures digest { length digest.now ≡ 32 }
{
    let at = put_byte(out, 0, kind_of(item));
    let at = put_row(out, at, item);
    put_digest(out, at, digest) as u16
}
