//! Writes the head of an entry: its moment, its kind and its fields.
ghost use Rattle.std.specs.Prelude.{◌≡◌, ◌+◌, ◌<◌, ◌≤◌, ◌++◌, None, length, take};
ghost use Rattle.delf_model.specs.Step.{tag_of};
ghost use Rattle.entry_codec.specs.Field.{spelled, AreFields};
ghost use Rattle.entry_codec.specs.EntryHead.{entry_kind, what_fields, entry_head, named_size, IsBounded, IsEntry};

use crate::field_writer::{put_byte, put_ends, put_id, put_long, put_tag, put_word};
use crate::limits::LAST_MOMENT;
use delf_model::{Entry, What};

/// Puts the fields behind the kind, and answers the place after them.
fn put_what(out: &mut [u8], at: usize, what: &What) -> usize
    requires room { at + 29 ≤ length out.old }
    requires bounded { IsBounded what.now }
    ensures next { result ≡ at + length (spelled (what_fields what.now)) }
    ensures bytes { take result out.new ≡ take at out.old ++ spelled (what_fields what.now) }
    ensures fields { AreFields (what_fields what.now) }
{
    match *what {
        What::Create { tag, kind, id, .. } => {
            let at = put_tag(out, at, tag);
            let at = put_byte(out, at, kind.0);
            put_id(out, at, id)
        }
        What::Update { tag, id, .. } => {
            let at = put_tag(out, at, tag);
            put_id(out, at, id)
        }
        What::Link {
            tag,
            edge,
            from,
            to,
            ..
        } => {
            let at = put_tag(out, at, tag);
            let at = put_byte(out, at, edge.0);
            put_ends(out, at, from, to)
        }
        What::Unlink {
            tag,
            edge,
            from,
            to,
            name,
        } => {
            let at = put_tag(out, at, tag);
            let at = put_byte(out, at, edge.0);
            let at = put_ends(out, at, from, to);
            put_word(out, at, name)
        }
        What::Delete { tag, id, name } => {
            let at = put_tag(out, at, tag);
            let at = put_id(out, at, id);
            put_word(out, at, name)
        }
        What::Restore { tag, job } => {
            let at = put_tag(out, at, tag);
            put_word(out, at, job.0)
        }
        _ => put_step(out, at, what),
    }
}

/// The same of a step, which has no tag.
fn put_step(out: &mut [u8], at: usize, what: &What) -> usize
    requires room { at + 29 ≤ length out.old }
    requires step { tag_of what.now ≡ None }
    ensures next { result ≡ at + length (spelled (what_fields what.now)) }
    ensures bytes { take result out.new ≡ take at out.old ++ spelled (what_fields what.now) }
    ensures fields { AreFields (what_fields what.now) }
{
    match *what {
        What::Expire { id } => put_id(out, at, id),
        What::Cut {
            job,
            edge,
            from,
            to,
        } => {
            let at = put_word(out, at, job.0);
            let at = put_byte(out, at, edge.0);
            put_ends(out, at, from, to)
        }
        What::Erase { job, id } => {
            let at = put_word(out, at, job.0);
            put_id(out, at, id)
        }
        What::Put { job, item } => {
            let at = put_word(out, at, job.0);
            put_word(out, at, item)
        }
        What::Purge { job } => put_word(out, at, job.0),
        _ => unreachable!(),
    }
}

fn kind_of(what: &What) -> u8
    ensures { result ≡ entry_kind what.now }
{
    match what {
        What::Create { .. } => 1,
        What::Update { .. } => 2,
        What::Link { .. } => 3,
        What::Unlink { .. } => 4,
        What::Delete { .. } => 5,
        What::Restore { .. } => 6,
        What::Expire { .. } => 7,
        What::Cut { .. } => 8,
        What::Erase { .. } => 9,
        What::Put { .. } => 10,
        What::Purge { .. } => 11,
    }
}

/// Writes the head of the entry to the front of `out`, and answers its length in bytes, which is at most 38.
/// What stands behind it in `out` is left open.
pub fn write_entry(entry: &Entry, out: &mut [u8; 128]) -> u16
    requires moment { entry.now.moment ≤ LAST_MOMENT }
    requires bounded { IsBounded entry.now.what }
    ensures length { result ≡ length (entry_head entry.now) }
    ensures head { take result out.new ≡ entry_head entry.now }
    ensures within { result ≤ 38 }
    // So the head is read again as this entry.
    ensures entry { IsEntry entry.now }
{
    let at = put_long(out, 0, entry.moment);
    let at = put_byte(out, at, kind_of(&entry.what));
    put_what(out, at, &entry.what) as u16
}
