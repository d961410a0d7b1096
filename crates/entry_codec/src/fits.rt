//! Each field of an entry holds a number that it may hold: what a spelling of it asks, said without one.
ghost use Rattle.std.specs.Prelude.{◌<◌, ◌≤◌, ◌^◌};
ghost use Rattle.entry_codec.specs.Field.{AreFields};
ghost use Rattle.entry_codec.specs.EntryHead.{what_fields, IsBounded, IsEntry};

use crate::limits::LAST_MOMENT;
use delf_model::{EdgeNo, Entry, ObjectId, Tag, What};

fn byte_fits(number: u8)
    ensures { number < 2 ^ 8 }
{}

fn word_fits(number: u32)
    ensures { number < 2 ^ 32 }
{}

fn id_fits(id: ObjectId)
    ensures above { 0 < id }
    ensures below { id ≤ 999999999999 }
{
    let _number = id.get();
}

fn tag_fits(tag: Tag)
    ensures seat { tag.seat < 2 ^ 32 }
    ensures k { tag.k < 2 ^ 32 }
{}

fn edge_fits(edge: EdgeNo, from: ObjectId, to: ObjectId)
    ensures edge { edge < 2 ^ 8 }
    ensures from_above { 0 < from }
    ensures from_below { from ≤ 999999999999 }
    ensures to_above { 0 < to }
    ensures to_below { to ≤ 999999999999 }
{
    byte_fits(edge.0);
    id_fits(from);
    id_fits(to);
}

fn what_fits(what: &What)
    requires { IsBounded what.now }
    ensures { AreFields (what_fields what.now) }
{
    match *what {
        What::Create { tag, id, .. } | What::Update { tag, id, .. } => {
            tag_fits(tag);
            id_fits(id);
        }
        What::Link {
            tag,
            edge,
            from,
            to,
            ..
        } => {
            tag_fits(tag);
            edge_fits(edge, from, to);
        }
        What::Unlink {
            tag,
            edge,
            from,
            to,
            name,
        } => {
            tag_fits(tag);
            edge_fits(edge, from, to);
            word_fits(name);
        }
        What::Delete { tag, id, name } => {
            tag_fits(tag);
            id_fits(id);
            word_fits(name);
        }
        What::Restore { tag, job } => {
            tag_fits(tag);
            word_fits(job.0);
        }
        What::Expire { id } => id_fits(id),
        What::Cut {
            job,
            edge,
            from,
            to,
        } => {
            word_fits(job.0);
            edge_fits(edge, from, to);
        }
        What::Erase { job, id } => {
            word_fits(job.0);
            id_fits(id);
        }
        What::Put { job, item } => {
            word_fits(job.0);
            word_fits(item);
        }
        What::Purge { job } => word_fits(job.0),
    }
}

/// An entry whose moment is at most the last, and whose sizes and numbers of types are within their bounds, has a
/// spelling. Nothing is spelled.
pub fn has_spelling(entry: &Entry)
    requires moment { entry.now.moment ≤ LAST_MOMENT }
    requires bounded { IsBounded entry.now.what }
    ensures { IsEntry entry.now }
{
    what_fits(&entry.what);
}
