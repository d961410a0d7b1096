//! Each reader below takes the bytes behind the kind of an entry.

ghost use Rattle.std.specs.Prelude.{◌≡◌, ◌≢◌, ◌<◌, ◌≤◌, ℕ, List, Some, IfSome, IfNone};
ghost use Rattle.delf_model.specs.declared.entry.Entry.{Entry};
ghost use Rattle.delf_model.specs.declared.entry.What.{What};
ghost use Rattle.entry_codec.specs.EntryHead.{IsEntryHead};
ghost use Rattle.entry_codec.specs.Reading.{ReadsWhat, IsWhatRead, IsEntryRead};

use crate::field_reader::{byte_at, edge_at, id_at, moment_at, type_at, word_at};
use crate::limits::LARGEST_PAYLOAD;
use delf_model::{EdgeNo, Entry, Job, Tag, TypeNo, What};

#[tactic(auto, unfolding(crate::specs::Reading::fields_at))]
fn create(rest: &[u8], size: u16) -> Option<What>
    ensures { ReadsWhat 1 rest.now size result }
{
    let (seat, rest) = word_at(rest)?;
    let (k, rest) = word_at(rest)?;
    let (kind, rest) = type_at(rest)?;
    let Some((id, rest)) = id_at(rest) else {
        return None;
    };
    if !rest.is_empty() {
        return None;
    }
    Some(What::Create {
        tag: Tag { seat, k },
        kind: TypeNo(kind),
        id,
        size,
    })
}

#[tactic(auto, unfolding(crate::specs::Reading::fields_at))]
fn update(rest: &[u8], size: u16) -> Option<What>
    ensures { ReadsWhat 2 rest.now size result }
{
    let (seat, rest) = word_at(rest)?;
    let (k, rest) = word_at(rest)?;
    let Some((id, rest)) = id_at(rest) else {
        return None;
    };
    if !rest.is_empty() {
        return None;
    }
    Some(What::Update {
        tag: Tag { seat, k },
        id,
        size,
    })
}

#[tactic(auto, unfolding(crate::specs::Reading::fields_at))]
fn link(rest: &[u8], size: u16) -> Option<What>
    ensures { ReadsWhat 3 rest.now size result }
{
    let (seat, rest) = word_at(rest)?;
    let (k, rest) = word_at(rest)?;
    let (edge, rest) = edge_at(rest)?;
    let Some((from, rest)) = id_at(rest) else {
        return None;
    };
    let Some((to, rest)) = id_at(rest) else {
        return None;
    };
    if !rest.is_empty() {
        return None;
    }
    Some(What::Link {
        tag: Tag { seat, k },
        edge: EdgeNo(edge),
        from,
        to,
        size,
    })
}

#[tactic(auto, unfolding(crate::specs::Reading::fields_at))]
fn unlink(rest: &[u8]) -> Option<What>
    ensures { ReadsWhat 4 rest.now 0 result }
{
    let (seat, rest) = word_at(rest)?;
    let (k, rest) = word_at(rest)?;
    let (edge, rest) = edge_at(rest)?;
    let Some((from, rest)) = id_at(rest) else {
        return None;
    };
    let Some((to, rest)) = id_at(rest) else {
        return None;
    };
    let (name, rest) = word_at(rest)?;
    if !rest.is_empty() {
        return None;
    }
    Some(What::Unlink {
        tag: Tag { seat, k },
        edge: EdgeNo(edge),
        from,
        to,
        name,
    })
}

#[tactic(auto, unfolding(crate::specs::Reading::fields_at))]
fn delete(rest: &[u8]) -> Option<What>
    ensures { ReadsWhat 5 rest.now 0 result }
{
    let (seat, rest) = word_at(rest)?;
    let (k, rest) = word_at(rest)?;
    let Some((id, rest)) = id_at(rest) else {
        return None;
    };
    let (name, rest) = word_at(rest)?;
    if !rest.is_empty() {
        return None;
    }
    Some(What::Delete {
        tag: Tag { seat, k },
        id,
        name,
    })
}

#[tactic(auto, unfolding(crate::specs::Reading::fields_at))]
fn restore(rest: &[u8]) -> Option<What>
    ensures { ReadsWhat 6 rest.now 0 result }
{
    let (seat, rest) = word_at(rest)?;
    let (k, rest) = word_at(rest)?;
    let (job, rest) = word_at(rest)?;
    if !rest.is_empty() {
        return None;
    }
    Some(What::Restore {
        tag: Tag { seat, k },
        job: Job(job),
    })
}

#[tactic(auto, unfolding(crate::specs::Reading::fields_at))]
fn expire(rest: &[u8]) -> Option<What>
    ensures { ReadsWhat 7 rest.now 0 result }
{
    let Some((id, rest)) = id_at(rest) else {
        return None;
    };
    if !rest.is_empty() {
        return None;
    }
    Some(What::Expire { id })
}

#[tactic(auto, unfolding(crate::specs::Reading::fields_at))]
fn cut(rest: &[u8]) -> Option<What>
    ensures { ReadsWhat 8 rest.now 0 result }
{
    let (job, rest) = word_at(rest)?;
    let (edge, rest) = edge_at(rest)?;
    let Some((from, rest)) = id_at(rest) else {
        return None;
    };
    let Some((to, rest)) = id_at(rest) else {
        return None;
    };
    if !rest.is_empty() {
        return None;
    }
    Some(What::Cut {
        job: Job(job),
        edge: EdgeNo(edge),
        from,
        to,
    })
}

#[tactic(auto, unfolding(crate::specs::Reading::fields_at))]
fn erase(rest: &[u8]) -> Option<What>
    ensures { ReadsWhat 9 rest.now 0 result }
{
    let (job, rest) = word_at(rest)?;
    let Some((id, rest)) = id_at(rest) else {
        return None;
    };
    if !rest.is_empty() {
        return None;
    }
    Some(What::Erase { job: Job(job), id })
}

#[tactic(auto, unfolding(crate::specs::Reading::fields_at))]
fn put(rest: &[u8], size: u16) -> Option<What>
    requires { size ≤ LARGEST_PAYLOAD }
    ensures { ReadsWhat 10 rest.now size result }
{
    let (job, rest) = word_at(rest)?;
    let (item, rest) = word_at(rest)?;
    if !rest.is_empty() {
        return None;
    }
    Some(What::Put {
        job: Job(job),
        item,
    })
}

#[tactic(auto, unfolding(crate::specs::Reading::fields_at))]
fn purge(rest: &[u8]) -> Option<What>
    ensures { ReadsWhat 11 rest.now 0 result }
{
    let (job, rest) = word_at(rest)?;
    if !rest.is_empty() {
        return None;
    }
    Some(What::Purge { job: Job(job) })
}

/// Those kinds that have no payload.
fn bare_what(kind: u8, rest: &[u8], size: u16) -> Option<What>
    requires above { 3 < kind }
    requires not_put { kind ≢ 10 }
    ensures { IsWhatRead kind rest.now size result }
{
    if size > 0 {
        return None;
    }
    match kind {
        4 => unlink(rest),
        5 => delete(rest),
        6 => restore(rest),
        7 => expire(rest),
        8 => cut(rest),
        9 => erase(rest),
        11 => purge(rest),
        _ => None,
    }
}

/// What an entry of this kind notes, by the bytes behind its kind and the size of its payload.
fn what_at(kind: u8, rest: &[u8], size: u16) -> Option<What>
    requires { size ≤ LARGEST_PAYLOAD }
    ensures { IsWhatRead kind rest.now size result }
{
    match kind {
        0 => None,
        1 => create(rest, size),
        2 => update(rest, size),
        3 => link(rest, size),
        10 => put(rest, size),
        _ => bare_what(kind, rest, size),
    }
}

fn entry_at(head: &[u8], size: u64) -> Option<Entry>
    ensures { IsEntryRead head.now size result }
{
    if size > u64::from(LARGEST_PAYLOAD) {
        return None;
    }
    let (moment, rest) = moment_at(head)?;
    let (kind, rest) = byte_at(rest)?;
    let what = what_at(kind, rest, size as u16)?;
    Some(Entry { moment, what })
}

/// The entry that has this head, with a payload of this size. None where no entry has it: the head is not of
/// the length of its kind, the moment is above 999,999,999,999, an id is not 1 to 999,999,999,999, the number
/// of an object type is not below 64, or the payload has more than 512 bytes or stands where the kind has none.
pub fn read_entry(head: &[u8], size: u64) -> Option<Entry>
    ensures found { IfSome result (λ entry. IsEntryHead entry head.now size) }
    ensures only { (entry : Entry) → IsEntryHead entry head.now size → result ≡ Some entry }
    ensures none { IfNone result ((entry : Entry) → IsEntryHead entry head.now size → ⊥) }
{
    entry_at(head, size)
}
