//! The history on a disk, read back entry by entry.
ghost use Rattle.std.specs.Prelude.{◌≡◌, ◌<◌, length};
ghost use Rattle.delf_disk.specs.Plain.{Plain, SameKind};
ghost use Rattle.gate_log.specs.Logs.{StandIn};

use crate::stores::{NOW, blank_fold};
use delf_book::Fold;
use delf_disk::{Area, Disk};
use delf_model::{Call, Entry, HEAD_LIMIT, Lane, LaneCommand, Tag, What};
use delf_service::{LaneOut, LaneReply};
use entry_codec::read_entry;
use gate_log::GateLog;
use live_graph::ShardGraph;
use std::alloc::Global;
use std::test::Fail;

// The entry of record `i`, where it is legal behind those of the fold, which then has it. `Fold::take` is proved to take exactly
// the entries that the definition of a legal history allows there.
fn take_record<D: Disk>(
    fold: &mut Fold<ShardGraph>,
    log: &GateLog,
    disk: &mut D,
    i: u32,
) -> Result<Option<Entry>, Fail>
    requires inside { i < length log.now.sizes }
    requires stands { Plain (D.told disk.old) (D.honest disk.old) → StandIn log.now.area log.now.sizes (D.may_leave disk.old) }
    ensures stands { Plain (D.told disk.old) (D.honest disk.old) → StandIn log.now.area log.now.sizes (D.may_leave disk.new) }
    ensures kind { SameKind D.told D.honest D.order D.orders disk.old disk.new }
{
    let (head, payload) = log.sizes(i);
    if head as usize > HEAD_LIMIT {
        return Ok(None);
    }
    let mut buf = [0; HEAD_LIMIT];
    let len = log.read_head(disk, i, &mut buf)?;
    let Some(entry) = read_entry(&buf[..len as usize], u64::from(payload)) else {
        return Ok(None);
    };
    let Ok(size) = u16::try_from(payload) else {
        return Ok(None);
    };
    if fold.take(&entry, size)? {
        Ok(Some(entry))
    } else {
        Ok(None)
    }
}

// The entries of the log, up to the first one that is not legal behind those before it, and whether there is no such one.
fn read_entries<D: Disk>(
    alloc: Global,
    log: &GateLog,
    disk: &mut D,
) -> Result<(Vec<Entry>, bool), Fail>
    requires { Plain (D.told disk.old) (D.honest disk.old) → StandIn log.now.area log.now.sizes (D.may_leave disk.old) }
{
    let mut fold = blank_fold(alloc)?;
    let mut entries: Vec<Entry> = Vec::new(alloc);
    for i in 0..log.count() {
        match take_record(&mut fold, log, disk, i)? {
            Some(entry) => entries.push(entry)?,
            None => return Ok((entries, false)),
        }
    }
    Ok((entries, true))
}

/// The entries of the journal on this disk, up to the first one that is not legal behind those before it, and whether there is no
/// such one.
pub(crate) fn read_history<D: Disk>(
    alloc: Global,
    disk: &mut D,
) -> Result<(Vec<Entry>, bool), Fail> {
    disk.sync()?;
    let log = GateLog::start(alloc, disk, Area::Journal, *b"DELFJRN1")?;
    read_entries(alloc, &log, disk)
}

// The number of the seat that made the entry; none of a step.
fn tag_of(what: &What) -> Option<Tag> {
    match what {
        What::Create { tag, .. } => Some(*tag),
        What::Update { tag, .. } => Some(*tag),
        What::Link { tag, .. } => Some(*tag),
        What::Unlink { tag, .. } => Some(*tag),
        What::Delete { tag, .. } => Some(*tag),
        What::Restore { tag, .. } => Some(*tag),
        _ => None,
    }
}

// Whether this is what the accepted call enters, but for its tag.
fn is_of(what: &What, call: &Call) -> bool {
    match (what, call) {
        (
            What::Create { kind, id, size, .. },
            Call::Create {
                kind: k,
                id: i,
                payload,
            },
        ) => { kind == k && id == i && *size as usize == payload.len() }
        (What::Update { id, size, .. }, Call::Update { id: i, payload }) => {
            id == i && *size as usize == payload.len()
        }
        (
            What::Link { edge, from, to, .. },
            Call::Link {
                edge: e,
                from: f,
                to: t,
                ..
            },
        ) => { edge == e && from == f && to == t }
        (What::Delete { id, name, .. }, Call::Delete { id: i, name: n }) => id == i && name == n,
        _ => false,
    }
}

// Whether the entry of an accepted call stands at its position, as the next one of its seat.
fn stands(entries: &[Entry], call: &Call, position: u32, tag: Tag) -> bool {
    match entries.get(position as usize) {
        Some(entry) => is_of(&entry.what, call) && tag_of(&entry.what) == Some(tag),
        None => false,
    }
}

// How many calls of a lane were accepted, where each of them stands in the history; None where one does not.
fn count_standing(
    entries: &[Entry],
    seat: u32,
    commands: &[LaneCommand],
    replies: &[LaneReply],
) -> Option<u32> {
    let mut k = 0u32;
    for (command, reply) in commands.iter().zip(replies) {
        if let (LaneCommand::Submit(call), LaneReply::Submitted(answer)) = (command, reply) {
            if let Ok(receipt) = &answer.reply {
                let tag = Tag { seat, k };
                if !stands(entries, call, receipt.position, tag) {
                    return None;
                }
                k = k.saturating_add(1);
            }
        }
    }
    Some(k)
}

/// How many entries are those of seats; None where one has not the moment of the clock.
pub(crate) fn count_tagged(entries: &[Entry]) -> Option<u32> {
    let mut tagged = 0u32;
    for entry in entries {
        if entry.moment != NOW {
            return None;
        }
        if tag_of(&entry.what).is_some() {
            tagged = tagged.saturating_add(1);
        }
    }
    Some(tagged)
}

/// Whether the entries behind the first ones are those of a block whose root had this number: each accepted call of each lane
/// stands at its position, with the number of its lane's seat and in the lane's order, and the others are steps.
pub(crate) fn are_those_of(
    entries: &[Entry],
    from: u32,
    root: u32,
    lanes: &[Lane],
    outs: &[LaneOut],
) -> bool {
    let mut accepted = 0u32;
    let mut seat = root;
    for (lane, out) in lanes.iter().zip(outs) {
        seat = seat.saturating_add(1);
        match count_standing(
            entries,
            seat,
            lane.commands.as_slice(),
            out.replies.as_slice(),
        ) {
            Some(count) => accepted = accepted.saturating_add(count),
            None => return false,
        }
    }
    match entries.get(from as usize..) {
        Some(added) => outs.len() == lanes.len() && count_tagged(added) == Some(accepted),
        None => false,
    }
}
