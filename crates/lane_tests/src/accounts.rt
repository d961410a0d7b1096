//! Whether what lanes were told stands in a store.

use delf_book::{Book, Receipt};
use delf_disk::Rig;
use delf_model::{Call, Job, JobName, Lane, LaneCommand, ObjectId, Status};
use delf_service::{LaneOut, LaneReply};
use live_graph::ShardGraph;

fn accepted_by(replies: &[LaneReply]) -> u32 {
    let mut count = 0u32;
    for reply in replies {
        if is_accepted(reply) {
            count = count.saturating_add(1);
        }
    }
    count
}

/// How many calls were accepted.
pub(crate) fn accepted(outs: &[LaneOut]) -> u32 {
    let mut count = 0u32;
    for out in outs {
        count = count.saturating_add(accepted_by(out.replies.as_slice()));
    }
    count
}

/// Whether a call was accepted.
pub(crate) fn is_accepted(reply: &LaneReply) -> bool {
    match reply {
        LaneReply::Submitted(answer) => answer.reply.is_ok(),
        LaneReply::Got { .. } => false,
    }
}

/// Whether an object was found with this payload.
pub(crate) fn is_got(reply: &LaneReply, bytes: &[u8]) -> bool {
    match reply {
        LaneReply::Submitted(_) => false,
        LaneReply::Got { asked, payload } => {
            asked.found.is_some() && asked.fault.is_none() && payload.as_slice() == bytes
        }
    }
}

// How many entries of the store are steps: what its jobs erased and cut.
fn steps<R: Rig>(book: &Book<ShardGraph, R>) -> u32 {
    let mut count = 0u32;
    for i in 0..book.len() {
        if let Some(line) = book.job_at(i) {
            count = count.saturating_add(line.erased).saturating_add(line.cut);
        }
    }
    count
}

/// Whether the history has the accepted calls and the steps, and nothing else.
pub(crate) fn adds_up<R: Rig>(book: &Book<ShardGraph, R>, outs: &[LaneOut]) -> bool {
    book.len() == accepted(outs).saturating_add(steps(book))
}

/// Whether each accepted call of the lanes stands in the store, where no step is left and no object was made twice.
pub(crate) fn stand<R: Rig>(book: &Book<ShardGraph, R>, lanes: &[Lane], outs: &[LaneOut]) -> bool {
    for (lane, out) in lanes.iter().zip(outs) {
        if !lane_stands(book, lane.commands.as_slice(), out.replies.as_slice()) {
            return false;
        }
    }
    true
}

fn lane_stands<R: Rig>(
    book: &Book<ShardGraph, R>,
    commands: &[LaneCommand],
    replies: &[LaneReply],
) -> bool {
    for (command, reply) in commands.iter().zip(replies) {
        if !stands(book, command, reply) {
            return false;
        }
    }
    true
}

fn stands<R: Rig>(book: &Book<ShardGraph, R>, command: &LaneCommand, reply: &LaneReply) -> bool {
    match (command, reply) {
        (LaneCommand::Submit(call), LaneReply::Submitted(answer)) => match &answer.reply {
            Ok(receipt) => call_stands(book, call, receipt),
            Err(_) => true,
        },
        _ => true,
    }
}

// An object that was made stands with its birth or was erased.
fn object_stands<R: Rig>(book: &Book<ShardGraph, R>, id: ObjectId, birth: u32) -> bool {
    match book.get(id) {
        Some((row, owner)) => row.birth >= birth && owner.is_none(),
        None => true,
    }
}

// A job that was started is done.
fn job_stands<R: Rig>(book: &Book<ShardGraph, R>, named: u32, receipt: &Receipt) -> bool {
    let found = book.find(JobName::Named(named));
    let status = book.status(JobName::Named(named));
    found == receipt.started
        && receipt.started == Some(Job(receipt.position))
        && matches!(status, Status::Done { .. })
}

fn call_stands<R: Rig>(book: &Book<ShardGraph, R>, call: &Call, receipt: &Receipt) -> bool {
    match call {
        Call::Create { id, .. } => object_stands(book, *id, receipt.position),
        Call::Delete { name, .. } => job_stands(book, *name, receipt),
        _ => receipt.position < book.len(),
    }
}
