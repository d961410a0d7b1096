//! Sixteen lanes and sixteen workers over a disk that holds.

use crate::accounts::{adds_up, is_accepted, is_got, stand};
use crate::blocks::run_block;
use crate::histories::{are_those_of, read_history};
use crate::orders::{Order, add_lane};
use crate::stores::{ALBUM, HOLDS, OWNS, PHOTO, USER, blank, store_on};
use delf_book::Book;
use delf_disk::Rig;
use delf_model::{Lane, List};
use delf_service::{LaneOut, LaneReply, OpenGate};
use live_graph::ShardGraph;
use std::alloc::Global;
use std::sync::Wait;
use std::test::Fail;
use std::thread::Threads;

// The lane makes a user and a photo of its own, and links both; it tries for the album that all share, holds its photo by
// it, updates its user and reads it, deletes it, and tries to delete the album.
fn orders(n: u32) -> [Order; 10] {
    let own = 1000 + 10 * (n as u64 % 1000);
    [
        Order::Create(USER, own),
        Order::Create(PHOTO, own + 1),
        Order::Link(OWNS, own, own + 1),
        Order::Create(ALBUM, 7),
        Order::Link(HOLDS, 7, own + 1),
        Order::Update(own),
        Order::Get(own),
        Order::Delete(own, n % 1000 + 1),
        Order::Delete(7, n % 1000 + 1001),
        Order::Get(7),
    ]
}

/// Adds so many lanes from this number on, each of which works on objects of its own and on one that all share.
pub(crate) fn add_lanes(
    alloc: Global,
    lanes: &mut List<Lane>,
    first: u32,
    count: u32,
) -> Result<(), Fail> {
    for n in 0..count {
        add_lane(alloc, lanes, &orders(first.saturating_add(n)))?;
    }
    Ok(())
}

// Whether a lane was answered to its end, its own calls were all accepted, and it read what it wrote.
fn was_answered(replies: &[LaneReply]) -> bool {
    match replies {
        [user, photo, owns, _, _, updated, got, deleted, _, _] => {
            is_accepted(user)
                && is_accepted(photo)
                && is_accepted(owns)
                && is_accepted(updated)
                && is_got(got, b"second")
                && is_accepted(deleted)
        }
        _ => false,
    }
}

fn each_was_answered(outs: &[LaneOut]) -> bool {
    for out in outs {
        if !was_answered(out.replies.as_slice()) {
            return false;
        }
    }
    true
}

/// Whether so many lanes were told of as they should be, and all that they were told stands in the store.
pub(crate) fn is_as_told<R: Rig>(
    book: &Book<ShardGraph, R>,
    lanes: &[Lane],
    outs: &[LaneOut],
) -> bool {
    outs.len() == lanes.len()
        && !book.is_down()
        && each_was_answered(outs)
        && adds_up(book, outs)
        && stand(book, lanes, outs)
}

/// Whether the store on this disk has so many entries, each legal behind those before it, and all that the lanes were told.
pub(crate) fn holds<R: Rig + Drop>(
    alloc: Global,
    mut disk: R,
    len: u32,
    lanes: &[Lane],
    outs: &[LaneOut],
) -> Result<bool, Fail> {
    let (entries, legal) = read_history(alloc, &mut disk)?;
    let listed = legal
        && entries.len() == len as usize
        && are_those_of(&entries, 0, 1, lanes, outs);
    let book = store_on(alloc, disk)?;
    let told = book.len() == len && is_as_told(&book, lanes, outs);
    drop(book.into_disk());
    Ok(listed && told)
}

// Whether lanes and workers leave what they told, and a new opening of their disk finds it.
fn leaves_as_told<W: Threads + Wait + Sync, R: Rig + Send + Drop>(
    rt: &W,
    alloc: Global,
    book: Book<ShardGraph, R>,
    lanes: &[Lane],
) -> Result<bool, Fail> {
    let (book, outs) = run_block(rt, alloc, book, lanes, 16, 1000, &OpenGate);
    let len = book.len();
    let told = is_as_told(&book, lanes, outs.as_slice());
    let held = holds(alloc, book.into_disk(), len, lanes, outs.as_slice())?;
    Ok(told && held)
}

#[test]
fn lanes_and_workers_leave_what_they_told(rt: HostRuntime) -> Result<(), Fail> {
    let alloc = rt.alloc();
    let mut lanes = List::new(alloc);
    add_lanes(alloc, &mut lanes, 0, 16)?;
    let book = store_on(alloc, blank(alloc, &[])?)?;
    let told = leaves_as_told(&rt, alloc, book, lanes.as_slice())?;
    assert!(rt; told);
    Ok(())
}
