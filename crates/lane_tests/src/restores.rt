//! That a lane restores what another block deleted.

use crate::blocks::run_block;
use crate::orders::{Order, add_lane, id};
use crate::stores::{OWNS, PHOTO, USER, blank, store_on};
use delf_book::Book;
use delf_disk::Rig;
use delf_model::{JobName, LIMIT, Lane, List, ObjectId, Status};
use delf_service::OpenGate;
use live_graph::ShardGraph;
use std::alloc::Global;
use std::sync::Wait;
use std::test::Fail;
use std::thread::Threads;

// Whether the job with the name 40 has this status.
fn has_status<R: Rig>(book: &Book<ShardGraph, R>, wanted: Status) -> bool {
    let name: JobName = JobName::Named(40);
    book.status(name) == wanted
}

// Whether the object has this payload.
fn reads<R: Rig>(book: &mut Book<ShardGraph, R>, id: ObjectId, wanted: &[u8]) -> bool {
    let Some(_row) = book.get(id) else {
        return false;
    };
    let mut bytes = [0; LIMIT];
    match book.read_object(id, &mut bytes) {
        Ok(size) => size as usize == wanted.len() && bytes.starts_with(wanted),
        Err(_) => false,
    }
}

// Whether the job put back all three items, and the user has its payload.
fn is_back<R: Rig>(book: &mut Book<ShardGraph, R>, user: ObjectId) -> bool {
    has_status(book, Status::Restored { put: 3, listed: 0 }) && reads(book, user, b"second")
}

// The store behind a block of these lanes and two workers.
fn run<W: Threads + Wait + Sync, R: Rig + Send>(
    rt: &W,
    alloc: Global,
    book: Book<ShardGraph, R>,
    lanes: &[Lane],
) -> Book<ShardGraph, R> {
    let (book, _outs) = run_block(rt, alloc, book, lanes, 2, 1000, &OpenGate);
    book
}

// Whether the first block leaves the user erased, and the second one has all back.
fn is_put_back<W: Threads + Wait + Sync, R: Rig + Send + Drop>(
    rt: &W,
    alloc: Global,
    book: Book<ShardGraph, R>,
    first: &[Lane],
    second: &[Lane],
    user: ObjectId,
) -> bool {
    let book = run(rt, alloc, book, first);
    let erased = book.get(user).is_none();
    let mut book = run(rt, alloc, book, second);
    let back = is_back(&mut book, user);
    drop(book.into_disk());
    erased && back
}

// Whether a lane of the second block puts back what a lane of the first deleted, with both blocks built here.
fn puts_back<W: Threads + Wait + Sync>(
    rt: &W,
    alloc: Global,
    first: &mut List<Lane>,
    second: &mut List<Lane>,
) -> Result<bool, Fail> {
    let made = [
        Order::Create(USER, 1),
        Order::Create(PHOTO, 2),
        Order::Link(OWNS, 1, 2),
        Order::Update(1),
        Order::Delete(1, 40),
    ];
    add_lane(alloc, first, &made)?;
    add_lane(alloc, second, &[Order::Restore(40)])?;
    add_lane(alloc, second, &[Order::Create(USER, 3)])?;
    let user = id(1)?;
    let book = store_on(alloc, blank(alloc, &[])?)?;
    Ok(is_put_back(rt, alloc, book, first.as_slice(), second.as_slice(), user))
}

#[test]
fn a_lane_restores_what_a_block_deleted(rt: HostRuntime) -> Result<(), Fail> {
    let alloc = rt.alloc();
    let back = puts_back(&rt, alloc, &mut List::new(alloc), &mut List::new(alloc))?;
    assert!(rt; back);
    Ok(())
}
