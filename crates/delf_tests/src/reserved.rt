//! That steps are made in room that was kept for them: a cut, erasures, an expiry and purges.

use crate::books::{PHOTO, SESSION, USER, condemns, creates, links, open, rests, steps};
use crate::rows::blank;
use delf_book::Book;
use delf_disk::Rig;
use live_graph::ShardGraph;
use std::alloc::Global;
use std::test::Fail;

// Makes a user with a photo, and deletes the user.
fn condemned<R: Rig>(alloc: Global, book: &mut Book<ShardGraph, R>) -> Result<bool, Fail> {
    Ok(
        creates(alloc, book, USER, 1)?
            && creates(alloc, book, PHOTO, 2)?
            && links(alloc, book, 1, 2)?
            && condemns(book, 1, 40)?,
    )
}

// Whether a user goes with its photo in room for three steps.
fn goes_in_room<R: Rig>(alloc: Global, book: &mut Book<ShardGraph, R>) -> Result<bool, Fail> {
    let mut all = condemned(alloc, book)?;
    book.reserve(3)?;
    for position in 4..7u32 {
        all = all && steps(book, 0, position);
    }
    Ok(all && rests(book, 0, 7))
}

// Whether, in room for seven steps, a session expires too, and both are purged.
fn expires_in_room<R: Rig>(alloc: Global, book: &mut Book<ShardGraph, R>) -> Result<bool, Fail> {
    let mut all = creates(alloc, book, SESSION, 7)? && condemned(alloc, book)?;
    book.reserve(7)?;
    let mut position = 5u32;
    for now in [60, 60, 60, 60, 60, 161, 161] {
        all = all && steps(book, now, position);
        position = position.saturating_add(1);
    }
    Ok(all && rests(book, 161, 12))
}

fn goes_over<R: Rig + Drop>(alloc: Global, disk: R) -> Result<bool, Fail> {
    let mut book = open(alloc, disk)?;
    let gone = goes_in_room(alloc, &mut book);
    drop(book.into_disk());
    gone
}

fn expires_over<R: Rig + Drop>(alloc: Global, disk: R) -> Result<bool, Fail> {
    let mut book = open(alloc, disk)?;
    let gone = expires_in_room(alloc, &mut book);
    drop(book.into_disk());
    gone
}

#[test]
fn steps_are_made_in_room_that_was_kept(rt: HostRuntime) -> Result<(), Fail> {
    let alloc = rt.alloc();
    let gone = goes_over(alloc, blank(alloc)?)?;
    assert!(rt; gone);
    let gone = expires_over(alloc, blank(alloc)?)?;
    assert!(rt; gone);
    Ok(())
}
