//! That what lanes over files were told is found by a new opening of the files.

use crate::blocks::run_block;
use crate::many::{add_lanes, holds};
use crate::stores::store_on;
use delf_disk::{FileDisk, Rig};
use delf_model::{Lane, List};
use delf_service::{LaneOut, OpenGate};
use std::alloc::Global;
use std::fs;
use std::sync::Wait;
use std::test::Fail;
use std::thread::Threads;

const FOLDER: &str = "lane_tests_store";

// What lanes and sixteen workers are told over this disk, which is closed behind them, and how many entries they leave.
fn tell<W: Threads + Wait + Sync, R: Rig + Send + Drop>(
    rt: &W,
    alloc: Global,
    disk: R,
    lanes: &[Lane],
) -> Result<(Vec<LaneOut>, u32), Fail> {
    let book = store_on(alloc, disk)?;
    let (book, outs) = run_block(rt, alloc, book, lanes, 16, 1000, &OpenGate);
    let len = book.len();
    drop(book.into_disk());
    Ok((outs, len))
}

// Whether the second disk, which is opened behind the first one, has what the lanes were told over that.
fn finds<W: Threads + Wait + Sync, R: Rig + Send + Drop>(
    rt: &W,
    alloc: Global,
    first: R,
    second: R,
    lanes: &[Lane],
) -> Result<bool, Fail> {
    let (outs, len) = tell(rt, alloc, first, lanes)?;
    holds(alloc, second, len, lanes, outs.as_slice())
}

#[test]
fn files_hold_what_lanes_were_told(rt: HostRuntime) -> Result<(), Fail> {
    let _ = fs::remove_dir_all(&rt, FOLDER);
    fs::create_dir(&rt, FOLDER)?;
    let mut lanes = List::new(rt.alloc());
    add_lanes(rt.alloc(), &mut lanes, 0, 16)?;
    let first = FileDisk::at(&rt, rt.alloc(), FOLDER)?;
    let second = FileDisk::at(&rt, rt.alloc(), FOLDER)?;
    let found = finds(&rt, rt.alloc(), first, second, lanes.as_slice())?;
    assert!(rt; found);
    fs::remove_dir_all(&rt, FOLDER)?;
    Ok(())
}
