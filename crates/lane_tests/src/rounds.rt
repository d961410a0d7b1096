//! Sixteen lanes and sixteen workers, round by round over one disk, which fails and loses its power in their midst.

use crate::blocks::run_block;
use crate::histories::{are_those_of, read_history};
use crate::many::add_lanes;
use crate::stores::{blank, store_on};
use delf_disk::Rig;
use delf_model::{Entry, Lane, List};
use delf_service::{LaneOut, OpenGate};
use std::alloc::Global;
use std::sync::Wait;
use std::test::Fail;
use std::thread::Threads;

// Which disk call of the round fails, none at 0, and what the power cut behind it leaves.
#[derive(Clone, Copy, Debug)]
struct Fate {
    fails: u32,
    pick: u64,
}

// What a round found and left: the lengths of its history, its root's number, and whether it went down.
#[derive(Clone, Copy, Debug)]
struct Left {
    from: u32,
    len: u32,
    root: u32,
    down: bool,
}

// Whether the history behind the power cut begins with the one before the round and has what the lanes were told. Where the disk
// failed, the entry of the call or step that met it may stand beside.
fn is_found(
    before: &[Entry],
    entries: &[Entry],
    left: Left,
    lanes: &[Lane],
    outs: &[LaneOut],
) -> bool {
    let kept = left.len as usize;
    let (Some(known), Some(beside)) = (entries.get(..kept), entries.get(kept..)) else {
        return false;
    };
    before.len() == left.from as usize
        && known.starts_with(before)
        && (beside.is_empty() || left.down && beside.len() == 1)
        && are_those_of(known, left.from, left.root, lanes, outs)
}

// Runs a block over the store on this disk, and cuts the power behind it. It answers the disk, the history that stands then, and
// whether that is right.
fn run_round<W: Threads + Wait + Sync, R: Rig + Send + Drop>(
    rt: &W,
    alloc: Global,
    disk: R,
    before: &[Entry],
    first: u32,
    fate: Fate,
) -> Result<(R, Vec<Entry>, bool), Fail> {
    let mut lanes = List::new(alloc);
    add_lanes(alloc, &mut lanes, first, 16)?;
    let mut book = store_on(alloc, disk)?;
    let from = book.len();
    let root = book.top_seat().saturating_add(1);
    book.fail_after(fate.fails);
    let (book, outs) = run_block(rt, alloc, book, lanes.as_slice(), 16, 1000, &OpenGate);
    let left = Left {
        from,
        len: book.len(),
        root,
        down: book.is_down(),
    };
    let mut disk = book.into_disk();
    disk.cut_power(fate.pick);
    let (entries, legal) = read_history(alloc, &mut disk)?;
    let right = legal
        && left.down == (fate.fails > 0)
        && is_found(before, &entries, left, lanes.as_slice(), outs.as_slice());
    Ok((disk, entries, right))
}

// Whether each of four rounds is right. The disk fails in the first three of them.
fn go_on<W: Threads + Wait + Sync, R: Rig + Send + Drop>(
    rt: &W,
    alloc: Global,
    disk: R,
) -> Result<bool, Fail> {
    let one = Fate {
        fails: 400,
        pick: 0,
    };
    let two = Fate {
        fails: 211,
        pick: u64::MAX,
    };
    let three = Fate {
        fails: 97,
        pick: 12,
    };
    let four = Fate { fails: 0, pick: 7 };
    let (disk, entries, first) = run_round(rt, alloc, disk, &[], 0, one)?;
    let (disk, entries, second) = run_round(rt, alloc, disk, &entries, 16, two)?;
    let (disk, entries, third) = run_round(rt, alloc, disk, &entries, 32, three)?;
    let (_disk, _entries, fourth) = run_round(rt, alloc, disk, &entries, 48, four)?;
    Ok(first && second && third && fourth)
}

#[test]
fn lanes_and_workers_go_on_behind_faults_and_power_cuts(rt: HostRuntime) -> Result<(), Fail> {
    let alloc = rt.alloc();
    let right = go_on(&rt, alloc, blank(alloc, &[])?)?;
    assert!(rt; right);
    Ok(())
}
