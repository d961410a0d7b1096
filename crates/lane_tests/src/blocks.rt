//! Blocks of lanes and workers over a store.
ghost use Rattle.std.specs.Prelude.{◌≤◌};

use crate::accounts::accepted;
use crate::stores::NOW;
use delf_book::Book;
use delf_disk::Rig;
use delf_model::Lane;
use delf_service::{Gate, LaneOut, are_numbered, run_lanes};
use live_graph::ShardGraph;
use std::alloc::Global;
use std::sync::Wait;
use std::thread::Threads;

/// Runs a block. Where it is none, or wanted memory, no lane is told of.
pub(crate) fn run_block<W: Threads + Wait + Sync, R: Rig + Send, Q: Gate + Sync>(
    rt: &W,
    alloc: Global,
    book: Book<ShardGraph, R>,
    lanes: &[Lane],
    workers: u8,
    turns: u32,
    gate: &Q,
) -> (Book<ShardGraph, R>, Vec<LaneOut>)
    requires { workers ≤ 16 }
{
    if lanes.len() > 16 || !are_numbered(book.rules(), lanes) {
        return (book, Vec::new(alloc));
    }
    let (book, outs) = run_lanes(rt, alloc, book, NOW, lanes, workers, turns, gate);
    match outs {
        Ok(outs) => (book, outs),
        Err(_) => (book, Vec::new(alloc)),
    }
}

/// What a block left: the length of the history, how many lanes were told of, and how many of their calls were accepted.
#[derive(Clone, Copy, PartialEq, Eq, Debug)]
pub(crate) struct Left {
    pub len: u32,
    pub lanes: usize,
    pub accepted: u32,
}

fn left_in<R: Rig>(book: &Book<ShardGraph, R>, outs: &[LaneOut]) -> Left {
    Left {
        len: book.len(),
        lanes: outs.len(),
        accepted: accepted(outs),
    }
}

/// What a block leaves over this store.
pub(crate) fn leave<W: Threads + Wait + Sync, R: Rig + Send + Drop, Q: Gate + Sync>(
    rt: &W,
    alloc: Global,
    book: Book<ShardGraph, R>,
    lanes: &[Lane],
    workers: u8,
    turns: u32,
    gate: &Q,
) -> Left
    requires { workers ≤ 16 }
{
    let (book, outs) = run_block(rt, alloc, book, lanes, workers, turns, gate);
    let left = left_in(&book, outs.as_slice());
    drop(book.into_disk());
    left
}
