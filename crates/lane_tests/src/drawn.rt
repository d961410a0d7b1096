//! Drawn documents with blocks of lanes, each run twice through the top call: each line that tells an accepted call has its entry,
//! each entry of a call its line, and the second run goes on over what the first one left.

use crate::histories::{count_tagged, read_history};
use crate::stores::blank;
use crate::top_calls::run_script;
use delf_disk::Rig;
use delf_model::{Entry, What};
use delf_service::OpenGate;
use script_runner::Status;
use std::alloc::{AllocError, Global};
use std::sync::Wait;
use std::test::Fail;
use std::thread::Threads;

// How many lanes a block has, and how many commands each of them.
const LANES: u32 = 3;

const COMMANDS: u32 = 4;

// What a document is drawn by: whether its blocks are quiet, and whether a disk call fails in its last one.
#[derive(Clone, Copy, Debug)]
struct Drawing {
    seed: u64,
    quiet: bool,
    fails: bool,
}

// The next of a row of drawn numbers.
fn draw(seed: u64) -> u64 {
    seed.wrapping_mul(6_364_136_223_846_793_005)
        .wrapping_add(1_442_695_040_888_963_407)
}

// A command about a few users and photos.
fn drawn_line(alloc: Global, seed: u64) -> Result<String, AllocError> {
    let user = 1 + (seed >> 20) % 4;
    let photo = 5 + (seed >> 28) % 4;
    let name = 1 + (seed >> 36) % 6;
    match (seed >> 44) % 11 {
        0 | 1 | 2 => format!(in alloc; "create {user} user \"u\"\n"),
        3 | 4 => format!(in alloc; "create {photo} photo\n"),
        5 | 6 => format!(in alloc; "link owns {user} {photo}\n"),
        7 => format!(in alloc; "update {user} \"v\"\n"),
        8 => format!(in alloc; "delete {user} job {name}\n"),
        9 => format!(in alloc; "restore {name}\n"),
        _ => format!(in alloc; "get {photo}\n"),
    }
}

// Adds so many drawn commands, and gives the next drawn number.
fn add_lines(
    alloc: Global,
    script: &mut Vec<u8>,
    first: u64,
    count: u32,
) -> Result<u64, AllocError> {
    let mut seed = first;
    for _ in 0..count {
        seed = draw(seed);
        let line = drawn_line(alloc, seed)?;
        script.extend_from_slice(line.as_bytes())?;
    }
    Ok(seed)
}

// Adds a block with drawn workers, turns and commands, and gives the next drawn number.
fn add_block(
    alloc: Global,
    script: &mut Vec<u8>,
    first: u64,
    quiet: bool,
) -> Result<u64, AllocError> {
    let mut seed = draw(first);
    let word = if quiet { "quiet " } else { "" };
    let workers = (seed >> 20) % 4;
    let turns = 1 + (seed >> 30) % 40;
    let head = format!(in alloc; "par {word}workers {workers} turns {turns}\n")?;
    script.extend_from_slice(head.as_bytes())?;
    for _ in 0..LANES {
        script.extend_from_slice(b"lane\n")?;
        seed = add_lines(alloc, script, seed, COMMANDS)?;
    }
    script.extend_from_slice(b"end\n")?;
    Ok(seed)
}

// The script: two blocks with commands before each.
fn script_of(alloc: Global, drawing: Drawing) -> Result<Vec<u8>, AllocError> {
    let mut script = Vec::new(alloc);
    let seed = add_lines(alloc, &mut script, drawing.seed, 6)?;
    let seed = add_block(alloc, &mut script, seed, drawing.quiet)?;
    script.extend_from_slice(b"work 3\n")?;
    let seed = add_lines(alloc, &mut script, seed, 3)?;
    if drawing.fails {
        let number = 1 + (seed >> 20) % 60;
        let order = format!(in alloc; "fail {number}\n")?;
        script.extend_from_slice(order.as_bytes())?;
    }
    add_block(alloc, &mut script, seed, drawing.quiet)?;
    Ok(script)
}

// What was told: accepted calls at all, and of the block that is read, accepted calls and lines of its lanes.
#[derive(Clone, Copy, Debug)]
struct Told {
    calls: u32,
    accepted: u32,
    lines: u32,
}

// The position and the word of a line that tells an accepted call.
fn accepted_in(line: &str) -> Option<(u32, &str)> {
    let mut words = line.split_whitespace();
    let mut first = words.next()?;
    if first == "lane" {
        let _number = words.next()?;
        first = words.next()?;
    }
    let word = words.next()?;
    match first.parse::<u32>() {
        Ok(position) => Some((position, word)),
        Err(_) => None,
    }
}

// How many calls the line of a block tells.
fn accepted_by_block(line: &str) -> Option<u32> {
    let mut words = line.split_whitespace();
    if words.next()? != "par" {
        return None;
    }
    let _accepted = words.next()?;
    match words.next()?.parse::<u32>() {
        Ok(count) => Some(count),
        Err(_) => None,
    }
}

// Whether such an entry is told by this word.
fn is_told_by(what: &What, word: &str) -> bool {
    match what {
        What::Create { .. } => word == "created",
        What::Update { .. } => word == "updated",
        What::Link { .. } => word == "linked",
        What::Delete { .. } => word == "deleting",
        What::Restore { .. } => word == "restoring",
        _ => false,
    }
}

// Marks the entry at this position. Whether this word tells it, and nothing did before.
fn mark(entries: &[Entry], marks: &mut [bool], position: u32, word: &str) -> bool {
    let at = position as usize;
    if at < entries.len() && at < marks.len() && !marks[at] && is_told_by(&entries[at].what, word) {
        marks[at] = true;
        true
    } else {
        false
    }
}

// Ends a block with so many accepted calls. Whether it has a line for each command of its lanes, or none where it is quiet.
fn end_block(told: Told, accepted: u32, quiet: bool) -> Option<Told> {
    let calls = if quiet {
        told.calls.saturating_add(accepted)
    } else {
        told.calls
    };
    let lines = if quiet { 0 } else { LANES * COMMANDS };
    if told.lines != lines || !quiet && told.accepted != accepted {
        return None;
    }
    Some(Told {
        calls,
        accepted: 0,
        lines: 0,
    })
}

// What was told with one line more; None where it tells what does not stand.
fn with_line(
    entries: &[Entry],
    marks: &mut [bool],
    told: Told,
    line: &str,
    quiet: bool,
) -> Option<Told> {
    if let Some(accepted) = accepted_by_block(line) {
        return end_block(told, accepted, quiet);
    }
    let of_lane = if line.starts_with("lane ") { 1 } else { 0 };
    let mut next = told;
    next.lines = told.lines.saturating_add(of_lane);
    if let Some((position, word)) = accepted_in(line) {
        if !mark(entries, marks, position, word) {
            return None;
        }
        next.calls = told.calls.saturating_add(1);
        next.accepted = told.accepted.saturating_add(of_lane);
    }
    Some(next)
}

// How many accepted calls the text tells, each of which has an entry of its own behind the first ones; None where one has not.
fn count_told(
    alloc: Global,
    entries: &[Entry],
    from: usize,
    text: &str,
    quiet: bool,
) -> Result<Option<u32>, AllocError> {
    let mut marks = Vec::new(alloc);
    for position in 0..entries.len() {
        marks.push(position < from)?;
    }
    let mut told = Told {
        calls: 0,
        accepted: 0,
        lines: 0,
    };
    for line in text.lines() {
        match with_line(entries, &mut marks, told, line, quiet) {
            Some(next) => told = next,
            None => return Ok(None),
        }
    }
    Ok(Some(told.calls))
}

// Whether the text tells each call that was entered behind the first entries, and no other. Of a run that met a disk fault the entry
// of the call or step that met it may stand beside.
fn is_accounted(
    alloc: Global,
    entries: &[Entry],
    from: usize,
    text: &[u8],
    quiet: bool,
    down: bool,
) -> Result<bool, AllocError> {
    let (Ok(text), Some(added)) = (str::from_utf8(text), entries.get(from..)) else {
        return Ok(false);
    };
    let (Some(told), Some(entered)) = (
        count_told(alloc, entries, from, text, quiet)?,
        count_tagged(added),
    ) else {
        return Ok(false);
    };
    Ok(told == entered || down && told.saturating_add(1) == entered)
}

// Runs the script over this disk, in which these entries stand. It answers the disk, its entries, and whether all is accounted for.
fn run_behind<W: Threads + Wait + Sync, R: Rig + Send + Drop>(
    rt: &W,
    alloc: Global,
    script: &[u8],
    drawing: Drawing,
    before: &[Entry],
    disk: R,
) -> Result<(R, Vec<Entry>, bool), Fail> {
    let (status, sink, mut disk) = run_script(rt, alloc, script, &[], disk, &OpenGate)?;
    disk.fail_after(0);
    let (entries, legal) = read_history(alloc, &mut disk)?;
    let down = matches!(status, Status::Down { .. });
    let ended = status == Status::Done || drawing.fails && down;
    let accounted = is_accounted(
        alloc,
        &entries,
        before.len(),
        sink.held(),
        drawing.quiet,
        down,
    )?;
    let right = ended && legal && entries.starts_with(before) && accounted;
    Ok((disk, entries, right))
}

// Whether two runs of a drawn document, one behind the other, are accounted for, and the first one made an entry.
fn go_on<W: Threads + Wait + Sync, R: Rig + Send + Drop>(
    rt: &W,
    alloc: Global,
    drawing: Drawing,
    disk: R,
) -> Result<bool, Fail> {
    let script = script_of(alloc, drawing)?;
    let (disk, entries, first) = run_behind(rt, alloc, &script, drawing, &[], disk)?;
    let (_disk, _entries, second) = run_behind(rt, alloc, &script, drawing, &entries, disk)?;
    Ok(first && second && !entries.is_empty())
}

#[test]
fn drawn_documents_run_twice_are_accounted_for(rt: HostRuntime) -> Result<(), Fail> {
    let alloc = rt.alloc();
    let mut seed = 26;
    for number in 0..200u32 {
        seed = draw(seed);
        let drawing = Drawing {
            seed,
            quiet: number % 3 == 0,
            fails: number % 4 == 0,
        };
        let right = go_on(&rt, alloc, drawing, blank(alloc, &[])?)?;
        assert!(rt; right, "document {number}");
    }
    Ok(())
}
