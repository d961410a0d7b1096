//! Deletions that a failing disk call stops, cut by what of the writes stands, and what goes on from there.

use crate::rows::{DELETED, DELETION, blank, ends, run_from};
use delf_disk::MemDisk;
use script_runner::Status;
use std::alloc::{AllocError, Global};
use std::process::Abort;
use std::test::Fail;

// All writes that were not synced are whole.
const ALL_WRITES: u64 = 6_148_914_691_236_517_205;

// The text of a deletion that stopped behind so many steps, and went on from this length to its end.
fn text_from(alloc: Global, made: u32, opened: u32) -> Result<String, AllocError> {
    let down = made.saturating_add(4);
    let left = 7u32.saturating_sub(opened);
    format!(in alloc;
        "{DELETED}work {made} down at {down}\nopened {opened}\nwork {left} idle\njob 40 start 3 root 1 done erased 2 cut 1\ngraph 0 0\n"
    )
}

// What the deletion prints where this call fails, and the store is cut by this pick.
fn stopped(alloc: Global, call: u32, pick: u64) -> Result<Vec<u8>, Fail> {
    let script = format!(in alloc;
        "{DELETION}fail {call}\nwork 10\ncrash {pick}\nwork 10\njob 40\nshow\n"
    )?;
    let (_, sink, _) = run_from(alloc, "0", &script, blank(alloc)?)?;
    Ok(Vec::from_slice(alloc, sink.held())?)
}

// The failing calls from one number to another, the steps made before, and the lengths found with none and with all of the
// writes.
const ROWS: [(u32, u32, u32, u32, u32); 8] = [
    (1, 6, 0, 4, 4),
    (7, 8, 0, 4, 5),
    (9, 15, 1, 5, 5),
    (16, 17, 1, 5, 6),
    (18, 18, 1, 6, 6),
    (19, 25, 2, 6, 6),
    (26, 27, 2, 6, 7),
    (28, 28, 2, 7, 7),
];

#[test]
fn a_deletion_stops_at_any_call_and_goes_on(rt: HostRuntime) -> Result<(), Fail> {
    let alloc = rt.alloc();
    for (first, last, made, none, all) in ROWS {
        let with_none = text_from(alloc, made, none)?;
        let with_all = text_from(alloc, made, all)?;
        for call in first..last.saturating_add(1) {
            let text = stopped(alloc, call, 0)?;
            assert_eq!(rt; text.as_slice(), with_none.as_bytes());
            let text = stopped(alloc, call, ALL_WRITES)?;
            assert_eq!(rt; text.as_slice(), with_all.as_bytes());
        }
    }
    Ok(())
}

// That by each of these picks the deletion goes on from one of the two lengths of its row.
fn goes_on(rt: &impl Abort, alloc: Global, picks: u64, end: u64) -> Result<(), Fail> {
    for (first, last, made, none, all) in ROWS {
        let with_none = text_from(alloc, made, none)?;
        let with_all = text_from(alloc, made, all)?;
        for call in first..last.saturating_add(1) {
            for pick in picks..end {
                let text = stopped(alloc, call, pick)?;
                assert!(rt;
                    text.as_slice() == with_none.as_bytes()
                        || text.as_slice() == with_all.as_bytes()
                );
            }
        }
    }
    Ok(())
}

// All picks take too long for one test that is not optimised.
#[test]
fn it_goes_on_by_picks_0_to_31(rt: HostRuntime) -> Result<(), Fail> {
    goes_on(&rt, rt.alloc(), 0, 32)
}

#[test]
fn it_goes_on_by_picks_32_to_63(rt: HostRuntime) -> Result<(), Fail> {
    goes_on(&rt, rt.alloc(), 32, 64)
}

#[test]
fn it_goes_on_by_picks_64_to_95(rt: HostRuntime) -> Result<(), Fail> {
    goes_on(&rt, rt.alloc(), 64, 96)
}

#[test]
fn it_goes_on_by_picks_96_to_127(rt: HostRuntime) -> Result<(), Fail> {
    goes_on(&rt, rt.alloc(), 96, 128)
}

#[test]
fn it_goes_on_by_picks_128_to_159(rt: HostRuntime) -> Result<(), Fail> {
    goes_on(&rt, rt.alloc(), 128, 160)
}

#[test]
fn it_goes_on_by_picks_160_to_191(rt: HostRuntime) -> Result<(), Fail> {
    goes_on(&rt, rt.alloc(), 160, 192)
}

#[test]
fn it_goes_on_by_picks_192_to_223(rt: HostRuntime) -> Result<(), Fail> {
    goes_on(&rt, rt.alloc(), 192, 224)
}

#[test]
fn it_goes_on_by_picks_224_to_255(rt: HostRuntime) -> Result<(), Fail> {
    goes_on(&rt, rt.alloc(), 224, 256)
}

const JOB: &str = "job 40\n";

// What is told of the job at this length, whether the store is down or not.
fn job_lines(len: u32) -> &'static str {
    match len {
        0..=3 => "no job 40\n",
        4 => "job 40 start 3 root 1 pending 1\n",
        5 => "job 40 start 3 root 1 pending 2\n",
        6 => "job 40 start 3 root 1 pending 1\n",
        7 | 8 => "job 40 start 3 root 1 done erased 2 cut 1\n",
        9 => "job 40 start 3 root 1 restoring 3\n",
        10 => "job 40 start 3 root 1 restoring 2\nlisted 2 object 2 taken birth 7\n",
        11 => "job 40 start 3 root 1 restoring 1\nlisted 2 object 2 taken birth 7\n",
        _ => {
            "job 40 start 3 root 1 restored put 1 listed 2\nlisted 2 object 2 taken birth 7\nlisted 0 edge owns 1 2 missing 2\n"
        }
    }
}

// A restore over an id that was taken again: the lines of its commands, the length that each finds, and how many entries it
// makes. A command that finds its rows at the end falls in its reads.
const RESTORE: [(&str, &str, u32, u32); 11] = [
    ("create 1 user \"a\"\n", "0 created 1\n", 0, 1),
    ("create 2 photo \"b\"\n", "1 created 2\n", 1, 1),
    ("link owns 1 2\n", "2 linked owns 1 2\n", 2, 1),
    ("delete 1 job 40\n", "3 deleting 1 job 40\n", 3, 1),
    ("work 10\n", "work 3 idle\n", 4, 3),
    ("show\n", "graph 0 0\n", 7, 0),
    ("create 2 photo \"n\"\n", "7 created 2\n", 7, 1),
    ("restore 40\n", "8 restoring 40 items 3\n", 8, 1),
    ("work 10\n", "work 3 idle\n", 9, 3),
    (JOB, "", 0, 0),
    (
        "show\n",
        "graph 2 0\nobject 1 user birth 0 \"a\"\nobject 2 photo birth 7 \"n\"\n",
        12,
        1,
    ),
];

// What the restore prints where it falls at this length: each line before, the fault, and that all else is refused.
fn text_down_at(alloc: Global, len: u32) -> Result<String, AllocError> {
    let mut text = String::new(alloc);
    for (command, line, found, made) in RESTORE {
        let line = if command == JOB {
            String::from_str(alloc, job_lines(len))?
        } else if len < found {
            format!(in alloc; "refused 1 at {len} down\n")?
        } else if len >= found.saturating_add(made) {
            String::from_str(alloc, line)?
        } else if command == "work 10\n" {
            let steps = len.saturating_sub(found);
            format!(in alloc; "work {steps} down at {len}\n")?
        } else {
            format!(in alloc; "down at {len}\n")?
        };
        text.push_str(&line)?;
    }
    Ok(text)
}

fn restore_with(alloc: Global, call: u32) -> Result<(Status, Vec<u8>, MemDisk), Fail> {
    let mut script = format!(in alloc; "fail {call}\n")?;
    for (command, _, _, _) in RESTORE {
        script.push_str(command)?;
    }
    let (status, sink, disk) = run_from(alloc, "0", &script, blank(alloc)?)?;
    Ok((status, Vec::from_slice(alloc, sink.held())?, disk))
}

#[test]
fn a_restore_with_a_failing_call_prints_where_it_fell(rt: HostRuntime) -> Result<(), Fail> {
    let alloc = rt.alloc();
    let mut call = 1u32;
    for len in 0..13u32 {
        let text = text_down_at(alloc, len)?;
        let mut many = 0u32;
        for _ in 0..100u32 {
            let (status, printed, disk) = restore_with(alloc, call)?;
            if printed.as_slice() != text.as_bytes() {
                break;
            }
            assert_eq!(rt; status, Status::Down { len });
            drop(disk);
            call = call.saturating_add(1);
            many = many.saturating_add(1);
        }
        assert!(rt; many > 0);
    }
    Ok(())
}
