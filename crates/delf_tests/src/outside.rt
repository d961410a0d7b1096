//! That each read and each write of a run fails in turn: what it then has printed, and how it ends.

use crate::runs::{PHOTOS, run_words};
use script_runner::Status;
use std::alloc::Global;
use std::process::Abort;
use std::test::Fail;

// The commands of a deletion and a restore over an id that was taken again, with what each prints.
const COMMANDS: [(&str, &str); 10] = [
    ("create 1 user \"a\"\n", "0 created 1\n"),
    ("create 2 photo \"b\"\n", "1 created 2\n"),
    ("link owns 1 2\n", "2 linked owns 1 2\n"),
    ("delete 1 job 40\n", "3 deleting 1 job 40\n"),
    ("work 10\n", "work 3 idle\n"),
    ("create 2 photo \"n\"\n", "7 created 2\n"),
    ("restore 40\n", "8 restoring 40 items 3\n"),
    ("work 10\n", "work 3 idle\n"),
    (
        "job 40\n",
        "job 40 start 3 root 1 restored put 1 listed 2\nlisted 2 object 2 taken birth 7\nlisted 0 edge owns 1 2 missing 2\n",
    ),
    (
        "show\n",
        "graph 2 0\nobject 1 user birth 0 \"a\"\nobject 2 photo birth 7 \"n\"\n",
    ),
];

// How a run of this script ends where this read and this write fail, 0 for none, with what it has printed.
fn run_with(alloc: Global, script: &str, read: u64, write: u64) -> Result<(Status, Vec<u8>), Fail> {
    let document = [PHOTOS, script];
    let (status, sink) = run_words(alloc, &["run", "--at", "0"], &document, &[read], &[write])?;
    Ok((status, Vec::from_slice(alloc, sink.held())?))
}

fn script_of(alloc: Global) -> Result<String, Fail> {
    let mut script = String::new(alloc);
    for (command, _) in COMMANDS {
        script.push_str(command)?;
    }
    Ok(script)
}

#[test]
fn each_write_fails_in_turn(rt: HostRuntime) -> Result<(), Fail> {
    let alloc = rt.alloc();
    let script = script_of(alloc)?;
    let mut told = String::new(alloc);
    let mut done = 0u32;
    for (_, lines) in COMMANDS {
        let next = done.saturating_add(1);
        let (status, printed) = run_with(alloc, &script, 0, u64::from(next))?;
        assert_eq!(rt; status, Status::WriteFault { done });
        assert_eq!(rt; printed.as_slice(), told.as_bytes());
        told.push_str(lines)?;
        done = next;
    }
    let next = u64::from(done.saturating_add(1));
    let (status, printed) = run_with(alloc, &script, 0, next)?;
    assert_eq!(rt; status, Status::Done);
    assert_eq!(rt; printed.as_slice(), told.as_bytes());
    Ok(())
}

// How many reads fail before one that is not made any more; each ends the run with nothing printed.
fn reads_that_fail(rt: &impl Abort, alloc: Global, script: &str) -> Result<u64, Fail> {
    for read in 1..100u64 {
        let (status, printed) = run_with(alloc, script, read, 0)?;
        if status == Status::Done {
            return Ok(read - 1);
        }
        assert_eq!(rt; status, Status::ReadFault);
        assert!(rt; printed.is_empty());
    }
    Ok(100)
}

#[test]
fn each_read_fails_in_turn(rt: HostRuntime) -> Result<(), Fail> {
    let alloc = rt.alloc();
    let short = reads_that_fail(&rt, alloc, &script_of(alloc)?)?;
    let mut long = script_of(alloc)?;
    for _ in 0..1000u32 {
        long.push_str("# a line that says nothing\n")?;
    }
    let more = reads_that_fail(&rt, alloc, &long)?;
    // One read finds the end.
    assert!(rt; short >= 2);
    assert!(rt; more > short);
    assert!(rt; more < 100);
    Ok(())
}
