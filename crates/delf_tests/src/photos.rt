//! A user with 40,000 photos: made and deleted, restored over what the first run left, and listed over what the second one
//! left. Where each step or each line walked over the rows of the job, it would not end within the time of a test.

use crate::rows::{blank, run_from};
use delf_disk::MemDisk;
use script_runner::Status;
use std::alloc::{AllocError, Global};
use std::test::Fail;

const COUNT: u32 = 40_000;

// The commands that make a user with all photos, and delete the user with all that it owns.
fn deletion(alloc: Global) -> Result<String, AllocError> {
    let mut script = String::from_str(alloc, "create 1 user\n")?;
    for n in 0..COUNT {
        let id = n.saturating_add(2);
        let line = format!(in alloc; "create {id} photo\nlink owns 1 {id}\n")?;
        script.push_str(&line)?;
    }
    script.push_str("delete 1 job 7\nwork 1000000\n")?;
    Ok(script)
}

// The number of lines of a text.
fn lines_of(text: &[u8]) -> u32 {
    let mut lines: u32 = 0;
    for byte in text {
        if *byte == b'\n' {
            lines = lines.saturating_add(1);
        }
    }
    lines
}

// Runs the script to its end, and gives what it printed and left.
fn ran(alloc: Global, script: &str, disk: MemDisk) -> Result<(Vec<u8>, MemDisk), Fail> {
    let (status, sink, disk) = run_from(alloc, "0", script, disk)?;
    if status != Status::Done {
        return Err(Fail::from("the run did not come to its end"));
    }
    Ok((Vec::from_slice(alloc, sink.held())?, disk))
}

// The id of the user is in use again as the job is restored: all photos come back, and the user and its edges are listed.
#[test]
fn many_photos_go_and_come_back(rt: HostRuntime) -> Result<(), Fail> {
    let alloc = rt.alloc();
    let (text, disk) = ran(alloc, &deletion(alloc)?, blank(alloc)?)?;
    assert_eq!(rt; lines_of(text.as_slice()), 80_003);
    assert!(rt; text.as_slice().ends_with(b"\nwork 80001 idle\n"));
    let (text, disk) = ran(alloc, "create 1 user\nrestore 7\nwork 1000000\n", disk)?;
    assert_eq!(rt;
        text.as_slice(),
        b"160003 created 1\n160004 restoring 7 items 80001\nwork 80001 idle\n".as_slice()
    );
    let (text, _disk) = ran(alloc, "job 7\n", disk)?;
    assert_eq!(rt; lines_of(text.as_slice()), 40_002);
    assert!(rt;
        text.as_slice().starts_with(
            b"job 7 start 80001 root 1 restored put 40000 listed 40001\nlisted "
        )
    );
    Ok(())
}
