//! Blocks of lanes through the top call: what is printed, how a run ends, and what stands behind it.

use crate::gates::{Hold, Meeting};
use crate::stores::{blank, document_of};
use delf_disk::Rig;
use delf_io::{Bytes, Clock, ListClock, MemSink, MemSource, Numbers, Sink, Source};
use delf_service::{Gate, OpenGate};
use script_runner::{Status, run, run_plain};
use std::alloc::{AllocError, Global};
use std::process::Abort;
use std::sync::Wait;
use std::test::Fail;
use std::thread::Threads;

// The words of a run from the moment of these tests on.
fn run_words(alloc: Global) -> Result<Vec<String>, AllocError> {
    let mut words = Vec::new(alloc);
    for word in ["run", "--at", "1000"] {
        words.push(String::from_str(alloc, word)?)?;
    }
    Ok(words)
}

// The top call, whatever its source, sink, disk, clock and gate are.
fn run_over<W: Threads + Wait + Sync, S: Source, K: Sink, R: Rig + Send, C: Clock, Q: Gate + Sync>(
    rt: &W,
    alloc: Global,
    words: &[String],
    source: &mut S,
    sink: &mut K,
    rig: R,
    clock: &mut C,
    gate: &Q,
) -> (Status, R) {
    run(rt, alloc, words, source, sink, rig, clock, gate)
}

// The top call without threads.
fn run_plain_over<S: Source, K: Sink, R: Rig, C: Clock>(
    alloc: Global,
    words: &[String],
    source: &mut S,
    sink: &mut K,
    rig: R,
    clock: &mut C,
) -> (Status, R) {
    run_plain(alloc, words, source, sink, rig, clock)
}

/// Runs the script over this disk. The puts with these numbers, from 1, fail. It answers how the run ended, what it put, and the disk.
pub(crate) fn run_script<W: Threads + Wait + Sync, R: Rig + Send + Drop, Q: Gate + Sync>(
    rt: &W,
    alloc: Global,
    script: &[u8],
    write_fails: &[u64],
    disk: R,
    gate: &Q,
) -> Result<(Status, MemSink, R), AllocError> {
    let words = run_words(alloc)?;
    let document = document_of(alloc, script)?;
    let mut source = MemSource::of(
        Bytes::of(alloc, document.as_slice())?,
        Numbers::of(alloc, &[])?,
    );
    let mut sink = MemSink::of(alloc, Numbers::of(alloc, write_fails)?);
    let mut clock = ListClock::of(Numbers::of(alloc, &[])?);
    let (status, disk) = run_over(
        rt,
        alloc,
        words.as_slice(),
        &mut source,
        &mut sink,
        disk,
        &mut clock,
        gate,
    );
    Ok((status, sink, disk))
}

// That the script, over a blank disk, ends so and prints this text.
fn ends<W: Threads + Wait + Sync + Abort>(
    rt: &W,
    alloc: Global,
    script: &[u8],
    write_fails: &[u64],
    ended: Status,
    text: &[u8],
) -> Result<(), Fail> {
    let (status, sink, _disk) = run_script(
        rt,
        alloc,
        script,
        write_fails,
        blank(alloc, &[])?,
        &OpenGate,
    )?;
    assert_eq!(rt; status, ended);
    assert_eq!(rt; sink.held(), text);
    Ok(())
}

#[test]
fn lanes_run_beside_workers(rt: HostRuntime) -> Result<(), Fail> {
    ends(
        &rt,
        rt.alloc(),
        b"create 1 user \"a\"\ncreate 2 photo \"b\"\nlink owns 1 2\ndelete 1 job 40\nwork 10\nrestore 40\nwork 10\npar quiet workers 2 turns 1000\nlane\ncreate 11 user \"c\"\ncreate 12 photo \"d\"\nlink owns 11 12\ndelete 11 job 51\nlane\ncreate 21 user \"e\"\ncreate 22 photo \"f\"\nlink owns 21 22\ndelete 21 job 61\nend\nshow\njob 40\n",
        &[],
        Status::Done,
        b"0 created 1\n1 created 2\n2 linked owns 1 2\n3 deleting 1 job 40\nwork 3 idle\n7 restoring 40 items 3\nwork 3 idle\npar accepted 8 refused 0 history 25\ngraph 2 1\nobject 1 user birth 0 \"a\"\nobject 2 photo birth 1 \"b\"\nedge owns 1 2 birth 2 \"\"\njob 40 start 3 root 1 restored put 3 listed 0\n",
    )
}

#[test]
fn lanes_of_a_script_run_at_once(rt: HostRuntime) -> Result<(), Fail> {
    let alloc = rt.alloc();
    let gate = Meeting::of(2);
    let script = b"par workers 0 turns 1\nlane\ncreate 1 user\nlane\ncreate 2 user\nend\n";
    let (status, _sink, _disk) = run_script(&rt, alloc, script, &[], blank(alloc, &[])?, &gate)?;
    assert_eq!(rt; status, Status::Done);
    assert!(rt; gate.was_held());
    Ok(())
}

#[test]
fn a_step_of_a_script_is_made_while_another_has_its_record_made(
    rt: HostRuntime,
) -> Result<(), Fail> {
    let alloc = rt.alloc();
    let gate = Hold::new();
    let script =
        b"create 1 user\ncreate 2 user\ndelete 1 job 40\ndelete 2 job 41\npar workers 2 turns 8\nlane\nget 9\nend\n";
    let (status, _sink, _disk) = run_script(&rt, alloc, script, &[], blank(alloc, &[])?, &gate)?;
    assert_eq!(rt; status, Status::Done);
    assert!(rt; gate.saw_a_step());
    Ok(())
}

#[test]
fn lines_of_lanes_have_their_number(rt: HostRuntime) -> Result<(), Fail> {
    let alloc = rt.alloc();
    let script =
        b"par workers 0 turns 1\nlane\ncreate 1 user \"a\"\ncreate 1 user\nget 1\nget 9\nlane\nget 8\nend\n";
    let (status, sink, _disk) = run_script(&rt, alloc, script, &[], blank(alloc, &[])?, &OpenGate)?;
    assert_eq!(rt; status, Status::Done);
    assert!(rt;
        sink.held().starts_with(
            b"lane 0 0 created 1\nlane 0 refused 6 at 1 name taken 1 birth 0\nlane 0 at 1 object 1 user birth 0 \"a\"\nlane 0 at 1 absent 9\nlane 1 at "
        )
    );
    assert!(rt;
        sink.held()
            .ends_with(b" absent 8\npar accepted 1 refused 1 history 1\n")
    );
    Ok(())
}

#[test]
fn no_lane_runs_while_the_store_is_down(rt: HostRuntime) -> Result<(), Fail> {
    ends(
        &rt,
        rt.alloc(),
        b"create 1 user\nfail 1\ncreate 2 photo\npar workers 1 turns 1\nlane\ncreate 3 user\nend\njobs\n",
        &[],
        Status::Down { len: 1 },
        b"0 created 1\ndown at 1\nrefused 1 at 1 down\njobs 0\n",
    )
}

#[test]
fn a_block_whose_lines_were_not_put_was_made(rt: HostRuntime) -> Result<(), Fail> {
    ends(
        &rt,
        rt.alloc(),
        b"create 1 user\npar workers 0 turns 1\nlane\ncreate 2 user\nend\ncreate 3 user\n",
        &[2],
        Status::WriteFault { done: 1 },
        b"0 created 1\n",
    )
}

#[test]
fn a_run_without_threads_has_no_blocks(rt: HostRuntime) -> Result<(), Fail> {
    let alloc = rt.alloc();
    let words = run_words(alloc)?;
    let document = document_of(alloc, b"par workers 0 turns 1\nlane\nget 1\nend\n")?;
    let mut source = MemSource::of(
        Bytes::of(alloc, document.as_slice())?,
        Numbers::of(alloc, &[])?,
    );
    let mut sink = MemSink::of(alloc, Numbers::of(alloc, &[])?);
    let mut clock = ListClock::of(Numbers::of(alloc, &[])?);
    let (status, _disk) = run_plain_over(
        alloc,
        words.as_slice(),
        &mut source,
        &mut sink,
        blank(alloc, &[])?,
        &mut clock,
    );
    assert_eq!(rt; status, Status::BadDocument { line: 9 });
    assert_eq!(rt; sink.held(), b"line 9: malformed\n".as_slice());
    Ok(())
}
