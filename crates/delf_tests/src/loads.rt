//! What `load N` prints, and how it ends.

use crate::runs::run_words;
use delf_disk::{Bytes as DiskBytes, MemDisk, Numbers as DiskNumbers};
use delf_io::{Bytes, ListClock, MemSink, MemSource, Numbers};
use script_runner::{Status, run_plain};
use std::alloc::{AllocError, Global};
use std::process::Abort;
use std::test::Fail;

// That a load of this size ends so and prints this text.
fn loads(
    rt: &impl Abort,
    alloc: Global,
    size: &str,
    write_fails: &[u64],
    ended: Status,
    text: &str,
) -> Result<(), Fail> {
    let (status, sink) = run_words(alloc, &["load", size], &[], &[], write_fails)?;
    assert_eq!(rt; status, ended);
    assert_eq!(rt; sink.held(), text.as_bytes());
    Ok(())
}

// A load of eight objects over a disk whose call with this number fails.
fn loaded_over(alloc: Global, fails: u64) -> Result<(Status, MemSink), AllocError> {
    let mut words = Vec::new(alloc);
    for word in ["load", "8"] {
        words.push(String::from_str(alloc, word)?)?;
    }
    let mut source = MemSource::of(Bytes::of(alloc, &[])?, Numbers::of(alloc, &[])?);
    let mut sink = MemSink::of(alloc, Numbers::of(alloc, &[])?);
    let mut clock = ListClock::of(Numbers::of(alloc, &[5])?);
    let disk = MemDisk::of(
        alloc,
        DiskBytes::of(alloc, &[])?,
        DiskBytes::of(alloc, &[])?,
        DiskNumbers::of(alloc, &[fails])?,
    )?;
    let (status, _disk) = run_plain(
        alloc,
        words.as_slice(),
        &mut source,
        &mut sink,
        disk,
        &mut clock,
    );
    Ok((status, sink))
}

#[test]
fn a_load_prints_what_its_store_holds(rt: HostRuntime) -> Result<(), Fail> {
    let alloc = rt.alloc();
    loads(
        &rt,
        alloc,
        "8",
        &[],
        Status::Done,
        "load 8 objects 8 edges 24 history 66 jobs 1 restored 1\n",
    )?;
    loads(
        &rt,
        alloc,
        "43",
        &[],
        Status::Done,
        "load 43 objects 28 edges 84 history 279 jobs 5 restored 2\n",
    )?;
    loads(
        &rt,
        alloc,
        "20000",
        &[],
        Status::Done,
        "load 20000 objects 12500 edges 37500 history 133125 jobs 2500 restored 625\n",
    )?;
    Ok(())
}

#[test]
fn a_load_tells_where_it_ended(rt: HostRuntime) -> Result<(), Fail> {
    let alloc = rt.alloc();
    loads(&rt, alloc, "8", &[1], Status::WriteFault { done: 0 }, "")?;
    let (status, sink) = loaded_over(alloc, 1)?;
    assert_eq!(&rt; status, Status::Down { len: 0 });
    assert_eq!(&rt; sink.held(), b"down at 0\n".as_slice());
    let (status, sink) = loaded_over(alloc, 30)?;
    assert_eq!(&rt; status, Status::Down { len: 5 });
    assert_eq!(&rt; sink.held(), b"down at 5\n".as_slice());
    Ok(())
}
