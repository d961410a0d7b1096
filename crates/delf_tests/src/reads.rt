//! How often an opening reads and writes.
use delf_disk::{Area, Bytes as DiskBytes, Disk, Failed, MemDisk, Numbers as DiskNumbers, Rig};
use delf_io::{Bytes, ListClock, MemSink, MemSource, Numbers};
use script_runner::{Status, run_plain};
use std::alloc::{AllocError, Global};
use std::marker::Model;
use std::test::Fail;

// The schema of a load, and no command.
const NOTHING: &[u8] =
    b"schema 1\nwindow 100\nobject user directly\nobject photo by_any\nedge owns user photo deep\nedge likes user photo shallow\nedge holds user photo refcount\nedge next photo photo shallow\nscript\n";

// A disk that counts the reads and writes that it hands on.
#[derive(Drop)]
struct Counting<R: Rig> {
    rig: R,
    reads: u64,
    writes: u64,
    longest: usize,
}

impl<R: Rig> Model for Counting<R> {
    ghost Value = { R };

    ghost view = { λ counting. counting.rig };
}

impl<R: Rig> Disk for Counting<R> {
    ghost told = { R.Disk.told };

    ghost honest = { R.Disk.honest };

    ghost seen = { R.Disk.seen };

    ghost may_leave = { R.Disk.may_leave };

    ghost moment = { R.Disk.moment };

    ghost left_since = { R.Disk.left_since };

    ghost faults = { R.Disk.faults };

    ghost order = { R.Disk.order };

    ghost orders = { R.Disk.orders };

    ghost fuse = { R.Disk.fuse };

    ghost counts_now = { R.Disk.counts_now };

    ghost only_now = { R.Disk.only_now };

    ghost reads_as_image = { R.Disk.reads_as_image };

    fn len(&mut self, area: Area) -> Result<u64, Failed> {
        self.rig.len(area)
    }

    fn read(&mut self, area: Area, at: u64, buf: &mut [u8]) -> Result<(), Failed> {
        self.reads = self.reads.saturating_add(1);
        self.longest = self.longest.max(buf.len());
        self.rig.read(area, at, buf)
    }

    fn write(&mut self, area: Area, at: u64, bytes: &[u8]) -> Result<(), Failed> {
        self.writes = self.writes.saturating_add(1);
        self.rig.write(area, at, bytes)
    }

    fn sync(&mut self) -> Result<(), Failed> {
        self.rig.sync()
    }
}

impl<R: Rig> Rig for Counting<R> {
    fn cut_power(&mut self, pick: u64) {
        self.rig.cut_power(pick);
    }

    fn fail_after(&mut self, n: u32) {
        self.rig.fail_after(n);
    }
}

// Runs these words with this document over the disk.
fn run_over<R: Rig + Drop>(
    alloc: Global,
    words: &[&str],
    document: &[u8],
    rig: R,
) -> Result<(Status, R), AllocError> {
    let mut owned = Vec::new(alloc);
    for word in words {
        owned.push(String::from_str(alloc, word)?)?;
    }
    let mut source = MemSource::of(Bytes::of(alloc, document)?, Numbers::of(alloc, &[])?);
    let mut sink = MemSink::of(alloc, Numbers::of(alloc, &[])?);
    let mut clock = ListClock::of(Numbers::of(alloc, &[5])?);
    Ok(run_plain(
        alloc,
        owned.as_slice(),
        &mut source,
        &mut sink,
        rig,
        &mut clock,
    ))
}

// A load of this many commands over a blank disk.
fn loaded(alloc: Global, size: &str) -> Result<(Status, MemDisk), AllocError> {
    let disk = MemDisk::of(
        alloc,
        DiskBytes::of(alloc, &[])?,
        DiskBytes::of(alloc, &[])?,
        DiskNumbers::of(alloc, &[])?,
    )?;
    run_over(alloc, &["load", size], &[], disk)
}

// The store has some thousand entries, of which most have left payloads that nothing needs any more. Each area is gone
// through twice, in pieces of 65,536 bytes, of which the last may be shorter.
#[test]
fn an_opening_reads_in_pieces_and_a_settled_store_is_not_written(
    rt: HostRuntime,
) -> Result<(), Fail> {
    let alloc = rt.alloc();
    let (status, disk) = loaded(alloc, "400")?;
    assert_eq!(rt; status, Status::Done);
    let counting = Counting {
        rig: disk,
        reads: 0,
        writes: 0,
        longest: 0,
    };
    let (status, counting) = run_over(alloc, &["run", "--at", "1000000"], NOTHING, counting)?;
    assert_eq!(rt; status, Status::Done);
    let Counting {
        rig: mut disk,
        reads,
        writes,
        longest,
    } = counting;
    let bytes = disk
        .len(Area::Journal)?
        .saturating_add(disk.len(Area::Vault)?);
    assert!(rt; bytes > 100_000);
    assert!(rt; reads > 0);
    assert!(rt; reads <= bytes / 32_768 + 4);
    assert!(rt; longest <= 65_536);
    assert_eq!(rt; writes, 0);
    Ok(())
}
