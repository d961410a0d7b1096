//! Worked rows over a store: what a script prints, what the areas hold, and what a store is answered that is none.

use delf_disk::{Area, Bytes as DiskBytes, Disk, MemDisk, Numbers as DiskNumbers};
use delf_io::{Bytes, ListClock, MemSink, MemSource, Numbers};
use script_runner::{Status, run_plain};
use std::alloc::{AllocError, Global};
use std::process::Abort;
use std::test::Fail;

// Users own photos and sessions, and like photos; albums hold photos.
const PHOTOS: &str =
    "schema 1\nwindow 100\nobject user directly\nobject photo by_any\nobject album directly\nobject session short_ttl 60\nedge owns user photo deep\nedge likes user photo shallow\nedge holds album photo refcount\nedge uses user session deep\nscript\n";

// A user and its photo are made, linked, and deleted.
pub(crate) const DELETION: &str =
    "create 1 user \"a\"\ncreate 2 photo \"b\"\nlink owns 1 2\ndelete 1 job 40\n";

pub(crate) const DELETED: &str =
    "0 created 1\n1 created 2\n2 linked owns 1 2\n3 deleting 1 job 40\n";

pub(crate) fn blank(alloc: Global) -> Result<MemDisk, AllocError> {
    of_bytes(alloc, &[], &[])
}

pub(crate) fn of_bytes(alloc: Global, journal: &[u8], vault: &[u8]) -> Result<MemDisk, AllocError> {
    MemDisk::of(
        alloc,
        DiskBytes::of(alloc, journal)?,
        DiskBytes::of(alloc, vault)?,
        DiskNumbers::of(alloc, &[])?,
    )
}

// All bytes of an area.
pub(crate) fn bytes_in(alloc: Global, disk: &mut MemDisk, area: Area) -> Result<Vec<u8>, Fail> {
    let len = disk.len(area)?;
    let mut bytes = vec![in alloc; 0u8; len as usize]?;
    disk.read(area, 0, &mut bytes)?;
    Ok(bytes)
}

// Runs the script from a moment on, over this disk.
pub(crate) fn run_from(
    alloc: Global,
    moment: &str,
    script: &str,
    disk: MemDisk,
) -> Result<(Status, MemSink, MemDisk), AllocError> {
    let mut words = Vec::new(alloc);
    for word in ["run", "--at", moment] {
        words.push(String::from_str(alloc, word)?)?;
    }
    let mut document = Vec::from_slice(alloc, PHOTOS.as_bytes())?;
    document.extend_from_slice(script.as_bytes())?;
    let mut source = MemSource::of(
        Bytes::of(alloc, document.as_slice())?,
        Numbers::of(alloc, &[])?,
    );
    let mut sink = MemSink::of(alloc, Numbers::of(alloc, &[])?);
    let mut clock = ListClock::of(Numbers::of(alloc, &[])?);
    let (status, disk) = run_plain(
        alloc,
        words.as_slice(),
        &mut source,
        &mut sink,
        disk,
        &mut clock,
    );
    Ok((status, sink, disk))
}

// That the script ends so and prints this text; the disk that it leaves.
pub(crate) fn ends(
    rt: &impl Abort,
    alloc: Global,
    script: &str,
    disk: MemDisk,
    ended: Status,
    text: &str,
) -> Result<MemDisk, Fail> {
    let (status, sink, disk) = run_from(alloc, "0", script, disk)?;
    assert_eq!(rt; sink.held(), text.as_bytes());
    assert_eq!(rt; status, ended);
    Ok(disk)
}

// A store in which the deletion was carried out, and what its areas hold.
pub(crate) fn carried_out(rt: &impl Abort, alloc: Global) -> Result<(Vec<u8>, Vec<u8>), Fail> {
    let script = format!(in alloc; "{DELETION}work 10\nshow\n")?;
    let text = format!(in alloc; "{DELETED}work 3 idle\ngraph 0 0\n")?;
    let mut disk = ends(rt, alloc, &script, blank(alloc)?, Status::Done, &text)?;
    let journal = bytes_in(alloc, &mut disk, Area::Journal)?;
    let vault = bytes_in(alloc, &mut disk, Area::Vault)?;
    Ok((journal, vault))
}

#[test]
fn a_settled_store_has_its_bytes(rt: HostRuntime) -> Result<(), Fail> {
    let alloc = rt.alloc();
    let (journal, vault) = carried_out(&rt, alloc)?;
    assert_eq!(&rt; journal.len(), 247);
    assert_eq!(&rt; vault.len(), 222);
    assert_eq!(&rt; journal[41], 0);
    assert_eq!(&rt; journal[75], 0);
    assert_eq!(&rt; &vault[8..13], b"\xa5\x00\x00\x00\x44".as_slice());
    assert_eq!(&rt; vault[150], b'a');
    let disk = ends(
        &rt,
        alloc,
        "create 1 user \"a\"\n",
        blank(alloc)?,
        Status::Done,
        "0 created 1\n",
    )?;
    let mut disk = disk;
    let journal = bytes_in(alloc, &mut disk, Area::Journal)?;
    assert_eq!(&rt;
        journal.as_slice(),
        b"DELFJRN1\xa5\x00\x00\x00\x1d\x00\x1a\x00\x00\x00\x00\x00\x00\x00\x00\x01\x00\x00\x00\x00\x00\x00\x00\x00\x00\x00\x00\x00\x00\x00\x00\x00\x01a\x00".as_slice()
    );
    Ok(())
}

#[test]
fn a_run_goes_on_where_the_last_one_ended(rt: HostRuntime) -> Result<(), Fail> {
    let alloc = rt.alloc();
    let (journal, vault) = carried_out(&rt, alloc)?;
    let disk = of_bytes(alloc, &journal, &vault)?;
    ends(
        &rt,
        alloc,
        "restore 40\nwork 10\nshow\n",
        disk,
        Status::Done,
        "7 restoring 40 items 3\nwork 3 idle\ngraph 2 1\nobject 1 user birth 0 \"a\"\nobject 2 photo birth 1 \"b\"\nedge owns 1 2 birth 2 \"\"\n",
    )?;
    let (_, _, disk) = run_from(alloc, "5", "create 7 session\n", blank(alloc)?)?;
    let (status, sink, _) = run_from(alloc, "3", "create 8 session\ntick 61\nwork 10\n", disk)?;
    assert_eq!(&rt; status, Status::Done);
    assert_eq!(&rt; sink.held(), b"1 created 8\nwork 0 idle\n".as_slice());
    Ok(())
}

#[test]
fn a_torn_gate_leaves_the_entry_or_not(rt: HostRuntime) -> Result<(), Fail> {
    let alloc = rt.alloc();
    let refused = "down at 0\nrefused 1 at 0 down\n";
    for (pick, len) in [(0, 0), (1, 1), (2, 0), (3, 0)] {
        let script = format!(in alloc;
            "fail 3\ncreate 1 user \"a\"\ncreate 2 photo\ncrash {pick}\n"
        )?;
        let text = format!(in alloc; "{refused}opened {len}\n")?;
        ends(&rt, alloc, &script, blank(alloc)?, Status::Done, &text)?;
    }
    let script = "fail 3\ncreate 1 user \"a\"\ncreate 2 photo\n";
    ends(
        &rt,
        alloc,
        script,
        blank(alloc)?,
        Status::Down { len: 0 },
        refused,
    )?;
    Ok(())
}

// That a store of these bytes is none, by this place.
fn is_bad(
    rt: &impl Abort,
    alloc: Global,
    journal: &[u8],
    vault: &[u8],
    area: Area,
    at: u64,
) -> Result<(), Fail> {
    let name = match area {
        Area::Journal => "journal",
        Area::Vault => "vault",
    };
    let text = format!(in alloc; "bad store {name} at {at}\n")?;
    let disk = of_bytes(alloc, journal, vault)?;
    ends(rt, alloc, "", disk, Status::BadStore { area, at }, &text)?;
    Ok(())
}

// These bytes with another one at a place.
pub(crate) fn changed(
    alloc: Global,
    bytes: &[u8],
    at: usize,
    byte: u8,
) -> Result<Vec<u8>, AllocError> {
    let mut changed = Vec::from_slice(alloc, bytes)?;
    if at < changed.len() {
        changed[at] = byte;
    }
    Ok(changed)
}

// The first so many of the bytes.
pub(crate) fn front(bytes: &[u8], len: usize) -> &[u8] {
    if len <= bytes.len() {
        &bytes[..len]
    } else {
        bytes
    }
}

#[test]
fn a_store_that_is_none_has_its_place(rt: HostRuntime) -> Result<(), Fail> {
    let alloc = rt.alloc();
    is_bad(&rt, alloc, b"0123456789", &[], Area::Journal, 0)?;
    ends(
        &rt,
        alloc,
        "crash 0\n",
        of_bytes(alloc, b"012345678", &[])?,
        Status::Done,
        "opened 0\n",
    )?;
    let (journal, vault) = carried_out(&rt, alloc)?;
    let cut = front(&journal, 200);
    is_bad(&rt, alloc, cut, &vault, Area::Journal, 190)?;
    for (at, byte, area, place) in [
        (132, 0x63, Area::Journal, 117),
        (245, 3, Area::Journal, 218),
        (153, 0, Area::Vault, 81),
    ] {
        let bytes = changed(alloc, &journal, at, byte)?;
        is_bad(&rt, alloc, &bytes, &vault, area, place)?;
    }
    for (at, byte, place) in [(151, 0, 151), (92, 4, 81)] {
        let bytes = changed(alloc, &vault, at, byte)?;
        is_bad(&rt, alloc, &journal, &bytes, Area::Vault, place)?;
    }
    Ok(())
}

#[test]
fn damage_is_told_and_not_put_back(rt: HostRuntime) -> Result<(), Fail> {
    let alloc = rt.alloc();
    let (journal, vault) = carried_out(&rt, alloc)?;
    let disk = of_bytes(alloc, &journal, &changed(alloc, &vault, 150, b'b')?)?;
    ends(
        &rt,
        alloc,
        "restore 40\nwork 10\nwork 1\n",
        disk,
        Status::Done,
        "7 restoring 40 items 3\nwork 1 damaged 1\nwork 0 damaged 1\n",
    )?;
    let resealed = changed(alloc, &vault, 149, 0)?;
    let disk = of_bytes(alloc, &journal, &resealed)?;
    ends(
        &rt,
        alloc,
        "crash 0\nrestore 40\nwork 10\n",
        disk,
        Status::Done,
        "opened 7\n7 restoring 40 items 3\nwork 1 damaged 1\n",
    )?;
    Ok(())
}

// The line that creates an object with a payload of so many bytes.
fn creation(alloc: Global, id: u64, size: usize) -> Result<String, AllocError> {
    let mut payload = String::new(alloc);
    for _ in 0..size {
        payload.push('a')?;
    }
    format!(in alloc; "create {id} user \"{payload}\"\n")
}

#[test]
fn limits_are_kept(rt: HostRuntime) -> Result<(), Fail> {
    let alloc = rt.alloc();
    let fits = creation(alloc, 1, 512)?;
    let too_long = creation(alloc, 2, 513)?;
    let script = format!(in alloc; "{fits}{too_long}create 999999999999 user\n")?;
    ends(
        &rt,
        alloc,
        &script,
        blank(alloc)?,
        Status::Done,
        "0 created 1\nrefused 2 at 1 too long 513\n1 created 999999999999\n",
    )?;
    ends(
        &rt,
        alloc,
        "create 1000000000000 user\n",
        blank(alloc)?,
        Status::BadDocument { line: 12 },
        "line 12: out of range\n",
    )?;
    Ok(())
}
