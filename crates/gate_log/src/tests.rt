//! Areas byte by byte after each call, with disk calls that fail, and areas that are not whole.
ghost use Rattle.std.specs.Prelude.{◌≤◌, length, IfOk, OnOk};
ghost use Rattle.delf_disk.specs.Images.{Only};
ghost use Rattle.delf_disk.specs.Plain.{Plain};

use crate::GateLog;
use delf_disk::{Area, Bytes, Disk, MemDisk, Numbers, Rig};
use std::alloc::Global;
use std::test::Fail;

const MARK: [u8; 8] = [b'D', b'E', b'L', b'F', b'J', b'R', b'N', b'1'];

const OPEN: u8 = 0xA5;

fn disk_of(alloc: Global, fails: &[u64]) -> Result<MemDisk, Fail>
    ensures { IfOk result (λ disk. Only (⟦<MemDisk as Disk>⟧.seen disk) (⟦<MemDisk as Disk>⟧.may_leave disk)) }
{
    let journal = Bytes::of(alloc, b"")?;
    let vault = Bytes::of(alloc, b"vault")?;
    let fails = Numbers::of(alloc, fails)?;
    Ok(MemDisk::of(alloc, journal, vault, fails)?)
}

// What reads in an area.
fn text_of<D: Disk>(alloc: Global, disk: &mut D, area: Area) -> Result<Vec<u8>, Fail> {
    let n = disk.len(area)?;
    let mut bytes = vec![in alloc; 0u8; n as usize]?;
    disk.read(area, 0, &mut bytes)?;
    Ok(bytes)
}

// Starts the log of the journal and adds a record.
fn add<D: Disk>(alloc: Global, disk: &mut D, head: &[u8], payload: &[u8]) -> Result<(), Fail>
    requires head { length head.now ≤ 128 }
    requires payload { length payload.now ≤ 65535 }
    requires stable { Plain (D.told disk.old) (D.honest disk.old) → Only (D.seen disk.old) (D.may_leave disk.old) }
    ensures { OnOk result (Plain (D.told disk.new) (D.honest disk.new) → Only (D.seen disk.new) (D.may_leave disk.new)) }
{
    let mut log = GateLog::start(alloc, disk, Area::Journal, MARK)?;
    log.reserve(1)?;
    log.append(disk, head, payload)?;
    Ok(())
}

// Adds records of zeros, whose heads and payloads have these lengths.
fn add_all<D: Disk>(alloc: Global, disk: &mut D, sizes: &[(u8, u8)]) -> Result<(), Fail>
    requires { Plain (D.told disk.old) (D.honest disk.old) → Only (D.seen disk.old) (D.may_leave disk.old) }
{
    let zeros = [0u8; 128];
    for (head, payload) in sizes {
        let head = usize::from(*head).min(128);
        let payload = usize::from(*payload).min(128);
        add(alloc, disk, &zeros[..head], &zeros[..payload])?;
    }
    Ok(())
}

// Starts the log of the journal, scrubs its first record and settles.
fn scrub_first<D: Disk>(alloc: Global, disk: &mut D) -> Result<(), Fail>
    requires { Plain (D.told disk.old) (D.honest disk.old) → Only (D.seen disk.old) (D.may_leave disk.old) }
    ensures { OnOk result (Plain (D.told disk.new) (D.honest disk.new) → Only (D.seen disk.new) (D.may_leave disk.new)) }
{
    let mut log = GateLog::start(alloc, disk, Area::Journal, MARK)?;
    if log.count() == 0 {
        return Ok(());
    }
    log.scrub(disk, 0)?;
    log.settle(disk)?;
    Ok(())
}

// Starts the log of the journal, drops its last record and settles.
fn drop_one<D: Disk>(alloc: Global, disk: &mut D) -> Result<(), Fail>
    requires { Plain (D.told disk.old) (D.honest disk.old) → Only (D.seen disk.old) (D.may_leave disk.old) }
{
    let mut log = GateLog::start(alloc, disk, Area::Journal, MARK)?;
    if log.count() == 0 {
        return Ok(());
    }
    log.drop_last(disk)?;
    log.settle(disk)?;
    Ok(())
}

// Starts the log of the journal and reads the head and the payload of its last record, each to the front of `buf`.
fn read_last<D: Disk>(alloc: Global, disk: &mut D, buf: &mut [u8; 128]) -> Result<(u16, u16), Fail>
    requires { Plain (D.told disk.old) (D.honest disk.old) → Only (D.seen disk.old) (D.may_leave disk.old) }
{
    let log = GateLog::start(alloc, disk, Area::Journal, MARK)?;
    let count = log.count();
    if count == 0 {
        return Ok((0, 0));
    }
    let last = count - 1;
    let (head, payload) = log.sizes(last);
    if head > 128 {
        return Ok((0, 0));
    }
    if payload > 128 {
        return Ok((0, 0));
    }
    let head = log.read_head(disk, last, buf)?;
    let payload = log.read_payload(disk, last, buf)?;
    Ok((head, payload))
}

// Two records, of which the second may not come to stand. Then the power fails, and the log is started again: how
// many records it has, and whether the second was acknowledged.
fn torn<R: Rig>(alloc: Global, disk: &mut R, pick: u64) -> Result<(u32, bool), Fail>
    requires { Plain (R.told disk.old) (R.honest disk.old) → Only (R.seen disk.old) (R.may_leave disk.old) }
{
    let mut log = GateLog::start(alloc, disk, Area::Journal, MARK)?;
    log.reserve(2)?;
    log.append(disk, b"old", b"1")?;
    let added = log.append(disk, b"new", b"2").is_ok();
    disk.cut_power(pick);
    let log = GateLog::start(alloc, disk, Area::Journal, MARK)?;
    Ok((log.count(), added))
}

// The settled journal after an object of type 0 with id 1 and payload `a` was created at moment 0.
#[test]
fn a_record_is_spelled(rt: HostRuntime) -> Result<(), Fail> {
    let head = [
        0, 0, 0, 0, 0, 0, 0, 0, 1, 0, 0, 0, 0, 0, 0, 0, 0, 0, 0, 0, 0, 0, 0, 0, 0, 1,
    ];
    let mut disk = disk_of(rt.alloc(), &[])?;
    add(rt.alloc(), &mut disk, &head, b"a")?;
    let bytes = text_of(rt.alloc(), &mut disk, Area::Journal)?;
    assert_eq!(rt;
        bytes.as_slice(),
        b"DELFJRN1\xA5\0\0\0\x1D\0\x1A\0\0\0\0\0\0\0\0\x01\0\0\0\0\0\0\0\0\0\0\0\0\0\0\0\0\x01a\0".as_slice()
    );
    let vault = text_of(rt.alloc(), &mut disk, Area::Vault)?;
    assert_eq!(rt; vault.as_slice(), b"vault".as_slice());
    Ok(())
}

// The sizes of the seven records of a small journal, with their gates: 34, 34, 41, 36, 37, 28 and 28 bytes.
#[test]
fn gates_stand_between_records(rt: HostRuntime) -> Result<(), Fail> {
    let mut disk = disk_of(rt.alloc(), &[])?;
    let sizes = [
        (26, 1),
        (26, 1),
        (34, 0),
        (29, 0),
        (30, 0),
        (21, 0),
        (21, 0),
    ];
    add_all(rt.alloc(), &mut disk, &sizes)?;
    let bytes = text_of(rt.alloc(), &mut disk, Area::Journal)?;
    assert_eq!(rt; bytes.len(), 247);
    for gate in [8, 42, 76, 117, 153, 190, 218] {
        assert_eq!(rt; bytes.get(gate).copied(), Some(OPEN));
    }
    assert_eq!(rt; bytes.get(246).copied(), Some(0));
    Ok(())
}

// Calls 1 to 3 start the log, 4 to 7 add the first record, and 8 to 11 the second. Of a write that no sync covers, a
// cut leaves the old bytes (0), the new ones (1), garbage (2) or the first half of the new ones (3).
#[test]
fn a_torn_append_leaves_the_old_records_or_the_new(rt: HostRuntime) -> Result<(), Fail> {
    let table: [(u64, u64, u32); 16] = [
        (8, 0, 1),
        (8, 1, 1),
        (8, 2, 1),
        (8, 3, 1),
        (9, 0, 1),
        (9, 1, 1),
        (9, 2, 1),
        (9, 3, 1),
        (10, 0, 1),
        (10, 1, 2),
        (10, 2, 1),
        (10, 3, 1),
        (11, 0, 1),
        (11, 1, 2),
        (11, 2, 1),
        (11, 3, 1),
    ];
    for (call, pick, count) in table {
        let mut disk = disk_of(rt.alloc(), &[call])?;
        let (found, added) = torn(rt.alloc(), &mut disk, pick)?;
        assert!(rt; !added);
        assert_eq!(rt; found, count);
    }
    let mut disk = disk_of(rt.alloc(), &[])?;
    let (found, added) = torn(rt.alloc(), &mut disk, 0)?;
    assert!(rt; added);
    assert_eq!(rt; found, 2);
    Ok(())
}

#[test]
fn records_are_scrubbed_dropped_and_settled(rt: HostRuntime) -> Result<(), Fail> {
    let mut disk = disk_of(rt.alloc(), &[])?;
    add(rt.alloc(), &mut disk, b"head", b"first")?;
    add(rt.alloc(), &mut disk, b"next", b"second")?;
    scrub_first(rt.alloc(), &mut disk)?;
    drop_one(rt.alloc(), &mut disk)?;
    let bytes = text_of(rt.alloc(), &mut disk, Area::Journal)?;
    assert_eq!(rt;
        bytes.as_slice(),
        b"DELFJRN1\xA5\0\0\0\x0B\0\x04head\0\0\0\0\0\0\0\0\0\0\0\0\0\0\0\0\0\0\0\0\0\0\0".as_slice()
    );
    Ok(())
}

#[test]
fn a_record_is_read(rt: HostRuntime) -> Result<(), Fail> {
    let mut disk = disk_of(rt.alloc(), &[])?;
    add(rt.alloc(), &mut disk, b"head", b"first")?;
    add(rt.alloc(), &mut disk, b"next", b"second")?;
    let mut buf = [0u8; 128];
    let (head, payload) = read_last(rt.alloc(), &mut disk, &mut buf)?;
    assert_eq!(rt; head, 4);
    assert_eq!(rt; payload, 6);
    assert_eq!(rt; &buf[..6], b"second".as_slice());
    Ok(())
}
