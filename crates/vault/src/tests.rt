//! Two records of the restoration log: their items, seals and payloads, and areas that are not whole.
ghost use Rattle.std.specs.Prelude.{◌≤◌, length, IfOk, OnOk};
ghost use Rattle.delf_disk.specs.Images.{Only};
ghost use Rattle.delf_disk.specs.Plain.{Plain};

use crate::{FetchFault, Vault};
use delf_disk::{Area, Bytes, Disk, MemDisk, Numbers};
use delf_model::{EdgeKey, EdgeNo, EdgeRow, Item, Job, LIMIT, ObjectId, ObjectRow, TypeNo};
use std::alloc::Global;
use std::process::Abort;
use std::test::Fail;

/// The head of the edge of type 0 from object 1 to object 2, whose payload is empty.
const EDGE_HEAD: [u8; 66] = [
    0x02, 0x00, 0x00, 0x00, 0x03, 0x00, 0x00, 0x00, 0x00, 0x00, 0x00, 0x00, 0x00, 0x01, 0x00, 0x00,
    0x00, 0x00, 0x00, 0x00, 0x00, 0x02, 0x00, 0x00, 0x00, 0x02, 0x00, 0x00, 0x00, 0x00, 0x00, 0x00,
    0x00, 0x01, 0xe3, 0xb0, 0xc4, 0x42, 0x98, 0xfc, 0x1c, 0x14, 0x9a, 0xfb, 0xf4, 0xc8, 0x99, 0x6f,
    0xb9, 0x24, 0x27, 0xae, 0x41, 0xe4, 0x64, 0x9b, 0x93, 0x4c, 0xa4, 0x95, 0x99, 0x1b, 0x78, 0x52,
    0xb8, 0x55,
];

/// The head of object 1, whose payload is `a`.
const OBJECT_HEAD: [u8; 62] = [
    0x01, 0x00, 0x00, 0x00, 0x03, 0x00, 0x00, 0x00, 0x00, 0x00, 0x00, 0x00, 0x01, 0x00, 0x00, 0x00,
    0x00, 0x00, 0x00, 0x00, 0x00, 0x00, 0x00, 0x00, 0x00, 0x00, 0x00, 0x00, 0x00, 0x00, 0xca, 0x97,
    0x81, 0x12, 0xca, 0x1b, 0xbd, 0xca, 0xfa, 0xc2, 0x31, 0xb3, 0x9a, 0x23, 0xdc, 0x4d, 0xa7, 0x86,
    0xef, 0xf8, 0x14, 0x7c, 0x4e, 0x72, 0xb9, 0x80, 0x77, 0x85, 0xaf, 0xee, 0x48, 0xbb,
];

/// The vault area with these two records.
const AREA: [u8; 152] = [
    0x44, 0x45, 0x4c, 0x46, 0x56, 0x4c, 0x54, 0x31, 0xa5, 0x00, 0x00, 0x00, 0x44, 0x00, 0x42, 0x02,
    0x00, 0x00, 0x00, 0x03, 0x00, 0x00, 0x00, 0x00, 0x00, 0x00, 0x00, 0x00, 0x01, 0x00, 0x00, 0x00,
    0x00, 0x00, 0x00, 0x00, 0x02, 0x00, 0x00, 0x00, 0x02, 0x00, 0x00, 0x00, 0x00, 0x00, 0x00, 0x00,
    0x01, 0xe3, 0xb0, 0xc4, 0x42, 0x98, 0xfc, 0x1c, 0x14, 0x9a, 0xfb, 0xf4, 0xc8, 0x99, 0x6f, 0xb9,
    0x24, 0x27, 0xae, 0x41, 0xe4, 0x64, 0x9b, 0x93, 0x4c, 0xa4, 0x95, 0x99, 0x1b, 0x78, 0x52, 0xb8,
    0x55, 0xa5, 0x00, 0x00, 0x00, 0x41, 0x00, 0x3e, 0x01, 0x00, 0x00, 0x00, 0x03, 0x00, 0x00, 0x00,
    0x00, 0x00, 0x00, 0x00, 0x01, 0x00, 0x00, 0x00, 0x00, 0x00, 0x00, 0x00, 0x00, 0x00, 0x00, 0x00,
    0x00, 0x00, 0x00, 0x00, 0x00, 0x00, 0xca, 0x97, 0x81, 0x12, 0xca, 0x1b, 0xbd, 0xca, 0xfa, 0xc2,
    0x31, 0xb3, 0x9a, 0x23, 0xdc, 0x4d, 0xa7, 0x86, 0xef, 0xf8, 0x14, 0x7c, 0x4e, 0x72, 0xb9, 0x80,
    0x77, 0x85, 0xaf, 0xee, 0x48, 0xbb, 0x61, 0x00,
];

/// The last 32 bytes of the head of object 1.
const SEAL: [u8; 32] = [
    0xca, 0x97, 0x81, 0x12, 0xca, 0x1b, 0xbd, 0xca, 0xfa, 0xc2, 0x31, 0xb3, 0x9a, 0x23, 0xdc, 0x4d,
    0xa7, 0x86, 0xef, 0xf8, 0x14, 0x7c, 0x4e, 0x72, 0xb9, 0x80, 0x77, 0x85, 0xaf, 0xee, 0x48, 0xbb,
];

/// The SHA-256 of `b`.
const OTHER_DIGEST: [u8; 32] = [
    0x3e, 0x23, 0xe8, 0x16, 0x00, 0x39, 0x59, 0x4a, 0x33, 0x89, 0x4f, 0x65, 0x64, 0xe1, 0xb1, 0x34,
    0x8b, 0xbd, 0x7a, 0x00, 0x88, 0xd4, 0x2c, 0x4a, 0xcb, 0x73, 0xee, 0xae, 0xd5, 0x9c, 0x00, 0x9d,
];

fn disk_of(alloc: Global, vault: &[u8]) -> Result<MemDisk, Fail>
    ensures { IfOk result (λ disk. Only (⟦<MemDisk as Disk>⟧.seen disk) (⟦<MemDisk as Disk>⟧.may_leave disk)) }
{
    let journal = Bytes::of(alloc, b"")?;
    let vault = Bytes::of(alloc, vault)?;
    let fails = Numbers::of(alloc, &[])?;
    Ok(MemDisk::of(alloc, journal, vault, fails)?)
}

// What reads in the vault area.
fn text_of<D: Disk>(alloc: Global, disk: &mut D) -> Result<Vec<u8>, Fail> {
    let n = disk.len(Area::Vault)?;
    let mut bytes = vec![in alloc; 0u8; n as usize]?;
    disk.read(Area::Vault, 0, &mut bytes)?;
    Ok(bytes)
}

// Starts the log and adds the two records.
fn add_both<D: Disk>(alloc: Global, disk: &mut D) -> Result<(), Fail>
    requires { Plain (D.told disk.old) (D.honest disk.old) → Only (D.seen disk.old) (D.may_leave disk.old) }
{
    let mut vault = Vault::start(alloc, disk)?;
    vault.reserve(2)?;
    vault.append(disk, &EDGE_HEAD, b"")?;
    vault.append(disk, &OBJECT_HEAD, b"a")?;
    Ok(())
}

// Starts the log and gives the item of record `i`.
fn item_of<D: Disk>(alloc: Global, disk: &mut D, i: u32) -> Result<Option<Item>, Fail>
    requires { Plain (D.told disk.old) (D.honest disk.old) → Only (D.seen disk.old) (D.may_leave disk.old) }
{
    let vault = Vault::start(alloc, disk)?;
    if i >= vault.count() {
        return Ok(None);
    }
    let found = vault.item(disk, i)?;
    Ok(found.map(|pair| pair.0))
}

// Starts the log and fetches the payload of record `i`.
fn fetch_of<D: Disk>(
    alloc: Global,
    disk: &mut D,
    i: u32,
    buf: &mut [u8; LIMIT],
) -> Result<Result<u16, FetchFault>, Fail>
    requires { Plain (D.told disk.old) (D.honest disk.old) → Only (D.seen disk.old) (D.may_leave disk.old) }
{
    let vault = Vault::start(alloc, disk)?;
    if i >= vault.count() {
        return Ok(Err(FetchFault::Failed));
    }
    let (head, payload) = vault.sizes(i);
    if head < 32 || head > 128 || payload > LIMIT as u32 {
        return Ok(Err(FetchFault::Failed));
    }
    Ok(vault.fetch(disk, i, buf))
}

#[test]
fn records_are_spelled(rt: HostRuntime) -> Result<(), Fail> {
    let mut disk = disk_of(rt.alloc(), b"")?;
    add_both(rt.alloc(), &mut disk)?;
    let bytes = text_of(rt.alloc(), &mut disk)?;
    assert_eq!(rt; bytes.as_slice(), AREA.as_slice());
    Ok(())
}

fn id(rt: &impl Abort, n: u64) -> ObjectId {
    ObjectId::new(n).expect(rt, "1 to 999,999,999,999")
}

#[test]
fn an_edge_is_read(rt: HostRuntime) -> Result<(), Fail> {
    let mut disk = disk_of(rt.alloc(), &AREA)?;
    let found = item_of(rt.alloc(), &mut disk, 0)?;
    let key = EdgeKey {
        edge: EdgeNo(0),
        from: id(&rt, 1),
        to: id(&rt, 2),
    };
    let item = Item::Edge {
        job: Job(3),
        row: EdgeRow {
            key,
            birth: 2,
            size: 0,
        },
        from_birth: 0,
        to_birth: 1,
    };
    assert_eq!(rt; found, Some(item));
    Ok(())
}

#[test]
fn an_object_is_read(rt: HostRuntime) -> Result<(), Fail> {
    let mut disk = disk_of(rt.alloc(), &AREA)?;
    let found = item_of(rt.alloc(), &mut disk, 1)?;
    let item = Item::Object {
        job: Job(3),
        row: ObjectRow {
            id: id(&rt, 1),
            kind: TypeNo(0),
            birth: 0,
            due: 0,
            at: 0,
            size: 1,
        },
    };
    assert_eq!(rt; found, Some(item));
    Ok(())
}

#[test]
fn a_payload_is_fetched(rt: HostRuntime) -> Result<(), Fail> {
    let mut disk = disk_of(rt.alloc(), &AREA)?;
    let mut buf = [0; LIMIT];
    let fetched = fetch_of(rt.alloc(), &mut disk, 1, &mut buf)?;
    assert_eq!(rt; fetched, Ok(1));
    assert_eq!(rt; buf[0], b'a');
    Ok(())
}

#[test]
fn a_changed_payload_is_damaged(rt: HostRuntime) -> Result<(), Fail> {
    let mut area = AREA;
    area[150] = b'b';
    let mut disk = disk_of(rt.alloc(), &area)?;
    let mut buf = [0; LIMIT];
    let fetched = fetch_of(rt.alloc(), &mut disk, 1, &mut buf)?;
    let damaged = FetchFault::Damaged {
        item: 1,
        stored: SEAL,
        found: OTHER_DIGEST,
    };
    assert_eq!(rt; fetched, Err(damaged));
    Ok(())
}
