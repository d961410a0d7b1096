//! That calls succeed with ample memory, what a cut of the power leaves, and what a disk of two real files does.
use crate::{Area, Bytes, Disk, Failed, FileDisk, MemDisk, Numbers, Rig};
use std::alloc::Global;
use std::fs;
use std::os::unix::fs::PermissionsExt;
use std::test::Fail;

// What reads in an area.
fn text_of<D: Disk>(disk: &mut D, alloc: Global, area: Area) -> Result<Vec<u8>, Fail> {
    let n = disk.len(area)?;
    let mut bytes = vec![in alloc; 0u8; n as usize]?;
    disk.read(area, 0, &mut bytes)?;
    Ok(bytes)
}

// A write inside an area or at its end.
fn put<D: Disk>(disk: &mut D, area: Area, at: u64, bytes: &[u8]) -> Result<bool, Fail> {
    let n = disk.len(area)?;
    if at > n {
        return Ok(false);
    }
    Ok(disk.write(area, at, bytes).is_ok())
}

fn disk_of(alloc: Global, fails: &[u64]) -> Result<MemDisk, Fail> {
    let journal = Bytes::of(alloc, b"abcdef")?;
    let vault = Bytes::of(alloc, b"XY")?;
    Ok(MemDisk::of(alloc, journal, vault, Numbers::of(alloc, fails)?)?)
}

// Two writes that no sync covers, and a cut.
fn cut<D: Rig>(disk: &mut D, pick: u64) -> Result<(), Fail> {
    put(disk, Area::Journal, 1, b"123")?;
    put(disk, Area::Vault, 2, b"zz")?;
    put(disk, Area::Vault, 4, b"yyy")?;
    disk.cut_power(pick);
    Ok(())
}

#[test]
fn a_cut_leaves_what_the_pick_chooses(rt: HostRuntime) -> Result<(), Fail> {
    let table: [(u64, &[u8], &[u8]); 9] = [
        (0, b"abcdef", b"XY"),
        (0b010101, b"a123ef", b"XYzzyyy"),
        (0b101010, b"a\xEE\xEE\xEEef", b"XY\xEE\xEE\xEE\xEE\xEE"),
        (0b111111, b"a1cdef", b"XYz\0y"),
        (0b000001, b"a123ef", b"XY"),
        (0b000100, b"abcdef", b"XYzz"),
        (0b010000, b"abcdef", b"XY\0\0yyy"),
        (0b111000, b"abcdef", b"XY\xEE\xEEy"),
        (1 << 63, b"abcdef", b"XY"),
    ];
    for (pick, journal, vault) in table {
        let mut disk = disk_of(rt.alloc(), &[])?;
        cut(&mut disk, pick)?;
        assert_eq!(rt;
            text_of(&mut disk, rt.alloc(), Area::Journal)?.as_slice(),
            journal
        );
        assert_eq!(rt;
            text_of(&mut disk, rt.alloc(), Area::Vault)?.as_slice(),
            vault
        );
        assert_eq!(rt; disk.starved(), 0);
    }
    Ok(())
}

#[test]
fn a_sync_keeps_what_was_written(rt: HostRuntime) -> Result<(), Fail> {
    let mut disk = disk_of(rt.alloc(), &[])?;
    put(&mut disk, Area::Journal, 6, b"gh")?;
    disk.sync()?;
    cut(&mut disk, 0)?;
    assert_eq!(rt;
        text_of(&mut disk, rt.alloc(), Area::Journal)?.as_slice(),
        b"abcdefgh".as_slice()
    );
    Ok(())
}

#[test]
fn calls_fail_by_their_number(rt: HostRuntime) -> Result<(), Fail> {
    let mut disk = disk_of(rt.alloc(), &[2, 5])?;
    assert!(rt; !put(&mut disk, Area::Journal, 0, b"12")?);
    assert!(rt; disk.len(Area::Vault).is_ok());
    assert!(rt; disk.sync().is_ok());
    assert_eq!(rt; disk.sync(), Err(Failed));
    assert_eq!(rt;
        text_of(&mut disk, rt.alloc(), Area::Journal)?.as_slice(),
        b"abcdef".as_slice()
    );
    Ok(())
}

#[test]
fn a_failed_write_may_be_left_by_a_cut(rt: HostRuntime) -> Result<(), Fail> {
    let mut disk = disk_of(rt.alloc(), &[2])?;
    assert!(rt; !put(&mut disk, Area::Journal, 0, b"12")?);
    disk.cut_power(1);
    assert_eq!(rt;
        text_of(&mut disk, rt.alloc(), Area::Journal)?.as_slice(),
        b"12cdef".as_slice()
    );
    Ok(())
}

#[test]
fn an_order_lets_one_call_fail(rt: HostRuntime) -> Result<(), Fail> {
    let mut disk = disk_of(rt.alloc(), &[])?;
    disk.fail_after(1);
    disk.fail_after(2);
    assert_eq!(rt; disk.len(Area::Vault), Ok(2));
    assert_eq!(rt; disk.len(Area::Vault), Err(Failed));
    assert_eq!(rt; disk.len(Area::Vault), Ok(2));
    disk.fail_after(1);
    disk.cut_power(0);
    assert_eq!(rt; disk.sync(), Ok(()));
    Ok(())
}

const FOLDER: &str = "delf_disk_test";

const JOURNAL: &str = "delf_disk_test/delf.journal";

const VAULT: &str = "delf_disk_test/delf.vault";

#[test]
fn files_are_made_once_and_kept(rt: HostRuntime) -> Result<(), Fail> {
    let _ = fs::remove_dir_all(&rt, FOLDER);
    fs::create_dir(&rt, FOLDER)?;
    let mut disk = FileDisk::at(&rt, rt.alloc(), FOLDER)?;
    disk.fail_after(1);
    assert_eq!(rt; disk.sync(), Err(Failed));
    assert!(rt; fs::metadata(&rt, JOURNAL).is_err());
    assert_eq!(rt; disk.len(Area::Vault), Ok(0));
    assert_eq!(rt; fs::metadata(&rt, JOURNAL)?.len(), 0);
    assert_eq!(rt; fs::metadata(&rt, VAULT)?.len(), 0);
    assert!(rt; put(&mut disk, Area::Journal, 0, b"abc")?);
    assert!(rt; put(&mut disk, Area::Journal, 2, b"CD")?);
    disk.sync()?;
    disk.cut_power(0);
    assert_eq!(rt;
        text_of(&mut disk, rt.alloc(), Area::Journal)?.as_slice(),
        b"abCD".as_slice()
    );
    drop(disk);
    let mut again = FileDisk::at(&rt, rt.alloc(), FOLDER)?;
    assert_eq!(rt;
        text_of(&mut again, rt.alloc(), Area::Journal)?.as_slice(),
        b"abCD".as_slice()
    );
    assert_eq!(rt; again.len(Area::Vault), Ok(0));
    drop(again);
    fs::remove_dir_all(&rt, FOLDER)?;
    Ok(())
}

const LOCKED: &str = "delf_disk_locked";

const LOCKED_JOURNAL: &str = "delf_disk_locked/delf.journal";

const LOCKED_VAULT: &str = "delf_disk_locked/delf.vault";

#[test]
fn one_disk_has_the_files_at_a_time(rt: HostRuntime) -> Result<(), Fail> {
    let _ = fs::remove_dir_all(&rt, LOCKED);
    fs::create_dir(&rt, LOCKED)?;
    let mut first = FileDisk::at(&rt, rt.alloc(), LOCKED)?;
    let mut second = FileDisk::at(&rt, rt.alloc(), LOCKED)?;
    assert!(rt; put(&mut first, Area::Journal, 0, b"abc")?);
    fs::remove_file(&rt, LOCKED_VAULT)?;
    assert_eq!(rt; second.len(Area::Journal), Err(Failed));
    assert_eq!(rt; second.sync(), Err(Failed));
    assert!(rt; fs::metadata(&rt, LOCKED_VAULT).is_err());
    assert_eq!(rt;
        fs::metadata(&rt, LOCKED_JOURNAL)?.permissions().mode() & 0o777,
        0o600
    );
    drop(first);
    assert_eq!(rt; second.len(Area::Journal), Ok(3));
    drop(second);
    fs::remove_dir_all(&rt, LOCKED)?;
    Ok(())
}

#[test]
fn a_missing_folder_fails_each_call(rt: HostRuntime) -> Result<(), Fail> {
    let mut disk = FileDisk::at(&rt, rt.alloc(), "delf_disk_missing")?;
    assert_eq!(rt; disk.len(Area::Journal), Err(Failed));
    assert_eq!(rt; disk.sync(), Err(Failed));
    Ok(())
}

// A disk may go from one thread to another.
fn sends<T: Send>(_: &T) {}

#[test]
fn disks_are_sent(rt: HostRuntime) -> Result<(), Fail> {
    sends(&disk_of(rt.alloc(), &[])?);
    sends(&FileDisk::at(&rt, rt.alloc(), FOLDER)?);
    Ok(())
}
