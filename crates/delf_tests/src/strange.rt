//! Strange bytes: a store that is none is left as it was, nine bytes are blank, and the longest document.

use crate::rows::{bytes_in, carried_out, ends, front, of_bytes};
use crate::runs::run_words;
use delf_disk::Area;
use script_runner::Status;
use std::alloc::Global;
use std::process::Abort;
use std::test::Fail;

// At moment 0 object 1 of type 0 is created, with the payload `a`.
const CREATED: [u8; 43] = [
    0x44, 0x45, 0x4c, 0x46, 0x4a, 0x52, 0x4e, 0x31, 0xa5, 0x00, 0x00, 0x00, 0x1d, 0x00, 0x1a, 0x00,
    0x00, 0x00, 0x00, 0x00, 0x00, 0x00, 0x00, 0x01, 0x00, 0x00, 0x00, 0x00, 0x00, 0x00, 0x00, 0x00,
    0x00, 0x00, 0x00, 0x00, 0x00, 0x00, 0x00, 0x00, 0x01, 0x61, 0x00,
];

// That a store of these bytes is none, by this place of its journal, and keeps them.
fn is_left(
    rt: &impl Abort,
    alloc: Global,
    journal: &[u8],
    vault: &[u8],
    at: u64,
) -> Result<(), Fail> {
    let text = format!(in alloc; "bad store journal at {at}\n")?;
    let status = Status::BadStore {
        area: Area::Journal,
        at,
    };
    let disk = of_bytes(alloc, journal, vault)?;
    let mut disk = ends(rt, alloc, "create 1 user\n", disk, status, &text)?;
    assert_eq!(rt; status.code(), 7);
    let left = bytes_in(alloc, &mut disk, Area::Journal)?;
    assert_eq!(rt; left.as_slice(), journal);
    let left = bytes_in(alloc, &mut disk, Area::Vault)?;
    assert_eq!(rt; left.as_slice(), vault);
    Ok(())
}

#[test]
fn a_store_that_is_none_is_left(rt: HostRuntime) -> Result<(), Fail> {
    let alloc = rt.alloc();
    is_left(&rt, alloc, b"0123456789", b"", 0)?;
    is_left(&rt, alloc, front(&CREATED, 42), b"", 8)?;
    is_left(&rt, alloc, &[0; 1000], b"", 0)?;
    let (journal, vault) = carried_out(&rt, alloc)?;
    is_left(&rt, alloc, &vault, &journal, 0)?;
    is_left(&rt, alloc, front(&journal, 200), &vault, 190)?;
    Ok(())
}

#[test]
fn nine_bytes_are_blank(rt: HostRuntime) -> Result<(), Fail> {
    let alloc = rt.alloc();
    for journal in [
        b"012345678",
        &[0; 9],
        &[0xa5; 9],
        b"DELFJRN1\xa5",
        b"DELFVLT1\0",
    ] {
        let disk = of_bytes(alloc, journal, b"")?;
        let text = "0 created 1\n";
        let done = Status::Done;
        let mut disk = ends(&rt, alloc, "create 1 user \"a\"\n", disk, done, text)?;
        let left = bytes_in(alloc, &mut disk, Area::Journal)?;
        assert_eq!(rt; left.as_slice(), CREATED.as_slice());
    }
    Ok(())
}

// That a document of these parts has this fault.
fn has_fault(rt: &impl Abort, alloc: Global, document: &[&str], fault: &str) -> Result<(), Fail> {
    let (status, sink) = run_words(alloc, &["run", "--at", "0"], document, &[], &[])?;
    assert_eq!(rt; status.code(), 2);
    assert_eq!(rt; sink.held(), fault.as_bytes());
    Ok(())
}

// That one word of 4,096 such parts fills a document, and one byte more is too much.
fn fills_a_document(rt: &impl Abort, alloc: Global, part: &str) -> Result<(), Fail> {
    let mut parts = Vec::new(alloc);
    for _ in 0..4096u32 {
        parts.push(part)?;
    }
    has_fault(rt, alloc, parts.as_slice(), "line 1: malformed\n")?;
    parts.push("g")?;
    has_fault(rt, alloc, parts.as_slice(), "line 0: document too long\n")
}

#[test]
fn one_word_may_fill_a_document(rt: HostRuntime) -> Result<(), Fail> {
    let alloc = rt.alloc();
    let mut part = String::from_str(alloc, "0123456789abcdef")?;
    for _ in 0..8u32 {
        let half = part.clone()?;
        part.push_str(&half)?;
    }
    fills_a_document(&rt, alloc, part.as_str())
}
