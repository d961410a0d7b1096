//! What a step answers where a payload of the vault was changed: the item, the digest that its record holds, and that of its bytes.

use crate::books::{open, steps};
use crate::rows::{carried_out, changed, of_bytes};
use delf_book::{Book, StepFault};
use delf_disk::Rig;
use delf_model::{Call, JobName};
use live_graph::ShardGraph;
use std::alloc::Global;
use std::test::Fail;

// The SHA-256 of `a`.
const OF_A: [u8; 32] = [
    0xca, 0x97, 0x81, 0x12, 0xca, 0x1b, 0xbd, 0xca, 0xfa, 0xc2, 0x31, 0xb3, 0x9a, 0x23, 0xdc, 0x4d,
    0xa7, 0x86, 0xef, 0xf8, 0x14, 0x7c, 0x4e, 0x72, 0xb9, 0x80, 0x77, 0x85, 0xaf, 0xee, 0x48, 0xbb,
];

// The SHA-256 of `b`.
const OF_B: [u8; 32] = [
    0x3e, 0x23, 0xe8, 0x16, 0x00, 0x39, 0x59, 0x4a, 0x33, 0x89, 0x4f, 0x65, 0x64, 0xe1, 0xb1, 0x34,
    0x8b, 0xbd, 0x7a, 0x00, 0x88, 0xd4, 0x2c, 0x4a, 0xcb, 0x73, 0xee, 0xae, 0xd5, 0x9c, 0x00, 0x9d,
];

const DAMAGED: StepFault = StepFault::Damaged {
    item: 1,
    stored: OF_A,
    found: OF_B,
};

// Whether a restore puts the photo back and finds the user's payload changed, now and in a later step, and neither is an entry.
fn is_met<R: Rig>(book: &mut Book<ShardGraph, R>) -> bool {
    let name = JobName::Named(40);
    let called = book.call(0, 0, &Call::Restore { name }).is_ok();
    called
        && steps(book, 0, 8)
        && book.claims() == 0
        && book.work(0) == Err(DAMAGED)
        && book.claims() == 0
        && book.work(0) == Err(DAMAGED)
        && book.len() == 9
        && !book.is_down()
}

fn is_met_over<R: Rig + Drop>(alloc: Global, disk: R) -> Result<bool, Fail> {
    let mut book = open(alloc, disk)?;
    let met = is_met(&mut book);
    drop(book.into_disk());
    Ok(met)
}

#[test]
fn damage_is_told_with_both_digests(rt: HostRuntime) -> Result<(), Fail> {
    let alloc = rt.alloc();
    let (journal, vault) = carried_out(&rt, alloc)?;
    let disk = of_bytes(alloc, &journal, &changed(alloc, &vault, 150, b'b')?)?;
    let met = is_met_over(alloc, disk)?;
    assert!(rt; met);
    Ok(())
}
