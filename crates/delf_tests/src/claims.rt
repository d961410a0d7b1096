//! What a book answers where steps are claimed, finished out of their order, given up, and lost in a crash.

use delete_step::{Claim, prepare};
use delf_book::{Begun, Book};
use delf_disk::{Bytes as DiskBytes, MemDisk, Numbers, Rig};
use delf_model::{
    Bytes, Call, List, Moment, Name, ObjectId, ObjectRule, ObjectType, Rules, Schema, TypeNo,
};
use delf_recovery::open_book;
use live_graph::ListGraph;
use std::alloc::Global;
use std::test::Fail;

// What the clock says in all of these tests.
const NOW: Moment = 1000;

// What `begin` is answered, as plain data.
#[derive(Clone, Copy, PartialEq, Eq, Debug)]
enum Told {
    Stepped(u32),
    Claimed,
    Idle(u32),
    Held(u32, u32),
    Fault,
}

fn users(alloc: Global) -> Result<Rules, Fail> {
    let mut objects = List::new(alloc);
    objects.push(ObjectType {
        name: Name::of(alloc, b"user")?,
        rule: ObjectRule::Directly,
        line: 3,
    })?;
    Ok(Rules::of(
        alloc,
        &Schema {
            window: 100,
            objects,
            edges: List::new(alloc),
        },
    )?)
}

fn blank(alloc: Global) -> Result<MemDisk, Fail> {
    let journal = DiskBytes::of(alloc, b"")?;
    let vault = DiskBytes::of(alloc, b"")?;
    Ok(MemDisk::of(alloc, journal, vault, Numbers::of(alloc, &[])?)?)
}

fn opened<R: Rig + Drop>(alloc: Global, rules: Rules, disk: R) -> Result<Book<ListGraph, R>, Fail> {
    let graph = ListGraph::empty(alloc, &rules)?;
    match open_book(alloc, rules, graph, disk) {
        Ok(book) => Ok(book),
        Err((fault, _)) => Err(Fail::from(fault)),
    }
}

fn store_on<R: Rig + Drop>(alloc: Global, disk: R) -> Result<Book<ListGraph, R>, Fail> {
    opened(alloc, users(alloc)?, disk)
}

fn id_of(n: u64) -> Result<ObjectId, Fail> {
    Ok(ObjectId::new(n).ok_or("no id")?)
}

fn creates<R: Rig>(alloc: Global, book: &mut Book<ListGraph, R>, n: u64) -> Result<bool, Fail> {
    if book.rules().objects_len() == 0 {
        return Ok(false);
    }
    let call = Call::Create {
        kind: TypeNo(0),
        id: id_of(n)?,
        payload: Bytes::of(alloc, b"a")?,
    };
    Ok(book.call(NOW, 0, &call).is_ok())
}

fn condemns<R: Rig>(book: &mut Book<ListGraph, R>, n: u64, name: u32) -> Result<bool, Fail> {
    let call = Call::Delete {
        id: id_of(n)?,
        name,
    };
    Ok(book.call(NOW, 0, &call).is_ok())
}

// Begins a step, and puts the claim that it gives behind the others.
fn begin<R: Rig>(book: &mut Book<ListGraph, R>, claims: &mut Vec<Claim>) -> Result<Told, Fail> {
    match book.begin(NOW) {
        Ok(Begun::Stepped { position }) => Ok(Told::Stepped(position)),
        Ok(Begun::Claimed(claim)) => {
            claims.push(claim)?;
            Ok(Told::Claimed)
        }
        Ok(Begun::Idle { len }) => Ok(Told::Idle(len)),
        Ok(Begun::Held { n, len }) => Ok(Told::Held(n, len)),
        Err(_) => Ok(Told::Fault),
    }
}

// The position of the step of the last of these claims, where it is held.
fn finish_last<R: Rig>(book: &mut Book<ListGraph, R>, claims: &mut Vec<Claim>) -> Option<u32> {
    let claim = claims.pop()?;
    if !book.holds(&claim) {
        return None;
    }
    book.finish(NOW, prepare(claim)).ok()
}

// Whether the last of these claims was held, and is given up.
fn release_last<R: Rig>(book: &mut Book<ListGraph, R>, claims: &mut Vec<Claim>) -> bool {
    let Some(claim) = claims.pop() else {
        return false;
    };
    if !book.holds(&claim) {
        return false;
    }
    book.release(claim);
    true
}

fn stands<R: Rig>(book: &Book<ListGraph, R>, n: u64) -> bool {
    match ObjectId::new(n) {
        Some(id) => book.get(id).is_some(),
        None => false,
    }
}

// Whether the one row that may be claimed is held until it is given up.
fn is_held_until_given_up<R: Rig>(
    alloc: Global,
    book: &mut Book<ListGraph, R>,
) -> Result<bool, Fail> {
    let mut claims = Vec::new(alloc);
    let made = creates(alloc, book, 1)? && condemns(book, 1, 40)?;
    let first = begin(book, &mut claims)?;
    let second = begin(book, &mut claims)?;
    let released = release_last(book, &mut claims);
    let third = begin(book, &mut claims)?;
    Ok(
        made && first == Told::Claimed
            && second == Told::Held(1, 2)
            && released
            && third == Told::Claimed,
    )
}

// The same over a store on this disk.
fn holds_until_given_up<R: Rig + Drop>(alloc: Global, disk: R) -> Result<bool, Fail> {
    let mut book = store_on(alloc, disk)?;
    let held = is_held_until_given_up(alloc, &mut book);
    drop(book.into_disk());
    held
}

#[test]
fn a_claimed_row_is_held_until_it_is_given_up(rt: HostRuntime) -> Result<(), Fail> {
    let alloc = rt.alloc();
    let held = holds_until_given_up(alloc, blank(alloc)?)?;
    assert!(rt; held);
    Ok(())
}

// Claims two rows, condemns a third object, and erases the row that was claimed last.
fn interleave<R: Rig>(
    alloc: Global,
    book: &mut Book<ListGraph, R>,
    claims: &mut Vec<Claim>,
) -> Result<bool, Fail> {
    let made = creates(alloc, book, 1)? && creates(alloc, book, 2)? && creates(alloc, book, 3)?;
    let condemned = condemns(book, 1, 40)? && condemns(book, 2, 41)?;
    let first = begin(book, claims)?;
    let second = begin(book, claims)?;
    let between = condemns(book, 3, 42)?;
    let both = book.claims() == 2;
    let finished = finish_last(book, claims);
    Ok(
        made && condemned
            && between
            && first == Told::Claimed
            && second == Told::Claimed
            && both
            && finished == Some(6)
            && book.claims() == 1,
    )
}

// The store on the disk behind that, which loses power with a claim held.
fn cut_behind<R: Rig + Drop>(
    alloc: Global,
    disk: R,
    claims: &mut Vec<Claim>,
) -> Result<(R, bool), Fail> {
    let mut book = store_on(alloc, disk)?;
    let done = interleave(alloc, &mut book, claims);
    let mut disk = book.into_disk();
    disk.cut_power(0);
    Ok((disk, done?))
}

// Makes steps until none is left, so many at most.
fn drain<R: Rig>(book: &mut Book<ListGraph, R>, claims: &mut Vec<Claim>) -> Result<Told, Fail> {
    for _ in 0..20u32 {
        match begin(book, claims)? {
            Told::Claimed => {
                if finish_last(book, claims).is_none() {
                    return Ok(Told::Fault);
                }
            }
            Told::Stepped(_) => {}
            other => return Ok(other),
        }
    }
    Ok(Told::Fault)
}

// Whether no claim is held, the row that was claimed stands, and all three objects go.
fn goes_on<R: Rig>(book: &mut Book<ListGraph, R>, claims: &mut Vec<Claim>) -> Result<bool, Fail> {
    let found = book.claims() == 0 && book.len() == 7 && stands(book, 1) && !stands(book, 2);
    let held = release_last(book, claims);
    let end = drain(book, claims)?;
    Ok(found && !held && end == Told::Idle(9) && !stands(book, 1) && !stands(book, 3))
}

// The same over the store on this disk.
fn goes_on_over<R: Rig + Drop>(
    alloc: Global,
    disk: R,
    claims: &mut Vec<Claim>,
) -> Result<bool, Fail> {
    let mut book = store_on(alloc, disk)?;
    let gone = goes_on(&mut book, claims);
    drop(book.into_disk());
    gone
}

#[test]
fn a_claim_is_lost_in_a_crash_and_its_row_is_not(rt: HostRuntime) -> Result<(), Fail> {
    let alloc = rt.alloc();
    let mut claims = Vec::new(alloc);
    let (disk, done) = cut_behind(alloc, blank(alloc)?, &mut claims)?;
    assert!(rt; done);
    let gone = goes_on_over(alloc, disk, &mut claims)?;
    assert!(rt; gone);
    Ok(())
}
