//! A book over a disk, for tests that call it by hand: users own photos, and sessions expire.

use delf_book::{Book, Worked};
use delf_disk::Rig;
use delf_model::{Bytes, Call, EdgeNo, Moment, ObjectId, Rules, TypeNo};
use delf_recovery::open_book;
use live_graph::ShardGraph;
use schema_lang::parse_schema;
use std::alloc::Global;
use std::test::Fail;

const SCHEMA: &[u8] =
    b"schema 1\nwindow 100\nobject user directly\nobject photo by_any\nobject session short_ttl 60\nedge owns user photo deep\n";

pub(crate) const USER: u8 = 0;

pub(crate) const PHOTO: u8 = 1;

pub(crate) const SESSION: u8 = 2;

fn opened<R: Rig + Drop>(
    alloc: Global,
    rules: Rules,
    disk: R,
) -> Result<Book<ShardGraph, R>, Fail> {
    let graph = ShardGraph::empty(alloc, &rules)?;
    match open_book(alloc, rules, graph, disk) {
        Ok(book) => Ok(book),
        Err((fault, _)) => Err(Fail::from(fault)),
    }
}

pub(crate) fn open<R: Rig + Drop>(alloc: Global, disk: R) -> Result<Book<ShardGraph, R>, Fail> {
    let schema = parse_schema(alloc, SCHEMA)?;
    opened(alloc, Rules::of(alloc, &schema)?, disk)
}

fn id_of(n: u64) -> Result<ObjectId, Fail> {
    Ok(ObjectId::new(n).ok_or("no id")?)
}

// Whether an object of this type is made.
pub(crate) fn creates<R: Rig>(
    alloc: Global,
    book: &mut Book<ShardGraph, R>,
    kind: u8,
    n: u64,
) -> Result<bool, Fail> {
    if kind > SESSION || book.rules().objects_len() != 3 {
        return Ok(false);
    }
    let call = Call::Create {
        kind: TypeNo(kind),
        id: id_of(n)?,
        payload: Bytes::of(alloc, b"a")?,
    };
    Ok(book.call(0, 0, &call).is_ok())
}

// Whether a user gets a photo.
pub(crate) fn links<R: Rig>(
    alloc: Global,
    book: &mut Book<ShardGraph, R>,
    from: u64,
    to: u64,
) -> Result<bool, Fail> {
    if book.rules().edges_len() != 1 {
        return Ok(false);
    }
    let call = Call::Link {
        edge: EdgeNo(0),
        from: id_of(from)?,
        to: id_of(to)?,
        payload: Bytes::of(alloc, b"b")?,
    };
    Ok(book.call(0, 0, &call).is_ok())
}

// Whether an object is condemned by a job of this name.
pub(crate) fn condemns<R: Rig>(
    book: &mut Book<ShardGraph, R>,
    n: u64,
    name: u32,
) -> Result<bool, Fail> {
    let id = id_of(n)?;
    Ok(book.call(0, 0, &Call::Delete { id, name }).is_ok())
}

// Whether a step is made at this moment, at this position.
pub(crate) fn steps<R: Rig>(book: &mut Book<ShardGraph, R>, now: Moment, position: u32) -> bool {
    book.claims() == 0 && book.work(now) == Ok(Worked::Stepped { position })
}

// Whether no step is left at this moment.
pub(crate) fn rests<R: Rig>(book: &mut Book<ShardGraph, R>, now: Moment, len: u32) -> bool {
    book.claims() == 0 && book.work(now) == Ok(Worked::Idle { len })
}
