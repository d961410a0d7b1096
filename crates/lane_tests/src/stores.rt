//! A store of users, photos and albums, over a disk in memory or another one.
ghost use Rattle.std.specs.Prelude.{◌≡◌, IfOk};

use delf_book::{Book, Fold, fold};
use delf_disk::{Bytes as DiskBytes, MemDisk, Numbers, Rig};
use delf_model::{EdgeNo, Moment, Rules, TypeNo};
use delf_recovery::open_book;
use live_graph::ShardGraph;
use schema_lang::parse_schema;
use std::alloc::{AllocError, Global};
use std::test::Fail;

// Users own photos, and albums hold them by references.
const SCHEMA: &[u8] =
    b"schema 1\nwindow 100\nobject user directly\nobject photo by_any\nobject album directly\nedge owns user photo deep\nedge holds album photo refcount\n";

pub(crate) const USER: TypeNo = TypeNo(0);

pub(crate) const PHOTO: TypeNo = TypeNo(1);

pub(crate) const ALBUM: TypeNo = TypeNo(2);

pub(crate) const OWNS: EdgeNo = EdgeNo(0);

pub(crate) const HOLDS: EdgeNo = EdgeNo(1);

/// What the clock says in all of these tests.
pub(crate) const NOW: Moment = 1000;

/// A blank disk. `fails` are the numbers, from 1, of the calls that are to fail.
pub(crate) fn blank(alloc: Global, fails: &[u64]) -> Result<MemDisk, Fail> {
    let journal = DiskBytes::of(alloc, b"")?;
    let vault = DiskBytes::of(alloc, b"")?;
    Ok(MemDisk::of(alloc, journal, vault, Numbers::of(alloc, fails)?)?)
}

/// The document with this script under the schema of these tests.
pub(crate) fn document_of(alloc: Global, script: &[u8]) -> Result<Vec<u8>, AllocError> {
    let mut document = Vec::from_slice(alloc, SCHEMA)?;
    document.extend_from_slice(b"script\n")?;
    document.extend_from_slice(script)?;
    Ok(document)
}

// The rules of these tests.
fn rules(alloc: Global) -> Result<Rules, Fail> {
    let schema = parse_schema(alloc, SCHEMA)?;
    Ok(Rules::of(alloc, &schema)?)
}

// Opens the store that stands on the disk.
fn open<R: Rig + Drop>(alloc: Global, rules: Rules, disk: R) -> Result<Book<ShardGraph, R>, Fail>
    ensures { IfOk result (λ book. book.rules ≡ rules) }
{
    let graph = ShardGraph::empty(alloc, &rules)?;
    match open_book(alloc, rules, graph, disk) {
        Ok(book) => Ok(book),
        Err((fault, _)) => Err(Fail::from(fault)),
    }
}

/// Opens the store under the rules of these tests.
pub(crate) fn store_on<R: Rig + Drop>(alloc: Global, disk: R) -> Result<Book<ShardGraph, R>, Fail> {
    let rules = rules(alloc)?;
    open(alloc, rules, disk)
}

/// The blank history under the rules of these tests.
pub(crate) fn blank_fold(alloc: Global) -> Result<Fold<ShardGraph>, Fail> {
    let rules = rules(alloc)?;
    let graph = ShardGraph::empty(alloc, &rules)?;
    Ok(fold(alloc, rules, graph))
}
