//! What an opening answers over areas that were written by hand.
ghost use Rattle.std.specs.Prelude.{IfOk};
ghost use Rattle.delf_model.specs.Checked.{IsSpellable};

use delf_disk::{Area, Bytes, MemDisk, Numbers};
use delf_model::{List, Name, ObjectRule, ObjectType, Rules, Schema};
use delf_recovery::{OpenFault, open_book};
use live_graph::ListGraph;
use std::alloc::Global;
use std::test::Fail;

/// The journal of one entry: at moment 0 object 1 of type 0 is created, with the payload `a`.
const CREATED: [u8; 43] = [
    0x44, 0x45, 0x4c, 0x46, 0x4a, 0x52, 0x4e, 0x31, 0xa5, 0x00, 0x00, 0x00, 0x1d, 0x00, 0x1a, 0x00,
    0x00, 0x00, 0x00, 0x00, 0x00, 0x00, 0x00, 0x01, 0x00, 0x00, 0x00, 0x00, 0x00, 0x00, 0x00, 0x00,
    0x00, 0x00, 0x00, 0x00, 0x00, 0x00, 0x00, 0x00, 0x01, 0x61, 0x00,
];

fn users(alloc: Global) -> Result<Schema, Fail>
    ensures { IfOk result (λ schema. IsSpellable schema) }
{
    let mut objects = List::new(alloc);
    objects.push(ObjectType {
        name: Name::of(alloc, b"user")?,
        rule: ObjectRule::Directly,
        line: 3,
    })?;
    Ok(Schema {
        window: 100,
        objects,
        edges: List::new(alloc),
    })
}

// The length of the history that is found over this journal and a blank vault.
fn opened(alloc: Global, journal: &[u8]) -> Result<Result<u32, OpenFault>, Fail> {
    let rules = Rules::of(alloc, &users(alloc)?)?;
    let graph = ListGraph::empty(alloc, &rules)?;
    let journal = Bytes::of(alloc, journal)?;
    let vault = Bytes::of(alloc, b"")?;
    let fails = Numbers::of(alloc, &[])?;
    let disk = MemDisk::of(alloc, journal, vault, fails)?;
    match open_book(alloc, rules, graph, disk) {
        Ok(book) => Ok(Ok(book.len())),
        Err((fault, _)) => Ok(Err(fault)),
    }
}

fn bad(at: u64) -> OpenFault {
    OpenFault::BadStore {
        area: Area::Journal,
        at,
    }
}

#[test]
fn a_journal_is_opened_or_bad_at_its_place(rt: HostRuntime) -> Result<(), Fail> {
    let alloc = rt.alloc();
    assert_eq!(rt; opened(alloc, b"")?, Ok(0));
    assert_eq!(rt; opened(alloc, &CREATED)?, Ok(1));
    assert_eq!(rt; opened(alloc, b"0123456789")?, Err(bad(0)));
    assert_eq!(rt; opened(alloc, &CREATED[..42])?, Err(bad(8)));
    Ok(())
}
