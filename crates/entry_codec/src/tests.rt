//! Heads of entries and items, spelled byte by byte and read back.
ghost use Rattle.std.specs.Prelude.{◌<◌, ◌≤◌, ◌^◌};
ghost use Rattle.entry_codec.specs.EntryHead.{IsBounded};
ghost use Rattle.entry_codec.specs.ItemHead.{item_size, IsTypeBounded};

use super::*;
use delf_model::{
    EdgeKey, EdgeNo, EdgeRow, Entry, Item, Job, ObjectId, ObjectRow, Tag, TypeNo, What,
};
use std::process::Abort;

fn id(rt: &impl Abort, n: u64) -> ObjectId {
    ObjectId::new(n).expect(rt, "1 to 999,999,999,999")
}

/// The entry is read from its head as it was written, and not from a byte less or more, nor with a larger payload.
fn reads_back(rt: &impl Abort, entry: &Entry, size: u64)
    requires moment { entry.now.moment ≤ LAST_MOMENT }
    requires bounded { IsBounded entry.now.what }
    requires size { size ≤ 512 }
{
    let mut out = [0; 128];
    let len = write_entry(entry, &mut out) as usize;
    assert!(rt; len > 0);
    assert_eq!(rt; read_entry(&out[..len], size).as_ref(), Some(entry));
    assert_eq!(rt; read_entry(&out[..len - 1], size), None);
    assert_eq!(rt; read_entry(&out[..len + 1], size), None);
    assert_eq!(rt; read_entry(&out[..len], 513), None);
}

#[test]
fn spells_the_first_entry(rt: HostRuntime) {
    let what = What::Create {
        tag: Tag { seat: 0, k: 0 },
        kind: TypeNo(0),
        id: id(&rt, 1),
        size: 1,
    };
    let mut out = [0xff; 128];
    let len = write_entry(&Entry { moment: 0, what }, &mut out) as usize;
    let head = [
        0, 0, 0, 0, 0, 0, 0, 0, 1, 0, 0, 0, 0, 0, 0, 0, 0, 0, 0, 0, 0, 0, 0, 0, 0, 1,
    ];
    assert_eq!(rt; out[..len], head[..]);
}

#[test]
fn spells_the_last_edge_type(rt: HostRuntime) {
    let what = What::Link {
        tag: Tag { seat: 0, k: 1 },
        edge: EdgeNo(255),
        from: id(&rt, 1),
        to: id(&rt, 2),
        size: 0,
    };
    let entry = Entry { moment: 0, what };
    let mut out = [0xff; 128];
    let len = write_entry(&entry, &mut out) as usize;
    let head = [
        0, 0, 0, 0, 0, 0, 0, 0, 3, 0, 0, 0, 0, 0, 0, 0, 1, 255, 0, 0, 0, 0, 0, 0, 0, 1, 0, 0, 0, 0,
        0, 0, 0, 2,
    ];
    assert_eq!(rt; out[..len], head[..]);
    reads_back(&rt, &entry, 0);
}

#[test]
fn reads_each_kind_back(rt: HostRuntime) {
    let low = id(&rt, 1);
    let high = id(&rt, 999_999_999_999);
    let tag = Tag {
        seat: u32::MAX,
        k: 7,
    };
    let edge = EdgeNo(255);
    let job = Job(u32::MAX);
    let moment = 999_999_999_999;
    let kind = TypeNo(63);
    let what = What::Create {
        tag,
        kind,
        id: high,
        size: 512,
    };
    reads_back(&rt, &Entry { moment, what }, 512);
    let what = What::Update {
        tag,
        id: low,
        size: 0,
    };
    reads_back(&rt, &Entry { moment: 0, what }, 0);
    let what = What::Link {
        tag,
        edge,
        from: low,
        to: high,
        size: 512,
    };
    reads_back(&rt, &Entry { moment, what }, 512);
    let what = What::Unlink {
        tag,
        edge,
        from: high,
        to: low,
        name: 0x0102_0304,
    };
    reads_back(&rt, &Entry { moment, what }, 0);
    let what = What::Delete {
        tag,
        id: high,
        name: u32::MAX,
    };
    reads_back(&rt, &Entry { moment, what }, 0);
    let what = What::Restore { tag, job };
    reads_back(&rt, &Entry { moment, what }, 0);
    let what = What::Expire { id: high };
    reads_back(&rt, &Entry { moment, what }, 0);
    let what = What::Cut {
        job,
        edge,
        from: low,
        to: high,
    };
    reads_back(&rt, &Entry { moment, what }, 0);
    let what = What::Erase { job, id: low };
    reads_back(&rt, &Entry { moment, what }, 0);
    let what = What::Put { job, item: 5 };
    let put = Entry { moment, what };
    reads_back(&rt, &put, 0);
    reads_back(&rt, &put, 512);
    let what = What::Purge { job };
    reads_back(&rt, &Entry { moment, what }, 0);
}

#[test]
fn refuses_what_is_out_of_bounds(rt: HostRuntime) {
    for (moment, kind, number, found) in [
        (0, 7, 1, true),
        (999_999_999_999, 7, 999_999_999_999, true),
        (1_000_000_000_000, 7, 1, false),
        (0, 7, 0, false),
        (0, 7, 1_000_000_000_000, false),
        (0, 7, u64::MAX, false),
        (0, 0, 1, false),
        (0, 12, 1, false),
        (0, 255, 1, false),
    ] {
        let mut head = [0; 17];
        head[..8].copy_from_slice(&u64::to_be_bytes(moment));
        head[8] = kind;
        head[9..].copy_from_slice(&u64::to_be_bytes(number));
        assert_eq!(rt; read_entry(&head, 0).is_some(), found);
        assert_eq!(rt; read_entry(&head, 1), None);
    }
}

#[test]
fn refuses_object_types_from_64_on(rt: HostRuntime) {
    for (kind, number, found) in [(1, 63, true), (1, 64, false), (1, 255, false)] {
        let mut head = [0; 26];
        head[8] = kind;
        head[17] = number;
        head[25] = 1;
        assert_eq!(rt; read_entry(&head, 512).is_some(), found);
    }
}

/// The item is read from its head as it was written, and not from a byte less or more, nor with another payload.
fn reads_item_back(rt: &impl Abort, item: &Item, digest: &[u8; 32], size: u64)
    requires types { IsTypeBounded item.now }
    requires size { item_size item.now ≤ LARGEST_PAYLOAD }
    requires payload { size < 2 ^ 16 }
{
    let mut out = [0; 128];
    let len = write_item(item, digest, &mut out) as usize;
    assert!(rt; len > 0);
    let found = read_item(&out[..len], size);
    assert_eq!(rt; found.as_ref().map(|found| &found.0), Some(item));
    assert_eq!(rt; found.map(|found| found.1), Some(*digest));
    assert_eq!(rt; read_item(&out[..len - 1], size), None);
    assert_eq!(rt; read_item(&out[..len + 1], size), None);
    assert_eq!(rt; read_item(&out[..len], size + 1).is_some(), size < 512);
    out[0] = 3;
    assert_eq!(rt; read_item(&out[..len], size), None);
}

/// The head of the item is these bytes and the digest.
fn spells_item(rt: &impl Abort, item: &Item, digest: &[u8; 32], fields: &[u8])
    requires types { IsTypeBounded item.now }
    requires size { item_size item.now ≤ LARGEST_PAYLOAD }
{
    let mut out = [0xff; 128];
    let len = write_item(item, digest, &mut out) as usize;
    assert!(rt; len >= 32);
    assert_eq!(rt; out[..len - 32], fields[..]);
    assert_eq!(rt; out[len - 32..len], digest[..]);
}

#[test]
fn spells_the_first_items(rt: HostRuntime) {
    let key = EdgeKey {
        edge: EdgeNo(0),
        from: id(&rt, 1),
        to: id(&rt, 2),
    };
    let edge = Item::Edge {
        job: Job(3),
        row: EdgeRow {
            key,
            birth: 2,
            size: 0,
        },
        from_birth: 0,
        to_birth: 1,
    };
    let digest = [
        0xe3, 0xb0, 0xc4, 0x42, 0x98, 0xfc, 0x1c, 0x14, 0x9a, 0xfb, 0xf4, 0xc8, 0x99, 0x6f, 0xb9,
        0x24, 0x27, 0xae, 0x41, 0xe4, 0x64, 0x9b, 0x93, 0x4c, 0xa4, 0x95, 0x99, 0x1b, 0x78, 0x52,
        0xb8, 0x55,
    ];
    let head = [
        2, 0, 0, 0, 3, 0, 0, 0, 0, 0, 0, 0, 0, 1, 0, 0, 0, 0, 0, 0, 0, 2, 0, 0, 0, 2, 0, 0, 0, 0,
        0, 0, 0, 1,
    ];
    spells_item(&rt, &edge, &digest, &head);
    reads_item_back(&rt, &edge, &digest, 0);
    let row = ObjectRow {
        id: id(&rt, 1),
        kind: TypeNo(0),
        birth: 0,
        due: 0,
        at: 0,
        size: 1,
    };
    let object = Item::Object { job: Job(3), row };
    let digest = [
        0xca, 0x97, 0x81, 0x12, 0xca, 0x1b, 0xbd, 0xca, 0xfa, 0xc2, 0x31, 0xb3, 0x9a, 0x23, 0xdc,
        0x4d, 0xa7, 0x86, 0xef, 0xf8, 0x14, 0x7c, 0x4e, 0x72, 0xb9, 0x80, 0x77, 0x85, 0xaf, 0xee,
        0x48, 0xbb,
    ];
    let head = [
        1, 0, 0, 0, 3, 0, 0, 0, 0, 0, 0, 0, 1, 0, 0, 0, 0, 0, 0, 0, 0, 0, 0, 0, 0, 0, 0, 0, 0, 0,
    ];
    spells_item(&rt, &object, &digest, &head);
    reads_item_back(&rt, &object, &digest, 1);
}

#[test]
fn reads_a_due_past_the_greatest_moment(rt: HostRuntime) {
    let row = ObjectRow {
        id: id(&rt, 999_999_999_999),
        kind: TypeNo(63),
        birth: u32::MAX,
        due: u64::MAX,
        at: 0x0102_0304,
        size: 512,
    };
    let job = Job(0x0102_0304);
    reads_item_back(&rt, &Item::Object { job, row }, &[0xee; 32], 512);
}
