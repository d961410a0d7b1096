//! An index against a plain list that is scanned, and an object with many edges.
ghost use Rattle.std.specs.Prelude.{IfOk};
ghost use Rattle.delf_model.specs.Checked.{IsSpellable};

use crate::EdgeIndex;
use delf_model::{
    EdgeKey, EdgeNo, EdgeRow, EdgeRule, EdgeType, List, Name, ObjectId, ObjectRule, ObjectType,
    Rules, Schema,
};
use std::alloc::Global;
use std::process::Abort;
use std::test::Fail;

// users with links to users: one type deep, two refcount
fn users(alloc: Global) -> Result<Schema, Fail>
    ensures { IfOk result (λ schema. IsSpellable schema) }
{
    let mut objects = List::new(alloc);
    objects.push(ObjectType {
        name: Name::of(alloc, b"user")?,
        rule: ObjectRule::Directly,
        line: 3,
    })?;
    let mut edges = List::new(alloc);
    edges.push(link(alloc, b"owns", EdgeRule::Deep)?)?;
    edges.push(link(alloc, b"uses", EdgeRule::Refcount)?)?;
    edges.push(link(alloc, b"likes", EdgeRule::Refcount)?)?;
    Ok(Schema {
        window: 100,
        objects,
        edges,
    })
}

fn link(alloc: Global, name: &[u8], rule: EdgeRule) -> Result<EdgeType, Fail> {
    Ok(EdgeType {
        name: Name::of(alloc, name)?,
        from: Name::of(alloc, b"user")?,
        to: Name::of(alloc, b"user")?,
        rule,
        line: 4,
    })
}

fn id(n: u64) -> Result<ObjectId, Fail> {
    Ok(ObjectId::new(n).ok_or("no id")?)
}

fn key(edge: u8, from: u64, to: u64) -> Result<EdgeKey, Fail> {
    Ok(EdgeKey {
        edge: EdgeNo(edge),
        from: id(from)?,
        to: id(to)?,
    })
}

fn row(key: EdgeKey, birth: u32) -> EdgeRow {
    EdgeRow {
        key,
        birth,
        size: 3,
    }
}

fn started(alloc: Global) -> Result<EdgeIndex, Fail> {
    let rules = Rules::of(alloc, &users(alloc)?)?;
    Ok(EdgeIndex::empty(alloc, &rules)?)
}

// puts an edge whose key is free, in an index that is small
fn add(alloc: Global, index: &mut EdgeIndex, row: EdgeRow) -> Result<bool, Fail> {
    if index.edge(row.key).is_some() || index.edges(alloc)?.len() >= 9999 {
        return Ok(false);
    }
    index.ready_edge(row.key)?;
    index.put_edge(row);
    Ok(true)
}

fn is_ahead(a: &EdgeKey, b: &EdgeKey) -> bool {
    (a.edge, a.from, a.to) < (b.edge, b.from, b.to)
}

// the same, in a list that is scanned for every question
fn add_plain(rows: &mut Vec<EdgeRow>, row: EdgeRow) -> Result<(), Fail> {
    let place = rows.iter().filter(|x| is_ahead(&x.key, &row.key)).count();
    if place <= rows.len() {
        rows.insert(place, row)?;
    }
    Ok(())
}

// the answers about one object, at each place and one past the last
fn same_answers(
    rt: &impl Abort,
    index: &EdgeIndex,
    rows: &[EdgeRow],
    id: ObjectId,
) -> Result<(), Fail> {
    let uses = rows
        .iter()
        .filter(|x| x.key.to == id && x.key.edge.0 > 0)
        .count();
    assert_eq!(rt; index.ref_count(id) as usize, uses);
    for i in 0..20u32 {
        let out = rows.iter().filter(|x| x.key.from == id).nth(i as usize);
        assert_eq!(rt; index.out_at(id, i), out.copied());
        let into = rows.iter().filter(|x| x.key.to == id).nth(i as usize);
        assert_eq!(rt; index.in_at(id, i), into.copied());
    }
    Ok(())
}

#[test]
fn drawn_calls_answer_as_a_plain_list_does(rt: HostRuntime) -> Result<(), Fail> {
    let alloc = rt.alloc();
    let mut index = started(alloc)?;
    let mut rows: Vec<EdgeRow> = Vec::new(alloc);
    let mut seed = 7u64;
    for turn in 0..300u32 {
        seed = seed
            .wrapping_mul(6364136223846793005)
            .wrapping_add(1442695040888963407);
        let draw = seed >> 40;
        let key = key((draw % 3) as u8, 1 + draw / 3 % 5, 1 + draw / 15 % 5)?;
        if draw / 75 % 3 > 0 {
            if add(alloc, &mut index, row(key, turn))? {
                add_plain(&mut rows, row(key, turn))?;
            }
        } else {
            let found = rows.iter().find(|x| x.key == key).copied();
            assert_eq!(rt; index.edge(key), found);
            assert_eq!(rt; index.take_edge(key), found);
            rows.retain(|x| x.key != key);
        }
        same_answers(&rt, &index, &rows, key.from)?;
        same_answers(&rt, &index, &rows, key.to)?;
        assert_eq!(rt; index.edges(alloc)?.as_slice(), rows.as_slice());
    }
    assert!(rt; rows.len() > 9);
    Ok(())
}

#[test]
fn an_object_with_many_edges_loses_them_from_the_first(rt: HostRuntime) -> Result<(), Fail> {
    let alloc = rt.alloc();
    let mut index = started(alloc)?;
    for to in 0..600u64 {
        add(alloc, &mut index, row(key(1, 9, 1 + to * 7919 % 600)?, 5))?;
    }
    for to in 0..600u64 {
        let first = index.out_at(id(9)?, 0).ok_or("no edge")?;
        assert_eq!(rt; first.key.to.get(), to + 1);
        assert!(rt; index.take_edge(first.key).is_some());
    }
    assert!(rt; index.out_at(id(9)?, 0).is_none());
    assert_eq!(rt; index.ref_count(id(9)?), 0);
    Ok(())
}
