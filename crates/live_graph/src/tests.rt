//! Each call of a store once, through the trait, where there is memory.
ghost use Rattle.std.specs.Prelude.{IfOk};
ghost use Rattle.delf_model.specs.Checked.{IsSpellable};

use crate::ListGraph;
use delf_model::{
    EdgeKey, EdgeNo, EdgeRow, EdgeRule, EdgeType, GraphStore, List, Name, ObjectId, ObjectRow,
    ObjectRule, ObjectType, Rules, Schema, TypeNo,
};
use std::alloc::Global;
use std::test::Fail;

// users, whose links to users are deep by one type and refcount by another
fn users(alloc: Global) -> Result<Schema, Fail>
    ensures { IfOk result (λ schema. IsSpellable schema) }
{
    let mut objects = List::new(alloc);
    objects.push(ObjectType {
        name: Name::of(alloc, b"user")?,
        rule: ObjectRule::Directly,
        line: 3,
    })?;
    let mut edges = List::new(alloc);
    edges.push(EdgeType {
        name: Name::of(alloc, b"owns")?,
        from: Name::of(alloc, b"user")?,
        to: Name::of(alloc, b"user")?,
        rule: EdgeRule::Deep,
        line: 4,
    })?;
    edges.push(EdgeType {
        name: Name::of(alloc, b"uses")?,
        from: Name::of(alloc, b"user")?,
        to: Name::of(alloc, b"user")?,
        rule: EdgeRule::Refcount,
        line: 5,
    })?;
    Ok(Schema {
        window: 100,
        objects,
        edges,
    })
}

fn id(n: u64) -> Result<ObjectId, Fail> {
    Ok(ObjectId::new(n).ok_or("no id")?)
}

fn key(edge: u8, from: u64, to: u64) -> Result<EdgeKey, Fail> {
    Ok(EdgeKey {
        edge: EdgeNo(edge),
        from: id(from)?,
        to: id(to)?,
    })
}

fn add_object<G: GraphStore>(graph: &mut G, id: ObjectId, due: u64) -> Result<(), Fail> {
    if graph.object(id).is_some() {
        return Ok(());
    }
    graph.ready_object(id)?;
    graph.put_object(ObjectRow {
        id,
        kind: TypeNo(0),
        birth: 7,
        due,
        at: 7,
        size: 0,
    });
    Ok(())
}

fn add_edge<G: GraphStore>(alloc: Global, graph: &mut G, key: EdgeKey) -> Result<(), Fail> {
    if graph.edge(key).is_some() || graph.edges(alloc)?.len() >= 9 {
        return Ok(());
    }
    if graph.object(key.from).is_none() || graph.object(key.to).is_none() {
        return Ok(());
    }
    graph.ready_edge(key)?;
    graph.put_edge(EdgeRow {
        key,
        birth: 8,
        size: 0,
    });
    Ok(())
}

// 5 uses and owns 2
fn linked(alloc: Global) -> Result<ListGraph, Fail> {
    let rules = Rules::of(alloc, &users(alloc)?)?;
    let mut graph = ListGraph::empty(alloc, &rules)?;
    add_object(&mut graph, id(5)?, 0)?;
    add_object(&mut graph, id(2)?, 50)?;
    add_edge(alloc, &mut graph, key(1, 5, 2)?)?;
    add_edge(alloc, &mut graph, key(0, 5, 2)?)?;
    Ok(graph)
}

#[test]
fn edges_are_found_and_counted(rt: HostRuntime) -> Result<(), Fail> {
    let graph = linked(rt.alloc())?;
    let second = graph.out_at(id(5)?, 1).ok_or("one edge")?;
    assert_eq!(rt; second.key.edge.0, 1);
    let first = graph.in_at(id(2)?, 0).ok_or("no edge")?;
    assert_eq!(rt; first.key.edge.0, 0);
    assert_eq!(rt; graph.ref_count(id(2)?), 1);
    Ok(())
}

#[test]
fn the_first_due_is_found(rt: HostRuntime) -> Result<(), Fail> {
    let graph = linked(rt.alloc())?;
    let due = graph.next_due(50, None).ok_or("none due")?;
    assert_eq!(rt; due.get(), 2);
    assert!(rt; graph.next_due(49, None).is_none());
    Ok(())
}
