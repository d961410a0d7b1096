//! That the graph of the program answers without a look at each row.
ghost use Rattle.std.specs.Prelude.{◌≡◌, ◌<◌, ◌≤◌, ◌+◌, [], length, IfOk};
ghost use Rattle.delf_model.specs.Checked.{IsSpellable};
ghost use Rattle.live_graph.specs.ShardGraph.{graph_of};

use delf_model::{
    EdgeKey, EdgeNo, EdgeRow, EdgeRule, EdgeType, GraphStore, List, Name, ObjectId, ObjectRow,
    ObjectRule, ObjectType, Rules, Schema, TypeNo,
};
use live_graph::ShardGraph;
use std::alloc::Global;
use std::test::Fail;

const PAGES: u32 = 300_000;

// Pages refer to pages.
fn pages(alloc: Global) -> Result<Schema, Fail>
    ensures { IfOk result (λ schema. IsSpellable schema) }
{
    let mut objects = List::new(alloc);
    objects.push(ObjectType {
        name: Name::of(alloc, b"page")?,
        rule: ObjectRule::Directly,
        line: 3,
    })?;
    let mut edges = List::new(alloc);
    edges.push(EdgeType {
        name: Name::of(alloc, b"refs")?,
        from: Name::of(alloc, b"page")?,
        to: Name::of(alloc, b"page")?,
        rule: EdgeRule::Refcount,
        line: 4,
    })?;
    Ok(Schema {
        window: 100,
        objects,
        edges,
    })
}

fn id(n: u32) -> Result<ObjectId, Fail> {
    Ok(ObjectId::new(n as u64).ok_or("no id")?)
}

// The reference of a page to another.
fn reference(from: ObjectId, to: ObjectId) -> EdgeRow
    ensures from { result.key.from ≡ from }
    ensures to { result.key.to ≡ to }
{
    EdgeRow {
        key: EdgeKey {
            edge: EdgeNo(0),
            from,
            to,
        },
        birth: 7,
        size: 0,
    }
}

fn page(n: u32) -> Result<ObjectRow, Fail> {
    Ok(ObjectRow {
        id: id(n)?,
        kind: TypeNo(0),
        birth: n,
        due: 0,
        at: n,
        size: 0,
    })
}

fn add_page(graph: &mut ShardGraph, row: ObjectRow) -> Result<(), Fail>
    ensures { (graph_of graph.new).edges ≡ (graph_of graph.old).edges }
{
    if graph.object(row.id).is_some() {
        return Err(Fail::from("a page twice"));
    }
    graph.ready_object(row.id)?;
    graph.put_object(row);
    Ok(())
}

fn add_reference<G: GraphStore>(graph: &mut G, from: ObjectId, to: ObjectId) -> Result<(), Fail>
    requires { length (G.graph graph.old).edges < 4294967295 }
    ensures { length (G.graph graph.new).edges ≤ length (G.graph graph.old).edges + 1 }
{
    if graph.object(from).is_none() || graph.object(to).is_none() {
        return Err(Fail::from("a page is missing"));
    }
    let row = reference(from, to);
    if graph.edge(row.key).is_some() {
        return Err(Fail::from("a reference twice"));
    }
    graph.ready_edge(row.key)?;
    graph.put_edge(row);
    Ok(())
}

// All pages.
fn paged(alloc: Global) -> Result<ShardGraph, Fail>
    ensures { IfOk result (λ graph. (graph_of graph).edges ≡ []) }
{
    let rules = Rules::of(alloc, &pages(alloc)?)?;
    let mut graph = ShardGraph::empty(alloc, &rules)?;
    for n in 1..PAGES + 1 {
        add_page(&mut graph, page(n)?)?;
    }
    Ok(graph)
}

// All pages in a row, each but the last with a reference to the next.
fn chained(alloc: Global) -> Result<ShardGraph, Fail> {
    let mut graph = paged(alloc)?;
    for n in 1..PAGES {
        add_reference(&mut graph, id(n)?, id(n + 1)?)?;
    }
    Ok(graph)
}

#[test]
fn a_long_chain_is_asked_about_each_page(rt: HostRuntime) -> Result<(), Fail> {
    let graph = chained(rt.alloc())?;
    for n in 1..PAGES + 1 {
        let page_id = id(n)?;
        assert_eq!(rt; graph.object(page_id), Some(page(n)?));
        if n < PAGES {
            let out = reference(page_id, id(n + 1)?);
            assert_eq!(rt; graph.out_at(page_id, 0), Some(out));
        } else {
            assert!(rt; graph.out_at(page_id, 0).is_none());
        }
        if n > 1 {
            let into = reference(id(n - 1)?, page_id);
            assert_eq!(rt; graph.in_at(page_id, 0), Some(into));
        } else {
            assert!(rt; graph.in_at(page_id, 0).is_none());
        }
        assert_eq!(rt; graph.ref_count(page_id), if 1 < n { 1 } else { 0 });
    }
    Ok(())
}
