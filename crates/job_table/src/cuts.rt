//! The item that a cut logs: the one place of this rule.
ghost use Rattle.std.specs.Prelude.{◌≡◌, Some, IsTrue};
ghost use Rattle.delf_model.specs.declared.rows.EdgeRow.{EdgeRow};
ghost use Rattle.delf_model.specs.Graph.{edge_at, edge_stands};
ghost use Rattle.delf_model.specs.Step.{birth_of};

use delf_model::{EdgeKey, EdgeRow, GraphStore, Item, Job, ObjectId};

/// The item that a cut logs.
pub(crate) fn cut_item<G: GraphStore>(graph: &G, job: Job, key: &EdgeKey) -> Item
    requires { IsTrue (edge_stands (G.graph graph.now) key.now) }
    ensures { (row : EdgeRow) → edge_at (G.graph graph.now) key.now ≡ Some row → result ≡ Item.Edge job row (birth_of (G.graph graph.now) row.key.from) (birth_of (G.graph graph.now) row.key.to) }
{
    match graph.edge(*key) {
        Some(row) => edge_item(graph, job, &row),
        None => unreachable!(),
    }
}

/// The item of an edge that is cut: its row, with the births that both ends have in the graph. Takes no memory.
pub fn edge_item<G: GraphStore>(graph: &G, job: Job, row: &EdgeRow) -> Item
    ensures { result ≡ Item.Edge job row.now (birth_of (G.graph graph.now) row.now.key.from) (birth_of (G.graph graph.now) row.now.key.to) }
{
    Item::Edge {
        job,
        row: *row,
        from_birth: birth(graph, row.key.from),
        to_birth: birth(graph, row.key.to),
    }
}

fn birth<G: GraphStore>(graph: &G, id: ObjectId) -> u32
    ensures { result ≡ birth_of (G.graph graph.now) id }
{
    match graph.object(id) {
        Some(row) => row.birth,
        None => 0,
    }
}
