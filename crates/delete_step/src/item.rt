//! Which item a step logs.
ghost use Rattle.std.specs.Prelude.{◌≡◌};
ghost use Rattle.delf_model.specs.Graph.{edge_at, object_at};
ghost use Rattle.delf_model.specs.Step.{edge_item as item_of_row, object_item};
ghost use Rattle.delete_step.specs.Logging.{logged_by, first_item};

use delf_model::{EdgeKey, GraphStore, Item, Job, ObjectId, What};
use job_table::edge_item;

/// The item that a Cut or Erase logs: the row that it erases, and of an edge the births of both ends. None exactly
/// where the step is another, or the row is not in the graph. Takes no memory.
pub fn item_of<G: GraphStore>(graph: &G, step: &What) -> Option<Item>
    ensures { result ≡ first_item (logged_by (G.graph graph.now) step.now) }
{
    match step {
        What::Cut {
            job,
            edge,
            from,
            to,
        } => {
            let key = EdgeKey {
                edge: *edge,
                from: *from,
                to: *to,
            };
            item_of_edge(graph, *job, key)
        }
        What::Erase { job, id } => item_of_object(graph, *job, *id),
        What::Create { .. }
        | What::Update { .. }
        | What::Link { .. }
        | What::Unlink { .. }
        | What::Delete { .. }
        | What::Restore { .. }
        | What::Expire { .. }
        | What::Put { .. }
        | What::Purge { .. } => None,
    }
}

fn item_of_object<G: GraphStore>(graph: &G, job: Job, id: ObjectId) -> Option<Item>
    ensures { result ≡ first_item (object_item job (object_at (G.graph graph.now) id)) }
{
    let row = graph.object(id)?;
    Some(Item::Object { job, row })
}

fn item_of_edge<G: GraphStore>(graph: &G, job: Job, key: EdgeKey) -> Option<Item>
    ensures { result ≡ first_item (item_of_row (G.graph graph.now) job (edge_at (G.graph graph.now) key)) }
{
    let row = graph.edge(key)?;
    Some(edge_item(graph, job, &row))
}
