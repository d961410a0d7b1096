//! The put of an erased row.
ghost use Rattle.std.specs.Prelude.{◌≡◌};
ghost use Rattle.delf_model.specs.Graph.{changed};
ghost use Rattle.delf_model.specs.Step.{put_of_item};
ghost use Rattle.restorer.specs.Putting.{IsPutBack, IsReady, HasPlace};

use delf_model::{GraphStore, Item};

/// Puts the row of an item back, with the id, births and payload position that it had. Takes no memory.
pub fn put_item<G: GraphStore>(graph: &mut G, item: &Item)
    requires judged { IsPutBack (G.graph graph.old) item.now }
    requires ready { IsReady (G.is_ready_object graph.old) (G.is_ready_edge graph.old) item.now }
    requires place { HasPlace (G.graph graph.old) item.now }
    ensures graph { G.graph graph.new ≡ changed (G.graph graph.old) (put_of_item item.now) }
    ensures counts { G.counts graph.new ≡ G.counts graph.old }
{
    match item {
        Item::Object { row, .. } => graph.put_object(*row),
        Item::Edge { row, .. } => graph.put_edge(*row),
    }
}
