//! Whether the row of an item can be put back: the one place of this rule.
ghost use Rattle.std.specs.Prelude.{◌≡◌};
ghost use Rattle.std.specs.Option.{option_or};
ghost use Rattle.delf_model.specs.Graph.{edge_at, stands};
ghost use Rattle.delf_model.specs.State.{State};
ghost use Rattle.delf_model.specs.Puts.{judged as judgement_of, end_cause, key_taken};
ghost use Rattle.job_table.specs.Table.{IsTableOf};

use crate::table::JobTable;
use delf_model::{Cause, EdgeRow, GraphStore, Item, ObjectId};

impl JobTable {
    /// The judgement of a put of this item: none where its row is put back, else the cause for which it is listed. Graph
    /// and table are those of one state. Takes no memory.
    pub fn judged<G: GraphStore>(&self, graph: &G, item: &Item) -> Option<Cause>
        ensures { (s : State) → IsTableOf s self.now → G.graph graph.now ≡ s.graph → result ≡ judgement_of s item.now }
    {
        match item {
            Item::Object { row, .. } => match graph.object(row.id) {
                Some(found) => Some(Cause::Taken { birth: found.birth }),
                None => None,
            },
            Item::Edge {
                row,
                from_birth,
                to_birth,
                ..
            } => self.judged_edge(graph, row, *from_birth, *to_birth),
        }
    }

    fn judged_edge<G: GraphStore>(
        &self,
        graph: &G,
        row: &EdgeRow,
        from_birth: u32,
        to_birth: u32,
    ) -> Option<Cause>
        ensures { (s : State) → IsTableOf s self.now → G.graph graph.now ≡ s.graph → result ≡ option_or (end_cause s row.now.key.from from_birth) (option_or (end_cause s row.now.key.to to_birth) (key_taken (edge_at s.graph row.now.key))) }
    {
        if let Some(cause) = self.judged_end(graph, row.key.from, from_birth) {
            return Some(cause);
        }
        if let Some(cause) = self.judged_end(graph, row.key.to, to_birth) {
            return Some(cause);
        }
        match graph.edge(row.key) {
            Some(found) => Some(Cause::KeyTaken { birth: found.birth }),
            None => None,
        }
    }

    fn judged_end<G: GraphStore>(&self, graph: &G, id: ObjectId, born: u32) -> Option<Cause>
        ensures { (s : State) → IsTableOf s self.now → G.graph graph.now ≡ s.graph → result ≡ end_cause s id born }
    {
        if !stands_born(graph, id, born) {
            return Some(Cause::EndMissing { id });
        }
        match self.owner(id) {
            Some(job) => Some(Cause::EndCondemned { id, job }),
            None => None,
        }
    }
}

fn stands_born<G: GraphStore>(graph: &G, id: ObjectId, born: u32) -> bool
    ensures { result ≡ stands (G.graph graph.now) id born }
{
    match graph.object(id) {
        Some(row) => row.birth == born,
        None => false,
    }
}
