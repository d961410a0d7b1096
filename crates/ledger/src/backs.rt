//! Which position an entry puts back.
ghost use Rattle.std.specs.Prelude.{◌≡◌};
ghost use Rattle.delf_model.specs.State.{State};
ghost use Rattle.job_table.specs.Table.{IsTableOf};
ghost use Rattle.ledger.specs.Ledgers.{position_back as position_back_of, position_of_put};

use delf_model::{GraphStore, Item, What};
use job_table::JobTable;
use restorer::judge_put;

/// The position of the payload that an entry of this kind puts back.
pub(crate) fn position_back<G: GraphStore>(graph: &G, jobs: &JobTable, what: &What) -> Option<u32>
    ensures { (s : State) → IsTableOf s jobs.now → G.graph graph.now ≡ s.graph → result ≡ position_back_of s what.now }
{
    match what {
        What::Put { item, .. } => put_position(graph, jobs, jobs.item_at(*item)),
        What::Create { .. } => None,
        What::Update { .. } => None,
        What::Link { .. } => None,
        What::Unlink { .. } => None,
        What::Delete { .. } => None,
        What::Restore { .. } => None,
        What::Expire { .. } => None,
        What::Cut { .. } => None,
        What::Erase { .. } => None,
        What::Purge { .. } => None,
    }
}

/// The position of the payload that a put of this item puts back.
fn put_position<G: GraphStore>(graph: &G, jobs: &JobTable, item: Option<Item>) -> Option<u32>
    ensures { (s : State) → IsTableOf s jobs.now → G.graph graph.now ≡ s.graph → result ≡ position_of_put s item }
{
    match item {
        Some(item) => {
            if judge_put(graph, jobs, &item).is_none() {
                Some(item.position())
            } else {
                None
            }
        }
        None => None,
    }
}
