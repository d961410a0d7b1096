//! Whether an erased row may be put back.
ghost use Rattle.std.specs.Prelude.{◌≡◌};
ghost use Rattle.delf_model.specs.State.{State};
ghost use Rattle.delf_model.specs.Puts.{judged};
ghost use Rattle.job_table.specs.Table.{IsTableOf};

use delf_model::{Cause, GraphStore, Item};
use job_table::JobTable;

/// Why the item can't be put back now, where graph and table are those of one state; None exactly where it is put
/// back. Takes no memory.
pub fn judge_put<G: GraphStore>(graph: &G, jobs: &JobTable, item: &Item) -> Option<Cause>
    ensures { (s : State) → IsTableOf s jobs.now → G.graph graph.now ≡ s.graph → result ≡ judged s item.now }
{
    jobs.judged(graph, item)
}
