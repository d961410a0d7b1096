//! The step that comes next, with held steps passed over.
ghost use Rattle.std.specs.Prelude.{◌≡◌, ℕ, true, Some, [], None, IsTrue};
ghost use Rattle.delf_model.specs.State.{State};
ghost use Rattle.delf_model.specs.Order.{is_step};
ghost use Rattle.delf_model.specs.Sound.{FirstIsLegal};
ghost use Rattle.job_table.specs.Table.{IsTableOf, IsGraphOf};
ghost use Rattle.job_table.specs.Next.{step_of, IsSerial, IsFreeNext, IsFirstHeld};
ghost use Rattle.job_table.specs.Apart.{are_apart};
ghost use Rattle.job_table.specs.Free.{free_among};

use crate::free::free_step;
use crate::table::JobTable;
use delf_model::{EdgeNo, GraphStore, Job, Moment, ObjectId, Rules, What};

/// What is to be done next.
#[derive(Clone, Copy, PartialEq, Eq, Debug)]
pub enum Next {
    /// The object is due.
    Expire {
        id: ObjectId,
    },
    /// The job takes this edge of an object that it owns.
    Cut {
        job: Job,
        edge: EdgeNo,
        from: ObjectId,
        to: ObjectId,
    },
    /// The job takes this object, which no edge touches any more.
    Erase {
        job: Job,
        id: ObjectId,
    },
    /// The restored job puts this item back, or lists it.
    Put {
        job: Job,
        item: u32,
    },
    /// The window of the job is over.
    Purge {
        job: Job,
    },
    /// No step is legal.
    Idle,
    /// A step is legal, and each legal step is held; so many steps are.
    Held {
        n: u32,
    },
}

/// The answer that names this step.
fn next_of(step: &What) -> Next
    ensures step { is_step step.now ≡ true → step_of result ≡ Some step.now }
    ensures named { (n : ℕ) → result ≡ Next.Held n → ⊥ }
{
    match step {
        What::Expire { id } => Next::Expire { id: *id },
        What::Cut {
            job,
            edge,
            from,
            to,
        } => Next::Cut {
            job: *job,
            edge: *edge,
            from: *from,
            to: *to,
        },
        What::Erase { job, id } => Next::Erase { job: *job, id: *id },
        What::Put { job, item } => Next::Put {
            job: *job,
            item: *item,
        },
        What::Purge { job } => Next::Purge { job: *job },
        _ => Next::Idle,
    }
}

impl JobTable {
    /// The step that comes next at this moment: where no step is held the first of the serial order, else a legal step
    /// that is not held. `Idle` where no step is legal, `Held` where every legal step is held. Takes no memory.
    pub fn next<G: GraphStore>(&self, graph: &G, rules: &Rules, moment: Moment) -> Next
        ensures serial { (s : State) → IsTableOf s self.now → IsGraphOf s (G.graph graph.now) (G.counts graph.now) rules.now → self.now.held ≡ [] → IsSerial s moment result }
        ensures free { (s : State) → IsTableOf s self.now → IsGraphOf s (G.graph graph.now) (G.counts graph.now) rules.now → FirstIsLegal s moment → IsFreeNext s moment self.now.held result }
    {
        match self.first(graph, rules, moment) {
            None => Next::Idle,
            Some(step) => {
                if self.claims.is_held(&step) {
                    return self.next_free(graph, rules, moment);
                }
                next_of(&step)
            }
        }
    }

    /// A legal step that is not held, where the first legal step is held.
    fn next_free<G: GraphStore>(&self, graph: &G, rules: &Rules, moment: Moment) -> Next
        ensures { (s : State) → IsTableOf s self.now → IsGraphOf s (G.graph graph.now) (G.counts graph.now) rules.now → IsFirstHeld s moment self.now.held → IsFreeNext s moment self.now.held result }
    {
        match self.free_erasure(graph) {
            Some(step) => next_of(&step),
            None => match self.first_expiry(graph, moment) {
                Some(step) => next_of(&step),
                None => match self.first_purge(rules.window(), moment) {
                    Some(step) => next_of(&step),
                    None => Next::Held { n: self.held() },
                },
            },
        }
    }

    /// A Cut or Erase that some job may make and that is not held. An owned object is passed only where each step that
    /// takes an edge of it, or it, is held, and a held step touches two objects at most: so no more than twice as many
    /// objects are looked at as steps are held, and one.
    fn free_erasure<G: GraphStore>(&self, graph: &G) -> Option<What>
        ensures value { result ≡ free_among (G.graph graph.now) self.now.held self.now.owners }
        ensures apart { IsTrue (are_apart self.now.owners) }
    {
        let mut i = 0;
        'pairs: loop {
            match self.owners.at(i) {
                None => return None,
                Some(pair) => {
                    let step = free_step(&self.claims, graph, pair.1, pair.0);
                    if step.is_some() {
                        return step;
                    }
                    i += 1;
                }
            }
        }
    }
}
