//! The first step of the serial order.
ghost use Rattle.std.specs.Prelude.{◌≡◌, ◌<◌, ◌≤◌, ◌^◌, None, Some, ℕ, nat_lt, ◌+◌, find, false, slice_index_or, IsTrue};
ghost use Rattle.std.specs.List.{position};
ghost use Rattle.delf_model.specs.State.{State};
ghost use Rattle.std.specs.Option.{option_or};
ghost use Rattle.delf_model.specs.Room.{may_come as may_come_in};
ghost use Rattle.delf_model.specs.Order.{first_put as put_of_state, first_erasure as erasure_of_state, first_expiry as expiry_of_state, first_purge as purge_of_state, first_step, put_of as put_of_place, last_place, cut_or_erase as cut_or_erase_of};
ghost use Rattle.job_table.specs.Table.{IsTableOf, IsGraphOf};
ghost use Rattle.job_table.specs.Apart.{are_apart};
ghost use Rattle.job_table.specs.Items.{is_unhandled_of};
ghost use Rattle.delf_model.specs.Graph.{out_edges, in_edges};
ghost use Rattle.delf_model.specs.declared.entry.What.{What};
ghost use Rattle.job_table.specs.Serial.{left_in as left_of_row, purges_in};
ghost use Rattle.job_table.specs.Owning.{has_row, pairs_rise};
ghost use Rattle.job_table.specs.declared.jobs.Row.{Row as RowValue};

use crate::items::Items;
use crate::jobs::{Row, is_past};
use crate::owners::Owners;
use crate::table::JobTable;
use delf_model::{EdgeRow, GREATEST_MOMENT, GraphStore, Job, Moment, ObjectId, Rules, What};

/// How many items of the job are neither put back nor listed, where it has a Restore.
fn left(items: &Items, row: &Row) -> u32
    ensures { result ≡ left_of_row items.now.list row.now }
{
    match row.restored {
        Some(_) => items.unhandled(row.start),
        None => 0,
    }
}

fn is_over(owners: &Owners, items: &Items, window: u32, moment: Moment, row: &Row) -> bool
    ensures { result ≡ purges_in owners.now.list items.now.list window moment row.now }
{
    if row.purged {
        return false;
    }
    owners.owned(row.start) == 0
        && !row.purged
        && left(items, row) == 0
        && is_past(row.last.unwrap_or(0), window, moment)
}

/// The place of the first job that may be purged, where none in front of this place may.
fn place_to_purge(
    rows: &[Row],
    owners: &Owners,
    items: &Items,
    front: usize,
    window: u32,
    moment: Moment,
) -> Option<usize>
    requires { (k : ℕ) (d : RowValue) → k < front → purges_in owners.now.list items.now.list window moment (slice_index_or rows.now k d) ≡ false }
    ensures { result ≡ position (purges_in owners.now.list items.now.list window moment) rows.now }
{
    let mut i = front;
    'rows: while i < rows.len() {
        if is_over(owners, items, window, moment, &rows[i]) {
            return Some(i);
        }
        i += 1;
    }
    None
}

/// The step that takes the first edge of the object, else the object itself.
fn cut_or_erase<G: GraphStore>(graph: &G, job: Job, id: ObjectId) -> What
    ensures { result ≡ cut_or_erase_of job id (out_edges (G.graph graph.now) id) (in_edges (G.graph graph.now) id) }
{
    match graph.out_at(id, 0) {
        Some(row) => cut(job, &row),
        None => match graph.in_at(id, 0) {
            Some(row) => cut(job, &row),
            None => What::Erase { job, id },
        },
    }
}

pub(crate) fn cut(job: Job, row: &EdgeRow) -> What
    ensures { result ≡ What.Cut job row.now.key.edge row.now.key.from row.now.key.to }
{
    What::Cut {
        job,
        edge: row.key.edge,
        from: row.key.from,
        to: row.key.to,
    }
}

impl JobTable {
    /// The first legal step of the serial order at this moment, whatever steps are held; None where no step is legal, as
    /// at a moment at which no entry may come. Takes no memory.
    pub fn first<G: GraphStore>(&self, graph: &G, rules: &Rules, moment: Moment) -> Option<What>
        ensures { (s : State) → IsTableOf s self.now → IsGraphOf s (G.graph graph.now) (G.counts graph.now) rules.now → result ≡ first_step s moment }
    {
        if !self.may_come(moment) {
            return None;
        }
        match self.first_put() {
            Some(step) => Some(step),
            None => self.first_but_put(graph, rules, moment),
        }
    }

    /// Whether an entry may come at this moment: not before the last one, and at most the greatest.
    pub fn may_come(&self, moment: Moment) -> bool
        ensures { (s : State) → IsTableOf s self.now → result ≡ may_come_in s moment }
    {
        self.moment() <= moment && moment <= GREATEST_MOMENT
    }

    fn first_but_put<G: GraphStore>(&self, graph: &G, rules: &Rules, moment: Moment) -> Option<What>
        ensures { (s : State) → IsTableOf s self.now → IsGraphOf s (G.graph graph.now) (G.counts graph.now) rules.now → result ≡ option_or (erasure_of_state s) (option_or (expiry_of_state s moment) (purge_of_state s moment)) }
    {
        match self.first_erasure(graph) {
            Some(step) => Some(step),
            None => match self.first_expiry(graph, moment) {
                Some(step) => Some(step),
                None => self.first_purge(rules.window(), moment),
            },
        }
    }

    fn first_put(&self) -> Option<What>
        ensures { (s : State) → IsTableOf s self.now → result ≡ put_of_state s }
    {
        match self.restoring.first() {
            Some(pair) => self.put_of(pair.0),
            None => None,
        }
    }

    fn put_of(&self, job: Job) -> Option<What>
        ensures { result ≡ put_of_place job (last_place (is_unhandled_of job) 0 self.now.items) }
    {
        match self.items.last_unhandled(job) {
            Some(item) => Some(What::Put { job, item }),
            None => None,
        }
    }

    fn first_erasure<G: GraphStore>(&self, graph: &G) -> Option<What>
        ensures { (s : State) → IsTableOf s self.now → G.graph graph.now ≡ s.graph → result ≡ erasure_of_state s }
    {
        match self.first_owned() {
            Some(pair) => Some(cut_or_erase(graph, pair.1, pair.0)),
            None => None,
        }
    }

    /// The least owned object of the oldest job that owns any, with that job. Each owner has a row, so the first look
    /// finds it.
    fn first_owned(&self) -> Option<(ObjectId, Job)>
        ensures value { result ≡ find (has_row self.now.jobs) self.now.owners }
        ensures rise { IsTrue (pairs_rise self.now.owners) }
        ensures apart { IsTrue (are_apart self.now.owners) }
    {
        let mut i = 0;
        'pairs: loop {
            match self.owners.at(i) {
                None => return None,
                Some(pair) => {
                    if self.jobs.row(pair.1).is_some() {
                        return Some(pair);
                    }
                    i += 1;
                }
            }
        }
    }

    pub(crate) fn first_purge(&self, window: u32, moment: Moment) -> Option<What>
        ensures { (s : State) → IsTableOf s self.now → window ≡ s.rules.window → result ≡ purge_of_state s moment }
    {
        if !self.jobs.has_waited(window, moment) {
            return None;
        }
        let rows = self.jobs.rows();
        let front = self.jobs.front();
        match place_to_purge(rows, &self.owners, &self.items, front, window, moment) {
            Some(i) => Some(What::Purge { job: rows[i].start }),
            None => None,
        }
    }

    pub(crate) fn first_expiry<G: GraphStore>(&self, graph: &G, moment: Moment) -> Option<What>
        ensures { (s : State) → IsTableOf s self.now → G.graph graph.now ≡ s.graph → result ≡ expiry_of_state s moment }
    {
        let mut after = None;
        let mut low = 0;
        'dues: loop {
            match graph.next_due(moment, after) {
                None => return None,
                Some(id) => {
                    if self.owner(id).is_none() {
                        return Some(What::Expire { id });
                    }
                    after = Some(id);
                    low = id.get();
                }
            }
        }
    }
}
