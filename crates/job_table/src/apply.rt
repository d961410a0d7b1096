//! How each kind of entry changes the table.
ghost use Rattle.std.specs.Prelude.{◌≡◌, ◌+◌, ◌-◌, ◌<◌, ◌≤◌, ◌++◌, ◌∷◌, [], true, false, cond, nat_eq, None, ℕ, ◌^◌, length, sum_by, Some, IsTrue, is_none, ◌&&◌};
ghost use Rattle.delf_model.specs.declared.entry.What.{What};
ghost use Rattle.delf_model.specs.declared.entry.Entry.{Entry};
ghost use Rattle.delf_model.specs.State.{State, owner, is_job};
ghost use Rattle.delf_model.specs.Step.{step};
ghost use Rattle.delf_model.specs.Legal.{is_legal};
ghost use Rattle.job_table.specs.Table.{IsTableOf, IsGraphOf, MayApply, owner_among, owned_among, starts_rise};
ghost use Rattle.job_table.specs.Owning.{Gains};
ghost use Rattle.job_table.specs.Parts.{handled_of};
ghost use Rattle.job_table.specs.Restoring.{AreRestoring};
ghost use Rattle.delf_model.specs.Step.{unhandled, handled_at};
ghost use Rattle.job_table.specs.Notes.{noted, noted_start, noted_restore, noted_purge, noted_item, noted_put, with_seat, weight_of, item_weight as weight_of_item, put_weight as weight_of_put, condemns_before};

use crate::cuts::cut_item;
use crate::items::{Handling, Items};
use crate::jobs::Jobs;
use crate::references::{condemns, takes_last_reference};
use crate::restoring::{Restoring, restoring_at};
use crate::seats::Seats;
use crate::table::JobTable;
use delf_model::{
    Cause, EdgeKey, Entry, GraphStore, Item, Job, JobName, Moment, ObjectId, ObjectRow, Rules, Tag,
    What,
};

impl JobTable {
    /// The entry is noted: the table then stands for the state after it. The graph is the one before the entry, the
    /// entry is legal, and spare is above 0. Takes no memory, and lowers spare by one.
    pub fn apply<G: GraphStore>(&mut self, graph: &G, rules: &Rules, entry: &Entry)
        requires legal { MayApply self.old (G.graph graph.now) (G.counts graph.now) rules.now entry.now }
        requires spare { 0 < self.old.spare }
        ensures table { (s : State) → IsTableOf s self.old → IsGraphOf s (G.graph graph.now) (G.counts graph.now) rules.now → is_legal s entry.now ≡ true → IsTableOf (step s entry.now) self.new }
        ensures held { self.new.held ≡ self.old.held }
        ensures spare { self.new.spare + 1 ≡ self.old.spare }
    {
        let moment = entry.moment;
        match &entry.what {
            What::Create { tag, .. } => self.note(moment, tag.seat, 3),
            What::Update { tag, .. } => self.note(moment, tag.seat, 0),
            What::Link { tag, .. } => self.note(moment, tag.seat, 1),
            What::Unlink {
                tag,
                edge,
                from,
                to,
                name,
            } => {
                let key = EdgeKey {
                    edge: *edge,
                    from: *from,
                    to: *to,
                };
                self.apply_unlink(graph, rules, entry, tag, &key, *name);
            }
            What::Delete { tag, id, name } => {
                self.note_start(moment, Some(tag.seat), *id, JobName::Named(*name), 1);
            }
            What::Restore { tag, job } => self.note_restore(moment, tag.seat, *job),
            What::Expire { id } => self.note_start(moment, None, *id, JobName::Expiry(*id), 1),
            What::Cut {
                job,
                edge,
                from,
                to,
            } => {
                let key = EdgeKey {
                    edge: *edge,
                    from: *from,
                    to: *to,
                };
                self.apply_cut(graph, rules, entry, *job, &key);
            }
            What::Erase { job, id } => self.apply_erase(graph, rules, entry, *job, *id),
            What::Put { job, item } => self.apply_put(graph, rules, entry, *job, *item),
            What::Purge { job } => self.note_purge(moment, *job),
        }
    }

    fn apply_unlink<G: GraphStore>(
        &mut self,
        graph: &G,
        rules: &Rules,
        entry: &Entry,
        tag: &Tag,
        key: &EdgeKey,
        name: u32,
    )
        requires is { entry.now.what ≡ What.Unlink tag.now key.now.edge key.now.from key.now.to name }
        requires legal { MayApply self.old (G.graph graph.now) (G.counts graph.now) rules.now entry.now }
        requires spare { 0 < self.old.spare }
        ensures table { (s : State) → IsTableOf s self.old → IsGraphOf s (G.graph graph.now) (G.counts graph.now) rules.now → is_legal s entry.now ≡ true → IsTableOf (step s entry.now) self.new }
        ensures held { self.new.held ≡ self.old.held }
        ensures spare { self.new.spare + 1 ≡ self.old.spare }
    {
        if takes_last_reference(graph, rules, key) {
            self.note_start(
                entry.moment,
                Some(tag.seat),
                key.to,
                JobName::Named(name),
                2,
            );
            return;
        }
        self.note_unlink(entry.moment, tag.seat);
    }

    fn apply_cut<G: GraphStore>(
        &mut self,
        graph: &G,
        rules: &Rules,
        entry: &Entry,
        job: Job,
        key: &EdgeKey,
    )
        requires is { entry.now.what ≡ What.Cut job key.now.edge key.now.from key.now.to }
        requires legal { MayApply self.old (G.graph graph.now) (G.counts graph.now) rules.now entry.now }
        requires spare { 0 < self.old.spare }
        ensures table { (s : State) → IsTableOf s self.old → IsGraphOf s (G.graph graph.now) (G.counts graph.now) rules.now → is_legal s entry.now ≡ true → IsTableOf (step s entry.now) self.new }
        ensures held { self.new.held ≡ self.old.held }
        ensures spare { self.new.spare + 1 ≡ self.old.spare }
    {
        let item = cut_item(graph, job, key);
        if self.passes(graph, rules, key) {
            self.note_passing(entry.moment, job, item, key.to);
            return;
        }
        self.note_item(entry.moment, job, item);
    }

    fn apply_erase<G: GraphStore>(
        &mut self,
        graph: &G,
        rules: &Rules,
        entry: &Entry,
        job: Job,
        id: ObjectId,
    )
        requires is { entry.now.what ≡ What.Erase job id }
        requires legal { MayApply self.old (G.graph graph.now) (G.counts graph.now) rules.now entry.now }
        requires spare { 0 < self.old.spare }
        ensures table { (s : State) → IsTableOf s self.old → IsGraphOf s (G.graph graph.now) (G.counts graph.now) rules.now → is_legal s entry.now ≡ true → IsTableOf (step s entry.now) self.new }
        ensures held { self.new.held ≡ self.old.held }
        ensures spare { self.new.spare + 1 ≡ self.old.spare }
    {
        match graph.object(id) {
            Some(row) => self.note_erase(entry.moment, job, &row, id),
            None => unreachable!(),
        }
    }

    fn apply_put<G: GraphStore>(
        &mut self,
        graph: &G,
        rules: &Rules,
        entry: &Entry,
        job: Job,
        i: u32,
    )
        requires is { entry.now.what ≡ What.Put job i }
        requires legal { MayApply self.old (G.graph graph.now) (G.counts graph.now) rules.now entry.now }
        requires spare { 0 < self.old.spare }
        ensures table { (s : State) → IsTableOf s self.old → IsGraphOf s (G.graph graph.now) (G.counts graph.now) rules.now → is_legal s entry.now ≡ true → IsTableOf (step s entry.now) self.new }
        ensures held { self.new.held ≡ self.old.held }
        ensures spare { self.new.spare + 1 ≡ self.old.spare }
    {
        match self.item_at(i) {
            Some(item) => {
                let cause = self.judged(graph, &item);
                self.note_put(entry.moment, i, &item, cause);
            }
            None => unreachable!(),
        }
    }

    fn note(&mut self, moment: Moment, seat: u32, more: u32)
        requires spare { 0 < self.old.spare }
        requires room { self.old.len + 1 + (self.old.owed + more) ≤ 500000 }
        ensures { self.new ≡ noted self.old moment (Some seat) (self.old.owed + more) }
    {
        self.seats.push(seat);
        self.len += 1;
        self.moment = moment;
        self.owed += more;
        self.spare -= 1;
    }

    fn note_unlink(&mut self, moment: Moment, seat: u32)
        requires spare { 0 < self.old.spare }
        requires owed { 1 ≤ self.old.owed }
        ensures { self.new ≡ noted self.old moment (Some seat) (self.old.owed - 1) }
    {
        self.seats.push(seat);
        self.len += 1;
        self.moment = moment;
        self.owed -= 1;
        self.spare -= 1;
    }

    fn note_start(
        &mut self,
        moment: Moment,
        seat: Option<u32>,
        root: ObjectId,
        name: JobName,
        less: u32,
    )
        requires spare { 0 < self.old.spare }
        requires some { 1 ≤ less }
        requires owed { less ≤ self.old.owed }
        requires free { owner_among self.old.owners root ≡ None }
        requires rise { IsTrue (starts_rise 0 self.old.len self.old.jobs) }
        ensures same { self.new ≡ record (noted_start self.old moment seat root name (self.old.owed - less)) { owners = self.new.owners } }
        ensures gains { Gains self.old.owners self.new.owners root self.old.len }
    {
        let start = Job(self.len);
        self.owners.own(root, start);
        self.jobs.start(start, root, name);
        note_seat(&mut self.seats, seat);
        self.len += 1;
        self.moment = moment;
        self.owed -= less;
        self.spare -= 1;
    }

    fn note_restore(&mut self, moment: Moment, seat: u32, job: Job)
        requires spare { 0 < self.old.spare }
        requires room { self.old.len + 1 + (self.old.owed + sum_by (weight_of job) self.old.items) ≤ 500000 }
        ensures { self.new ≡ noted_restore self.old moment (Some seat) job (self.old.owed + sum_by (weight_of job) self.old.items) }
    {
        let more = self.items.weight(job);
        let before = restoring_at(&self.jobs, &self.items, job);
        self.jobs.restore(job, self.len);
        let after = restoring_at(&self.jobs, &self.items, job);
        self.restoring.change(job, before, after);
        self.seats.push(seat);
        self.len += 1;
        self.moment = moment;
        self.owed += more;
        self.spare -= 1;
    }

    fn note_purge(&mut self, moment: Moment, job: Job)
        requires spare { 0 < self.old.spare }
        requires owed { 1 ≤ self.old.owed }
        ensures { self.new ≡ noted_purge self.old moment job (self.old.owed - 1) }
    {
        self.jobs.purge(job);
        self.len += 1;
        self.moment = moment;
        self.owed -= 1;
        self.spare -= 1;
    }

    fn note_item(&mut self, moment: Moment, job: Job, item: Item)
        requires spare { 0 < self.old.spare }
        requires owed { 1 ≤ self.old.owed }
        ensures { self.new ≡ noted_item self.old moment job item (self.old.owed - 1) }
    {
        push(&mut self.items, &mut self.restoring, &self.jobs, item);
        self.jobs.erase(job, moment);
        self.len += 1;
        self.moment = moment;
        self.owed -= 1;
        self.spare -= 1;
    }

    fn note_erase(&mut self, moment: Moment, job: Job, row: &ObjectRow, id: ObjectId)
        requires spare { 0 < self.old.spare }
        requires owed { 1 ≤ self.old.owed }
        requires owner { owner_among self.old.owners id ≡ Some job }
        ensures same { self.new ≡ record (noted_item self.old moment job (Item.Object job row.now) (self.old.owed - 1)) { owners = self.new.owners } }
        ensures owners { (other : ℕ) → owner_among self.new.owners other ≡ cond (nat_eq other id) None (owner_among self.old.owners other) }
        ensures owned { (other : ℕ) → owned_among self.new.owners other + cond (is_job other (owner_among self.old.owners id)) 1 0 ≡ owned_among self.old.owners other }
    {
        let item = Item::Object { job, row: *row };
        push(&mut self.items, &mut self.restoring, &self.jobs, item);
        self.jobs.erase(job, moment);
        self.owners.disown(id);
        self.len += 1;
        self.moment = moment;
        self.owed -= 1;
        self.spare -= 1;
    }

    fn note_put(&mut self, moment: Moment, i: u32, item: &Item, cause: Option<Cause>)
        requires spare { 0 < self.old.spare }
        requires owed { weight_of_item item.now ≤ self.old.owed }
        ensures { self.new ≡ noted_put self.old moment i (record { put = self.old.len; cause = cause }) (self.old.owed + weight_of_put cause item.now - weight_of_item item.now) }
    {
        let how = Handling {
            put: self.len,
            cause,
        };
        handle(&mut self.items, &mut self.restoring, &self.jobs, i, how);
        let more = put_weight(&cause, item);
        self.len += 1;
        self.moment = moment;
        self.owed = self.owed + more - item_weight(item);
        self.spare -= 1;
    }

    /// Whether a cut of this edge condemns its target, which has no owner.
    fn passes<G: GraphStore>(&self, graph: &G, rules: &Rules, key: &EdgeKey) -> bool
        ensures { (s : State) → IsTableOf s self.now → result ≡ (is_none (owner s key.now.to) && condemns_before rules.now (G.counts graph.now) (G.graph graph.now) key.now) }
    {
        match self.owner(key.to) {
            Some(_) => false,
            None => condemns(graph, rules, key),
        }
    }

    fn note_passing(&mut self, moment: Moment, job: Job, item: Item, target: ObjectId)
        requires spare { 0 < self.old.spare }
        requires owed { 3 ≤ self.old.owed }
        requires free { owner_among self.old.owners target ≡ None }
        ensures same { self.new ≡ record (noted_item self.old moment job item (self.old.owed - 3)) { owners = self.new.owners } }
        ensures gains { Gains self.old.owners self.new.owners target job }
    {
        push(&mut self.items, &mut self.restoring, &self.jobs, item);
        self.jobs.erase(job, moment);
        self.owners.own(target, job);
        self.len += 1;
        self.moment = moment;
        self.owed -= 3;
        self.spare -= 1;
    }
}

/// Logs the item, and notes whether its job is being restored.
fn push(items: &mut Items, restoring: &mut Restoring, jobs: &Jobs, item: Item)
    requires items_spare { 0 < items.old.spare }
    requires restoring_spare { 0 < restoring.old.spare }
    requires fits { length items.old.list + 1 < 2 ^ 32 }
    requires told { AreRestoring jobs.now.list items.old.list restoring.old.list }
    ensures list { items.new.list ≡ items.old.list ++ unhandled item ∷ [] }
    ensures items_spare { items.new.spare + 1 ≡ items.old.spare }
    ensures restoring_spare { restoring.old.spare ≤ restoring.new.spare + 1 }
    ensures told { AreRestoring jobs.now.list items.new.list restoring.new.list }
{
    let job = item.job();
    let before = restoring_at(jobs, items, job);
    items.push(item);
    let after = restoring_at(jobs, items, job);
    restoring.change(job, before, after);
}

/// Handles the item, and notes whether its job is being restored.
fn handle(items: &mut Items, restoring: &mut Restoring, jobs: &Jobs, i: u32, how: Handling)
    requires items_spare { 0 < items.old.spare }
    requires restoring_spare { 0 < restoring.old.spare }
    requires told { AreRestoring jobs.now.list items.old.list restoring.old.list }
    ensures list { items.new.list ≡ handled_at items.old.list i (handled_of how) }
    ensures len { length items.new.list ≡ length items.old.list }
    ensures items_spare { items.old.spare ≤ items.new.spare + 1 }
    ensures restoring_spare { restoring.old.spare ≤ restoring.new.spare + 1 }
    ensures told { AreRestoring jobs.now.list items.new.list restoring.new.list }
{
    match items.get(i) {
        Some(kept) => {
            let job = kept.item.job();
            let before = restoring_at(jobs, items, job);
            items.handle(i, how);
            let after = restoring_at(jobs, items, job);
            restoring.change(job, before, after);
        }
        None => {}
    }
}

fn note_seat(seats: &mut Seats, seat: Option<u32>)
    requires spare { 0 < seats.old.spare }
    requires fits { length seats.old.list + 1 < 2 ^ 32 }
    ensures list { seats.new.list ≡ with_seat seats.old.list seat }
    ensures spare { seats.old.spare ≤ seats.new.spare + 1 }
{
    if let Some(seat) = seat {
        seats.push(seat);
    }
}

fn item_weight(item: &Item) -> u32
    ensures value { result ≡ weight_of_item item.now }
{
    match item {
        Item::Object { .. } => 4,
        Item::Edge { .. } => 2,
    }
}

fn put_weight(cause: &Option<Cause>, item: &Item) -> u32
    ensures value { result ≡ weight_of_put cause.now item.now }
    ensures less { result ≤ weight_of_item item.now - 1 }
{
    match cause {
        Some(_) => 0,
        None => match item {
            Item::Object { .. } => 3,
            Item::Edge { .. } => 1,
        },
    }
}
