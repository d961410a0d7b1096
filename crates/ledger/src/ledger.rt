//! The ledger: a legal history with the graph and the table of its state, and the entries that may come next.
ghost use Rattle.std.specs.Prelude.{◌≡◌, ◌+◌, ◌*◌, ◌<◌, ◌≤◌, ◌++◌, ◌∷◌, ◌&&◌, ℕ, IfOk, drop, length, nat_eq, [], true, false, Some, None, OnOk, IsTrue, slice_get, take, option_map};
ghost use Rattle.entry_codec.specs.EntryHead.{AreEntries};
ghost use Rattle.delf_model.specs.declared.entry.What.{What};
ghost use Rattle.delf_model.specs.RuleSet.{is_refcount};
ghost use Rattle.delf_model.specs.Graph.{empty_graph};
ghost use Rattle.delf_model.specs.State.{Logged, owner as owner_of, find_job};
ghost use Rattle.delf_model.specs.Puts.{judged};
ghost use Rattle.delf_model.specs.Payloads.{keeps_payload as keeps_payload_of};
ghost use Rattle.delf_model.specs.Legal.{Legal, is_legal};
ghost use Rattle.delf_model.specs.Room.{used, owed, greatest_moment};
ghost use Rattle.delf_model.specs.Reply.{reply};
ghost use Rattle.delf_model.specs.Order.{first_step, erases_same, is_held as is_held_in};
ghost use Rattle.held_laws.specs.Held.{takes_row};
ghost use Rattle.delf_model.specs.Report.{status as status_of, job_at as line_at, listed_at as listed_of, listed_from, items_of};
ghost use Rattle.delf_model.specs.Sound.{FirstIsLegal};
ghost use Rattle.job_table.specs.Next.{IsSerial, IsFreeNext};
ghost use Rattle.job_table.specs.Table.{IsTableOf, IsGraphOf, item_at as item_of, top_seat as greatest_seat, given_up};
ghost use Rattle.job_table.specs.Unput.{next_unput as first_unput};
ghost use Rattle.ledger.specs.Held.{IsOnceLegal, AreHeld};
ghost use Rattle.ledger.specs.Parts.{what_of};
ghost use Rattle.ledger.specs.Ledgers.{position_back as position_back_of, state_of, is_ready, is_numbered_call, record_size as record_size_of, found, IsSame, HasEntered};

use crate::backs::position_back;
use crate::edit::{carry_out, edit_of, make_room, record_size};
use crate::entries::Entries;
use crate::legal::is_legal;
use crate::spelling::is_spelled;
use delf_model::{
    Call, Entry, GraphStore, Item, Job, JobLine, JobName, Listed, Moment, ObjectId, ObjectRow,
    Refusal, Rules, Status, Tag, What,
};
use held_laws::held_steps_stay;
use job_table::{JobTable, Next};
use live_writes::judge;
use order_laws::first_step_is_legal;
use std::alloc::{AllocError, Global};
use std::marker::Model;

/// A book without its disk: the rules, a legal history, and the graph and the table of the state after it.
#[derive(Drop)]
pub struct Ledger<G: GraphStore> {
    rules: Rules,
    graph: G,
    jobs: JobTable,
    history: Entries,
}

impl<G: GraphStore> Model for Ledger<G> {
    ghost use Rattle.std.specs.Prelude.{min};
    ghost use Rattle.ledger.specs.Ledgers.{Ledgered};
    ghost use Rattle.ledger.specs.Keeps.{KeepsState};

    ghost Value = { Ledgered G };

    ghost view = { λ l. record { rules = l.rules; history = l.history.list; store = l.graph; held = l.jobs.held; spare = min l.jobs.spare l.history.spare } };

    ghost invariant = { λ l. KeepsState l.rules l.history.list l.jobs (G.graph l.graph) (G.counts l.graph) };
}

impl<G: GraphStore> Ledger<G> {
    /// The ledger of the blank history over a blank graph. Takes no memory.
    pub fn new(alloc: Global, rules: Rules, graph: G) -> Ledger<G>
        requires blank { G.graph graph ≡ empty_graph }
        requires counts { (edge : ℕ) → G.counts graph edge ≡ is_refcount rules edge }
        ensures rules { result.rules ≡ rules }
        ensures history { result.history ≡ [] }
        ensures store { result.store ≡ graph }
        ensures held { result.held ≡ [] }
    {
        Ledger {
            rules,
            graph,
            jobs: JobTable::empty(alloc),
            history: Entries::new(alloc),
        }
    }

    /// The rules.
    pub fn rules(&self) -> &Rules
        ensures { result.now ≡ self.now.rules }
    {
        &self.rules
    }

    /// The graph after the history.
    pub fn graph(&self) -> &G
        ensures store { result.now ≡ self.now.store }
        ensures of { IsGraphOf (state_of self.now) (G.graph result.now) (G.counts result.now) self.now.rules }
    {
        &self.graph
    }

    /// The table of the state after the history.
    fn jobs(&self) -> &JobTable
        ensures { IsTableOf (state_of self.now) result.now }
    {
        &self.jobs
    }

    /// The length of the history.
    pub fn len(&self) -> u32
        ensures value { result ≡ length self.now.history }
        ensures state { result ≡ (state_of self.now).len }
        ensures below { result ≤ 500000 }
        ensures legal { Legal self.now.rules self.now.history }
        ensures spelled { AreEntries self.now.history }
    {
        self.jobs.len()
    }

    /// Whether the history is blank.
    pub fn is_empty(&self) -> bool
        ensures { result ≡ nat_eq (length self.now.history) 0 }
    {
        self.len() == 0
    }

    /// The moment of the last entry, 0 where there is none.
    pub fn moment(&self) -> Moment
        ensures value { result ≡ (state_of self.now).moment }
        ensures within { result ≤ greatest_moment }
    {
        self.jobs.moment()
    }

    /// The number of entries, and of those that may still be owed.
    pub fn room(&self) -> (u32, u32)
        ensures value { result ≡ (used (state_of self.now), owed (state_of self.now)) }
        ensures below { result.0 + result.1 ≤ 500000 }
    {
        self.jobs().room()
    }

    /// The object with its owner.
    pub fn get(&self, id: ObjectId) -> Option<(ObjectRow, Option<Job>)>
        ensures { result ≡ found (state_of self.now) id }
    {
        match self.graph().object(id) {
            Some(row) => Some((row, self.owner(id))),
            None => None,
        }
    }

    /// The job that owns the object.
    pub fn owner(&self, id: ObjectId) -> Option<Job>
        ensures { result ≡ owner_of (state_of self.now) id }
    {
        self.jobs().owner(id)
    }

    /// The job that the name means: the latest one that has it.
    pub fn find(&self, name: JobName) -> Option<Job>
        ensures { result ≡ find_job (state_of self.now).jobs name }
    {
        self.jobs().find(name)
    }

    /// The status of the job that the name means.
    pub fn status(&self, name: JobName) -> Status
        ensures { result ≡ status_of (state_of self.now) name }
    {
        self.jobs().status(name)
    }

    /// The line of the job at this place, by age.
    pub fn job_at(&self, i: u32) -> Option<JobLine>
        ensures { result ≡ line_at (state_of self.now) i }
    {
        self.jobs().job_at(i)
    }

    /// The listed item of the job at this place, by falling item number.
    pub fn listed_at(&self, job: Job, i: u32) -> Option<Listed>
        ensures { result ≡ listed_of (state_of self.now) job i }
    {
        self.jobs().listed_at(job, i)
    }

    /// The listed item of the job with the greatest number below this one. All listed items of a job, each read below the
    /// one before, cost one pass over where its items stand.
    pub fn listed_before(&self, job: Job, below: u32) -> Option<Listed>
        ensures { result ≡ slice_get (listed_from job 0 (take below (state_of self.now).items)) 0 }
    {
        self.jobs().listed_before(job, below)
    }

    /// The item with this number.
    pub fn item_at(&self, i: u32) -> Option<Item>
        ensures { result ≡ item_of (state_of self.now) i }
    {
        self.jobs().item_at(i)
    }

    /// What the entry at this position says.
    pub fn what_at(&self, i: u32) -> Option<What>
        ensures { result ≡ option_map what_of (slice_get self.now.history i) }
    {
        self.history.what_at(i)
    }

    /// Whether the payload of the item with this number may still be put back: its job is not purged, and it was not put
    /// back.
    pub fn keeps_payload(&self, i: u32) -> bool
        ensures item { (logged : Logged) → slice_get (state_of self.now).items i ≡ Some logged → result ≡ keeps_payload_of (state_of self.now).jobs logged }
        ensures none { slice_get (state_of self.now).items i ≡ None → result ≡ false }
    {
        self.jobs().keeps_payload(i)
    }

    /// The position of the payload that an entry of this kind puts back.
    pub fn position_back(&self, what: &What) -> Option<u32>
        ensures { result ≡ position_back_of (state_of self.now) what.now }
    {
        position_back(&self.graph, &self.jobs, what)
    }

    /// The least number, from this one on, of an item of the job that was not put back.
    pub fn next_unput(&self, job: Job, from: u32) -> Option<u32>
        ensures { result ≡ first_unput job from (drop from (state_of self.now).items) }
    {
        self.jobs().next_unput(job, from)
    }

    /// The number of items that the job logged.
    pub fn items(&self, job: Job) -> u32
        ensures { result ≡ items_of (state_of self.now) job }
    {
        self.jobs().items(job)
    }

    /// The greatest seat of a tag, 0 where there is none.
    pub fn top_seat(&self) -> u32
        ensures { result ≡ greatest_seat (state_of self.now) }
    {
        self.jobs().top_seat()
    }

    /// The first legal step of the serial order at this moment, whatever steps are held; None where no step is legal.
    pub fn first_step(&self, moment: Moment) -> Option<What>
        ensures step { result ≡ first_step (state_of self.now) moment }
        ensures legal { FirstIsLegal (state_of self.now) moment }
    {
        first_step_is_legal();
        self.jobs.first(&self.graph, &self.rules, moment)
    }

    /// The step that comes next at this moment: where no step is held the first of the serial order, else a legal step
    /// that is not held. `Idle` where no step is legal, `Held` where every legal step is held. Takes no memory.
    pub fn next(&self, moment: Moment) -> Next
        ensures serial { self.now.held ≡ [] → IsSerial (state_of self.now) moment result }
        ensures free { IsFreeNext (state_of self.now) moment self.now.held result }
    {
        first_step_is_legal();
        self.jobs.next(&self.graph, &self.rules, moment)
    }

    /// What a call of the seat is answered at this moment: what its entry is, or the first refusal that holds. Takes no
    /// memory.
    pub fn judge(&self, moment: Moment, seat: u32, call: &Call) -> Result<What, Refusal>
        requires numbered { IsTrue (is_numbered_call self.now.rules call.now) }
        requires seat { seat ≤ 64 * (length self.now.history + 1) }
        requires not_before { (state_of self.now).moment ≤ moment }
        requires within { moment ≤ greatest_moment }
        ensures reply { result ≡ reply (state_of self.now) moment seat call.now }
        ensures legal { IfOk result (λ what. is_legal (state_of self.now) (record { moment = moment; what = what }) ≡ true) }
    {
        let tag = Tag {
            seat,
            k: self.jobs.seat_entries(seat),
        };
        judge(&self.graph, &self.jobs, &self.rules, moment, tag, call)
    }

    /// Whether the entry may come next. Takes no memory.
    pub fn is_legal(&self, entry: &Entry) -> bool
        ensures { result ≡ is_legal (state_of self.now) entry.now }
    {
        is_legal(&self.graph, &self.jobs, &self.rules, entry)
    }

    /// Whether the entry may come next, and its record has a payload of this size.
    pub fn fits(&self, entry: &Entry, size: u16) -> bool
        ensures { result ≡ (is_legal (state_of self.now) entry.now && nat_eq size (record_size_of (state_of self.now) entry.now.what)) }
    {
        self.is_legal(entry) && size == self.record_size(&entry.what)
    }

    fn record_size(&self, what: &What) -> u16
        ensures { result ≡ record_size_of (state_of self.now) what.now }
    {
        record_size(&self.graph, &self.jobs, what)
    }

    /// Makes room for `n` further entries and held steps together, but for what they put into the graph. The only error
    /// is want of memory.
    pub fn reserve(&mut self, n: u32) -> Result<(), AllocError>
        ensures ok { OnOk result (n ≤ self.new.spare) }
        ensures same { IsSame self.old self.new }
        ensures store { self.new.store ≡ self.old.store }
    {
        self.jobs.reserve(n)?;
        self.history.reserve(n)?;
        Ok(())
    }

    /// Makes room for one entry of this kind. The only error is want of memory; whatever it answers, what was ready
    /// stays ready.
    pub fn make_ready(&mut self, what: &What) -> Result<(), AllocError>
        ensures ok { OnOk result (IsTrue (is_ready (G.is_ready_object self.new.store) (G.is_ready_edge self.new.store) self.new what.now)) }
        ensures same { IsSame self.old self.new }
        ensures ready { (other : What) → IsTrue (is_ready (G.is_ready_object self.old.store) (G.is_ready_edge self.old.store) self.old other) → IsTrue (is_ready (G.is_ready_object self.new.store) (G.is_ready_edge self.new.store) self.new other) }
    {
        self.reserve(1)?;
        // What is put has its id or its key from the kind alone, so any moment serves.
        let entry = Entry {
            moment: 0,
            what: *what,
        };
        let edit = edit_of(&self.graph, &self.jobs, &self.rules, &entry);
        make_room(&mut self.graph, &edit)
    }

    /// Holds a legal Cut or Erase that is not held. It stays legal until it is entered. Takes no memory, and the room of one.
    pub fn hold(&mut self, step: &What)
        requires takes { takes_row step.now ≡ true }
        requires legal { IsOnceLegal (state_of self.old) step.now }
        requires free { is_held_in self.old.held step.now ≡ false }
        requires spare { 0 < self.old.spare }
        ensures same { self.new ≡ record self.old { held = self.old.held ++ step.now ∷ []; spare = self.new.spare } }
        ensures spare { self.old.spare ≤ self.new.spare + 1 }
    {
        held_steps_stay();
        self.jobs.hold(step);
    }

    /// Gives a held step up. Takes no memory.
    pub fn give_up(&mut self, step: &What)
        requires { is_held_in self.old.held step.now ≡ true }
        ensures same { self.new ≡ record self.old { held = given_up step.now self.old.held } }
        // Its row is held no more, and every other row is held as before.
        ensures free { is_held_in self.new.held step.now ≡ false }
        ensures others { (other : What) → erases_same step.now other ≡ false → is_held_in self.new.held other ≡ is_held_in self.old.held other }
    {
        self.jobs.give_up(step);
    }

    /// The number of held steps.
    pub fn held(&self) -> u32
        ensures value { result ≡ length self.now.held }
        ensures are { AreHeld (state_of self.now) self.now.held }
    {
        self.jobs.held()
    }

    /// Whether a step that takes the same row is held, whichever job it names.
    pub fn is_held(&self, step: &What) -> bool
        ensures { result ≡ is_held_in self.now.held step.now }
    {
        self.jobs.is_held(step)
    }

    /// Enters a legal entry for which room was made, and which takes the row of no held step. Takes no memory.
    pub fn enter(&mut self, entry: &Entry)
        requires legal { is_legal (state_of self.old) entry.now ≡ true }
        requires ready { IsTrue (is_ready (G.is_ready_object self.old.store) (G.is_ready_edge self.old.store) self.old entry.now.what) }
        requires free { is_held_in self.old.held entry.now.what ≡ false }
        ensures { HasEntered self.old self.new entry.now }
    {
        held_steps_stay();
        is_spelled(&self.rules, entry);
        let edit = edit_of(&self.graph, &self.jobs, &self.rules, entry);
        self.jobs.apply(&self.graph, &self.rules, entry);
        self.history.push(entry);
        carry_out(&mut self.graph, &edit);
    }
}
