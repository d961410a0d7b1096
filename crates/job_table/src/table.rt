//! The table with its readings: the public struct.
ghost use Rattle.std.specs.Prelude.{◌≡◌, ◌+◌, ◌-◌, ◌<◌, ◌≤◌, ◌++◌, ◌∷◌, [], ℕ, true, false, OnOk, length, nat_eq, count_by, Some, slice_get, take};
ghost use Rattle.delf_model.specs.RuleSet.{RuleSet};
ghost use Rattle.delf_model.specs.Graph.{Graph};
ghost use Rattle.delf_model.specs.State.{State, start, owner as owner_of, owned as owned_of, find_job, job_row, left};
ghost use Rattle.delf_model.specs.Step.{step};
ghost use Rattle.delf_model.specs.Room.{used, owed, greatest_moment};
ghost use Rattle.delf_model.specs.Reply.{seat_entries as entries_of_seat};
ghost use Rattle.delf_model.specs.Legal.{is_legal};
ghost use Rattle.delf_model.specs.Order.{is_held as is_held_in};
ghost use Rattle.job_table.specs.Parts.{row_of};
ghost use Rattle.job_table.specs.Items.{restored_status, is_unhandled_of};
ghost use Rattle.delf_model.specs.Report.{status_of_row, job_line, status as status_of_job, job_at as line_at, listed_at as listed_of, listed_from, items_of};
ghost use Rattle.job_table.specs.Table.{IsTableOf, IsGraphOf, MayApply, item_at as item_of, restored_of, last_erasure as last_erasure_of, top_seat as greatest_seat, is_erasing, given_up};
ghost use Rattle.job_table.specs.Next.{IsSerial, IsFreeNext};

use crate::claims::Claims;
use crate::items::Items;
use crate::jobs::{Jobs, Row};
use crate::next::Next;
use crate::owners::Owners;
use crate::restoring::Restoring;
use crate::seats::Seats;
use delf_model::{
    Cause, Entry, GraphStore, Item, Job, JobLine, JobName, Listed, Moment, ObjectId, Rules, Status,
    What,
};
use std::alloc::{AllocError, Global};
use std::marker::Model;

/// The state after a history without its graph, with the steps that are held. Contracts see it as a `Table`, and say
/// of which states it is the table.
#[derive(Drop)]
pub struct JobTable {
    pub(crate) len: u32,
    pub(crate) moment: Moment,
    pub(crate) owed: u32,
    pub(crate) owners: Owners,
    pub(crate) items: Items,
    pub(crate) jobs: Jobs,
    pub(crate) seats: Seats,
    pub(crate) claims: Claims,
    pub(crate) restoring: Restoring,
    pub(crate) spare: u32,
}

impl Model for JobTable {
    ghost use Rattle.job_table.specs.Table.{Table};
    ghost use Rattle.job_table.specs.Fits.{Fits};
    ghost use Rattle.job_table.specs.Fresh.{FreshOwn};
    ghost use Rattle.job_table.specs.Restoring.{AreRestoring};

    ghost Value = { Table };

    ghost view = { λ t. record { len = t.len; moment = t.moment; owed = t.owed; owners = t.owners.list; items = t.items.list; jobs = t.jobs.list; seats = t.seats.list; held = t.claims.list; spare = t.spare } };

    ghost invariant = { λ t. Fits t.len t.owed t.spare t.owners t.items t.jobs t.seats t.claims t.restoring × AreRestoring t.jobs.list t.items.list t.restoring.list × FreshOwn t.jobs.list t.owners.list };
}

impl JobTable {
    /// The table of the blank history. Takes no memory.
    pub fn empty(alloc: Global) -> JobTable
        ensures table { (rules : RuleSet) → IsTableOf (start rules) result }
        ensures held { result.held ≡ [] }
        ensures spare { result.spare ≡ 0 }
    {
        JobTable {
            len: 0,
            moment: 0,
            owed: 0,
            owners: Owners::new(alloc),
            items: Items::new(alloc),
            jobs: Jobs::new(alloc),
            seats: Seats::new(alloc),
            claims: Claims::new(alloc),
            restoring: Restoring::new(alloc),
            spare: 0,
        }
    }

    /// Makes room for `n` further entries and held steps together. The only error is want of memory; whatever it
    /// answers, the table stands for the same state, and spare is not lowered.
    pub fn reserve(&mut self, n: u32) -> Result<(), AllocError>
        ensures ok { OnOk result (n ≤ self.new.spare) }
        ensures kept { self.old.spare ≤ self.new.spare }
        ensures same { self.new ≡ record self.old { spare = self.new.spare } }
    {
        if n <= self.spare {
            return Ok(());
        }
        if n as usize + self.claims.len() > u32::MAX as usize {
            return Err(AllocError);
        }
        self.owners.reserve(n)?;
        self.items.reserve(n)?;
        self.jobs.reserve(n)?;
        self.seats.reserve(n)?;
        self.claims.reserve(n)?;
        self.restoring.reserve(n)?;
        self.spare = n;
        Ok(())
    }

    /// Holds a Cut or Erase that is not held. Takes no memory.
    pub fn hold(&mut self, step: &What)
        requires erasing { is_erasing step.now ≡ true }
        requires free { is_held_in self.old.held step.now ≡ false }
        requires spare { 0 < self.old.spare }
        ensures { self.new ≡ record self.old { held = self.old.held ++ step.now ∷ []; spare = self.old.spare - 1 } }
    {
        self.claims.hold(step);
        self.spare -= 1;
    }

    /// Gives a held step up. Takes no memory.
    pub fn give_up(&mut self, step: &What)
        requires { is_held_in self.old.held step.now ≡ true }
        ensures { self.new ≡ record self.old { held = given_up step.now self.old.held } }
    {
        self.claims.give_up(step);
    }

    /// The number of held steps.
    pub fn held(&self) -> u32
        ensures { result ≡ length self.now.held }
    {
        self.claims.len() as u32
    }

    /// Whether a step that erases the same row is held, whichever job it names.
    pub fn is_held(&self, step: &What) -> bool
        ensures { result ≡ is_held_in self.now.held step.now }
    {
        self.claims.is_held(step)
    }

    /// The length of the history.
    pub fn len(&self) -> u32
        ensures value { result ≡ self.now.len }
        ensures below { result ≤ 500000 }
        ensures state { (s : State) → IsTableOf s self.now → result ≡ s.len }
    {
        self.len
    }

    /// Whether the history is blank.
    pub fn is_empty(&self) -> bool
        ensures { result ≡ nat_eq self.now.len 0 }
    {
        self.len == 0
    }

    /// The moment of the last entry, 0 where there is none.
    pub fn moment(&self) -> Moment
        ensures { (s : State) → IsTableOf s self.now → result ≡ s.moment }
    {
        self.moment
    }

    /// The number of entries, and of those that may still be owed; 500,000 at most together.
    pub fn room(&self) -> (u32, u32)
        ensures value { (s : State) → IsTableOf s self.now → result ≡ (used s, owed s) }
        ensures below { result.0 + result.1 ≤ 500000 }
    {
        (self.len, self.owed)
    }

    /// The job that owns the object.
    pub fn owner(&self, id: ObjectId) -> Option<Job>
        ensures { (s : State) → IsTableOf s self.now → result ≡ owner_of s id }
    {
        self.owners.owner(id)
    }

    /// The number of objects that the job owns, held ones included.
    pub fn owned(&self, job: Job) -> u32
        ensures { (s : State) → IsTableOf s self.now → result ≡ owned_of s job }
    {
        self.owners.owned(job)
    }

    /// The job that the name means: the latest one that has it.
    pub fn find(&self, name: JobName) -> Option<Job>
        ensures { (s : State) → IsTableOf s self.now → result ≡ find_job s.jobs name }
    {
        self.jobs.find(name)
    }

    /// The item with this number.
    pub fn item_at(&self, i: u32) -> Option<Item>
        ensures { (s : State) → IsTableOf s self.now → result ≡ item_of s i }
    {
        match self.items.get(i) {
            Some(kept) => Some(kept.item),
            None => None,
        }
    }

    /// The number of entries that the seat made.
    pub fn seat_entries(&self, seat: u32) -> u32
        ensures { (s : State) → IsTableOf s self.now → result ≡ entries_of_seat s seat }
    {
        self.seats.entries(seat)
    }

    /// The greatest seat of a tag, 0 where there is none.
    pub fn top_seat(&self) -> u32
        ensures { (s : State) → IsTableOf s self.now → result ≡ greatest_seat s }
    {
        self.seats.top()
    }

    /// The position of the job's Restore; None where it has none, or where there is no such job.
    pub fn restored_at(&self, job: Job) -> Option<u32>
        ensures { (s : State) → IsTableOf s self.now → result ≡ restored_of s job }
    {
        match self.jobs.row(job) {
            Some(row) => row.restored,
            None => None,
        }
    }

    /// The moment of the job's last erasure; None where it has none, or where there is no such job.
    pub fn last_erasure(&self, job: Job) -> Option<Moment>
        ensures { (s : State) → IsTableOf s self.now → result ≡ last_erasure_of s job }
    {
        match self.jobs.row(job) {
            Some(row) => row.last,
            None => None,
        }
    }

    /// The number of items that the job logged.
    pub fn items(&self, job: Job) -> u32
        ensures { (s : State) → IsTableOf s self.now → result ≡ items_of s job }
    {
        self.items.of_job(job)
    }

    /// The status of the job that the name means.
    pub fn status(&self, name: JobName) -> Status
        ensures { (s : State) → IsTableOf s self.now → result ≡ status_of_job s name }
    {
        match self.jobs.find(name) {
            Some(job) => match self.jobs.row(job) {
                Some(row) => self.status_of(&row),
                None => Status::NoJob,
            },
            None => Status::NoJob,
        }
    }

    /// The line of the job at this place, by age.
    pub fn job_at(&self, i: u32) -> Option<JobLine>
        ensures { (s : State) → IsTableOf s self.now → result ≡ line_at s i }
    {
        match self.jobs.at(i) {
            Some(row) => Some(self.line_of(&row)),
            None => None,
        }
    }

    /// The listed item of the job at this place, by falling item number.
    pub fn listed_at(&self, job: Job, i: u32) -> Option<Listed>
        ensures { (s : State) → IsTableOf s self.now → result ≡ listed_of s job i }
    {
        self.items.listed_at(job, i)
    }

    /// The listed item of the job with the greatest number below this one. All listed items of a job, each read below the
    /// one before, cost one pass over where its items stand.
    pub fn listed_before(&self, job: Job, below: u32) -> Option<Listed>
        ensures { (s : State) → IsTableOf s self.now → result ≡ slice_get (listed_from job 0 (take below s.items)) 0 }
    {
        self.items.listed_before(job, below)
    }

    /// The status of the job with this row.
    pub(crate) fn status_of(&self, row: &Row) -> Status
        ensures { (s : State) → IsTableOf s self.now → job_row s.jobs row.now.start ≡ Some (row_of row.now) → result ≡ status_of_row s (row_of row.now) }
    {
        let owned = self.owners.owned(row.start);
        if row.purged {
            return Status::Purged;
        }
        if owned > 0 {
            return Status::Pending { owned };
        }
        match row.restored {
            Some(_) => self.restored_status(row),
            None => Status::Done {
                erased: self.items.erased(row.start),
                cut: self.items.cut(row.start),
                last: row.last.unwrap_or(0),
            },
        }
    }

    fn restored_status(&self, row: &Row) -> Status
        ensures { (s : State) → IsTableOf s self.now → left s row.now.start ≡ count_by (is_unhandled_of row.now.start) s.items → result ≡ restored_status s (row_of row.now) }
    {
        let left = self.items.unhandled(row.start);
        if left > 0 {
            return Status::Restoring { left };
        }
        Status::Restored {
            put: self.items.put(row.start),
            listed: self.items.listed(row.start),
        }
    }

    fn line_of(&self, row: &Row) -> JobLine
        ensures { (s : State) → IsTableOf s self.now → job_row s.jobs row.now.start ≡ Some (row_of row.now) → result ≡ job_line s (row_of row.now) }
    {
        JobLine {
            job: row.start,
            name: row.name,
            root: row.root,
            erased: self.items.erased(row.start),
            cut: self.items.cut(row.start),
            status: self.status_of(row),
        }
    }
}
