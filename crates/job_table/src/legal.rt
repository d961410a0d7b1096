//! Whether a Put, a Purge or a Restore may come.
ghost use Rattle.std.specs.Prelude.{◌≡◌, ◌+◌, Some, nat_le, slice_get, sum_by};
ghost use Rattle.delf_model.specs.declared.entry.What.{What};
ghost use Rattle.delf_model.specs.declared.entry.Tag.{Tag};
ghost use Rattle.delf_model.specs.State.{State, job_row, find_job, is_job, is_open as is_open_row, is_restored as is_restored_in};
ghost use Rattle.delf_model.specs.Room.{owed};
ghost use Rattle.delf_model.specs.Legal.{is_allowed, may_put as may_put_item, may_purge as may_purge_row, ends_handled as are_ends_handled};
ghost use Rattle.job_table.specs.Parts.{logged_of, row_of};
ghost use Rattle.job_table.specs.Table.{IsTableOf};
ghost use Rattle.job_table.specs.Notes.{weight_of};
ghost use Rattle.job_table.specs.Allowed.{is_still, can_restore, can_purge};

use crate::items::Kept;
use crate::jobs::{Row, is_past};
use crate::table::JobTable;
use delf_model::{Item, Job, Moment, ROOM_LIMIT, Status};

/// Whether nothing of the job is to be done any more.
fn is_over(status: Status) -> bool
    ensures { result ≡ is_still status }
{
    match status {
        Status::Done { .. } => true,
        Status::Restored { .. } => true,
        Status::NoJob => false,
        Status::Pending { .. } => false,
        Status::Restoring { .. } => false,
        Status::Purged => false,
    }
}

impl JobTable {
    /// Whether a Put of this item by this job may come next: the item is an unhandled one of the job, which has a
    /// Restore, and the objects that end an edge are handled.
    pub fn may_put(&self, job: Job, i: u32) -> bool
        ensures { (s : State) → IsTableOf s self.now → result ≡ may_put_item s job (slice_get s.items i) }
    {
        match self.items.get(i) {
            Some(kept) => {
                kept.item.job() == job && self.is_open(&kept) && self.ends_handled(&kept.item)
            }
            None => false,
        }
    }

    /// Whether a Purge of this job may come at this moment: it is done, is not purged, has no unhandled item, and the
    /// window after its last erasure is over.
    pub fn may_purge(&self, window: u32, moment: Moment, job: Job) -> bool
        ensures { (s : State) → IsTableOf s self.now → window ≡ s.rules.window → result ≡ may_purge_row s moment (job_row s.jobs job) }
    {
        match self.jobs.row(job) {
            Some(row) => self.can_purge(window, moment, &row),
            None => false,
        }
    }

    /// Whether a Restore of this job may come at this moment: its name means it, it is done and neither restored nor
    /// purged, the window after its last erasure is not over, and there is room for what it would owe.
    pub fn may_restore(&self, window: u32, moment: Moment, job: Job) -> bool
        ensures { (s : State) (tag : Tag) → IsTableOf s self.now → window ≡ s.rules.window → result ≡ is_allowed s moment (What.Restore tag job) }
    {
        match self.jobs.row(job) {
            Some(row) => self.can_restore(window, moment, &row),
            None => false,
        }
    }

    fn can_purge(&self, window: u32, moment: Moment, row: &Row) -> bool
        ensures { (s : State) → IsTableOf s self.now → window ≡ s.rules.window → job_row s.jobs row.now.start ≡ Some (row_of row.now) → result ≡ can_purge s moment (row_of row.now) }
    {
        is_over(self.status_of(row)) && is_past(row.last.unwrap_or(0), window, moment)
    }

    fn can_restore(&self, window: u32, moment: Moment, row: &Row) -> bool
        ensures { (s : State) → IsTableOf s self.now → window ≡ s.rules.window → result ≡ can_restore s moment (row_of row.now) }
    {
        self.is_latest(row)
            && self.owned(row.start) == 0
            && row.restored.is_none()
            && !row.purged
            && !is_past(row.last.unwrap_or(0), window, moment)
            && self.has_room(row.start)
    }

    fn is_latest(&self, row: &Row) -> bool
        ensures { (s : State) → IsTableOf s self.now → result ≡ is_job row.now.start (find_job s.jobs row.now.name) }
    {
        match self.find(row.name) {
            Some(job) => job == row.start,
            None => false,
        }
    }

    /// Whether there is room for a Restore and for the puts of the job's items.
    fn has_room(&self, job: Job) -> bool
        ensures { (s : State) → IsTableOf s self.now → result ≡ nat_le (s.len + 1 + (owed s + sum_by (weight_of job) s.items)) 500000 }
    {
        self.len as u64 + 1 + self.owed as u64 + self.items.weight(job) as u64 <= ROOM_LIMIT as u64
    }

    fn is_open(&self, kept: &Kept) -> bool
        ensures { (s : State) → IsTableOf s self.now → result ≡ is_open_row s.jobs (logged_of kept.now) }
    {
        kept.handled.is_none() && self.is_restored(kept.item.job())
    }

    fn is_restored(&self, job: Job) -> bool
        ensures { (s : State) → IsTableOf s self.now → result ≡ is_restored_in s.jobs job }
    {
        match self.jobs.row(job) {
            Some(row) => row.restored.is_some(),
            None => false,
        }
    }

    fn ends_handled(&self, item: &Item) -> bool
        ensures { result ≡ are_ends_handled self.now.items item.now }
    {
        match item {
            Item::Object { .. } => true,
            Item::Edge {
                job,
                row,
                from_birth,
                to_birth,
            } => {
                self.items.end_handled(*job, row.key.from, *from_birth)
                    && self.items.end_handled(*job, row.key.to, *to_birth)
            }
        }
    }
}
