//! Whether the payload of an item may still be put back.
ghost use Rattle.std.specs.Prelude.{◌≡◌, drop, false, Some, None, slice_get};
ghost use Rattle.delf_model.specs.Payloads.{keeps_payload as keeps_payload_of, is_purged as is_purged_in};
ghost use Rattle.delf_model.specs.Report.{was_put as was_put_back};
ghost use Rattle.delf_model.specs.State.{State, Logged};
ghost use Rattle.job_table.specs.Parts.{logged_of};
ghost use Rattle.job_table.specs.Table.{IsTableOf};
ghost use Rattle.job_table.specs.Unput.{next_unput as first_unput};

use crate::items::Kept;
use crate::table::JobTable;
use delf_model::Job;

impl JobTable {
    /// Whether the payload of the item with this number may still be put back: its job is not purged, and it was not put
    /// back. Looks up one row of each list.
    pub fn keeps_payload(&self, i: u32) -> bool
        ensures item { (s : State) (logged : Logged) → IsTableOf s self.now → slice_get s.items i ≡ Some logged → result ≡ keeps_payload_of s.jobs logged }
        ensures none { (s : State) → IsTableOf s self.now → slice_get s.items i ≡ None → result ≡ false }
    {
        match self.items.get(i) {
            Some(kept) => !self.is_purged(kept.item.job()) && !was_put(&kept),
            None => false,
        }
    }

    /// The least number, from this one on, of an item of the job that was not put back. Looks only where items of the job
    /// stand.
    pub fn next_unput(&self, job: Job, from: u32) -> Option<u32>
        ensures { (s : State) → IsTableOf s self.now → result ≡ first_unput job from (drop from s.items) }
    {
        self.items.next_unput(job, from)
    }

    fn is_purged(&self, job: Job) -> bool
        ensures { (s : State) → IsTableOf s self.now → result ≡ is_purged_in s.jobs job }
    {
        match self.jobs.row(job) {
            Some(row) => row.purged,
            None => false,
        }
    }
}

fn was_put(kept: &Kept) -> bool
    ensures { result ≡ was_put_back (logged_of kept.now).handled }
{
    match &kept.handled {
        Some(how) => how.cause.is_none(),
        None => false,
    }
}
