//! The first refusal of a restore.
ghost use Rattle.std.specs.Prelude.{◌≡◌, ◌≤◌, ◌+◌, ◌*◌, ◌<◌, ◌^◌, ℕ, Bool, Some, IfSome};
ghost use Rattle.delf_model.specs.declared.entry.What.{What};
ghost use Rattle.delf_model.specs.declared.entry.Tag.{Tag};
ghost use Rattle.delf_model.specs.RuleSet.{RuleSet};
ghost use Rattle.delf_model.specs.Graph.{Graph};
ghost use Rattle.delf_model.specs.State.{State, find_job, job_row, owned, is_restored};
ghost use Rattle.delf_model.specs.Reply.{refused, window_over, pending, restored_before};
ghost use Rattle.job_table.specs.Table.{IsTableOf};
ghost use Rattle.live_writes.specs.History.{IsTableOfHistory, end_of_window};

use crate::refusals::full;
use delf_model::{Job, JobName, Moment, Refusal, Rules, Status};
use job_table::JobTable;

/// The first refusal of a restore of the job that the name means.
pub fn refused_restore(
    jobs: &JobTable,
    rules: &Rules,
    moment: Moment,
    name: JobName,
    job: Job,
) -> Option<Refusal>
    requires { IsTableOfHistory jobs.now rules.now }
    ensures { (s : State) (tag : Tag) → IsTableOf s jobs.now → rules.now ≡ s.rules → find_job s.jobs name ≡ Some job → result ≡ refused s moment (What.Restore tag job) }
{
    let owned = jobs.owned(job);
    if owned > 0 {
        return Some(Refusal::Pending { owned });
    }
    if let Some(position) = jobs.restored_at(job) {
        return Some(Refusal::RestoredBefore { position });
    }
    let last = window_end(jobs, rules, job);
    let Status::Done { erased, cut, .. } = jobs.status(name) else {
        return Some(Refusal::WindowOver { last });
    };
    if moment > last {
        return Some(Refusal::WindowOver { last });
    }
    full(jobs, 4 * u64::from(erased) + 2 * u64::from(cut))
}

/// The last moment at which the job may be restored.
fn window_end(jobs: &JobTable, rules: &Rules, job: Job) -> Moment
    requires { IsTableOfHistory jobs.now rules.now }
    ensures { (s : State) → IsTableOf s jobs.now → rules.now ≡ s.rules → result ≡ end_of_window s job }
{
    jobs.last_erasure(job).unwrap_or(0) + Moment::from(rules.window())
}
