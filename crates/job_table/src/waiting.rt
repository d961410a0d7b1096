//! The jobs that wait for their window, as they erase and are purged.
ghost use Rattle.std.specs.Prelude.{◌≡◌, ◌+◌, ◌≤◌, None, cond, nat_eq, length, ℕ, IsTrue};
ghost use Rattle.std.specs.VecDeque.{deque_capacity};
ghost use Rattle.job_table.specs.Apart.{are_apart};
ghost use Rattle.job_table.specs.Owning.{pairs_rise};
ghost use Rattle.job_table.specs.Table.{owner_among};
ghost use Rattle.job_table.specs.Waits.{waits_of, erased_row};

use crate::jobs::Row;
use crate::queue::{enter, leave};
use delf_model::{Job, Moment};
use std::collections::VecDeque;

/// The job with this row erases at this moment, and waits from it on if it is not purged.
pub fn wait_anew(waiting: &mut VecDeque<(Job, Moment)>, row: &Row, moment: Moment)
    requires rise { IsTrue (pairs_rise waiting.old.items) }
    requires apart { IsTrue (are_apart waiting.old.items) }
    requires found { owner_among waiting.old.items row.now.start ≡ waits_of row.now }
    requires room { length waiting.old.items + 1 ≤ deque_capacity waiting.old }
    ensures rise { IsTrue (pairs_rise waiting.new.items) }
    ensures apart { IsTrue (are_apart waiting.new.items) }
    ensures value { (other : ℕ) → owner_among waiting.new.items other ≡ cond (nat_eq other row.now.start) (waits_of (erased_row moment row.now)) (owner_among waiting.old.items other) }
    ensures len { length waiting.new.items ≤ length waiting.old.items + 1 }
    ensures capacity { deque_capacity waiting.old ≤ deque_capacity waiting.new }
{
    if row.purged {
        return;
    }
    if let Some(last) = row.last {
        leave(waiting, row.start, last);
    }
    enter(waiting, row.start, moment);
}

/// The job with this row is purged, and waits no more, if it did.
pub fn leave_purged(waiting: &mut VecDeque<(Job, Moment)>, row: &Row)
    requires rise { IsTrue (pairs_rise waiting.old.items) }
    requires apart { IsTrue (are_apart waiting.old.items) }
    requires found { owner_among waiting.old.items row.now.start ≡ waits_of row.now }
    ensures rise { IsTrue (pairs_rise waiting.new.items) }
    ensures apart { IsTrue (are_apart waiting.new.items) }
    ensures value { (other : ℕ) → owner_among waiting.new.items other ≡ cond (nat_eq other row.now.start) None (owner_among waiting.old.items other) }
    ensures len { length waiting.new.items ≤ length waiting.old.items }
    ensures capacity { deque_capacity waiting.new ≡ deque_capacity waiting.old }
{
    if row.purged {
        return;
    }
    if let Some(last) = row.last {
        leave(waiting, row.start, last);
    }
}
