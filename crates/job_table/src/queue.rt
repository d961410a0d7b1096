//! A queue of jobs by rank.
ghost use Rattle.std.specs.Prelude.{◌≡◌, ◌+◌, ◌<◌, ◌≤◌, None, Some, cond, nat_eq, false, true, length, slice_get, slice_index_or, ℕ, IsTrue};
ghost use Rattle.std.specs.VecDeque.{deque_capacity};
ghost use Rattle.job_table.specs.Apart.{are_apart};
ghost use Rattle.job_table.specs.Owning.{is_before as is_before_pair, pairs_rise};
ghost use Rattle.job_table.specs.Table.{owner_among};

use delf_model::Job;
use std::collections::VecDeque;

/// The job of least rank, with that rank.
pub fn first(queue: &VecDeque<(Job, u64)>) -> Option<(Job, u64)>
    ensures { result ≡ slice_get queue.now.items 0 }
{
    queue.get(0).copied()
}

/// The job enters the queue with this rank. Jobs of a queue go by rising rank and then by rising start, each once.
pub fn enter(queue: &mut VecDeque<(Job, u64)>, job: Job, rank: u64)
    requires rise { IsTrue (pairs_rise queue.old.items) }
    requires apart { IsTrue (are_apart queue.old.items) }
    requires room { length queue.old.items + 1 ≤ deque_capacity queue.old }
    requires free { owner_among queue.old.items job ≡ None }
    ensures rise { IsTrue (pairs_rise queue.new.items) }
    ensures apart { IsTrue (are_apart queue.new.items) }
    ensures value { (other : ℕ) → owner_among queue.new.items other ≡ cond (nat_eq other job) (Some rank) (owner_among queue.old.items other) }
    ensures len { length queue.new.items ≡ length queue.old.items + 1 }
    ensures capacity { deque_capacity queue.old ≤ deque_capacity queue.new }
{
    let i = place(queue, job.0, rank);
    match queue.insert(i, (job, rank)) {
        Ok(()) => {}
        Err(_) => unreachable!(),
    }
}

/// The job, which has this rank, leaves the queue.
pub fn leave(queue: &mut VecDeque<(Job, u64)>, job: Job, rank: u64)
    requires rise { IsTrue (pairs_rise queue.old.items) }
    requires apart { IsTrue (are_apart queue.old.items) }
    requires found { owner_among queue.old.items job ≡ Some rank }
    ensures rise { IsTrue (pairs_rise queue.new.items) }
    ensures apart { IsTrue (are_apart queue.new.items) }
    ensures value { (other : ℕ) → owner_among queue.new.items other ≡ cond (nat_eq other job) None (owner_among queue.old.items other) }
    ensures len { length queue.new.items + 1 ≡ length queue.old.items }
    ensures capacity { deque_capacity queue.new ≡ deque_capacity queue.old }
{
    let i = place(queue, job.0, rank);
    queue.remove(i);
}

/// The place of the first job that is not before this rank and job.
fn place(queue: &VecDeque<(Job, u64)>, job: u32, rank: u64) -> usize
    requires { IsTrue (pairs_rise queue.now.items) }
    ensures bound { result ≤ length queue.now.items }
    ensures before { (k : ℕ) (d : ℕ × ℕ) → k < result → is_before_pair rank job (slice_index_or queue.now.items k d) ≡ true }
    ensures after { (k : ℕ) (d : ℕ × ℕ) → result ≤ k → k < length queue.now.items → is_before_pair rank job (slice_index_or queue.now.items k d) ≡ false }
{
    queue.partition_point(|pair| is_before(pair, job, rank))
}

fn is_before(pair: &(Job, u64), job: u32, rank: u64) -> bool
    ensures { result ≡ is_before_pair rank job pair.now }
{
    pair.1 < rank || (pair.1 == rank && pair.0.0 < job)
}
