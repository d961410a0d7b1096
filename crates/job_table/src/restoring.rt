//! The restored jobs that still have items to put back.
ghost use Rattle.std.specs.Prelude.{◌≡◌, ◌+◌, ◌<◌, ◌≤◌, [], None, Some, cond, nat_eq, OnOk, length, slice_get, option_map, ℕ, IsTrue, ◌^◌};
ghost use Rattle.std.specs.VecDeque.{deque_capacity};
ghost use Rattle.job_table.specs.Apart.{are_apart};
ghost use Rattle.job_table.specs.Owning.{pairs_rise};
ghost use Rattle.job_table.specs.Restoring.{restoring_at as restoring_position};
ghost use Rattle.job_table.specs.Table.{owner_among};

use crate::items::Items;
use crate::jobs::Jobs;
use crate::queue::{enter, first, leave};
use delf_model::Job;
use std::alloc::{AllocError, Global};
use std::collections::VecDeque;
use std::marker::Model;

/// The restored jobs that have unhandled items, by the position of their Restore.
#[derive(Drop)]
pub struct Restoring {
    queue: VecDeque<(Job, u64)>,
    spare: u32,
}

impl Model for Restoring {
    ghost use Rattle.std.specs.VecDeque.{deque_capacity};
    ghost use Rattle.job_table.specs.Parts.{OwnerPart};
    ghost use Rattle.job_table.specs.Restoring.{QueueFits};

    ghost Value = { OwnerPart };

    ghost view = { λ l. record { list = l.queue.items; spare = l.spare } };

    ghost invariant = { λ l. QueueFits l.queue.items (deque_capacity l.queue) l.spare };
}

impl Restoring {
    pub fn new(alloc: Global) -> Restoring
        ensures { result.list ≡ [] }
    {
        Restoring {
            queue: VecDeque::new(alloc),
            spare: 0,
        }
    }

    pub fn reserve(&mut self, n: u32) -> Result<(), AllocError>
        ensures list { self.new.list ≡ self.old.list }
        ensures ok { OnOk result (n ≤ self.new.spare) }
        ensures kept { self.old.spare ≤ self.new.spare }
    {
        if n <= self.spare {
            return Ok(());
        }
        self.queue.reserve(n as usize)?;
        self.spare = n;
        Ok(())
    }

    /// The job that was restored first.
    pub fn first(&self) -> Option<(Job, u64)>
        ensures value { result ≡ slice_get self.now.list 0 }
        ensures rise { IsTrue (pairs_rise self.now.list) }
    {
        first(&self.queue)
    }

    /// The job stood at the one position, or nowhere, and now stands at the other one, or nowhere.
    pub fn change(&mut self, job: Job, before: Option<u32>, after: Option<u32>)
        requires spare { 0 < self.old.spare }
        requires found { owner_among self.old.list job ≡ before }
        ensures value { (other : ℕ) → owner_among self.new.list other ≡ cond (nat_eq other job) after (owner_among self.old.list other) }
        ensures spare { self.old.spare ≤ self.new.spare + 1 }
    {
        change(&mut self.queue, job, before, after);
        self.spare -= 1;
    }
}

fn change(queue: &mut VecDeque<(Job, u64)>, job: Job, before: Option<u32>, after: Option<u32>)
    requires rise { IsTrue (pairs_rise queue.old.items) }
    requires apart { IsTrue (are_apart queue.old.items) }
    requires room { length queue.old.items + 1 ≤ deque_capacity queue.old }
    requires found { owner_among queue.old.items job ≡ before }
    ensures rise { IsTrue (pairs_rise queue.new.items) }
    ensures apart { IsTrue (are_apart queue.new.items) }
    ensures value { (other : ℕ) → owner_among queue.new.items other ≡ cond (nat_eq other job) after (owner_among queue.old.items other) }
    ensures len { length queue.new.items ≤ length queue.old.items + 1 }
    ensures capacity { deque_capacity queue.old ≤ deque_capacity queue.new }
{
    if let Some(position) = before {
        leave(queue, job, position as u64);
    }
    if let Some(position) = after {
        enter(queue, job, position as u64);
    }
}

/// The position of the job's Restore, where it has one and an item that is not handled.
pub fn restoring_at(jobs: &Jobs, items: &Items, job: Job) -> Option<u32>
    ensures { result ≡ restoring_position jobs.now.list items.now.list job }
{
    if items.unhandled(job) == 0 {
        return None;
    }
    match jobs.row(job) {
        Some(row) => row.restored,
        None => None,
    }
}
