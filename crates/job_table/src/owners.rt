//! The owned objects with the jobs that own them.
ghost use Rattle.std.specs.Prelude.{◌≡◌, ◌+◌, ◌<◌, ◌≤◌, ◌^◌, [], None, cond, nat_eq, false, true, OnOk, IfSome, length, slice_get, slice_index_or, ℕ, IsTrue};
ghost use Rattle.job_table.specs.Apart.{are_apart as are_apart_pairs};
ghost use Rattle.job_table.specs.Owning.{is_before as is_before_pair, pairs_rise as rise_pairs, Gains};
ghost use Rattle.job_table.specs.Table.{owner_among, owned_among};
ghost use Rattle.delf_model.specs.State.{is_job};

use delf_model::{Job, ObjectId};
use std::alloc::{AllocError, Global};
use std::collections::{HashMap, VecDeque};
use std::marker::Model;

/// The owned objects, each once with its job: by rising job and then by rising id, and the job of each by its id.
/// Oldest jobs are at the front, where most objects leave; new jobs come at the back.
#[derive(Drop)]
pub struct Owners {
    pairs: VecDeque<(ObjectId, Job)>,
    jobs: HashMap<u64, u32>,
    spare: u32,
}

impl Model for Owners {
    ghost use Rattle.std.specs.Prelude.{nat_eq};
    ghost use Rattle.std.specs.HashMap.{get, spare as room_of};
    ghost use Rattle.std.specs.VecDeque.{deque_capacity};
    ghost use Rattle.job_table.specs.Parts.{OwnerPart};
    ghost use Rattle.job_table.specs.Owning.{OwnersFit};

    ghost Value = { OwnerPart };

    ghost view = { λ l. record { list = l.pairs.items; spare = l.spare } };

    ghost invariant = { λ l. OwnersFit l.pairs.items (get nat_eq l.jobs) (deque_capacity l.pairs) (room_of l.jobs) l.spare };
}

impl Owners {
    pub fn new(alloc: Global) -> Owners
        ensures { result.list ≡ [] }
    {
        Owners {
            pairs: VecDeque::new(alloc),
            jobs: HashMap::new(alloc),
            spare: 0,
        }
    }

    pub fn reserve(&mut self, n: u32) -> Result<(), AllocError>
        ensures list { self.new.list ≡ self.old.list }
        ensures ok { OnOk result (n ≤ self.new.spare) }
        ensures kept { self.old.spare ≤ self.new.spare }
    {
        if n <= self.spare {
            return Ok(());
        }
        self.pairs.reserve(n as usize)?;
        self.jobs.reserve(n as usize)?;
        self.spare = n;
        Ok(())
    }

    pub fn owner(&self, id: ObjectId) -> Option<Job>
        ensures { result ≡ owner_among self.now.list id }
    {
        match self.jobs.get(&id.get()) {
            Some(job) => Some(Job(*job)),
            None => None,
        }
    }

    pub fn own(&mut self, id: ObjectId, job: Job)
        requires spare { 0 < self.old.spare }
        requires fits { length self.old.list + 1 < 2 ^ 32 }
        requires free { owner_among self.old.list id ≡ None }
        ensures gains { Gains self.old.list self.new.list id job }
        ensures spare { self.new.spare + 1 ≡ self.old.spare }
        ensures len { length self.new.list ≡ length self.old.list + 1 }
    {
        let i = place(&self.pairs, id.get(), job.0 as u64);
        match self.pairs.insert(i, (id, job)) {
            Ok(()) => {}
            Err(_) => unreachable!(),
        }
        match self.jobs.insert(id.get(), job.0) {
            Ok(_) => {}
            Err(_) => unreachable!(),
        }
        self.spare -= 1;
    }

    pub fn disown(&mut self, id: ObjectId)
        ensures owner { (other : ℕ) → owner_among self.new.list other ≡ cond (nat_eq other id) None (owner_among self.old.list other) }
        ensures owned { (job : ℕ) → owned_among self.new.list job + cond (is_job job (owner_among self.old.list id)) 1 0 ≡ owned_among self.old.list job }
        ensures spare { self.old.spare ≤ self.new.spare }
        ensures len { length self.new.list ≤ length self.old.list }
    {
        let number = id.get();
        match self.jobs.remove(&number) {
            Some(job) => {
                let i = place(&self.pairs, number, job as u64);
                self.pairs.remove(i);
            }
            None => {}
        }
    }

    /// The owned object at this place with its job, by rising job and then by rising id.
    pub fn at(&self, i: usize) -> Option<(ObjectId, Job)>
        ensures value { result ≡ slice_get self.now.list i }
        ensures fits { length self.now.list < 2 ^ 32 }
        ensures rise { IsTrue (rise_pairs self.now.list) }
        ensures apart { IsTrue (are_apart_pairs self.now.list) }
    {
        self.pairs.get(i).copied()
    }

    /// How many objects the job owns.
    pub fn owned(&self, job: Job) -> u32
        ensures { result ≡ owned_among self.now.list job }
    {
        let start = place(&self.pairs, 0, job.0 as u64);
        let end = place(&self.pairs, 0, job.0 as u64 + 1);
        (end - start) as u32
    }
}

/// The place of the first pair that is not before this one.
fn place(pairs: &VecDeque<(ObjectId, Job)>, id: u64, job: u64) -> usize
    requires { IsTrue (rise_pairs pairs.now.items) }
    ensures bound { result ≤ length pairs.now.items }
    ensures before { (k : ℕ) (d : ℕ × ℕ) → k < result → is_before_pair job id (slice_index_or pairs.now.items k d) ≡ true }
    ensures after { (k : ℕ) (d : ℕ × ℕ) → result ≤ k → k < length pairs.now.items → is_before_pair job id (slice_index_or pairs.now.items k d) ≡ false }
{
    pairs.partition_point(|pair| is_before(pair, id, job))
}

/// Whether the pair is before this id and job.
fn is_before(pair: &(ObjectId, Job), id: u64, job: u64) -> bool
    ensures { result ≡ is_before_pair job id pair.now }
{
    let other = pair.1.0 as u64;
    other < job || (other == job && pair.0.get() < id)
}
