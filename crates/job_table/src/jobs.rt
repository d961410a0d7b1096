//! The jobs by age, by name, and by the moment from which their window runs.
ghost use Rattle.std.specs.Prelude.{◌≡◌, ◌+◌, ◌<◌, ◌≤◌, ◌^◌, ◌++◌, ◌∷◌, [], OnOk, length, slice_get, slice_index_or, option_map, map, cond, nat_eq, nat_lt, false, true, Some, ℕ, IsTrue};
ghost use Rattle.std.specs.List.{position, list_any};
ghost use Rattle.job_table.specs.Waits.{has_waited as has_waited_row};
ghost use Rattle.job_table.specs.Parts.{row_of, changed_first, is_start, starts_before};
ghost use Rattle.std.specs.HashMap.{get, spare};
ghost use Rattle.delf_model.specs.declared.ids.JobName.{JobName};
ghost use Rattle.delf_model.specs.State.{same_name as is_same_name};
ghost use Rattle.job_table.specs.declared.jobs.Row.{Row as RowValue};
ghost use Rattle.job_table.specs.Table.{starts_rise};
ghost use Rattle.delf_model.specs.State.{job_row, find_job, starts_at};
ghost use Rattle.delf_model.specs.Step.{new_job, row_restored_at, purged_if, erased_at};

use crate::queue::first;
use crate::waiting::{leave_purged, wait_anew};
use delf_model::{Job, JobName, Moment, ObjectId};
use std::alloc::{AllocError, Global};
use std::collections::{HashMap, VecDeque};
use std::marker::Model;

/// A job: the position of its start, its root and name, the position of its Restore, whether it is purged, and the
/// moment of its last erasure.
#[derive(Clone, Copy)]
pub struct Row {
    pub start: Job,
    pub root: ObjectId,
    pub name: JobName,
    pub restored: Option<u32>,
    pub purged: bool,
    pub last: Option<Moment>,
}

/// The jobs of a history by age, the latest job of each name, the jobs that have
/// erased and are not purged by the moment of their last erasure, and a place in front of which all are purged.
#[derive(Drop)]
pub struct Jobs {
    rows: Vec<Row>,
    named: HashMap<u32, u32>,
    expiries: HashMap<u64, u32>,
    waiting: VecDeque<(Job, Moment)>,
    front: usize,
    spare: u32,
}

impl Model for Jobs {
    ghost use Rattle.std.specs.Prelude.{map, nat_eq, vec_capacity};
    ghost use Rattle.std.specs.HashMap.{get, spare as room_of};
    ghost use Rattle.job_table.specs.Parts.{JobPart, row_of};
    ghost use Rattle.job_table.specs.JobsFit.{JobsFit};
    ghost use Rattle.job_table.specs.Waits.{WaitsFit};
    ghost use Rattle.std.specs.VecDeque.{deque_capacity};

    ghost Value = { JobPart };

    ghost view = { λ l. record { list = map row_of l.rows.items; spare = l.spare } };

    ghost invariant = { λ l. JobsFit l.rows.items (get nat_eq l.named) (get nat_eq l.expiries) (vec_capacity l.rows) (room_of l.named) (room_of l.expiries) l.spare × WaitsFit l.rows.items l.waiting.items (deque_capacity l.waiting) l.front l.spare };
}

impl Jobs {
    pub fn new(alloc: Global) -> Jobs
        ensures { result.list ≡ [] }
    {
        Jobs {
            rows: Vec::new(alloc),
            named: HashMap::new(alloc),
            expiries: HashMap::new(alloc),
            waiting: VecDeque::new(alloc),
            front: 0,
            spare: 0,
        }
    }

    pub fn reserve(&mut self, n: u32) -> Result<(), AllocError>
        ensures list { self.new.list ≡ self.old.list }
        ensures ok { OnOk result (n ≤ self.new.spare) }
        ensures kept { self.old.spare ≤ self.new.spare }
    {
        if n <= self.spare {
            return Ok(());
        }
        self.rows.reserve(n as usize)?;
        self.named.reserve(n as usize)?;
        self.expiries.reserve(n as usize)?;
        self.waiting.reserve(n as usize)?;
        self.spare = n;
        Ok(())
    }

    pub fn start(&mut self, start: Job, root: ObjectId, name: JobName)
        requires spare { 0 < self.old.spare }
        requires fits { length self.old.list + 1 < 2 ^ 32 }
        requires rise { IsTrue (starts_rise 0 start self.old.list) }
        requires below { start < 2 ^ 32 }
        ensures list { self.new.list ≡ self.old.list ++ new_job start root name ∷ [] }
        ensures spare { self.new.spare + 1 ≡ self.old.spare }
    {
        note_name(&mut self.named, &mut self.expiries, &name, start.0);
        self.rows.push_reserved(Row {
            start,
            root,
            name,
            restored: None,
            purged: false,
            last: None,
        });
        self.spare -= 1;
    }

    /// The rows, by age.
    pub fn rows(&self) -> &[Row]
        ensures { map row_of result.now ≡ self.now.list }
    {
        &self.rows
    }

    /// A place in front of which all jobs are purged.
    pub fn front(&self) -> usize
        ensures within { result ≤ length self.now.list }
        ensures purged { (k : ℕ) (d : RowValue) → k < result → (slice_index_or self.now.list k (row_of d)).purged ≡ true }
    {
        self.front
    }

    /// Whether the window after the last erasure of some job that is not purged is over.
    pub fn has_waited(&self, window: u32, moment: Moment) -> bool
        ensures { result ≡ false → list_any (has_waited_row window moment) self.now.list ≡ false }
    {
        match first(&self.waiting) {
            Some(pair) => is_past(pair.1, window, moment),
            None => false,
        }
    }

    pub fn at(&self, i: u32) -> Option<Row>
        ensures { option_map row_of result ≡ slice_get self.now.list i }
    {
        self.rows.get(i as usize).copied()
    }

    pub fn row(&self, job: Job) -> Option<Row>
        ensures { option_map row_of result ≡ job_row self.now.list job }
    {
        match place(&self.rows, job) {
            Some(i) => Some(self.rows[i]),
            None => None,
        }
    }

    pub fn find(&self, name: JobName) -> Option<Job>
        ensures { result ≡ find_job self.now.list name }
    {
        match name {
            JobName::Named(n) => match self.named.get(&n) {
                Some(start) => Some(Job(*start)),
                None => None,
            },
            JobName::Expiry(id) => match self.expiries.get(&id.get()) {
                Some(start) => Some(Job(*start)),
                None => None,
            },
        }
    }

    pub fn restore(&mut self, job: Job, at: u32)
        ensures list { self.new.list ≡ changed_first (starts_at job) (row_restored_at job at) self.old.list }
        ensures len { length self.new.list ≡ length self.old.list }
        ensures spare { self.new.spare ≡ self.old.spare }
    {
        match place(&self.rows, job) {
            Some(i) => self.rows[i].restored = Some(at),
            None => {}
        }
    }

    pub fn purge(&mut self, job: Job)
        ensures list { self.new.list ≡ changed_first (starts_at job) (purged_if job) self.old.list }
        ensures len { length self.new.list ≡ length self.old.list }
        ensures spare { self.new.spare ≡ self.old.spare }
    {
        match place(&self.rows, job) {
            Some(i) => {
                leave_purged(&mut self.waiting, &self.rows[i]);
                self.rows[i].purged = true;
                self.front = first_kept(&self.rows, self.front);
            }
            None => {}
        }
    }

    pub fn erase(&mut self, job: Job, moment: Moment)
        requires spare { 0 < self.old.spare }
        ensures list { self.new.list ≡ changed_first (starts_at job) (erased_at job moment) self.old.list }
        ensures len { length self.new.list ≡ length self.old.list }
        ensures spare { self.old.spare ≤ self.new.spare + 1 }
    {
        match place(&self.rows, job) {
            Some(i) => {
                wait_anew(&mut self.waiting, &self.rows[i], moment);
                self.rows[i].last = Some(moment);
                self.spare -= 1;
            }
            None => {}
        }
    }
}

/// Notes that the name means the job that starts here.
fn note_name(
    named: &mut HashMap<u32, u32>,
    expiries: &mut HashMap<u64, u32>,
    name: &JobName,
    start: u32,
)
    requires named { 0 < spare named.old }
    requires expiries { 0 < spare expiries.old }
    ensures named { (n : ℕ) → get nat_eq named.new n ≡ cond (is_same_name name.now (JobName.Named n)) (Some start) (get nat_eq named.old n) }
    ensures expiries { (id : ℕ) → get nat_eq expiries.new id ≡ cond (is_same_name name.now (JobName.Expiry id)) (Some start) (get nat_eq expiries.old id) }
    ensures named_spare { spare named.old ≤ spare named.new + 1 }
    ensures expiries_spare { spare expiries.old ≤ spare expiries.new + 1 }
{
    match name {
        JobName::Named(n) => match named.insert(*n, start) {
            Ok(_) => {}
            Err(_) => unreachable!(),
        },
        JobName::Expiry(id) => match expiries.insert(id.get(), start) {
            Ok(_) => {}
            Err(_) => unreachable!(),
        },
    }
}

/// The place of the job that starts at this position; rows go by rising start.
fn place(rows: &[Row], job: Job) -> Option<usize>
    requires { IsTrue (starts_rise 0 4294967296 (map row_of rows.now)) }
    ensures { result ≡ position (is_start job) rows.now }
{
    let i = place_from(rows, job);
    if i == rows.len() {
        return None;
    }
    if is_job(&rows[i], job) {
        return Some(i);
    }
    None
}

/// The place of the first row from here on that is not purged.
fn first_kept(rows: &[Row], from: usize) -> usize
    requires within { from ≤ length rows.now }
    requires purged { (k : ℕ) (d : RowValue) → k < from → (slice_index_or rows.now k d).purged ≡ true }
    ensures within { result ≤ length rows.now }
    ensures purged { (k : ℕ) (d : RowValue) → k < result → (slice_index_or rows.now k d).purged ≡ true }
{
    let mut i = from;
    'rows: while i < rows.len() {
        if !rows[i].purged {
            return i;
        }
        i += 1;
    }
    i
}

/// Whether the window after a last erasure is over.
pub fn is_past(last: Moment, window: u32, moment: Moment) -> bool
    ensures { result ≡ nat_lt (last + window) moment }
{
    moment > window as u64 && last < moment - window as u64
}

fn is_job(row: &Row, job: Job) -> bool
    ensures { result ≡ is_start job row.now }
{
    row.start.0 == job.0
}

/// The place of the first row that starts no earlier than this.
fn place_from(rows: &[Row], job: Job) -> usize
    requires { IsTrue (starts_rise 0 4294967296 (map row_of rows.now)) }
    ensures bound { result ≤ length rows.now }
    ensures before { (k : ℕ) (d : RowValue) → k < result → starts_before job (slice_index_or rows.now k d) ≡ true }
    ensures after { (k : ℕ) (d : RowValue) → result ≤ k → k < length rows.now → starts_before job (slice_index_or rows.now k d) ≡ false }
{
    rows.partition_point(|row| row.start.0 < job.0)
}
