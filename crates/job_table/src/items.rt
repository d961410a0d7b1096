//! The items of the history by number, with what is kept of each job of them.
ghost use Rattle.std.specs.Prelude.{◌≡◌, ◌+◌, ◌<◌, ◌≤◌, ◌^◌, ◌++◌, ◌∷◌, [], OnOk, drop, length, slice_get, option_map, count_by, sum_by, cond, is_some, nat_eq, ◌-◌, ◌&&◌, Some, unwrap_or, false, true, nat_lt, take, ℕ};
ghost use Rattle.delf_model.specs.Order.{last_place};
ghost use Rattle.job_table.specs.Parts.{logged_of, handled_of};
ghost use Rattle.delf_model.specs.Step.{unhandled, handled_at};
ghost use Rattle.delf_model.specs.State.{Logged, Handled, job_of as job_of_item, is_object_item};
ghost use Rattle.delf_model.specs.Report.{is_of_job, is_object_of, is_edge_of, is_put_of, is_listed_of, listed_from, was_put as was_put_back, was_listed as was_listed_so};
ghost use Rattle.delf_model.specs.Legal.{end_handled, is_handled_end as is_handled_end_of};
ghost use Rattle.job_table.specs.Items.{is_unhandled_of, listing_of};
ghost use Rattle.job_table.specs.Notes.{weight_of};
ghost use Rattle.job_table.specs.Spans.{no_span as empty_span, Spans, Within};
ghost use Rattle.job_table.specs.Tallies.{tally_of};
ghost use Rattle.job_table.specs.Unput.{is_unput as is_unput_of, next_unput as first_unput};
ghost use Rattle.std.specs.HashMap.{get, spare};

use crate::ends::{close, count_of, end_key, open};
use crate::spans::{Span, grown, no_span};
use crate::tallies::{Tally, no_tally, share_of, with, without};
use delf_model::{Cause, Item, Job, Listed, ObjectId};
use std::alloc::{AllocError, Global};
use std::collections::HashMap;
use std::marker::Model;

/// How an item was handled: the position of its Put, and the cause where it was listed.
#[derive(Clone, Copy)]
pub struct Handling {
    pub put: u32,
    pub cause: Option<Cause>,
}

/// An item with how it was handled.
#[derive(Clone, Copy)]
pub struct Kept {
    pub item: Item,
    pub handled: Option<Handling>,
}

/// The items of a history, numbered by place, with the tally of each job, where its items stand, and the counts of its
/// unhandled object items.
#[derive(Drop)]
pub struct Items {
    items: Vec<Kept>,
    tallies: HashMap<u32, Tally>,
    spans: HashMap<u32, Span>,
    ends: HashMap<u64, u32>,
    spare: u32,
}

impl Model for Items {
    ghost use Rattle.std.specs.Prelude.{map, nat_eq, vec_capacity};
    ghost use Rattle.std.specs.HashMap.{get, spare as room_of};
    ghost use Rattle.job_table.specs.Parts.{ItemPart, logged_of};
    ghost use Rattle.job_table.specs.Ends.{EndsFit};
    ghost use Rattle.job_table.specs.Spans.{SpansFit};
    ghost use Rattle.job_table.specs.Tallies.{ItemsFit};

    ghost Value = { ItemPart };

    ghost view = { λ l. record { list = map logged_of l.items.items; spare = l.spare } };

    ghost invariant = { λ l. ItemsFit l.items.items (get nat_eq l.tallies) (vec_capacity l.items) (room_of l.tallies) l.spare × SpansFit (map logged_of l.items.items) (get nat_eq l.spans) (room_of l.spans) l.spare × EndsFit (map logged_of l.items.items) (get nat_eq l.ends) (room_of l.ends) l.spare };
}

impl Items {
    pub fn new(alloc: Global) -> Items
        ensures { result.list ≡ [] }
    {
        Items {
            items: Vec::new(alloc),
            tallies: HashMap::new(alloc),
            spans: HashMap::new(alloc),
            ends: HashMap::new(alloc),
            spare: 0,
        }
    }

    pub fn reserve(&mut self, n: u32) -> Result<(), AllocError>
        ensures list { self.new.list ≡ self.old.list }
        ensures ok { OnOk result (n ≤ self.new.spare) }
        ensures kept { self.old.spare ≤ self.new.spare }
    {
        if n <= self.spare {
            return Ok(());
        }
        self.items.reserve(n as usize)?;
        self.tallies.reserve(n as usize)?;
        self.spans.reserve(n as usize)?;
        self.ends.reserve(n as usize)?;
        self.spare = n;
        Ok(())
    }

    pub fn len(&self) -> u32
        ensures { result ≡ length self.now.list }
    {
        self.items.len() as u32
    }

    pub fn push(&mut self, item: Item)
        requires spare { 0 < self.old.spare }
        requires fits { length self.old.list + 1 < 2 ^ 32 }
        ensures list { self.new.list ≡ self.old.list ++ unhandled item ∷ [] }
        ensures spare { self.new.spare + 1 ≡ self.old.spare }
    {
        let kept = Kept {
            item,
            handled: None,
        };
        let job = job_of(&item);
        let tally = with(&self.tally(job), &share_of(&kept));
        let span = grown(&span_in(&self.spans, job), self.items.len() as u32);
        open(&mut self.ends, &item);
        self.items.push_reserved(kept);
        keep(&mut self.tallies, job, tally);
        keep_span(&mut self.spans, job, span);
        self.spare -= 1;
    }

    /// What the items of the job that starts here come to.
    fn tally(&self, job: u32) -> Tally
        ensures value { result ≡ tally_of job self.now.list }
        ensures fits { length self.now.list < 2 ^ 32 }
    {
        match self.tallies.get(&job) {
            Some(tally) => *tally,
            None => no_tally(),
        }
    }

    /// Where the items of the job that starts here stand.
    fn span(&self, job: u32) -> Span
        ensures spans { Spans self.now.list job result }
        ensures within { Within self.now.list result }
    {
        span_in(&self.spans, job)
    }

    /// Where the items of the job that starts here stand once the item with this number is handled. Looks at items only
    /// where it was the last unhandled one, and then down to the next one.
    fn span_after(&self, job: u32, i: u32) -> Span
        requires within { i < length self.now.list }
        requires fits { i + 1 < 2 ^ 32 }
        ensures spans { (how : Handled) → Spans (handled_at self.now.list i how) job result }
        ensures within { Within self.now.list result }
    {
        let span = self.span(job);
        if i + 1 != span.left {
            return span;
        }
        Span {
            first: span.first,
            end: span.end,
            left: self.left_below(job, span.first, i),
        }
    }

    /// A number up to this one, so that no unhandled item of the job stands from it on in front of this one; the greatest
    /// with an unhandled item of the job before it, or the first where there is none.
    fn left_below(&self, job: u32, first: u32, from: u32) -> u32
        requires { from ≤ length self.now.list }
        ensures within { result ≤ from }
        ensures none { (k : ℕ) (x : Logged) → slice_get self.now.list k ≡ Some x → result ≤ k → k < from → is_unhandled_of job x ≡ false }
    {
        let mut i = from;
        'items: while i > first {
            if is_unhandled(&self.items[(i - 1) as usize], Job(job)) {
                return i;
            }
            i -= 1;
        }
        i
    }

    /// Whether an object item of the job with this birth is not handled.
    fn has_open_end(&self, job: Job, birth: u32) -> bool
        ensures { result ≡ false → (id : ℕ) → end_handled self.now.list job id birth ≡ true }
    {
        count_of(&self.ends, end_key(job.0, birth)) > 0
    }

    pub fn get(&self, i: u32) -> Option<Kept>
        ensures { option_map logged_of result ≡ slice_get self.now.list i }
    {
        self.items.get(i as usize).copied()
    }

    pub fn handle(&mut self, i: u32, how: Handling)
        requires { 0 < self.old.spare }
        ensures list { self.new.list ≡ handled_at self.old.list i (handled_of how) }
        ensures len { length self.new.list ≡ length self.old.list }
        ensures spare { self.old.spare ≤ self.new.spare + 1 }
    {
        let i = i as usize;
        if i >= self.items.len() {
            return;
        }
        let old = self.items[i];
        let new = Kept {
            item: old.item,
            handled: Some(how),
        };
        let job = job_of(&old.item);
        let rest = without(&self.tally(job), &share_of(&old));
        let tally = with(&rest, &share_of(&new));
        let span = self.span_after(job, i as u32);
        close(&mut self.ends, &old);
        self.items[i] = new;
        keep(&mut self.tallies, job, tally);
        keep_span(&mut self.spans, job, span);
        self.spare -= 1;
    }

    /// The number of items of the job.
    pub fn of_job(&self, job: Job) -> u32
        ensures { result ≡ count_by (is_of_job job) self.now.list }
    {
        let tally = self.tally(job.0);
        tally.erased + tally.cut
    }

    pub fn erased(&self, job: Job) -> u32
        ensures { result ≡ count_by (is_object_of job) self.now.list }
    {
        self.tally(job.0).erased
    }

    pub fn cut(&self, job: Job) -> u32
        ensures { result ≡ count_by (is_edge_of job) self.now.list }
    {
        self.tally(job.0).cut
    }

    pub fn put(&self, job: Job) -> u32
        ensures { result ≡ count_by (is_put_of job) self.now.list }
    {
        self.tally(job.0).put
    }

    pub fn listed(&self, job: Job) -> u32
        ensures { result ≡ count_by (is_listed_of job) self.now.list }
    {
        self.tally(job.0).listed
    }

    pub fn unhandled(&self, job: Job) -> u32
        ensures { result ≡ count_by (is_unhandled_of job) self.now.list }
    {
        self.tally(job.0).unhandled
    }

    /// The greatest number of an unhandled item of the job.
    pub fn last_unhandled(&self, job: Job) -> Option<u32>
        ensures { result ≡ last_place (is_unhandled_of job) 0 self.now.list }
    {
        let span = self.span(job.0);
        let mut i = span.left;
        'items: while i > span.first {
            i -= 1;
            if is_unhandled(&self.items[i as usize], job) {
                return Some(i);
            }
        }
        None
    }

    /// The least number, from this one on, of an item of the job that was not put back. Looks only where items of the
    /// job stand, and not at all where each of them was put back.
    pub fn next_unput(&self, job: Job, from: u32) -> Option<u32>
        ensures { result ≡ first_unput job from (drop from self.now.list) }
    {
        if self.put(job) == self.of_job(job) {
            return None;
        }
        let span = self.span(job.0);
        let mut i = from.max(span.first);
        'items: while i < span.end {
            if is_unput(&self.items[i as usize], job) {
                return Some(i);
            }
            i += 1;
        }
        None
    }

    /// What the unhandled items of the job count once it is restored.
    pub fn weight(&self, job: Job) -> u32
        requires { sum_by (weight_of job) self.now.list < 2 ^ 32 }
        ensures { result ≡ sum_by (weight_of job) self.now.list }
    {
        self.tally(job.0).weight as u32
    }

    /// Whether each object item of the job with this id and birth is handled. Looks at items only where one with this
    /// birth is not.
    pub fn end_handled(&self, job: Job, id: ObjectId, birth: u32) -> bool
        ensures { result ≡ end_handled self.now.list job id birth }
    {
        if !self.has_open_end(job, birth) {
            return true;
        }
        let span = self.span(job.0);
        let mut i = span.end;
        'items: while i > span.first {
            i -= 1;
            if !is_handled_end(&self.items[i as usize], job, id, birth) {
                return false;
            }
        }
        true
    }

    /// The listed item of the job with the greatest number below this one. Looks only at the items between the two, so
    /// that all of them, read one after the other, cost one pass over where items of the job stand.
    pub fn listed_before(&self, job: Job, below: u32) -> Option<Listed>
        ensures { result ≡ slice_get (listed_from job 0 (take below self.now.list)) 0 }
    {
        let span = self.span(job.0);
        let mut i = lesser(below, span.end);
        'items: while i > span.first {
            i -= 1;
            let found = listing(job, i, &self.items[i as usize]);
            if found.is_some() {
                return found;
            }
        }
        None
    }

    /// The listed item of the job at this place, by falling item number.
    pub fn listed_at(&self, job: Job, place: u32) -> Option<Listed>
        ensures { result ≡ slice_get (listed_from job 0 self.now.list) place }
    {
        let mut left = place;
        let span = self.span(job.0);
        let mut i = span.end as usize;
        while i > span.first as usize {
            i -= 1;
            let found = listing(job, i as u32, &self.items[i]);
            if is_asked(&found, left) {
                return found;
            }
            left = passed(left, &found);
        }
        None
    }
}

fn lesser(a: u32, b: u32) -> u32
    ensures { result ≡ cond (nat_lt a b) a b }
{
    if a < b { a } else { b }
}

/// Notes the tally of the job that starts here.
fn keep(tallies: &mut HashMap<u32, Tally>, job: u32, tally: Tally)
    requires { 0 < spare tallies.old }
    ensures value { (other : ℕ) → get nat_eq tallies.new other ≡ cond (nat_eq job other) (Some tally) (get nat_eq tallies.old other) }
    ensures spare { spare tallies.old ≤ spare tallies.new + 1 }
{
    match tallies.insert(job, tally) {
        Ok(_) => {}
        Err(_) => unreachable!(),
    }
}

/// Where the items of the job that starts here stand.
fn span_in(spans: &HashMap<u32, Span>, job: u32) -> Span
    ensures { result ≡ unwrap_or (get nat_eq spans.now job) empty_span }
{
    match spans.get(&job) {
        Some(span) => *span,
        None => no_span(),
    }
}

/// Notes where the items of the job that starts here stand.
fn keep_span(spans: &mut HashMap<u32, Span>, job: u32, span: Span)
    requires { 0 < spare spans.old }
    ensures value { (other : ℕ) → get nat_eq spans.new other ≡ cond (nat_eq job other) (Some span) (get nat_eq spans.old other) }
    ensures spare { spare spans.old ≤ spare spans.new + 1 }
{
    match spans.insert(job, span) {
        Ok(_) => {}
        Err(_) => unreachable!(),
    }
}

/// The number of the job that took the row.
fn job_of(item: &Item) -> u32
    ensures { result ≡ job_of_item item.now }
{
    item.job().0
}

/// Whether the item is handled, or is no object item of the job with this id and birth.
fn is_handled_end(kept: &Kept, job: Job, id: ObjectId, birth: u32) -> bool
    ensures { result ≡ is_handled_end_of job id birth (logged_of kept.now) }
{
    match &kept.item {
        Item::Object { job: other, row } => {
            !(*other == job && row.id == id && row.birth == birth) || kept.handled.is_some()
        }
        Item::Edge { .. } => true,
    }
}

pub fn is_object(item: &Item) -> bool
    ensures { result ≡ is_object_item item.now }
{
    match item {
        Item::Object { .. } => true,
        Item::Edge { .. } => false,
    }
}

pub fn was_put(handled: &Option<Handling>) -> bool
    ensures { result ≡ was_put_back (option_map handled_of handled.now) }
{
    match handled {
        Some(how) => how.cause.is_none(),
        None => false,
    }
}

pub fn was_listed(handled: &Option<Handling>) -> bool
    ensures { result ≡ was_listed_so (option_map handled_of handled.now) }
{
    match handled {
        Some(how) => how.cause.is_some(),
        None => false,
    }
}

/// Whether a line that may be there is the one asked for.
fn is_asked(found: &Option<Listed>, left: u32) -> bool
    ensures { result ≡ (is_some found.now && nat_eq left 0) }
{
    match found {
        Some(_) => left == 0,
        None => false,
    }
}

/// Whether the item is an unhandled one of the job.
fn is_unhandled(kept: &Kept, job: Job) -> bool
    ensures { result ≡ is_unhandled_of job (logged_of kept.now) }
{
    kept.item.job() == job && kept.handled.is_none()
}

/// Whether the item is one of the job that was not put back.
fn is_unput(kept: &Kept, job: Job) -> bool
    ensures { result ≡ is_unput_of job (logged_of kept.now) }
{
    kept.item.job() == job && !was_put(&kept.handled)
}

/// How many lines are still to be passed after one that may be there.
fn passed(left: u32, found: &Option<Listed>) -> u32
    ensures { result ≡ cond (is_some found.now) (left - 1) left }
{
    match found {
        Some(_) => left.saturating_sub(1),
        None => left,
    }
}

/// The line of an item of the job that was listed.
fn listing(job: Job, i: u32, kept: &Kept) -> Option<Listed>
    ensures { result ≡ listing_of job i (logged_of kept.now) }
{
    if kept.item.job() != job {
        return None;
    }
    match kept.handled {
        Some(
            Handling {
                cause: Some(cause),
                ..
            },
        ) => Some(Listed {
            item: i,
            row: kept.item,
            cause,
        }),
        _ => None,
    }
}
