//! The lines of jobs and of the rows that they list.
#![tactic(auto, unfolding(crate::specs::Texts::job_text, crate::specs::Texts::listed_text, crate::specs::Texts::no_job_text, crate::specs::Texts::jobs_text))]

ghost use Rattle.std.specs.Prelude.{◌≡◌, ◌++◌, IfOk, codes, decimal};
ghost use Rattle.job_report.specs.Texts.{job_text, listed_text, no_job_text, jobs_text};
ghost use Rattle.job_report.specs.Words.{state_words, done_words, restored_words, item_words, cause_words, job_start_words};

use crate::line::Line;
use delf_model::{Bytes, Cause, Item, JobLine, JobName, Listed, Name, Status};
use std::alloc::{AllocError, Global};

/// `job J start P root ID STATE`.
pub fn job_line(alloc: Global, line: &JobLine) -> Result<Bytes, AllocError>
    ensures { IfOk result (λ bytes. bytes ≡ job_text line.now) }
{
    Line::new(alloc)
        .text(b"job ")?
        .job_name(line.name)?
        .job_start(line)?
        .state(line.status)?
        .end()
}

/// `listed I object ID CAUSE` or `listed I edge EDGE A B CAUSE`. The name is that of the edge type; of an object it
/// isn't printed.
pub fn listed_line(alloc: Global, listed: &Listed, name: &Name) -> Result<Bytes, AllocError>
    ensures { IfOk result (λ bytes. bytes ≡ listed_text listed.now name.now) }
{
    Line::new(alloc)
        .text(b"listed ")?
        .count(listed.item)?
        .text(b" ")?
        .item(listed.row, name)?
        .text(b" ")?
        .cause(listed.cause)?
        .end()
}

/// `no job J`.
pub fn no_job_line(alloc: Global, job: JobName) -> Result<Bytes, AllocError>
    ensures { IfOk result (λ bytes. bytes ≡ no_job_text job) }
{
    Line::new(alloc).text(b"no job ")?.job_name(job)?.end()
}

/// `jobs n`.
pub fn jobs_line(alloc: Global, count: u32) -> Result<Bytes, AllocError>
    ensures { IfOk result (λ bytes. bytes ≡ jobs_text count) }
{
    Line::new(alloc).text(b"jobs ")?.count(count)?.end()
}

impl Line {
    fn job_start(self, line: &JobLine) -> Result<Line, AllocError>
        ensures { IfOk result (λ now. now ≡ self ++ job_start_words line.now.job line.now.root) }
    {
        self.text(b" start ")?
            .count(line.job.0)?
            .text(b" root ")?
            .id(line.root)?
            .text(b" ")
    }

    fn state(self, status: Status) -> Result<Line, AllocError>
        ensures { IfOk result (λ line. line ≡ self ++ state_words status) }
    {
        match status {
            Status::NoJob => self.text(b"no job"),
            Status::Pending { owned } => self.counted(b"pending ", owned),
            Status::Done { erased, cut, .. } => self.done(erased, cut),
            Status::Restoring { left } => self.counted(b"restoring ", left),
            Status::Restored { put, listed } => self.restored(put, listed),
            Status::Purged => self.text(b"purged"),
        }
    }

    fn done(self, erased: u32, cut: u32) -> Result<Line, AllocError>
        ensures { IfOk result (λ line. line ≡ self ++ done_words erased cut) }
    {
        self.text(b"done erased ")?
            .count(erased)?
            .text(b" cut ")?
            .count(cut)
    }

    fn restored(self, put: u32, listed: u32) -> Result<Line, AllocError>
        ensures { IfOk result (λ line. line ≡ self ++ restored_words put listed) }
    {
        self.text(b"restored put ")?
            .count(put)?
            .text(b" listed ")?
            .count(listed)
    }

    fn item(self, item: Item, name: &Name) -> Result<Line, AllocError>
        ensures { IfOk result (λ line. line ≡ self ++ item_words item name.now) }
    {
        match item {
            Item::Object { row, .. } => self.labelled(b"object ", row.id.get()),
            Item::Edge { row, .. } => self.text(b"edge ")?.edge(name, row.key.from, row.key.to),
        }
    }

    fn cause(self, cause: Cause) -> Result<Line, AllocError>
        ensures { IfOk result (λ line. line ≡ self ++ cause_words cause) }
    {
        match cause {
            Cause::Taken { birth } => self.counted(b"taken birth ", birth),
            Cause::EndMissing { id } => self.labelled(b"missing ", id.get()),
            Cause::EndCondemned { id, job } => self.condemned(id, job),
            Cause::KeyTaken { birth } => self.counted(b"key taken birth ", birth),
        }
    }
}
