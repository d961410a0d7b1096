//! The lines of accepted calls.
#![tactic(auto, unfolding(crate::specs::Texts::created_text, crate::specs::Texts::updated_text, crate::specs::Texts::linked_text, crate::specs::Texts::unlinked_text, crate::specs::Texts::deleting_text, crate::specs::Texts::restoring_text))]

ghost use Rattle.std.specs.Prelude.{◌≡◌, ◌++◌, IfOk};
ghost use Rattle.job_report.specs.Texts.{created_text, updated_text, linked_text, unlinked_text, deleting_text, restoring_text};
ghost use Rattle.job_report.specs.Words.{started_words};

use crate::line::Line;
use delf_model::{Bytes, JobName, Name, ObjectId};
use std::alloc::{AllocError, Global};

/// `P created ID`.
pub fn created_line(alloc: Global, position: u32, id: ObjectId) -> Result<Bytes, AllocError>
    ensures { IfOk result (λ bytes. bytes ≡ created_text position id) }
{
    Line::new(alloc)
        .count(position)?
        .text(b" created ")?
        .id(id)?
        .end()
}

/// `P updated ID`.
pub fn updated_line(alloc: Global, position: u32, id: ObjectId) -> Result<Bytes, AllocError>
    ensures { IfOk result (λ bytes. bytes ≡ updated_text position id) }
{
    Line::new(alloc)
        .count(position)?
        .text(b" updated ")?
        .id(id)?
        .end()
}

/// `P linked EDGE A B`.
pub fn linked_line(
    alloc: Global,
    position: u32,
    edge: &Name,
    from: ObjectId,
    to: ObjectId,
) -> Result<Bytes, AllocError>
    ensures { IfOk result (λ bytes. bytes ≡ linked_text position edge.now from to) }
{
    Line::new(alloc)
        .count(position)?
        .text(b" linked ")?
        .edge(edge, from, to)?
        .end()
}

/// `P unlinked EDGE A B`, and ` deleting B job N` behind it where the unlink started a job of this name.
pub fn unlinked_line(
    alloc: Global,
    position: u32,
    edge: &Name,
    from: ObjectId,
    to: ObjectId,
    started: Option<u32>,
) -> Result<Bytes, AllocError>
    ensures { IfOk result (λ bytes. bytes ≡ unlinked_text position edge.now from to started) }
{
    Line::new(alloc)
        .count(position)?
        .text(b" unlinked ")?
        .edge(edge, from, to)?
        .started(to, started)?
        .end()
}

impl Line {
    fn started(self, id: ObjectId, started: Option<u32>) -> Result<Line, AllocError>
        ensures { IfOk result (λ line. line ≡ self ++ started_words id started) }
    {
        match started {
            None => Ok(self),
            Some(name) => self
                .text(b" deleting ")?
                .id(id)?
                .text(b" job ")?
                .count(name),
        }
    }
}

/// `P deleting ID job N`.
pub fn deleting_line(
    alloc: Global,
    position: u32,
    id: ObjectId,
    name: u32,
) -> Result<Bytes, AllocError>
    ensures { IfOk result (λ bytes. bytes ≡ deleting_text position id name) }
{
    Line::new(alloc)
        .count(position)?
        .text(b" deleting ")?
        .id(id)?
        .text(b" job ")?
        .count(name)?
        .end()
}

/// `P restoring J items N`.
pub fn restoring_line(
    alloc: Global,
    position: u32,
    job: JobName,
    items: u32,
) -> Result<Bytes, AllocError>
    ensures { IfOk result (λ bytes. bytes ≡ restoring_text position job items) }
{
    Line::new(alloc)
        .count(position)?
        .text(b" restoring ")?
        .job_name(job)?
        .text(b" items ")?
        .count(items)?
        .end()
}
