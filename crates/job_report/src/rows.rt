//! The lines of rows of the graph.
#![tactic(auto, unfolding(crate::specs::Texts::graph_text, crate::specs::Texts::object_text, crate::specs::Texts::edge_text, crate::specs::Texts::found_text, crate::specs::Texts::absent_text))]

ghost use Rattle.std.specs.Prelude.{◌≡◌, ◌++◌, IfOk};
ghost use Rattle.job_report.specs.Texts.{graph_text, object_text, edge_text, found_text, absent_text};
ghost use Rattle.job_report.specs.Words.{object_words, owner_words};

use crate::line::Line;
use delf_model::{Bytes, EdgeRow, Job, Name, ObjectId, ObjectRow};
use std::alloc::{AllocError, Global};

/// `graph O E`: the number of objects and the number of edges.
pub fn graph_line(alloc: Global, objects: u32, edges: u32) -> Result<Bytes, AllocError>
    ensures { IfOk result (λ bytes. bytes ≡ graph_text objects edges) }
{
    Line::new(alloc)
        .text(b"graph ")?
        .count(objects)?
        .text(b" ")?
        .count(edges)?
        .end()
}

/// `object ID TYPE birth B PAYLOAD`, and ` owner P` behind it where a job owns the object.
pub fn object_line(
    alloc: Global,
    row: &ObjectRow,
    name: &Name,
    payload: &[u8],
    owner: Option<Job>,
) -> Result<Bytes, AllocError>
    ensures { IfOk result (λ bytes. bytes ≡ object_text row.now name.now payload.now owner) }
{
    Line::new(alloc).object(row, name, payload, owner)?.end()
}

/// `edge EDGE A B birth B PAYLOAD`.
pub fn edge_line(
    alloc: Global,
    row: &EdgeRow,
    name: &Name,
    payload: &[u8],
) -> Result<Bytes, AllocError>
    ensures { IfOk result (λ bytes. bytes ≡ edge_text row.now name.now payload.now) }
{
    Line::new(alloc)
        .text(b"edge ")?
        .edge(name, row.key.from, row.key.to)?
        .text(b" birth ")?
        .count(row.birth)?
        .text(b" ")?
        .quoted(payload)?
        .end()
}

/// `at L`, and behind it the object as its own line has it.
pub fn found_line(
    alloc: Global,
    len: u32,
    row: &ObjectRow,
    name: &Name,
    payload: &[u8],
    owner: Option<Job>,
) -> Result<Bytes, AllocError>
    ensures { IfOk result (λ bytes. bytes ≡ found_text len row.now name.now payload.now owner) }
{
    Line::new(alloc)
        .text(b"at ")?
        .count(len)?
        .text(b" ")?
        .object(row, name, payload, owner)?
        .end()
}

/// `at L absent ID`.
pub fn absent_line(alloc: Global, len: u32, id: ObjectId) -> Result<Bytes, AllocError>
    ensures { IfOk result (λ bytes. bytes ≡ absent_text len id) }
{
    Line::new(alloc)
        .text(b"at ")?
        .count(len)?
        .text(b" absent ")?
        .id(id)?
        .end()
}

impl Line {
    fn object(
        self,
        row: &ObjectRow,
        kind: &Name,
        payload: &[u8],
        owner: Option<Job>,
    ) -> Result<Line, AllocError>
        ensures { IfOk result (λ line. line ≡ self ++ object_words row.now kind.now payload.now owner) }
    {
        self.text(b"object ")?
            .id(row.id)?
            .text(b" ")?
            .name(kind)?
            .text(b" birth ")?
            .count(row.birth)?
            .text(b" ")?
            .quoted(payload)?
            .owner(owner)
    }

    fn owner(self, owner: Option<Job>) -> Result<Line, AllocError>
        ensures { IfOk result (λ line. line ≡ self ++ owner_words owner) }
    {
        match owner {
            None => Ok(self),
            Some(job) => self.text(b" owner ")?.count(job.0),
        }
    }
}
