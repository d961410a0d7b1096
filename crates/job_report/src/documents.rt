//! The lines of `check` and `load`, and that of a fault in a document.
#![tactic(auto, unfolding(crate::specs::Texts::checked_text, crate::specs::Texts::route_text, crate::specs::Texts::load_text, crate::specs::Texts::fault_text))]

ghost use Rattle.std.specs.Prelude.{◌≡◌, ◌++◌, IfOk, flat_map};
ghost use Rattle.job_report.specs.Texts.{checked_text, route_text, load_text, load_words, fault_text};
ghost use Rattle.job_report.specs.Words.{spaced};

use crate::line::Line;
use delf_model::{Bytes, Name};
use std::alloc::{AllocError, Global};

/// `checked T types E edges`.
pub fn checked_line(alloc: Global, types: u32, edges: u32) -> Result<Bytes, AllocError>
    ensures { IfOk result (λ bytes. bytes ≡ checked_text types edges) }
{
    Line::new(alloc)
        .text(b"checked ")?
        .count(types)?
        .text(b" types ")?
        .count(edges)?
        .text(b" edges")?
        .end()
}

/// `route TYPE`, and each edge type of the route after one space, in this order.
pub fn route_line(alloc: Global, kind: &Name, edges: &[Name]) -> Result<Bytes, AllocError>
    ensures { IfOk result (λ bytes. bytes ≡ route_text kind.now edges.now) }
{
    Line::new(alloc)
        .text(b"route ")?
        .name(kind)?
        .names(edges)?
        .end()
}

/// `load N objects O edges E history H jobs J restored R`.
pub fn load_line(
    alloc: Global,
    n: u32,
    objects: u32,
    edges: u32,
    history: u32,
    jobs: u32,
    restored: u32,
) -> Result<Bytes, AllocError>
    ensures { IfOk result (λ bytes. bytes ≡ load_text n objects edges history jobs restored) }
{
    Line::new(alloc)
        .loaded(n, objects, edges)?
        .text(b" history ")?
        .count(history)?
        .text(b" jobs ")?
        .count(jobs)?
        .text(b" restored ")?
        .count(restored)?
        .end()
}

/// `line L: ` and the text of the fault.
pub fn fault_line(alloc: Global, line: u32, text: &[u8]) -> Result<Bytes, AllocError>
    ensures { IfOk result (λ bytes. bytes ≡ fault_text line text.now) }
{
    Line::new(alloc)
        .text(b"line ")?
        .count(line)?
        .text(b": ")?
        .text(text)?
        .end()
}

impl Line {
    fn names(self, names: &[Name]) -> Result<Line, AllocError>
        ensures { IfOk result (λ line. line ≡ self ++ flat_map spaced names.now) }
    {
        let mut line = self;
        for name in names {
            line = line.spaced(name)?;
        }
        Ok(line)
    }

    fn spaced(self, name: &Name) -> Result<Line, AllocError>
        ensures { IfOk result (λ line. line ≡ self ++ spaced name.now) }
    {
        self.text(b" ")?.name(name)
    }

    fn loaded(self, n: u32, objects: u32, edges: u32) -> Result<Line, AllocError>
        ensures { IfOk result (λ line. line ≡ self ++ load_words n objects edges) }
    {
        self.text(b"load ")?
            .count(n)?
            .text(b" objects ")?
            .count(objects)?
            .text(b" edges ")?
            .count(edges)
    }
}
