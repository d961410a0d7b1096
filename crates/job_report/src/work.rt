//! The line of a `work`.
#![tactic(auto, unfolding(crate::specs::Texts::work_text))]

ghost use Rattle.std.specs.Prelude.{◌≡◌, ◌++◌, IfOk};
ghost use Rattle.job_report.specs.Texts.{work_text, end_words};

use crate::line::Line;
use delf_model::Bytes;
use std::alloc::{AllocError, Global};

/// How a `work` ended.
#[derive(Clone, Copy, PartialEq, Eq, Debug)]
pub enum WorkEnd {
    /// All the steps that it was asked for were made.
    All,
    /// No step was left to make.
    Idle,
    /// The disk failed; the service is down, with this length of the history.
    Down { len: u32 },
    /// The logged payload of this item isn't the one that was sealed.
    Damaged { item: u32 },
}

/// `work S`, and behind it ` idle`, ` down at L` or ` damaged I` where fewer steps were made than asked for.
pub fn work_line(alloc: Global, steps: u32, end: WorkEnd) -> Result<Bytes, AllocError>
    ensures { IfOk result (λ bytes. bytes ≡ work_text steps end) }
{
    Line::new(alloc)
        .text(b"work ")?
        .count(steps)?
        .work_end(end)?
        .end()
}

impl Line {
    fn work_end(self, end: WorkEnd) -> Result<Line, AllocError>
        ensures { IfOk result (λ line. line ≡ self ++ end_words end) }
    {
        match end {
            WorkEnd::All => Ok(self),
            WorkEnd::Idle => self.text(b" idle"),
            WorkEnd::Down { len } => self.text(b" down at ")?.count(len),
            WorkEnd::Damaged { item } => self.text(b" damaged ")?.count(item),
        }
    }
}
