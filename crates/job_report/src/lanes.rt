//! What stands before the line of a lane, and the line of a block.
#![tactic(auto, unfolding(crate::specs::Texts::lane_text, crate::specs::Texts::par_text))]

ghost use Rattle.std.specs.Prelude.{◌≡◌, ◌++◌, IfOk};
ghost use Rattle.job_report.specs.Texts.{lane_text, par_text, place_words};

use crate::line::Line;
use delf_model::Bytes;
use std::alloc::{AllocError, Global};

/// `lane I ` before a line that has its own end.
pub fn lane_line(alloc: Global, lane: u8, line: &[u8]) -> Result<Bytes, AllocError>
    ensures { IfOk result (λ bytes. bytes ≡ lane_text lane line.now) }
{
    Ok(
        Line::new(alloc)
            .text(b"lane ")?
            .number(u64::from(lane))?
            .text(b" ")?
            .text(line)?
            .into_bytes(),
    )
}

/// `par accepted A refused R history L`, or `.. down at L` where the service is down.
pub fn par_line(
    alloc: Global,
    accepted: u32,
    refused: u32,
    len: u32,
    down: bool,
) -> Result<Bytes, AllocError>
    ensures { IfOk result (λ bytes. bytes ≡ par_text accepted refused len down) }
{
    Line::new(alloc)
        .text(b"par accepted ")?
        .count(accepted)?
        .text(b" refused ")?
        .count(refused)?
        .place(down)?
        .count(len)?
        .end()
}

impl Line {
    fn place(self, down: bool) -> Result<Line, AllocError>
        ensures { IfOk result (λ line. line ≡ self ++ place_words down) }
    {
        if down {
            self.text(b" down at ")
        } else {
            self.text(b" history ")
        }
    }
}
