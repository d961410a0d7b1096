//! The lines of an opening and of a store that is down or bad.
#![tactic(auto, unfolding(crate::specs::Texts::opened_text, crate::specs::Texts::down_text, crate::specs::Texts::bad_journal_text, crate::specs::Texts::bad_vault_text))]

ghost use Rattle.std.specs.Prelude.{◌≡◌, IfOk};
ghost use Rattle.job_report.specs.Texts.{opened_text, down_text, bad_journal_text, bad_vault_text};

use crate::line::Line;
use delf_model::Bytes;
use std::alloc::{AllocError, Global};

/// `opened L`.
pub fn opened_line(alloc: Global, len: u32) -> Result<Bytes, AllocError>
    ensures { IfOk result (λ bytes. bytes ≡ opened_text len) }
{
    Line::new(alloc).text(b"opened ")?.count(len)?.end()
}

/// `down at L`.
pub fn down_line(alloc: Global, len: u32) -> Result<Bytes, AllocError>
    ensures { IfOk result (λ bytes. bytes ≡ down_text len) }
{
    Line::new(alloc).text(b"down at ")?.count(len)?.end()
}

/// `bad store journal at N`, with the place in bytes.
pub fn bad_journal_line(alloc: Global, at: u64) -> Result<Bytes, AllocError>
    ensures { IfOk result (λ bytes. bytes ≡ bad_journal_text at) }
{
    Line::new(alloc)
        .text(b"bad store journal at ")?
        .number(at)?
        .end()
}

/// `bad store vault at N`, with the place in bytes.
pub fn bad_vault_line(alloc: Global, at: u64) -> Result<Bytes, AllocError>
    ensures { IfOk result (λ bytes. bytes ≡ bad_vault_text at) }
{
    Line::new(alloc)
        .text(b"bad store vault at ")?
        .number(at)?
        .end()
}
