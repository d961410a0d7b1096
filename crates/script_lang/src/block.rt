//! The lines within a block.

ghost use Rattle.std.specs.Prelude.{◌≡◌, IfOk};
ghost use Rattle.delf_model.specs.declared.schema.Schema.{Schema};
ghost use Rattle.schema_lang.specs.Spelling.{IsSpellable};
ghost use Rattle.script_lang.specs.Parts.{Reads};
ghost use Rattle.script_lang.specs.Blocks.{is_lane_line, mark_line, lane_line};
ghost use Rattle.script_lang.specs.Lines.{LaneLineNames};

use crate::call::read_call;
use crate::command::{nothing_more, one_id};
use crate::fault::{LineFault, Wrong};
use crate::part::text;
use delf_model::{LaneCommand, Schema};
use schema_lang::Word;
use std::alloc::Global;

/// A line in a lane of a block.
#[derive(Drop)]
pub enum LaneLine {
    /// The next lane begins.
    Begin,
    /// A command of the lane.
    Within(LaneCommand),
    /// The block ends.
    End,
}

/// Whether a line begins a lane.
pub fn is_lane_line(words: &[Word]) -> bool
    ensures { result ≡ is_lane_line words.now }
{
    match words {
        [keyword] => text(keyword) == b"lane".as_slice(),
        _ => false,
    }
}

fn read_mark(keyword: &[u8], words: &[Word]) -> Result<LaneLine, Wrong>
    ensures line { result ≡ mark_line keyword.now words.now }
    ensures names { (schema : Schema) → IfOk result (LaneLineNames schema) }
{
    if keyword == b"get".as_slice() {
        return Ok(LaneLine::Within(LaneCommand::Get(one_id(words)?)));
    }
    if keyword == b"lane".as_slice() {
        nothing_more(words)?;
        return Ok(LaneLine::Begin);
    }
    if keyword == b"end".as_slice() {
        nothing_more(words)?;
        return Ok(LaneLine::End);
    }
    Err(Wrong::Malformed)
}

/// What the words of a line in a lane say.
#[tactic(auto, unfolding(crate::specs::Blocks::lane_line))]
pub fn read_lane_line(alloc: Global, schema: &Schema, words: &[Word]) -> Result<LaneLine, LineFault>
    requires { IsSpellable schema.now }
    ensures line { Reads result (lane_line schema.now words.now) }
    ensures names { IfOk result (LaneLineNames schema.now) }
{
    let [keyword, more @ ..] = words else {
        return Err(LineFault::Bad(Wrong::Malformed));
    };
    match read_call(alloc, schema, text(keyword), more)? {
        Some(call) => Ok(LaneLine::Within(LaneCommand::Submit(call))),
        None => Ok(read_mark(text(keyword), more)?),
    }
}
