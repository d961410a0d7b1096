//! The script part of a document, line by line.

ghost use Rattle.std.specs.Prelude.{◌≡◌, IfOk, Ok, Err};
ghost use Rattle.std.specs.List.{All};
ghost use Rattle.std.specs.Str.Lines.{lines};
ghost use Rattle.schema_lang.specs.Spelling.{IsSpellable};
ghost use Rattle.schema_lang.specs.Words.{line_of};
ghost use Rattle.script_lang.specs.Scripts.{text_of, at_line, behind_line, at_the_end, script_from, script_of};
ghost use Rattle.script_lang.specs.Documents.{Spells, IsLineTold};
ghost use Rattle.script_lang.specs.TypeNumbers.{CommandNames, ReadingNames};

use crate::fault::{DocumentFault, LineFault, Wrong};
use crate::place::{Place, Reading, behind_words};
use delf_model::{Bytes, List, Schema, Script};
use schema_lang::{Line, read_line, split_line};
use std::alloc::{AllocError, Global};

/// What is wrong with a line, in words.
pub fn wrong_text(alloc: Global, wrong: &Wrong) -> Result<Bytes, AllocError>
    ensures { IfOk result (λ text. text ≡ text_of wrong.now) }
{
    match wrong {
        Wrong::Malformed => Bytes::of(alloc, b"malformed"),
        Wrong::OutOfRange => Bytes::of(alloc, b"out of range"),
        Wrong::Unknown(name) => {
            let mut text = Vec::from_slice(alloc, b"unknown name ")?;
            text.extend_from_slice(name.as_slice())?;
            Ok(Bytes::from_vec(text))
        }
    }
}

/// The fault of a line of this number, told in words.
pub fn wrong_at(alloc: Global, line: u32, wrong: &Wrong) -> DocumentFault
    ensures { IsLineTold result line (text_of wrong.now) }
{
    match wrong_text(alloc, wrong) {
        Ok(text) => DocumentFault::Bad { line, text },
        Err(AllocError) => DocumentFault::OutOfMemory,
    }
}

// What was read of a script with a line of this number.
#[tactic(auto, unfolding(crate::specs::Scripts::behind_line))]
fn behind_line(
    alloc: Global,
    schema: &Schema,
    blocks: bool,
    number: u32,
    reading: Reading,
    line: &[u8],
) -> Result<Reading, DocumentFault>
    requires spellable { IsSpellable schema.now }
    requires names { ReadingNames schema.now reading }
    ensures reading { Spells result (behind_line schema.now blocks number reading (line_of line.now)) }
    ensures names { IfOk result (ReadingNames schema.now) }
{
    match read_line(alloc, line)? {
        Line::Skipped => Ok(reading),
        Line::Faulty => Err(wrong_at(alloc, number, &Wrong::Malformed)),
        Line::Words(words) => match behind_words(alloc, schema, blocks, reading, words.as_slice()) {
            Ok(reading) => Ok(reading),
            Err(LineFault::Bad(wrong)) => Err(wrong_at(alloc, number, &wrong)),
            Err(LineFault::OutOfMemory) => Err(DocumentFault::OutOfMemory),
        },
    }
}

// The commands that were read where the lines end, with the number behind the last line.
fn at_the_end(alloc: Global, number: u32, reading: Reading) -> Result<Script, DocumentFault>
    ensures { Spells result (at_the_end number reading.commands reading.place) }
{
    let Reading { commands, place } = reading;
    match place {
        Place::Outside => Ok(commands),
        Place::Opened(_) => Err(wrong_at(alloc, number, &Wrong::Malformed)),
        Place::InLane(_) => Err(wrong_at(alloc, number, &Wrong::Malformed)),
    }
}

/// The commands of a script, which are the lines behind the schema part of a document; the first of them has this
/// number. The schema is the one of that part, and its check is not made here. Without `blocks` a `par` line fits no
/// line, as for who runs a script on one thread.
pub fn parse_script(
    alloc: Global,
    schema: &Schema,
    blocks: bool,
    first: u32,
    bytes: &[u8],
) -> Result<Script, DocumentFault>
    requires { IsSpellable schema.now }
    ensures script { Spells result (script_of schema.now blocks (lines bytes.now) first) }
    ensures names { IfOk result (All (CommandNames schema.now)) }
{
    let mut reading = Reading {
        commands: List::new(alloc),
        place: Place::Outside,
    };
    let mut number = first;
    let mut rest = bytes;
    while let Some((line, after)) = split_line(rest) {
        reading = match behind_line(alloc, schema, blocks, number, reading, line) {
            Ok(reading) => reading,
            Err(fault) => return Err(fault),
        };
        number = number.saturating_add(1);
        rest = after;
    }
    at_the_end(alloc, number, reading)
}
