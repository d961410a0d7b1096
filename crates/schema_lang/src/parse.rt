//! The schema part of a document, line by line.

ghost use Rattle.std.specs.Prelude.{◌≡◌, ◌<◌, IfOk, IfErr, Ok, Err, length, map};
ghost use Rattle.std.specs.Str.Lines.{lines};
ghost use Rattle.schema_lang.specs.Grammar.{Part, Fault, Gives, first_said, owed, at_line, with_object, with_edge, empty_schema, step_of, rows, part_of, line_after, schema_of};
ghost use Rattle.schema_lang.specs.Forms.{SpellsPart, HasPartFault, SpellsSchema, IsTold};
ghost use Rattle.schema_lang.specs.Rows.{word_text};
ghost use Rattle.schema_lang.specs.Spelling.{IsSpellable};
ghost use Rattle.delf_model.specs.declared.schema.Schema.{Schema};
ghost use Rattle.schema_lang.specs.Views.{part_view, said_view, next_view, IsShorter};

use crate::fault::SchemaFault;
use crate::line::{Line, Word, read_line, split_line};
use crate::row::{Row, is_header, read_row, read_window};
use crate::why::Why;
use delf_model::{EdgeType, List, ObjectType, Schema};
use std::alloc::{AllocError, Global};

/// A schema, and where the part behind it begins.
#[derive(Drop)]
pub struct SchemaPart<'a> {
    pub schema: Schema,
    /// The bytes behind the line `script`; none where that line is missing.
    pub rest: &'a [u8],
    /// The number of the line that begins there.
    pub next: u32,
}

// A line that is not skipped, with its number and the bytes behind it. One with a malformed payload has no words.
#[derive(Drop)]
struct SaidLine<'a> {
    number: u32,
    words: List<Word>,
    rest: &'a [u8],
}

// The next line that is not skipped, or the number of the line that is missing at the end.
#[derive(Drop)]
enum Next<'a> {
    Line(SaidLine<'a>),
    Missing(u32),
}

fn first_said(alloc: Global, first: u32, bytes: &[u8]) -> Result<Next<'_>, AllocError>
    ensures said { IfOk result (λ next. next_view next ≡ first_said first (lines bytes.now)) }
    ensures shorter { IfOk result (λ next. IsShorter next bytes.now) }
{
    let mut number = first;
    let mut rest = bytes;
    while let Some((line, after)) = split_line(rest) {
        let words = match read_line(alloc, line)? {
            Line::Skipped => None,
            Line::Faulty => Some(List::new(alloc)),
            Line::Words(words) => Some(words),
        };
        if let Some(words) = words {
            return Ok(Next::Line(SaidLine {
                number,
                words,
                rest: after,
            }));
        }
        number = number.saturating_add(1);
        rest = after;
    }
    Ok(Next::Missing(number))
}

// The next line that is not skipped, where one has to come.
fn owed_line(alloc: Global, first: u32, bytes: &[u8]) -> Result<SaidLine<'_>, SchemaFault>
    ensures { Gives said_view result (owed (first_said first (lines bytes.now))) }
{
    match first_said(alloc, first, bytes) {
        Ok(Next::Line(said)) => Ok(said),
        Ok(Next::Missing(line)) => Err(SchemaFault::Bad {
            line,
            why: Why::Malformed,
        }),
        Err(AllocError) => Err(SchemaFault::OutOfMemory),
    }
}

fn with_object(schema: Schema, line: u32, object: ObjectType) -> Result<Schema, SchemaFault>
    ensures { Gives (λ schema. schema) result (at_line line (with_object schema object)) }
{
    let Schema {
        window,
        mut objects,
        edges,
    } = schema;
    if objects.len() >= 64 {
        return Err(SchemaFault::Bad {
            line,
            why: Why::OutOfRange,
        });
    }
    objects.push(object)?;
    Ok(Schema {
        window,
        objects,
        edges,
    })
}

fn with_edge(schema: Schema, line: u32, edge: EdgeType) -> Result<Schema, SchemaFault>
    ensures { Gives (λ schema. schema) result (at_line line (with_edge schema edge)) }
{
    let Schema {
        window,
        objects,
        mut edges,
    } = schema;
    if edges.len() >= 256 {
        return Err(SchemaFault::Bad {
            line,
            why: Why::OutOfRange,
        });
    }
    edges.push(edge)?;
    Ok(Schema {
        window,
        objects,
        edges,
    })
}

// What a row makes of the schema before it.
#[derive(Drop)]
enum Step {
    // The schema part ends.
    Ended(Schema),
    // It goes on.
    More(Schema),
}

fn read_step(alloc: Global, schema: Schema, line: u32, words: &[Word]) -> Result<Step, SchemaFault>
    ensures { Gives (λ step. step) result (step_of line schema (map word_text words.now)) }
{
    let added = match read_row(alloc, line, words) {
        Ok(Row::Script) => return Ok(Step::Ended(schema)),
        Ok(Row::Object(object)) => with_object(schema, line, object),
        Ok(Row::Edge(edge)) => with_edge(schema, line, edge),
        Err(fault) => Err(fault),
    };
    match added {
        Ok(schema) => Ok(Step::More(schema)),
        Err(fault) => Err(fault),
    }
}

// The rows of a schema of this window, from the line of this number on.
fn read_rows(
    alloc: Global,
    window: u32,
    first: u32,
    bytes: &[u8],
) -> Result<SchemaPart<'_>, SchemaFault>
    ensures { Gives part_view result (rows (lines bytes.now) first (empty_schema window)) }
{
    let mut schema = Schema {
        window,
        objects: List::new(alloc),
        edges: List::new(alloc),
    };
    let mut number = first;
    let mut rest = bytes;
    loop {
        let said = match first_said(alloc, number, rest) {
            Ok(Next::Line(said)) => said,
            Ok(Next::Missing(next)) => {
                return Ok(SchemaPart {
                    schema,
                    rest: &[],
                    next,
                });
            }
            Err(AllocError) => return Err(SchemaFault::OutOfMemory),
        };
        number = said.number.saturating_add(1);
        rest = said.rest;
        schema = match read_step(alloc, schema, said.number, said.words.as_slice()) {
            Ok(Step::More(schema)) => schema,
            Ok(Step::Ended(schema)) => {
                return Ok(SchemaPart {
                    schema,
                    rest,
                    next: number,
                });
            }
            Err(fault) => return Err(fault),
        };
    }
}

/// The schema part of a document, up to the line `script` or the document's end, and where the part behind it
/// begins.
pub fn parse_part(alloc: Global, bytes: &[u8]) -> Result<SchemaPart<'_>, SchemaFault>
    ensures spelled { IfOk result (λ part. SpellsPart bytes.now (part_view part)) }
    ensures told { IfErr result (IsTold (HasPartFault bytes.now)) }
    ensures every_spelled { (part : Part) → SpellsPart bytes.now part → Gives part_view result (Ok part) }
    ensures every_fault { (fault : Fault) → HasPartFault bytes.now fault → Gives part_view result (Err fault) }
    ensures part { Gives part_view result (part_of (lines bytes.now)) }
    ensures spellable { IfOk result (λ part. IsSpellable part.schema) }
{
    read_part(alloc, bytes)
}

#[tactic(auto, unfolding(crate::specs::Grammar::part_of))]
fn read_part(alloc: Global, bytes: &[u8]) -> Result<SchemaPart<'_>, SchemaFault>
    ensures { Gives part_view result (part_of (lines bytes.now)) }
{
    let first = owed_line(alloc, 1, bytes)?;
    if !is_header(first.words.as_slice()) {
        return Err(SchemaFault::Bad {
            line: first.number,
            why: Why::Malformed,
        });
    }
    let second = owed_line(alloc, first.number.saturating_add(1), first.rest)?;
    match read_window(second.words.as_slice()) {
        Ok(window) => read_rows(alloc, window, second.number.saturating_add(1), second.rest),
        Err(why) => Err(SchemaFault::Bad {
            line: second.number,
            why,
        }),
    }
}

/// The schema of a document, whose part for commands is not looked at; or the first fault of its schema part.
pub fn parse_schema(alloc: Global, bytes: &[u8]) -> Result<Schema, SchemaFault>
    ensures spelled { IfOk result (SpellsSchema bytes.now) }
    ensures told { IfErr result (IsTold (HasPartFault bytes.now)) }
    ensures every_spelled { (schema : Schema) → SpellsSchema bytes.now schema → Gives (λ schema. schema) result (Ok schema) }
    ensures every_fault { (fault : Fault) → HasPartFault bytes.now fault → Gives (λ schema. schema) result (Err fault) }
    ensures schema { Gives (λ schema. schema) result (schema_of bytes.now) }
    ensures spellable { IfOk result (λ schema. IsSpellable schema) }
{
    match parse_part(alloc, bytes) {
        Ok(part) => Ok(part.schema),
        Err(fault) => Err(fault),
    }
}
