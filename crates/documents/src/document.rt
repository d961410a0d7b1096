//! A document: what its bytes say, or its first fault.
ghost use Rattle.std.specs.Prelude.{◌≡◌, ◌++◌, ◌<◌, false, IfOk, IfErr, length};
ghost use Rattle.std.specs.List.{All};
ghost use Rattle.delf_model.specs.Checked.{IsSpellable, numbered};
ghost use Rattle.script_lang.specs.Documents.{IsLineTold};
ghost use Rattle.documents.specs.Documents.{IsDocument, IsToldFault, IsThere, broken_line, broken_text, end_name};
ghost use Rattle.documents.specs.Names.{HasNames, HasNoLanes, IsNumberedCommand};

use crate::names::{edge_row_name, object_row_name};
use crate::texts::joined;
use delf_model::{Broken, Bytes, JudgeFault, Name, Rules, Schema, Script};
use schema_lang::parse_part;
use script_lang::{DOCUMENT_LIMIT, DocumentFault, parse_script, told_fault, too_long};
use std::alloc::{AllocError, Global};

/// What a document says: a checked schema with its rules by number, and the commands of its script.
#[derive(Drop)]
pub struct Document {
    pub schema: Schema,
    pub rules: Rules,
    pub commands: Script,
}

/// The document that these bytes spell, or the fault that is tried first. Without `blocks` a `par` line fits no line.
pub fn read_document(alloc: Global, bytes: &[u8], blocks: bool) -> Result<Document, DocumentFault>
    ensures document { IfOk result (IsDocument blocks bytes.now) }
    ensures named { IfOk result (λ document. HasNames document.schema document.rules) }
    ensures numbered { IfOk result (λ document. All (IsNumberedCommand document.rules) document.commands) }
    ensures spellable { IfOk result (λ document. IsSpellable document.schema) }
    ensures rules { IfOk result (λ document. document.rules ≡ numbered document.schema) }
    ensures lanes { blocks ≡ false → IfOk result (λ document. All HasNoLanes document.commands) }
    ensures fault { IfErr result (IsToldFault blocks bytes.now) }
{
    if bytes.len() > DOCUMENT_LIMIT {
        return Err(too_long(alloc));
    }
    let part = match parse_part(alloc, bytes) {
        Ok(part) => part,
        Err(fault) => return Err(told_fault(alloc, fault)),
    };
    let rules = match Rules::judge(alloc, &part.schema) {
        Ok(rules) => rules,
        Err(JudgeFault::Breaks(broken)) => return Err(told_broken(alloc, &part.schema, broken)),
        Err(JudgeFault::OutOfMemory) => return Err(DocumentFault::OutOfMemory),
    };
    match parse_script(alloc, &part.schema, blocks, part.next, part.rest) {
        Ok(commands) => Ok(Document {
            schema: part.schema,
            rules,
            commands,
        }),
        Err(fault) => Err(fault),
    }
}

// The first broken rule, told in words.
fn told_broken(alloc: Global, schema: &Schema, broken: Broken) -> DocumentFault
    requires { IsThere schema.now broken }
    ensures { IsLineTold result (broken_line schema.now broken) (broken_text schema.now broken) }
{
    let line = line_of(schema, broken);
    match text_of(alloc, schema, broken) {
        Ok(text) => DocumentFault::Bad { line, text },
        Err(AllocError) => DocumentFault::OutOfMemory,
    }
}

// The line of the row that breaks a rule.
fn line_of(schema: &Schema, broken: Broken) -> u32
    requires { IsThere schema.now broken }
    ensures { result ≡ broken_line schema.now broken }
{
    match broken {
        Broken::ObjectTwice { row } => schema.objects.as_slice()[row].line,
        Broken::EdgeTwice { row } => schema.edges.as_slice()[row].line,
        Broken::Undeclared { row, .. } => schema.edges.as_slice()[row].line,
        Broken::CannotTake { row } => schema.edges.as_slice()[row].line,
        Broken::NoRoute { row } => schema.objects.as_slice()[row].line,
    }
}

// What is said of a broken rule.
fn text_of(alloc: Global, schema: &Schema, broken: Broken) -> Result<Bytes, AllocError>
    requires { IsThere schema.now broken }
    ensures { IfOk result (λ text. text ≡ broken_text schema.now broken) }
{
    match broken {
        Broken::ObjectTwice { row } => {
            let name = object_row_name(schema, row);
            around(alloc, b"name ", name, b" declared twice")
        }
        Broken::EdgeTwice { row } => {
            let name = edge_row_name(schema, row);
            around(alloc, b"name ", name, b" declared twice")
        }
        Broken::Undeclared { row, target } => {
            let name = end_name(schema, row, target);
            around(alloc, b"type ", name, b" not declared")
        }
        Broken::CannotTake { row } => {
            let name = edge_row_name(schema, row);
            let edge = around(alloc, b"edge ", name, b" cannot take ")?;
            let target = end_name(schema, row, true);
            joined(alloc, edge.as_slice(), target.as_slice())
        }
        Broken::NoRoute { row } => {
            let name = object_row_name(schema, row);
            around(alloc, b"type ", name, b" has no route")
        }
    }
}

// A name between two texts.
fn around(alloc: Global, before: &[u8], name: &Name, behind: &[u8]) -> Result<Bytes, AllocError>
    ensures { IfOk result (λ text. text ≡ before.now ++ name.now ++ behind.now) }
{
    let mut text = Vec::from_slice(alloc, before)?;
    text.extend_from_slice(name.as_slice())?;
    text.extend_from_slice(behind)?;
    Ok(Bytes::from_vec(text))
}

// The name at an end of an edge type.
fn end_name(schema: &Schema, row: usize, target: bool) -> &Name
    requires { row < length schema.now.edges }
    ensures { result.now ≡ end_name schema.now row target }
{
    let edge = &schema.edges.as_slice()[row];
    if target { &edge.to } else { &edge.from }
}
