//! A document: its schema and its script.

ghost use Rattle.std.specs.Prelude.{◌≡◌, IfOk, codes};
ghost use Rattle.std.specs.List.{All};
ghost use Rattle.schema_lang.specs.Spelling.{IsSpellable};
ghost use Rattle.script_lang.specs.Documents.{Spells, document_of, IsLineTold, TellsPart};
ghost use Rattle.script_lang.specs.TypeNumbers.{CommandNames};

use crate::fault::DocumentFault;
use crate::part::wrong_of;
use crate::script::{parse_script, wrong_at};
use delf_model::{Bytes, Schema, Script};
use schema_lang::{SchemaFault, parse_part};
use std::alloc::{AllocError, Global};

/// The greatest number of bytes of a document.
pub const DOCUMENT_LIMIT: usize = 16_777_216;

/// The fault of a document that has more bytes than it may.
pub fn too_long(alloc: Global) -> DocumentFault
    ensures { IsLineTold result 0 (codes "document too long") }
{
    match Bytes::of(alloc, b"document too long") {
        Ok(text) => DocumentFault::Bad { line: 0, text },
        Err(AllocError) => DocumentFault::OutOfMemory,
    }
}

/// The fault of a schema part, told in words.
pub fn told_fault(alloc: Global, fault: SchemaFault) -> DocumentFault
    ensures { TellsPart fault result }
{
    match fault {
        SchemaFault::Bad { line, why } => wrong_at(alloc, line, &wrong_of(why)),
        SchemaFault::OutOfMemory => DocumentFault::OutOfMemory,
    }
}

/// The schema and the script that a document's bytes spell, or their first fault. The check of the schema is not
/// made here: a name that is declared twice means its first line, and a document whose schema breaks a rule may be
/// read. A fault of the script comes after those of the check, so where this call tells one, the check comes first.
pub fn parse_document(alloc: Global, bytes: &[u8]) -> Result<(Schema, Script), DocumentFault>
    ensures document { Spells result (document_of bytes.now) }
    ensures spellable { IfOk result (λ read. IsSpellable read.0) }
    ensures names { IfOk result (λ read. All (CommandNames read.0) read.1) }
{
    if bytes.len() > DOCUMENT_LIMIT {
        return Err(too_long(alloc));
    }
    let part = match parse_part(alloc, bytes) {
        Ok(part) => part,
        Err(fault) => return Err(told_fault(alloc, fault)),
    };
    let script = parse_script(alloc, &part.schema, true, part.next, part.rest)?;
    Ok((part.schema, script))
}
