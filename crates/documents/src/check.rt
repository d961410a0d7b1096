//! What `check` prints of a document.
ghost use Rattle.std.specs.Prelude.{◌≡◌, ◌∷◌, [], IsTrue, IfOk, IfErr, length, if◌then◌else◌};
ghost use Rattle.delf_model.specs.Checked.{IsChecked, IsSpellable};
ghost use Rattle.documents.specs.Checks.{ChecksAs, IsCheckText, AreRouteLines, IsRouteLine, AreRouteNames, AreRulesOf, by_any_types, is_by_any};
ghost use Rattle.documents.specs.Documents.{IsToldFault};

use crate::document::read_document;
use crate::names::{edge_name, kind_name};
use crate::texts::joined;
use delf_model::{Bytes, List, Name, NameFault, ObjectRule, Schema, TypeNo};
use job_report::{checked_line, route_line};
use schema_checks::{Checked, check};
use script_lang::DocumentFault;
use std::alloc::{AllocError, Global};

/// What `check` prints of the document that these bytes spell: how many types and edge types it has, and the printed route
/// of each `by_any` type. Or the fault that is tried first. Without `blocks` a `par` line fits no line.
pub fn check_document(alloc: Global, bytes: &[u8], blocks: bool) -> Result<Bytes, DocumentFault>
    ensures text { IfOk result (ChecksAs blocks bytes.now) }
    ensures fault { IfErr result (IsToldFault blocks bytes.now) }
{
    let document = read_document(alloc, bytes, blocks)?;
    match check_text(alloc, &document.schema) {
        Ok(text) => Ok(text),
        Err(AllocError) => Err(DocumentFault::OutOfMemory),
    }
}

// All that is printed of a schema that was accepted.
fn check_text(alloc: Global, schema: &Schema) -> Result<Bytes, AllocError>
    requires spellable { IsSpellable schema.now }
    requires checked { IsChecked schema.now }
    ensures { IfOk result (IsCheckText schema.now) }
{
    let Ok(checked) = check(alloc, schema) else {
        return Err(AllocError);
    };
    let counts = checked_line(
        alloc,
        schema.objects.len() as u32,
        schema.edges.len() as u32,
    )?;
    let routes = route_lines(alloc, schema, &checked)?;
    joined(alloc, counts.as_slice(), routes.as_slice())
}

fn route_lines(alloc: Global, schema: &Schema, checked: &Checked) -> Result<Bytes, AllocError>
    requires { AreRulesOf schema.now checked.now }
    ensures { IfOk result (λ text. AreRouteLines schema.now (by_any_types schema.now (length schema.now.objects)) text) }
{
    let mut text = Vec::new(alloc);
    for kind in 0..schema.objects.len() {
        let line = type_line(alloc, schema, checked, TypeNo(kind as u8))?;
        text.extend_from_slice(line.as_slice())?;
    }
    Ok(Bytes::from_vec(text))
}

// The line of a type that is `by_any`, and none of another one.
fn type_line(
    alloc: Global,
    schema: &Schema,
    checked: &Checked,
    kind: TypeNo,
) -> Result<Bytes, AllocError>
    requires { AreRulesOf schema.now checked.now }
    ensures { IfOk result (λ text. AreRouteLines schema.now (if is_by_any schema.now kind then kind ∷ [] else []) text) }
{
    if is_by_any(schema, kind) {
        routed_line(alloc, schema, checked, kind)
    } else {
        Ok(Bytes::from_vec(Vec::new(alloc)))
    }
}

fn is_by_any(schema: &Schema, kind: TypeNo) -> bool
    ensures { result ≡ is_by_any schema.now kind }
{
    match schema.objects.as_slice().get(kind.0 as usize) {
        Some(object) => matches!(object.rule, ObjectRule::ByAny),
        None => false,
    }
}

fn routed_line(
    alloc: Global,
    schema: &Schema,
    checked: &Checked,
    kind: TypeNo,
) -> Result<Bytes, AllocError>
    requires rules { AreRulesOf schema.now checked.now }
    requires by_any { IsTrue (is_by_any schema.now kind) }
    ensures { IfOk result (IsRouteLine schema.now kind) }
{
    let names = route_names(alloc, schema, checked, kind)?;
    route_line(alloc, kind_name(schema, kind), names.as_slice())
}

// The names of the edge types of the printed route: no route that is shortest has more of them than there are types.
fn route_names(
    alloc: Global,
    schema: &Schema,
    checked: &Checked,
    kind: TypeNo,
) -> Result<List<Name>, AllocError>
    requires rules { AreRulesOf schema.now checked.now }
    requires by_any { IsTrue (is_by_any schema.now kind) }
    ensures { IfOk result (AreRouteNames schema.now kind) }
{
    let mut names = List::new(alloc);
    for place in 0..schema.objects.len() as u32 {
        let Some(edge) = checked.route(kind, place) else {
            return Ok(names);
        };
        names.push(copied(alloc, edge_name(schema, edge))?)?;
    }
    Ok(names)
}

fn copied(alloc: Global, name: &Name) -> Result<Name, AllocError>
    ensures { IfOk result (λ copy. copy ≡ name.now) }
{
    match Name::of(alloc, name.as_slice()) {
        Ok(copy) => Ok(copy),
        Err(NameFault::NotAName) => unreachable!(),
        Err(NameFault::OutOfMemory) => Err(AllocError),
    }
}
