//! The lines of the writing calls.

ghost use Rattle.std.specs.Prelude.{◌≡◌, IfOk, IfSome, Option, Some, None};
ghost use Rattle.delf_model.specs.declared.schema.Schema.{Schema};
ghost use Rattle.schema_lang.specs.Spelling.{IsSpellable};
ghost use Rattle.script_lang.specs.Parts.{Reads, mapped};
ghost use Rattle.script_lang.specs.Calls.{created, create_line, update_line, linked, link_line, unlinked, unlink_line, delete_line, job_name, call_line};
ghost use Rattle.script_lang.specs.TypeNumbers.{CallNames};

use crate::fault::{LineFault, Wrong};
use crate::part::{both, read_edge, read_id, read_job, read_type, text};
use delf_model::{Bytes, Call, JobName, Schema};
use schema_lang::Word;
use std::alloc::Global;

fn created(
    alloc: Global,
    schema: &Schema,
    id: &Word,
    kind: &Word,
    payload: &[u8],
) -> Result<Call, LineFault>
    requires { IsSpellable schema.now }
    ensures call { Reads result (created schema.now id.now kind.now payload.now) }
    ensures names { IfOk result (CallNames schema.now) }
{
    let kind = read_type(alloc, schema, kind)?;
    let (id, kind) = both(read_id(id), kind)?;
    let payload = Bytes::of(alloc, payload)?;
    Ok(Call::Create { kind, id, payload })
}

fn read_create(alloc: Global, schema: &Schema, words: &[Word]) -> Result<Call, LineFault>
    requires { IsSpellable schema.now }
    ensures call { Reads result (create_line schema.now words.now) }
    ensures names { IfOk result (CallNames schema.now) }
{
    match words {
        [id, kind] => created(alloc, schema, id, kind, &[]),
        [id, kind, Word::Payload(payload)] => created(alloc, schema, id, kind, payload.as_slice()),
        _ => Err(LineFault::Bad(Wrong::Malformed)),
    }
}

fn read_update(alloc: Global, words: &[Word]) -> Result<Call, LineFault>
    ensures { Reads result (update_line words.now) }
{
    let [id, Word::Payload(payload)] = words else {
        return Err(LineFault::Bad(Wrong::Malformed));
    };
    let id = read_id(id)?;
    let payload = Bytes::of(alloc, payload.as_slice())?;
    Ok(Call::Update { id, payload })
}

fn linked(
    alloc: Global,
    schema: &Schema,
    edge: &Word,
    source: &Word,
    target: &Word,
    payload: &[u8],
) -> Result<Call, LineFault>
    requires { IsSpellable schema.now }
    ensures call { Reads result (linked schema.now edge.now source.now target.now payload.now) }
    ensures names { IfOk result (CallNames schema.now) }
{
    let edge = read_edge(alloc, schema, edge)?;
    let ends = both(read_id(source), read_id(target));
    let (edge, (from, to)) = both(edge, ends)?;
    let payload = Bytes::of(alloc, payload)?;
    Ok(Call::Link {
        edge,
        from,
        to,
        payload,
    })
}

fn read_link(alloc: Global, schema: &Schema, words: &[Word]) -> Result<Call, LineFault>
    requires { IsSpellable schema.now }
    ensures call { Reads result (link_line schema.now words.now) }
    ensures names { IfOk result (CallNames schema.now) }
{
    match words {
        [edge, source, target] => linked(alloc, schema, edge, source, target, &[]),
        [edge, source, target, Word::Payload(payload)] => {
            linked(alloc, schema, edge, source, target, payload.as_slice())
        }
        _ => Err(LineFault::Bad(Wrong::Malformed)),
    }
}

fn unlinked(
    alloc: Global,
    schema: &Schema,
    edge: &Word,
    source: &Word,
    target: &Word,
    name: &Word,
) -> Result<Call, LineFault>
    requires { IsSpellable schema.now }
    ensures call { Reads result (unlinked schema.now edge.now source.now target.now name.now) }
    ensures names { IfOk result (CallNames schema.now) }
{
    let edge = read_edge(alloc, schema, edge)?;
    let behind = both(read_id(source), both(read_id(target), read_job(name)));
    let (edge, (from, (to, name))) = both(edge, behind)?;
    Ok(Call::Unlink {
        edge,
        from,
        to,
        name,
    })
}

fn read_unlink(alloc: Global, schema: &Schema, words: &[Word]) -> Result<Call, LineFault>
    requires { IsSpellable schema.now }
    ensures call { Reads result (unlink_line schema.now words.now) }
    ensures names { IfOk result (CallNames schema.now) }
{
    match words {
        [edge, source, target, job, name] if text(job) == b"job".as_slice() => {
            unlinked(alloc, schema, edge, source, target, name)
        }
        _ => Err(LineFault::Bad(Wrong::Malformed)),
    }
}

fn read_delete(words: &[Word]) -> Result<Call, Wrong>
    ensures call { result ≡ delete_line words.now }
    ensures names { (schema : Schema) → IfOk result (CallNames schema) }
{
    match words {
        [id, job, name] if text(job) == b"job".as_slice() => {
            let (id, name) = both(read_id(id), read_job(name))?;
            Ok(Call::Delete { id, name })
        }
        _ => Err(Wrong::Malformed),
    }
}

/// A job: its number, or the latest expiry job of an id.
pub fn read_job_name(words: &[Word]) -> Result<JobName, Wrong>
    ensures { result ≡ job_name words.now }
{
    match words {
        [name] => Ok(JobName::Named(read_job(name)?)),
        [expiry, id] if text(expiry) == b"expiry".as_slice() => Ok(JobName::Expiry(read_id(id)?)),
        _ => Err(Wrong::Malformed),
    }
}

/// The call that a line says, by its first word and the words behind it; None where no call begins so.
pub fn read_call(
    alloc: Global,
    schema: &Schema,
    keyword: &[u8],
    words: &[Word],
) -> Result<Option<Call>, LineFault>
    requires { IsSpellable schema.now }
    ensures call { Reads result (call_line schema.now keyword.now words.now) }
    ensures names { IfOk result (λ call. IfSome call (CallNames schema.now)) }
{
    if keyword == b"create".as_slice() {
        return Ok(Some(read_create(alloc, schema, words)?));
    }
    if keyword == b"update".as_slice() {
        return Ok(Some(read_update(alloc, words)?));
    }
    if keyword == b"link".as_slice() {
        return Ok(Some(read_link(alloc, schema, words)?));
    }
    if keyword == b"unlink".as_slice() {
        return Ok(Some(read_unlink(alloc, schema, words)?));
    }
    if keyword == b"delete".as_slice() {
        return Ok(Some(read_delete(words)?));
    }
    if keyword == b"restore".as_slice() {
        let name = read_job_name(words)?;
        return Ok(Some(Call::Restore { name }));
    }
    Ok(None)
}
