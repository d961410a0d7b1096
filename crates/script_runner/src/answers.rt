//! A writing call and the line of its answer.
ghost use Rattle.std.specs.Prelude.{◌≡◌, cond, IfOk, OnErr, Some, None, length, is_some};
ghost use Rattle.delf_disk.specs.Plain.{Plain, SameKind};
ghost use Rattle.delf_model.specs.declared.script.Command.TheVariants.{Submit};
ghost use Rattle.delf_model.specs.Payloads.{Payloads};
ghost use Rattle.job_report.specs.Texts.{refusal_text};
ghost use Rattle.script_runner.specs.Lines.{receipt_text, refusal_name};
ghost use Rattle.documents.specs.Names.{HasNames, IsNumberedCall};
ghost use Rattle.script_runner.specs.Names.{IsNamed, IsNumberedRefusal};
ghost use Rattle.script_runner.specs.Standing.{Falls, Carries, Halted};

use crate::graph::ProgramBook;
use crate::names::unprinted_name;
use delf_book::Receipt;
use delf_disk::Rig;
use delf_model::{Bytes, Call, Moment, Refusal, Schema};
use documents::{edge_name, kind_name};
use job_report::{
    created_line, deleting_line, linked_line, refusal_line, restoring_line, unlinked_line,
    updated_line,
};
use std::alloc::{AllocError, Global};

/// Makes a call at this moment of the clock, and gives the line of its answer.
pub(crate) fn submit<R: Rig>(
    alloc: Global,
    schema: &Schema,
    book: &mut ProgramBook<R>,
    clock: Moment,
    call: &Call,
) -> Result<Bytes, AllocError>
    requires named { HasNames schema.now book.old.rules }
    requires numbered { IsNumberedCall book.old.rules call.now }
    ensures rules { book.new.rules ≡ book.old.rules }
    ensures serves { IfOk result (λ text. Plain (R.Disk.told book.old.rig) (R.Disk.honest book.old.rig) → (e : Payloads)
        → Carries R.Disk.may_leave R.Disk.faults schema.now (Submit call.now) book.old book.new clock clock e text) }
    ensures halts { OnErr result (Plain (R.Disk.told book.old.rig) (R.Disk.honest book.old.rig) → (e : Payloads)
        → Halted R.Disk.may_leave (Submit call.now) book.old clock e book.new.rig) }
    ensures kind { SameKind R.Disk.told R.Disk.honest R.Disk.order R.Disk.orders book.old.rig book.new.rig }
    ensures cause { Falls R.Disk.faults book.old book.new }
{
    let len = book.len();
    // What the disk holds.
    book.standing();
    match book.call(clock, 0, call) {
        Ok(receipt) => accepted_line(alloc, schema, call, &receipt),
        Err(refusal) => refused_line(alloc, schema, &refusal, len),
    }
}

/// The line of an accepted call.
pub(crate) fn accepted_line(
    alloc: Global,
    schema: &Schema,
    call: &Call,
    receipt: &Receipt,
) -> Result<Bytes, AllocError>
    requires { IsNamed schema.now call.now }
    ensures { IfOk result (λ text. text ≡ receipt_text schema.now call.now receipt.now) }
{
    let position = receipt.position;
    match call {
        Call::Create { id, .. } => created_line(alloc, position, *id),
        Call::Update { id, .. } => updated_line(alloc, position, *id),
        Call::Link { edge, from, to, .. } => {
            linked_line(alloc, position, edge_name(schema, *edge), *from, *to)
        }
        Call::Unlink {
            edge,
            from,
            to,
            name,
        } => unlinked_line(
            alloc,
            position,
            edge_name(schema, *edge),
            *from,
            *to,
            started_name(receipt, *name),
        ),
        Call::Delete { id, name } => deleting_line(alloc, position, *id, *name),
        Call::Restore { name } => restoring_line(alloc, position, *name, receipt.items),
    }
}

// The name, where the call started a job.
fn started_name(receipt: &Receipt, name: u32) -> Option<u32>
    ensures { result ≡ cond (is_some receipt.now.started) (Some name) None }
{
    match receipt.started {
        Some(_) => Some(name),
        None => None,
    }
}

/// The line of a refusal at this length of the history; want of memory has none.
pub(crate) fn refused_line(
    alloc: Global,
    schema: &Schema,
    refusal: &Refusal,
    len: u32,
) -> Result<Bytes, AllocError>
    requires { IsNumberedRefusal (length schema.now.objects) refusal.now }
    ensures text { IfOk result (λ text. text ≡ refusal_text refusal.now len (refusal_name schema.now refusal.now)) }
    ensures other { IfOk result (λ text. refusal.now ≡ Refusal.OutOfMemory → ⊥) }
{
    match refusal {
        Refusal::OutOfMemory => Err(AllocError),
        Refusal::WrongEnd { kind, .. } => {
            refusal_line(alloc, refusal, len, kind_name(schema, *kind))
        }
        _ => refusal_line(alloc, refusal, len, &unprinted_name(alloc)?),
    }
}
