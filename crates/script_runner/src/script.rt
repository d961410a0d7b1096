//! One command and its lines.
ghost use Rattle.std.specs.Prelude.{◌≡◌, ◌≤◌, false, IfOk, OnErr, []};
ghost use Rattle.delf_disk.specs.Plain.{Plain, SameKind, SameTelling};
ghost use Rattle.delf_model.specs.declared.schema.Schema.{Schema as ASchema};
ghost use Rattle.delf_model.specs.declared.call.Refusal.TheVariants as refused;
ghost use Rattle.delf_model.specs.declared.script.Command.TheVariants.{Work, Report};
ghost use Rattle.job_report.specs.Texts.{refusal_text};
ghost use Rattle.delf_model.specs.Graph.{object_at};
ghost use Rattle.delf_model.specs.Payloads.{Payloads};
ghost use Rattle.script_runner.specs.Lines.{LineLeaves, Tells};
ghost use Rattle.documents.specs.Names.{HasNames, IsNumberedCommand};
ghost use Rattle.script_runner.specs.Orders.{Gives};
ghost use Rattle.script_runner.specs.Serial.{row_found, graph_lines, report_line};
ghost use Rattle.script_runner.specs.Standing.{Falls, Carries, Halted, HasSettled, StepsCarry, ReadsOut, StaysHeld, IsServed, LineSaid};
ghost use Rattle.script_runner.specs.Worlds.{state_of};

use crate::answers::submit;
use crate::faults::LineFault;
use crate::graph::ProgramBook;
use crate::jobs::{job, jobs, report_text};
use crate::names::unprinted_name;
use crate::shows::{found, graph_shown};
use crate::store::Store;
use delf_book::{BookFault, StepFault, Worked};
use delf_disk::Rig;
use delf_model::{Bytes, Command, Moment, ObjectId, Refusal, Schema};
use job_report::{WorkEnd, down_line, refusal_line, work_line};
use std::alloc::{AllocError, Global};

/// Makes a command that keeps the store open, and gives its lines. The only error is want of memory.
pub(crate) fn perform<R: Rig>(
    alloc: Global,
    schema: &Schema,
    store: &mut Store<R>,
    command: &Command,
) -> Result<Bytes, AllocError>
    requires named { HasNames schema.now store.old.book.rules }
    requires numbered { IsNumberedCommand store.old.book.rules command.now }
    requires served { IsServed command.now }
    requires unclaimed { store.old.book.held ≡ [] }
    ensures rules { store.new.book.rules ≡ store.old.book.rules }
    ensures serves { IfOk result (λ text. Plain (R.Disk.told store.old.book.rig) (R.Disk.honest store.old.book.rig) → (e : Payloads)
        → Carries R.Disk.may_leave R.Disk.faults schema.now command.now store.old.book store.new.book store.old.clock store.new.clock e text) }
    ensures halts { OnErr result (Plain (R.Disk.told store.old.book.rig) (R.Disk.honest store.old.book.rig) → (e : Payloads)
        → Halted R.Disk.may_leave command.now store.old.book store.old.clock e store.new.book.rig) }
    ensures settles { IfOk result (λ text. Plain (R.Disk.told store.old.book.rig) (R.Disk.honest store.old.book.rig)
        → command.now ≡ Report → HasSettled R.Disk.may_leave store.new.book) }
    ensures telling { SameTelling R.Disk.told R.Disk.honest store.old.book.rig store.new.book.rig }
    ensures orders { Gives command.now (R.Disk.order store.old.book.rig) (R.Disk.orders store.old.book.rig) (R.Disk.order store.new.book.rig) (R.Disk.orders store.new.book.rig) }
    ensures cause { Falls R.Disk.faults store.old.book store.new.book }
{
    let _len = store.book.len();
    match command {
        Command::Submit(call) => submit(alloc, schema, &mut store.book, store.clock, call),
        Command::Work { n } => work(alloc, &mut store.book, store.clock, *n),
        Command::Tick { n } => {
            store.tick(*n);
            Ok(Bytes::from_vec(Vec::new(alloc)))
        }
        Command::Get(id) => get(alloc, schema, &mut store.book, *id),
        Command::Show => show(alloc, schema, &mut store.book),
        Command::Job(name) => job(alloc, schema, &store.book, name),
        Command::Jobs => jobs(alloc, &store.book),
        Command::Report => report(alloc, &mut store.book),
        Command::Fail { n } => {
            store.book.fail_after(*n);
            Ok(Bytes::from_vec(Vec::new(alloc)))
        }
        Command::Crash { .. } => unreachable!(),
        Command::Par { .. } => unreachable!(),
    }
}

// Makes steps until none is left, `n` at most, and gives the line of it.
fn work<R: Rig>(
    alloc: Global,
    book: &mut ProgramBook<R>,
    clock: Moment,
    n: u32,
) -> Result<Bytes, AllocError>
    requires unclaimed { book.old.held ≡ [] }
    ensures rules { book.new.rules ≡ book.old.rules }
    ensures serves { IfOk result (λ text. Plain (R.Disk.told book.old.rig) (R.Disk.honest book.old.rig) → (schema : ASchema) (e : Payloads)
        → Carries R.Disk.may_leave R.Disk.faults schema (Work n) book.old book.new clock clock e text) }
    ensures halts { OnErr result (Plain (R.Disk.told book.old.rig) (R.Disk.honest book.old.rig) → (e : Payloads)
        → Halted R.Disk.may_leave (Work n) book.old clock e book.new.rig) }
    ensures kind { SameKind R.Disk.told R.Disk.honest R.Disk.order R.Disk.orders book.old.rig book.new.rig }
    ensures cause { Falls R.Disk.faults book.old book.new }
{
    let len = book.len();
    if book.is_down() {
        return down_refused(alloc, len);
    }
    let (made, end) = make_steps(book, clock, n)?;
    let _after = book.len();
    work_line(alloc, made, end)
}

// Makes steps until none is left, `n` at most, and gives their number with why no more were made.
fn make_steps<R: Rig>(
    book: &mut ProgramBook<R>,
    clock: Moment,
    n: u32,
) -> Result<(u32, WorkEnd), AllocError>
    requires up { book.old.down ≡ false }
    requires unclaimed { book.old.held ≡ [] }
    ensures rules { book.new.rules ≡ book.old.rules }
    ensures made { IfOk result (λ it. it.0 ≤ n) }
    ensures steps { IfOk result (λ it. Plain (R.Disk.told book.old.rig) (R.Disk.honest book.old.rig) → (e : Payloads)
        → StepsCarry R.Disk.may_leave R.Disk.faults n book.old book.new clock e it.0 it.1) }
    ensures halts { OnErr result (Plain (R.Disk.told book.old.rig) (R.Disk.honest book.old.rig) → (e : Payloads)
        → Halted R.Disk.may_leave (Work n) book.old clock e book.new.rig) }
    ensures kind { SameKind R.Disk.told R.Disk.honest R.Disk.order R.Disk.orders book.old.rig book.new.rig }
    ensures cause { Falls R.Disk.faults book.old book.new }
{
    for made in 0..n {
        let _len = book.len();
        book.standing();
        match book.work(clock) {
            Ok(Worked::Stepped { .. }) => {}
            Ok(Worked::Idle { .. }) => return Ok((made, WorkEnd::Idle)),
            Err(StepFault::OutOfMemory) => return Err(AllocError),
            Err(StepFault::DiskFault { len }) => return Ok((made, WorkEnd::Down { len })),
            Err(StepFault::Damaged { item, .. }) => return Ok((made, WorkEnd::Damaged { item })),
            Err(StepFault::Down { .. }) => unreachable!(),
        }
    }
    Ok((n, WorkEnd::All))
}

// The line of an object with its owner.
fn get<R: Rig>(
    alloc: Global,
    schema: &Schema,
    book: &mut ProgramBook<R>,
    id: ObjectId,
) -> Result<Bytes, AllocError>
    requires named { HasNames schema.now book.old.rules }
    ensures rules { book.new.rules ≡ book.old.rules }
    ensures serves { IfOk result (λ text. Plain (R.Disk.told book.old.rig) (R.Disk.honest book.old.rig)
        → ReadsOut R.Disk.may_leave R.Disk.faults (λ w. row_found schema.now w id (object_at (state_of w).graph id)) book.old book.new text) }
    ensures halts { OnErr result (Plain (R.Disk.told book.old.rig) (R.Disk.honest book.old.rig) → StaysHeld R.Disk.may_leave book.old book.new) }
    ensures kind { SameKind R.Disk.told R.Disk.honest R.Disk.order R.Disk.orders book.old.rig book.new.rig }
    ensures cause { Falls R.Disk.faults book.old book.new }
{
    let len = book.len();
    if book.is_down() {
        return down_refused(alloc, len);
    }
    let told = found(alloc, schema, book, id);
    told_or_down(alloc, told)
}

// The lines of the graph.
fn show<R: Rig>(
    alloc: Global,
    schema: &Schema,
    book: &mut ProgramBook<R>,
) -> Result<Bytes, AllocError>
    requires named { HasNames schema.now book.old.rules }
    ensures rules { book.new.rules ≡ book.old.rules }
    ensures serves { IfOk result (λ text. Plain (R.Disk.told book.old.rig) (R.Disk.honest book.old.rig)
        → ReadsOut R.Disk.may_leave R.Disk.faults (λ w. graph_lines schema.now w) book.old book.new text) }
    ensures halts { OnErr result (Plain (R.Disk.told book.old.rig) (R.Disk.honest book.old.rig) → StaysHeld R.Disk.may_leave book.old book.new) }
    ensures kind { SameKind R.Disk.told R.Disk.honest R.Disk.order R.Disk.orders book.old.rig book.new.rig }
    ensures cause { Falls R.Disk.faults book.old book.new }
{
    let len = book.len();
    if book.is_down() {
        return down_refused(alloc, len);
    }
    let told = graph_shown(alloc, schema, book);
    told_or_down(alloc, told)
}

// Settles, and gives the line of the report.
fn report<R: Rig>(alloc: Global, book: &mut ProgramBook<R>) -> Result<Bytes, AllocError>
    ensures rules { book.new.rules ≡ book.old.rules }
    ensures serves { IfOk result (λ text. Plain (R.Disk.told book.old.rig) (R.Disk.honest book.old.rig)
        → ReadsOut R.Disk.may_leave R.Disk.faults (λ w. report_line (state_of w)) book.old book.new text) }
    ensures halts { OnErr result (Plain (R.Disk.told book.old.rig) (R.Disk.honest book.old.rig) → StaysHeld R.Disk.may_leave book.old book.new) }
    ensures settles { IfOk result (λ text. Plain (R.Disk.told book.old.rig) (R.Disk.honest book.old.rig) → HasSettled R.Disk.may_leave book.new) }
    ensures kind { SameKind R.Disk.told R.Disk.honest R.Disk.order R.Disk.orders book.old.rig book.new.rig }
    ensures cause { Falls R.Disk.faults book.old book.new }
{
    let len = book.len();
    if book.is_down() {
        return down_refused(alloc, len);
    }
    let told = reported(alloc, book);
    told_or_down(alloc, told)
}

// The line of the report, once the store is settled.
fn reported<R: Rig>(alloc: Global, book: &mut ProgramBook<R>) -> Result<Bytes, LineFault>
    requires up { book.old.down ≡ false }
    ensures text { IfOk result (Tells R.Disk.told R.Disk.honest R.Disk.may_leave book.old (λ w. report_line (state_of w))) }
    ensures settles { IfOk result (λ text. Plain (R.Disk.told book.old.rig) (R.Disk.honest book.old.rig) → HasSettled R.Disk.may_leave book.new) }
    ensures leaves { LineLeaves R.Disk.told R.Disk.honest R.Disk.may_leave R.Disk.order R.Disk.orders R.Disk.faults book.old book.new result }
{
    let _len = book.len();
    book.standing();
    match book.settle() {
        Ok(()) => {}
        Err(BookFault::DiskFault { len }) => return Err(LineFault::Failed { len }),
        Err(BookFault::Down { .. }) => unreachable!(),
    }
    match report_text(alloc, book) {
        Ok(text) => Ok(text),
        Err(AllocError) => Err(LineFault::OutOfMemory),
    }
}

// The lines, or the line of the disk fault in place of them.
fn told_or_down(alloc: Global, told: Result<Bytes, LineFault>) -> Result<Bytes, AllocError>
    ensures { IfOk result (λ text. LineSaid told text) }
{
    match told {
        Ok(text) => Ok(text),
        Err(LineFault::OutOfMemory) => Err(AllocError),
        Err(LineFault::Failed { len }) => down_line(alloc, len),
    }
}

/// The line that is printed while the store is down.
pub(crate) fn down_refused(alloc: Global, len: u32) -> Result<Bytes, AllocError>
    ensures { IfOk result (λ text. text ≡ refusal_text (refused.Down len) len []) }
{
    refusal_line(alloc, &Refusal::Down { len }, len, &unprinted_name(alloc)?)
}
