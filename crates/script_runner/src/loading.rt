//! A load: the generated script is made, the store is settled, and one line is put.
ghost use Rattle.std.specs.Prelude.{◌≡◌, ◌⊎◌, ◌≤◌, true, false, IsTrue, IfOk, OnOk, OnErr, []};
ghost use Rattle.std.specs.List.{All};
ghost use Rattle.delf_disk.specs.Causes.{Rose as DiskRose};
ghost use Rattle.delf_disk.specs.Plain.{Plain, SameKind};
ghost use Rattle.delf_io.specs.Faults.{Rose};
ghost use Rattle.delf_model.specs.Legal.{Legal};
ghost use Rattle.delf_model.specs.Payloads.{Payloads};
ghost use Rattle.delf_model.specs.Sound.{Sound};
ghost use Rattle.delf_book.specs.Books.{state_in};
ghost use Rattle.script_runner.specs.Blocks.{IsRunner};
ghost use Rattle.script_runner.specs.Endings.{EndCause};
ghost use Rattle.script_runner.specs.LoadEnds.{LoadText, LoadScriptText, LoadEndText, PutsLine, StarvesAmong};
ghost use Rattle.documents.specs.Loads.{IsStill};
ghost use Rattle.script_runner.specs.LoadEnds.{loaded_line};
ghost use Rattle.documents.specs.Names.{HasNames, HasNoLanes, IsNumberedCommand};
ghost use Rattle.script_runner.specs.Outcomes.{IsBad, LoadedText, LoadCause, AsksOnce};
ghost use Rattle.documents.specs.Loads.{OfLoad};
ghost use Rattle.script_runner.specs.Standing.{Falls, Leads};
ghost use Rattle.script_runner.specs.Worlds.{StandsOn, world_of};

use crate::blocks::{Blocks, Outs};
use crate::graph::ProgramBook;
use crate::lanes::serve;
use crate::program::{put_down, put_unopened};
use crate::readings::{edges, job_lines, objects};
use crate::status::Status;
use crate::store::Store;
use delf_book::BookFault;
use delf_disk::Rig;
use delf_io::{Clock, Sink};
use delf_model::{Bytes, Command, GREATEST_MOMENT, Moment, Schema};
use documents::{Document, load_document, put_all, restored_count};
use job_report::load_line;
use std::alloc::{AllocError, Global};

/// Makes a load of `n` objects, 8 to 20,000, over the store on `rig`, at the moment that the clock answers, and puts its line
/// to `sink`. The disk comes back.
pub(crate) fn run_load<K: Sink, R: Rig, C: Clock, B: Blocks<Store<R>, Outs>>(
    alloc: Global,
    blocks: &B,
    n: u32,
    sink: &mut K,
    rig: R,
    clock: &mut C,
) -> (Status, R)
    requires above { 8 ≤ n }
    requires below { n ≤ 20000 }
    requires ready { IsRunner B.served R.Disk (λ store. store.book) (λ store. store.clock) (λ v. v.items) (B.may blocks.now) (B.ran blocks.now) }
    ensures cause { LoadCause (Rose (K.faults sink.old) (K.faults sink.new)) (DiskRose (R.Disk.faults rig) (R.Disk.faults result.1))
        (λ area at. OfLoad B.served n (λ document. Plain (R.Disk.told rig) (R.Disk.honest rig) → IsBad document.rules (R.Disk.seen rig) (R.Disk.may_leave result.1) area at)) result.0 }
    ensures text { IsTrue (K.told sink.old) → LoadedText B.served n (result.1 ≡ rig) (λ document status. Plain (R.Disk.told rig) (R.Disk.honest rig)
        → LoadText n document (C.last_answer clock.new) (R.Disk.seen rig) (R.Disk.may_leave rig)
        (R.Disk.faults rig) (R.Disk.faults result.1) (R.Disk.may_leave result.1) (K.held sink.old) (K.held sink.new) status)
        (K.held sink.old) (K.held sink.new) result.0 }
    ensures same_sink { K.told sink.new ≡ K.told sink.old }
    ensures sink_faults { K.faults sink.old ≤ K.faults sink.new }
    ensures rig_faults { R.Disk.faults rig ≤ R.Disk.faults result.1 }
    ensures kind { SameKind R.Disk.told R.Disk.honest R.Disk.order R.Disk.orders rig result.1 }
    ensures asked { AsksOnce result.0 (C.times_asked clock.old) (C.times_asked clock.new) }
{
    let Ok(document) = load_document(alloc, n, blocks.are_served()) else {
        return (Status::OutOfMemory { done: 0 }, rig);
    };
    let moment = clock.now();
    load_into(alloc, blocks, n, moment, document, sink, rig)
}

// Opens the store, and makes the commands of a load.
fn load_into<K: Sink, R: Rig, B: Blocks<Store<R>, Outs>>(
    alloc: Global,
    blocks: &B,
    n: u32,
    moment: Moment,
    document: Document,
    sink: &mut K,
    rig: R,
) -> (Status, R)
    requires named { HasNames document.schema document.rules }
    requires numbered { All (IsNumberedCommand document.rules) document.commands }
    requires still { All IsStill document.commands }
    requires lanes { B.served ≡ false → All HasNoLanes document.commands }
    requires ready { IsRunner B.served R.Disk (λ store. store.book) (λ store. store.clock) (λ v. v.items) (B.may blocks.now) (B.ran blocks.now) }
    ensures cause { LoadCause (Rose (K.faults sink.old) (K.faults sink.new)) (DiskRose (R.Disk.faults rig) (R.Disk.faults result.1))
        (λ area at. Plain (R.Disk.told rig) (R.Disk.honest rig) → IsBad document.rules (R.Disk.seen rig) (R.Disk.may_leave result.1) area at) result.0 }
    ensures text { IsTrue (K.told sink.old) → Plain (R.Disk.told rig) (R.Disk.honest rig) → LoadText n document moment (R.Disk.seen rig) (R.Disk.may_leave rig)
        (R.Disk.faults rig) (R.Disk.faults result.1) (R.Disk.may_leave result.1) (K.held sink.old) (K.held sink.new) result.0 }
    ensures same_sink { K.told sink.new ≡ K.told sink.old }
    ensures sink_faults { K.faults sink.old ≤ K.faults sink.new }
    ensures rig_faults { R.Disk.faults rig ≤ R.Disk.faults result.1 }
    ensures kind { SameKind R.Disk.told R.Disk.honest R.Disk.order R.Disk.orders rig result.1 }
{
    let Document {
        schema,
        rules,
        commands,
    } = document;
    match Store::open(alloc, rules, rig, moment.min(GREATEST_MOMENT)) {
        Ok(store) => make_load(alloc, blocks, n, &schema, store, commands.as_slice(), sink),
        Err((fault, rig)) => (put_unopened(alloc, fault, 0, sink), rig),
    }
}

// Makes the commands of a load, and ends it.
fn make_load<K: Sink, R: Rig, B: Blocks<Store<R>, Outs>>(
    alloc: Global,
    blocks: &B,
    n: u32,
    schema: &Schema,
    store: Store<R>,
    commands: &[Command],
    sink: &mut K,
) -> (Status, R)
    requires up { store.book.down ≡ false }
    requires unclaimed { store.book.held ≡ [] }
    requires named { HasNames schema.now store.book.rules }
    requires numbered { All (IsNumberedCommand store.book.rules) commands.now }
    requires still { All IsStill commands.now }
    requires lanes { B.served ≡ false → All HasNoLanes commands.now }
    requires ready { IsRunner B.served R.Disk (λ store. store.book) (λ store. store.clock) (λ v. v.items) (B.may blocks.now) (B.ran blocks.now) }
    ensures cause { LoadCause (Rose (K.faults sink.old) (K.faults sink.new)) (DiskRose (R.Disk.faults store.book.rig) (R.Disk.faults result.1))
        (λ area at. ⊥) result.0 }
    ensures text { IsTrue (K.told sink.old) → Plain (R.Disk.told store.book.rig) (R.Disk.honest store.book.rig) → (e : Payloads)
        → StandsOn (world_of store.book store.clock e) (R.Disk.may_leave store.book.rig)
        → LoadScriptText n schema.now (world_of store.book store.clock e) commands.now (R.Disk.faults store.book.rig) (R.Disk.faults result.1) (R.Disk.may_leave result.1)
        (K.held sink.old) (K.held sink.new) result.0 }
    ensures same_sink { K.told sink.new ≡ K.told sink.old }
    ensures sink_faults { K.faults sink.old ≤ K.faults sink.new }
    ensures rig_faults { R.Disk.faults store.book.rig ≤ R.Disk.faults result.1 }
    ensures kind { SameKind R.Disk.told R.Disk.honest R.Disk.order R.Disk.orders store.book.rig result.1 }
{
    let (store, made) = make_all(alloc, blocks, schema, store, commands);
    match made {
        Ok(()) => finish_load(alloc, n, store, sink),
        Err(AllocError) => {
            let Store { book, clock: _ } = store;
            (Status::OutOfMemory { done: 0 }, book.into_disk())
        }
    }
}

// Makes the commands one by one; their lines are not put. The only error is want of memory.
fn make_all<R: Rig, B: Blocks<Store<R>, Outs>>(
    alloc: Global,
    blocks: &B,
    schema: &Schema,
    mut store: Store<R>,
    commands: &[Command],
) -> (Store<R>, Result<(), AllocError>)
    requires named { HasNames schema.now store.book.rules }
    requires numbered { All (IsNumberedCommand store.book.rules) commands.now }
    requires still { All IsStill commands.now }
    requires unclaimed { store.book.held ≡ [] }
    requires lanes { B.served ≡ false → All HasNoLanes commands.now }
    requires ready { IsRunner B.served R.Disk (λ store. store.book) (λ store. store.clock) (λ v. v.items) (B.may blocks.now) (B.ran blocks.now) }
    ensures made { OnOk result.1 (Plain (R.Disk.told store.book.rig) (R.Disk.honest store.book.rig) → (e : Payloads)
        → StandsOn (world_of store.book store.clock e) (R.Disk.may_leave store.book.rig)
        → Leads R.Disk.may_leave R.Disk.faults schema.now (world_of store.book store.clock e) commands.now (R.Disk.faults store.book.rig) result.0.book result.0.clock) }
    ensures starves { OnErr result.1 (Plain (R.Disk.told store.book.rig) (R.Disk.honest store.book.rig) → (e : Payloads)
        → StandsOn (world_of store.book store.clock e) (R.Disk.may_leave store.book.rig)
        → StarvesAmong schema.now (world_of store.book store.clock e) commands.now (R.Disk.faults store.book.rig) (R.Disk.faults result.0.book.rig) (R.Disk.may_leave result.0.book.rig)) }
    ensures kind { SameKind R.Disk.told R.Disk.honest R.Disk.order R.Disk.orders store.book.rig result.0.book.rig }
    ensures cause { Falls R.Disk.faults store.book result.0.book }
{
    for command in commands {
        let (next, lines) = serve(alloc, blocks, schema, store, command);
        store = next;
        match lines {
            Ok(_) => {}
            Err(AllocError) => return (store, Err(AllocError)),
        }
    }
    (store, Ok(()))
}

// Settles the store after the commands of a load, and puts its line.
fn finish_load<K: Sink, R: Rig>(alloc: Global, n: u32, store: Store<R>, sink: &mut K) -> (Status, R)
    ensures cause { EndCause 0 (Rose (K.faults sink.old) (K.faults sink.new)) ((store.book.down ≡ true) ⊎ DiskRose (R.Disk.faults store.book.rig) (R.Disk.faults result.1)) result.0 }
    ensures text { IsTrue (K.told sink.old) → Plain (R.Disk.told store.book.rig) (R.Disk.honest store.book.rig) → (e : Payloads)
        → StandsOn (world_of store.book store.clock e) (R.Disk.may_leave store.book.rig)
        → LoadEndText n (world_of store.book store.clock e) (R.Disk.faults store.book.rig) (R.Disk.faults result.1) (R.Disk.may_leave result.1)
        (K.held sink.old) (K.held sink.new) result.0 }
    ensures history { Legal store.book.rules store.book.history × Sound store.book.rules store.book.history }
    ensures same_sink { K.told sink.new ≡ K.told sink.old }
    ensures sink_faults { K.faults sink.old ≤ K.faults sink.new }
    ensures rig_faults { R.Disk.faults store.book.rig ≤ R.Disk.faults result.1 }
    ensures kind { SameKind R.Disk.told R.Disk.honest R.Disk.order R.Disk.orders store.book.rig result.1 }
{
    let Store { mut book, clock: _ } = store;
    let _len = book.len();
    book.standing();
    let status = match book.settle() {
        Ok(()) => put_loaded(alloc, n, &book, sink),
        Err(BookFault::Down { len }) => put_down(alloc, len, 0, sink),
        Err(BookFault::DiskFault { len }) => put_down(alloc, len, 0, sink),
    };
    (status, book.into_disk())
}

// Puts the line of a load.
fn put_loaded<K: Sink, R: Rig>(alloc: Global, n: u32, book: &ProgramBook<R>, sink: &mut K) -> Status
    ensures cause { EndCause 0 (Rose (K.faults sink.old) (K.faults sink.new)) ⊥ result }
    ensures text { IsTrue (K.told sink.old) → PutsLine (loaded_line n (state_in book.now)) (K.held sink.old) (K.held sink.new) result }
    ensures same_sink { K.told sink.new ≡ K.told sink.old }
    ensures sink_faults { K.faults sink.old ≤ K.faults sink.new }
{
    let Ok(line) = told_load(alloc, n, book) else {
        return Status::OutOfMemory { done: 0 };
    };
    match put_all(sink, line.as_slice()) {
        Ok(()) => Status::Done,
        Err(_) => Status::WriteFault { done: 0 },
    }
}

// The line of a load: what the store has now.
fn told_load<R: Rig>(alloc: Global, n: u32, book: &ProgramBook<R>) -> Result<Bytes, AllocError>
    ensures { IfOk result (λ line. line ≡ loaded_line n (state_in book.now)) }
{
    let objects = objects(alloc, book)?;
    let edges = edges(alloc, book)?;
    let jobs = job_lines(alloc, book)?;
    load_line(
        alloc,
        n,
        objects.len() as u32,
        edges.len() as u32,
        book.len(),
        jobs.len() as u32,
        restored_count(jobs.as_slice()),
    )
}
