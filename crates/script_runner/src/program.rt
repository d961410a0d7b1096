//! A run: the words, the source, the store, its commands one by one, and the last settling.
ghost use Rattle.std.specs.Prelude.{◌≡◌, ◌++◌, ◌⊎◌, ◌<◌, ◌≤◌, ◌^◌, ℕ, List, Some, true, false, IsTrue, IfOk, IfErr, IfSome, IsSomeAnd, map, length, string_bytes, []};
ghost use Rattle.std.specs.List.{All};
ghost use Rattle.delf_disk.specs.Causes.{Rose as DiskRose};
ghost use Rattle.delf_disk.specs.Plain.{Plain, SameKind, SameTelling};
ghost use Rattle.delf_io.specs.Faults.{Rose};
ghost use Rattle.delf_recovery.specs.declared.fault.OpenFault.TheVariants.{OutOfMemory};
ghost use Rattle.delf_model.specs.Checked.{IsSpellable, numbered};
ghost use Rattle.delf_model.specs.declared.script.Command.TheVariants.{Report};
ghost use Rattle.delf_model.specs.Legal.{Legal};
ghost use Rattle.delf_model.specs.Sound.{Sound};
ghost use Rattle.job_report.specs.Texts.{opened_text};
ghost use Rattle.delf_model.specs.Payloads.{Payloads};
ghost use denote.Param.Send.{IsSend, IsSync};
ghost use Rattle.script_runner.specs.Blocks.{IsRunner, MayRun, RunsInto};
ghost use Rattle.script_runner.specs.Complete.{IsQuiet, IsStore, EndsWell};
ghost use Rattle.script_runner.specs.Endings.{UnopenedText, UnopenedCause, DownText, DownCause, EndText, EndCause};
ghost use Rattle.script_runner.specs.Headline.{Headline};
ghost use Rattle.script_runner.specs.LoadEnds.{LoadText};
ghost use Rattle.script_runner.specs.Openings.{MayGive, StopCounts, Stops};
ghost use Rattle.script_runner.specs.Orders.{Gives};
ghost use Rattle.documents.specs.Requests.{request_of, moment_of_start};
ghost use Rattle.documents.specs.Names.{HasNames, IsNumberedCommand, HasNoLanes};
ghost use Rattle.script_runner.specs.Outcomes.{RunText, RunCause, UsageText, UsageCause, SourceText, SourceCause, BytesText, BytesCause, DocumentText, ScriptText, ScriptCause, Untouched, UntouchedBy, UnreadBy, ReadsAll, ReadsAllBy, OrdersOf, OrdersBy, OrdersMade, IsBad, bad_text, Asks, AsksFor};
ghost use Rattle.script_runner.specs.Faults.{FaultText, FaultCause};
ghost use Rattle.script_runner.specs.Standing.{Falls, Carries, HasSettled};
ghost use Rattle.script_runner.specs.Worlds.{StandsOn, world_of};

use crate::blocks::{Blocks, NoBlocks, Outs, RunBy};
use crate::check::check_source;
use crate::graph::ProgramBook;
use crate::lanes::serve;
use crate::loading::run_load;
use crate::status::Status;
use crate::store::{Store, crash};
use delf_book::BookFault;
use delf_disk::{Area, Rig};
use delf_io::{Clock, Sink, Source};
use delf_model::{Bytes, Command, GREATEST_MOMENT, Lane, Moment, Schema};
use delf_recovery::OpenFault;
use delf_service::{Gate, run_lanes};
use documents::{
    Document, READ_LIMIT, ReadError, Request, Start, put_all, read_at_most, read_document,
    read_words,
};
use job_report::{bad_journal_line, bad_vault_line, down_line, fault_line, opened_line};
use script_lang::DocumentFault;
use std::alloc::{AllocError, Global};
use std::sync::Wait;
use std::thread::Threads;

/// Runs the program with these words. `run` reads a document from `source`, opens the store on `rig`, makes the commands, and
/// puts their lines to `sink`; the moment of the start is the one that the words give, or the clock's answer, which is asked
/// for once the document was accepted. `check` reads a document, puts its routes and makes no disk call. `load` reads nothing,
/// makes the script that is generated to a size, settles, and puts one line. Other words are answered by the usage line. The
/// disk comes back. No script has blocks of lanes, and it waits for nobody.
pub fn run_plain<S: Source, K: Sink, R: Rig, C: Clock>(
    alloc: Global,
    words: &[String],
    source: &mut S,
    sink: &mut K,
    rig: R,
    clock: &mut C,
) -> (Status, R)
    // What it comes to, row by row of its status.
    ensures headline { IsTrue (S.told source.old) → IsTrue (K.told sink.old) → Plain (R.Disk.told rig) (R.Disk.honest rig) → Headline (record {
      blocks = false;
      request = request_of (map string_bytes words.now);
      answer = C.last_answer clock.new;
      left = S.left source.old;
      before = K.held sink.old;
      after = K.held sink.new;
      seen = R.Disk.seen rig;
      old_images = R.Disk.may_leave rig;
      images = R.Disk.may_leave result.1;
      start = R.Disk.faults rig;
      now = R.Disk.faults result.1;
      untouched = result.1 ≡ rig;
    }) result.0 }

    // Why it ended so, and what it put and left on the disk.
    ensures cause { RunCause false (request_of (map string_bytes words.now)) (S.told source.old) (S.left source.old)
        (Rose (S.faults source.old) (S.faults source.new)) (Rose (K.faults sink.old) (K.faults sink.new)) (DiskRose (R.Disk.faults rig) (R.Disk.faults result.1))
        (λ rules area at. Plain (R.Disk.told rig) (R.Disk.honest rig) → IsBad rules (R.Disk.seen rig) (R.Disk.may_leave result.1) area at) result.0 }
    ensures complete { IsQuiet (Rose (S.faults source.old) (S.faults source.new)) (Rose (K.faults sink.old) (K.faults sink.new)) (DiskRose (R.Disk.faults rig) (R.Disk.faults result.1))
        → EndsWell false (request_of (map string_bytes words.now)) (S.told source.old) (S.left source.old)
        (λ rules. Plain (R.Disk.told rig) (R.Disk.honest rig) × IsStore rules (R.Disk.seen rig)) result.0 }
    ensures text { IsTrue (K.told sink.old) → RunText false (request_of (map string_bytes words.now)) (C.last_answer clock.new)
        (S.told source.old) (S.left source.old) (result.1 ≡ rig) (λ moment document status. Plain (R.Disk.told rig) (R.Disk.honest rig) → DocumentText document moment (R.Disk.seen rig) (R.Disk.may_leave rig)
        (R.Disk.faults rig) (R.Disk.faults result.1) (R.Disk.may_leave result.1) (K.held sink.old) (K.held sink.new) status)
        (λ n moment document status. Plain (R.Disk.told rig) (R.Disk.honest rig) → LoadText n document moment (R.Disk.seen rig) (R.Disk.may_leave rig)
        (R.Disk.faults rig) (R.Disk.faults result.1) (R.Disk.may_leave result.1) (K.held sink.old) (K.held sink.new) status)
        (K.held sink.old) (K.held sink.new) result.0 }

    // What it leaves.
    ensures read { IsTrue (S.told source.old) → (read : List ℕ) × (length read ≤ 16777217)
        × (S.left source.old ≡ read ++ S.left source.new) }
    ensures whole { IsTrue (S.told source.old) → ReadsAllBy (request_of (map string_bytes words.now)) (S.left source.old) (S.left source.new) result.0 }
    ensures unread { UnreadBy (request_of (map string_bytes words.now)) (source.new ≡ source.old) }
    ensures same_source { S.told source.new ≡ S.told source.old }
    ensures same_sink { K.told sink.new ≡ K.told sink.old }
    ensures sink_faults { K.faults sink.old ≤ K.faults sink.new }
    ensures telling { SameTelling R.Disk.told R.Disk.honest rig result.1 }
    ensures rig_faults { R.Disk.faults rig ≤ R.Disk.faults result.1 }
    ensures source_faults { S.faults source.old ≤ S.faults source.new }
    ensures untouched { UntouchedBy (request_of (map string_bytes words.now)) (result.1 ≡ rig) result.0 }
    ensures orders { OrdersBy false (request_of (map string_bytes words.now)) (S.told source.old) (S.left source.old) (R.Disk.order rig) (R.Disk.orders rig) (R.Disk.order result.1) (R.Disk.orders result.1) result.0 }
    ensures asked { Asks (request_of (map string_bytes words.now)) result.0 (C.times_asked clock.old) (C.times_asked clock.new) }
{
    run_words(alloc, &NoBlocks, words, source, sink, rig, clock)
}

/// The same, where scripts may have blocks of lanes, which run on threads, a lane each, and tell the gate of their entries. A
/// load makes its script's block so. It may wait.
pub fn run<W: Threads + Wait + Sync, S: Source, K: Sink, R: Rig + Send, C: Clock, Q: Gate + Sync>(
    rt: &W,
    alloc: Global,
    words: &[String],
    source: &mut S,
    sink: &mut K,
    rig: R,
    clock: &mut C,
    gate: &Q,
) -> (Status, R)
    // What it comes to, row by row of its status.
    ensures headline { IsTrue (S.told source.old) → IsTrue (K.told sink.old) → Plain (R.Disk.told rig) (R.Disk.honest rig) → Headline (record {
      blocks = true;
      request = request_of (map string_bytes words.now);
      answer = C.last_answer clock.new;
      left = S.left source.old;
      before = K.held sink.old;
      after = K.held sink.new;
      seen = R.Disk.seen rig;
      old_images = R.Disk.may_leave rig;
      images = R.Disk.may_leave result.1;
      start = R.Disk.faults rig;
      now = R.Disk.faults result.1;
      untouched = result.1 ≡ rig;
    }) result.0 }

    // Why it ended so, and what it put and left on the disk.
    ensures cause { RunCause true (request_of (map string_bytes words.now)) (S.told source.old) (S.left source.old)
        (Rose (S.faults source.old) (S.faults source.new)) (Rose (K.faults sink.old) (K.faults sink.new)) (DiskRose (R.Disk.faults rig) (R.Disk.faults result.1))
        (λ rules area at. Plain (R.Disk.told rig) (R.Disk.honest rig) → IsBad rules (R.Disk.seen rig) (R.Disk.may_leave result.1) area at) result.0 }
    ensures complete { IsQuiet (Rose (S.faults source.old) (S.faults source.new)) (Rose (K.faults sink.old) (K.faults sink.new)) (DiskRose (R.Disk.faults rig) (R.Disk.faults result.1))
        → EndsWell true (request_of (map string_bytes words.now)) (S.told source.old) (S.left source.old)
        (λ rules. Plain (R.Disk.told rig) (R.Disk.honest rig) × IsStore rules (R.Disk.seen rig)) result.0 }
    ensures text { IsTrue (K.told sink.old) → RunText true (request_of (map string_bytes words.now)) (C.last_answer clock.new)
        (S.told source.old) (S.left source.old) (result.1 ≡ rig) (λ moment document status. Plain (R.Disk.told rig) (R.Disk.honest rig) → DocumentText document moment (R.Disk.seen rig) (R.Disk.may_leave rig)
        (R.Disk.faults rig) (R.Disk.faults result.1) (R.Disk.may_leave result.1) (K.held sink.old) (K.held sink.new) status)
        (λ n moment document status. Plain (R.Disk.told rig) (R.Disk.honest rig) → LoadText n document moment (R.Disk.seen rig) (R.Disk.may_leave rig)
        (R.Disk.faults rig) (R.Disk.faults result.1) (R.Disk.may_leave result.1) (K.held sink.old) (K.held sink.new) status)
        (K.held sink.old) (K.held sink.new) result.0 }

    // What it leaves.
    ensures read { IsTrue (S.told source.old) → (read : List ℕ) × (length read ≤ 16777217)
        × (S.left source.old ≡ read ++ S.left source.new) }
    ensures whole { IsTrue (S.told source.old) → ReadsAllBy (request_of (map string_bytes words.now)) (S.left source.old) (S.left source.new) result.0 }
    ensures unread { UnreadBy (request_of (map string_bytes words.now)) (source.new ≡ source.old) }
    ensures same_source { S.told source.new ≡ S.told source.old }
    ensures same_sink { K.told sink.new ≡ K.told sink.old }
    ensures sink_faults { K.faults sink.old ≤ K.faults sink.new }
    ensures telling { SameTelling R.Disk.told R.Disk.honest rig result.1 }
    ensures rig_faults { R.Disk.faults rig ≤ R.Disk.faults result.1 }
    ensures source_faults { S.faults source.old ≤ S.faults source.new }
    ensures untouched { UntouchedBy (request_of (map string_bytes words.now)) (result.1 ≡ rig) result.0 }
    ensures orders { OrdersBy true (request_of (map string_bytes words.now)) (S.told source.old) (S.left source.old) (R.Disk.order rig) (R.Disk.orders rig) (R.Disk.order result.1) (R.Disk.orders result.1) result.0 }
    ensures asked { Asks (request_of (map string_bytes words.now)) result.0 (C.times_asked clock.old) (C.times_asked clock.new) }
{
    run_words(
        alloc,
        &RunBy {
            rt,
            alloc,
            gate,
            run: run_slot::<W, R, Q>,
        },
        words,
        source,
        sink,
        rig,
        clock,
    )
}

// Runs the lanes of a block over the store in a slot.
fn run_slot<W: Threads + Wait + Sync, R: Rig + Send, Q: Gate + Sync>(
    rt: &W,
    alloc: Global,
    gate: &Q,
    slot: &mut Option<Store<R>>,
    lanes: &[Lane],
    workers: u8,
    turns: u32,
) -> Outs
    // A function that is handed on by name states what its bounds ask.
    requires bounds { IsSync W.row × IsSync Q.row × IsSend R.row }
    requires may { IsSomeAnd slot.old (λ store. MayRun store.book.rules workers lanes.now) }
    ensures { IfSome slot.old (λ store. IsSomeAnd slot.new (RunsInto R.Disk (λ it. it.book) (λ it. it.clock) (λ v. v.items) store lanes.now result)) }
{
    let Some(store) = slot.take() else {
        unreachable!()
    };
    let (store, outs) = run_store(rt, alloc, gate, store, lanes, workers, turns);
    match slot.replace(store) {
        None => outs,
        Some(_) => unreachable!(),
    }
}

// Runs the lanes of a block over a store.
fn run_store<W: Threads + Wait + Sync, R: Rig + Send, Q: Gate + Sync>(
    rt: &W,
    alloc: Global,
    gate: &Q,
    store: Store<R>,
    lanes: &[Lane],
    workers: u8,
    turns: u32,
) -> (Store<R>, Outs)
    requires { MayRun store.book.rules workers lanes.now }
    ensures { RunsInto R.Disk (λ it. it.book) (λ it. it.clock) (λ v. v.items) store lanes.now result.1 result.0 }
{
    let Store { book, clock } = store;
    let (book, outs) = run_lanes(rt, alloc, book, clock, lanes, workers, turns, gate);
    (Store { book, clock }, outs)
}

// The same, by what runs the lanes of a block.
fn run_words<S: Source, K: Sink, R: Rig, C: Clock, B: Blocks<Store<R>, Outs>>(
    alloc: Global,
    blocks: &B,
    words: &[String],
    source: &mut S,
    sink: &mut K,
    rig: R,
    clock: &mut C,
) -> (Status, R)
    requires { IsRunner B.served R.Disk (λ store. store.book) (λ store. store.clock) (λ v. v.items) (B.may blocks.now) (B.ran blocks.now) }
    // What it comes to, row by row of its status.
    ensures headline { IsTrue (S.told source.old) → IsTrue (K.told sink.old) → Plain (R.Disk.told rig) (R.Disk.honest rig) → Headline (record {
      blocks = B.served;
      request = request_of (map string_bytes words.now);
      answer = C.last_answer clock.new;
      left = S.left source.old;
      before = K.held sink.old;
      after = K.held sink.new;
      seen = R.Disk.seen rig;
      old_images = R.Disk.may_leave rig;
      images = R.Disk.may_leave result.1;
      start = R.Disk.faults rig;
      now = R.Disk.faults result.1;
      untouched = result.1 ≡ rig;
    }) result.0 }

    // Why it ended so, and what it put and left on the disk.
    ensures cause { RunCause B.served (request_of (map string_bytes words.now)) (S.told source.old) (S.left source.old)
        (Rose (S.faults source.old) (S.faults source.new)) (Rose (K.faults sink.old) (K.faults sink.new)) (DiskRose (R.Disk.faults rig) (R.Disk.faults result.1))
        (λ rules area at. Plain (R.Disk.told rig) (R.Disk.honest rig) → IsBad rules (R.Disk.seen rig) (R.Disk.may_leave result.1) area at) result.0 }
    ensures complete { IsQuiet (Rose (S.faults source.old) (S.faults source.new)) (Rose (K.faults sink.old) (K.faults sink.new)) (DiskRose (R.Disk.faults rig) (R.Disk.faults result.1))
        → EndsWell B.served (request_of (map string_bytes words.now)) (S.told source.old) (S.left source.old)
        (λ rules. Plain (R.Disk.told rig) (R.Disk.honest rig) × IsStore rules (R.Disk.seen rig)) result.0 }
    ensures text { IsTrue (K.told sink.old) → RunText B.served (request_of (map string_bytes words.now)) (C.last_answer clock.new)
        (S.told source.old) (S.left source.old) (result.1 ≡ rig) (λ moment document status. Plain (R.Disk.told rig) (R.Disk.honest rig) → DocumentText document moment (R.Disk.seen rig) (R.Disk.may_leave rig)
        (R.Disk.faults rig) (R.Disk.faults result.1) (R.Disk.may_leave result.1) (K.held sink.old) (K.held sink.new) status)
        (λ n moment document status. Plain (R.Disk.told rig) (R.Disk.honest rig) → LoadText n document moment (R.Disk.seen rig) (R.Disk.may_leave rig)
        (R.Disk.faults rig) (R.Disk.faults result.1) (R.Disk.may_leave result.1) (K.held sink.old) (K.held sink.new) status)
        (K.held sink.old) (K.held sink.new) result.0 }

    // What it leaves.
    ensures read { IsTrue (S.told source.old) → (read : List ℕ) × (length read ≤ 16777217)
        × (S.left source.old ≡ read ++ S.left source.new) }
    ensures whole { IsTrue (S.told source.old) → ReadsAllBy (request_of (map string_bytes words.now)) (S.left source.old) (S.left source.new) result.0 }
    ensures unread { UnreadBy (request_of (map string_bytes words.now)) (source.new ≡ source.old) }
    ensures same_source { S.told source.new ≡ S.told source.old }
    ensures same_sink { K.told sink.new ≡ K.told sink.old }
    ensures sink_faults { K.faults sink.old ≤ K.faults sink.new }
    ensures telling { SameTelling R.Disk.told R.Disk.honest rig result.1 }
    ensures rig_faults { R.Disk.faults rig ≤ R.Disk.faults result.1 }
    ensures source_faults { S.faults source.old ≤ S.faults source.new }
    ensures untouched { UntouchedBy (request_of (map string_bytes words.now)) (result.1 ≡ rig) result.0 }
    ensures orders { OrdersBy B.served (request_of (map string_bytes words.now)) (S.told source.old) (S.left source.old) (R.Disk.order rig) (R.Disk.orders rig) (R.Disk.order result.1) (R.Disk.orders result.1) result.0 }
    ensures asked { Asks (request_of (map string_bytes words.now)) result.0 (C.times_asked clock.old) (C.times_asked clock.new) }
{
    match read_words(words) {
        Some(Request::Run(start)) => run_source(alloc, blocks, start, source, sink, rig, clock),
        Some(Request::Check) => (check_source(alloc, source, sink, blocks.are_served()), rig),
        Some(Request::Load { n }) => run_load(alloc, blocks, n, sink, rig, clock),
        None => (put_usage(sink), rig),
    }
}

fn put_usage<K: Sink>(sink: &mut K) -> Status
    ensures cause { UsageCause (Rose (K.faults sink.old) (K.faults sink.new)) result }
    ensures text { IsTrue (K.told sink.old) → UsageText (K.held sink.old) (K.held sink.new) result }
    ensures same_sink { K.told sink.new ≡ K.told sink.old }
    ensures sink_faults { K.faults sink.old ≤ K.faults sink.new }
{
    match put_all(sink, b"usage: delf run [--at N] | check | load N\n") {
        Ok(()) => Status::Usage,
        Err(_) => Status::WriteFault { done: 0 },
    }
}

fn run_source<S: Source, K: Sink, R: Rig, C: Clock, B: Blocks<Store<R>, Outs>>(
    alloc: Global,
    blocks: &B,
    start: Start,
    source: &mut S,
    sink: &mut K,
    rig: R,
    clock: &mut C,
) -> (Status, R)
    requires { IsRunner B.served R.Disk (λ store. store.book) (λ store. store.clock) (λ v. v.items) (B.may blocks.now) (B.ran blocks.now) }
    ensures cause { SourceCause B.served (S.told source.old) (S.left source.old)
        (Rose (S.faults source.old) (S.faults source.new)) (Rose (K.faults sink.old) (K.faults sink.new)) (DiskRose (R.Disk.faults rig) (R.Disk.faults result.1))
        (λ rules area at. Plain (R.Disk.told rig) (R.Disk.honest rig) → IsBad rules (R.Disk.seen rig) (R.Disk.may_leave result.1) area at) result.0 }
    ensures text { IsTrue (K.told sink.old) → SourceText B.served (S.told source.old) (S.left source.old) (result.1 ≡ rig)
        (λ document status. Plain (R.Disk.told rig) (R.Disk.honest rig) → DocumentText document (moment_of_start start (C.last_answer clock.new)) (R.Disk.seen rig) (R.Disk.may_leave rig)
        (R.Disk.faults rig) (R.Disk.faults result.1) (R.Disk.may_leave result.1) (K.held sink.old) (K.held sink.new) status)
        (K.held sink.old) (K.held sink.new) result.0 }
    ensures read { IsTrue (S.told source.old) → (read : List ℕ) × (length read ≤ 16777217)
        × (S.left source.old ≡ read ++ S.left source.new) }
    ensures whole { IsTrue (S.told source.old) → ReadsAll (S.left source.old) (S.left source.new) result.0 }
    ensures same_source { S.told source.new ≡ S.told source.old }
    ensures same_sink { K.told sink.new ≡ K.told sink.old }
    ensures sink_faults { K.faults sink.old ≤ K.faults sink.new }
    ensures telling { SameTelling R.Disk.told R.Disk.honest rig result.1 }
    ensures rig_faults { R.Disk.faults rig ≤ R.Disk.faults result.1 }
    ensures source_faults { S.faults source.old ≤ S.faults source.new }
    ensures untouched { Untouched (result.1 ≡ rig) result.0 }
    ensures orders { IsTrue (S.told source.old) → OrdersOf B.served (S.left source.old) (R.Disk.order rig) (R.Disk.orders rig) (R.Disk.order result.1) (R.Disk.orders result.1) result.0 }
    ensures asked { AsksFor start result.0 (C.times_asked clock.old) (C.times_asked clock.new) }
{
    match read_at_most(alloc, source, READ_LIMIT) {
        Ok(bytes) => run_bytes(alloc, blocks, start, bytes.as_slice(), sink, rig, clock),
        Err(ReadError::Failed) => (Status::ReadFault, rig),
        Err(ReadError::OutOfMemory) => (Status::OutOfMemory { done: 0 }, rig),
    }
}

fn run_bytes<K: Sink, R: Rig, C: Clock, B: Blocks<Store<R>, Outs>>(
    alloc: Global,
    blocks: &B,
    start: Start,
    bytes: &[u8],
    sink: &mut K,
    rig: R,
    clock: &mut C,
) -> (Status, R)
    requires { IsRunner B.served R.Disk (λ store. store.book) (λ store. store.clock) (λ v. v.items) (B.may blocks.now) (B.ran blocks.now) }
    ensures cause { BytesCause B.served bytes.now (Rose (K.faults sink.old) (K.faults sink.new)) (DiskRose (R.Disk.faults rig) (R.Disk.faults result.1))
        (λ rules area at. Plain (R.Disk.told rig) (R.Disk.honest rig) → IsBad rules (R.Disk.seen rig) (R.Disk.may_leave result.1) area at) result.0 }
    ensures text { IsTrue (K.told sink.old) → BytesText B.served bytes.now (result.1 ≡ rig)
        (λ document status. Plain (R.Disk.told rig) (R.Disk.honest rig) → DocumentText document (moment_of_start start (C.last_answer clock.new)) (R.Disk.seen rig) (R.Disk.may_leave rig)
        (R.Disk.faults rig) (R.Disk.faults result.1) (R.Disk.may_leave result.1) (K.held sink.old) (K.held sink.new) status)
        (K.held sink.old) (K.held sink.new) result.0 }
    ensures same_sink { K.told sink.new ≡ K.told sink.old }
    ensures sink_faults { K.faults sink.old ≤ K.faults sink.new }
    ensures telling { SameTelling R.Disk.told R.Disk.honest rig result.1 }
    ensures rig_faults { R.Disk.faults rig ≤ R.Disk.faults result.1 }
    ensures untouched { Untouched (result.1 ≡ rig) result.0 }
    ensures orders { OrdersOf B.served bytes.now (R.Disk.order rig) (R.Disk.orders rig) (R.Disk.order result.1) (R.Disk.orders result.1) result.0 }
    ensures asked { AsksFor start result.0 (C.times_asked clock.old) (C.times_asked clock.new) }
{
    let document = match read_document(alloc, bytes, blocks.are_served()) {
        Ok(document) => document,
        Err(fault) => return (put_fault(alloc, fault, sink), rig),
    };
    let moment = match start {
        Start::At(moment) => moment,
        Start::Asked => clock.now(),
    };
    run_document(alloc, blocks, moment, document, sink, rig)
}

/// Puts the line of a fault.
pub fn put_fault<K: Sink>(alloc: Global, fault: DocumentFault, sink: &mut K) -> Status
    ensures cause { FaultCause fault (Rose (K.faults sink.old) (K.faults sink.new)) result }
    ensures text { IsTrue (K.told sink.old) → FaultText fault (K.held sink.old) (K.held sink.new) result }
    ensures same_sink { K.told sink.new ≡ K.told sink.old }
    ensures sink_faults { K.faults sink.old ≤ K.faults sink.new }
{
    let DocumentFault::Bad { line, text } = fault else {
        return Status::OutOfMemory { done: 0 };
    };
    let Ok(told) = fault_line(alloc, line, text.as_slice()) else {
        return Status::OutOfMemory { done: 0 };
    };
    match put_all(sink, told.as_slice()) {
        Ok(()) => Status::BadDocument { line },
        Err(_) => Status::WriteFault { done: 0 },
    }
}

// Opens the store, and makes the commands of a document.
fn run_document<K: Sink, R: Rig, B: Blocks<Store<R>, Outs>>(
    alloc: Global,
    blocks: &B,
    moment: Moment,
    document: Document,
    sink: &mut K,
    rig: R,
) -> (Status, R)
    requires spellable { IsSpellable document.schema }
    requires rules { document.rules ≡ numbered document.schema }
    requires named { HasNames document.schema document.rules }
    requires numbered { All (IsNumberedCommand document.rules) document.commands }
    requires lanes { B.served ≡ false → All HasNoLanes document.commands }
    requires ready { IsRunner B.served R.Disk (λ store. store.book) (λ store. store.clock) (λ v. v.items) (B.may blocks.now) (B.ran blocks.now) }
    ensures cause { ScriptCause (Rose (K.faults sink.old) (K.faults sink.new)) (DiskRose (R.Disk.faults rig) (R.Disk.faults result.1))
        (λ area at. Plain (R.Disk.told rig) (R.Disk.honest rig) → IsBad document.rules (R.Disk.seen rig) (R.Disk.may_leave result.1) area at) result.0 }
    ensures text { IsTrue (K.told sink.old) → Plain (R.Disk.told rig) (R.Disk.honest rig) → DocumentText document moment (R.Disk.seen rig) (R.Disk.may_leave rig)
        (R.Disk.faults rig) (R.Disk.faults result.1) (R.Disk.may_leave result.1) (K.held sink.old) (K.held sink.new) result.0 }
    ensures same_sink { K.told sink.new ≡ K.told sink.old }
    ensures sink_faults { K.faults sink.old ≤ K.faults sink.new }
    ensures telling { SameTelling R.Disk.told R.Disk.honest rig result.1 }
    ensures rig_faults { R.Disk.faults rig ≤ R.Disk.faults result.1 }
    ensures orders { OrdersMade document.commands (R.Disk.order rig) (R.Disk.orders rig) (R.Disk.order result.1) (R.Disk.orders result.1) result.0 }
{
    let Document {
        schema,
        rules,
        commands,
    } = document;
    // So many do not fit in a document.
    if commands.len() > u32::MAX as usize {
        return (Status::OutOfMemory { done: 0 }, rig);
    }
    match Store::open(alloc, rules, rig, moment.min(GREATEST_MOMENT)) {
        Ok(store) => run_commands(alloc, blocks, &schema, store, commands.as_slice(), sink),
        Err((fault, rig)) => (put_unopened(alloc, fault, 0, sink), rig),
    }
}

// Puts the line of an opening that failed after so many commands.
pub(crate) fn put_unopened<K: Sink>(
    alloc: Global,
    fault: OpenFault,
    done: u32,
    sink: &mut K,
) -> Status
    ensures cause { UnopenedCause fault done (Rose (K.faults sink.old) (K.faults sink.new)) result }
    ensures text { IsTrue (K.told sink.old) → UnopenedText fault (K.held sink.old) (K.held sink.new) result }
    ensures same_sink { K.told sink.new ≡ K.told sink.old }
    ensures sink_faults { K.faults sink.old ≤ K.faults sink.new }
{
    let (line, status) = match fault {
        OpenFault::OutOfMemory => return Status::OutOfMemory { done },
        OpenFault::DiskFault => (down_line(alloc, 0), Status::Down { len: 0 }),
        OpenFault::BadStore { area, at } => (
            bad_line(alloc, area, at),
            Status::BadStore { area, at },
        ),
    };
    let Ok(line) = line else {
        return Status::OutOfMemory { done };
    };
    match put_all(sink, line.as_slice()) {
        Ok(()) => status,
        Err(_) => Status::WriteFault { done },
    }
}

// The line of a bad store.
fn bad_line(alloc: Global, area: Area, at: u64) -> Result<Bytes, AllocError>
    ensures { IfOk result (λ line. line ≡ bad_text area at) }
{
    match area {
        Area::Journal => bad_journal_line(alloc, at),
        Area::Vault => bad_vault_line(alloc, at),
    }
}

// Makes the commands one by one, puts the lines of each, and settles the store.
fn run_commands<K: Sink, R: Rig, B: Blocks<Store<R>, Outs>>(
    alloc: Global,
    blocks: &B,
    schema: &Schema,
    mut store: Store<R>,
    commands: &[Command],
    sink: &mut K,
) -> (Status, R)
    requires count { length commands.now < 2 ^ 32 }
    requires up { store.book.down ≡ false }
    requires unclaimed { store.book.held ≡ [] }
    requires spellable { IsSpellable schema.now }
    requires rules { store.book.rules ≡ numbered schema.now }
    requires named { HasNames schema.now store.book.rules }
    requires numbered { All (IsNumberedCommand store.book.rules) commands.now }
    requires lanes { B.served ≡ false → All HasNoLanes commands.now }
    requires ready { IsRunner B.served R.Disk (λ store. store.book) (λ store. store.clock) (λ v. v.items) (B.may blocks.now) (B.ran blocks.now) }
    ensures cause { ScriptCause (Rose (K.faults sink.old) (K.faults sink.new)) (DiskRose (R.Disk.faults store.book.rig) (R.Disk.faults result.1))
        (λ area at. Plain (R.Disk.told store.book.rig) (R.Disk.honest store.book.rig) → (e : Payloads)
        → StandsOn (world_of store.book store.clock e) (R.Disk.may_leave store.book.rig) → ⊥) result.0 }
    ensures text { IsTrue (K.told sink.old) → Plain (R.Disk.told store.book.rig) (R.Disk.honest store.book.rig) → (e : Payloads)
        → StandsOn (world_of store.book store.clock e) (R.Disk.may_leave store.book.rig)
        → ScriptText schema.now (world_of store.book store.clock e) commands.now (R.Disk.faults store.book.rig) (R.Disk.faults result.1) (R.Disk.may_leave result.1)
        (K.held sink.old) (K.held sink.new) result.0 }
    ensures same_sink { K.told sink.new ≡ K.told sink.old }
    ensures sink_faults { K.faults sink.old ≤ K.faults sink.new }
    ensures telling { SameTelling R.Disk.told R.Disk.honest store.book.rig result.1 }
    ensures rig_faults { R.Disk.faults store.book.rig ≤ R.Disk.faults result.1 }
    ensures orders { OrdersMade commands.now (R.Disk.order store.book.rig) (R.Disk.orders store.book.rig) (R.Disk.order result.1) (R.Disk.orders result.1) result.0 }
{
    let mut done = 0u32;
    for command in commands {
        let lines = match make(alloc, blocks, schema, store, command) {
            Ok((next, lines)) => {
                store = next;
                lines
            }
            Err((fault, rig)) => return (put_unopened(alloc, fault, done, sink), rig),
        };
        let Ok(()) = put_all(sink, lines.as_slice()) else {
            let Store { book, clock: _ } = store;
            let _len = book.len();
            return (Status::WriteFault { done }, book.into_disk());
        };
        done += 1;
    }
    finish(alloc, store, done, sink)
}

// Makes a command, and gives its lines. With `Err` the disk comes back.
fn make<R: Rig, B: Blocks<Store<R>, Outs>>(
    alloc: Global,
    blocks: &B,
    schema: &Schema,
    store: Store<R>,
    command: &Command,
) -> Result<(Store<R>, Bytes), (OpenFault, R)>
    requires spellable { IsSpellable schema.now }
    requires rules { store.book.rules ≡ numbered schema.now }
    requires named { HasNames schema.now store.book.rules }
    requires numbered { IsNumberedCommand store.book.rules command.now }
    requires unclaimed { store.book.held ≡ [] }
    requires lanes { B.served ≡ false → HasNoLanes command.now }
    requires ready { IsRunner B.served R.Disk (λ store. store.book) (λ store. store.clock) (λ v. v.items) (B.may blocks.now) (B.ran blocks.now) }
    ensures same_rules { IfOk result (λ it. it.0.book.rules ≡ store.book.rules) }
    ensures serves { IfOk result (λ it. Plain (R.Disk.told store.book.rig) (R.Disk.honest store.book.rig) → (e : Payloads)
        → Carries R.Disk.may_leave R.Disk.faults schema.now command.now store.book it.0.book store.clock it.0.clock e it.1) }
    ensures stops { IfErr result (λ it. Plain (R.Disk.told store.book.rig) (R.Disk.honest store.book.rig) → (e : Payloads)
        → Stops R.Disk.may_leave command.now store.book store.clock e it.1 it.0) }
    ensures settles { IfOk result (λ it. Plain (R.Disk.told store.book.rig) (R.Disk.honest store.book.rig)
        → command.now ≡ Report → HasSettled R.Disk.may_leave it.0.book) }
    ensures ok_telling { IfOk result (λ it. SameTelling R.Disk.told R.Disk.honest store.book.rig it.0.book.rig) }
    ensures err_telling { IfErr result (λ it. SameTelling R.Disk.told R.Disk.honest store.book.rig it.1) }
    ensures ok_orders { IfOk result (λ it. Gives command.now (R.Disk.order store.book.rig) (R.Disk.orders store.book.rig) (R.Disk.order it.0.book.rig) (R.Disk.orders it.0.book.rig)) }
    ensures err_orders { IfErr result (λ it. MayGive command.now (R.Disk.order store.book.rig) (R.Disk.orders store.book.rig) (R.Disk.order it.1) (R.Disk.orders it.1)) }
    ensures ok_count { IfOk result (λ it. Falls R.Disk.faults store.book it.0.book) }
    ensures err_count { IfErr result (λ it. StopCounts (R.Disk.faults store.book.rig) (R.Disk.faults it.1) it.0) }
{
    if let Command::Crash { pick } = command {
        return match crash(alloc, schema, store, *pick) {
            Ok(store) => {
                let _len = store.book.len();
                opened(alloc, store)
            }
            Err(fault) => Err(fault),
        };
    }
    let (store, lines) = serve(alloc, blocks, schema, store, command);
    match lines {
        Ok(lines) => Ok((store, lines)),
        Err(AllocError) => Err(starved(store)),
    }
}

// The disk of a store, where memory was wanted.
fn starved<R: Rig>(store: Store<R>) -> (OpenFault, R)
    ensures fault { result.0 ≡ OutOfMemory }
    ensures rig { result.1 ≡ store.book.rig }
{
    let Store { book, clock: _ } = store;
    (OpenFault::OutOfMemory, book.into_disk())
}

// The line of an opening.
fn opened<R: Rig>(alloc: Global, store: Store<R>) -> Result<(Store<R>, Bytes), (OpenFault, R)>
    ensures same { IfOk result (λ it. it.0 ≡ store) }
    ensures text { IfOk result (λ it. it.1 ≡ opened_text (length store.book.history)) }
    ensures rig { IfErr result (λ it. it.1 ≡ store.book.rig) }
    ensures fault { IfErr result (λ it. it.0 ≡ OpenFault.OutOfMemory) }
{
    match opened_line(alloc, store.book.len()) {
        Ok(line) => Ok((store, line)),
        Err(_) => Err(starved(store)),
    }
}

// Settles the store, after so many commands.
fn finish<K: Sink, R: Rig>(alloc: Global, store: Store<R>, done: u32, sink: &mut K) -> (Status, R)
    ensures cause { EndCause done (Rose (K.faults sink.old) (K.faults sink.new)) ((store.book.down ≡ true) ⊎ DiskRose (R.Disk.faults store.book.rig) (R.Disk.faults result.1)) result.0 }
    ensures text { IsTrue (K.told sink.old) → Plain (R.Disk.told store.book.rig) (R.Disk.honest store.book.rig) → (e : Payloads)
        → StandsOn (world_of store.book store.clock e) (R.Disk.may_leave store.book.rig)
        → EndText (world_of store.book store.clock e) done (R.Disk.faults store.book.rig) (R.Disk.faults result.1) (R.Disk.may_leave result.1)
        (K.held sink.old) (K.held sink.new) result.0 }
    ensures history { Legal store.book.rules store.book.history × Sound store.book.rules store.book.history }
    ensures same_sink { K.told sink.new ≡ K.told sink.old }
    ensures sink_faults { K.faults sink.old ≤ K.faults sink.new }
    ensures rig_faults { R.Disk.faults store.book.rig ≤ R.Disk.faults result.1 }
    ensures kind { SameKind R.Disk.told R.Disk.honest R.Disk.order R.Disk.orders store.book.rig result.1 }
{
    let Store { mut book, clock: _ } = store;
    let _len = book.len();
    book.standing();
    let status = match book.settle() {
        Ok(()) => Status::Done,
        Err(BookFault::Down { len }) => Status::Down { len },
        Err(BookFault::DiskFault { len }) => put_down(alloc, len, done, sink),
    };
    (status, book.into_disk())
}

// Puts the line of a disk fault in the last settling.
pub(crate) fn put_down<K: Sink>(alloc: Global, len: u32, done: u32, sink: &mut K) -> Status
    ensures cause { DownCause len done (Rose (K.faults sink.old) (K.faults sink.new)) result }
    ensures text { IsTrue (K.told sink.old) → DownText len (K.held sink.old) (K.held sink.new) result }
    ensures same_sink { K.told sink.new ≡ K.told sink.old }
    ensures sink_faults { K.faults sink.old ≤ K.faults sink.new }
{
    let Ok(line) = down_line(alloc, len) else {
        return Status::OutOfMemory { done };
    };
    match put_all(sink, line.as_slice()) {
        Ok(()) => Status::Down { len },
        Err(_) => Status::WriteFault { done },
    }
}
