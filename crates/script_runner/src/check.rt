//! A check: a document is read to its end, and its routes or its first fault are put.
ghost use Rattle.std.specs.Prelude.{◌≡◌, ◌++◌, ◌≤◌, ℕ, List, IsTrue, length};
ghost use Rattle.delf_io.specs.Faults.{Rose};
ghost use Rattle.script_runner.specs.Checks.{CheckText, CheckCause, CheckedText, CheckedCause};
ghost use Rattle.script_runner.specs.Outcomes.{ReadsAll};

use crate::program::put_fault;
use crate::status::Status;
use delf_io::{Sink, Source};
use documents::{READ_LIMIT, ReadError, check_document, put_all, read_at_most};
use std::alloc::Global;

/// Reads a document from `source`, and puts how many types and edge types it has and the printed route of each `by_any`
/// type, or the line of its first fault.
pub(crate) fn check_source<S: Source, K: Sink>(
    alloc: Global,
    source: &mut S,
    sink: &mut K,
    blocks: bool,
) -> Status
    ensures cause { CheckCause blocks (S.told source.old) (S.left source.old)
        (Rose (S.faults source.old) (S.faults source.new)) (Rose (K.faults sink.old) (K.faults sink.new)) result }
    ensures text { IsTrue (K.told sink.old) → CheckText blocks (S.told source.old) (S.left source.old) (K.held sink.old)
        (K.held sink.new) result }
    ensures read { IsTrue (S.told source.old) → (read : List ℕ) × (length read ≤ 16777217)
        × (S.left source.old ≡ read ++ S.left source.new) }
    ensures whole { IsTrue (S.told source.old) → ReadsAll (S.left source.old) (S.left source.new) result }
    ensures same_source { S.told source.new ≡ S.told source.old }
    ensures same_sink { K.told sink.new ≡ K.told sink.old }
    ensures source_faults { S.faults source.old ≤ S.faults source.new }
    ensures sink_faults { K.faults sink.old ≤ K.faults sink.new }
{
    match read_at_most(alloc, source, READ_LIMIT) {
        Ok(bytes) => check_bytes(alloc, bytes.as_slice(), sink, blocks),
        Err(ReadError::Failed) => Status::ReadFault,
        Err(ReadError::OutOfMemory) => Status::OutOfMemory { done: 0 },
    }
}

fn check_bytes<K: Sink>(alloc: Global, bytes: &[u8], sink: &mut K, blocks: bool) -> Status
    ensures cause { CheckedCause blocks bytes.now (Rose (K.faults sink.old) (K.faults sink.new)) result }
    ensures text { IsTrue (K.told sink.old) → CheckedText blocks bytes.now (K.held sink.old) (K.held sink.new) result }
    ensures same_sink { K.told sink.new ≡ K.told sink.old }
    ensures sink_faults { K.faults sink.old ≤ K.faults sink.new }
{
    let text = match check_document(alloc, bytes, blocks) {
        Ok(text) => text,
        Err(fault) => return put_fault(alloc, fault, sink),
    };
    match put_all(sink, text.as_slice()) {
        Ok(()) => Status::Done,
        Err(_) => Status::WriteFault { done: 0 },
    }
}
