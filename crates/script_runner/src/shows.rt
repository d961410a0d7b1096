//! Lines that tell payloads, which are read off the disk.
ghost use Rattle.std.specs.Prelude.{◌≡◌, ◌++◌, ◌<◌, ◌≤◌, false, ℕ, IfOk, IfErr, Some, Ok, flat_map, length, take};
ghost use Rattle.std.specs.List.{AllByRecursion};
ghost use Rattle.delf_model.specs.Graph.{object_at, edge_at};
ghost use Rattle.delf_model.specs.Payloads.{payload_at};
ghost use Rattle.delf_book.specs.Books.{state_in};
ghost use Rattle.job_report.specs.Texts.{graph_text, found_text as found_text_of};
ghost use Rattle.script_runner.specs.Lines.{LineLeaves, Tells};
ghost use Rattle.documents.specs.Names.{HasNames, kind_name as kind_name_of};
ghost use Rattle.script_runner.specs.Names.{IsNumberedObject, IsNumberedEdge};
ghost use Rattle.script_runner.specs.Serial.{row_found, graph_lines, object_line as object_line_of, edge_line as edge_line_of};

use crate::faults::LineFault;
use crate::graph::ProgramBook;
use crate::readings::{edges, object, objects};
use delf_book::BookFault;
use delf_disk::Rig;
use delf_model::{Bytes, EdgeKey, EdgeRow, Job, LIMIT, ObjectId, ObjectRow, Schema};
use documents::{edge_name, kind_name};
use job_report::{absent_line, edge_line, found_line, graph_line, object_line};
use std::alloc::{AllocError, Global};

/// The line of an object with its owner, or that there is none.
pub(crate) fn found<R: Rig>(
    alloc: Global,
    schema: &Schema,
    book: &mut ProgramBook<R>,
    id: ObjectId,
) -> Result<Bytes, LineFault>
    requires named { HasNames schema.now book.old.rules }
    requires up { book.old.down ≡ false }
    ensures text { IfOk result (Tells R.Disk.told R.Disk.honest R.Disk.may_leave book.old (λ w. row_found schema.now w id (object_at (state_in book.old).graph id))) }
    ensures leaves { LineLeaves R.Disk.told R.Disk.honest R.Disk.may_leave R.Disk.order R.Disk.orders R.Disk.faults book.old book.new result }
{
    let len = book.len();
    match object(book, id) {
        Some(row) => found_row(alloc, schema, book, &row),
        None => line_or(absent_line(alloc, len, id)),
    }
}

// The line of a row of the graph, with its owner.
fn found_row<R: Rig>(
    alloc: Global,
    schema: &Schema,
    book: &mut ProgramBook<R>,
    row: &ObjectRow,
) -> Result<Bytes, LineFault>
    requires named { HasNames schema.now book.old.rules }
    requires numbered { IsNumberedObject book.old.rules row.now }
    requires there { object_at (state_in book.old).graph row.now.id ≡ Some row.now }
    requires up { book.old.down ≡ false }
    ensures text { IfOk result (Tells R.Disk.told R.Disk.honest R.Disk.may_leave book.old (λ w. row_found schema.now w row.now.id (Some row.now))) }
    ensures leaves { LineLeaves R.Disk.told R.Disk.honest R.Disk.may_leave R.Disk.order R.Disk.orders R.Disk.faults book.old book.new result }
{
    let len = book.len();
    let owner = book.owner(row.id);
    let mut bytes = [0u8; LIMIT];
    let size = object_payload(book, row, &mut bytes)?;
    line_or(found_text(alloc, schema, len, row, owner, &bytes[..size]))
}

/// The line of a row of the graph with this owner and payload.
pub(crate) fn found_text(
    alloc: Global,
    schema: &Schema,
    len: u32,
    row: &ObjectRow,
    owner: Option<Job>,
    payload: &[u8],
) -> Result<Bytes, AllocError>
    requires { row.now.kind < length schema.now.objects }
    ensures { IfOk result (λ text. text ≡ found_text_of len row.now (kind_name_of schema.now row.now.kind) payload.now owner) }
{
    found_line(alloc, len, row, kind_name(schema, row.kind), payload, owner)
}

// Reads the payload of a row of the graph to the front of `bytes`, and gives its size.
fn object_payload<R: Rig>(
    book: &mut ProgramBook<R>,
    row: &ObjectRow,
    bytes: &mut [u8],
) -> Result<usize, LineFault>
    requires room { length bytes.old ≡ 512 }
    requires there { object_at (state_in book.old).graph row.now.id ≡ Some row.now }
    requires up { book.old.down ≡ false }
    ensures within { IfOk result (λ n. n ≤ 512) }
    ensures bytes { IfOk result (λ n. Tells R.Disk.told R.Disk.honest R.Disk.may_leave book.old (λ w. payload_at w.payloads row.now.at) (take n bytes.new)) }
    ensures leaves { LineLeaves R.Disk.told R.Disk.honest R.Disk.may_leave R.Disk.order R.Disk.orders R.Disk.faults book.old book.new result }
{
    let _len = book.len();
    book.standing();
    match book.read_object(row.id, bytes) {
        // No row has more.
        Ok(size) => Ok((size as usize).min(LIMIT)),
        Err(BookFault::DiskFault { len }) => Err(LineFault::Failed { len }),
        Err(BookFault::Down { .. }) => unreachable!(),
    }
}

fn edge_payload<R: Rig>(
    book: &mut ProgramBook<R>,
    row: &EdgeRow,
    bytes: &mut [u8],
) -> Result<usize, LineFault>
    requires room { length bytes.old ≡ 512 }
    requires there { edge_at (state_in book.old).graph row.now.key ≡ Some row.now }
    requires up { book.old.down ≡ false }
    ensures within { IfOk result (λ n. n ≤ 512) }
    ensures bytes { IfOk result (λ n. Tells R.Disk.told R.Disk.honest R.Disk.may_leave book.old (λ w. payload_at w.payloads row.now.birth) (take n bytes.new)) }
    ensures leaves { LineLeaves R.Disk.told R.Disk.honest R.Disk.may_leave R.Disk.order R.Disk.orders R.Disk.faults book.old book.new result }
{
    let key: EdgeKey = row.key;
    let _len = book.len();
    book.standing();
    match book.read_edge(key, bytes) {
        // No row has more.
        Ok(size) => Ok((size as usize).min(LIMIT)),
        Err(BookFault::DiskFault { len }) => Err(LineFault::Failed { len }),
        Err(BookFault::Down { .. }) => unreachable!(),
    }
}

// A line, where there was memory for it.
fn line_or(line: Result<Bytes, AllocError>) -> Result<Bytes, LineFault>
    ensures ok { IfOk result (λ text. line ≡ Ok text) }
    ensures err { IfErr result (λ fault. fault ≡ LineFault.OutOfMemory) }
{
    match line {
        Ok(text) => Ok(text),
        Err(AllocError) => Err(LineFault::OutOfMemory),
    }
}

/// The lines of the graph: its numbers, the objects by id, the edges by key.
pub(crate) fn graph_shown<R: Rig>(
    alloc: Global,
    schema: &Schema,
    book: &mut ProgramBook<R>,
) -> Result<Bytes, LineFault>
    requires named { HasNames schema.now book.old.rules }
    requires up { book.old.down ≡ false }
    ensures text { IfOk result (Tells R.Disk.told R.Disk.honest R.Disk.may_leave book.old (λ w. graph_lines schema.now w)) }
    ensures leaves { LineLeaves R.Disk.told R.Disk.honest R.Disk.may_leave R.Disk.order R.Disk.orders R.Disk.faults book.old book.new result }
{
    let first = rows_counted(alloc, book)?;
    let rows = object_rows(alloc, schema, book)?;
    let keys = edge_rows(alloc, schema, book)?;
    line_or(joined_three(alloc, first.as_slice(), rows.as_slice(), keys.as_slice()))
}

// The line with the numbers of rows.
fn rows_counted<R: Rig>(alloc: Global, book: &ProgramBook<R>) -> Result<Bytes, LineFault>
    ensures text { IfOk result (λ text. text ≡ graph_text (length (state_in book.now).graph.objects) (length (state_in book.now).graph.edges)) }
    ensures err { IfErr result (λ fault. fault ≡ LineFault.OutOfMemory) }
{
    let Ok(objects) = objects(alloc, book) else {
        return Err(LineFault::OutOfMemory);
    };
    let Ok(edges) = edges(alloc, book) else {
        return Err(LineFault::OutOfMemory);
    };
    line_or(graph_line(alloc, objects.len() as u32, edges.len() as u32))
}

// Three texts, one behind the other.
fn joined_three(
    alloc: Global,
    first: &[u8],
    second: &[u8],
    third: &[u8],
) -> Result<Bytes, AllocError>
    ensures { IfOk result (λ text. text ≡ first.now ++ second.now ++ third.now) }
{
    let mut text = Vec::from_slice(alloc, first)?;
    text.extend_from_slice(second)?;
    text.extend_from_slice(third)?;
    Ok(Bytes::from_vec(text))
}

// The lines of all objects.
fn object_rows<R: Rig>(
    alloc: Global,
    schema: &Schema,
    book: &mut ProgramBook<R>,
) -> Result<Bytes, LineFault>
    requires named { HasNames schema.now book.old.rules }
    requires up { book.old.down ≡ false }
    ensures text { IfOk result (Tells R.Disk.told R.Disk.honest R.Disk.may_leave book.old (λ w. flat_map (object_line_of schema.now w) (state_in book.old).graph.objects)) }
    ensures leaves { LineLeaves R.Disk.told R.Disk.honest R.Disk.may_leave R.Disk.order R.Disk.orders R.Disk.faults book.old book.new result }
{
    let Ok(rows) = objects(alloc, book) else {
        return Err(LineFault::OutOfMemory);
    };
    let mut text = Vec::new(alloc);
    for row in rows.as_slice() {
        let line = object_row_line(alloc, schema, book, row)?;
        let Ok(()) = text.extend_from_slice(line.as_slice()) else {
            return Err(LineFault::OutOfMemory);
        };
    }
    Ok(Bytes::from_vec(text))
}

fn object_row_line<R: Rig>(
    alloc: Global,
    schema: &Schema,
    book: &mut ProgramBook<R>,
    row: &ObjectRow,
) -> Result<Bytes, LineFault>
    requires named { HasNames schema.now book.old.rules }
    requires numbered { IsNumberedObject book.old.rules row.now }
    requires there { object_at (state_in book.old).graph row.now.id ≡ Some row.now }
    requires up { book.old.down ≡ false }
    ensures text { IfOk result (Tells R.Disk.told R.Disk.honest R.Disk.may_leave book.old (λ w. object_line_of schema.now w row.now)) }
    ensures leaves { LineLeaves R.Disk.told R.Disk.honest R.Disk.may_leave R.Disk.order R.Disk.orders R.Disk.faults book.old book.new result }
{
    let owner = book.owner(row.id);
    let mut bytes = [0u8; LIMIT];
    let size = object_payload(book, row, &mut bytes)?;
    let name = kind_name(schema, row.kind);
    line_or(object_line(alloc, row, name, &bytes[..size], owner))
}

// The lines of all edges.
fn edge_rows<R: Rig>(
    alloc: Global,
    schema: &Schema,
    book: &mut ProgramBook<R>,
) -> Result<Bytes, LineFault>
    requires named { HasNames schema.now book.old.rules }
    requires up { book.old.down ≡ false }
    ensures text { IfOk result (Tells R.Disk.told R.Disk.honest R.Disk.may_leave book.old (λ w. flat_map (edge_line_of schema.now w) (state_in book.old).graph.edges)) }
    ensures leaves { LineLeaves R.Disk.told R.Disk.honest R.Disk.may_leave R.Disk.order R.Disk.orders R.Disk.faults book.old book.new result }
{
    let Ok(rows) = edges(alloc, book) else {
        return Err(LineFault::OutOfMemory);
    };
    let mut text = Vec::new(alloc);
    for row in rows.as_slice() {
        let line = edge_row_line(alloc, schema, book, row)?;
        let Ok(()) = text.extend_from_slice(line.as_slice()) else {
            return Err(LineFault::OutOfMemory);
        };
    }
    Ok(Bytes::from_vec(text))
}

fn edge_row_line<R: Rig>(
    alloc: Global,
    schema: &Schema,
    book: &mut ProgramBook<R>,
    row: &EdgeRow,
) -> Result<Bytes, LineFault>
    requires named { HasNames schema.now book.old.rules }
    requires numbered { IsNumberedEdge book.old.rules row.now }
    requires there { edge_at (state_in book.old).graph row.now.key ≡ Some row.now }
    requires up { book.old.down ≡ false }
    ensures text { IfOk result (Tells R.Disk.told R.Disk.honest R.Disk.may_leave book.old (λ w. edge_line_of schema.now w row.now)) }
    ensures leaves { LineLeaves R.Disk.told R.Disk.honest R.Disk.may_leave R.Disk.order R.Disk.orders R.Disk.faults book.old book.new result }
{
    let mut bytes = [0u8; LIMIT];
    let size = edge_payload(book, row, &mut bytes)?;
    let name = edge_name(schema, row.key.edge);
    line_or(edge_line(alloc, row, name, &bytes[..size]))
}
