//! What a word means at its place in a line.

ghost use Rattle.std.specs.Prelude.{◌≡◌, ◌<◌, IfOk, length};
ghost use Rattle.std.specs.Str.{bytes_eq};
ghost use Rattle.delf_model.specs.Checked.{number_of};
ghost use Rattle.schema_lang.specs.Rows.{word_text};
ghost use Rattle.schema_lang.specs.Spelling.{IsSpellable};
ghost use Rattle.script_lang.specs.Parts.{worse, both, wrong_of, number_part, id_part, job_part, place_part, edge_number, type_part, edge_part, Reads};

use crate::fault::{LineFault, Wrong};
use delf_model::{Bytes, EdgeNo, EdgeType, ObjectId, ObjectType, Schema, TypeNo};
use schema_lang::{Why, Word, name_fault, read_number};
use std::alloc::{AllocError, Global};

/// The text of a plain word; that of a payload is empty, and fits no place.
pub fn text(word: &Word) -> &[u8]
    ensures { result.now ≡ word_text word.now }
{
    match word {
        Word::Plain(text) => text.as_slice(),
        Word::Payload(_) => &[],
    }
}

// Of two faults of one line, the one that is told.
fn worse(one: Wrong, other: Wrong) -> Wrong
    ensures { result ≡ worse one other }
{
    match (one, other) {
        (Wrong::Malformed, _) => Wrong::Malformed,
        (_, Wrong::Malformed) => Wrong::Malformed,
        (Wrong::OutOfRange, _) => Wrong::OutOfRange,
        (_, Wrong::OutOfRange) => Wrong::OutOfRange,
        (Wrong::Unknown(name), Wrong::Unknown(_)) => Wrong::Unknown(name),
    }
}

/// Two parts of a line, or what is wrong with them.
pub fn both<A: Drop, B: Drop>(
    one: Result<A, Wrong>,
    other: Result<B, Wrong>,
) -> Result<(A, B), Wrong>
    ensures { result ≡ both one other }
{
    match (one, other) {
        (Ok(one), Ok(other)) => Ok((one, other)),
        (Ok(_), Err(wrong)) => Err(wrong),
        (Err(wrong), Ok(_)) => Err(wrong),
        (Err(wrong), Err(other)) => Err(worse(wrong, other)),
    }
}

/// The fault of a word, as one of its line.
pub fn wrong_of(why: Why) -> Wrong
    ensures { result ≡ wrong_of why }
{
    match why {
        Why::Malformed => Wrong::Malformed,
        Why::OutOfRange => Wrong::OutOfRange,
    }
}

/// A number of these bounds.
pub fn read_part(word: &Word, least: u64, greatest: u64) -> Result<u64, Wrong>
    ensures { result ≡ number_part least greatest word.now }
{
    match read_number(text(word), least, greatest) {
        Ok(number) => Ok(number),
        Err(why) => Err(wrong_of(why)),
    }
}

/// An id.
pub fn read_id(word: &Word) -> Result<ObjectId, Wrong>
    ensures { result ≡ id_part word.now }
{
    match read_part(word, 1, 999_999_999_999) {
        Ok(id) => ObjectId::new(id).ok_or(Wrong::OutOfRange),
        Err(wrong) => Err(wrong),
    }
}

/// The number that a caller gives a job.
pub fn read_job(word: &Word) -> Result<u32, Wrong>
    ensures { result ≡ job_part word.now }
{
    match read_part(word, 0, 4_294_967_295) {
        Ok(name) => Ok(name as u32),
        Err(wrong) => Err(wrong),
    }
}

// The place of a name among so many, where it stands there.
fn read_place(
    alloc: Global,
    count: usize,
    place: usize,
    name: &[u8],
) -> Result<Result<usize, Wrong>, AllocError>
    ensures place { IfOk result (λ read. read ≡ place_part count place name.now) }
    ensures below { IfOk result (λ read. IfOk read (λ place. place < count)) }
{
    if place < count {
        return Ok(Ok(place));
    }
    let name = Bytes::of(alloc, name)?;
    Ok(Err(Wrong::Unknown(name)))
}

/// The number of the object type that a word names.
pub fn read_type(
    alloc: Global,
    schema: &Schema,
    word: &Word,
) -> Result<Result<TypeNo, Wrong>, AllocError>
    requires { IsSpellable schema.now }
    ensures part { IfOk result (λ read. read ≡ type_part schema.now word.now) }
    ensures below { IfOk result (λ read. IfOk read (λ kind. kind < length schema.now.objects)) }
{
    let name = text(word);
    if let Some(why) = name_fault(name) {
        return Ok(Err(wrong_of(why)));
    }
    let types = schema.objects.as_slice();
    match read_place(alloc, types.len(), type_place(types, name), name)? {
        Ok(place) => Ok(Ok(TypeNo(place as u8))),
        Err(wrong) => Ok(Err(wrong)),
    }
}

/// The number of the edge type that a word names.
pub fn read_edge(
    alloc: Global,
    schema: &Schema,
    word: &Word,
) -> Result<Result<EdgeNo, Wrong>, AllocError>
    requires { IsSpellable schema.now }
    ensures part { IfOk result (λ read. read ≡ edge_part schema.now word.now) }
    ensures below { IfOk result (λ read. IfOk read (λ edge. edge < length schema.now.edges)) }
{
    let name = text(word);
    if let Some(why) = name_fault(name) {
        return Ok(Err(wrong_of(why)));
    }
    let edges = schema.edges.as_slice();
    match read_place(alloc, edges.len(), edge_place(edges, name), name)? {
        Ok(place) => Ok(Ok(EdgeNo(place as u8))),
        Err(wrong) => Ok(Err(wrong)),
    }
}

fn type_place(types: &[ObjectType], name: &[u8]) -> usize
    ensures { result ≡ number_of types.now name.now }
{
    for (place, object) in types.iter().enumerate() {
        if is_type(object, name) {
            return place;
        }
    }
    types.len()
}

fn is_type(object: &ObjectType, name: &[u8]) -> bool
    ensures { result ≡ bytes_eq object.now.name name.now }
{
    object.name.as_slice() == name
}

fn edge_place(edges: &[EdgeType], name: &[u8]) -> usize
    ensures { result ≡ edge_number edges.now name.now }
{
    for (place, edge) in edges.iter().enumerate() {
        if is_edge(edge, name) {
            return place;
        }
    }
    edges.len()
}

fn is_edge(edge: &EdgeType, name: &[u8]) -> bool
    ensures { result ≡ bytes_eq edge.now.name name.now }
{
    edge.name.as_slice() == name
}
