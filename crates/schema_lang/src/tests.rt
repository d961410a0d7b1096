//! Documents and what is read of them.

use crate::{
    Line, SchemaFault, Why, Word, name_fault, parse_part, parse_schema, print_schema, read_line,
    read_number, split_line,
};
use std::alloc::{AllocError, Global};
use std::process::Abort;
use std::test::Fail;

const PHOTOS: &[u8] =
    b"schema 1\nwindow 100\nobject user directly\nobject photo by_any\nobject album directly\nobject session short_ttl 60\nedge owns user photo deep\nedge likes user photo shallow\nedge holds album photo refcount\nedge uses user session deep\n";

const PHOTOS_WITH_NOTES: &[u8] =
    b"# photos\r\n\n \tschema\t1 \r\nwindow  100\n   \nobject user directly\nobject photo by_any\n#\"\nobject album directly\nobject session short_ttl 60\r\nedge owns user photo deep\nedge likes user photo shallow\nedge holds album photo refcount\nedge uses user session deep\n script \r\ncreate 1 user \"a";

fn fault_of(alloc: Global, text: &[u8]) -> Option<SchemaFault> {
    match parse_schema(alloc, text) {
        Ok(_) => None,
        Err(fault) => Some(fault),
    }
}

fn expect_fault(rt: &impl Abort, alloc: Global, text: &[u8], line: u32, why: Why) {
    assert!(rt; fault_of(alloc, text) == Some(SchemaFault::Bad { line, why }));
}

fn expect_malformed(rt: &impl Abort, alloc: Global, text: &[u8], line: u32) {
    expect_fault(rt, alloc, text, line, Why::Malformed);
}

fn expect_out_of_range(rt: &impl Abort, alloc: Global, text: &[u8], line: u32) {
    expect_fault(rt, alloc, text, line, Why::OutOfRange);
}

fn expect_printed(rt: &impl Abort, alloc: Global, text: &[u8]) -> Result<(), Fail> {
    let schema = parse_schema(alloc, text)?;
    let printed = print_schema(alloc, &schema)?;
    assert!(rt; printed.as_slice() == PHOTOS);
    Ok(())
}

#[test]
fn a_schema_is_printed_as_written(rt: HostRuntime) -> Result<(), Fail> {
    expect_printed(&rt, rt.alloc(), PHOTOS)?;
    expect_printed(&rt, rt.alloc(), PHOTOS_WITH_NOTES)
}

#[test]
fn the_part_behind_a_schema(rt: HostRuntime) {
    match parse_part(rt.alloc(), PHOTOS_WITH_NOTES) {
        Ok(part) => {
            assert_eq!(rt; part.next, 16);
            assert!(rt; part.rest == b"create 1 user \"a".as_slice());
            let objects = part.schema.objects.as_slice();
            assert_eq!(rt; objects.len(), 4);
            assert_eq!(rt; objects[0].line, 6);
            assert_eq!(rt; objects[3].line, 10);
        }
        Err(_) => assert!(rt; false),
    }
}

#[test]
fn malformed_lines(rt: HostRuntime) {
    let alloc = rt.alloc();
    expect_malformed(&rt, alloc, b"", 1);
    expect_malformed(&rt, alloc, b"# nothing\n\n", 3);
    expect_malformed(&rt, alloc, b"schema 1", 2);
    expect_malformed(&rt, alloc, b"schema 1\r", 1);
    expect_malformed(&rt, alloc, b"schema 1\nwindow 0\r", 2);
    expect_malformed(&rt, alloc, b"schema 1\nwindow 0\r\r\n", 2);
    expect_malformed(&rt, alloc, b"schema 2\nwindow x\n", 1);
    expect_malformed(&rt, alloc, b"schema 01\nwindow 0\n", 1);
    expect_malformed(&rt, alloc, b"schema 1\nwindow 01\n", 2);
    expect_malformed(&rt, alloc, b"schema 1\nwindow +1\n", 2);
    expect_malformed(&rt, alloc, b"schema 1\nschema 1\n", 2);
    expect_malformed(&rt, alloc, b"schema 1\nscript\n", 2);
    expect_malformed(&rt, alloc, b"schema 1\nwindow 0\nobject a Directly\n", 3);
    expect_malformed(&rt, alloc, b"schema 1\nwindow 0\nobject a short_ttl\n", 3);
    expect_malformed(&rt, alloc, b"schema 1\nwindow 0\nobject a directly 1\n", 3);
    expect_malformed(
        &rt,
        alloc,
        b"schema 1\nwindow 0\nobject \"a\" directly\n",
        3,
    );
    expect_malformed(&rt, alloc, b"schema 1\nwindow 0\nobject a\0 directly\n", 3);
    expect_malformed(&rt, alloc, b"schema 1\nwindow 0\nobject \xff directly\n", 3);
    expect_malformed(&rt, alloc, b"schema 1\nwindow 0\nedge a b c\n", 3);
    expect_malformed(&rt, alloc, b"schema 1\nwindow 0\nscript 1\n", 3);
}

#[test]
fn lines_out_of_range(rt: HostRuntime) {
    let alloc = rt.alloc();
    expect_out_of_range(&rt, alloc, b"schema 1\nwindow 31536001\n", 2);
    expect_out_of_range(
        &rt,
        alloc,
        b"schema 1\nwindow 1234567890123456789012345678901234567890\nobject",
        2,
    );
    expect_out_of_range(&rt, alloc, b"schema 1\nwindow 0\nobject a short_ttl 0\n", 3);
    expect_out_of_range(
        &rt,
        alloc,
        b"schema 1\nwindow 0\nobject a short_ttl 7776001\n",
        3,
    );
    expect_out_of_range(
        &rt,
        alloc,
        b"schema 1\nwindow 0\nobject a234567890123456789012345678901_3 directly\n",
        3,
    );
    // A line that is both is malformed.
    expect_malformed(
        &rt,
        alloc,
        b"schema 1\nwindow 0\nedge a234567890123456789012345678901_3 B c deep\n",
        3,
    );
    expect_malformed(&rt, alloc, b"schema 1\nwindow 0\nobject A short_ttl 0\n", 3);
    let longest =
        b"schema 1\nwindow 31536000\nobject a23456789012345678901234567890_2 short_ttl 7776000\n";
    assert!(rt; fault_of(alloc, longest).is_none());
}

fn many(alloc: Global, line: &[u8], count: u32) -> Result<Vec<u8>, AllocError> {
    let mut text = Vec::from_slice(alloc, b"schema 1\nwindow 0\n")?;
    for _ in 0..count {
        text.extend_from_slice(line)?;
    }
    Ok(text)
}

#[test]
fn one_type_too_many(rt: HostRuntime) -> Result<(), Fail> {
    let alloc = rt.alloc();
    let objects = many(alloc, b"object a directly\n", 64)?;
    assert!(rt; fault_of(alloc, &objects).is_none());
    let objects = many(alloc, b"object a directly\n", 65)?;
    expect_out_of_range(&rt, alloc, &objects, 67);
    let edges = many(alloc, b"edge a b c deep\n", 256)?;
    assert!(rt; fault_of(alloc, &edges).is_none());
    let edges = many(alloc, b"edge a b c deep\n", 257)?;
    expect_out_of_range(&rt, alloc, &edges, 259);
    Ok(())
}

fn is_payload(word: &Word, bytes: &[u8]) -> bool {
    match word {
        Word::Plain(_) => false,
        Word::Payload(payload) => payload.as_slice() == bytes,
    }
}

// Whether the last word of a line is this payload.
fn ends_in(line: &Line, payload: &[u8]) -> bool {
    match line {
        Line::Words(words) => match words.as_slice().last() {
            Some(word) => is_payload(word, payload),
            None => false,
        },
        _ => false,
    }
}

fn is_faulty(line: &Line) -> bool {
    matches!(line, Line::Faulty)
}

#[test]
fn payloads(rt: HostRuntime) -> Result<(), Fail> {
    let alloc = rt.alloc();
    let spelled = read_line(alloc, b"create 1 user \"a #\\\"\\\\\\x00\\xfF~\" ")?;
    assert!(rt; ends_in(&spelled, b"a #\"\\\0\xff~"));
    assert!(rt; ends_in(&read_line(alloc, b"\"\"")?, b""));
    assert!(rt; is_faulty(&read_line(alloc, b"x \"\\x4\"")?));
    assert!(rt; is_faulty(&read_line(alloc, b"x \"\\n\"")?));
    assert!(rt; is_faulty(&read_line(alloc, b"x \"a\"b")?));
    assert!(rt; is_faulty(&read_line(alloc, b"x \"a")?));
    assert!(rt; is_faulty(&read_line(alloc, b"x \"a\x7f\"")?));
    assert!(rt; is_faulty(&read_line(alloc, b"x \"a\tb\"")?));
    assert!(rt; !is_faulty(&read_line(alloc, b"x a\"b")?));
    assert!(rt; !is_faulty(&read_line(alloc, b" # \"a")?));
    Ok(())
}

fn first_line_is(bytes: &[u8], line: &[u8], rest: &[u8]) -> bool {
    match split_line(bytes) {
        Some((first, others)) => first == line && others == rest,
        None => false,
    }
}

#[test]
fn lines(rt: HostRuntime) {
    assert!(rt; first_line_is(b"a\r\nb\r", b"a", b"b\r"));
    assert!(rt; first_line_is(b"b\r", b"b\r", b""));
    assert!(rt; first_line_is(b"\r\r\n", b"\r", b""));
    assert!(rt; split_line(b"").is_none());
}

#[test]
fn numbers_and_names(rt: HostRuntime) {
    assert_eq!(rt; read_number(b"0", 0, 9), Ok(0));
    assert_eq!(rt;
        read_number(b"18446744073709551615", 0, u64::MAX),
        Ok(u64::MAX)
    );
    assert_eq!(rt;
        read_number(b"18446744073709551616", 0, u64::MAX),
        Err(Why::OutOfRange)
    );
    assert_eq!(rt; read_number(b"00", 0, 9), Err(Why::Malformed));
    assert_eq!(rt; read_number(b"1a", 0, 9), Err(Why::Malformed));
    assert_eq!(rt; read_number(b"", 0, 9), Err(Why::Malformed));
    assert_eq!(rt; name_fault(b"a_0"), None);
    assert_eq!(rt; name_fault(b""), Some(Why::Malformed));
    assert_eq!(rt; name_fault(b"a-b"), Some(Why::Malformed));
}
