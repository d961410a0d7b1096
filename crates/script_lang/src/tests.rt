//! Documents and what is read of them.

use crate::{DocumentFault, generated, parse_document, parse_script};
use delf_model::Command;
use std::alloc::Global;
use std::process::Abort;

fn expect_fault(rt: &impl Abort, alloc: Global, bytes: &[u8], at: u32, words: &[u8]) {
    match parse_document(alloc, bytes) {
        Err(DocumentFault::Bad { line, text }) => {
            assert_eq!(rt; line, at);
            assert!(rt; text.as_slice() == words);
        }
        _ => assert!(rt; false),
    }
}

// The number of commands; None where the bytes are no document.
fn command_count(alloc: Global, bytes: &[u8]) -> Option<usize> {
    match parse_document(alloc, bytes) {
        Ok((_, script)) => Some(script.len()),
        Err(_) => None,
    }
}

#[test]
fn faults_of_a_script(rt: HostRuntime) {
    let alloc = rt.alloc();
    expect_fault(
        &rt,
        alloc,
        b"schema 1\nwindow 0\nobject user directly\nscript\ncreate 1 user \"a",
        5,
        b"malformed",
    );
    expect_fault(
        &rt,
        alloc,
        b"schema 1\nwindow 0\nobject user directly\nscript\ncreate 1 video",
        5,
        b"unknown name video",
    );
    expect_fault(
        &rt,
        alloc,
        b"schema 1\nwindow 0\nobject user directly\nscript\ncreate 0 video\n",
        5,
        b"out of range",
    );
    expect_fault(
        &rt,
        alloc,
        b"schema 1\nwindow 100\nobject user directly\nobject photo by_any\nobject album directly\nobject session short_ttl 60\nedge owns user photo deep\nedge likes user photo shallow\nedge holds album photo refcount\nedge uses user session deep\nscript\ncreate 1000000000000 user\n",
        12,
        b"out of range",
    );
    expect_fault(
        &rt,
        alloc,
        b"schema 1\nwindow 0\nscript\n# work 0\nwork 0\nwork",
        5,
        b"out of range",
    );
    expect_fault(
        &rt,
        alloc,
        b"schema 1\nwindow 0\nscript\nupdate 1\n",
        4,
        b"malformed",
    );
    expect_fault(&rt, alloc, b"", 1, b"malformed");
    expect_fault(
        &rt,
        alloc,
        b"schema 1\nwindow 31536001\nscript\nwork 0",
        2,
        b"out of range",
    );
}

#[test]
fn faults_of_blocks(rt: HostRuntime) {
    let alloc = rt.alloc();
    expect_fault(
        &rt,
        alloc,
        b"schema 1\nwindow 0\nscript\npar workers 17 turns 1\n",
        4,
        b"out of range",
    );
    expect_fault(
        &rt,
        alloc,
        b"schema 1\nwindow 0\nscript\npar workers 1 turns 1\nend\n",
        5,
        b"malformed",
    );
    expect_fault(
        &rt,
        alloc,
        b"schema 1\nwindow 0\nscript\npar workers 1 turns 1\n\n",
        6,
        b"malformed",
    );
    expect_fault(
        &rt,
        alloc,
        b"schema 1\nwindow 0\nscript\npar workers 1 turns 1\nlane\nget 1",
        7,
        b"malformed",
    );
    expect_fault(
        &rt,
        alloc,
        b"schema 1\nwindow 0\nscript\npar workers 1 turns 1\nlane\nwork 0\nend",
        6,
        b"malformed",
    );
    expect_fault(
        &rt,
        alloc,
        b"schema 1\nwindow 0\nscript\nlane\n",
        4,
        b"malformed",
    );
    expect_fault(
        &rt,
        alloc,
        b"schema 1\nwindow 0\nscript\npar workers 0 turns 1\nlane\nlane\nlane\nlane\nlane\nlane\nlane\nlane\nlane\nlane\nlane\nlane\nlane\nlane\nlane\nlane\nlane\nend\n",
        21,
        b"out of range",
    );
}

#[test]
fn each_command_once(rt: HostRuntime) {
    let alloc = rt.alloc();
    let all =
        b"schema 1\nwindow 0\nobject user directly\nedge likes user user shallow\nscript\ncreate 1 user \"a\"\ncreate 2 user\nupdate 1 \"\"\nlink likes 1 2 \"b\"\nlink likes 2 1\nunlink likes 1 2 job 0\ndelete 999999999999 job 4294967295\nrestore 7\nrestore expiry 7\n\nwork 1000000\ntick 999999999999\nget 1\nshow\njob 7\njob expiry 7\njobs\nreport\nfail 1\ncrash 18446744073709551615\npar quiet workers 16 turns 1\nlane\ncreate 3 user\nget 3\nlane\nend\npar workers 0 turns 1000000\nlane\nend\n";
    assert_eq!(rt; command_count(alloc, all), Some(21));
    assert_eq!(rt; command_count(alloc, b"schema 1\nwindow 0\n"), Some(0));
}

#[test]
fn eight_objects(rt: HostRuntime) {
    match generated(rt.alloc(), 8) {
        Ok((schema, script)) => {
            assert_eq!(rt; schema.edges.len(), 4);
            let commands = script.as_slice();
            assert_eq!(rt; commands.len(), 3);
            match &commands[0] {
                Command::Par { lanes, .. } => {
                    let lanes = lanes.as_slice();
                    assert_eq!(rt; lanes.len(), 8);
                    assert_eq!(rt; lanes[0].commands.len(), 17);
                    assert_eq!(rt; lanes[1].commands.len(), 16);
                    assert_eq!(rt; lanes[2].commands.len(), 0);
                }
                _ => assert!(rt; false),
            }
        }
        Err(_) => assert!(rt; false),
    }
}

#[test]
fn a_script_without_blocks(rt: HostRuntime) {
    let alloc = rt.alloc();
    match parse_document(alloc, b"schema 1\nwindow 0\n") {
        Ok((schema, _)) => {
            match parse_script(alloc, &schema, false, 3, b"show\npar workers 99 turns 1\n") {
                Err(DocumentFault::Bad { line, text }) => {
                    assert_eq!(rt; line, 4);
                    assert!(rt; text.as_slice() == b"malformed".as_slice());
                }
                _ => assert!(rt; false),
            }
        }
        Err(_) => assert!(rt; false),
    }
}
