//! What `check` prints, and how it ends.

use crate::runs::run_words;
use script_runner::Status;
use std::alloc::Global;
use std::process::Abort;
use std::test::Fail;

// Users own photos and sessions, and like photos; albums hold photos.
const PHOTOS: &str =
    "schema 1\nwindow 100\nobject user directly\nobject photo by_any\nobject album directly\nobject session short_ttl 60\nedge owns user photo deep\nedge likes user photo shallow\nedge holds album photo refcount\nedge uses user session deep\n";

// That `check` of the document ends so and prints this text.
fn checks(
    rt: &impl Abort,
    alloc: Global,
    document: &str,
    ended: Status,
    text: &str,
) -> Result<(), Fail> {
    let (status, sink) = run_words(alloc, &["check"], &[document], &[], &[])?;
    assert_eq!(rt; status, ended);
    assert_eq!(rt; sink.held(), text.as_bytes());
    Ok(())
}

#[test]
fn each_type_that_is_by_any_has_its_route(rt: HostRuntime) -> Result<(), Fail> {
    let alloc = rt.alloc();
    checks(
        &rt,
        alloc,
        PHOTOS,
        Status::Done,
        "checked 4 types 4 edges\nroute photo owns\n",
    )?;
    checks(
        &rt,
        alloc,
        "schema 1\nwindow 0\n",
        Status::Done,
        "checked 0 types 0 edges\n",
    )?;
    checks(
        &rt,
        alloc,
        "schema 1\nwindow 0\nobject leaf by_any\nobject root directly\nobject stem by_any\nobject kept not_deleted\nedge long stem leaf deep\nedge up root stem deep\nedge other root stem deep\nedge seen root kept shallow\nscript\nfail 1\ncrash 0\n",
        Status::Done,
        "checked 4 types 4 edges\nroute leaf long up\nroute stem up\n",
    )?;
    checks(
        &rt,
        alloc,
        "schema 1\nwindow 0\nobject leaf by_any\nobject kept not_deleted\nedge last kept leaf refcount\n",
        Status::Done,
        "checked 2 types 1 edges\nroute leaf last\n",
    )
}

#[test]
fn the_first_fault_of_the_whole_document_is_told(rt: HostRuntime) -> Result<(), Fail> {
    let alloc = rt.alloc();
    checks(
        &rt,
        alloc,
        "",
        Status::BadDocument { line: 1 },
        "line 1: malformed\n",
    )?;
    checks(
        &rt,
        alloc,
        "schema 1\nwindow 0\nobject photo by_any\nscript\nnonsense\n",
        Status::BadDocument { line: 3 },
        "line 3: type photo has no route\n",
    )?;
    checks(
        &rt,
        alloc,
        "schema 1\nwindow 0\nobject user directly\nscript\ncreate 1 video\nnonsense\n",
        Status::BadDocument { line: 5 },
        "line 5: unknown name video\n",
    )
}

#[test]
fn faults_of_the_outside_end_a_check(rt: HostRuntime) -> Result<(), Fail> {
    let (status, sink) = run_words(rt.alloc(), &["check"], &[PHOTOS], &[1], &[])?;
    assert_eq!(rt; status, Status::ReadFault);
    assert_eq!(rt; sink.held(), b"".as_slice());
    let (status, sink) = run_words(rt.alloc(), &["check"], &[PHOTOS], &[], &[1])?;
    assert_eq!(rt; status, Status::WriteFault { done: 0 });
    assert_eq!(rt; sink.held(), b"".as_slice());
    Ok(())
}
