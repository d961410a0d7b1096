//! The deletion service as a program: a document comes in on standard input, its store stands on two files of the
//! current folder, and its lines go out.
#![tactic(auto)]

use delf_disk::FileDisk;
use delf_io::{StdSink, StdSource, SystemClock};
use delf_service::OpenGate;
use script_runner::{Status, run};
use std::alloc::{AllocError, Global};
use std::env;
use std::io::ErrorKind;
use std::process::ExitCode;
use std::rt::Env;

fn main(rt: HostRuntime) -> ExitCode {
    let Ok(words) = read_words(&rt) else {
        return ExitCode::from(Status::OutOfMemory { done: 0 }.code());
    };
    let Ok(rig) = FileDisk::at(&rt, rt.alloc(), ".") else {
        return ExitCode::from(Status::OutOfMemory { done: 0 }.code());
    };
    let mut source = StdSource::of(rt.stdin());
    let mut sink = StdSink::of(rt.stdout());
    let mut clock = SystemClock::of(&rt);
    let (status, _rig) = run(
        &rt,
        rt.alloc(),
        words.as_slice(),
        &mut source,
        &mut sink,
        rig,
        &mut clock,
        &OpenGate,
    );
    ExitCode::from(status.code())
}

// The words behind the program's name. Where one of them is no text there are none, which are no command either.
fn read_words<R: Env + AllocGlobal>(rt: &R) -> Result<Vec<String>, AllocError> {
    match env::args(rt) {
        Ok(args) => args.skip(1).collect(rt.alloc()),
        Err(error) if error.kind() == ErrorKind::InvalidData => Ok(Vec::new(rt.alloc())),
        Err(_) => Err(AllocError),
    }
}
