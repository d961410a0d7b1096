//! Runs each example over a store of its own, and compares what it prints with what is written beside it.
#![tactic(auto)]

use delf_disk::FileDisk;
use delf_io::{Bytes, ListClock, MemSink, MemSource, Numbers};
use delf_service::OpenGate;
use script_runner::run;
use std::alloc::{AllocError, Global};
use std::fs::File;
use std::rt::Files;
use std::{fs, io};

// The program's words, the document that it reads, what it prints of it, and the folder of its store.
struct Example {
    words: &'static [&'static str],
    document: &'static str,
    output: &'static str,
    store: &'static str,
}

const RUN: &[&str] = &["run", "--at", "0"];

const EXAMPLES: [Example; 11] = [
    Example {
        words: RUN,
        document: "first.document",
        output: "first.output",
        store: "first",
    },
    Example {
        words: RUN,
        document: "crash.document",
        output: "crash.output",
        store: "crash",
    },
    // An hour later, over the store of the one before.
    Example {
        words: &["run", "--at", "3600"],
        document: "restore.document",
        output: "restore.output",
        store: "crash",
    },
    Example {
        words: RUN,
        document: "account_deletion.document",
        output: "account_deletion.output",
        store: "account",
    },
    Example {
        words: &["check"],
        document: "account_deletion.document",
        output: "account_deletion.checked",
        store: "account",
    },
    Example {
        words: RUN,
        document: "id_taken_again.document",
        output: "id_taken_again.output",
        store: "id",
    },
    Example {
        words: RUN,
        document: "window_over.document",
        output: "window_over.output",
        store: "window",
    },
    Example {
        words: RUN,
        document: "expiry.document",
        output: "expiry.output",
        store: "expiry",
    },
    Example {
        words: RUN,
        document: "block.document",
        output: "block.output",
        store: "block",
    },
    Example {
        words: &["check"],
        document: "no_route.document",
        output: "no_route.checked",
        store: "check",
    },
    Example {
        words: &["check"],
        document: "route.document",
        output: "route.checked",
        store: "check",
    },
];

// The program's words.
fn words_of(alloc: Global, example: &Example) -> Result<Vec<String>, AllocError> {
    let mut words = Vec::new(alloc);
    for word in example.words {
        words.push(String::from_str(alloc, word)?)?;
    }
    Ok(words)
}

// The document, as a source.
fn source_of<R: Files<File = File> + AllocGlobal>(
    rt: &R,
    alloc: Global,
    example: &Example,
) -> io::Result<MemSource> {
    let document = fs::read_to_string(rt, example.document)?;
    let bytes = Bytes::of(alloc, document.as_bytes())?;
    Ok(MemSource::of(bytes, Numbers::of(alloc, &[])?))
}

fn main(rt: HostRuntime) -> io::Result<()> {
    let alloc = rt.alloc();
    for example in &EXAMPLES {
        let words = words_of(alloc, example)?;
        let mut source = source_of(&rt, alloc, example)?;
        let mut sink = MemSink::of(alloc, Numbers::of(alloc, &[])?);
        let mut clock = ListClock::of(Numbers::of(alloc, &[])?);
        fs::create_dir_all(&rt, example.store)?;
        let disk = FileDisk::at(&rt, alloc, example.store)?;
        let (_status, _disk) = run(
            &rt,
            alloc,
            words.as_slice(),
            &mut source,
            &mut sink,
            disk,
            &mut clock,
            &OpenGate,
        );
        let document = example.document;
        let name = example.output;
        let output = fs::read_to_string(&rt, name)?;
        if sink.held() == output.as_bytes() {
            println!(rt; "{document} prints {name}")?;
        } else {
            println!(rt; "{document} does not print {name}")?;
        }
    }
    Ok(())
}
