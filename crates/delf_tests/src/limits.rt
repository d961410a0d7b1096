//! What a store of the greatest size answers.

use crate::runs::run_words;
use itoa::Buffer;
use script_runner::Status;
use std::alloc::{AllocError, Global};
use std::test::Fail;

// Each user takes four entries in all: it is made, deleted, erased, and its job is purged.
const USERS: u32 = 125_000;

// Adds these words and, behind them, a number.
fn push(text: &mut String, words: &str, number: u32) -> Result<(), AllocError> {
    let mut digits = Buffer::new();
    text.push_str(words)?;
    text.push_str(digits.format(number))
}

// The commands that make all users, and one more.
fn creates(text: &mut String) -> Result<(), AllocError> {
    for before in 0..USERS + 1 {
        push(text, "create ", before + 1)?;
        text.push_str(" user\n")?;
    }
    Ok(())
}

// The commands that delete all users.
fn deletes(text: &mut String) -> Result<(), AllocError> {
    for before in 0..USERS {
        push(text, "delete ", before + 1)?;
        push(text, " job ", before + 1)?;
        text.push_str("\n")?;
    }
    Ok(())
}

// The commands: users are made, deleted, worked off and, once the window is over, purged.
fn commands(text: &mut String) -> Result<(), AllocError> {
    text.push_str("schema 1\nwindow 100\nobject user directly\nscript\n")?;
    creates(text)?;
    deletes(text)?;
    text.push_str("work 1000000\ntick 101\nwork 1000000\nshow\n")
}

// What is printed of the users that are made.
fn created(text: &mut String) -> Result<(), AllocError> {
    for before in 0..USERS {
        push(text, "", before)?;
        push(text, " created ", before + 1)?;
        text.push_str("\n")?;
    }
    Ok(())
}

// What is printed of the users that are deleted.
fn deleting(text: &mut String) -> Result<(), AllocError> {
    for before in 0..USERS {
        push(text, "", USERS + before)?;
        push(text, " deleting ", before + 1)?;
        push(text, " job ", before + 1)?;
        text.push_str("\n")?;
    }
    Ok(())
}

// What is printed of all.
fn lines(text: &mut String) -> Result<(), AllocError> {
    created(text)?;
    text.push_str("refused 15 at 125000 full 125000 375000\n")?;
    deleting(text)?;
    text.push_str("work 125000 idle\nwork 125000 idle\ngraph 0 0\n")
}

// Whether the document is run to its end, and prints this text.
fn is_printed(alloc: Global, document: &str, text: &str) -> Result<bool, AllocError> {
    let words = ["run", "--at", "0"];
    let (status, sink) = run_words(alloc, &words, &[document], &[], &[])?;
    Ok(status == Status::Done && sink.held() == text.as_bytes())
}

// Whether the document, into which the commands are put, prints all.
fn is_taken(alloc: Global, document: &mut String, text: &mut String) -> Result<bool, AllocError> {
    commands(document)?;
    lines(text)?;
    is_printed(alloc, document.as_str(), text.as_str())
}

#[test]
fn a_store_takes_half_a_million_entries(rt: HostRuntime) -> Result<(), Fail> {
    let alloc = rt.alloc();
    let taken = is_taken(alloc, &mut String::new(alloc), &mut String::new(alloc))?;
    assert!(rt; taken);
    Ok(())
}
