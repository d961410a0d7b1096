//! The words of a document's lines.

ghost use Rattle.std.specs.Prelude.{◌≡◌, ◌≢◌, slice_index, ◌∷◌, [], ◌<◌, ◌≤◌, MatchOption, IfOk, IfSome, None, length};
ghost use Rattle.std.specs.Str.Lines.{lines, strip_carriage_return};
ghost use Rattle.std.specs.List.{position_or_len};
ghost use Rattle.schema_lang.specs.Words.{line_of, is_skipped, words, with_word, without_blanks, is_blank, StartsWord};

use crate::payload::read_payload;
use delf_model::{Bytes, List};
use std::alloc::{AllocError, Global};

/// A word of a line.
#[derive(Drop, Debug)]
pub enum Word {
    /// One that does not begin with a quote, as it stands.
    Plain(Bytes),
    /// The bytes that a word in double quotes spells.
    Payload(Bytes),
}

/// What a line says.
#[derive(Drop)]
pub enum Line {
    /// Nothing: it has no words, or its first begins with `#`.
    Skipped,
    /// A payload in it is malformed.
    Faulty,
    /// Its words, at least one.
    Words(List<Word>),
}

/// The first line of these bytes, without its LF and one CR directly before that, and the bytes behind it; None at
/// the end. A last line may end without LF, and then keeps a CR.
pub fn split_line(bytes: &[u8]) -> Option<(&[u8], &[u8])>
    ensures lines { MatchOption result (lines bytes.now ≡ []) (λ found. lines bytes.now ≡ found.0.now ∷ lines found.1.now) }
    ensures shorter { MatchOption result (bytes.now ≡ []) (λ found. length found.1.now < length bytes.now) }
{
    if bytes.is_empty() {
        return None;
    }
    for (place, byte) in bytes.iter().enumerate() {
        if *byte == b'\n' {
            return Some((without_return(&bytes[..place]), &bytes[place + 1..]));
        }
    }
    Some((bytes, &bytes[bytes.len()..]))
}

fn without_return(line: &[u8]) -> &[u8]
    ensures { result.now ≡ strip_carriage_return line.now }
{
    match line {
        [front @ .., b'\r'] => front,
        _ => line,
    }
}

/// What a line says.
#[tactic(auto, unfolding(crate::specs::Words::line_of))]
pub fn read_line(alloc: Global, line: &[u8]) -> Result<Line, AllocError>
    ensures { IfOk result (λ read. read ≡ line_of line.now) }
{
    if is_skipped(line) {
        return Ok(Line::Skipped);
    }
    match read_words(alloc, line)? {
        Some(words) => Ok(Line::Words(words)),
        None => Ok(Line::Faulty),
    }
}

fn is_skipped(line: &[u8]) -> bool
    ensures { result ≡ is_skipped line.now }
{
    match skip_blanks(line).first() {
        None => true,
        Some(byte) => *byte == b'#',
    }
}

fn is_blank(byte: u8) -> bool
    ensures { result ≡ is_blank byte }
{
    byte == b' ' || byte == b'\t'
}

fn skip_blanks(line: &[u8]) -> &[u8]
    ensures value { result.now ≡ without_blanks line.now }
    ensures bound { length result.now ≤ length line.now }
{
    let mut rest = line;
    while let [byte, after @ ..] = rest {
        if !is_blank(*byte) {
            break;
        }
        rest = after;
    }
    rest
}

// The words of a line; None where a payload is malformed.
fn read_words(alloc: Global, line: &[u8]) -> Result<Option<List<Word>>, AllocError>
    ensures { IfOk result (λ read. read ≡ words line.now) }
{
    let mut found = List::new(alloc);
    let mut rest = skip_blanks(line);
    while !rest.is_empty() {
        let Some((word, after)) = read_word(alloc, rest)? else {
            return Ok(None);
        };
        found.push(word)?;
        rest = skip_blanks(after);
    }
    Ok(Some(found))
}

// The word at the front, where no blank stands.
fn read_word(alloc: Global, text: &[u8]) -> Result<Option<(Word, &[u8])>, AllocError>
    requires { StartsWord text.now }
    ensures words { IfOk result (λ read. MatchOption read (words text.now ≡ None)
        (λ found. words text.now ≡ with_word found.0 (words found.1.now))) }
    ensures shorter { IfOk result (λ read. IfSome read (λ found. length found.1.now < length text.now)) }
{
    if text[0] != b'"' {
        let (word, after) = read_plain(alloc, text)?;
        return Ok(Some((word, after)));
    }
    match read_payload(alloc, &text[1..])? {
        Some((bytes, after)) => Ok(Some((Word::Payload(bytes), after))),
        None => Ok(None),
    }
}

fn read_plain(alloc: Global, text: &[u8]) -> Result<(Word, &[u8]), AllocError>
    requires starts { StartsWord text.now }
    requires plain { slice_index text.now 0 ≢ 34 }
    ensures words { IfOk result (λ found. words text.now ≡ with_word found.0 (words found.1.now)) }
    ensures shorter { IfOk result (λ found. length found.1.now < length text.now) }
{
    let (word, after) = text.split_at(plain_length(text));
    let word = Bytes::of(alloc, word)?;
    Ok((Word::Plain(word), after))
}

// The number of bytes before the first blank.
fn plain_length(text: &[u8]) -> usize
    ensures { result ≡ position_or_len is_blank text.now }
{
    for (place, byte) in text.iter().enumerate() {
        if is_blank(*byte) {
            return place;
        }
    }
    text.len()
}
