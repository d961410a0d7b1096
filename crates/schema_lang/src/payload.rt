//! The bytes that a word in double quotes spells.

ghost use Rattle.std.specs.Prelude.{◌≡◌, ◌<◌, option_map, MatchOption, IfOk, IfSome, None, [], length};
ghost use Rattle.schema_lang.specs.Words.{hex_digit, hex_byte, escaped_byte, payload_byte, stands_for_itself, words, within_payload, with_word, after_quote};

use crate::line::Word;
use delf_model::Bytes;
use std::alloc::{AllocError, Global};

fn hex_digit(byte: u8) -> Option<u8>
    ensures { result ≡ hex_digit byte }
{
    match byte {
        b'0'..=b'9' => Some(byte - b'0'),
        b'a'..=b'f' => Some(byte - 87),
        b'A'..=b'F' => Some(byte - 55),
        _ => None,
    }
}

fn hex_byte(text: &[u8]) -> Option<(u8, &[u8])>
    ensures { option_map (λ found. (found.0, found.1.now)) result ≡ hex_byte text.now }
{
    let [high, low, rest @ ..] = text else {
        return None;
    };
    let high = hex_digit(*high)?;
    let low = hex_digit(*low)?;
    Some((16 * high + low, rest))
}

fn escaped_byte(text: &[u8]) -> Option<(u8, &[u8])>
    ensures { option_map (λ found. (found.0, found.1.now)) result ≡ escaped_byte text.now }
{
    match text {
        [byte @ (b'"' | b'\\'), rest @ ..] => Some((*byte, rest)),
        [b'x', rest @ ..] => hex_byte(rest),
        _ => None,
    }
}

fn stands_for_itself(byte: u8) -> bool
    ensures { result ≡ stands_for_itself byte }
{
    byte >= 0x20 && byte <= 0x7e && byte != b'"' && byte != b'\\'
}

// The byte that the front spells, and the bytes behind its spelling.
fn payload_byte(text: &[u8]) -> Option<(u8, &[u8])>
    ensures { option_map (λ found. (found.0, found.1.now)) result ≡ payload_byte text.now }
{
    match text {
        [b'\\', rest @ ..] => escaped_byte(rest),
        [byte, rest @ ..] if stands_for_itself(*byte) => Some((*byte, rest)),
        _ => None,
    }
}

/// What follows an opening quote: the bytes of the payload, and what is left of the line behind its closing quote,
/// which is empty or begins with a blank; None where the payload is malformed.
pub fn read_payload(alloc: Global, text: &[u8]) -> Result<Option<(Bytes, &[u8])>, AllocError>
    ensures words { IfOk result (λ read. MatchOption read (within_payload [] text.now ≡ None)
        (λ found. within_payload [] text.now ≡ with_word (Word.Payload found.0) (words found.1.now))) }
    ensures shorter { IfOk result (λ read. IfSome read (λ found. length found.1.now < length text.now)) }
{
    let mut bytes = Vec::new(alloc);
    let mut rest = text;
    while let Some((byte, after)) = payload_byte(rest) {
        bytes.push(byte)?;
        rest = after;
    }
    match after_quote(rest) {
        Some(after) => Ok(Some((Bytes::from_vec(bytes), after))),
        None => Ok(None),
    }
}

// What follows a closing quote at the front, where a blank or the line's end comes there.
fn after_quote(text: &[u8]) -> Option<&[u8]>
    ensures { option_map (λ found. found.now) result ≡ after_quote text.now }
{
    match text {
        [b'"'] => Some(&text[1..]),
        [b'"', b' ' | b'\t', ..] => Some(&text[1..]),
        _ => None,
    }
}
