//! What the words of the program ask for.
ghost use Rattle.std.specs.Prelude.{◌≡◌, ◌∷◌, [], map, string_bytes, IfSome};
ghost use Rattle.delf_model.specs.Room.{greatest_moment};
ghost use Rattle.schema_lang.specs.Numbers.{number_in};
ghost use Rattle.documents.specs.Requests.{request_of, at_moment, of_size, IsSized};

use delf_model::GREATEST_MOMENT;
use schema_lang::read_number;

/// Where the moment of the start comes from.
#[derive(Clone, Copy, PartialEq, Eq, Debug)]
pub enum Start {
    /// It is this one, 0 to 999,999,999,999.
    At(u64),
    /// The clock is asked.
    Asked,
}

/// What the words ask for.
#[derive(Clone, Copy, PartialEq, Eq, Debug)]
pub enum Request {
    /// A document is read and its script made.
    Run(Start),
    /// A document is read and checked.
    Check,
    /// The script that is generated for `n` objects, 8 to 20,000, is made.
    Load { n: u32 },
}

/// What the words `run`, `run --at N`, `run --at=N`, `check` or `load N` ask for; None where they are no command.
pub fn read_words(words: &[String]) -> Option<Request>
    ensures request { result ≡ request_of (map string_bytes words.now) }
    ensures sized { IfSome result IsSized }
{
    match words {
        [word] => alone(word.as_bytes()),
        [word, behind] => joined(word.as_bytes(), behind.as_bytes()),
        [word, at, number] => apart(word.as_bytes(), at.as_bytes(), number.as_bytes()),
        _ => None,
    }
}

fn alone(word: &[u8]) -> Option<Request>
    ensures request { result ≡ request_of (word.now ∷ []) }
    ensures sized { IfSome result IsSized }
{
    if word == b"run".as_slice() {
        Some(Request::Run(Start::Asked))
    } else if word == b"check".as_slice() {
        Some(Request::Check)
    } else {
        None
    }
}

fn joined(word: &[u8], behind: &[u8]) -> Option<Request>
    ensures request { result ≡ request_of (word.now ∷ behind.now ∷ []) }
    ensures sized { IfSome result IsSized }
{
    if word == b"load".as_slice() {
        return of_size(behind);
    }
    if word != b"run".as_slice() || behind.len() < 5 || &behind[..5] != b"--at=".as_slice() {
        return None;
    }
    at_moment(&behind[5..])
}

fn apart(word: &[u8], at: &[u8], number: &[u8]) -> Option<Request>
    ensures request { result ≡ request_of (word.now ∷ at.now ∷ number.now ∷ []) }
    ensures sized { IfSome result IsSized }
{
    if word != b"run".as_slice() || at != b"--at".as_slice() {
        return None;
    }
    at_moment(number)
}

fn at_moment(number: &[u8]) -> Option<Request>
    ensures request { result ≡ at_moment (number_in 0 greatest_moment number.now) }
    ensures sized { IfSome result IsSized }
{
    match read_number(number, 0, GREATEST_MOMENT) {
        Ok(moment) => Some(Request::Run(Start::At(moment))),
        Err(_) => None,
    }
}

fn of_size(number: &[u8]) -> Option<Request>
    ensures request { result ≡ of_size (number_in 8 20000 number.now) }
    ensures sized { IfSome result IsSized }
{
    match read_number(number, 8, 20_000) {
        Ok(n) => Some(Request::Load { n: n as u32 }),
        Err(_) => None,
    }
}
