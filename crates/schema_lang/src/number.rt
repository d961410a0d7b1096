//! Numbers and names.

ghost use Rattle.std.specs.Prelude.{◌≡◌, ◌<◌, ◌^◌, SomeIff, IfSome, IfNone, IsOk, IsErrOf, Err, Ok};
ghost use Rattle.std.specs.List.{list_all};
ghost use Rattle.std.specs.Char.{is_ascii_digit};
ghost use Rattle.delf_model.specs.Names.{IsName, is_name_code};
ghost use Rattle.schema_lang.specs.Numbers.{is_number, number_value, number_in, is_name_word, name_in};

use crate::why::Why;
use delf_model::is_name_byte;

/// The number that a word spells, of `least` to `greatest`. A number has no sign and no leading zero, and may have
/// any number of digits: one that is too great is out of range, and no word is read as another number.
pub fn read_number(text: &[u8], least: u64, greatest: u64) -> Result<u64, Why>
    ensures { result ≡ number_in least greatest text.now }
{
    if !is_number(text) {
        return Err(Why::Malformed);
    }
    match value_of(text) {
        Some(value) if least <= value && value <= greatest => Ok(value),
        _ => Err(Why::OutOfRange),
    }
}

fn is_number(text: &[u8]) -> bool
    ensures { result ≡ is_number text.now }
{
    !text.is_empty() && are_digits(text) && (text[0] != b'0' || text.len() == 1)
}

fn are_digits(text: &[u8]) -> bool
    ensures { result ≡ list_all is_ascii_digit text.now }
{
    text.iter().all(|byte| byte.is_ascii_digit())
}

// The value of digits, where it fits.
fn value_of(text: &[u8]) -> Option<u64>
    ensures { SomeIff result (number_value text.now < 2 ^ 64) (number_value text.now) }
{
    let mut value = 0u64;
    for digit in text {
        let Some(tens) = value.checked_mul(10) else {
            return None;
        };
        let Some(next) = tens.checked_add(u64::from(digit.saturating_sub(b'0'))) else {
            return None;
        };
        value = next;
    }
    Some(value)
}

/// What is wrong with a word in the place of a name: malformed where it has another byte than `a`-`z`, `0`-`9` and
/// `_` or none at all, out of range where it has more than 32.
pub fn name_fault(text: &[u8]) -> Option<Why>
    ensures fault { IfSome result (λ why. name_in text.now ≡ Err why) }
    ensures none { IfNone result (name_in text.now ≡ Ok text.now) }
    ensures name { IfNone result (IsName text.now) }
{
    if text.is_empty() || !are_name_bytes(text) {
        Some(Why::Malformed)
    } else if text.len() > 32 {
        Some(Why::OutOfRange)
    } else {
        None
    }
}

fn are_name_bytes(text: &[u8]) -> bool
    ensures { result ≡ list_all is_name_code text.now }
{
    text.iter().all(|byte| is_name_byte(*byte))
}
