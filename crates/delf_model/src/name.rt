//! The names of types.
ghost use Rattle.std.specs.Prelude.{◌≡◌, ◌↔◌, ◌≤◌, IfOk, IsTrue, false, length};
ghost use Rattle.std.specs.List.{list_all};
ghost use Rattle.std.specs.Str.{bytes_eq};
ghost use Rattle.delf_model.specs.Names.{IsName, is_name, is_name_code};

use std::alloc::{AllocError, Global};
use std::marker::Model;

/// A name of the schema: 1 to 32 of `a`-`z`, `0`-`9` and `_`.
#[derive(Drop, Debug)]
pub struct Name {
    text: Vec<u8>,
}

impl Model for Name {
    ghost use Rattle.std.specs.Prelude.{ℕ, List};

    ghost Value = { List ℕ };

    ghost use Rattle.delf_model.specs.Names.{IsName, is_name_code};

    ghost view = { λ name. name.text.items };

    ghost invariant = { λ name. IsName name.text.items };
}

/// Why no name was made.
#[derive(Clone, Copy, PartialEq, Eq, Debug)]
pub enum NameFault {
    /// The text is no name.
    NotAName,
    /// Want of memory.
    OutOfMemory,
}

/// Whether a byte may stand in a name.
pub fn is_name_byte(byte: u8) -> bool
    ensures { result ≡ is_name_code byte }
{
    byte.is_ascii_lowercase() || byte.is_ascii_digit() || byte == b'_'
}

/// Whether a text is a name.
pub fn is_name_text(text: &[u8]) -> bool
    ensures { result ≡ is_name text.now }
{
    1 <= text.len() && text.len() <= 32 && are_name_bytes(text)
}

fn are_name_bytes(text: &[u8]) -> bool
    ensures { result ≡ list_all is_name_code text.now }
{
    text.iter().all(|byte| is_name_byte(*byte))
}

impl Name {
    /// A copy of this text as a name.
    pub fn of(alloc: Global, text: &[u8]) -> Result<Name, NameFault>
        ensures ok { IfOk result (λ name. name ≡ text.now) }
        ensures name { IfOk result (λ name. IsName name) }
        ensures not_a_name { (result ≡ Err NameFault.NotAName) ↔ (is_name text.now ≡ false) }
    {
        if !is_name_text(text) {
            return Err(NameFault::NotAName);
        }
        match text.to_vec(alloc) {
            Ok(text) => Ok(Name { text }),
            Err(AllocError) => Err(NameFault::OutOfMemory),
        }
    }

    /// Its bytes.
    pub fn as_slice(&self) -> &[u8]
        ensures value { result.now ≡ self.now }
        ensures name { IsName self.now }
    {
        &self.text
    }

    /// The number of its bytes, 1 to 32.
    pub fn len(&self) -> usize
        ensures value { result ≡ length self.now }
        ensures above { 1 ≤ result }
        ensures below { result ≤ 32 }
    {
        self.text.len()
    }

    /// Whether another name has the same bytes.
    pub fn same(&self, other: &Name) -> bool
        ensures equal { IsTrue result ↔ (self.now ≡ other.now) }
        ensures tested { result ≡ bytes_eq self.now other.now }
    {
        self.text.as_slice() == other.text.as_slice()
    }
}
