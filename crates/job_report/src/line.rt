//! A line in the making.
ghost use Rattle.std.specs.Prelude.{◌≡◌, ◌++◌, [], IfOk, OnOk, decimal, flat_map};
ghost use Rattle.job_report.specs.Words.{line_end, escaped, quoted};

use crate::hex::hex_digit;
use delf_model::Bytes;
use itoa::Buffer;
use std::alloc::{AllocError, Global};
use std::marker::Model;

/// A line in the making: each step gives it with more at its end, or is out of memory.
#[derive(Drop)]
pub struct Line {
    bytes: Vec<u8>,
}

impl Model for Line {
    ghost use Rattle.std.specs.Prelude.{ℕ, List};

    ghost Value = { List ℕ };

    ghost view = { λ line. line.bytes.items };
}

impl Line {
    /// A line with nothing in it.
    pub fn new(alloc: Global) -> Line
        ensures { result ≡ [] }
    {
        Line {
            bytes: Vec::new(alloc),
        }
    }

    /// These bytes as they are.
    pub fn text(mut self, text: &[u8]) -> Result<Line, AllocError>
        ensures { IfOk result (λ line. line ≡ self ++ text.now) }
    {
        self.bytes.extend_from_slice(text)?;
        Ok(self)
    }

    /// A number in decimal.
    pub fn number(self, n: u64) -> Result<Line, AllocError>
        ensures { IfOk result (λ line. line ≡ self ++ decimal n) }
    {
        let mut buffer = Buffer::new();
        self.text(buffer.format(n).as_bytes())
    }

    /// A number in decimal.
    pub fn count(self, n: u32) -> Result<Line, AllocError>
        ensures { IfOk result (λ line. line ≡ self ++ decimal n) }
    {
        self.number(u64::from(n))
    }

    /// A number behind its label.
    pub fn labelled(self, label: &[u8], n: u64) -> Result<Line, AllocError>
        ensures { IfOk result (λ line. line ≡ self ++ (label.now ++ decimal n)) }
    {
        self.text(label)?.number(n)
    }

    /// A number behind its label.
    pub fn counted(self, label: &[u8], n: u32) -> Result<Line, AllocError>
        ensures { IfOk result (λ line. line ≡ self ++ (label.now ++ decimal n)) }
    {
        self.labelled(label, u64::from(n))
    }

    /// A payload in double quotes.
    #[tactic(auto, unfolding(crate::specs::Words::quoted))]
    pub fn quoted(self, payload: &[u8]) -> Result<Line, AllocError>
        ensures { IfOk result (λ line. line ≡ self ++ quoted payload.now) }
    {
        self.text(b"\"")?.escaped(payload)?.text(b"\"")
    }

    fn escaped(self, payload: &[u8]) -> Result<Line, AllocError>
        ensures { IfOk result (λ line. line ≡ self ++ flat_map escaped payload.now) }
    {
        let mut line = self;
        for byte in payload {
            line = line.escaped_byte(*byte)?;
        }
        Ok(line)
    }

    fn escaped_byte(self, byte: u8) -> Result<Line, AllocError>
        ensures { IfOk result (λ line. line ≡ self ++ escaped byte) }
    {
        match byte {
            b'"' => self.text(b"\\\""),
            b'\\' => self.text(b"\\\\"),
            0x20..=0x7E => self.text(&[byte]),
            _ => self.text(&[b'\\', b'x', hex_digit(byte / 16), hex_digit(byte % 16)]),
        }
    }

    /// The whole line with its end.
    pub fn end(self) -> Result<Bytes, AllocError>
        ensures { IfOk result (λ bytes. bytes ≡ self ++ line_end) }
    {
        Ok(self.text(b"\n")?.into_bytes())
    }

    /// What was written so far.
    pub fn into_bytes(self) -> Bytes
        ensures { result ≡ self }
    {
        let Line { bytes } = self;
        Bytes::from_vec(bytes)
    }
}
