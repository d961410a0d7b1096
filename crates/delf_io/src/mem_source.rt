//! A source in memory, which tells all that it does.

ghost use Rattle.std.specs.Prelude.{◌≡◌, ◌++◌, ◌≤◌, ◌↔◌, length, take, min, true, IsErr, IfOk, OnOk, OnErr, Contains};
ghost use Rattle.delf_io.specs.Faults.{next_count};
ghost use Rattle.delf_io.specs.Memory.{failed_source, read_source};

use crate::bytes::Bytes;
use crate::numbers::Numbers;
use crate::source::{Failed, Source};
use std::marker::Model;

/// Bytes to be read, with calls that are set to fail.
#[derive(Debug, Drop)]
pub struct MemSource {
    bytes: Bytes,
    given: usize,
    fails: Numbers,
    calls: u64,
    faults: u64,
}

impl Model for MemSource {
    ghost use Rattle.std.specs.Prelude.{◌≤◌, length, drop};
    ghost use Rattle.delf_io.specs.Memory.{SourceState};

    ghost Value = { SourceState };

    ghost view = { λ s. record {
      left = drop s.given s.bytes;
      fails = s.fails;
      calls = s.calls;
      faults = s.faults;
    } };

    ghost invariant = { λ s. s.given ≤ length s.bytes };
}

impl MemSource {
    /// A source of these bytes, whose calls with the numbers `fails`, counted from 1, fail.
    pub fn of(bytes: Bytes, fails: Numbers) -> MemSource
        ensures { result ≡ record { left = bytes; fails = fails; calls = 0; faults = 0 } }
    {
        MemSource {
            bytes,
            given: 0,
            fails,
            calls: 0,
            faults: 0,
        }
    }
}

impl Source for MemSource {
    ghost told = { λ _. true };

    ghost left = { λ s. s.left };

    ghost faults = { λ s. s.faults };

    /// Gives as many bytes as are left and fit.
    fn next(&mut self, buf: &mut [u8]) -> Result<usize, Failed>
        // It fails exactly where this call is set to fail.
        ensures fails { IsErr result ↔ Contains self.old.fails (next_count self.old.calls) }
        ensures failed { OnErr result (self.new ≡ failed_source self.old) }

        // Else it gives what fits.
        ensures count { IfOk result (λ n. n ≡ min (length buf.new) (length self.old.left)) }
        ensures given { IfOk result (λ n. self.old.left ≡ take n buf.new ++ self.new.left) }
        ensures ok { OnOk result (self.new ≡ read_source self.old self.new.left) }

        ensures never_falls { self.old.faults ≤ self.new.faults }
    {
        self.calls = self.calls.saturating_add(1);
        if self.fails.contains(self.calls) {
            self.faults = self.faults.saturating_add(1);
            return Err(Failed);
        }
        let count = copy_front(&self.bytes.as_slice()[self.given..], buf);
        self.given += count;
        Ok(count)
    }
}

/// Copies as much of the front of `from` as fits to the front of `to`, and answers how much.
fn copy_front(from: &[u8], to: &mut [u8]) -> usize
    ensures count { result ≡ min (length to.new) (length from.now) }
    ensures same { take result to.new ≡ take result from.now }
{
    let count = to.len().min(from.len());
    to[..count].copy_from_slice(&from[..count]);
    count
}
