//! A source over one of std's readers. What that gives is known to no contract, so it tells no bytes.

ghost use Rattle.std.specs.Prelude.{◌≡◌, ◌≤◌, [], length, take, false, IfOk, OnOk, OnErr};
ghost use Rattle.std.specs.Io.KnownBytes.{ReadConsumes};
ghost use Rattle.delf_io.specs.Faults.{Rose};

use crate::source::{Failed, Source};
use std::io::Read;

/// A source over a reader. Each error of the reader is a fault.
#[derive(Drop)]
pub struct StdSource<T> {
    reader: T,
    faults: u64,
}

impl<T: Read> StdSource<T> {
    /// A source that reads from `reader`, with no fault so far.
    pub fn of(reader: T) -> StdSource<T>
        ensures { ⟦<StdSource<T> as Source>⟧.faults result ≡ 0 }
    {
        StdSource { reader, faults: 0 }
    }
}

impl<T: Read> Source for StdSource<T> {
    ghost told = { λ _. false };

    ghost left = { λ _. [] };

    ghost faults = { λ s. s.faults };

    fn next(&mut self, buf: &mut [u8]) -> Result<usize, Failed>
        // It is the reader's own answer, where std knows the reader's bytes.
        ensures handed_on { ReadConsumes (T.remaining self.old.reader) (T.remaining self.new.reader) result buf.new }
        ensures within { IfOk result (λ n. (n ≤ length buf.new) × (n ≡ length (take n buf.new))) }

        ensures never_falls { self.old.faults ≤ self.new.faults }
        ensures failed_rose { OnErr result (Rose self.old.faults self.new.faults) }
        ensures ok_stays { OnOk result (self.new.faults ≡ self.old.faults) }
    {
        let Ok(count) = self.reader.read(buf) else {
            self.faults = self.faults.saturating_add(1);
            return Err(Failed);
        };
        Ok(count)
    }
}
