//! A sink over one of std's writers. What becomes of the bytes is known to no contract, so it tells none.

ghost use Rattle.std.specs.Prelude.{◌≡◌, ◌<◌, ◌≤◌, [], length, take, false, IfOk, OnOk, OnErr};
ghost use Rattle.std.specs.Io.KnownBytes.{WriteAppends};
ghost use Rattle.delf_io.specs.Faults.{Rose};

use crate::sink::Sink;
use crate::source::Failed;
use std::io::Write;

/// A sink over a writer. Each error of the writer is a fault, and so is a write that takes nothing.
/// It does not flush.
#[derive(Drop)]
pub struct StdSink<T> {
    writer: T,
    faults: u64,
}

impl<T: Write> StdSink<T> {
    /// A sink that writes to `writer`, with no fault so far.
    pub fn of(writer: T) -> StdSink<T>
        ensures { ⟦<StdSink<T> as Sink>⟧.faults result ≡ 0 }
    {
        StdSink { writer, faults: 0 }
    }
}

impl<T: Write> Sink for StdSink<T> {
    ghost told = { λ _. false };

    ghost held = { λ _. [] };

    ghost faults = { λ s. s.faults };

    fn put(&mut self, bytes: &[u8]) -> Result<usize, Failed>
        // It is the writer's own answer, where std knows the writer's bytes.
        ensures handed_on { WriteAppends (T.contents self.old.writer) (T.contents self.new.writer) result bytes.now }
        ensures within { IfOk result (λ n. (n ≤ length bytes.now) × (n ≡ length (take n bytes.now))) }

        ensures never_falls { self.old.faults ≤ self.new.faults }
        ensures failed_rose { OnErr result (Rose self.old.faults self.new.faults) }
        ensures none_taken_rose { IfOk result (λ n. n ≡ 0 → 0 < length bytes.now → Rose self.old.faults self.new.faults) }
        ensures taken_stays { IfOk result (λ n. 0 < n → self.new.faults ≡ self.old.faults) }
        ensures empty_stays { length bytes.now ≡ 0 → OnOk result (self.new.faults ≡ self.old.faults) }
    {
        let Ok(count) = self.writer.write(bytes) else {
            self.faults = self.faults.saturating_add(1);
            return Err(Failed);
        };
        if count == 0 && !bytes.is_empty() {
            self.faults = self.faults.saturating_add(1);
        }
        Ok(count)
    }
}
