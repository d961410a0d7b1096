//! A sink in memory, which tells all that it does.

ghost use Rattle.std.specs.Prelude.{◌≡◌, ◌<◌, ◌≤◌, ◌⊎◌, [], length, true, IsErr, IfOk, OnOk, OnErr, Contains};
ghost use Rattle.delf_io.specs.Faults.{next_count};
ghost use Rattle.delf_io.specs.Memory.{failed_sink, written_sink};

use crate::numbers::Numbers;
use crate::sink::Sink;
use crate::source::Failed;
use std::alloc::Global;
use std::marker::Model;

/// Bytes that were put, with calls that are set to fail.
#[derive(Debug, Drop)]
pub struct MemSink {
    bytes: Vec<u8>,
    fails: Numbers,
    calls: u64,
    faults: u64,
    starved: u64,
}

impl Model for MemSink {
    ghost use Rattle.std.specs.Prelude.{◌-◌, vec_len, vec_capacity};
    ghost use Rattle.delf_io.specs.Memory.{SinkState};

    ghost Value = { SinkState };

    ghost view = { λ s. record {
      held = s.bytes.items;
      room = vec_capacity s.bytes - vec_len s.bytes;
      fails = s.fails;
      calls = s.calls;
      faults = s.faults;
      starved = s.starved;
    } };
}

impl MemSink {
    /// An empty sink, whose calls with the numbers `fails`, counted from 1, fail.
    pub fn of(alloc: Global, fails: Numbers) -> MemSink
        ensures { result ≡ record {
          held = [];
          room = result.room;
          fails = fails;
          calls = 0;
          faults = 0;
          starved = 0;
        } }
    {
        MemSink {
            bytes: Vec::new(alloc),
            fails,
            calls: 0,
            faults: 0,
            starved: 0,
        }
    }

    /// The bytes that it holds.
    pub fn held(&self) -> &[u8]
        ensures { result.now ≡ self.now.held }
    {
        self.bytes.as_slice()
    }

    /// How many calls were refused memory. Each of them failed.
    pub fn starved(&self) -> u64
        ensures { result ≡ self.now.starved }
    {
        self.starved
    }
}

impl Sink for MemSink {
    ghost told = { λ _. true };

    ghost held = { λ s. s.held };

    ghost faults = { λ s. s.faults };

    /// Takes the whole piece.
    fn put(&mut self, bytes: &[u8]) -> Result<usize, Failed>
        // It fails exactly where this call is set to fail or is refused memory, and only a piece
        // for which there is no room is refused it.
        ensures set { Contains self.old.fails (next_count self.old.calls)
            → IsErr result × (self.new.starved ≡ self.old.starved) }
        ensures failed { OnErr result (Contains self.old.fails (next_count self.old.calls)
            ⊎ ((self.old.room < length bytes.now) × (self.new.starved ≡ next_count self.old.starved))) }
        ensures fits { length bytes.now ≤ self.old.room → self.new.starved ≡ self.old.starved }
        ensures failed_leaves { OnErr result (self.new ≡ failed_sink self.old self.new.room self.new.starved) }

        // Else it takes all.
        ensures count { IfOk result (λ n. n ≡ length bytes.now) }
        ensures ok { OnOk result (self.new ≡ written_sink self.old self.new.room bytes.now) }

        ensures never_falls { self.old.faults ≤ self.new.faults }
    {
        self.calls = self.calls.saturating_add(1);
        if self.fails.contains(self.calls) {
            self.faults = self.faults.saturating_add(1);
            return Err(Failed);
        }
        if self.bytes.extend_from_slice(bytes).is_err() {
            self.faults = self.faults.saturating_add(1);
            self.starved = self.starved.saturating_add(1);
            return Err(Failed);
        }
        Ok(bytes.len())
    }
}
