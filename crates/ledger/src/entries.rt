//! The entries of a history, with room for more.
ghost use Rattle.std.specs.Prelude.{◌≡◌, ◌+◌, ◌<◌, ◌≤◌, ◌++◌, ◌∷◌, [], OnOk, slice_get, option_map};
ghost use Rattle.ledger.specs.Parts.{what_of};

use delf_model::{Entry, What};
use std::alloc::{AllocError, Global};
use std::marker::Model;

/// The entries of a history in order.
#[derive(Drop)]
pub(crate) struct Entries {
    entries: Vec<Entry>,
}

impl Model for Entries {
    ghost use Rattle.std.specs.Prelude.{◌-◌, vec_len, vec_capacity};
    ghost use Rattle.ledger.specs.Parts.{EntryPart};

    ghost Value = { EntryPart };

    ghost view = { λ l. record { list = l.entries.items; spare = vec_capacity l.entries - vec_len l.entries } };
}

impl Entries {
    pub(crate) fn new(alloc: Global) -> Entries
        ensures { result.list ≡ [] }
    {
        Entries {
            entries: Vec::new(alloc),
        }
    }

    pub(crate) fn reserve(&mut self, n: u32) -> Result<(), AllocError>
        ensures list { self.new.list ≡ self.old.list }
        ensures ok { OnOk result (n ≤ self.new.spare) }
        ensures kept { self.old.spare ≤ self.new.spare }
    {
        self.entries.reserve(n as usize)?;
        Ok(())
    }

    /// What the entry at this position says.
    pub(crate) fn what_at(&self, i: u32) -> Option<What>
        ensures { result ≡ option_map what_of (slice_get self.now.list i) }
    {
        match self.entries.get(i as usize) {
            Some(entry) => Some(entry.what),
            None => None,
        }
    }

    pub(crate) fn push(&mut self, entry: &Entry)
        requires { 0 < self.old.spare }
        ensures list { self.new.list ≡ self.old.list ++ entry.now ∷ [] }
        ensures spare { self.new.spare + 1 ≡ self.old.spare }
    {
        let what: What = entry.what;
        self.entries.push_reserved(Entry {
            moment: entry.moment,
            what,
        });
    }
}
