//! The logs of both areas, and where the payload of each row stands.
ghost use Rattle.std.specs.Prelude.{◌≡◌, ◌+◌, ◌-◌, ◌≤◌, vec_len, vec_capacity, OnOk};

use gate_log::GateLog;
use std::alloc::AllocError;
use vault::Vault;

/// The logs of both areas, and by position the journal record that carries the payload of a row of the graph.
#[derive(Drop)]
pub(crate) struct Logs {
    pub(crate) journal: GateLog,
    pub(crate) vault: Vault,
    pub(crate) carriers: Vec<u32>,
}

impl Logs {
    /// Makes room for `n` entries more. The only error is want of memory; whatever it answers, no room is lost.
    pub(crate) fn reserve(&mut self, n: u32) -> Result<(), AllocError>
        ensures journal_area { self.new.journal.area ≡ self.old.journal.area }
        ensures journal_sizes { self.new.journal.sizes ≡ self.old.journal.sizes }
        ensures vault_area { self.new.vault.area ≡ self.old.vault.area }
        ensures vault_sizes { self.new.vault.sizes ≡ self.old.vault.sizes }
        ensures carriers { self.new.carriers.items ≡ self.old.carriers.items }
        ensures journal_spare { self.old.journal.spare ≤ self.new.journal.spare }
        ensures vault_spare { self.old.vault.spare ≤ self.new.vault.spare }
        ensures carriers_spare { vec_capacity self.old.carriers ≤ vec_capacity self.new.carriers }
        ensures journal_room { OnOk result (n ≤ self.new.journal.spare) }
        ensures vault_room { OnOk result (n ≤ self.new.vault.spare) }
        ensures carriers_room { OnOk result (vec_len self.new.carriers + n ≤ vec_capacity self.new.carriers) }
    {
        self.journal.reserve(n)?;
        self.vault.reserve(n)?;
        self.carriers.reserve(n as usize)?;
        Ok(())
    }
}
