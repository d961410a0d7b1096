//! Zeros behind the closed gates of both areas.
ghost use Rattle.std.specs.Prelude.{◌≡◌, ◌≤◌, OnOk, vec_capacity};
ghost use Rattle.delf_disk.specs.Areas.{Areas};
ghost use Rattle.delf_disk.specs.Causes.{HasCause};
ghost use Rattle.delf_disk.specs.Plain.{Plain, SameKind};
ghost use Rattle.delf_disk.specs.Moments.{Leaves};
ghost use Rattle.delf_model.specs.declared.entry.Entry.{Entry};
ghost use Rattle.delf_model.specs.RuleSet.{RuleSet};
ghost use Rattle.delf_model.specs.Payloads.{Payloads};
ghost use Rattle.gate_log.specs.Logs.{StandIn};
ghost use Rattle.delf_disk.specs.declared.area.Area.TheVariants.{Journal as JournalArea, Vault as VaultArea};
ghost use Rattle.store_laws.specs.Stores.{Clean, Settled};
ghost use Rattle.store_laws.specs.Moves.{RestIn};
ghost use Rattle.delf_book.specs.Writing.{Rests};
ghost use Rattle.std.specs.Prelude.{List};

use crate::logs::Logs;
use delf_disk::{Disk, Failed};

/// Settles both areas. At every moment they hold the same.
pub(crate) fn settle_areas<D: Disk>(logs: &mut Logs, disk: &mut D) -> Result<(), Failed>
    requires journal { logs.old.journal.area ≡ JournalArea }
    requires vault { logs.old.vault.area ≡ VaultArea }
    requires journal_stands { Plain (D.told disk.old) (D.honest disk.old) → StandIn logs.old.journal.area logs.old.journal.sizes (D.may_leave disk.old) }
    requires vault_stands { Plain (D.told disk.old) (D.honest disk.old) → StandIn logs.old.vault.area logs.old.vault.sizes (D.may_leave disk.old) }

    ensures journal_area { logs.new.journal.area ≡ logs.old.journal.area }
    ensures journal_sizes { logs.new.journal.sizes ≡ logs.old.journal.sizes }
    ensures journal_spare { logs.old.journal.spare ≤ logs.new.journal.spare }
    ensures vault_area { logs.new.vault.area ≡ logs.old.vault.area }
    ensures vault_sizes { logs.new.vault.sizes ≡ logs.old.vault.sizes }
    ensures vault_spare { logs.old.vault.spare ≤ logs.new.vault.spare }
    ensures items { logs.new.carriers.items ≡ logs.old.carriers.items }
    ensures capacity { vec_capacity logs.new.carriers ≡ vec_capacity logs.old.carriers }

    ensures crash { Plain (D.told disk.old) (D.honest disk.old) → (rules : RuleSet) (history : List Entry) (e : Payloads)
        → RestIn rules history e (D.may_leave disk.old)
        → Leaves D.moment D.may_leave D.left_since (Rests rules history e) disk.old disk.new }
    ensures settled { OnOk result (Plain (D.told disk.old) (D.honest disk.old) → (rules : RuleSet) (history : List Entry) (e : Payloads)
        → RestIn rules history e (D.may_leave disk.old) → Clean rules history (D.seen disk.old)
        → (c : Areas) → D.may_leave disk.new c → Settled rules history c) }

    ensures kind { SameKind D.told D.honest D.order D.orders disk.old disk.new }
    ensures cause { HasCause (D.faults disk.old) (D.faults disk.new) result }
{
    logs.journal.settle(disk)?;
    logs.vault.settle(disk)
}
