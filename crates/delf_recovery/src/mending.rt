//! The mending of areas that were read.
ghost use Rattle.std.specs.Prelude.{◌≡◌, OnOk, map};
ghost use Rattle.delf_disk.specs.declared.area.Area.TheVariants.{Journal as JournalArea, Vault as VaultArea};
ghost use Rattle.delf_disk.specs.Areas.{Areas};
ghost use Rattle.delf_disk.specs.Images.{Only};
ghost use Rattle.delf_disk.specs.Causes.{HasCause};
ghost use Rattle.delf_disk.specs.Plain.{Plain, SameKind};
ghost use Rattle.delf_disk.specs.Moments.{Leaves};
ghost use Rattle.gate_log.specs.Records.{size_of};
ghost use Rattle.delf_model.specs.State.{start};
ghost use Rattle.delf_model.specs.Legal.{Legal};
ghost use Rattle.delf_model.specs.Payloads.{Payloads, Carrier};
ghost use Rattle.ledger.specs.Ledgers.{state_of};
ghost use Rattle.delf_book.specs.Keeping.{KeepsLogs, journal_sizes, item_sizes};
ghost use Rattle.store_laws.specs.Stores.{StandBut, Clean, vault_of};
ghost use Rattle.store_laws.specs.Moves.{RestIn};
ghost use Rattle.delf_recovery.specs.Mending.{Standing, IsZero, AreNoted};
ghost use Rattle.delf_recovery.specs.Reading.{HasItems};

use crate::scrubs::scrub_dead;
use crate::vaults::has_item;
use delf_book::Fold;
use delf_disk::{Area, Disk, Failed};
use delf_model::GraphStore;
use gate_log::GateLog;

/// Drops the vault record that is that of no item, if there is one, and syncs then.
pub(crate) fn drop_extra<G: GraphStore, D: Disk>(
    fold: &Fold<G>,
    vault: &mut GateLog,
    disk: &mut D,
) -> Result<(), Failed>
    requires area { vault.old.area ≡ VaultArea }
    requires items { HasItems (state_of fold.now).items vault.old.sizes }
    requires legal { Legal fold.now.rules fold.now.history }
    requires only { Plain (D.told disk.old) (D.honest disk.old) → Only (D.seen disk.old) (D.may_leave disk.old) }
    requires standing { Plain (D.told disk.old) (D.honest disk.old) → Standing fold.now.rules fold.now.history (D.seen disk.old) }
    requires sized { Plain (D.told disk.old) (D.honest disk.old) → map size_of (vault_of (D.seen disk.old)) ≡ vault.old.sizes }

    ensures area { vault.new.area ≡ vault.old.area }
    ensures sizes { OnOk result (vault.new.sizes ≡ map item_sizes (state_of fold.now).items) }
    ensures crash { Plain (D.told disk.old) (D.honest disk.old) → (e : Payloads) → StandBut fold.now.rules fold.now.history e (D.seen disk.old)
        → Leaves D.moment D.may_leave D.left_since (StandBut fold.now.rules fold.now.history e) disk.old disk.new }
    ensures rests { OnOk result (Plain (D.told disk.old) (D.honest disk.old) → (e : Payloads) → StandBut fold.now.rules fold.now.history e (D.seen disk.old)
        → RestIn fold.now.rules fold.now.history e (D.may_leave disk.new)) }
    ensures zeros { OnOk result (Plain (D.told disk.old) (D.honest disk.old) → (carrier : Carrier) → IsZero carrier (D.seen disk.old)
        → IsZero carrier (D.seen disk.new)) }

    ensures kind { SameKind D.told D.honest D.order D.orders disk.old disk.new }
    ensures cause { HasCause (D.faults disk.old) (D.faults disk.new) result }
{
    let count = vault.count();
    if count == 0 {
        return Ok(());
    }
    if has_item(fold, count - 1) {
        return Ok(());
    }
    vault.drop_last(disk)
}

/// Drops the vault record that is that of no item, writes zeros over each payload that is neither needed nor noted as zeros,
/// and syncs.
pub(crate) fn mend<G: GraphStore, D: Disk>(
    fold: &Fold<G>,
    journal: &mut GateLog,
    journal_notes: &[bool],
    vault: &mut GateLog,
    vault_notes: &[bool],
    disk: &mut D,
) -> Result<(), Failed>
    requires journal { journal.old.area ≡ JournalArea }
    requires sizes { journal.old.sizes ≡ journal_sizes (start fold.now.rules) fold.now.history }
    requires vault { vault.old.area ≡ VaultArea }
    requires items { HasItems (state_of fold.now).items vault.old.sizes }
    requires legal { Legal fold.now.rules fold.now.history }
    requires only { Plain (D.told disk.old) (D.honest disk.old) → Only (D.seen disk.old) (D.may_leave disk.old) }
    requires standing { Plain (D.told disk.old) (D.honest disk.old) → Standing fold.now.rules fold.now.history (D.seen disk.old) }
    requires sized { Plain (D.told disk.old) (D.honest disk.old) → map size_of (vault_of (D.seen disk.old)) ≡ vault.old.sizes }
    requires journal_noted { Plain (D.told disk.old) (D.honest disk.old) → AreNoted JournalArea (D.seen disk.old) journal_notes.now }
    requires vault_noted { Plain (D.told disk.old) (D.honest disk.old) → AreNoted VaultArea (D.seen disk.old) vault_notes.now }

    ensures logs { OnOk result (KeepsLogs fold.now.rules fold.now.history journal.new vault.new) }
    ensures crash { Plain (D.told disk.old) (D.honest disk.old) → (e : Payloads) → StandBut fold.now.rules fold.now.history e (D.seen disk.old)
        → Leaves D.moment D.may_leave D.left_since (StandBut fold.now.rules fold.now.history e) disk.old disk.new }
    ensures rests { OnOk result (Plain (D.told disk.old) (D.honest disk.old) → (e : Payloads) → StandBut fold.now.rules fold.now.history e (D.seen disk.old)
        → RestIn fold.now.rules fold.now.history e (D.may_leave disk.new)) }
    ensures clean { OnOk result (Plain (D.told disk.old) (D.honest disk.old) → (c : Areas) → D.may_leave disk.new c
        → Clean fold.now.rules fold.now.history c) }

    ensures kind { SameKind D.told D.honest D.order D.orders disk.old disk.new }
    ensures cause { HasCause (D.faults disk.old) (D.faults disk.new) result }
{
    drop_extra(fold, vault, disk)?;
    scrub_dead(fold, journal, journal_notes, Area::Journal, disk)?;
    scrub_dead(fold, vault, vault_notes, Area::Vault, disk)?;
    disk.sync()
}
