//! Both areas, read whole.
ghost use Rattle.std.specs.Prelude.{◌≡◌, [], ℕ, List, map, IfOk, IfErr};
ghost use Rattle.delf_disk.specs.declared.area.Area.{Area as AnArea};
ghost use Rattle.delf_disk.specs.declared.area.Area.TheVariants.{Journal as JournalArea, Vault as VaultArea};
ghost use Rattle.delf_disk.specs.Areas.{Areas};
ghost use Rattle.delf_disk.specs.Images.{Only};
ghost use Rattle.delf_disk.specs.Plain.{Plain, SameKind};
ghost use Rattle.delf_disk.specs.Moments.{Leaves};
ghost use Rattle.gate_log.specs.Records.{size_of};
ghost use Rattle.delf_model.specs.declared.entry.Entry.{Entry};
ghost use Rattle.delf_model.specs.RuleSet.{RuleSet};
ghost use Rattle.delf_model.specs.State.{start};
ghost use Rattle.delf_model.specs.Legal.{Legal};
ghost use Rattle.delf_model.specs.Payloads.{Payloads};
ghost use Rattle.ledger.specs.Ledgers.{state_of};
ghost use Rattle.delf_book.specs.Keeping.{journal_sizes};
ghost use Rattle.store_laws.specs.Stores.{StandBut, vault_of};
ghost use Rattle.opening_laws.specs.Places.{BadPlace, ReadsJournal};
ghost use Rattle.delf_recovery.specs.Opening.{StandsNow, IsBadAt, IsNotBad, KeepsLonger};
ghost use Rattle.delf_recovery.specs.Mending.{Standing, AreNoted};
ghost use Rattle.delf_recovery.specs.Reading.{CountsRead, HasItems, TellsPlace, IsJournals, ReadsVault};

use crate::fault::OpenFault;
use crate::journal::read_journal;
use crate::starting::ReadLog;
use crate::vaults::read_vault;
use delf_book::Fold;
use delf_disk::Disk;
use delf_model::GraphStore;
use std::alloc::Global;

/// The logs of both areas.
#[derive(Drop)]
pub(crate) struct Logs {
    pub(crate) journal: ReadLog,
    pub(crate) vault: ReadLog,
}

/// Reads the journal into a fold of the blank history, and then the vault against it.
pub(crate) fn read_areas<G: GraphStore, D: Disk>(
    alloc: Global,
    fold: &mut Fold<G>,
    disk: &mut D,
) -> Result<Logs, OpenFault>
    requires blank { fold.old.history ≡ [] }
    requires only { Plain (D.told disk.old) (D.honest disk.old) → Only (D.seen disk.old) (D.may_leave disk.old) }

    ensures rules { IfOk result (λ logs. fold.new.rules ≡ fold.old.rules) }
    ensures legal { IfOk result (λ logs. Legal fold.new.rules fold.new.history) }
    ensures journal { IfOk result (λ logs. logs.journal.log.area ≡ JournalArea) }
    ensures sizes { IfOk result (λ logs. logs.journal.log.sizes ≡ journal_sizes (start fold.new.rules) fold.new.history) }
    ensures vault { IfOk result (λ logs. logs.vault.log.area ≡ VaultArea) }
    ensures items { IfOk result (λ logs. HasItems (state_of fold.new).items logs.vault.log.sizes) }
    ensures only { IfOk result (λ logs. Plain (D.told disk.old) (D.honest disk.old) → Only (D.seen disk.new) (D.may_leave disk.new)) }
    ensures standing { IfOk result (λ logs. Plain (D.told disk.old) (D.honest disk.old) → Standing fold.new.rules fold.new.history (D.seen disk.new)) }
    ensures sized { IfOk result (λ logs. Plain (D.told disk.old) (D.honest disk.old) → map size_of (vault_of (D.seen disk.new)) ≡ logs.vault.log.sizes) }
    ensures journal_noted { IfOk result (λ logs. Plain (D.told disk.old) (D.honest disk.old) → AreNoted JournalArea (D.seen disk.new) logs.journal.notes.items) }
    ensures vault_noted { IfOk result (λ logs. Plain (D.told disk.old) (D.honest disk.old) → AreNoted VaultArea (D.seen disk.new) logs.vault.notes.items) }
    ensures found { IfOk result (λ logs. Plain (D.told disk.old) (D.honest disk.old) → StandsNow fold.new.rules fold.new.history (D.seen disk.old)) }
    ensures journal_reads { IfOk result (λ logs. Plain (D.told disk.old) (D.honest disk.old) → ReadsJournal fold.new.rules fold.new.history (D.seen disk.old).journal) }
    ensures vault_reads { IfOk result (λ logs. Plain (D.told disk.old) (D.honest disk.old) → ReadsVault (state_of fold.new).items (D.seen disk.old).vault) }

    ensures bad { IfErr result (λ fault. Plain (D.told disk.old) (D.honest disk.old) → IsBadAt fold.old.rules (D.seen disk.old) fault) }
    ensures never { IfErr result (λ fault. Plain (D.told disk.old) (D.honest disk.old) → (history : List Entry) (e : Payloads)
        → StandBut fold.old.rules history e (D.seen disk.old) → IsNotBad fault) }
    ensures unwritten { IfErr result (λ fault. IsJournals fault → Plain (D.told disk.old) (D.honest disk.old) → D.seen disk.new ≡ D.seen disk.old) }
    ensures unchanged { IfErr result (λ fault. IsJournals fault → Plain (D.told disk.old) (D.honest disk.old) → Only (D.seen disk.old) (D.may_leave disk.new)) }
    ensures crash { Plain (D.told disk.old) (D.honest disk.old) → (rules : RuleSet) (history : List Entry) (e : Payloads)
        → StandBut rules history e (D.seen disk.old)
        → Leaves D.moment D.may_leave D.left_since (StandBut rules history e) disk.old disk.new }
    ensures longer { Plain (D.told disk.old) (D.honest disk.old)
        → Leaves D.moment D.may_leave D.left_since (KeepsLonger (D.seen disk.old)) disk.old disk.new }

    ensures kind { SameKind D.told D.honest D.order D.orders disk.old disk.new }
    ensures cause { CountsRead (D.faults disk.old) (D.faults disk.new) result }
{
    match read_journal(alloc, fold, disk) {
        Err(fault) => Err(fault),
        Ok(journal) => match read_vault(alloc, fold, disk) {
            Err(fault) => Err(fault),
            Ok(vault) => Ok(Logs { journal, vault }),
        },
    }
}
