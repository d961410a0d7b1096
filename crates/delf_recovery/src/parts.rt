//! An opening over a disk that is lent.
ghost use Rattle.std.specs.Prelude.{◌≡◌, ℕ, List, IfOk, IfErr};
ghost use Rattle.delf_disk.specs.declared.area.Area.{Area as AnArea};
ghost use Rattle.delf_disk.specs.Areas.{Areas};
ghost use Rattle.delf_disk.specs.Images.{Only};
ghost use Rattle.delf_disk.specs.Plain.{Plain, SameKind};
ghost use Rattle.delf_disk.specs.Moments.{Leaves};
ghost use Rattle.delf_model.specs.declared.entry.Entry.{Entry};
ghost use Rattle.delf_model.specs.RuleSet.{is_refcount};
ghost use Rattle.delf_model.specs.Graph.{empty_graph};
ghost use Rattle.delf_model.specs.Legal.{Legal};
ghost use Rattle.delf_model.specs.Payloads.{Payloads};
ghost use Rattle.delf_book.specs.Keeping.{KeepsLogs, KeepsAreas};
ghost use Rattle.store_laws.specs.Stores.{StandBut, Clean};
ghost use Rattle.store_laws.specs.Moves.{RestIn};
ghost use Rattle.opening_laws.specs.Places.{BadPlace};
ghost use Rattle.delf_recovery.specs.Opening.{StandsNow, IsBadAt, IsNotBad, KeepsLonger, StaysBad};
ghost use Rattle.delf_recovery.specs.Reading.{CountsRead, TellsPlace, IsJournals, IsOfReading};

use crate::fault::OpenFault;
use crate::mending::mend;
use crate::reading::{Logs, read_areas};
use delf_book::{Fold, fold};
use delf_disk::Disk;
use delf_model::{GraphStore, Rules};
use gate_log::GateLog;
use std::alloc::Global;
use vault::Vault;

/// What a book is made of, but for its disk.
#[derive(Drop)]
pub(crate) struct Parts<G: GraphStore> {
    pub(crate) fold: Fold<G>,
    pub(crate) journal: GateLog,
    pub(crate) vault: Vault,
}

/// Opens the store that stands on the disk, where a sync was the last call. It ends with one.
pub(crate) fn open_parts<G: GraphStore + Drop, D: Disk>(
    alloc: Global,
    rules: Rules,
    graph: G,
    disk: &mut D,
) -> Result<Parts<G>, OpenFault>
    requires blank { G.graph graph ≡ empty_graph }
    requires counts { (edge : ℕ) → G.counts graph edge ≡ is_refcount rules edge }
    requires only { Plain (D.told disk.old) (D.honest disk.old) → Only (D.seen disk.old) (D.may_leave disk.old) }

    ensures rules { IfOk result (λ parts. parts.fold.rules ≡ rules) }
    ensures legal { IfOk result (λ parts. Legal rules parts.fold.history) }
    ensures logs { IfOk result (λ parts. KeepsLogs rules parts.fold.history parts.journal parts.vault) }
    ensures areas { IfOk result (λ parts. Plain (D.told disk.old) (D.honest disk.old)
        → KeepsAreas rules parts.fold.history (D.seen disk.new) (D.may_leave disk.new)) }
    ensures found { IfOk result (λ parts. Plain (D.told disk.old) (D.honest disk.old) → StandsNow rules parts.fold.history (D.seen disk.old)) }
    ensures opened { IfOk result (λ parts. Plain (D.told disk.old) (D.honest disk.old) → (history : List Entry) (e : Payloads)
        → StandBut rules history e (D.seen disk.old)
        → (parts.fold.history ≡ history) × RestIn rules history e (D.may_leave disk.new)) }
    ensures clean { IfOk result (λ parts. Plain (D.told disk.old) (D.honest disk.old) → (c : Areas)
        → D.may_leave disk.new c → Clean rules parts.fold.history c) }
    ensures well { IfOk result (λ parts. Plain (D.told disk.old) (D.honest disk.old) → (area : AnArea) (at : ℕ)
        → BadPlace rules (D.seen disk.old) area at → ⊥) }

    ensures bad { IfErr result (λ fault. Plain (D.told disk.old) (D.honest disk.old) → IsBadAt rules (D.seen disk.old) fault) }
    ensures told { IfErr result (λ fault. Plain (D.told disk.old) (D.honest disk.old) → (area : AnArea) (at : ℕ)
        → BadPlace rules (D.seen disk.old) area at → TellsPlace area at fault) }
    ensures never { IfErr result (λ fault. Plain (D.told disk.old) (D.honest disk.old) → (history : List Entry) (e : Payloads)
        → StandBut rules history e (D.seen disk.old) → IsNotBad fault) }

    ensures crash { Plain (D.told disk.old) (D.honest disk.old) → (history : List Entry) (e : Payloads)
        → StandBut rules history e (D.seen disk.old)
        → Leaves D.moment D.may_leave D.left_since (StandBut rules history e) disk.old disk.new }
    ensures bad_crash { Plain (D.told disk.old) (D.honest disk.old) → (area : AnArea) (at : ℕ)
        → BadPlace rules (D.seen disk.old) area at
        → Leaves D.moment D.may_leave D.left_since (StaysBad rules area at (D.seen disk.old)) disk.old disk.new }
    ensures longer { IfErr result (λ fault. IsOfReading fault → Plain (D.told disk.old) (D.honest disk.old) → (c : Areas)
        → D.may_leave disk.new c → KeepsLonger (D.seen disk.old) c) }
    ensures unwritten { IfErr result (λ fault. IsJournals fault → Plain (D.told disk.old) (D.honest disk.old) → D.seen disk.new ≡ D.seen disk.old) }
    ensures unchanged { IfErr result (λ fault. IsJournals fault → Plain (D.told disk.old) (D.honest disk.old) → Only (D.seen disk.old) (D.may_leave disk.new)) }

    ensures kind { SameKind D.told D.honest D.order D.orders disk.old disk.new }
    ensures cause { CountsRead (D.faults disk.old) (D.faults disk.new) result }
{
    let mut fold = fold(alloc, rules, graph);
    let logs = match read_areas(alloc, &mut fold, disk) {
        Ok(logs) => logs,
        Err(fault) => return Err(fault),
    };
    let Logs {
        mut journal,
        mut vault,
    } = logs;
    match mend(
        &fold,
        &mut journal.log,
        &journal.notes,
        &mut vault.log,
        &vault.notes,
        disk,
    ) {
        Ok(()) => (),
        Err(_) => return Err(OpenFault::DiskFault),
    }
    Ok(Parts {
        fold,
        journal: journal.log,
        vault: Vault::over(vault.log),
    })
}
