//! An opening that reads ahead.
ghost use Rattle.std.specs.Prelude.{◌≡◌, ◌⊎◌, ℕ, List, IfOk, IfErr};
ghost use Rattle.delf_disk.specs.declared.area.Area.{Area as AnArea};
ghost use Rattle.delf_disk.specs.Areas.{Areas};
ghost use Rattle.delf_disk.specs.Images.{Only};
ghost use Rattle.delf_disk.specs.Plain.{Plain, SameKind};
ghost use Rattle.delf_disk.specs.Moments.{Leaves};
ghost use Rattle.delf_model.specs.declared.entry.Entry.{Entry};
ghost use Rattle.delf_model.specs.RuleSet.{is_refcount};
ghost use Rattle.delf_model.specs.Graph.{empty_graph};
ghost use Rattle.delf_model.specs.Legal.{Legal};
ghost use Rattle.delf_model.specs.Payloads.{Payloads};
ghost use Rattle.delf_book.specs.Keeping.{KeepsLogs, KeepsAreas};
ghost use Rattle.store_laws.specs.Stores.{StandBut, Clean};
ghost use Rattle.store_laws.specs.Moves.{RestIn};
ghost use Rattle.opening_laws.specs.Places.{BadPlace};
ghost use Rattle.delf_recovery.specs.Opening.{disk_in, StandsNow, IsBadAt, IsNotBad, StaysBad, StaysAsRead, WantLeaves, CountsOpening};
ghost use Rattle.delf_recovery.specs.Reading.{TellsPlace, IsJournals};

use crate::fault::OpenFault;
use crate::parts::{Parts, open_parts};
use crate::piece::Piece;
use crate::read_ahead::ReadAhead;
use delf_disk::Disk;
use delf_model::{GraphStore, Rules};
use std::alloc::Global;

/// Opens the store that stands on the disk, where a sync was the last call. It reads in pieces. The disk comes back.
fn open_synced<G: GraphStore + Drop, D: Disk>(
    alloc: Global,
    rules: Rules,
    graph: G,
    disk: D,
) -> Result<(Parts<G>, D), (OpenFault, D)>
    requires blank { G.graph graph ≡ empty_graph }
    requires counts { (edge : ℕ) → G.counts graph edge ≡ is_refcount rules edge }
    requires only { Plain (D.told disk) (D.honest disk) → Only (D.seen disk) (D.may_leave disk) }

    ensures rules { IfOk result (λ it. it.0.fold.rules ≡ rules) }
    ensures legal { IfOk result (λ it. Legal rules it.0.fold.history) }
    ensures logs { IfOk result (λ it. KeepsLogs rules it.0.fold.history it.0.journal it.0.vault) }
    ensures areas { IfOk result (λ it. Plain (D.told disk) (D.honest disk)
        → KeepsAreas rules it.0.fold.history (D.seen it.1) (D.may_leave it.1)) }
    ensures found { IfOk result (λ it. Plain (D.told disk) (D.honest disk) → StandsNow rules it.0.fold.history (D.seen disk)) }
    ensures opened { IfOk result (λ it. Plain (D.told disk) (D.honest disk) → (history : List Entry) (e : Payloads)
        → StandBut rules history e (D.seen disk)
        → (it.0.fold.history ≡ history) × RestIn rules history e (D.may_leave it.1)) }
    ensures clean { IfOk result (λ it. Plain (D.told disk) (D.honest disk) → (c : Areas)
        → D.may_leave it.1 c → Clean rules it.0.fold.history c) }
    ensures well { IfOk result (λ it. Plain (D.told disk) (D.honest disk) → (area : AnArea) (at : ℕ)
        → BadPlace rules (D.seen disk) area at → ⊥) }

    ensures bad { IfErr result (λ it. Plain (D.told disk) (D.honest disk) → IsBadAt rules (D.seen disk) it.0) }
    ensures told { IfErr result (λ it. Plain (D.told disk) (D.honest disk) → (area : AnArea) (at : ℕ)
        → BadPlace rules (D.seen disk) area at → TellsPlace area at it.0) }
    ensures never { IfErr result (λ it. Plain (D.told disk) (D.honest disk) → (history : List Entry) (e : Payloads)
        → StandBut rules history e (D.seen disk) → IsNotBad it.0) }

    ensures crash { Plain (D.told disk) (D.honest disk) → (history : List Entry) (e : Payloads)
        → StandBut rules history e (D.seen disk)
        → Leaves D.moment D.may_leave D.left_since (StandBut rules history e) disk (disk_in result) }
    ensures bad_crash { Plain (D.told disk) (D.honest disk) → (area : AnArea) (at : ℕ)
        → BadPlace rules (D.seen disk) area at
        → Leaves D.moment D.may_leave D.left_since (StaysBad rules area at (D.seen disk)) disk (disk_in result) }
    ensures stays { IfErr result (λ it. Plain (D.told disk) (D.honest disk) → StaysAsRead rules (D.seen disk) D.may_leave it.1 it.0) }
    ensures unwritten { IfErr result (λ it. IsJournals it.0 → Plain (D.told disk) (D.honest disk) → D.seen it.1 ≡ D.seen disk) }
    ensures unchanged { IfErr result (λ it. IsJournals it.0 → Plain (D.told disk) (D.honest disk) → Only (D.seen disk) (D.may_leave it.1)) }

    ensures kind { SameKind D.told D.honest D.order D.orders disk (disk_in result) }
    ensures cause { CountsOpening (D.faults disk) (D.faults (disk_in result)) result }
{
    let piece = match Piece::empty(alloc) {
        Ok(piece) => piece,
        Err(_) => return Err((OpenFault::OutOfMemory, disk)),
    };
    let mut ahead = ReadAhead { disk, piece };
    match open_parts(alloc, rules, graph, &mut ahead) {
        Ok(parts) => Ok((parts, ahead.into_disk())),
        Err(fault) => Err((fault, ahead.into_disk())),
    }
}

/// Opens the store that stands on the disk, which it reads in pieces, with a sync first and last. The disk comes back.
pub(crate) fn open_ahead<G: GraphStore + Drop, D: Disk>(
    alloc: Global,
    rules: Rules,
    graph: G,
    disk: D,
) -> Result<(Parts<G>, D), (OpenFault, D)>
    requires blank { G.graph graph ≡ empty_graph }
    requires counts { (edge : ℕ) → G.counts graph edge ≡ is_refcount rules edge }

    ensures rules { IfOk result (λ it. it.0.fold.rules ≡ rules) }
    ensures legal { IfOk result (λ it. Legal rules it.0.fold.history) }
    ensures logs { IfOk result (λ it. KeepsLogs rules it.0.fold.history it.0.journal it.0.vault) }
    ensures areas { IfOk result (λ it. Plain (D.told disk) (D.honest disk)
        → KeepsAreas rules it.0.fold.history (D.seen it.1) (D.may_leave it.1)) }
    ensures found { IfOk result (λ it. Plain (D.told disk) (D.honest disk) → StandsNow rules it.0.fold.history (D.seen disk)) }
    ensures opened { IfOk result (λ it. Plain (D.told disk) (D.honest disk) → (history : List Entry) (e : Payloads)
        → StandBut rules history e (D.seen disk)
        → (it.0.fold.history ≡ history) × RestIn rules history e (D.may_leave it.1)) }
    ensures clean { IfOk result (λ it. Plain (D.told disk) (D.honest disk) → (c : Areas)
        → D.may_leave it.1 c → Clean rules it.0.fold.history c) }
    ensures well { IfOk result (λ it. Plain (D.told disk) (D.honest disk) → (area : AnArea) (at : ℕ)
        → BadPlace rules (D.seen disk) area at → ⊥) }

    ensures bad { IfErr result (λ it. Plain (D.told disk) (D.honest disk) → IsBadAt rules (D.seen disk) it.0) }
    ensures told { IfErr result (λ it. Plain (D.told disk) (D.honest disk) → (area : AnArea) (at : ℕ)
        → BadPlace rules (D.seen disk) area at → TellsPlace area at it.0) }
    ensures never { IfErr result (λ it. Plain (D.told disk) (D.honest disk) → (history : List Entry) (e : Payloads)
        → StandBut rules history e (D.seen disk) → IsNotBad it.0) }

    ensures crash { Plain (D.told disk) (D.honest disk) → (history : List Entry) (e : Payloads)
        → StandBut rules history e (D.seen disk)
        → Leaves D.moment D.may_leave D.left_since (λ c. D.may_leave disk c ⊎ StandBut rules history e c) disk (disk_in result) }
    ensures bad_crash { Plain (D.told disk) (D.honest disk) → (area : AnArea) (at : ℕ)
        → BadPlace rules (D.seen disk) area at
        → Leaves D.moment D.may_leave D.left_since (λ c. D.may_leave disk c ⊎ StaysBad rules area at (D.seen disk) c) disk (disk_in result) }
    ensures stays { IfErr result (λ it. Plain (D.told disk) (D.honest disk) → StaysAsRead rules (D.seen disk) D.may_leave it.1 it.0) }
    ensures wants { IfErr result (λ it. Plain (D.told disk) (D.honest disk) → (history : List Entry) (e : Payloads)
        → StandBut rules history e (D.seen disk) → WantLeaves D.may_leave (StandBut rules history e) it.1 it.0) }
    ensures unwritten { IfErr result (λ it. IsJournals it.0 → Plain (D.told disk) (D.honest disk) → D.seen it.1 ≡ D.seen disk) }
    ensures unchanged { IfErr result (λ it. IsJournals it.0 → Plain (D.told disk) (D.honest disk) → (c : Areas)
        → D.may_leave it.1 c → D.may_leave disk c) }

    ensures kind { SameKind D.told D.honest D.order D.orders disk (disk_in result) }
    ensures cause { CountsOpening (D.faults disk) (D.faults (disk_in result)) result }
{
    let mut disk = disk;
    match disk.sync() {
        Ok(()) => (),
        Err(_) => return Err((OpenFault::DiskFault, disk)),
    }
    match open_synced(alloc, rules, graph, disk) {
        Ok(it) => Ok(it),
        Err(it) => Err(it),
    }
}
