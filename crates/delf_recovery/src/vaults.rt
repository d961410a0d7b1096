//! The vault, read whole.
ghost use Rattle.std.specs.Prelude.{◌≡◌, ◌+◌, ◌≤◌, true, false, List, length, IfOk, IfErr, IfSome, IfNone, is_some};
ghost use Rattle.delf_disk.specs.declared.area.Area.TheVariants.{Vault as VaultArea};
ghost use Rattle.delf_disk.specs.Images.{Only};
ghost use Rattle.delf_disk.specs.Plain.{Plain, SameKind};
ghost use Rattle.delf_disk.specs.Moments.{Leaves};
ghost use Rattle.gate_log.specs.Opening.{Starts};
ghost use Rattle.delf_model.specs.declared.entry.Entry.{Entry};
ghost use Rattle.delf_model.specs.RuleSet.{RuleSet};
ghost use Rattle.delf_model.specs.Payloads.{Payloads};
ghost use Rattle.ledger.specs.Ledgers.{state_of};
ghost use Rattle.job_table.specs.Table.{item_at};
ghost use Rattle.store_laws.specs.Stores.{StandBut, vault_mark};
ghost use Rattle.entry_codec.specs.EntryHead.{AreEntries};
ghost use Rattle.delf_recovery.specs.Mending.{AreNoted};
ghost use Rattle.delf_recovery.specs.Opening.{KeepsLonger};
ghost use Rattle.delf_recovery.specs.Reading.{CountsRead, ShowsFaulty, ReadsVault, HasItems, WhyFaulty};

use crate::blank::no_notes;
use crate::fault::OpenFault;
use crate::items::read_items;
use crate::starting::{ReadLog, VAULT_MARK, start_area};
use delf_book::Fold;
use delf_disk::{Area, Disk};
use delf_model::GraphStore;
use std::alloc::Global;

/// The number of the first gate that is faulty, where `read` records from the first on are those of items, and there is one
/// item more or none, in an area with `count` records that is whole or breaks off behind them.
fn faulty_gate(has_item: bool, read: u32, count: u32, whole: bool) -> Option<u32>
    requires { read ≤ count }
    ensures some { IfSome result (WhyFaulty has_item read count whole) }
    ensures inside { IfSome result (λ i. i ≤ count) }
    ensures none { IfNone result ((has_item ≡ false) × (whole ≡ true) × (count ≤ read + 1)) }
{
    if has_item {
        return Some(read);
    }
    if count - read > 1 {
        return Some(read + 1);
    }
    if !whole {
        return Some(count);
    }
    None
}

pub(crate) fn has_item<G: GraphStore>(fold: &Fold<G>, i: u32) -> bool
    ensures { result ≡ is_some (item_at (state_of fold.now) i) }
{
    fold.item_at(i).is_some()
}

/// Starts the log of the vault, which is to have a record for each item of the fold and may have one more. It is bad at its
/// first record that is not whole or not that of its item, at its end where an item is left, and at a second record more.
pub(crate) fn read_vault<G: GraphStore, D: Disk>(
    alloc: Global,
    fold: &Fold<G>,
    disk: &mut D,
) -> Result<ReadLog, OpenFault>
    requires entries { AreEntries fold.now.history }
    requires only { Plain (D.told disk.old) (D.honest disk.old) → Only (D.seen disk.old) (D.may_leave disk.old) }

    ensures area { IfOk result (λ read. read.log.area ≡ VaultArea) }
    ensures items { IfOk result (λ read. HasItems (state_of fold.now).items read.log.sizes) }
    ensures reads { IfOk result (λ read. Plain (D.told disk.old) (D.honest disk.old)
        → ReadsVault (state_of fold.now).items (D.seen disk.old).vault) }
    ensures starts { IfOk result (λ read. Plain (D.told disk.old) (D.honest disk.old)
        → Starts VaultArea vault_mark read.log.sizes (D.seen disk.old) (D.seen disk.new)) }
    ensures only { IfOk result (λ read. Plain (D.told disk.old) (D.honest disk.old) → Only (D.seen disk.new) (D.may_leave disk.new)) }
    ensures noted { IfOk result (λ read. Plain (D.told disk.old) (D.honest disk.old) → AreNoted VaultArea (D.seen disk.new) read.notes.items) }
    ensures bad { IfErr result (λ fault. Plain (D.told disk.old) (D.honest disk.old)
        → ShowsFaulty (state_of fold.now).items (D.seen disk.old).vault fault) }

    ensures crash { Plain (D.told disk.old) (D.honest disk.old) → (rules : RuleSet) (history : List Entry) (e : Payloads)
        → StandBut rules history e (D.seen disk.old)
        → Leaves D.moment D.may_leave D.left_since (StandBut rules history e) disk.old disk.new }
    ensures longer { Plain (D.told disk.old) (D.honest disk.old)
        → Leaves D.moment D.may_leave D.left_since (KeepsLonger (D.seen disk.old)) disk.old disk.new }

    ensures kind { SameKind D.told D.honest D.order D.orders disk.old disk.new }
    ensures cause { CountsRead (D.faults disk.old) (D.faults disk.new) result }
{
    let front = start_area(alloc, disk, Area::Vault, VAULT_MARK)?;
    let mut notes = no_notes(alloc, front.log.count())?;
    let read = read_items(fold, &front.log, front.whole, &mut notes, disk)?;
    let has_item = has_item(fold, read);
    let count = front.log.count();
    if let Some(i) = faulty_gate(has_item, read, count, front.whole) {
        return Err(OpenFault::BadStore {
            area: Area::Vault,
            at: front.log.gate(i),
        });
    }
    Ok(ReadLog {
        log: front.log,
        notes,
    })
}
