//! Cuts and erasures: the row that goes is logged before it goes.
ghost use Rattle.std.specs.Prelude.{◌≡◌, ◌+◌, ◌≤◌, ◌<◌, ℕ, [], ◌∷◌, ◌++◌, true, length, vec_capacity, IsTrue, IfOk, OnOk, OnErr, is_some, map, false, Some};
ghost use Rattle.delf_disk.specs.Causes.{HasCause};
ghost use Rattle.delf_disk.specs.Images.{Same};
ghost use Rattle.delf_disk.specs.Moments.{Runs};
ghost use Rattle.delf_disk.specs.Plain.{Plain, SameKind};
ghost use Rattle.gate_log.specs.Logs.{StandIn};
ghost use Rattle.gate_log.specs.Places.{size_in};
ghost use Rattle.gate_log.specs.Records.{payload_of};
ghost use Rattle.gate_log.specs.Steps.{PayloadRead};
ghost use Rattle.entry_codec.specs.declared.limits.TheConstants.{LARGEST_PAYLOAD};
ghost use Rattle.entry_codec.specs.EntryHead.{entry_head, IsBounded};
ghost use Rattle.entry_codec.specs.ItemHead.{item_size, IsTypeBounded};
ghost use Rattle.delf_model.specs.Legal.{is_legal};
ghost use Rattle.delf_model.specs.Order.{is_held};
ghost use Rattle.delf_model.specs.Room.{greatest_moment};
ghost use Rattle.delf_model.specs.Payloads.{Journal, last_carrier};
ghost use Rattle.delf_model.specs.Step.{after};
ghost use Rattle.delf_model.specs.State.{position_of};
ghost use Rattle.payload_laws.specs.Holders.{position_taken, scrubbed_by, HasSize};
ghost use Rattle.store_laws.specs.Stores.{AreScrubbed, journal_of, vault_of};
ghost use Rattle.store_laws.specs.Moves.{new_items};
ghost use Rattle.delf_book.specs.Books.{IsCrashSafe, IsDurable};
ghost use Rattle.held_laws.specs.Held.{would_log};
ghost use Rattle.delf_book.specs.Claims.{IsRead};
ghost use Rattle.delf_book.specs.Taken.{TakesItem};
ghost use Rattle.delf_book.specs.Keeping.{KeepsLogs, KeepsCarriers, KeepsAreas, HasRoom, item_sizes, payloads_in};
ghost use Rattle.ledger.specs.Ledgers.{state_of, is_ready, HasEntered};
ghost use Rattle.delf_book.specs.Writing.{longer};

use crate::dead::dead_record;
use crate::logs::Logs;
use crate::records::{log_item, write_over};
use delete_step::{Claim, Prepared, item_of, prepare};
use delf_disk::{Disk, Failed};
use delf_model::{Entry, GraphStore, Item, LIMIT};
use gate_log::GateLog;
use ledger::Ledger;
use vault::Vault;

/// Makes a legal Cut or Erase: reads the payload of the row, adds its record to the restoration log, adds the entry, and
/// scrubs the payload where it was. It takes no memory.
pub(crate) fn take_row<G: GraphStore, D: Disk>(
    ledger: &mut Ledger<G>,
    logs: &mut Logs,
    disk: &mut D,
    entry: &Entry,
) -> Result<(), Failed>
    requires logs { KeepsLogs ledger.old.rules ledger.old.history logs.old.journal logs.old.vault }
    requires carriers { KeepsCarriers ledger.old.rules ledger.old.history logs.old.carriers.items }
    requires areas { Plain (D.told disk.old) (D.honest disk.old) → KeepsAreas ledger.old.rules ledger.old.history (D.seen disk.old) (D.may_leave disk.old) }
    requires room { HasRoom 1 ledger.old.spare logs.old.journal logs.old.vault (length logs.old.carriers.items) (vec_capacity logs.old.carriers) }
    requires legal { is_legal (state_of ledger.old) entry.now ≡ true }
    requires moment { entry.now.moment ≤ greatest_moment }
    requires ready { IsTrue (is_ready (G.is_ready_object ledger.old.store) (G.is_ready_edge ledger.old.store) ledger.old entry.now.what) }
    requires bounded { IsBounded entry.now.what }
    requires taken { IsTrue (is_some (position_taken (state_of ledger.old) entry.now.what)) }
    requires free { is_held ledger.old.held entry.now.what ≡ false }

    ensures ok { OnOk result (HasEntered ledger.old ledger.new entry.now) }
    ensures err { OnErr result (ledger.new ≡ ledger.old) }
    ensures logs { OnOk result (KeepsLogs ledger.new.rules ledger.new.history logs.new.journal logs.new.vault) }
    ensures carriers { OnOk result (KeepsCarriers ledger.new.rules ledger.new.history logs.new.carriers.items) }
    ensures areas { OnOk result (Plain (D.told disk.old) (D.honest disk.old) → KeepsAreas ledger.new.rules ledger.new.history (D.seen disk.new) (D.may_leave disk.new)) }
    ensures room { OnOk result ((n : ℕ) → HasRoom (n + 1) ledger.old.spare logs.old.journal logs.old.vault (length logs.old.carriers.items) (vec_capacity logs.old.carriers)
        → HasRoom n ledger.new.spare logs.new.journal logs.new.vault (length logs.new.carriers.items) (vec_capacity logs.new.carriers)) }

    ensures crash { Plain (D.told disk.old) (D.honest disk.old)
        → IsCrashSafe D.moment D.may_leave D.left_since ledger.old.rules ledger.old.history entry.now [] disk.old disk.new }
    ensures durable { OnOk result (Plain (D.told disk.old) (D.honest disk.old)
        → IsDurable D.may_leave ledger.old.rules ledger.old.history entry.now [] disk.old disk.new) }

    ensures kind { SameKind D.told D.honest D.order D.orders disk.old disk.new }
    ensures cause { HasCause (D.faults disk.old) (D.faults disk.new) result }
{
    let _len = ledger.len();
    let row = read_taken(ledger, logs, disk, entry)?;
    write_taken(ledger, logs, disk, entry, &prepare(row))?;
    Ok(())
}

/// Reads the row that a legal Cut or Erase takes, with its payload: one disk call, or none where that is empty. It takes
/// no memory.
pub(crate) fn read_taken<G: GraphStore, D: Disk>(
    ledger: &Ledger<G>,
    logs: &Logs,
    disk: &mut D,
    entry: &Entry,
) -> Result<Claim, Failed>
    requires logs { KeepsLogs ledger.now.rules ledger.now.history logs.now.journal logs.now.vault }
    requires carriers { KeepsCarriers ledger.now.rules ledger.now.history logs.now.carriers.items }
    requires areas { Plain (D.told disk.old) (D.honest disk.old) → KeepsAreas ledger.now.rules ledger.now.history (D.seen disk.old) (D.may_leave disk.old) }
    requires legal { is_legal (state_of ledger.now) entry.now ≡ true }
    requires bounded { IsBounded entry.now.what }
    requires taken { IsTrue (is_some (position_taken (state_of ledger.now) entry.now.what)) }

    ensures logs { IfOk result (λ row. would_log (state_of ledger.now) entry.now.what ≡ Some row.item) }
    ensures payload { IfOk result (λ row. Plain (D.told disk.old) (D.honest disk.old)
        → IsRead (payloads_in (state_of ledger.now) (D.seen disk.old)) row) }

    ensures seen { Plain (D.told disk.old) (D.honest disk.old) → D.seen disk.new ≡ D.seen disk.old }
    ensures any_moment { Plain (D.told disk.old) (D.honest disk.old)
        → Runs D.moment D.may_leave D.left_since Same disk.old disk.new }
    ensures kind { SameKind D.told D.honest D.order D.orders disk.old disk.new }
    ensures cause { HasCause (D.faults disk.old) (D.faults disk.new) result }
{
    let _len = ledger.len();
    let carrier = carrying_record(ledger, &logs.carriers, entry);
    let item = row_of(ledger, entry);
    let row = read_row(&logs.journal, disk, item, carrier)?;
    Ok(row)
}

/// Makes a legal Cut or Erase of a row that was read: adds its record to the restoration log, adds the entry, and scrubs
/// the payload where it was. It takes no memory.
pub(crate) fn write_taken<G: GraphStore, D: Disk>(
    ledger: &mut Ledger<G>,
    logs: &mut Logs,
    disk: &mut D,
    entry: &Entry,
    row: &Prepared,
) -> Result<(), Failed>
    requires logs { KeepsLogs ledger.old.rules ledger.old.history logs.old.journal logs.old.vault }
    requires carriers { KeepsCarriers ledger.old.rules ledger.old.history logs.old.carriers.items }
    requires areas { Plain (D.told disk.old) (D.honest disk.old) → KeepsAreas ledger.old.rules ledger.old.history (D.seen disk.old) (D.may_leave disk.old) }
    requires room { HasRoom 1 ledger.old.spare logs.old.journal logs.old.vault (length logs.old.carriers.items) (vec_capacity logs.old.carriers) }
    requires legal { is_legal (state_of ledger.old) entry.now ≡ true }
    requires moment { entry.now.moment ≤ greatest_moment }
    requires ready { IsTrue (is_ready (G.is_ready_object ledger.old.store) (G.is_ready_edge ledger.old.store) ledger.old entry.now.what) }
    requires bounded { IsBounded entry.now.what }
    requires taken { IsTrue (is_some (position_taken (state_of ledger.old) entry.now.what)) }
    requires free { is_held ledger.old.held entry.now.what ≡ false }
    requires row { would_log (state_of ledger.old) entry.now.what ≡ Some row.now.item }
    requires payload { Plain (D.told disk.old) (D.honest disk.old) → IsRead (payloads_in (state_of ledger.old) (D.seen disk.old)) row.now }

    ensures ok { OnOk result (HasEntered ledger.old ledger.new entry.now) }
    ensures err { OnErr result (ledger.new ≡ ledger.old) }
    ensures logs { OnOk result (KeepsLogs ledger.new.rules ledger.new.history logs.new.journal logs.new.vault) }
    ensures carriers { OnOk result (KeepsCarriers ledger.new.rules ledger.new.history logs.new.carriers.items) }
    ensures areas { OnOk result (Plain (D.told disk.old) (D.honest disk.old) → KeepsAreas ledger.new.rules ledger.new.history (D.seen disk.new) (D.may_leave disk.new)) }
    ensures room { OnOk result ((n : ℕ) → HasRoom (n + 1) ledger.old.spare logs.old.journal logs.old.vault (length logs.old.carriers.items) (vec_capacity logs.old.carriers)
        → HasRoom n ledger.new.spare logs.new.journal logs.new.vault (length logs.new.carriers.items) (vec_capacity logs.new.carriers)) }

    ensures crash { Plain (D.told disk.old) (D.honest disk.old)
        → IsCrashSafe D.moment D.may_leave D.left_since ledger.old.rules ledger.old.history entry.now [] disk.old disk.new }
    ensures durable { OnOk result (Plain (D.told disk.old) (D.honest disk.old)
        → IsDurable D.may_leave ledger.old.rules ledger.old.history entry.now [] disk.old disk.new) }

    ensures kind { SameKind D.told D.honest D.order D.orders disk.old disk.new }
    ensures cause { HasCause (D.faults disk.old) (D.faults disk.new) result }
{
    let position = ledger.len();
    let _payload = row.claim().payload();
    let carrier = carrying_record(ledger, &logs.carriers, entry);
    write_row(
        ledger,
        &mut logs.journal,
        &mut logs.vault,
        disk,
        entry,
        row,
        carrier,
    )?;
    logs.carriers.push_reserved(position);
    ledger.enter(entry);
    Ok(())
}

/// The row that a legal Cut or Erase takes, as the item that it logs.
fn row_of<G: GraphStore>(ledger: &Ledger<G>, entry: &Entry) -> Item
    requires legal { is_legal (state_of ledger.now) entry.now ≡ true }
    requires bounded { IsBounded entry.now.what }
    requires taken { IsTrue (is_some (position_taken (state_of ledger.now) entry.now.what)) }
    ensures row { TakesItem (state_of ledger.now) entry.now.what result }
    ensures logs { would_log (state_of ledger.now) entry.now.what ≡ Some result }
    ensures largest { item_size result ≤ LARGEST_PAYLOAD }
    ensures types { IsTypeBounded result }
    ensures sized { (place : ℕ) → last_carrier (state_of ledger.now) (position_of result) ≡ Journal place
        → HasSize ledger.now.rules ledger.now.history place (item_size result) }
{
    let _len = ledger.len();
    let _kinds = ledger.rules().objects_len();
    match item_of(ledger.graph(), &entry.what) {
        Some(item) => item,
        None => unreachable!(),
    }
}

/// The journal record of the payload of the row that a legal Cut or Erase takes.
fn carrying_record<G: GraphStore>(ledger: &Ledger<G>, carriers: &[u32], entry: &Entry) -> u32
    requires carriers { KeepsCarriers ledger.now.rules ledger.now.history carriers.now }
    requires legal { is_legal (state_of ledger.now) entry.now ≡ true }
    requires taken { IsTrue (is_some (position_taken (state_of ledger.now) entry.now.what)) }
    ensures carrier { Journal result ∷ [] ≡ scrubbed_by (state_of ledger.now) entry.now.what }
    ensures inside { result < length ledger.now.history }
{
    let _len = ledger.len();
    match dead_record(ledger, carriers, &entry.what) {
        Some(carrier) => carrier,
        None => unreachable!(),
    }
}

/// Reads the payload of a row from its journal record.
fn read_row<D: Disk>(
    journal: &GateLog,
    disk: &mut D,
    item: Item,
    carrier: u32,
) -> Result<Claim, Failed>
    requires inside { carrier < length journal.now.sizes }
    requires payload { (size_in journal.now.sizes carrier).1 ≡ item_size item }
    requires largest { item_size item ≤ LARGEST_PAYLOAD }
    requires types { IsTypeBounded item }
    requires stands { Plain (D.told disk.old) (D.honest disk.old) → StandIn journal.now.area journal.now.sizes (D.may_leave disk.old) }

    ensures item { IfOk result (λ row. row.item ≡ item) }
    ensures size { IfOk result (λ row. length row.payload ≡ item_size item) }
    ensures payload { IfOk result (λ row. Plain (D.told disk.old) (D.honest disk.old)
        → PayloadRead journal.now.area journal.now.sizes carrier (D.seen disk.old) row.payload) }

    ensures seen { Plain (D.told disk.old) (D.honest disk.old) → D.seen disk.new ≡ D.seen disk.old }
    ensures any_moment { Plain (D.told disk.old) (D.honest disk.old)
        → Runs D.moment D.may_leave D.left_since Same disk.old disk.new }
    ensures kind { SameKind D.told D.honest D.order D.orders disk.old disk.new }
    ensures cause { HasCause (D.faults disk.old) (D.faults disk.new) result }
{
    let mut bytes = [0; LIMIT];
    let len = journal.read_payload(disk, carrier, &mut bytes)?;
    Ok(Claim::of(item, &bytes[..len as usize]))
}

/// Adds the record of the row to the vault, then that of the entry to the journal, and then scrubs the payload of the
/// row where it was. A crash leaves the history, or it with the entry.
fn write_row<G: GraphStore, D: Disk>(
    ledger: &Ledger<G>,
    journal: &mut GateLog,
    vault: &mut Vault,
    disk: &mut D,
    entry: &Entry,
    row: &Prepared,
    carrier: u32,
) -> Result<(), Failed>
    requires logs { KeepsLogs ledger.now.rules ledger.now.history journal.old vault.old }
    requires areas { Plain (D.told disk.old) (D.honest disk.old) → KeepsAreas ledger.now.rules ledger.now.history (D.seen disk.old) (D.may_leave disk.old) }
    requires journal_spare { 0 < journal.old.spare }
    requires vault_spare { 0 < vault.old.spare }
    requires legal { is_legal (state_of ledger.now) entry.now ≡ true }
    requires moment { entry.now.moment ≤ greatest_moment }
    requires bounded { IsBounded entry.now.what }
    requires row { TakesItem (state_of ledger.now) entry.now.what row.now.item }
    requires size { length row.now.payload ≡ item_size row.now.item }
    requires payload { Plain (D.told disk.old) (D.honest disk.old) → row.now.payload ≡ payload_of (journal_of (D.seen disk.old)) carrier }
    requires carrier { Journal carrier ∷ [] ≡ scrubbed_by (state_of ledger.now) entry.now.what }
    requires inside { carrier < length ledger.now.history }

    ensures journal_area { journal.new.area ≡ journal.old.area }
    ensures journal_sizes { OnOk result (journal.new.sizes ≡ journal.old.sizes ++ (length (entry_head entry.now), 0) ∷ []) }
    ensures journal_spare { journal.old.spare ≤ journal.new.spare + 1 }
    ensures vault_area { vault.new.area ≡ vault.old.area }
    ensures vault_sizes { OnOk result (vault.new.sizes ≡ vault.old.sizes ++ map item_sizes (new_items (state_of ledger.now) entry.now.what)) }
    ensures vault_spare { vault.old.spare ≤ vault.new.spare + 1 }

    ensures crash { Plain (D.told disk.old) (D.honest disk.old)
        → IsCrashSafe D.moment D.may_leave D.left_since ledger.now.rules ledger.now.history entry.now [] disk.old disk.new }
    ensures durable { OnOk result (Plain (D.told disk.old) (D.honest disk.old)
        → IsDurable D.may_leave ledger.now.rules ledger.now.history entry.now [] disk.old disk.new) }
    ensures clean { OnOk result (Plain (D.told disk.old) (D.honest disk.old)
        → AreScrubbed (after ledger.now.rules (longer ledger.now.history entry.now)) (journal_of (D.seen disk.new)) (vault_of (D.seen disk.new))) }

    ensures kind { SameKind D.told D.honest D.order D.orders disk.old disk.new }
    ensures cause { HasCause (D.faults disk.old) (D.faults disk.new) result }
{
    let _len = ledger.len();
    log_item(vault, disk, row.head(), row.payload())?;
    write_over(journal, disk, entry, &[], Some(carrier))
}
