//! Puts: a row goes back with the payload that was logged with it, or it is listed.
ghost use Rattle.std.specs.Prelude.{◌≡◌, ◌+◌, ◌<◌, ◌≤◌, ◌++◌, ◌∷◌, ℕ, [], true, length, map, take, vec_capacity, IsTrue, IfOk, IfErr, OnOk, OnErr, false};
ghost use Rattle.delf_disk.specs.Causes.{HasCause};
ghost use Rattle.delf_disk.specs.Images.{Same};
ghost use Rattle.delf_disk.specs.Moments.{Runs, Leaves};
ghost use Rattle.delf_disk.specs.Plain.{Plain, SameKind};
ghost use Rattle.delf_disk.specs.declared.area.Area.TheVariants.{Vault as VaultArea};
ghost use Rattle.delf_model.specs.declared.TheConstants.{LIMIT};
ghost use Rattle.delf_model.specs.Legal.{is_legal};
ghost use Rattle.delf_model.specs.Order.{is_held};
ghost use Rattle.delf_model.specs.Room.{payload_limit};
ghost use Rattle.delf_model.specs.Payloads.{Payloads};
ghost use Rattle.store_laws.specs.Moves.{RestIn};
ghost use Rattle.delf_book.specs.Books.{IsCrashSafe, IsDurable};
ghost use Rattle.delf_book.specs.Keeping.{KeepsLogs, KeepsCarriers, KeepsAreas, HasRoom, item_sizes};
ghost use Rattle.ledger.specs.Ledgers.{state_of, is_ready, HasEntered};
ghost use Rattle.delf_book.specs.Stepping.{Waits, IsPutOf, PutsBackItem, IsSizeOf, IsPayloadOf, IsSealed, Differ, TellsWhy, RefusesPut, IfDamaged, CountsPut};
ghost use Rattle.delf_book.specs.Steps.{PutsSealed};
ghost use Rattle.delf_book.specs.Writing.{Rests, longer};

use crate::adding::add;
use crate::carried::carry;
use crate::logs::Logs;
use crate::records::{scrub_item, write_record};
use delf_disk::{Disk, Failed};
use delf_model::{Entry, GraphStore, LIMIT};
use gate_log::GateLog;
use ledger::Ledger;
use vault::{FetchFault, Vault};

/// Makes a legal Put of item `i`. Where the item goes back, the entry's record takes its payload, and the payload is
/// scrubbed in the item's record; where the payload has not the digest that was logged, nothing is written. An item that
/// is listed has a record of the entry alone. It takes no memory.
pub(crate) fn put_item<G: GraphStore, D: Disk>(
    ledger: &mut Ledger<G>,
    logs: &mut Logs,
    disk: &mut D,
    entry: &Entry,
    i: u32,
) -> Result<(), FetchFault>
    requires logs { KeepsLogs ledger.old.rules ledger.old.history logs.old.journal logs.old.vault }
    requires carriers { KeepsCarriers ledger.old.rules ledger.old.history logs.old.carriers.items }
    requires areas { Plain (D.told disk.old) (D.honest disk.old) → KeepsAreas ledger.old.rules ledger.old.history (D.seen disk.old) (D.may_leave disk.old) }
    requires room { HasRoom 1 ledger.old.spare logs.old.journal logs.old.vault (length logs.old.carriers.items) (vec_capacity logs.old.carriers) }
    requires legal { is_legal (state_of ledger.old) entry.now ≡ true }
    requires ready { IsTrue (is_ready (G.is_ready_object ledger.old.store) (G.is_ready_edge ledger.old.store) ledger.old entry.now.what) }
    requires put { IsPutOf entry.now.what i }
    requires free { is_held ledger.old.held entry.now.what ≡ false }

    ensures ok { OnOk result (HasEntered ledger.old ledger.new entry.now) }
    ensures err { OnErr result (ledger.new ≡ ledger.old) }
    ensures logs { OnOk result (KeepsLogs ledger.new.rules ledger.new.history logs.new.journal logs.new.vault) }
    ensures carriers { OnOk result (KeepsCarriers ledger.new.rules ledger.new.history logs.new.carriers.items) }
    ensures areas { OnOk result (Plain (D.told disk.old) (D.honest disk.old) → KeepsAreas ledger.new.rules ledger.new.history (D.seen disk.new) (D.may_leave disk.new)) }
    ensures room { OnOk result ((n : ℕ) → HasRoom (n + 1) ledger.old.spare logs.old.journal logs.old.vault (length logs.old.carriers.items) (vec_capacity logs.old.carriers)
        → HasRoom n ledger.new.spare logs.new.journal logs.new.vault (length logs.new.carriers.items) (vec_capacity logs.new.carriers)) }

    ensures crash { Plain (D.told disk.old) (D.honest disk.old)
        → IsCrashSafe D.moment D.may_leave D.left_since ledger.old.rules ledger.old.history entry.now [] disk.old disk.new }
    ensures durable { OnOk result (Plain (D.told disk.old) (D.honest disk.old)
        → IsDurable D.may_leave ledger.old.rules ledger.old.history entry.now [] disk.old disk.new) }
    // What is put back is what was sealed.
    ensures sealed { OnOk result (Plain (D.told disk.old) (D.honest disk.old) → (e : Payloads)
        → RestIn ledger.old.rules ledger.old.history e (D.may_leave disk.old) → PutsSealed (state_of ledger.old) entry.now.what e) }

    // A damaged item is one that would go back; nothing is written then.
    ensures refuses { IfErr result (λ fault. RefusesPut (state_of ledger.old) entry.now.what fault) }
    ensures damaged { IfErr result (λ fault. Plain (D.told disk.old) (D.honest disk.old) → (e : Payloads)
        → RestIn ledger.old.rules ledger.old.history e (D.may_leave disk.old) → TellsWhy (state_of ledger.old) e fault) }
    ensures kept_logs { IfDamaged result (logs.new ≡ logs.old) }
    ensures kept { IfDamaged result (Plain (D.told disk.old) (D.honest disk.old) → KeepsAreas ledger.old.rules ledger.old.history (D.seen disk.new) (D.may_leave disk.new)) }
    ensures only_read { IfDamaged result (Plain (D.told disk.old) (D.honest disk.old)
        → Runs D.moment D.may_leave D.left_since Same disk.old disk.new) }

    ensures kind { SameKind D.told D.honest D.order D.orders disk.old disk.new }
    ensures cause { CountsPut (D.faults disk.old) (D.faults disk.new) result }
{
    match ledger.position_back(&entry.what) {
        Some(_) => put_back(ledger, logs, disk, entry, i),
        None => {
            add(ledger, logs, disk, entry, &[], None)?;
            Ok(())
        }
    }
}

/// Makes a legal Put that puts item `i` back.
fn put_back<G: GraphStore, D: Disk>(
    ledger: &mut Ledger<G>,
    logs: &mut Logs,
    disk: &mut D,
    entry: &Entry,
    i: u32,
) -> Result<(), FetchFault>
    requires logs { KeepsLogs ledger.old.rules ledger.old.history logs.old.journal logs.old.vault }
    requires carriers { KeepsCarriers ledger.old.rules ledger.old.history logs.old.carriers.items }
    requires areas { Plain (D.told disk.old) (D.honest disk.old) → KeepsAreas ledger.old.rules ledger.old.history (D.seen disk.old) (D.may_leave disk.old) }
    requires room { HasRoom 1 ledger.old.spare logs.old.journal logs.old.vault (length logs.old.carriers.items) (vec_capacity logs.old.carriers) }
    requires legal { is_legal (state_of ledger.old) entry.now ≡ true }
    requires ready { IsTrue (is_ready (G.is_ready_object ledger.old.store) (G.is_ready_edge ledger.old.store) ledger.old entry.now.what) }
    requires puts { PutsBackItem (state_of ledger.old) entry.now.what i }
    requires free { is_held ledger.old.held entry.now.what ≡ false }

    ensures ok { OnOk result (HasEntered ledger.old ledger.new entry.now) }
    ensures err { OnErr result (ledger.new ≡ ledger.old) }
    ensures logs { OnOk result (KeepsLogs ledger.new.rules ledger.new.history logs.new.journal logs.new.vault) }
    ensures carriers { OnOk result (KeepsCarriers ledger.new.rules ledger.new.history logs.new.carriers.items) }
    ensures areas { OnOk result (Plain (D.told disk.old) (D.honest disk.old) → KeepsAreas ledger.new.rules ledger.new.history (D.seen disk.new) (D.may_leave disk.new)) }
    ensures room { OnOk result ((n : ℕ) → HasRoom (n + 1) ledger.old.spare logs.old.journal logs.old.vault (length logs.old.carriers.items) (vec_capacity logs.old.carriers)
        → HasRoom n ledger.new.spare logs.new.journal logs.new.vault (length logs.new.carriers.items) (vec_capacity logs.new.carriers)) }

    ensures crash { Plain (D.told disk.old) (D.honest disk.old)
        → IsCrashSafe D.moment D.may_leave D.left_since ledger.old.rules ledger.old.history entry.now [] disk.old disk.new }
    ensures durable { OnOk result (Plain (D.told disk.old) (D.honest disk.old)
        → IsDurable D.may_leave ledger.old.rules ledger.old.history entry.now [] disk.old disk.new) }
    ensures sealed { OnOk result (Plain (D.told disk.old) (D.honest disk.old) → (e : Payloads)
        → RestIn ledger.old.rules ledger.old.history e (D.may_leave disk.old) → IsSealed (state_of ledger.old) i e) }

    ensures differ { IfErr result (λ fault. Differ i fault) }
    ensures damaged { IfErr result (λ fault. Plain (D.told disk.old) (D.honest disk.old) → (e : Payloads)
        → RestIn ledger.old.rules ledger.old.history e (D.may_leave disk.old) → TellsWhy (state_of ledger.old) e fault) }
    ensures kept_logs { IfDamaged result (logs.new ≡ logs.old) }
    ensures kept { IfDamaged result (Plain (D.told disk.old) (D.honest disk.old) → KeepsAreas ledger.old.rules ledger.old.history (D.seen disk.new) (D.may_leave disk.new)) }
    ensures only_read { IfDamaged result (Plain (D.told disk.old) (D.honest disk.old)
        → Runs D.moment D.may_leave D.left_since Same disk.old disk.new) }

    ensures kind { SameKind D.told D.honest D.order D.orders disk.old disk.new }
    ensures cause { CountsPut (D.faults disk.old) (D.faults disk.new) result }
{
    let _len = ledger.len();
    let mut payload = [0; LIMIT];
    let size = fetch_item(ledger, &logs.vault, disk, i, &mut payload)?;
    write_back(ledger, logs, disk, entry, i, &payload[..size as usize])?;
    Ok(())
}

/// Reads the payload of item `i` to the front of `buf`, and gives its size, where it has the digest that was logged with
/// it. The disk is only read.
fn fetch_item<G: GraphStore, D: Disk>(
    ledger: &Ledger<G>,
    vault: &Vault,
    disk: &mut D,
    i: u32,
    buf: &mut [u8],
) -> Result<u16, FetchFault>
    requires area { vault.now.area ≡ VaultArea }
    requires sizes { vault.now.sizes ≡ map item_sizes (state_of ledger.now).items }
    requires areas { Plain (D.told disk.old) (D.honest disk.old) → KeepsAreas ledger.now.rules ledger.now.history (D.seen disk.old) (D.may_leave disk.old) }
    requires waits { Waits (state_of ledger.now) i }
    requires room { LIMIT ≤ length buf.old }

    ensures length { length buf.new ≡ length buf.old }
    ensures size { IfOk result (λ n. IsSizeOf (state_of ledger.now) i n) }
    ensures short { IfOk result (λ n. n ≤ payload_limit) }
    ensures payload { IfOk result (λ n. Plain (D.told disk.old) (D.honest disk.old) → (e : Payloads)
        → RestIn ledger.now.rules ledger.now.history e (D.may_leave disk.new) → IsPayloadOf (state_of ledger.now) i e (take n buf.new)) }
    ensures sealed { OnOk result (Plain (D.told disk.old) (D.honest disk.old) → (e : Payloads)
        → RestIn ledger.now.rules ledger.now.history e (D.may_leave disk.old) → IsSealed (state_of ledger.now) i e) }

    // Over every disk the two digests differ.
    ensures differ { IfErr result (λ fault. Differ i fault) }
    ensures damaged { IfErr result (λ fault. Plain (D.told disk.old) (D.honest disk.old) → (e : Payloads)
        → RestIn ledger.now.rules ledger.now.history e (D.may_leave disk.old) → TellsWhy (state_of ledger.now) e fault) }

    ensures crash { Plain (D.told disk.old) (D.honest disk.old) → (e : Payloads)
        → RestIn ledger.now.rules ledger.now.history e (D.may_leave disk.old)
        → Leaves D.moment D.may_leave D.left_since (Rests ledger.now.rules ledger.now.history e) disk.old disk.new }
    ensures seen { Plain (D.told disk.old) (D.honest disk.old) → D.seen disk.new ≡ D.seen disk.old }
    ensures any_moment { Plain (D.told disk.old) (D.honest disk.old)
        → Runs D.moment D.may_leave D.left_since Same disk.old disk.new }
    ensures kind { SameKind D.told D.honest D.order D.orders disk.old disk.new }
    ensures cause { CountsPut (D.faults disk.old) (D.faults disk.new) result }
{
    let _len = ledger.len();
    vault.fetch(disk, i, buf)
}

/// Adds the entry of a Put that puts item `i` back, whose payload is this one.
fn write_back<G: GraphStore, D: Disk>(
    ledger: &mut Ledger<G>,
    logs: &mut Logs,
    disk: &mut D,
    entry: &Entry,
    i: u32,
    payload: &[u8],
) -> Result<(), Failed>
    requires logs { KeepsLogs ledger.old.rules ledger.old.history logs.old.journal logs.old.vault }
    requires carriers { KeepsCarriers ledger.old.rules ledger.old.history logs.old.carriers.items }
    requires areas { Plain (D.told disk.old) (D.honest disk.old) → KeepsAreas ledger.old.rules ledger.old.history (D.seen disk.old) (D.may_leave disk.old) }
    requires room { HasRoom 1 ledger.old.spare logs.old.journal logs.old.vault (length logs.old.carriers.items) (vec_capacity logs.old.carriers) }
    requires legal { is_legal (state_of ledger.old) entry.now ≡ true }
    requires ready { IsTrue (is_ready (G.is_ready_object ledger.old.store) (G.is_ready_edge ledger.old.store) ledger.old entry.now.what) }
    requires puts { PutsBackItem (state_of ledger.old) entry.now.what i }
    requires size { IsSizeOf (state_of ledger.old) i (length payload.now) }
    requires short { length payload.now ≤ payload_limit }
    requires payload { Plain (D.told disk.old) (D.honest disk.old) → (e : Payloads)
        → RestIn ledger.old.rules ledger.old.history e (D.may_leave disk.old) → IsPayloadOf (state_of ledger.old) i e payload.now }
    requires free { is_held ledger.old.held entry.now.what ≡ false }

    ensures ok { OnOk result (HasEntered ledger.old ledger.new entry.now) }
    ensures err { OnErr result (ledger.new ≡ ledger.old) }
    ensures logs { OnOk result (KeepsLogs ledger.new.rules ledger.new.history logs.new.journal logs.new.vault) }
    ensures carriers { OnOk result (KeepsCarriers ledger.new.rules ledger.new.history logs.new.carriers.items) }
    ensures areas { OnOk result (Plain (D.told disk.old) (D.honest disk.old) → KeepsAreas ledger.new.rules ledger.new.history (D.seen disk.new) (D.may_leave disk.new)) }
    ensures room { OnOk result ((n : ℕ) → HasRoom (n + 1) ledger.old.spare logs.old.journal logs.old.vault (length logs.old.carriers.items) (vec_capacity logs.old.carriers)
        → HasRoom n ledger.new.spare logs.new.journal logs.new.vault (length logs.new.carriers.items) (vec_capacity logs.new.carriers)) }

    ensures crash { Plain (D.told disk.old) (D.honest disk.old)
        → IsCrashSafe D.moment D.may_leave D.left_since ledger.old.rules ledger.old.history entry.now [] disk.old disk.new }
    ensures durable { OnOk result (Plain (D.told disk.old) (D.honest disk.old)
        → IsDurable D.may_leave ledger.old.rules ledger.old.history entry.now [] disk.old disk.new) }
    ensures kind { SameKind D.told D.honest D.order D.orders disk.old disk.new }
    ensures cause { HasCause (D.faults disk.old) (D.faults disk.new) result }
{
    write_put(
        ledger,
        &mut logs.journal,
        &mut logs.vault,
        disk,
        entry,
        i,
        payload,
    )?;
    carry(ledger, &mut logs.carriers, entry);
    ledger.enter(entry);
    Ok(())
}

/// Adds the journal record of a Put that puts item `i` back, with this payload, and then scrubs the payload in the item's
/// record.
fn write_put<G: GraphStore, D: Disk>(
    ledger: &Ledger<G>,
    journal: &mut GateLog,
    vault: &mut Vault,
    disk: &mut D,
    entry: &Entry,
    i: u32,
    payload: &[u8],
) -> Result<(), Failed>
    requires logs { KeepsLogs ledger.now.rules ledger.now.history journal.old vault.old }
    requires areas { Plain (D.told disk.old) (D.honest disk.old) → KeepsAreas ledger.now.rules ledger.now.history (D.seen disk.old) (D.may_leave disk.old) }
    requires spare { 0 < journal.old.spare }
    requires legal { is_legal (state_of ledger.now) entry.now ≡ true }
    requires puts { PutsBackItem (state_of ledger.now) entry.now.what i }
    requires size { IsSizeOf (state_of ledger.now) i (length payload.now) }
    requires short { length payload.now ≤ payload_limit }
    requires payload { Plain (D.told disk.old) (D.honest disk.old) → (e : Payloads)
        → RestIn ledger.now.rules ledger.now.history e (D.may_leave disk.old) → IsPayloadOf (state_of ledger.now) i e payload.now }

    ensures logs { OnOk result (KeepsLogs ledger.now.rules (longer ledger.now.history entry.now) journal.new vault.new) }
    ensures journal_spare { journal.old.spare ≤ journal.new.spare + 1 }
    ensures vault_spare { vault.old.spare ≤ vault.new.spare }
    ensures areas { OnOk result (Plain (D.told disk.old) (D.honest disk.old) → KeepsAreas ledger.now.rules (longer ledger.now.history entry.now) (D.seen disk.new) (D.may_leave disk.new)) }

    ensures crash { Plain (D.told disk.old) (D.honest disk.old)
        → IsCrashSafe D.moment D.may_leave D.left_since ledger.now.rules ledger.now.history entry.now [] disk.old disk.new }
    ensures durable { OnOk result (Plain (D.told disk.old) (D.honest disk.old)
        → IsDurable D.may_leave ledger.now.rules ledger.now.history entry.now [] disk.old disk.new) }
    ensures kind { SameKind D.told D.honest D.order D.orders disk.old disk.new }
    ensures cause { HasCause (D.faults disk.old) (D.faults disk.new) result }
{
    let _len = ledger.len();
    write_record(journal, disk, entry, payload)?;
    scrub_item(vault, disk, i)
}
