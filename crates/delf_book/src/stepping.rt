//! The serial step over the parts of a book.
ghost use Rattle.std.specs.Prelude.{◌≡◌, ◌≢◌, ◌+◌, ◌<◌, ◌≤◌, ℕ, [], true, false, length, vec_capacity, IsTrue, IfOk, IfErr, OnOk, OnErr};
ghost use Rattle.delf_disk.specs.Images.{Same};
ghost use Rattle.delf_disk.specs.Moments.{Runs};
ghost use Rattle.delf_disk.specs.Plain.{Plain, SameKind};
ghost use Rattle.delf_model.specs.Legal.{is_legal};
ghost use Rattle.delf_model.specs.Order.{is_step, is_held};
ghost use Rattle.delf_model.specs.Payloads.{Payloads};
ghost use Rattle.store_laws.specs.Moves.{RestIn};
ghost use Rattle.delf_book.specs.declared.stepping.Halt.TheVariants.{OutOfMemory};
ghost use Rattle.delf_book.specs.Books.{IsCrashSafe, IsDurable, is_reserved as is_reserved_step};
ghost use Rattle.delf_book.specs.Keeping.{KeepsLogs, KeepsCarriers, KeepsAreas, KeepsUp, HasRoom};
ghost use Rattle.ledger.specs.Ledgers.{state_of, is_ready, IsSame, HasEntered};
ghost use Rattle.delf_book.specs.Claims.{room_for};
ghost use Rattle.delf_book.specs.Stepping.{PutsBackItem, TellsWhy, RefusesPut, IfDamaged, CountsPut, halt_of, IfStarved, IfHurt, IfWaits, CountsHalt};
ghost use Rattle.delf_book.specs.Steps.{PutsSealed, TellsDamage};

use crate::adding::add;
use crate::erasing::take_row;
use crate::logs::Logs;
use crate::purging::purge_job;
use crate::putting::put_item;
use crate::ready::{make_ready, room_and_one};
use delf_disk::Disk;
use delf_model::{Entry, GraphStore, What};
use ledger::Ledger;
use std::alloc::AllocError;
use vault::FetchFault;

/// Why a step was not made.
#[derive(Clone, Copy, PartialEq, Eq, Debug)]
pub(crate) enum Halt {
    /// Want of memory; no disk call was made.
    OutOfMemory,
    /// A disk call failed.
    Failed,
    /// The payload of the item that is to be put back has the SHA-256 `found`, and its record holds another one,
    /// `stored`; nothing was written.
    Damaged {
        item: u32,
        stored: [u8; 32],
        found: [u8; 32],
    },
}

impl From<AllocError> for Halt {
    ghost from_gives = { λ _ halt. halt ≡ OutOfMemory };

    fn from(_: AllocError) -> Self {
        Halt::OutOfMemory
    }
}

impl From<FetchFault> for Halt {
    ghost from_gives = { λ fault halt. halt ≡ halt_of fault };

    fn from(fault: FetchFault) -> Self {
        match fault {
            FetchFault::Failed => Halt::Failed,
            FetchFault::Damaged {
                item,
                stored,
                found,
            } => Halt::Damaged {
                item,
                stored,
                found,
            },
        }
    }
}

/// Makes a legal step, and gives for how many further deletion steps the room that was kept is left: one less where this
/// is one of them and there was some.
pub(crate) fn step<G: GraphStore, D: Disk>(
    ledger: &mut Ledger<G>,
    logs: &mut Logs,
    disk: &mut D,
    claims: usize,
    spare: u32,
    entry: &Entry,
) -> Result<u32, Halt>
    requires up { KeepsUp ledger.old.rules ledger.old.history (room_for spare claims) ledger.old.spare logs.old.journal logs.old.vault logs.old.carriers.items (vec_capacity logs.old.carriers) (D.told disk.old) (D.honest disk.old) (D.seen disk.old) (D.may_leave disk.old) }
    requires legal { is_legal (state_of ledger.old) entry.now ≡ true }
    requires step { is_step entry.now.what ≡ true }
    requires free { is_held ledger.old.held entry.now.what ≡ false }

    ensures rules { ledger.new.rules ≡ ledger.old.rules }
    ensures ok { OnOk result (HasEntered ledger.old ledger.new entry.now) }
    ensures err { OnErr result (ledger.new.history ≡ ledger.old.history) }
    ensures held { ledger.new.held ≡ ledger.old.held }
    ensures up { IfOk result (λ left. KeepsUp ledger.new.rules ledger.new.history (room_for left claims) ledger.new.spare logs.new.journal logs.new.vault logs.new.carriers.items (vec_capacity logs.new.carriers) (D.told disk.new) (D.honest disk.new) (D.seen disk.new) (D.may_leave disk.new)) }
    ensures stays { IfWaits result (KeepsUp ledger.new.rules ledger.new.history (room_for spare claims) ledger.new.spare logs.new.journal logs.new.vault logs.new.carriers.items (vec_capacity logs.new.carriers) (D.told disk.new) (D.honest disk.new) (D.seen disk.new) (D.may_leave disk.new)) }

    // Room is taken by one at most, and only by a step for which it is kept. Memory is not wanting for such a step.
    ensures spare { IfOk result (λ left. spare ≤ left + 1) }
    ensures kept { IfOk result (λ left. is_reserved_step entry.now.what ≡ false → spare ≤ left) }
    ensures less { IfOk result (λ left. left ≤ spare) }
    ensures takes { IfOk result (λ left. is_reserved_step entry.now.what ≡ true → 0 < spare → left + 1 ≡ spare) }
    ensures unreserved { IfStarved result (0 < spare → is_reserved_step entry.now.what ≡ false) }
    ensures unread { IfStarved result (disk.new ≡ disk.old) }

    ensures crash { Plain (D.told disk.old) (D.honest disk.old)
        → IsCrashSafe D.moment D.may_leave D.left_since ledger.old.rules ledger.old.history entry.now [] disk.old disk.new }
    ensures durable { OnOk result (Plain (D.told disk.old) (D.honest disk.old)
        → IsDurable D.may_leave ledger.old.rules ledger.old.history entry.now [] disk.old disk.new) }
    ensures sealed { OnOk result (Plain (D.told disk.old) (D.honest disk.old) → (e : Payloads)
        → RestIn ledger.old.rules ledger.old.history e (D.may_leave disk.old) → PutsSealed (state_of ledger.old) entry.now.what e) }

    ensures refuses { IfHurt result (λ item stored found. PutsBackItem (state_of ledger.old) entry.now.what item × (stored ≢ found)) }
    ensures damaged { IfHurt result (λ item stored found. Plain (D.told disk.old) (D.honest disk.old) → (e : Payloads)
        → RestIn ledger.old.rules ledger.old.history e (D.may_leave disk.old) → TellsDamage (state_of ledger.old) e item stored found) }
    ensures only_read { IfHurt result (λ item stored found. Plain (D.told disk.old) (D.honest disk.old)
        → Runs D.moment D.may_leave D.left_since Same disk.old disk.new) }

    ensures kind { SameKind D.told D.honest D.order D.orders disk.old disk.new }
    ensures cause { CountsHalt (D.faults disk.old) (D.faults disk.new) result }
{
    let _len = ledger.len();
    let left = ready_step(ledger, logs, claims, spare, &entry.what)?;
    make_step(ledger, logs, disk, entry)?;
    Ok(left)
}

/// Makes room for a step beside what is kept for `spare` further deletion steps and the claims, or takes that of one step. It gives
/// for how many there is room once the step is made. The only error is want of memory; whatever it answers, no room is
/// lost.
fn ready_step<G: GraphStore>(
    ledger: &mut Ledger<G>,
    logs: &mut Logs,
    claims: usize,
    spare: u32,
    what: &What,
) -> Result<u32, AllocError>
    requires room { HasRoom (room_for spare claims) ledger.old.spare logs.old.journal logs.old.vault (length logs.old.carriers.items) (vec_capacity logs.old.carriers) }

    ensures ledger { IsSame ledger.old ledger.new }
    ensures journal_area { logs.new.journal.area ≡ logs.old.journal.area }
    ensures journal_sizes { logs.new.journal.sizes ≡ logs.old.journal.sizes }
    ensures vault_area { logs.new.vault.area ≡ logs.old.vault.area }
    ensures vault_sizes { logs.new.vault.sizes ≡ logs.old.vault.sizes }
    ensures carriers { logs.new.carriers.items ≡ logs.old.carriers.items }
    ensures keeps { HasRoom (room_for spare claims) ledger.new.spare logs.new.journal logs.new.vault (length logs.new.carriers.items) (vec_capacity logs.new.carriers) }
    ensures room { IfOk result (λ left. HasRoom (room_for left claims + 1) ledger.new.spare logs.new.journal logs.new.vault (length logs.new.carriers.items) (vec_capacity logs.new.carriers)) }
    ensures ready { OnOk result (IsTrue (is_ready (G.is_ready_object ledger.new.store) (G.is_ready_edge ledger.new.store) ledger.new what.now)) }
    ensures spare { IfOk result (λ left. spare ≤ left + 1) }
    ensures kept { IfOk result (λ left. is_reserved_step what.now ≡ false → spare ≤ left) }
    ensures less { IfOk result (λ left. left ≤ spare) }
    ensures takes { IfOk result (λ left. is_reserved_step what.now ≡ true → 0 < spare → left + 1 ≡ spare) }
    ensures unreserved { OnErr result (0 < spare → is_reserved_step what.now ≡ false) }
{
    if spare > 0 && is_reserved(what) {
        return Ok(spare - 1);
    }
    let Some(n) = room_and_one(spare, claims) else {
        return Err(AllocError);
    };
    make_ready(ledger, logs, what, n)?;
    Ok(spare)
}

/// Whether room can be kept for a step of this kind: for any but a put.
fn is_reserved(what: &What) -> bool
    ensures { result ≡ is_reserved_step what.now }
{
    match what {
        What::Expire { .. } => true,
        What::Cut { .. } => true,
        What::Erase { .. } => true,
        What::Purge { .. } => true,
        What::Create { .. } => false,
        What::Update { .. } => false,
        What::Link { .. } => false,
        What::Unlink { .. } => false,
        What::Delete { .. } => false,
        What::Restore { .. } => false,
        What::Put { .. } => false,
    }
}

/// Makes a legal step for which there is room. It takes no memory.
fn make_step<G: GraphStore, D: Disk>(
    ledger: &mut Ledger<G>,
    logs: &mut Logs,
    disk: &mut D,
    entry: &Entry,
) -> Result<(), FetchFault>
    requires logs { KeepsLogs ledger.old.rules ledger.old.history logs.old.journal logs.old.vault }
    requires carriers { KeepsCarriers ledger.old.rules ledger.old.history logs.old.carriers.items }
    requires areas { Plain (D.told disk.old) (D.honest disk.old) → KeepsAreas ledger.old.rules ledger.old.history (D.seen disk.old) (D.may_leave disk.old) }
    requires room { HasRoom 1 ledger.old.spare logs.old.journal logs.old.vault (length logs.old.carriers.items) (vec_capacity logs.old.carriers) }
    requires legal { is_legal (state_of ledger.old) entry.now ≡ true }
    requires ready { IsTrue (is_ready (G.is_ready_object ledger.old.store) (G.is_ready_edge ledger.old.store) ledger.old entry.now.what) }
    requires step { is_step entry.now.what ≡ true }
    requires free { is_held ledger.old.held entry.now.what ≡ false }

    ensures ok { OnOk result (HasEntered ledger.old ledger.new entry.now) }
    ensures err { OnErr result (ledger.new ≡ ledger.old) }
    ensures logs { OnOk result (KeepsLogs ledger.new.rules ledger.new.history logs.new.journal logs.new.vault) }
    ensures carriers { OnOk result (KeepsCarriers ledger.new.rules ledger.new.history logs.new.carriers.items) }
    ensures areas { OnOk result (Plain (D.told disk.old) (D.honest disk.old) → KeepsAreas ledger.new.rules ledger.new.history (D.seen disk.new) (D.may_leave disk.new)) }
    ensures room { OnOk result ((n : ℕ) → HasRoom (n + 1) ledger.old.spare logs.old.journal logs.old.vault (length logs.old.carriers.items) (vec_capacity logs.old.carriers)
        → HasRoom n ledger.new.spare logs.new.journal logs.new.vault (length logs.new.carriers.items) (vec_capacity logs.new.carriers)) }

    ensures crash { Plain (D.told disk.old) (D.honest disk.old)
        → IsCrashSafe D.moment D.may_leave D.left_since ledger.old.rules ledger.old.history entry.now [] disk.old disk.new }
    ensures durable { OnOk result (Plain (D.told disk.old) (D.honest disk.old)
        → IsDurable D.may_leave ledger.old.rules ledger.old.history entry.now [] disk.old disk.new) }
    ensures sealed { OnOk result (Plain (D.told disk.old) (D.honest disk.old) → (e : Payloads)
        → RestIn ledger.old.rules ledger.old.history e (D.may_leave disk.old) → PutsSealed (state_of ledger.old) entry.now.what e) }

    ensures refuses { IfErr result (λ fault. RefusesPut (state_of ledger.old) entry.now.what fault) }
    ensures damaged { IfErr result (λ fault. Plain (D.told disk.old) (D.honest disk.old) → (e : Payloads)
        → RestIn ledger.old.rules ledger.old.history e (D.may_leave disk.old) → TellsWhy (state_of ledger.old) e fault) }
    ensures kept_logs { IfDamaged result (logs.new ≡ logs.old) }
    ensures kept { IfDamaged result (Plain (D.told disk.old) (D.honest disk.old) → KeepsAreas ledger.old.rules ledger.old.history (D.seen disk.new) (D.may_leave disk.new)) }
    ensures only_read { IfDamaged result (Plain (D.told disk.old) (D.honest disk.old)
        → Runs D.moment D.may_leave D.left_since Same disk.old disk.new) }

    ensures kind { SameKind D.told D.honest D.order D.orders disk.old disk.new }
    ensures cause { CountsPut (D.faults disk.old) (D.faults disk.new) result }
{
    match &entry.what {
        What::Put { item, .. } => return put_item(ledger, logs, disk, entry, *item),
        What::Expire { .. } => add(ledger, logs, disk, entry, &[], None)?,
        What::Cut { .. } => take_row(ledger, logs, disk, entry)?,
        What::Erase { .. } => take_row(ledger, logs, disk, entry)?,
        What::Purge { .. } => purge_job(ledger, logs, disk, entry)?,
        What::Create { .. } => unreachable!(),
        What::Update { .. } => unreachable!(),
        What::Link { .. } => unreachable!(),
        What::Unlink { .. } => unreachable!(),
        What::Delete { .. } => unreachable!(),
        What::Restore { .. } => unreachable!(),
    }
    Ok(())
}
