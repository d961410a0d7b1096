//! The entry of a writing call.
ghost use Rattle.std.specs.Prelude.{◌≡◌, ◌≤◌, true, None, Ok, Err, length, vec_capacity, OnOk, OnErr, false};
ghost use Rattle.delf_disk.specs.Plain.{Plain, SameKind};
ghost use Rattle.entry_codec.specs.EntryHead.{IsBounded};
ghost use Rattle.delf_model.specs.Legal.{is_legal};
ghost use Rattle.delf_model.specs.Order.{is_held};
ghost use Rattle.delf_model.specs.Room.{greatest_moment, payload_limit};
ghost use Rattle.payload_laws.specs.Holders.{record_size, position_taken};
ghost use Rattle.delf_book.specs.declared.faults.EntryFault.TheVariants.{OutOfMemory};
ghost use Rattle.delf_book.specs.Books.{IsCrashSafe, IsDurable, CountsEntry, UnlessFailed};
ghost use Rattle.delf_book.specs.Claims.{room_for};
ghost use Rattle.delf_book.specs.Keeping.{KeepsUp, PutsBack, scrubs_rows};
ghost use Rattle.ledger.specs.Ledgers.{state_of, IsSame, HasEntered};

use crate::adding::add;
use crate::dead::dead_record;
use crate::faults::EntryFault;
use crate::logs::Logs;
use crate::ready::{make_ready, room_and_one};
use delf_disk::Disk;
use delf_model::{Entry, GraphStore};
use ledger::Ledger;

/// Makes a legal entry that logs no item and puts nothing back. Room for `spare` further steps and for the claims stays.
pub(crate) fn enter<G: GraphStore, D: Disk>(
    ledger: &mut Ledger<G>,
    logs: &mut Logs,
    disk: &mut D,
    claims: usize,
    spare: u32,
    entry: &Entry,
    payload: &[u8],
) -> Result<(), EntryFault>
    requires up { KeepsUp ledger.old.rules ledger.old.history (room_for spare claims) ledger.old.spare logs.old.journal logs.old.vault logs.old.carriers.items (vec_capacity logs.old.carriers) (D.told disk.old) (D.honest disk.old) (D.seen disk.old) (D.may_leave disk.old) }
    requires legal { is_legal (state_of ledger.old) entry.now ≡ true }
    requires moment { entry.now.moment ≤ greatest_moment }
    requires bounded { IsBounded entry.now.what }
    requires size { length payload.now ≡ record_size (state_of ledger.old) entry.now.what }
    requires payload { length payload.now ≤ payload_limit }
    requires no_item { position_taken (state_of ledger.old) entry.now.what ≡ None }
    requires no_put { PutsBack (state_of ledger.old) entry.now.what → ⊥ }
    requires rows { scrubs_rows entry.now.what ≡ true }
    requires free { is_held ledger.old.held entry.now.what ≡ false }

    ensures rules { ledger.new.rules ≡ ledger.old.rules }
    ensures ok { OnOk result (HasEntered ledger.old ledger.new entry.now) }
    ensures err { OnErr result (ledger.new.history ≡ ledger.old.history) }
    ensures held { ledger.new.held ≡ ledger.old.held }
    ensures starved { result ≡ Err OutOfMemory → disk.new ≡ disk.old }
    ensures up { UnlessFailed result (KeepsUp ledger.new.rules ledger.new.history (room_for spare claims) ledger.new.spare logs.new.journal logs.new.vault logs.new.carriers.items (vec_capacity logs.new.carriers) (D.told disk.new) (D.honest disk.new) (D.seen disk.new) (D.may_leave disk.new)) }

    ensures crash { Plain (D.told disk.old) (D.honest disk.old)
        → IsCrashSafe D.moment D.may_leave D.left_since ledger.old.rules ledger.old.history entry.now payload.now disk.old disk.new }
    ensures durable { OnOk result (Plain (D.told disk.old) (D.honest disk.old)
        → IsDurable D.may_leave ledger.old.rules ledger.old.history entry.now payload.now disk.old disk.new) }

    ensures kind { SameKind D.told D.honest D.order D.orders disk.old disk.new }
    ensures cause { CountsEntry (D.faults disk.old) (D.faults disk.new) result }
{
    let _len = ledger.len();
    let Some(n) = room_and_one(spare, claims) else {
        return Err(EntryFault::OutOfMemory);
    };
    make_ready(ledger, logs, &entry.what, n)?;
    let dead = dead_record(ledger, &logs.carriers, &entry.what);
    add(ledger, logs, disk, entry, payload, dead)?;
    Ok(())
}
