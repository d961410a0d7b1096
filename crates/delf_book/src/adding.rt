//! One entry more, in the ledger and on the disk.
ghost use Rattle.std.specs.Prelude.{◌≡◌, ◌+◌, ◌≤◌, ◌<◌, ℕ, true, None, length, vec_capacity, IfSome, IsTrue, OnOk, OnErr, false};
ghost use Rattle.delf_disk.specs.Causes.{HasCause};
ghost use Rattle.delf_disk.specs.Plain.{Plain, SameKind};
ghost use Rattle.entry_codec.specs.EntryHead.{IsBounded};
ghost use Rattle.delf_model.specs.Legal.{is_legal};
ghost use Rattle.delf_model.specs.Order.{is_held};
ghost use Rattle.delf_model.specs.Room.{greatest_moment, payload_limit};
ghost use Rattle.payload_laws.specs.Holders.{record_size, position_taken, scrubbed_by};
ghost use Rattle.delf_book.specs.Books.{IsCrashSafe, IsDurable};
ghost use Rattle.delf_book.specs.Keeping.{KeepsLogs, KeepsCarriers, KeepsAreas, HasRoom, PutsBack};
ghost use Rattle.ledger.specs.Ledgers.{state_of, is_ready, HasEntered};
ghost use Rattle.delf_book.specs.Writing.{dead_carriers};

use crate::logs::Logs;
use crate::records::write_over;
use delf_disk::{Disk, Failed};
use delf_model::{Entry, GraphStore};
use ledger::Ledger;

/// Adds a legal entry that logs no item and puts nothing back, and scrubs the journal record `dead` that it leaves
/// without a needed payload.
pub(crate) fn add<G: GraphStore, D: Disk>(
    ledger: &mut Ledger<G>,
    logs: &mut Logs,
    disk: &mut D,
    entry: &Entry,
    payload: &[u8],
    dead: Option<u32>,
) -> Result<(), Failed>
    requires logs { KeepsLogs ledger.old.rules ledger.old.history logs.old.journal logs.old.vault }
    requires carriers { KeepsCarriers ledger.old.rules ledger.old.history logs.old.carriers.items }
    requires areas { Plain (D.told disk.old) (D.honest disk.old) → KeepsAreas ledger.old.rules ledger.old.history (D.seen disk.old) (D.may_leave disk.old) }
    requires room { HasRoom 1 ledger.old.spare logs.old.journal logs.old.vault (length logs.old.carriers.items) (vec_capacity logs.old.carriers) }
    requires legal { is_legal (state_of ledger.old) entry.now ≡ true }
    requires moment { entry.now.moment ≤ greatest_moment }
    requires ready { IsTrue (is_ready (G.is_ready_object ledger.old.store) (G.is_ready_edge ledger.old.store) ledger.old entry.now.what) }
    requires bounded { IsBounded entry.now.what }
    requires size { length payload.now ≡ record_size (state_of ledger.old) entry.now.what }
    requires payload { length payload.now ≤ payload_limit }
    requires no_item { position_taken (state_of ledger.old) entry.now.what ≡ None }
    requires no_put { PutsBack (state_of ledger.old) entry.now.what → ⊥ }
    requires dead { dead_carriers dead ≡ scrubbed_by (state_of ledger.old) entry.now.what }
    requires inside { IfSome dead (λ i. i < length ledger.old.history) }
    requires free { is_held ledger.old.held entry.now.what ≡ false }

    ensures ok { OnOk result (HasEntered ledger.old ledger.new entry.now) }
    ensures err { OnErr result (ledger.new ≡ ledger.old) }
    ensures logs { OnOk result (KeepsLogs ledger.new.rules ledger.new.history logs.new.journal logs.new.vault) }
    ensures carriers { OnOk result (KeepsCarriers ledger.new.rules ledger.new.history logs.new.carriers.items) }
    ensures areas { OnOk result (Plain (D.told disk.old) (D.honest disk.old) → KeepsAreas ledger.new.rules ledger.new.history (D.seen disk.new) (D.may_leave disk.new)) }
    ensures room { OnOk result ((n : ℕ) → HasRoom (n + 1) ledger.old.spare logs.old.journal logs.old.vault (length logs.old.carriers.items) (vec_capacity logs.old.carriers)
        → HasRoom n ledger.new.spare logs.new.journal logs.new.vault (length logs.new.carriers.items) (vec_capacity logs.new.carriers)) }

    ensures crash { Plain (D.told disk.old) (D.honest disk.old)
        → IsCrashSafe D.moment D.may_leave D.left_since ledger.old.rules ledger.old.history entry.now payload.now disk.old disk.new }
    ensures durable { OnOk result (Plain (D.told disk.old) (D.honest disk.old)
        → IsDurable D.may_leave ledger.old.rules ledger.old.history entry.now payload.now disk.old disk.new) }

    ensures kind { SameKind D.told D.honest D.order D.orders disk.old disk.new }
    ensures cause { HasCause (D.faults disk.old) (D.faults disk.new) result }
{
    let position = ledger.len();
    write_over(&mut logs.journal, disk, entry, payload, dead)?;
    logs.carriers.push_reserved(position);
    ledger.enter(entry);
    Ok(())
}
