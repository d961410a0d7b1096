//! Purges: once a job is purged, none of its payloads that were not put back is needed.
ghost use Rattle.std.specs.Prelude.{◌≡◌, ◌+◌, ◌≤◌, ℕ, [], true, length, vec_capacity, IsTrue, OnOk, OnErr, List, map, false};
ghost use Rattle.delf_disk.specs.Causes.{HasCause};
ghost use Rattle.delf_disk.specs.declared.area.Area.TheVariants.{Vault as VaultArea};
ghost use Rattle.delf_disk.specs.Moments.{Leaves};
ghost use Rattle.delf_disk.specs.Plain.{Plain, SameKind};
ghost use Rattle.gate_log.specs.Logs.{StandIn};
ghost use Rattle.entry_codec.specs.EntryHead.{IsBounded};
ghost use Rattle.delf_model.specs.declared.entry.Entry.{Entry};
ghost use Rattle.delf_model.specs.declared.entry.What.TheVariants.{Purge};
ghost use Rattle.delf_model.specs.Legal.{is_legal};
ghost use Rattle.delf_model.specs.Order.{is_held};
ghost use Rattle.delf_model.specs.Room.{greatest_moment};
ghost use Rattle.delf_model.specs.Payloads.{Payloads};
ghost use Rattle.delf_model.specs.RuleSet.{RuleSet};
ghost use Rattle.delf_model.specs.Step.{after};
ghost use Rattle.payload_laws.specs.Holders.{unput_of};
ghost use Rattle.store_laws.specs.Moves.{RestIn};
ghost use Rattle.store_laws.specs.Steps.{AreScrubbedBut};
ghost use Rattle.store_laws.specs.Stores.{AreScrubbed, journal_of, vault_of};
ghost use Rattle.delf_book.specs.Steps.{IsPurge};
ghost use Rattle.delf_book.specs.Books.{IsCrashSafe, IsDurable};
ghost use Rattle.delf_book.specs.Keeping.{KeepsLogs, KeepsCarriers, KeepsAreas, HasRoom, item_sizes};
ghost use Rattle.ledger.specs.Ledgers.{state_of, is_ready, HasEntered};
ghost use Rattle.delf_book.specs.Dead.{AreDead};
ghost use Rattle.delf_book.specs.Writing.{Rests};

use crate::logs::Logs;
use crate::records::{scrub_item, write_record};
use delf_disk::{Disk, Failed};
use delf_model::{Entry, GraphStore, Job, What};
use ledger::Ledger;
use vault::Vault;

/// Makes a legal Purge: adds the entry, and scrubs the payload of each item of the job that was not put back, by rising
/// item number. It takes no memory.
pub(crate) fn purge_job<G: GraphStore, D: Disk>(
    ledger: &mut Ledger<G>,
    logs: &mut Logs,
    disk: &mut D,
    entry: &Entry,
) -> Result<(), Failed>
    requires logs { KeepsLogs ledger.old.rules ledger.old.history logs.old.journal logs.old.vault }
    requires carriers { KeepsCarriers ledger.old.rules ledger.old.history logs.old.carriers.items }
    requires areas { Plain (D.told disk.old) (D.honest disk.old) → KeepsAreas ledger.old.rules ledger.old.history (D.seen disk.old) (D.may_leave disk.old) }
    requires room { HasRoom 1 ledger.old.spare logs.old.journal logs.old.vault (length logs.old.carriers.items) (vec_capacity logs.old.carriers) }
    requires legal { is_legal (state_of ledger.old) entry.now ≡ true }
    requires moment { entry.now.moment ≤ greatest_moment }
    requires ready { IsTrue (is_ready (G.is_ready_object ledger.old.store) (G.is_ready_edge ledger.old.store) ledger.old entry.now.what) }
    requires bounded { IsBounded entry.now.what }
    requires purge { IsPurge entry.now.what }
    requires free { is_held ledger.old.held entry.now.what ≡ false }

    ensures ok { OnOk result (HasEntered ledger.old ledger.new entry.now) }
    ensures err { OnErr result (ledger.new ≡ ledger.old) }
    ensures logs { OnOk result (KeepsLogs ledger.new.rules ledger.new.history logs.new.journal logs.new.vault) }
    ensures carriers { OnOk result (KeepsCarriers ledger.new.rules ledger.new.history logs.new.carriers.items) }
    ensures areas { OnOk result (Plain (D.told disk.old) (D.honest disk.old) → KeepsAreas ledger.new.rules ledger.new.history (D.seen disk.new) (D.may_leave disk.new)) }
    ensures room { OnOk result ((n : ℕ) → HasRoom (n + 1) ledger.old.spare logs.old.journal logs.old.vault (length logs.old.carriers.items) (vec_capacity logs.old.carriers)
        → HasRoom n ledger.new.spare logs.new.journal logs.new.vault (length logs.new.carriers.items) (vec_capacity logs.new.carriers)) }

    ensures crash { Plain (D.told disk.old) (D.honest disk.old)
        → IsCrashSafe D.moment D.may_leave D.left_since ledger.old.rules ledger.old.history entry.now [] disk.old disk.new }
    ensures durable { OnOk result (Plain (D.told disk.old) (D.honest disk.old)
        → IsDurable D.may_leave ledger.old.rules ledger.old.history entry.now [] disk.old disk.new) }

    ensures kind { SameKind D.told D.honest D.order D.orders disk.old disk.new }
    ensures cause { HasCause (D.faults disk.old) (D.faults disk.new) result }
{
    let position = ledger.len();
    let job = purged_by(&entry.what);
    write_record(&mut logs.journal, disk, entry, &[])?;
    scrub_job(ledger, &mut logs.vault, disk, job)?;
    logs.carriers.push_reserved(position);
    ledger.enter(entry);
    Ok(())
}

/// The job that the entry purges.
fn purged_by(what: &What) -> Job
    requires { IsPurge what.now }
    ensures { what.now ≡ Purge result }
{
    match what {
        What::Purge { job } => *job,
        _ => unreachable!(),
    }
}

/// Scrubs the payload of each item of the job that was not put back, by rising item number, where nothing needs them. At
/// every moment the areas hold the same.
fn scrub_job<G: GraphStore, D: Disk>(
    ledger: &Ledger<G>,
    vault: &mut Vault,
    disk: &mut D,
    job: Job,
) -> Result<(), Failed>
    requires area { vault.old.area ≡ VaultArea }
    requires sizes { vault.old.sizes ≡ map item_sizes (state_of ledger.now).items }
    requires stands { Plain (D.told disk.old) (D.honest disk.old) → StandIn vault.old.area vault.old.sizes (D.may_leave disk.old) }

    ensures area { vault.new.area ≡ vault.old.area }
    ensures sizes { vault.new.sizes ≡ vault.old.sizes }
    ensures spare { vault.old.spare ≤ vault.new.spare }

    ensures crash { Plain (D.told disk.old) (D.honest disk.old) → (rules : RuleSet) (history : List Entry) (e : Payloads)
        → RestIn rules history e (D.may_leave disk.old) → AreDead (after rules history) (unput_of job 0 (state_of ledger.now).items)
        → Leaves D.moment D.may_leave D.left_since (Rests rules history e) disk.old disk.new }
    ensures clean { OnOk result (Plain (D.told disk.old) (D.honest disk.old) → (rules : RuleSet) (history : List Entry) (e : Payloads)
        → RestIn rules history e (D.may_leave disk.old) → AreDead (after rules history) (unput_of job 0 (state_of ledger.now).items)
        → AreScrubbedBut (after rules history) (unput_of job 0 (state_of ledger.now).items) (journal_of (D.seen disk.old)) (vault_of (D.seen disk.old))
        → AreScrubbed (after rules history) (journal_of (D.seen disk.new)) (vault_of (D.seen disk.new))) }

    ensures kind { SameKind D.told D.honest D.order D.orders disk.old disk.new }
    ensures cause { HasCause (D.faults disk.old) (D.faults disk.new) result }
{
    let _len = ledger.len();
    let mut from = 0;
    'items: while let Some(i) = ledger.next_unput(job, from) {
        scrub_item(vault, disk, i)?;
        from = i + 1;
    }
    Ok(())
}
