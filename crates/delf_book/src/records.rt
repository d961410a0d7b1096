//! The records of one entry, and the scrubs behind it.
ghost use Rattle.std.specs.Prelude.{◌≡◌, ◌+◌, ◌≤◌, ◌<◌, [], ◌∷◌, ◌++◌, ℕ, List, length, IfSome, OnOk, OnErr};
ghost use Rattle.delf_disk.specs.declared.area.Area.TheVariants.{Journal as JournalArea, Vault as VaultArea};
ghost use Rattle.delf_disk.specs.Areas.{Areas};
ghost use Rattle.delf_disk.specs.Images.{Only};
ghost use Rattle.delf_disk.specs.Causes.{HasCause};
ghost use Rattle.delf_disk.specs.Plain.{Plain, SameKind};
ghost use Rattle.delf_disk.specs.Moments.{Leaves};
ghost use Rattle.gate_log.specs.Records.{Record};
ghost use Rattle.gate_log.specs.Logs.{StandIn};
ghost use Rattle.entry_codec.specs.EntryHead.{entry_head, IsBounded};
ghost use Rattle.delf_model.specs.declared.entry.Entry.{Entry};
ghost use Rattle.delf_model.specs.RuleSet.{RuleSet};
ghost use Rattle.delf_model.specs.Legal.{Legal};
ghost use Rattle.delf_model.specs.Room.{greatest_moment, payload_limit};
ghost use Rattle.delf_model.specs.Step.{after};
ghost use Rattle.delf_model.specs.Payloads.{Payloads, Journal, Vault as VaultCarrier};
ghost use Rattle.payload_laws.specs.Holders.{IsLive, scrubbed_by};
ghost use Rattle.store_laws.specs.Stores.{StandBut, AreScrubbed, journal_of, vault_of, vault_for};
ghost use Rattle.store_laws.specs.Moves.{RestIn, StandsFor};
ghost use Rattle.store_laws.specs.Steps.{AreScrubbedBut};
ghost use Rattle.delf_book.specs.Writing.{Writes, Rests, dead_carriers, IsScrubbed, HasItem, longer, next_payloads};

use delf_disk::{Disk, Failed};
use delf_model::{Entry, HEAD_LIMIT};
use entry_codec::write_entry;
use gate_log::GateLog;
use vault::Vault;

/// Adds the journal record of an entry that may come next. A crash leaves the history, or it with the entry.
pub(crate) fn write_record<D: Disk>(
    journal: &mut GateLog,
    disk: &mut D,
    entry: &Entry,
    payload: &[u8],
) -> Result<(), Failed>
    requires area { journal.old.area ≡ JournalArea }
    requires spare { 0 < journal.old.spare }
    requires moment { entry.now.moment ≤ greatest_moment }
    requires bounded { IsBounded entry.now.what }
    requires payload { length payload.now ≤ payload_limit }
    requires stands { Plain (D.told disk.old) (D.honest disk.old) → StandIn journal.old.area journal.old.sizes (D.may_leave disk.old) }

    ensures area { journal.new.area ≡ journal.old.area }
    ensures sizes { OnOk result (journal.new.sizes ≡ journal.old.sizes ++ (length (entry_head entry.now), length payload.now) ∷ []) }
    ensures sizes_err { OnErr result (journal.new.sizes ≡ journal.old.sizes) }
    ensures spare { journal.old.spare ≤ journal.new.spare + 1 }

    ensures crash { Plain (D.told disk.old) (D.honest disk.old) → (rules : RuleSet) (history : List Entry) (e : Payloads) (given : List ℕ) (added : List Record)
        → Writes rules history e entry.now given added payload.now (D.may_leave disk.old)
        → Leaves D.moment D.may_leave D.left_since (StandsFor rules history e entry.now given) disk.old disk.new }
    ensures done { OnOk result (Plain (D.told disk.old) (D.honest disk.old) → (rules : RuleSet) (history : List Entry) (e : Payloads) (given : List ℕ) (added : List Record)
        → Writes rules history e entry.now given added payload.now (D.may_leave disk.old)
        → RestIn rules (longer history entry.now) (next_payloads rules history e entry.now given) (D.may_leave disk.new)) }
    ensures remains { OnOk result (Plain (D.told disk.old) (D.honest disk.old) → (rules : RuleSet) (history : List Entry) (e : Payloads) (given : List ℕ) (added : List Record)
        → Writes rules history e entry.now given added payload.now (D.may_leave disk.old)
        → AreScrubbed (after rules history) (journal_of (D.seen disk.old)) (vault_for rules history (D.seen disk.old))
        → AreScrubbedBut (after rules (longer history entry.now)) (scrubbed_by (after rules history) entry.now.what) (journal_of (D.seen disk.new)) (vault_of (D.seen disk.new))) }
    ensures stands { OnOk result (Plain (D.told disk.old) (D.honest disk.old)
        → StandIn journal.new.area journal.new.sizes (D.may_leave disk.new)) }

    ensures kind { SameKind D.told D.honest D.order D.orders disk.old disk.new }
    ensures cause { HasCause (D.faults disk.old) (D.faults disk.new) result }
{
    let mut head = [0; HEAD_LIMIT];
    let len = write_entry(entry, &mut head);
    journal.append(disk, &head[..len as usize], payload)
}

/// Adds the journal record of an entry, and scrubs the journal record `dead` that it leaves without a needed payload.
pub(crate) fn write_over<D: Disk>(
    journal: &mut GateLog,
    disk: &mut D,
    entry: &Entry,
    payload: &[u8],
    dead: Option<u32>,
) -> Result<(), Failed>
    requires area { journal.old.area ≡ JournalArea }
    requires spare { 0 < journal.old.spare }
    requires moment { entry.now.moment ≤ greatest_moment }
    requires bounded { IsBounded entry.now.what }
    requires payload { length payload.now ≤ payload_limit }
    requires inside { IfSome dead (λ i. i < length journal.old.sizes) }
    requires stands { Plain (D.told disk.old) (D.honest disk.old) → StandIn journal.old.area journal.old.sizes (D.may_leave disk.old) }

    ensures area { journal.new.area ≡ journal.old.area }
    ensures sizes { OnOk result (journal.new.sizes ≡ journal.old.sizes ++ (length (entry_head entry.now), length payload.now) ∷ []) }
    ensures spare { journal.old.spare ≤ journal.new.spare + 1 }

    ensures crash { Plain (D.told disk.old) (D.honest disk.old) → (rules : RuleSet) (history : List Entry) (e : Payloads) (given : List ℕ) (added : List Record)
        → Writes rules history e entry.now given added payload.now (D.may_leave disk.old)
        → dead_carriers dead ≡ scrubbed_by (after rules history) entry.now.what
        → Leaves D.moment D.may_leave D.left_since (StandsFor rules history e entry.now given) disk.old disk.new }
    ensures done { OnOk result (Plain (D.told disk.old) (D.honest disk.old) → (rules : RuleSet) (history : List Entry) (e : Payloads) (given : List ℕ) (added : List Record)
        → Writes rules history e entry.now given added payload.now (D.may_leave disk.old)
        → dead_carriers dead ≡ scrubbed_by (after rules history) entry.now.what
        → RestIn rules (longer history entry.now) (next_payloads rules history e entry.now given) (D.may_leave disk.new)) }
    ensures clean { OnOk result (Plain (D.told disk.old) (D.honest disk.old) → (rules : RuleSet) (history : List Entry) (e : Payloads) (given : List ℕ) (added : List Record)
        → Writes rules history e entry.now given added payload.now (D.may_leave disk.old)
        → dead_carriers dead ≡ scrubbed_by (after rules history) entry.now.what
        → AreScrubbed (after rules history) (journal_of (D.seen disk.old)) (vault_for rules history (D.seen disk.old))
        → AreScrubbed (after rules (longer history entry.now)) (journal_of (D.seen disk.new)) (vault_of (D.seen disk.new))) }

    ensures kind { SameKind D.told D.honest D.order D.orders disk.old disk.new }
    ensures cause { HasCause (D.faults disk.old) (D.faults disk.new) result }
{
    write_record(journal, disk, entry, payload)?;
    match dead {
        Some(i) => scrub_entry(journal, disk, i),
        None => Ok(()),
    }
}

/// Scrubs the payload of a journal record that nothing needs. At every moment the areas hold the same.
pub(crate) fn scrub_entry<D: Disk>(
    journal: &mut GateLog,
    disk: &mut D,
    i: u32,
) -> Result<(), Failed>
    requires area { journal.old.area ≡ JournalArea }
    requires inside { i < length journal.old.sizes }
    requires stands { Plain (D.told disk.old) (D.honest disk.old) → StandIn journal.old.area journal.old.sizes (D.may_leave disk.old) }

    ensures area { journal.new.area ≡ journal.old.area }
    ensures sizes { journal.new.sizes ≡ journal.old.sizes }
    ensures spare { journal.old.spare ≤ journal.new.spare }

    ensures crash { Plain (D.told disk.old) (D.honest disk.old) → (rules : RuleSet) (history : List Entry) (e : Payloads)
        → RestIn rules history e (D.may_leave disk.old) → (IsLive (after rules history) (Journal i) → ⊥)
        → Leaves D.moment D.may_leave D.left_since (Rests rules history e) disk.old disk.new }
    ensures scrubbed { OnOk result (Plain (D.told disk.old) (D.honest disk.old) → (rules : RuleSet) (history : List Entry) (e : Payloads)
        → RestIn rules history e (D.may_leave disk.old) → (IsLive (after rules history) (Journal i) → ⊥)
        → IsScrubbed (Journal i) (D.seen disk.old) (D.seen disk.new)) }
    ensures stands { Plain (D.told disk.old) (D.honest disk.old) → StandIn journal.new.area journal.new.sizes (D.may_leave disk.new) }

    ensures kind { SameKind D.told D.honest D.order D.orders disk.old disk.new }
    ensures cause { HasCause (D.faults disk.old) (D.faults disk.new) result }
{
    journal.scrub(disk, i)
}

/// Scrubs the payload of an item's record that nothing needs. At every moment the areas hold the same.
pub(crate) fn scrub_item<D: Disk>(vault: &mut Vault, disk: &mut D, i: u32) -> Result<(), Failed>
    requires area { vault.old.area ≡ VaultArea }
    requires inside { i < length vault.old.sizes }
    requires stands { Plain (D.told disk.old) (D.honest disk.old) → StandIn vault.old.area vault.old.sizes (D.may_leave disk.old) }

    ensures area { vault.new.area ≡ vault.old.area }
    ensures sizes { vault.new.sizes ≡ vault.old.sizes }
    ensures spare { vault.old.spare ≤ vault.new.spare }

    ensures crash { Plain (D.told disk.old) (D.honest disk.old) → (rules : RuleSet) (history : List Entry) (e : Payloads)
        → RestIn rules history e (D.may_leave disk.old) → (IsLive (after rules history) (VaultCarrier i) → ⊥)
        → Leaves D.moment D.may_leave D.left_since (Rests rules history e) disk.old disk.new }
    ensures scrubbed { OnOk result (Plain (D.told disk.old) (D.honest disk.old) → (rules : RuleSet) (history : List Entry) (e : Payloads)
        → RestIn rules history e (D.may_leave disk.old) → (IsLive (after rules history) (VaultCarrier i) → ⊥)
        → IsScrubbed (VaultCarrier i) (D.seen disk.old) (D.seen disk.new)) }
    ensures stands { Plain (D.told disk.old) (D.honest disk.old) → StandIn vault.new.area vault.new.sizes (D.may_leave disk.new) }

    ensures kind { SameKind D.told D.honest D.order D.orders disk.old disk.new }
    ensures cause { HasCause (D.faults disk.old) (D.faults disk.new) result }
{
    vault.scrub(disk, i)
}

/// Adds the vault record of an item whose entry is not made yet. A crash leaves the history as it is.
pub(crate) fn log_item<D: Disk>(
    vault: &mut Vault,
    disk: &mut D,
    head: &[u8],
    payload: &[u8],
) -> Result<(), Failed>
    requires area { vault.old.area ≡ VaultArea }
    requires spare { 0 < vault.old.spare }
    requires head { length head.now ≤ 128 }
    requires payload { length payload.now ≤ payload_limit }
    requires stands { Plain (D.told disk.old) (D.honest disk.old) → StandIn vault.old.area vault.old.sizes (D.may_leave disk.old) }

    ensures area { vault.new.area ≡ vault.old.area }
    ensures sizes { OnOk result (vault.new.sizes ≡ vault.old.sizes ++ (length head.now, length payload.now) ∷ []) }
    ensures sizes_err { OnErr result (vault.new.sizes ≡ vault.old.sizes) }
    ensures spare { vault.old.spare ≤ vault.new.spare + 1 }

    ensures crash { Plain (D.told disk.old) (D.honest disk.old) → (rules : RuleSet) (history : List Entry) (e : Payloads)
        → Legal rules history → RestIn rules history e (D.may_leave disk.old)
        → Leaves D.moment D.may_leave D.left_since (StandBut rules history e) disk.old disk.new }
    ensures done { OnOk result (Plain (D.told disk.old) (D.honest disk.old) → (rules : RuleSet) (history : List Entry) (e : Payloads)
        → Legal rules history → RestIn rules history e (D.may_leave disk.old)
        → (c : Areas) → D.may_leave disk.new c → HasItem rules history e (record { head = head.now; payload = payload.now }) (D.seen disk.old) c) }
    ensures stands { OnOk result (Plain (D.told disk.old) (D.honest disk.old) → StandIn vault.new.area vault.new.sizes (D.may_leave disk.new)) }

    ensures kind { SameKind D.told D.honest D.order D.orders disk.old disk.new }
    ensures cause { HasCause (D.faults disk.old) (D.faults disk.new) result }
{
    vault.append(disk, head, payload)
}
