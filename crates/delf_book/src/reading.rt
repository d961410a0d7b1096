//! The payload of a row of the graph, read from the journal.
ghost use Rattle.std.specs.Prelude.{◌≡◌, ◌<◌, ◌≤◌, true, ℕ, List, length, take, drop, is_some, IsTrue, IfOk};
ghost use Rattle.delf_disk.specs.declared.area.Area.TheVariants.{Journal as JournalArea};
ghost use Rattle.delf_disk.specs.Causes.{HasCause};
ghost use Rattle.delf_disk.specs.Plain.{Plain, SameKind};
ghost use Rattle.delf_disk.specs.Images.{Same};
ghost use Rattle.delf_disk.specs.Moments.{Runs, Leaves};
ghost use Rattle.gate_log.specs.Logs.{StandIn};
ghost use Rattle.gate_log.specs.Places.{size_in};
ghost use Rattle.delf_model.specs.declared.TheConstants.{LIMIT};
ghost use Rattle.delf_model.specs.declared.entry.Entry.{Entry};
ghost use Rattle.delf_model.specs.RuleSet.{RuleSet};
ghost use Rattle.delf_model.specs.Graph.{object_at, edge_at};
ghost use Rattle.delf_model.specs.Step.{after};
ghost use Rattle.delf_model.specs.Payloads.{Payloads, Journal, is_needed, last_carrier, payload_at};
ghost use Rattle.store_laws.specs.Moves.{RestIn};
ghost use Rattle.delf_book.specs.Keeping.{KeepsLogs, KeepsCarriers};
ghost use Rattle.ledger.specs.Ledgers.{state_of};
ghost use Rattle.delf_book.specs.Reads.{IsObjectAt, IsEdgeAt};
ghost use Rattle.delf_book.specs.Writing.{Rests};

use crate::dead::{edge_record, object_record};
use crate::logs::Logs;
use delf_disk::{Disk, Failed};
use delf_model::{EdgeKey, GraphStore, LIMIT, ObjectId};
use gate_log::GateLog;
use ledger::Ledger;

/// Reads the payload of journal record `i` to the front of `buf`, and gives its size. At every moment the areas hold the
/// same.
pub(crate) fn read_record<D: Disk>(
    journal: &GateLog,
    disk: &mut D,
    i: u32,
    buf: &mut [u8],
) -> Result<u16, Failed>
    requires area { journal.now.area ≡ JournalArea }
    requires inside { i < length journal.now.sizes }
    requires fits { (size_in journal.now.sizes i).1 ≤ length buf.old }
    requires short { (size_in journal.now.sizes i).1 ≤ 65535 }
    requires stands { Plain (D.told disk.old) (D.honest disk.old) → StandIn journal.now.area journal.now.sizes (D.may_leave disk.old) }

    ensures size { IfOk result (λ n. n ≡ (size_in journal.now.sizes i).1) }
    // Where it is the last carrier of a needed position, these are the bytes of that position.
    ensures payload { IfOk result (λ n. Plain (D.told disk.old) (D.honest disk.old) → (rules : RuleSet) (history : List Entry) (e : Payloads)
        → RestIn rules history e (D.may_leave disk.old) → (p : ℕ) → is_needed (after rules history) p ≡ true → last_carrier (after rules history) p ≡ Journal i
        → take n buf.new ≡ payload_at e p) }
    ensures rest { IfOk result (λ n. drop n buf.new ≡ drop n buf.old) }

    ensures crash { Plain (D.told disk.old) (D.honest disk.old) → (rules : RuleSet) (history : List Entry) (e : Payloads)
        → RestIn rules history e (D.may_leave disk.old)
        → Leaves D.moment D.may_leave D.left_since (Rests rules history e) disk.old disk.new }
    ensures seen { Plain (D.told disk.old) (D.honest disk.old) → D.seen disk.new ≡ D.seen disk.old }
    ensures any_moment { Plain (D.told disk.old) (D.honest disk.old)
        → Runs D.moment D.may_leave D.left_since Same disk.old disk.new }

    ensures kind { SameKind D.told D.honest D.order D.orders disk.old disk.new }
    ensures cause { HasCause (D.faults disk.old) (D.faults disk.new) result }
{
    journal.read_payload(disk, i, buf)
}

/// Reads the payload of the object to the front of `buf`, and gives its size. At every moment the areas hold the same.
pub(crate) fn read_object_at<G: GraphStore, D: Disk>(
    ledger: &Ledger<G>,
    logs: &Logs,
    disk: &mut D,
    id: ObjectId,
    buf: &mut [u8],
) -> Result<u16, Failed>
    requires logs { KeepsLogs ledger.now.rules ledger.now.history logs.now.journal logs.now.vault }
    requires carriers { KeepsCarriers ledger.now.rules ledger.now.history logs.now.carriers.items }
    requires stands { Plain (D.told disk.old) (D.honest disk.old) → StandIn logs.now.journal.area logs.now.journal.sizes (D.may_leave disk.old) }
    requires there { IsTrue (is_some (object_at (state_of ledger.now).graph id)) }
    requires room { LIMIT ≤ length buf.old }

    ensures size { IfOk result (λ n. (at : ℕ) × IsObjectAt (object_at (state_of ledger.now).graph id) at n) }
    ensures payload { IfOk result (λ n. Plain (D.told disk.old) (D.honest disk.old) → (e : Payloads)
        → RestIn ledger.now.rules ledger.now.history e (D.may_leave disk.old) → (at : ℕ)
        → IsObjectAt (object_at (state_of ledger.now).graph id) at n → take n buf.new ≡ payload_at e at) }
    ensures rest { IfOk result (λ n. drop n buf.new ≡ drop n buf.old) }

    ensures crash { Plain (D.told disk.old) (D.honest disk.old) → (rules : RuleSet) (history : List Entry) (e : Payloads)
        → RestIn rules history e (D.may_leave disk.old)
        → Leaves D.moment D.may_leave D.left_since (Rests rules history e) disk.old disk.new }
    ensures seen { Plain (D.told disk.old) (D.honest disk.old) → D.seen disk.new ≡ D.seen disk.old }
    ensures any_moment { Plain (D.told disk.old) (D.honest disk.old)
        → Runs D.moment D.may_leave D.left_since Same disk.old disk.new }

    ensures kind { SameKind D.told D.honest D.order D.orders disk.old disk.new }
    ensures cause { HasCause (D.faults disk.old) (D.faults disk.new) result }
{
    let _len = ledger.len();
    match object_record(ledger, &logs.carriers, id) {
        Some(i) => read_record(&logs.journal, disk, i, buf),
        None => unreachable!(),
    }
}

/// Reads the payload of the edge to the front of `buf`, and gives its size. At every moment the areas hold the same.
pub(crate) fn read_edge_at<G: GraphStore, D: Disk>(
    ledger: &Ledger<G>,
    logs: &Logs,
    disk: &mut D,
    key: EdgeKey,
    buf: &mut [u8],
) -> Result<u16, Failed>
    requires logs { KeepsLogs ledger.now.rules ledger.now.history logs.now.journal logs.now.vault }
    requires carriers { KeepsCarriers ledger.now.rules ledger.now.history logs.now.carriers.items }
    requires stands { Plain (D.told disk.old) (D.honest disk.old) → StandIn logs.now.journal.area logs.now.journal.sizes (D.may_leave disk.old) }
    requires there { IsTrue (is_some (edge_at (state_of ledger.now).graph key)) }
    requires room { LIMIT ≤ length buf.old }

    ensures size { IfOk result (λ n. (at : ℕ) × IsEdgeAt (edge_at (state_of ledger.now).graph key) at n) }
    ensures payload { IfOk result (λ n. Plain (D.told disk.old) (D.honest disk.old) → (e : Payloads)
        → RestIn ledger.now.rules ledger.now.history e (D.may_leave disk.old) → (at : ℕ)
        → IsEdgeAt (edge_at (state_of ledger.now).graph key) at n → take n buf.new ≡ payload_at e at) }
    ensures rest { IfOk result (λ n. drop n buf.new ≡ drop n buf.old) }

    ensures crash { Plain (D.told disk.old) (D.honest disk.old) → (rules : RuleSet) (history : List Entry) (e : Payloads)
        → RestIn rules history e (D.may_leave disk.old)
        → Leaves D.moment D.may_leave D.left_since (Rests rules history e) disk.old disk.new }
    ensures seen { Plain (D.told disk.old) (D.honest disk.old) → D.seen disk.new ≡ D.seen disk.old }
    ensures any_moment { Plain (D.told disk.old) (D.honest disk.old)
        → Runs D.moment D.may_leave D.left_since Same disk.old disk.new }

    ensures kind { SameKind D.told D.honest D.order D.orders disk.old disk.new }
    ensures cause { HasCause (D.faults disk.old) (D.faults disk.new) result }
{
    let _len = ledger.len();
    match edge_record(ledger, &logs.carriers, key) {
        Some(i) => read_record(&logs.journal, disk, i, buf),
        None => unreachable!(),
    }
}
