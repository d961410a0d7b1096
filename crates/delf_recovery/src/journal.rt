//! The journal, read whole.
ghost use Rattle.std.specs.Prelude.{◌≡◌, ◌<◌, [], List, length, IfOk, IfErr, OnOk};
ghost use Rattle.delf_disk.specs.declared.area.Area.TheVariants.{Journal as JournalArea};
ghost use Rattle.delf_disk.specs.Images.{Same, Only};
ghost use Rattle.delf_disk.specs.Plain.{Plain, SameKind};
ghost use Rattle.delf_disk.specs.Moments.{Runs, Leaves};
ghost use Rattle.gate_log.specs.Opening.{Starts};
ghost use Rattle.delf_model.specs.declared.entry.Entry.{Entry};
ghost use Rattle.delf_model.specs.RuleSet.{RuleSet};
ghost use Rattle.delf_model.specs.State.{start};
ghost use Rattle.delf_model.specs.Legal.{Legal};
ghost use Rattle.delf_model.specs.Payloads.{Payloads};
ghost use Rattle.delf_book.specs.Keeping.{journal_sizes};
ghost use Rattle.store_laws.specs.Stores.{StandBut, journal_mark};
ghost use Rattle.entry_codec.specs.EntryHead.{AreEntries};
ghost use Rattle.opening_laws.specs.Places.{ReadsJournal};
ghost use Rattle.delf_recovery.specs.Mending.{AreNoted};
ghost use Rattle.delf_recovery.specs.Opening.{KeepsLonger};
ghost use Rattle.delf_recovery.specs.Reading.{CountsRead, ShowsBadJournal};

use crate::blank::no_notes;
use crate::entries::read_entries;
use crate::fault::OpenFault;
use crate::starting::{JOURNAL_MARK, ReadLog, start_area};
use delf_book::Fold;
use delf_disk::{Area, Disk};
use delf_model::GraphStore;
use std::alloc::Global;

/// Starts the journal and takes its entries into a fold of the blank history. It is bad at its first record that is not
/// whole, or is that of no entry that may come next.
pub(crate) fn read_journal<G: GraphStore, D: Disk>(
    alloc: Global,
    fold: &mut Fold<G>,
    disk: &mut D,
) -> Result<ReadLog, OpenFault>
    requires blank { fold.old.history ≡ [] }
    requires only { Plain (D.told disk.old) (D.honest disk.old) → Only (D.seen disk.old) (D.may_leave disk.old) }

    ensures rules { IfOk result (λ read. fold.new.rules ≡ fold.old.rules) }
    ensures area { IfOk result (λ read. read.log.area ≡ JournalArea) }
    ensures sizes { IfOk result (λ read. read.log.sizes ≡ journal_sizes (start fold.new.rules) fold.new.history) }
    ensures entries { IfOk result (λ read. AreEntries fold.new.history) }
    ensures legal { IfOk result (λ read. Legal fold.new.rules fold.new.history) }
    ensures reads { IfOk result (λ read. Plain (D.told disk.old) (D.honest disk.old)
        → ReadsJournal fold.new.rules fold.new.history (D.seen disk.old).journal) }
    ensures starts { IfOk result (λ read. Plain (D.told disk.old) (D.honest disk.old)
        → Starts JournalArea journal_mark read.log.sizes (D.seen disk.old) (D.seen disk.new)) }
    ensures only { IfOk result (λ read. Plain (D.told disk.old) (D.honest disk.old) → Only (D.seen disk.new) (D.may_leave disk.new)) }
    ensures noted { IfOk result (λ read. Plain (D.told disk.old) (D.honest disk.old) → AreNoted JournalArea (D.seen disk.new) read.notes.items) }
    ensures bad { IfErr result (λ fault. Plain (D.told disk.old) (D.honest disk.old)
        → ShowsBadJournal fold.old.rules (D.seen disk.old).journal fault) }

    ensures crash { Plain (D.told disk.old) (D.honest disk.old) → (rules : RuleSet) (history : List Entry) (e : Payloads)
        → StandBut rules history e (D.seen disk.old)
        → Leaves D.moment D.may_leave D.left_since (StandBut rules history e) disk.old disk.new }
    ensures longer { Plain (D.told disk.old) (D.honest disk.old)
        → Leaves D.moment D.may_leave D.left_since (KeepsLonger (D.seen disk.old)) disk.old disk.new }
    ensures any_moment { Plain (D.told disk.old) (D.honest disk.old) → 9 < length (D.seen disk.old).journal
        → Runs D.moment D.may_leave D.left_since Same disk.old disk.new }
    ensures unwritten { Plain (D.told disk.old) (D.honest disk.old) → 9 < length (D.seen disk.old).journal
        → D.seen disk.new ≡ D.seen disk.old }

    ensures kind { SameKind D.told D.honest D.order D.orders disk.old disk.new }
    ensures cause { CountsRead (D.faults disk.old) (D.faults disk.new) result }
{
    let front = start_area(alloc, disk, Area::Journal, JOURNAL_MARK)?;
    let mut notes = no_notes(alloc, front.log.count())?;
    let read = read_entries(fold, &front.log, front.whole, &mut notes, disk)?;
    if read < front.log.count() || !front.whole {
        return Err(OpenFault::BadStore {
            area: Area::Journal,
            at: front.log.gate(read),
        });
    }
    Ok(ReadLog {
        log: front.log,
        notes,
    })
}
