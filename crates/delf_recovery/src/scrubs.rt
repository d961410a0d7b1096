//! Zeros over the payloads that are not needed.
ghost use Rattle.std.specs.Prelude.{◌≡◌, ◌<◌, true, ℕ, length, OnOk};
ghost use Rattle.delf_disk.specs.Areas.{rest_of};
ghost use Rattle.delf_disk.specs.Causes.{HasCause};
ghost use Rattle.delf_disk.specs.Plain.{Plain, SameKind};
ghost use Rattle.delf_disk.specs.Moments.{Leaves};
ghost use Rattle.gate_log.specs.Logs.{StandIn};
ghost use Rattle.delf_model.specs.Payloads.{Payloads};
ghost use Rattle.payload_laws.specs.Holders.{IsLive};
ghost use Rattle.ledger.specs.Ledgers.{state_of};
ghost use Rattle.delf_book.specs.Reads.{carrier_in};
ghost use Rattle.delf_book.specs.Writing.{Rests};
ghost use Rattle.store_laws.specs.Steps.{KeepsOthers};
ghost use Rattle.store_laws.specs.Moves.{RestIn};
ghost use Rattle.delf_recovery.specs.Mending.{Resting, IsZero, AreNoted};

use crate::blank::is_noted;
use delf_book::Fold;
use delf_disk::{Area, Disk, Failed};
use delf_model::GraphStore;
use gate_log::GateLog;

/// Writes zeros over the payload of record `i`, unless it is needed or known to be zeros. It does not sync.
pub(crate) fn scrub_record<G: GraphStore, D: Disk>(
    fold: &Fold<G>,
    log: &mut GateLog,
    area: Area,
    disk: &mut D,
    i: u32,
    blank: bool,
) -> Result<(), Failed>
    requires inside { i < length log.old.sizes }
    requires area { log.old.area ≡ area }
    requires rests { Plain (D.told disk.old) (D.honest disk.old) → Resting fold.now.rules fold.now.history (D.may_leave disk.old) }
    requires stands { Plain (D.told disk.old) (D.honest disk.old) → StandIn log.old.area log.old.sizes (D.may_leave disk.old) }
    requires blank { blank ≡ true → Plain (D.told disk.old) (D.honest disk.old) → IsZero (carrier_in area i) (D.seen disk.old) }

    ensures area { log.new.area ≡ log.old.area }
    ensures sizes { log.new.sizes ≡ log.old.sizes }
    ensures stands { Plain (D.told disk.old) (D.honest disk.old) → StandIn log.new.area log.new.sizes (D.may_leave disk.new) }
    ensures crash { Plain (D.told disk.old) (D.honest disk.old) → (e : Payloads) → RestIn fold.now.rules fold.now.history e (D.may_leave disk.old)
        → Leaves D.moment D.may_leave D.left_since (Rests fold.now.rules fold.now.history e) disk.old disk.new }
    ensures zero { OnOk result (Plain (D.told disk.old) (D.honest disk.old) → (IsLive (state_of fold.now) (carrier_in area i) → ⊥)
        → IsZero (carrier_in area i) (D.seen disk.new)) }
    ensures stays_zero { OnOk result (Plain (D.told disk.old) (D.honest disk.old) → IsZero (carrier_in area i) (D.seen disk.old)
        → IsZero (carrier_in area i) (D.seen disk.new)) }
    ensures others { OnOk result (Plain (D.told disk.old) (D.honest disk.old) → KeepsOthers (carrier_in area i) (D.seen disk.old) (D.seen disk.new)) }
    ensures other_area { OnOk result (Plain (D.told disk.old) (D.honest disk.old) → rest_of area (D.seen disk.new) ≡ rest_of area (D.seen disk.old)) }

    ensures kind { SameKind D.told D.honest D.order D.orders disk.old disk.new }
    ensures cause { HasCause (D.faults disk.old) (D.faults disk.new) result }
{
    if blank {
        return Ok(());
    }
    if fold.keeps(area, i) {
        return Ok(());
    }
    log.scrub(disk, i)
}

/// Writes zeros over each payload of the area that is neither needed nor noted as zeros. It does not sync. At every moment the areas
/// hold the same.
pub(crate) fn scrub_dead<G: GraphStore, D: Disk>(
    fold: &Fold<G>,
    log: &mut GateLog,
    notes: &[bool],
    area: Area,
    disk: &mut D,
) -> Result<(), Failed>
    requires area { log.old.area ≡ area }
    requires noted { Plain (D.told disk.old) (D.honest disk.old) → AreNoted area (D.seen disk.old) notes.now }
    requires rests { Plain (D.told disk.old) (D.honest disk.old) → Resting fold.now.rules fold.now.history (D.may_leave disk.old) }
    requires stands { Plain (D.told disk.old) (D.honest disk.old) → StandIn log.old.area log.old.sizes (D.may_leave disk.old) }

    ensures area { log.new.area ≡ log.old.area }
    ensures sizes { log.new.sizes ≡ log.old.sizes }
    ensures crash { Plain (D.told disk.old) (D.honest disk.old) → (e : Payloads) → RestIn fold.now.rules fold.now.history e (D.may_leave disk.old)
        → Leaves D.moment D.may_leave D.left_since (Rests fold.now.rules fold.now.history e) disk.old disk.new }
    ensures zero { OnOk result (Plain (D.told disk.old) (D.honest disk.old) → (i : ℕ) → (IsLive (state_of fold.now) (carrier_in area i) → ⊥)
        → IsZero (carrier_in area i) (D.seen disk.new)) }
    ensures other_area { OnOk result (Plain (D.told disk.old) (D.honest disk.old) → rest_of area (D.seen disk.new) ≡ rest_of area (D.seen disk.old)) }

    ensures kind { SameKind D.told D.honest D.order D.orders disk.old disk.new }
    ensures cause { HasCause (D.faults disk.old) (D.faults disk.new) result }
{
    let count = log.count();
    for i in 0..count {
        scrub_record(fold, log, area, disk, i, is_noted(notes, i))?;
    }
    Ok(())
}
