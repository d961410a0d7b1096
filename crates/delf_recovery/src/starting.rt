//! The start of a log, with the faults of an opening.
ghost use Rattle.std.specs.Prelude.{◌≡◌, ◌≤◌, ◌<◌, true, false, length, IfOk, IfErr, OnOk};
ghost use Rattle.delf_disk.specs.Areas.{area_of};
ghost use Rattle.delf_disk.specs.Images.{Torn, Same, Only};
ghost use Rattle.delf_disk.specs.Plain.{Plain, SameKind};
ghost use Rattle.delf_disk.specs.Moments.{Runs};
ghost use Rattle.gate_log.specs.Opening.{Starts, BreaksOff};
ghost use Rattle.delf_recovery.specs.Reading.{CountsRead, ShowsForeign};

use crate::fault::OpenFault;
use delf_disk::{Area, Disk};
use gate_log::{Front, GateLog, LogFault};
use std::alloc::Global;

/// What the journal area begins with.
pub(crate) const JOURNAL_MARK: [u8; 8] = [b'D', b'E', b'L', b'F', b'J', b'R', b'N', b'1'];

/// What the vault area begins with.
pub(crate) const VAULT_MARK: [u8; 8] = [b'D', b'E', b'L', b'F', b'V', b'L', b'T', b'1'];

/// Starts the log of an area, also of one that breaks off. An area of another kind is bad at its first byte.
pub(crate) fn start_area<D: Disk>(
    alloc: Global,
    disk: &mut D,
    area: Area,
    mark: [u8; 8],
) -> Result<Front, OpenFault>
    ensures area { IfOk result (λ front. front.log.area ≡ area) }
    ensures starts { IfOk result (λ front. front.whole ≡ true → Plain (D.told disk.old) (D.honest disk.old)
        → Starts area mark front.log.sizes (D.seen disk.old) (D.seen disk.new)) }
    ensures breaks { IfOk result (λ front. front.whole ≡ false → Plain (D.told disk.old) (D.honest disk.old)
        → BreaksOff mark front.log.sizes (area_of area (D.seen disk.old))) }
    ensures bad { IfErr result (λ fault. Plain (D.told disk.old) (D.honest disk.old)
        → ShowsForeign area mark (area_of area (D.seen disk.old)) fault) }

    ensures durable { OnOk result (Plain (D.told disk.old) (D.honest disk.old)
        → Only (D.seen disk.old) (D.may_leave disk.old) → Only (D.seen disk.new) (D.may_leave disk.new)) }
    ensures any_moment_blank { Plain (D.told disk.old) (D.honest disk.old) → length (area_of area (D.seen disk.old)) ≤ 9
        → Runs D.moment D.may_leave D.left_since (Torn area 0 9) disk.old disk.new }
    ensures any_moment { Plain (D.told disk.old) (D.honest disk.old) → 9 < length (area_of area (D.seen disk.old))
        → Runs D.moment D.may_leave D.left_since Same disk.old disk.new }
    ensures unwritten { Plain (D.told disk.old) (D.honest disk.old) → 9 < length (area_of area (D.seen disk.old))
        → D.seen disk.new ≡ D.seen disk.old }

    ensures kind { SameKind D.told D.honest D.order D.orders disk.old disk.new }
    ensures cause { CountsRead (D.faults disk.old) (D.faults disk.new) result }
{
    match GateLog::start_front(alloc, disk, area, mark) {
        Ok(front) => Ok(front),
        Err(LogFault::Failed) => Err(OpenFault::DiskFault),
        Err(LogFault::NotOurs) => Err(OpenFault::BadStore { area, at: 0 }),
        Err(LogFault::Broken { at }) => Err(OpenFault::BadStore { area, at }),
        Err(LogFault::OutOfMemory) => Err(OpenFault::OutOfMemory),
    }
}

/// A log that was read, and of which of its records it is noted that their payloads are zeros.
#[derive(Drop)]
pub(crate) struct ReadLog {
    pub(crate) log: GateLog,
    pub(crate) notes: Vec<bool>,
}
