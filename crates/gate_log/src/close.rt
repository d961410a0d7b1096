//! The one way in which a gate closes.
ghost use Rattle.std.specs.Prelude.{◌≡◌, ◌<◌, ◌≤◌, length, OnOk};
ghost use Rattle.delf_disk.specs.Areas.{area_of};
ghost use Rattle.delf_disk.specs.Images.{Only};
ghost use Rattle.delf_disk.specs.Causes.{HasCause};
ghost use Rattle.delf_disk.specs.Plain.{Plain, SameKind};
ghost use Rattle.delf_disk.specs.Moments.{Runs};
ghost use Rattle.gate_log.specs.Gates.{MayChange, Closes};

use crate::line::CLOSED;
use delf_disk::{Area, Disk, Failed};

/// Closes a gate, and syncs.
pub(crate) fn close<D: Disk>(disk: &mut D, area: Area, gate: u64) -> Result<(), Failed>
    requires { Plain (D.told disk.old) (D.honest disk.old) → gate < length (area_of area (D.seen disk.old)) }

    ensures closes { OnOk result (Plain (D.told disk.old) (D.honest disk.old)
        → Closes area gate (D.seen disk.old) (D.seen disk.new)) }
    ensures durable { OnOk result (Plain (D.told disk.old) (D.honest disk.old)
        → Only (D.seen disk.new) (D.may_leave disk.new)) }
    ensures any_moment { Plain (D.told disk.old) (D.honest disk.old)
        → Runs D.moment D.may_leave D.left_since (MayChange area gate) disk.old disk.new }
    ensures kind { SameKind D.told D.honest D.order D.orders disk.old disk.new }
    ensures cause { HasCause (D.faults disk.old) (D.faults disk.new) result }
{
    disk.write(area, gate, &[CLOSED])?;
    disk.sync()
}
