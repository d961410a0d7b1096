//! The one way in which a gate opens.
ghost use Rattle.std.specs.Prelude.{◌≡◌, ◌+◌, ◌^◌, ◌<◌, ℕ, length, OnOk};
ghost use Rattle.delf_disk.specs.Images.{Only};
ghost use Rattle.delf_disk.specs.Causes.{HasCause};
ghost use Rattle.delf_disk.specs.Plain.{Plain, SameKind};
ghost use Rattle.delf_disk.specs.Moments.{Runs};
ghost use Rattle.gate_log.specs.Gates.{ShutIn, MayOpen, Opens};

use delf_disk::{Area, Disk, Failed};

/// The value of an open gate. Every other value is closed.
pub(crate) const OPEN: u8 = 0xA5;

/// Writes a line behind a closed gate and opens the gate once the line is on the disk.
pub(crate) fn commit<D: Disk>(
    disk: &mut D,
    area: Area,
    gate: u64,
    line: &[u8],
) -> Result<(), Failed>
    requires room { gate + 1 < 2 ^ 64 }
    requires shut { Plain (D.told disk.old) (D.honest disk.old) → ShutIn area gate (D.may_leave disk.old) }

    ensures any_moment { Plain (D.told disk.old) (D.honest disk.old)
        → Runs D.moment D.may_leave D.left_since (MayOpen area gate line.now) disk.old disk.new }
    ensures opens { OnOk result (Plain (D.told disk.old) (D.honest disk.old)
        → Opens area gate line.now (D.seen disk.old) (D.seen disk.new)) }
    ensures durable { OnOk result (Plain (D.told disk.old) (D.honest disk.old)
        → Only (D.seen disk.new) (D.may_leave disk.new)) }
    ensures kind { SameKind D.told D.honest D.order D.orders disk.old disk.new }
    ensures cause { HasCause (D.faults disk.old) (D.faults disk.new) result }
{
    disk.write(area, gate + 1, line)?;
    disk.sync()?;
    disk.write(area, gate, &[OPEN])?;
    disk.sync()
}
