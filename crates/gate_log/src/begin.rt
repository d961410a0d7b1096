//! The first bytes of an area.
ghost use Rattle.std.specs.Prelude.{◌≡◌, ◌≤◌, [], ◌∷◌, ◌++◌, length, OnOk};
ghost use Rattle.delf_disk.specs.Areas.{area_of, rest_of};
ghost use Rattle.delf_disk.specs.Images.{Torn, Only};
ghost use Rattle.delf_disk.specs.Causes.{HasCause};
ghost use Rattle.delf_disk.specs.Plain.{Plain, SameKind};
ghost use Rattle.delf_disk.specs.Moments.{Runs};

use crate::line::CLOSED;
use delf_disk::{Area, Disk, Failed};

/// The place of the first gate, behind the mark.
pub(crate) const FIRST_GATE: u64 = 8;

/// An area of at most so many bytes holds no record.
pub(crate) const BLANK: u64 = 9;

/// Writes the mark and a closed gate into an area that holds no record.
pub(crate) fn begin<D: Disk>(disk: &mut D, area: Area, mark: &[u8; 8]) -> Result<(), Failed>
    requires { Plain (D.told disk.old) (D.honest disk.old) → length (area_of area (D.seen disk.old)) ≤ 9 }

    ensures eight { length mark.now ≡ 8 }
    ensures begun { OnOk result (Plain (D.told disk.old) (D.honest disk.old)
        → area_of area (D.seen disk.new) ≡ mark.now ++ 0 ∷ []) }
    ensures other { OnOk result (Plain (D.told disk.old) (D.honest disk.old)
        → rest_of area (D.seen disk.new) ≡ rest_of area (D.seen disk.old)) }
    ensures durable { OnOk result (Plain (D.told disk.old) (D.honest disk.old)
        → Only (D.seen disk.new) (D.may_leave disk.new)) }
    ensures any_moment { Plain (D.told disk.old) (D.honest disk.old)
        → Runs D.moment D.may_leave D.left_since (Torn area 0 9) disk.old disk.new }
    ensures kind { SameKind D.told D.honest D.order D.orders disk.old disk.new }
    ensures cause { HasCause (D.faults disk.old) (D.faults disk.new) result }
{
    let mut start = [CLOSED; 9];
    start[..8].copy_from_slice(mark);
    disk.write(area, 0, &start)?;
    disk.sync()
}
