//! Zeros over a range of an area.
ghost use Rattle.std.specs.Prelude.{◌≡◌, ◌+◌, ◌-◌, ◌^◌, ◌≤◌, ◌<◌, length, replicate, OnOk};
ghost use Rattle.delf_disk.specs.Areas.{area_of};
ghost use Rattle.delf_disk.specs.Images.{Torn, Written};
ghost use Rattle.delf_disk.specs.Causes.{HasCause};
ghost use Rattle.delf_disk.specs.Plain.{Plain, SameKind};
ghost use Rattle.delf_disk.specs.Moments.{Runs};

use delf_disk::{Area, Disk, Failed};

/// The most zeros of one write.
const PIECE: u64 = 65_536;

/// Lent to each write: it takes no memory, and no room on the stack.
static ZEROS: [u8; PIECE as usize] = [0; PIECE as usize];

/// Writes zeros over a range, at most 65,536 in one write, and makes no call where the range is empty.
pub(crate) fn wipe<D: Disk>(disk: &mut D, area: Area, at: u64, n: u64) -> Result<(), Failed>
    requires reach { at + n < 2 ^ 64 }
    requires within { Plain (D.told disk.old) (D.honest disk.old) → at + n ≤ length (area_of area (D.seen disk.old)) }

    ensures written { OnOk result (Plain (D.told disk.old) (D.honest disk.old)
        → Written area at (replicate n 0) (D.seen disk.old) (D.seen disk.new)) }
    ensures any_moment { Plain (D.told disk.old) (D.honest disk.old)
        → Runs D.moment D.may_leave D.left_since (Torn area at n) disk.old disk.new }
    ensures kind { SameKind D.told D.honest D.order D.orders disk.old disk.new }
    ensures cause { HasCause (D.faults disk.old) (D.faults disk.new) result }
{
    let mut done = 0;
    'pieces: while done < n {
        let piece = (n - done).min(PIECE);
        put_zeros(disk, area, at + done, piece)?;
        done += piece;
    }
    Ok(())
}

fn put_zeros<D: Disk>(disk: &mut D, area: Area, at: u64, n: u64) -> Result<(), Failed>
    requires piece { n ≤ 65536 }
    requires within { Plain (D.told disk.old) (D.honest disk.old) → at ≤ length (area_of area (D.seen disk.old)) }

    ensures written { OnOk result (Plain (D.told disk.old) (D.honest disk.old)
        → Written area at (replicate n 0) (D.seen disk.old) (D.seen disk.new)) }
    ensures any_moment { Plain (D.told disk.old) (D.honest disk.old)
        → Runs D.moment D.may_leave D.left_since (Torn area at n) disk.old disk.new }
    ensures kind { SameKind D.told D.honest D.order D.orders disk.old disk.new }
    ensures cause { HasCause (D.faults disk.old) (D.faults disk.new) result }
{
    disk.write(area, at, &ZEROS[..n as usize])
}

/// Writes zeros from the byte behind a gate to the end of the area.
pub(crate) fn wipe_tail<D: Disk>(disk: &mut D, area: Area, gate: u64) -> Result<(), Failed>
    requires reach { gate < 2 ^ 63 }
    requires within { Plain (D.told disk.old) (D.honest disk.old) → gate < length (area_of area (D.seen disk.old)) }

    ensures written { OnOk result (Plain (D.told disk.old) (D.honest disk.old)
        → Written area (gate + 1) (replicate (length (area_of area (D.seen disk.old)) - (gate + 1)) 0) (D.seen disk.old) (D.seen disk.new)) }
    ensures any_moment { Plain (D.told disk.old) (D.honest disk.old)
        → Runs D.moment D.may_leave D.left_since (Torn area (gate + 1) (length (area_of area (D.seen disk.old)) - (gate + 1))) disk.old disk.new }
    ensures kind { SameKind D.told D.honest D.order D.orders disk.old disk.new }
    ensures cause { HasCause (D.faults disk.old) (D.faults disk.new) result }
{
    let len = disk.len(area)?;
    wipe(disk, area, gate + 1, len.saturating_sub(gate + 1))
}
