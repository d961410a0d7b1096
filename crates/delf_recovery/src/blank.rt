//! Which payloads are zeros already.
ghost use Rattle.std.specs.Prelude.{◌≡◌, ◌<◌, ◌≤◌, ◌↔◌, true, false, length, replicate, Some, slice_get, IsTrue, IfOk, OnOk};
ghost use Rattle.delf_disk.specs.Images.{Same};
ghost use Rattle.delf_disk.specs.Causes.{HasCause};
ghost use Rattle.delf_disk.specs.Plain.{Plain, SameKind};
ghost use Rattle.delf_disk.specs.Moments.{Runs};
ghost use Rattle.gate_log.specs.Logs.{StandIn};
ghost use Rattle.delf_book.specs.Reads.{carrier_in};
ghost use Rattle.delf_recovery.specs.Mending.{IsZero, AreNoted};

use delf_disk::{Disk, Failed};
use delf_model::LIMIT;
use gate_log::GateLog;
use std::alloc::{AllocError, Global};

static ZEROS: [u8; LIMIT] = [0; LIMIT];

fn are_zeros(bytes: &[u8]) -> bool
    requires { length bytes.now ≤ 512 }
    ensures { IsTrue result ↔ (bytes.now ≡ replicate (length bytes.now) 0) }
{
    bytes == &ZEROS[..bytes.len()]
}

/// So many notes, by which nothing is zeros.
pub(crate) fn no_notes(alloc: Global, n: u32) -> Result<Vec<bool>, AllocError>
    ensures { IfOk result (λ notes. notes.items ≡ replicate n false) }
{
    vec![in alloc; false; n as usize]
}

/// Whether the payload of record `i` is zeros, in an area that is whole. It makes one disk call, or none where the payload
/// is empty, or longer than that of any entry: of such a one, and where the area breaks off, it says no.
fn is_blank<D: Disk>(log: &GateLog, whole: bool, disk: &mut D, i: u32) -> Result<bool, Failed>
    requires inside { i < length log.now.sizes }
    requires stands { whole ≡ true → Plain (D.told disk.old) (D.honest disk.old) → StandIn log.now.area log.now.sizes (D.may_leave disk.old) }

    ensures zero { IfOk result (λ blank. blank ≡ true → Plain (D.told disk.old) (D.honest disk.old)
        → IsZero (carrier_in log.now.area i) (D.seen disk.old)) }

    ensures seen { Plain (D.told disk.old) (D.honest disk.old) → D.seen disk.new ≡ D.seen disk.old }
    ensures any_moment { Plain (D.told disk.old) (D.honest disk.old)
        → Runs D.moment D.may_leave D.left_since Same disk.old disk.new }
    ensures kind { SameKind D.told D.honest D.order D.orders disk.old disk.new }
    ensures cause { HasCause (D.faults disk.old) (D.faults disk.new) result }
{
    if !whole {
        return Ok(false);
    }
    let (_, payload) = log.sizes(i);
    if payload as usize > LIMIT {
        return Ok(false);
    }
    let mut found = [0; LIMIT];
    let len = log.read_payload(disk, i, &mut found)?;
    Ok(are_zeros(&found[..len as usize]))
}

/// Notes whether the payload of record `i` is zeros, where the area is whole.
pub(crate) fn note_blank<D: Disk>(
    log: &GateLog,
    whole: bool,
    disk: &mut D,
    i: u32,
    notes: &mut [bool],
) -> Result<(), Failed>
    requires inside { i < length log.now.sizes }
    requires room { i < length notes.old }
    requires stands { whole ≡ true → Plain (D.told disk.old) (D.honest disk.old) → StandIn log.now.area log.now.sizes (D.may_leave disk.old) }

    ensures room { length notes.new ≡ length notes.old }
    ensures noted { OnOk result (Plain (D.told disk.old) (D.honest disk.old)
        → AreNoted log.now.area (D.seen disk.old) notes.old → AreNoted log.now.area (D.seen disk.old) notes.new) }

    ensures seen { Plain (D.told disk.old) (D.honest disk.old) → D.seen disk.new ≡ D.seen disk.old }
    ensures any_moment { Plain (D.told disk.old) (D.honest disk.old)
        → Runs D.moment D.may_leave D.left_since Same disk.old disk.new }
    ensures kind { SameKind D.told D.honest D.order D.orders disk.old disk.new }
    ensures cause { HasCause (D.faults disk.old) (D.faults disk.new) result }
{
    notes[i as usize] = is_blank(log, whole, disk, i)?;
    Ok(())
}

/// Whether record `i` was noted.
pub(crate) fn is_noted(notes: &[bool], i: u32) -> bool
    ensures { result ≡ true → slice_get notes.now i ≡ Some true }
{
    matches!(notes.get(i as usize), Some(true))
}
