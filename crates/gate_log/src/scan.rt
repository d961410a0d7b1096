//! Going through the records of an area.
ghost use Rattle.std.specs.Prelude.{◌≡◌, ◌+◌, ◌^◌, ◌<◌, ◌≤◌, ℕ, true, false, length, take, IfOk, IfErr, IfSome, vec_len};
ghost use Rattle.delf_disk.specs.Areas.{area_of};
ghost use Rattle.delf_disk.specs.Images.{Same};
ghost use Rattle.delf_disk.specs.Plain.{Plain, SameKind};
ghost use Rattle.delf_disk.specs.Moments.{Runs};
ghost use Rattle.gate_log.specs.declared.fault.LogFault.TheVariants.{NotOurs, Broken};
ghost use Rattle.gate_log.specs.Opening.{IsForeign, IsBroken, OnlyFault, CountsFailure};
ghost use Rattle.gate_log.specs.Looking.{Looked, Scanned, ScannedFront};
ghost use Rattle.gate_log.specs.Places.{AreTied};
ghost use Rattle.gate_log.specs.Unsynced.{LosesNone};

use crate::commit::OPEN;
use crate::fault::LogFault;
use crate::lengths::{Lengths, lengths_of};
use delf_disk::{Area, Disk};
use std::alloc::Global;

/// The most records that a log counts.
const MOST_RECORDS: usize = u32::MAX as usize;

/// An area this long or longer is not read: the places behind its end would come near the greatest `u64`.
const FARTHEST: u64 = 1 << 62;

/// Where a record stands: the place of its gate, and the lengths of its head and payload.
#[derive(Clone, Copy)]
pub(crate) struct Place {
    pub(crate) gate: u64,
    pub(crate) head: u16,
    pub(crate) payload: u32,
}

/// The places of the records of an area, and that of the gate behind them: a closed one where the area is whole, else an
/// open one behind which there is no record with its gate.
#[derive(Drop)]
pub(crate) struct Scan {
    pub(crate) places: Vec<Place>,
    pub(crate) end: u64,
    pub(crate) whole: bool,
}

/// Looks at one gate and the lengths behind it. `None` if it is closed.
pub(crate) fn look<D: Disk>(
    disk: &mut D,
    area: Area,
    at: u64,
    len: u64,
) -> Result<Option<Lengths>, LogFault>
    requires within { at < len }
    requires len { Plain (D.told disk.old) (D.honest disk.old) → len ≡ length (area_of area (D.seen disk.old)) }

    ensures looked { Plain (D.told disk.old) (D.honest disk.old) → Looked at (area_of area (D.seen disk.old)) result }
    ensures within { IfOk result (λ found. IfSome found (λ lengths. at + 7 + lengths.head + lengths.payload < len)) }
    ensures seen { Plain (D.told disk.old) (D.honest disk.old) → D.seen disk.new ≡ D.seen disk.old }
    ensures any_moment { Plain (D.told disk.old) (D.honest disk.old)
        → Runs D.moment D.may_leave D.left_since Same disk.old disk.new }
    ensures none_lost { Plain (D.told disk.old) (D.honest disk.old)
        → LosesNone D.moment D.may_leave D.left_since disk.old disk.new }
    ensures kind { SameKind D.told D.honest D.order D.orders disk.old disk.new }
    ensures cause { CountsFailure (D.faults disk.old) (D.faults disk.new) result }
{
    let mut gate = [0u8; 1];
    disk.read(area, at, &mut gate)?;
    if gate[0] != OPEN {
        return Ok(None);
    }
    let room = len - at - 1;
    if room < 6 {
        return Err(LogFault::Broken { at });
    }
    let mut start = [0u8; 6];
    disk.read(area, at + 1, &mut start)?;
    match lengths_of(&start, room) {
        None => Err(LogFault::Broken { at }),
        Some(lengths) => Ok(Some(lengths)),
    }
}

/// Goes through the records of an area that is longer than nine bytes, up to the first gate that is closed or behind which
/// there is no record.
pub(crate) fn scan_area<D: Disk>(
    alloc: Global,
    disk: &mut D,
    area: Area,
    len: u64,
) -> Result<Scan, LogFault>
    requires longer { 9 < len }
    requires small { len < 2 ^ 62 }
    requires len { Plain (D.told disk.old) (D.honest disk.old) → len ≡ length (area_of area (D.seen disk.old)) }

    ensures scanned { Plain (D.told disk.old) (D.honest disk.old)
        → ScannedFront (take 8 (area_of area (D.seen disk.old))) (area_of area (D.seen disk.old)) result }
    ensures tied { IfOk result (λ scan. AreTied scan.places.items scan.end) }
    ensures count { IfOk result (λ scan. vec_len scan.places < 2 ^ 32) }
    ensures within { IfOk result (λ scan. scan.end < len) }
    ensures seen { Plain (D.told disk.old) (D.honest disk.old) → D.seen disk.new ≡ D.seen disk.old }
    ensures any_moment { Plain (D.told disk.old) (D.honest disk.old)
        → Runs D.moment D.may_leave D.left_since Same disk.old disk.new }
    ensures none_lost { Plain (D.told disk.old) (D.honest disk.old)
        → LosesNone D.moment D.may_leave D.left_since disk.old disk.new }
    ensures kind { SameKind D.told D.honest D.order D.orders disk.old disk.new }
    ensures cause { CountsFailure (D.faults disk.old) (D.faults disk.new) result }
{
    let mut places = Vec::new(alloc);
    let mut at = 8;
    'gates: loop {
        let found = match look(disk, area, at, len) {
            Err(LogFault::Broken { .. }) => {
                return Ok(Scan {
                    places,
                    end: at,
                    whole: false,
                });
            }
            Err(fault) => return Err(fault),
            Ok(found) => found,
        };
        let Some(lengths) = found else {
            return Ok(Scan {
                places,
                end: at,
                whole: true,
            });
        };
        if places.len() >= MOST_RECORDS {
            return Err(LogFault::OutOfMemory);
        }
        places.push(Place {
            gate: at,
            head: lengths.head,
            payload: lengths.payload,
        })?;
        at += 7 + u64::from(lengths.head) + u64::from(lengths.payload);
    }
}

/// Reads the mark of an area that is longer than nine bytes, and goes through its records.
pub(crate) fn find_front<D: Disk>(
    alloc: Global,
    disk: &mut D,
    area: Area,
    mark: &[u8; 8],
    len: u64,
) -> Result<Scan, LogFault>
    requires longer { 9 < len }
    requires len { Plain (D.told disk.old) (D.honest disk.old) → len ≡ length (area_of area (D.seen disk.old)) }

    ensures scanned { Plain (D.told disk.old) (D.honest disk.old) → ScannedFront mark.now (area_of area (D.seen disk.old)) result }
    ensures tied { IfOk result (λ scan. AreTied scan.places.items scan.end) }
    ensures count { IfOk result (λ scan. vec_len scan.places < 2 ^ 32) }
    ensures reach { IfOk result (λ scan. scan.end < 2 ^ 62) }
    ensures seen { Plain (D.told disk.old) (D.honest disk.old) → D.seen disk.new ≡ D.seen disk.old }
    ensures any_moment { Plain (D.told disk.old) (D.honest disk.old)
        → Runs D.moment D.may_leave D.left_since Same disk.old disk.new }
    ensures none_lost { Plain (D.told disk.old) (D.honest disk.old)
        → LosesNone D.moment D.may_leave D.left_since disk.old disk.new }
    ensures kind { SameKind D.told D.honest D.order D.orders disk.old disk.new }
    ensures cause { CountsFailure (D.faults disk.old) (D.faults disk.new) result }
{
    if len >= FARTHEST {
        return Err(LogFault::OutOfMemory);
    }
    let mut found = [0u8; 8];
    disk.read(area, 0, &mut found)?;
    if found != *mark {
        return Err(LogFault::NotOurs);
    }
    scan_area(alloc, disk, area, len)
}

/// The same for an area that has to be whole.
pub(crate) fn find<D: Disk>(
    alloc: Global,
    disk: &mut D,
    area: Area,
    mark: &[u8; 8],
    len: u64,
) -> Result<Scan, LogFault>
    requires longer { 9 < len }
    requires len { Plain (D.told disk.old) (D.honest disk.old) → len ≡ length (area_of area (D.seen disk.old)) }

    ensures scanned { Plain (D.told disk.old) (D.honest disk.old) → Scanned mark.now (area_of area (D.seen disk.old)) result }
    ensures foreign { Plain (D.told disk.old) (D.honest disk.old) → IsForeign mark.now (area_of area (D.seen disk.old))
        → OnlyFault NotOurs result }
    ensures broken { Plain (D.told disk.old) (D.honest disk.old) → (at : ℕ) → IsBroken mark.now (area_of area (D.seen disk.old)) at
        → OnlyFault (Broken at) result }
    ensures tied { IfOk result (λ scan. AreTied scan.places.items scan.end) }
    ensures count { IfOk result (λ scan. vec_len scan.places < 2 ^ 32) }
    ensures reach { IfOk result (λ scan. scan.end < 2 ^ 62) }
    ensures seen { Plain (D.told disk.old) (D.honest disk.old) → D.seen disk.new ≡ D.seen disk.old }
    ensures any_moment { Plain (D.told disk.old) (D.honest disk.old)
        → Runs D.moment D.may_leave D.left_since Same disk.old disk.new }
    ensures none_lost { Plain (D.told disk.old) (D.honest disk.old)
        → LosesNone D.moment D.may_leave D.left_since disk.old disk.new }
    ensures kind { SameKind D.told D.honest D.order D.orders disk.old disk.new }
    ensures cause { CountsFailure (D.faults disk.old) (D.faults disk.new) result }
{
    match find_front(alloc, disk, area, mark, len) {
        Err(fault) => Err(fault),
        Ok(scan) => whole(scan),
    }
}

/// The scan itself, where it is of a whole area.
fn whole(scan: Scan) -> Result<Scan, LogFault>
    ensures ok { IfOk result (λ it. (it ≡ scan) × (scan.whole ≡ true)) }
    ensures err { IfErr result (λ fault. (fault ≡ Broken scan.end) × (scan.whole ≡ false)) }
{
    if scan.whole {
        Ok(scan)
    } else {
        Err(LogFault::Broken { at: scan.end })
    }
}
