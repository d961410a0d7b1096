//! The records of the journal, read as entries into a fold.
ghost use Rattle.std.specs.Prelude.{◌≡◌, ◌<◌, ◌≤◌, [], true, length, IfOk, IfErr, IfSome, IfNone};
ghost use Rattle.delf_disk.specs.Images.{Same};
ghost use Rattle.delf_disk.specs.Causes.{HasCause};
ghost use Rattle.delf_disk.specs.Plain.{Plain, SameKind};
ghost use Rattle.delf_disk.specs.Moments.{Runs};
ghost use Rattle.gate_log.specs.Logs.{Fronts, StandIn};
ghost use Rattle.delf_recovery.specs.Opening.{IsNotBad};
ghost use Rattle.delf_recovery.specs.Mending.{AreNoted};
ghost use Rattle.delf_recovery.specs.Reading.{CountsRead, IsRead, IsNoEntry, JudgesEntry, ReadsEntries, EndsWrong};

use crate::blank::note_blank;
use crate::fault::OpenFault;
use delf_book::Fold;
use delf_disk::{Disk, Failed};
use delf_model::{Entry, GraphStore, HEAD_LIMIT};
use entry_codec::read_entry;
use gate_log::GateLog;

/// The entry that record `i` spells; None where it spells none. It makes one disk call, or none where the head has more
/// than 128 bytes and so is no entry's.
pub(crate) fn entry_at<D: Disk>(
    log: &GateLog,
    disk: &mut D,
    i: u32,
) -> Result<Option<Entry>, Failed>
    requires inside { i < length log.now.sizes }
    requires fronts { Plain (D.told disk.old) (D.honest disk.old) → Fronts log.now.area log.now.sizes (D.seen disk.old) }

    ensures some { IfOk result (λ found. IfSome found (λ entry.
        IsRead (Plain (D.told disk.old) (D.honest disk.old)) log.now.area log.now.sizes i (D.seen disk.old) entry)) }
    ensures none { IfOk result (λ found. IfNone found
        (IsNoEntry (Plain (D.told disk.old) (D.honest disk.old)) log.now.area log.now.sizes i (D.seen disk.old))) }

    ensures seen { Plain (D.told disk.old) (D.honest disk.old) → D.seen disk.new ≡ D.seen disk.old }
    ensures any_moment { Plain (D.told disk.old) (D.honest disk.old)
        → Runs D.moment D.may_leave D.left_since Same disk.old disk.new }
    ensures kind { SameKind D.told D.honest D.order D.orders disk.old disk.new }
    ensures cause { HasCause (D.faults disk.old) (D.faults disk.new) result }
{
    let (head, payload) = log.sizes(i);
    if head as usize > HEAD_LIMIT {
        return Ok(None);
    }
    let mut buf = [0; HEAD_LIMIT];
    let len = log.read_front_head(disk, i, &mut buf)?;
    Ok(read_entry(&buf[..len as usize], u64::from(payload)))
}

/// Takes the entry of record `i` into the fold, and tells whether it does: false exactly where the record is that of no
/// entry that may come next.
pub(crate) fn take_record<G: GraphStore, D: Disk>(
    fold: &mut Fold<G>,
    log: &GateLog,
    disk: &mut D,
    i: u32,
) -> Result<bool, OpenFault>
    requires inside { i < length log.now.sizes }
    requires fronts { Plain (D.told disk.old) (D.honest disk.old) → Fronts log.now.area log.now.sizes (D.seen disk.old) }

    ensures fault { IfErr result IsNotBad }
    ensures judged { IfOk result (JudgesEntry (Plain (D.told disk.old) (D.honest disk.old)) log.now.area log.now.sizes i (D.seen disk.old) fold.old fold.new) }

    ensures seen { Plain (D.told disk.old) (D.honest disk.old) → D.seen disk.new ≡ D.seen disk.old }
    ensures any_moment { Plain (D.told disk.old) (D.honest disk.old)
        → Runs D.moment D.may_leave D.left_since Same disk.old disk.new }
    ensures kind { SameKind D.told D.honest D.order D.orders disk.old disk.new }
    ensures cause { CountsRead (D.faults disk.old) (D.faults disk.new) result }
{
    let Some(entry) = entry_at(log, disk, i)? else {
        return Ok(false);
    };
    let (_, payload) = log.sizes(i);
    Ok(fold.take(&entry, payload as u16)?)
}

/// Takes the entries of the records into a fold of the blank history, up to the first record that is that of no entry
/// that may come next, and gives their number. Of an area that is whole it notes which of the payloads are zeros.
pub(crate) fn read_entries<G: GraphStore, D: Disk>(
    fold: &mut Fold<G>,
    log: &GateLog,
    whole: bool,
    notes: &mut [bool],
    disk: &mut D,
) -> Result<u32, OpenFault>
    requires blank { fold.old.history ≡ [] }
    requires room { length notes.old ≡ length log.now.sizes }
    requires stands { whole ≡ true → Plain (D.told disk.old) (D.honest disk.old) → StandIn log.now.area log.now.sizes (D.may_leave disk.old) }
    requires noted { Plain (D.told disk.old) (D.honest disk.old) → AreNoted log.now.area (D.seen disk.old) notes.old }
    requires fronts { Plain (D.told disk.old) (D.honest disk.old) → Fronts log.now.area log.now.sizes (D.seen disk.old) }

    ensures fault { IfErr result IsNotBad }
    ensures rules { IfOk result (λ n. fold.new.rules ≡ fold.old.rules) }
    ensures read { IfOk result (λ n. ReadsEntries (Plain (D.told disk.old) (D.honest disk.old)) log.now.area log.now.sizes (D.seen disk.old)
        fold.new.rules fold.new.history n) }
    ensures ended { IfOk result (λ n. EndsWrong (Plain (D.told disk.old) (D.honest disk.old)) log.now.area log.now.sizes (D.seen disk.old)
        fold.new.rules fold.new.history n) }
    ensures noted { IfOk result (λ n. Plain (D.told disk.old) (D.honest disk.old) → AreNoted log.now.area (D.seen disk.old) notes.new) }

    ensures seen { Plain (D.told disk.old) (D.honest disk.old) → D.seen disk.new ≡ D.seen disk.old }
    ensures any_moment { Plain (D.told disk.old) (D.honest disk.old)
        → Runs D.moment D.may_leave D.left_since Same disk.old disk.new }
    ensures kind { SameKind D.told D.honest D.order D.orders disk.old disk.new }
    ensures cause { CountsRead (D.faults disk.old) (D.faults disk.new) result }
{
    let count = log.count();
    for i in 0..count {
        if !take_record(fold, log, disk, i)? {
            return Ok(i);
        }
        note_blank(log, whole, disk, i, notes)?;
    }
    Ok(count)
}
