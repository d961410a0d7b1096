//! The records of the vault, held against the items of a fold.
ghost use Rattle.std.specs.Prelude.{◌≡◌, ◌<◌, ◌≤◌, ◌↔◌, true, length, IsTrue, IfOk, OnOk};
ghost use Rattle.delf_disk.specs.Images.{Same};
ghost use Rattle.delf_disk.specs.Causes.{HasCause};
ghost use Rattle.delf_disk.specs.Plain.{Plain, SameKind};
ghost use Rattle.delf_disk.specs.Moments.{Runs};
ghost use Rattle.entry_codec.specs.declared.limits.TheConstants.{LARGEST_PAYLOAD};
ghost use Rattle.entry_codec.specs.ItemHead.{item_size, IsTypeBounded};
ghost use Rattle.gate_log.specs.Logs.{Fronts, StandIn};
ghost use Rattle.ledger.specs.Ledgers.{state_of};
ghost use Rattle.entry_codec.specs.EntryHead.{AreEntries};
ghost use Rattle.delf_recovery.specs.Mending.{AreNoted};
ghost use Rattle.delf_recovery.specs.Reading.{JudgesItem, ReadsItems, EndsUnspelled};

use crate::blank::note_blank;
use delf_book::Fold;
use delf_disk::{Disk, Failed};
use delf_model::{GraphStore, HEAD_LIMIT, Item};
use entry_codec::write_item;
use gate_log::GateLog;

fn size_of(item: &Item) -> u32
    ensures { result ≡ item_size item.now }
{
    match item {
        Item::Object { row, .. } => u32::from(row.size),
        Item::Edge { row, .. } => u32::from(row.size),
    }
}

fn same_bytes(a: &[u8], b: &[u8]) -> bool
    ensures { IsTrue result ↔ (a.now ≡ b.now) }
{
    a == b
}

/// Whether record `i` is that of the item: the item's head, with whatever digest, and a payload of its size. It makes one
/// disk call, or none where the lengths are not the item's.
pub(crate) fn is_item_at<D: Disk>(
    log: &GateLog,
    disk: &mut D,
    i: u32,
    item: &Item,
) -> Result<bool, Failed>
    requires inside { i < length log.now.sizes }
    requires fronts { Plain (D.told disk.old) (D.honest disk.old) → Fronts log.now.area log.now.sizes (D.seen disk.old) }
    requires types { IsTypeBounded item.now }
    requires size { item_size item.now ≤ LARGEST_PAYLOAD }

    ensures judged { IfOk result (JudgesItem (Plain (D.told disk.old) (D.honest disk.old)) log.now.area log.now.sizes i (D.seen disk.old) item.now) }

    ensures seen { Plain (D.told disk.old) (D.honest disk.old) → D.seen disk.new ≡ D.seen disk.old }
    ensures any_moment { Plain (D.told disk.old) (D.honest disk.old)
        → Runs D.moment D.may_leave D.left_since Same disk.old disk.new }
    ensures kind { SameKind D.told D.honest D.order D.orders disk.old disk.new }
    ensures cause { HasCause (D.faults disk.old) (D.faults disk.new) result }
{
    let (head, payload) = log.sizes(i);
    if head as usize > HEAD_LIMIT || head < 32 || payload != size_of(item) {
        return Ok(false);
    }
    let mut found = [0; HEAD_LIMIT];
    let len = log.read_front_head(disk, i, &mut found)? as usize;
    let mut digest = [0; 32];
    digest.copy_from_slice(&found[len - 32..len]);
    let mut wanted = [0; HEAD_LIMIT];
    let wanted_len = write_item(item, &digest, &mut wanted) as usize;
    Ok(same_bytes(&found[..len], &wanted[..wanted_len]))
}

/// How many records from the first on are those of the items in turn. Of an area that is whole it notes which of their
/// payloads are zeros.
pub(crate) fn read_items<G: GraphStore, D: Disk>(
    fold: &Fold<G>,
    log: &GateLog,
    whole: bool,
    notes: &mut [bool],
    disk: &mut D,
) -> Result<u32, Failed>
    requires entries { AreEntries fold.now.history }
    requires room { length notes.old ≡ length log.now.sizes }
    requires stands { whole ≡ true → Plain (D.told disk.old) (D.honest disk.old) → StandIn log.now.area log.now.sizes (D.may_leave disk.old) }
    requires noted { Plain (D.told disk.old) (D.honest disk.old) → AreNoted log.now.area (D.seen disk.old) notes.old }
    requires fronts { Plain (D.told disk.old) (D.honest disk.old) → Fronts log.now.area log.now.sizes (D.seen disk.old) }

    ensures read { IfOk result (ReadsItems (Plain (D.told disk.old) (D.honest disk.old)) log.now.area log.now.sizes (D.seen disk.old) (state_of fold.now).items) }
    ensures ended { IfOk result (EndsUnspelled (Plain (D.told disk.old) (D.honest disk.old)) log.now.area log.now.sizes (D.seen disk.old) (state_of fold.now).items) }
    ensures noted { OnOk result (Plain (D.told disk.old) (D.honest disk.old) → AreNoted log.now.area (D.seen disk.old) notes.new) }

    ensures seen { Plain (D.told disk.old) (D.honest disk.old) → D.seen disk.new ≡ D.seen disk.old }
    ensures any_moment { Plain (D.told disk.old) (D.honest disk.old)
        → Runs D.moment D.may_leave D.left_since Same disk.old disk.new }
    ensures kind { SameKind D.told D.honest D.order D.orders disk.old disk.new }
    ensures cause { HasCause (D.faults disk.old) (D.faults disk.new) result }
{
    let count = log.count();
    for i in 0..count {
        let Some(item) = fold.item_at(i) else {
            return Ok(i);
        };
        if !is_item_at(log, disk, i, &item)? {
            return Ok(i);
        }
        note_blank(log, whole, disk, i, notes)?;
    }
    Ok(count)
}
