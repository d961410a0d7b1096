//! Which journal record carries the payload of a row.
ghost use Rattle.std.specs.Prelude.{◌≡◌, ◌↔◌, ◌+◌, ◌<◌, ◌++◌, ◌∷◌, [], true, Some, vec_len, vec_capacity, OnOk, OnErr, false};
ghost use Rattle.delf_disk.specs.declared.area.Area.TheVariants.{Journal as JournalArea, Vault as VaultArea};
ghost use Rattle.delf_model.specs.Legal.{is_legal};
ghost use Rattle.delf_model.specs.Order.{is_held};
ghost use Rattle.delf_book.specs.Keeping.{KeepsCarriers};
ghost use Rattle.ledger.specs.Ledgers.{state_of, IsSame, HasEntered};
ghost use Rattle.delf_book.specs.Reads.{TellsLive, carriers_of_what, carriers_of_row};
ghost use Rattle.delf_book.specs.Writing.{dead_carriers};

use crate::dead::{edge_record, object_record};
use delf_disk::Area;
use delf_model::{EdgeKey, Entry, GraphStore, Item, What};
use ledger::Ledger;
use std::alloc::AllocError;

/// Takes a legal entry into ledger and carriers. The only error is want of memory.
pub(crate) fn take<G: GraphStore>(
    ledger: &mut Ledger<G>,
    carriers: &mut Vec<u32>,
    entry: &Entry,
) -> Result<(), AllocError>
    requires carriers { KeepsCarriers ledger.old.rules ledger.old.history carriers.old.items }
    requires legal { is_legal (state_of ledger.old) entry.now ≡ true }
    requires free { is_held ledger.old.held entry.now.what ≡ false }
    ensures ok { OnOk result (HasEntered ledger.old ledger.new entry.now) }
    ensures err { OnErr result (IsSame ledger.old ledger.new) }
    ensures carriers { KeepsCarriers ledger.new.rules ledger.new.history carriers.new.items }
{
    ledger.make_ready(&entry.what)?;
    carriers.reserve(1)?;
    carry(ledger, carriers, entry);
    ledger.enter(entry);
    Ok(())
}

/// Notes the record of an entry that comes next: it carries the payload at its own position, and one that it puts back.
pub(crate) fn carry<G: GraphStore>(ledger: &Ledger<G>, carriers: &mut Vec<u32>, entry: &Entry)
    requires carriers { KeepsCarriers ledger.now.rules ledger.now.history carriers.old.items }
    requires room { vec_len carriers.old < vec_capacity carriers.old }
    requires legal { is_legal (state_of ledger.now) entry.now ≡ true }
    ensures carriers { KeepsCarriers ledger.now.rules (ledger.now.history ++ entry.now ∷ []) carriers.new.items }
    ensures length { vec_len carriers.new ≡ vec_len carriers.old + 1 }
    ensures capacity { vec_capacity carriers.new ≡ vec_capacity carriers.old }
{
    let position = ledger.len();
    carriers.push_reserved(position);
    match ledger.position_back(&entry.what) {
        Some(at) => carriers[at as usize] = position,
        None => {}
    }
}

/// Whether record `i` of the area is the last carrier of a needed payload.
pub(crate) fn keeps<G: GraphStore>(ledger: &Ledger<G>, carriers: &[u32], area: Area, i: u32) -> bool
    requires { KeepsCarriers ledger.now.rules ledger.now.history carriers.now }
    ensures { TellsLive (state_of ledger.now) area i result }
{
    match area {
        Area::Journal => keeps_entry(ledger, carriers, i),
        Area::Vault => keeps_item(ledger, i),
    }
}

/// Whether journal record `i` is the last carrier of a needed payload: the row that its entry brought or put back stands,
/// and this record carries it now.
fn keeps_entry<G: GraphStore>(ledger: &Ledger<G>, carriers: &[u32], i: u32) -> bool
    requires { KeepsCarriers ledger.now.rules ledger.now.history carriers.now }
    ensures { TellsLive (state_of ledger.now) JournalArea i result }
{
    let _len = ledger.len();
    match ledger.what_at(i) {
        Some(what) => is_record(record_of_row(ledger, carriers, &what), i),
        None => false,
    }
}

fn is_record(carrier: Option<u32>, i: u32) -> bool
    ensures { (result ≡ true) ↔ (carrier ≡ Some i) }
{
    match carrier {
        Some(found) => found == i,
        None => false,
    }
}

/// Whether the vault record of item `i` is the last carrier of a needed payload.
fn keeps_item<G: GraphStore>(ledger: &Ledger<G>, i: u32) -> bool
    ensures { TellsLive (state_of ledger.now) VaultArea i result }
{
    let _len = ledger.len();
    ledger.keeps_payload(i)
}

/// The journal record that now carries the payload of the row that an entry of this kind brings or puts back.
fn record_of_row<G: GraphStore>(ledger: &Ledger<G>, carriers: &[u32], what: &What) -> Option<u32>
    requires { KeepsCarriers ledger.now.rules ledger.now.history carriers.now }
    ensures { dead_carriers result ≡ carriers_of_what (state_of ledger.now) what.now }
{
    match what {
        What::Create { id, .. } => object_record(ledger, carriers, *id),
        What::Update { id, .. } => object_record(ledger, carriers, *id),
        What::Link { edge, from, to, .. } => {
            let key = EdgeKey {
                edge: *edge,
                from: *from,
                to: *to,
            };
            edge_record(ledger, carriers, key)
        }
        What::Put { item, .. } => record_of_item(ledger, carriers, ledger.item_at(*item)),
        What::Unlink { .. } => None,
        What::Delete { .. } => None,
        What::Restore { .. } => None,
        What::Expire { .. } => None,
        What::Cut { .. } => None,
        What::Erase { .. } => None,
        What::Purge { .. } => None,
    }
}

/// The journal record that now carries the payload of the row with the id or the key of this item.
fn record_of_item<G: GraphStore>(
    ledger: &Ledger<G>,
    carriers: &[u32],
    item: Option<Item>,
) -> Option<u32>
    requires { KeepsCarriers ledger.now.rules ledger.now.history carriers.now }
    ensures { dead_carriers result ≡ carriers_of_row (state_of ledger.now) item }
{
    match item {
        Some(Item::Object { row, .. }) => object_record(ledger, carriers, row.id),
        Some(Item::Edge { row, .. }) => edge_record(ledger, carriers, row.key),
        None => None,
    }
}
