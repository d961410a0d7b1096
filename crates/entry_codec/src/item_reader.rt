//! Each reader of a row takes the bytes behind the kind of an item.

ghost use Rattle.std.specs.Prelude.{◌≡◌, ◌≤◌, ◌==◌, ℕ, List, length, Some, None, IfSome, IfNone, if◌then◌else◌};
ghost use Rattle.delf_model.specs.declared.rows.Item.{Item};
ghost use Rattle.entry_codec.specs.ItemHead.{IsItemHead};
ghost use Rattle.entry_codec.specs.Reading.{Gives, ReadsRow, IsRowRead, IsItemRead};

use crate::field_reader::{byte_at, due_at, edge_at, id_at, type_at, word_at};
use crate::limits::LARGEST_PAYLOAD;
use delf_model::{EdgeKey, EdgeNo, EdgeRow, Item, Job, ObjectRow, TypeNo};

/// The digest, where it is all of the bytes.
fn digest_of(bytes: &[u8]) -> Option<[u8; 32]>
    ensures { Gives (λ digest. digest) result (if length bytes.now == 32 then Some bytes.now else None) }
{
    if bytes.len() != 32 {
        return None;
    }
    let mut digest = [0; 32];
    digest.copy_from_slice(bytes);
    Some(digest)
}

#[tactic(auto, unfolding(crate::specs::Reading::fields_at))]
fn object(rest: &[u8], size: u16) -> Option<(Item, [u8; 32])>
    ensures { ReadsRow 1 rest.now size result }
{
    let (job, rest) = word_at(rest)?;
    let Some((id, rest)) = id_at(rest) else {
        return None;
    };
    let (kind, rest) = type_at(rest)?;
    let (birth, rest) = word_at(rest)?;
    let (due, rest) = due_at(rest)?;
    let (at, rest) = word_at(rest)?;
    let digest = digest_of(rest)?;
    let row = ObjectRow {
        id,
        kind: TypeNo(kind),
        birth,
        due,
        at,
        size,
    };
    Some((Item::Object { job: Job(job), row }, digest))
}

#[tactic(auto, unfolding(crate::specs::Reading::fields_at))]
fn edge(rest: &[u8], size: u16) -> Option<(Item, [u8; 32])>
    ensures { ReadsRow 2 rest.now size result }
{
    let (job, rest) = word_at(rest)?;
    let (edge, rest) = edge_at(rest)?;
    let Some((from, rest)) = id_at(rest) else {
        return None;
    };
    let Some((to, rest)) = id_at(rest) else {
        return None;
    };
    let (birth, rest) = word_at(rest)?;
    let (from_birth, rest) = word_at(rest)?;
    let (to_birth, rest) = word_at(rest)?;
    let digest = digest_of(rest)?;
    let key = EdgeKey {
        edge: EdgeNo(edge),
        from,
        to,
    };
    let item = Item::Edge {
        job: Job(job),
        row: EdgeRow { key, birth, size },
        from_birth,
        to_birth,
    };
    Some((item, digest))
}

fn row_at(kind: u8, rest: &[u8], size: u16) -> Option<(Item, [u8; 32])>
    requires { size ≤ LARGEST_PAYLOAD }
    ensures { IsRowRead kind rest.now size result }
{
    match kind {
        1 => object(rest, size),
        2 => edge(rest, size),
        _ => None,
    }
}

fn item_at(head: &[u8], size: u64) -> Option<(Item, [u8; 32])>
    ensures { IsItemRead head.now size result }
{
    if size > u64::from(LARGEST_PAYLOAD) {
        return None;
    }
    let (kind, rest) = byte_at(head)?;
    row_at(kind, rest, size as u16)
}

/// The item and the digest that have this head, with a payload of this size. None where no item has it: the
/// head is not of the length of its kind, an id is not 1 to 999,999,999,999, the number of an object type is not below
/// 64, or the payload has more than 512 bytes. That the digest is that of the payload is not looked at.
pub fn read_item(head: &[u8], size: u64) -> Option<(Item, [u8; 32])>
    ensures found { IfSome result (λ found. IsItemHead found.0 found.1 head.now size) }
    ensures only { (item : Item) (digest : List ℕ) → IsItemHead item digest head.now size → result ≡ Some (item, digest) }
    ensures none { IfNone result ((item : Item) (digest : List ℕ) → IsItemHead item digest head.now size → ⊥) }
{
    item_at(head, size)
}
