//! A claim: the item that is to be logged, with its payload.
ghost use Rattle.std.specs.Prelude.{◌≡◌, ◌≤◌, length};
ghost use Rattle.delf_model.specs.declared.TheConstants.{LIMIT};
ghost use Rattle.entry_codec.specs.declared.limits.TheConstants.{LARGEST_PAYLOAD};
ghost use Rattle.entry_codec.specs.ItemHead.{item_size, IsTypeBounded};

use delf_model::{Item, LIMIT};
use std::marker::Model;

/// An item that is to be logged, with the payload of its row.
#[derive(Drop)]
pub struct Claim {
    item: Item,
    bytes: [u8; LIMIT],
    size: u16,
}

impl Model for Claim {
    ghost use Rattle.std.specs.Prelude.{take};
    ghost use Rattle.delete_step.specs.Claims.{ClaimView};

    ghost Value = { ClaimView };

    ghost view = { λ c. record { item = c.item; payload = take c.size c.bytes } };

    ghost use Rattle.delete_step.specs.Claims.{IsWhole};

    ghost invariant = { λ c. IsWhole c.item c.size };
}

impl Claim {
    /// The claim on an item with this payload, which it copies. Takes no memory, as all calls here.
    pub fn of(item: Item, payload: &[u8]) -> Claim
        requires size { length payload.now ≡ item_size item }
        requires largest { item_size item ≤ LARGEST_PAYLOAD }
        requires types { IsTypeBounded item }
        ensures item { result.item ≡ item }
        ensures payload { result.payload ≡ payload.now }
    {
        let mut bytes = [0; LIMIT];
        bytes[..payload.len()].copy_from_slice(payload);
        Claim {
            item,
            bytes,
            size: payload.len() as u16,
        }
    }

    /// The item.
    pub fn item(&self) -> &Item
        ensures item { result.now ≡ self.now.item }
        ensures largest { item_size result.now ≤ LARGEST_PAYLOAD }
        ensures types { IsTypeBounded result.now }
    {
        &self.item
    }

    /// The payload, which has the size of the item's row.
    pub fn payload(&self) -> &[u8]
        ensures payload { result.now ≡ self.now.payload }
        ensures size { length result.now ≡ item_size self.now.item }
    {
        &self.bytes[..self.size as usize]
    }
}
