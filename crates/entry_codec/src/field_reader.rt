//! Each reader answers the field at the front and the bytes after it, or None where no such field is there.

ghost use Rattle.std.specs.Prelude.{ℕ, List};
ghost use Rattle.entry_codec.specs.Field.{Kind, TypeNumber, EdgeNumber, Word, Moment, Id, Due};
ghost use Rattle.entry_codec.specs.Reading.{Gives, number_at, checked};

use crate::limits::{LAST_MOMENT, TYPE_COUNT};
use delf_model::ObjectId;

#[tactic(auto, unfolding(crate::specs::Reading::number_at))]
pub fn byte_at(bytes: &[u8]) -> Option<(u8, &[u8])>
    ensures { Gives (λ x. (x.0, x.1.now)) result (number_at Kind bytes.now) }
{
    if bytes.is_empty() {
        return None;
    }
    let (front, rest) = bytes.split_at(1);
    Some((front[0], rest))
}

#[tactic(auto, unfolding(crate::specs::Reading::number_at))]
pub fn word_at(bytes: &[u8]) -> Option<(u32, &[u8])>
    ensures { Gives (λ x. (x.0, x.1.now)) result (number_at Word bytes.now) }
{
    if bytes.len() < 4 {
        return None;
    }
    let (front, rest) = bytes.split_at(4);
    let number = u32::from_be_bytes([front[0], front[1], front[2], front[3]]);
    Some((number, rest))
}

#[tactic(auto, unfolding(crate::specs::Reading::number_at))]
pub fn due_at(bytes: &[u8]) -> Option<(u64, &[u8])>
    ensures { Gives (λ x. (x.0, x.1.now)) result (number_at Due bytes.now) }
{
    if bytes.len() < 8 {
        return None;
    }
    let (front, rest) = bytes.split_at(8);
    let number = u64::from_be_bytes([
        front[0], front[1], front[2], front[3], front[4], front[5], front[6], front[7],
    ]);
    Some((number, rest))
}

#[tactic(auto, unfolding(crate::specs::Reading::number_at))]
pub fn type_at(bytes: &[u8]) -> Option<(u8, &[u8])>
    ensures { Gives (λ x. (x.0, x.1.now)) result (number_at TypeNumber bytes.now) }
{
    let (number, rest) = byte_at(bytes)?;
    if number >= TYPE_COUNT {
        return None;
    }
    Some((number, rest))
}

#[tactic(auto, unfolding(crate::specs::Reading::number_at))]
pub fn edge_at(bytes: &[u8]) -> Option<(u8, &[u8])>
    ensures { Gives (λ x. (x.0, x.1.now)) result (number_at EdgeNumber bytes.now) }
{
    byte_at(bytes)
}

#[tactic(auto, unfolding(crate::specs::Reading::number_at))]
pub fn moment_at(bytes: &[u8]) -> Option<(u64, &[u8])>
    ensures { Gives (λ x. (x.0, x.1.now)) result (number_at Moment bytes.now) }
{
    let (number, rest) = due_at(bytes)?;
    if number > LAST_MOMENT {
        return None;
    }
    Some((number, rest))
}

#[tactic(auto, unfolding(crate::specs::Reading::number_at))]
pub fn id_at(bytes: &[u8]) -> Option<(ObjectId, &[u8])>
    ensures { Gives (λ x. (x.0, x.1.now)) result (number_at Id bytes.now) }
{
    let (number, rest) = due_at(bytes)?;
    let id = ObjectId::new(number)?;
    Some((id, rest))
}
