//! The erased objects that are not handled yet, counted by their job and birth.
ghost use Rattle.std.specs.Prelude.{◌≡◌, ◌+◌, ◌<◌, ◌≤◌, ◌^◌, true, false, cond, nat_eq, is_none, unwrap_or, Some, ℕ};
ghost use Rattle.std.specs.HashMap.{get, spare};
ghost use Rattle.job_table.specs.Ends.{end_key as key_of_end, key_of_item, is_key, is_open_end};
ghost use Rattle.job_table.specs.Parts.{logged_of};

use crate::items::Kept;
use delf_model::Item;
use std::collections::HashMap;

/// How many have this number.
pub fn count_of(ends: &HashMap<u64, u32>, key: u64) -> u32
    ensures { result ≡ unwrap_or (get nat_eq ends.now key) 0 }
{
    match ends.get(&key) {
        Some(count) => *count,
        None => 0,
    }
}

fn set(ends: &mut HashMap<u64, u32>, key: u64, count: u32)
    requires { 0 < spare ends.old }
    ensures value { (other : ℕ) → get nat_eq ends.new other ≡ cond (nat_eq key other) (Some count) (get nat_eq ends.old other) }
    ensures spare { spare ends.old ≤ spare ends.new + 1 }
{
    match ends.insert(key, count) {
        Ok(_) => {}
        Err(_) => unreachable!(),
    }
}

/// The item is logged: if it is an object, one more with its number is not handled.
pub fn open(ends: &mut HashMap<u64, u32>, item: &Item)
    requires spare { 0 < spare ends.old }
    requires fits { (key : ℕ) → unwrap_or (get nat_eq ends.old key) 0 + 1 < 2 ^ 32 }
    ensures count { (key : ℕ) → unwrap_or (get nat_eq ends.new key) 0 ≡ unwrap_or (get nat_eq ends.old key) 0 + cond (is_key key (key_of_item item.now)) 1 0 }
    ensures spare { spare ends.old ≤ spare ends.new + 1 }
{
    match item_key(item) {
        Some(key) => {
            let count = count_of(ends, key);
            set(ends, key, count + 1);
        }
        None => {}
    }
}

/// The item is handled: if it is an object that was not, one less with its number is not.
pub fn close(ends: &mut HashMap<u64, u32>, kept: &Kept)
    requires spare { 0 < spare ends.old }
    requires open { (key : ℕ) → is_open_end key (logged_of kept.now) ≡ true → 0 < unwrap_or (get nat_eq ends.old key) 0 }
    ensures count { (key : ℕ) → unwrap_or (get nat_eq ends.new key) 0 + cond (is_open_end key (logged_of kept.now)) 1 0 ≡ unwrap_or (get nat_eq ends.old key) 0 }
    ensures spare { spare ends.old ≤ spare ends.new + 1 }
{
    if !is_open(kept) {
        return;
    }
    match item_key(&kept.item) {
        Some(key) => {
            let count = count_of(ends, key);
            set(ends, key, count.saturating_sub(1));
        }
        None => {}
    }
}

/// The number of a job and a birth.
pub fn end_key(job: u32, birth: u32) -> u64
    ensures { result ≡ key_of_end job birth }
{
    job as u64 * 4_294_967_296 + birth as u64
}

fn is_open(kept: &Kept) -> bool
    ensures { result ≡ is_none (logged_of kept.now).handled }
{
    kept.handled.is_none()
}

fn item_key(item: &Item) -> Option<u64>
    ensures { result ≡ key_of_item item.now }
{
    match item {
        Item::Object { job, row } => Some(end_key(job.0, row.birth)),
        Item::Edge { .. } => None,
    }
}
