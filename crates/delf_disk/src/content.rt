//! The bytes that a disk in memory keeps of both areas.
ghost use Rattle.std.specs.Prelude.{◌≡◌, ◌+◌, ◌-◌, ◌≤◌, [], ◌++◌, length, replicate, vec_capacity, IfOk, OnOk};
ghost use Rattle.delf_disk.specs.Areas.{Areas, area_of};
ghost use Rattle.delf_disk.specs.Images.{overwritten};
ghost use Rattle.delf_disk.specs.Laying.{padded, overlaid, overlaid_in};

use crate::area::Area;
use crate::past::Write;
use std::alloc::{AllocError, Global};

// What a cut of the power may leave where a write was pending.
const GARBAGE: u8 = 0xEE;

/// The bytes of both areas, as a disk in memory keeps them.
#[derive(Drop)]
pub struct Content {
    pub(crate) journal: Vec<u8>,
    pub(crate) vault: Vec<u8>,
}

// Fills a gap up to `at` with zeros.
fn pad(list: &mut Vec<u8>, at: usize)
    requires { at ≤ vec_capacity list.old }
    ensures items { list.new.items ≡ padded at list.old.items }
    ensures room { vec_capacity list.old ≤ vec_capacity list.new }
{
    if list.len() < at {
        let Ok(()) = list.resize(at, 0) else {
            unreachable!();
        };
    }
}

// Lays bytes over a list, also past its end.
fn lay(list: &mut Vec<u8>, at: usize, bytes: &[u8])
    requires { at + length bytes.now ≤ vec_capacity list.old }
    ensures items { list.new.items ≡ overlaid at bytes.now list.old.items }
    ensures room { vec_capacity list.old ≤ vec_capacity list.new }
{
    pad(list, at);
    let inside = bytes.len().min(list.len() - at);
    list[at..at + inside].copy_from_slice(&bytes[..inside]);
    let Ok(()) = list.extend_from_slice(&bytes[inside..]) else {
        unreachable!();
    };
}

// Lays `n` times one byte over a list.
fn fill(list: &mut Vec<u8>, at: usize, n: usize, byte: u8)
    requires { at + n ≤ vec_capacity list.old }
    ensures items { list.new.items ≡ overlaid at (replicate n byte) list.old.items }
    ensures room { vec_capacity list.old ≤ vec_capacity list.new }
{
    pad(list, at + n);
    fill_inside(list, at, n, byte);
}

// The same inside of a list.
fn fill_inside(list: &mut [u8], at: usize, n: usize, byte: u8)
    requires { at + n ≤ length list.old }
    ensures { list.new ≡ overwritten at (replicate n byte) list.old }
{
    list[at..at + n].fill(byte);
}

// Makes room for an area of `end` bytes.
fn reserve(list: &mut Vec<u8>, end: usize) -> Result<(), AllocError>
    ensures items { list.new.items ≡ list.old.items }
    ensures room { vec_capacity list.old ≤ vec_capacity list.new }
    ensures ok { OnOk result (end ≤ vec_capacity list.new) }
{
    list.reserve(end.saturating_sub(list.len()))
}

// Copies a list into one that has room for it.
fn copy(list: &mut Vec<u8>, bytes: &[u8])
    requires { length bytes.now ≤ vec_capacity list.old }
    ensures items { list.new.items ≡ bytes.now }
    ensures room { vec_capacity list.old ≤ vec_capacity list.new }
{
    list.clear();
    let Ok(()) = list.extend_from_slice(bytes) else {
        unreachable!();
    };
}

impl Content {
    ghost use Rattle.delf_disk.specs.Content.{areas_of, room_of, KeepsRoom, HasRoom};
    ghost use Rattle.delf_disk.specs.Epochs.{laid, laid_all, left_of, picked, end_of};

    /// A copy of both areas.
    pub(crate) fn of(alloc: Global, journal: &[u8], vault: &[u8]) -> Result<Content, AllocError>
        ensures journal { IfOk result (λ content. content.journal.items ≡ journal.now) }
        ensures vault { IfOk result (λ content. content.vault.items ≡ vault.now) }
    {
        Ok(Content {
            journal: Vec::from_slice(alloc, journal)?,
            vault: Vec::from_slice(alloc, vault)?,
        })
    }

    /// The bytes of an area.
    pub(crate) fn bytes(&self, area: Area) -> &[u8]
        ensures { result.now ≡ area_of area (areas_of self.now) }
    {
        match area {
            Area::Journal => &self.journal,
            Area::Vault => &self.vault,
        }
    }

    /// Makes room for an area of `end` bytes.
    pub(crate) fn reserve(&mut self, area: Area, end: usize) -> Result<(), AllocError>
        ensures areas { areas_of self.new ≡ areas_of self.old }
        ensures room { KeepsRoom self.old self.new }
        ensures ok { OnOk result (end ≤ room_of area self.new) }
    {
        match area {
            Area::Journal => reserve(&mut self.journal, end),
            Area::Vault => reserve(&mut self.vault, end),
        }
    }

    /// Lays bytes over an area.
    pub(crate) fn lay(&mut self, area: Area, at: usize, bytes: &[u8])
        requires { at + length bytes.now ≤ room_of area self.old }
        ensures areas { areas_of self.new ≡ overlaid_in area at bytes.now (areas_of self.old) }
        ensures room { KeepsRoom self.old self.new }
    {
        match area {
            Area::Journal => lay(&mut self.journal, at, bytes),
            Area::Vault => lay(&mut self.vault, at, bytes),
        }
    }

    /// Lays garbage over an area.
    pub(crate) fn spoil(&mut self, area: Area, at: usize, n: usize)
        requires { at + n ≤ room_of area self.old }
        ensures areas { areas_of self.new ≡ overlaid_in area at (replicate n GARBAGE) (areas_of self.old) }
        ensures room { KeepsRoom self.old self.new }
    {
        match area {
            Area::Journal => fill(&mut self.journal, at, n, GARBAGE),
            Area::Vault => fill(&mut self.vault, at, n, GARBAGE),
        }
    }

    /// Does a write, unless it is one that failed.
    pub(crate) fn land(&mut self, write: &Write)
        requires { end_of write.now ≤ room_of write.now.area self.old }
        ensures areas { areas_of self.new ≡ laid write.now (areas_of self.old) }
        ensures room { KeepsRoom self.old self.new }
    {
        if write.landed {
            self.lay(write.area, write.at as usize, &write.bytes);
        }
    }

    /// Leaves of a pending write what a cut of the power chooses.
    pub(crate) fn leave(&mut self, write: &Write, choice: u64)
        requires { end_of write.now ≤ room_of write.now.area self.old }
        ensures areas { areas_of self.new ≡ left_of choice write.now (areas_of self.old) }
        ensures room { KeepsRoom self.old self.new }
    {
        let at = write.at as usize;
        let half = write.bytes.len() / 2;
        match choice {
            0 => {}
            1 => self.lay(write.area, at, &write.bytes),
            2 => self.spoil(write.area, at, write.bytes.len()),
            _ => self.lay(write.area, at, &write.bytes[..half]),
        }
    }

    /// Does all these writes, the oldest first.
    pub(crate) fn land_all(&mut self, writes: &[Write])
        requires { HasRoom writes.now self.old }
        ensures areas { areas_of self.new ≡ laid_all writes.now (areas_of self.old) }
        ensures room { KeepsRoom self.old self.new }
    {
        for write in writes {
            self.land(write);
        }
    }

    /// Leaves of each of these writes what the pick chooses, by two bits each, the lowest for the oldest.
    pub(crate) fn leave_all(&mut self, writes: &[Write], pick: u64)
        requires { HasRoom writes.now self.old }
        ensures areas { areas_of self.new ≡ picked pick writes.now (areas_of self.old) }
        ensures room { KeepsRoom self.old self.new }
    {
        let mut rest = pick;
        for write in writes {
            self.leave(write, rest % 4);
            rest /= 4;
        }
    }

    /// Takes over the bytes of another copy.
    pub(crate) fn copy(&mut self, other: &Content)
        requires journal { length other.now.journal.items ≤ vec_capacity self.old.journal }
        requires vault { length other.now.vault.items ≤ vec_capacity self.old.vault }
        ensures areas { areas_of self.new ≡ areas_of other.now }
        ensures room { KeepsRoom self.old self.new }
    {
        copy(&mut self.journal, &other.journal);
        copy(&mut self.vault, &other.vault);
    }
}
