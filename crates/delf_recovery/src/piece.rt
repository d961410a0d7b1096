//! A piece of an area that was read ahead.
ghost use Rattle.std.specs.Prelude.{◌≡◌, ◌+◌, ◌-◌, ◌^◌, ◌≤◌, ◌<◌, [], ℕ, List, length, take, drop, IfOk, OnOk, OnErr};
ghost use Rattle.delf_disk.specs.Areas.{Areas, area_of};
ghost use Rattle.delf_disk.specs.Images.{Same, Moves, Written};
ghost use Rattle.delf_disk.specs.Causes.{HasCause};
ghost use Rattle.delf_disk.specs.Plain.{Plain, SameKind};

use delf_disk::{Area, Disk, Failed};
use std::alloc::{AllocError, Global};
use std::marker::Model;

/// The most bytes of one piece.
pub(crate) const PIECE: usize = 65_536;

/// Bytes of an area, at most 65,536, from one place on. They stand somewhere in a buffer that is never made longer.
#[derive(Drop)]
pub(crate) struct Piece {
    area: Area,
    at: u64,
    start: usize,
    end: usize,
    buffer: Vec<u8>,
}

impl Model for Piece {
    ghost use Rattle.std.specs.Prelude.{◌≡◌, ◌+◌, ◌-◌, ◌^◌, ◌≤◌, ◌<◌, length, take, drop};
    ghost use Rattle.delf_recovery.specs.Stretches.{Stretch};

    ghost Value = { Stretch };

    ghost view = { λ p. record { area = p.area; at = p.at; bytes = take (p.end - p.start) (drop p.start p.buffer.items) } };

    ghost invariant = { λ p. (p.start ≤ p.end) × (p.end ≤ 65536) × (length p.buffer.items ≡ 65536) × (p.at + (p.end - p.start) < 2 ^ 64) };
}

impl Piece {
    ghost use Rattle.delf_recovery.specs.Stretches.{IsPartOf};

    /// No bytes yet, and the room for a piece.
    pub(crate) fn empty(alloc: Global) -> Result<Piece, AllocError>
        ensures { IfOk result (λ piece. piece.bytes ≡ []) }
    {
        Ok(Piece {
            area: Area::Journal,
            at: 0,
            start: 0,
            end: 0,
            buffer: vec![in alloc; 0u8; PIECE]?,
        })
    }

    /// Forgets its bytes.
    pub(crate) fn clear(&mut self)
        ensures { self.new.bytes ≡ [] }
    {
        self.start = 0;
        self.end = 0;
        self.at = 0;
    }

    /// Copies what it has of an area from this place on to the front of `buf`, and tells how many bytes.
    pub(crate) fn give(&self, area: Area, at: u64, buf: &mut [u8]) -> usize
        ensures few { result ≤ length buf.old }
        ensures reach { at + result < 2 ^ 64 }
        ensures given { (areas : Areas) → IsPartOf self.now areas → take result buf.new ≡ take result (drop at (area_of area areas)) }
        ensures rest { drop result buf.new ≡ drop result buf.old }
        ensures all { self.now.area ≡ area → self.now.at ≡ at → length buf.old ≤ length self.now.bytes → result ≡ length buf.old }
    {
        if area != self.area {
            return 0;
        }
        if at < self.at {
            return 0;
        }
        let skipped = at - self.at;
        let len = (self.end - self.start) as u64;
        if skipped >= len {
            return 0;
        }
        let n = buf.len().min((len - skipped) as usize);
        let first = self.start + skipped as usize;
        buf[..n].copy_from_slice(&self.buffer[first..first + n]);
        n
    }

    /// Forgets what it has of an area before this place.
    pub(crate) fn pass(&mut self, area: Area, end: u64)
        ensures kept { (at : ℕ) (bytes : List ℕ) (old new : Areas) → at + length bytes ≤ end → at ≤ length (area_of area old)
            → Written area at bytes old new → IsPartOf self.old old → IsPartOf self.new new }
    {
        if area != self.area {
            return;
        }
        if end <= self.at {
            return;
        }
        let passed = end - self.at;
        let len = (self.end - self.start) as u64;
        if passed >= len {
            self.clear();
            return;
        }
        self.at = end;
        self.start += passed as usize;
    }

    /// Reads `n` bytes of an area from this place on in place of what it has.
    pub(crate) fn load<D: Disk>(
        &mut self,
        disk: &mut D,
        area: Area,
        at: u64,
        n: usize,
    ) -> Result<(), Failed>
        requires few { n ≤ 65536 }
        requires reach { at + n < 2 ^ 64 }
        requires within { Plain (D.told disk.old) (D.honest disk.old) → at + n ≤ length (area_of area (D.seen disk.old)) }

        ensures area { OnOk result (self.new.area ≡ area) }
        ensures at { OnOk result (self.new.at ≡ at) }
        ensures length { OnOk result (length self.new.bytes ≡ n) }
        ensures bytes { OnOk result (Plain (D.told disk.old) (D.honest disk.old) → IsPartOf self.new (D.seen disk.new)) }
        ensures none { OnErr result (self.new.bytes ≡ []) }

        ensures seen { Plain (D.told disk.old) (D.honest disk.old) → D.seen disk.new ≡ D.seen disk.old }
        ensures images { Plain (D.told disk.old) (D.honest disk.old)
            → Moves Same (D.moment disk.old) (D.moment disk.new) (D.may_leave disk.old) (D.may_leave disk.new) (D.left_since disk.old) (D.left_since disk.new) }
        ensures none_lost { Plain (D.told disk.old) (D.honest disk.old) → (c : Areas) → D.may_leave disk.old c → D.may_leave disk.new c }
        ensures kind { SameKind D.told D.honest D.order D.orders disk.old disk.new }
        ensures cause { HasCause (D.faults disk.old) (D.faults disk.new) result }
    {
        self.start = 0;
        self.end = 0;
        read_front(disk, area, at, &mut self.buffer, n)?;
        self.area = area;
        self.at = at;
        self.end = n;
        Ok(())
    }
}

// Fills the first `n` bytes of a buffer from an area.
fn read_front<D: Disk>(
    disk: &mut D,
    area: Area,
    at: u64,
    buffer: &mut [u8],
    n: usize,
) -> Result<(), Failed>
    requires room { n ≤ length buffer.old }
    requires within { Plain (D.told disk.old) (D.honest disk.old) → at + n ≤ length (area_of area (D.seen disk.old)) }

    ensures length { length buffer.new ≡ length buffer.old }
    ensures bytes { OnOk result (Plain (D.told disk.old) (D.honest disk.old) → take n buffer.new ≡ take n (drop at (area_of area (D.seen disk.old)))) }

    ensures seen { Plain (D.told disk.old) (D.honest disk.old) → D.seen disk.new ≡ D.seen disk.old }
    ensures images { Plain (D.told disk.old) (D.honest disk.old)
        → Moves Same (D.moment disk.old) (D.moment disk.new) (D.may_leave disk.old) (D.may_leave disk.new) (D.left_since disk.old) (D.left_since disk.new) }
    ensures none_lost { Plain (D.told disk.old) (D.honest disk.old) → (c : Areas) → D.may_leave disk.old c → D.may_leave disk.new c }
    ensures kind { SameKind D.told D.honest D.order D.orders disk.old disk.new }
    ensures cause { HasCause (D.faults disk.old) (D.faults disk.new) result }
{
    disk.read(area, at, &mut buffer[..n])
}
