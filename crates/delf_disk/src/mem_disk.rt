//! A disk in memory, which knows what a crash would leave and can be told to fail.
ghost use Rattle.std.specs.Prelude.{◌≡◌, ◌+◌, ◌-◌, ◌≤◌, ◌<◌, ◌↔◌, ◌++◌, ◌∷◌, [], ℕ, Bool, true, List, length, take, drop, vec_len, vec_capacity, IsErr, IfOk, OnOk, OnErr, if◌then◌else◌};
ghost use Rattle.delf_disk.specs.Areas.{Areas, area_of};
ghost use Rattle.delf_disk.specs.Causes.{HasCause, Burns};
ghost use Rattle.delf_disk.specs.Content.{areas_of, room_of, IsRoomy};
ghost use Rattle.delf_disk.specs.Counts.{next};
ghost use Rattle.delf_disk.specs.EpochLaws.{reads_as_image, counts_now, only_now};
ghost use Rattle.delf_disk.specs.Epochs.{laid_all, picked, Image, stable_after, moment_of, LeftSince};
ghost use Rattle.delf_disk.specs.Images.{Torn, Written, Same, Moves, Only};
ghost use Rattle.delf_disk.specs.Plain.{Plain, SameKind, SameTelling, NextCount};

use crate::area::{Area, Failed, Order};
use crate::content::Content;
use crate::counts::Counts;
use crate::disk::{Disk, Rig};
use crate::lists::{Bytes, Numbers};
use crate::past::{End, Epoch, Write, end_epoch, reserve_write};
use std::alloc::{AllocError, Global};

/// Both areas in memory.
///
/// It keeps the stable bytes, the bytes as they read, and the writes that no sync covers yet, failed
/// ones included, in one list over both areas. It also keeps all that happened before, so that it can
/// tell what a crash at an earlier moment would have left.
#[derive(Drop)]
pub struct MemDisk {
    alloc: Global,
    first: Content,
    past: Vec<Epoch>,
    pending: Vec<Write>,
    stable: Content,
    live: Content,
    counts: Counts,
    ghost begun: { stable_after past.items (areas_of first) ≡ areas_of stable },
    ghost reads: { laid_all pending.items (areas_of stable) ≡ areas_of live },
    ghost room: { IsRoomy pending.items live stable },
    ghost spare: { 0 < length pending.items → vec_len past < vec_capacity past },
}

impl MemDisk {
    ghost use Rattle.delf_disk.specs.MemDisk.{seen_of, stable_of, pending_of, fails_of, calls_of, starved_of};

    /// A disk with these bytes, all of them stable. `fails` are the numbers, from 1, of the calls that
    /// are to fail.
    pub fn of(
        alloc: Global,
        journal: Bytes,
        vault: Bytes,
        fails: Numbers,
    ) -> Result<MemDisk, AllocError>
        ensures journal { IfOk result (λ disk. (seen_of disk).journal ≡ journal) }
        ensures vault { IfOk result (λ disk. (seen_of disk).vault ≡ vault) }
        ensures stable { IfOk result (λ disk. stable_of disk ≡ seen_of disk) }
        ensures pending { IfOk result (λ disk. pending_of disk ≡ []) }
        ensures only { IfOk result (λ disk. Only (⟦<MemDisk as Disk>⟧.seen disk) (⟦<MemDisk as Disk>⟧.may_leave disk)) }
        ensures fails { IfOk result (λ disk. fails_of disk ≡ fails) }
        ensures calls { IfOk result (λ disk. calls_of disk ≡ 0) }
        ensures fuse { IfOk result (λ disk. ⟦<MemDisk as Disk>⟧.fuse disk ≡ 0) }
        ensures faults { IfOk result (λ disk. ⟦<MemDisk as Disk>⟧.faults disk ≡ 0) }
        ensures starved { IfOk result (λ disk. starved_of disk ≡ 0) }
        ensures order { IfOk result (λ disk. ⟦<MemDisk as Disk>⟧.order disk ≡ Order.Nothing) }
        ensures orders { IfOk result (λ disk. ⟦<MemDisk as Disk>⟧.orders disk ≡ 0) }
    {
        let Bytes { bytes: journal } = journal;
        let Bytes { bytes: vault } = vault;
        let Numbers { numbers: fails } = fails;
        let stable = Content::of(alloc, &journal, &vault)?;
        let live = Content::of(alloc, &journal, &vault)?;
        Ok(MemDisk {
            alloc,
            first: Content { journal, vault },
            past: Vec::new(alloc),
            pending: Vec::new(alloc),
            stable,
            live,
            counts: Counts::of(fails),
        })
    }

    /// How many calls were refused memory, which stops at the greatest `u64`.
    pub fn starved(&self) -> u64
        ensures { result ≡ starved_of self.now }
    {
        self.counts.starved
    }

    // Makes room for a write in both copies, in the list, and for the end of the epoch, and copies its bytes.
    fn prepare(
        &mut self,
        area: Area,
        at: u64,
        bytes: &[u8],
        landed: bool,
    ) -> Result<Write, AllocError>
        ensures live { areas_of self.new.live ≡ areas_of self.old.live }
        ensures stable { areas_of self.new.stable ≡ areas_of self.old.stable }
        ensures first { areas_of self.new.first ≡ areas_of self.old.first }
        ensures pending { self.new.pending.items ≡ self.old.pending.items }
        ensures past { self.new.past.items ≡ self.old.past.items }
        ensures counts { self.new.counts ≡ self.old.counts }
        ensures area { IfOk result (λ write. write.area ≡ area) }
        ensures at { IfOk result (λ write. write.at ≡ at) }
        ensures bytes { IfOk result (λ write. write.bytes.items ≡ bytes.now) }
        ensures landed { IfOk result (λ write. write.landed ≡ landed) }
        ensures live_room { OnOk result (at + length bytes.now ≤ room_of area self.new.live) }
        ensures stable_room { OnOk result (at + length bytes.now ≤ room_of area self.new.stable) }
        ensures pending_room { OnOk result (vec_len self.new.pending < vec_capacity self.new.pending) }
        ensures past_room { OnOk result (vec_len self.new.past < vec_capacity self.new.past) }
    {
        let Some(end) = (at as usize).checked_add(bytes.len()) else {
            return Err(AllocError);
        };
        self.live.reserve(area, end)?;
        self.stable.reserve(area, end)?;
        reserve_write(&mut self.pending)?;
        self.past.reserve(1)?;
        Ok(Write {
            area,
            at,
            bytes: Vec::from_slice(self.alloc, bytes)?,
            landed,
        })
    }
}

impl Disk for MemDisk {
    ghost use Rattle.delf_disk.specs.MemDisk.{seen_of, stable_of, pending_of, faults_of, starved_of, IsNextToFail, CountsCall, KeepsPending, Ends};

    ghost told = { λ _. true };

    ghost honest = { λ _. true };

    ghost seen = { λ d. areas_of d.live };

    ghost may_leave = { λ d. Image d.pending.items (areas_of d.stable) };

    ghost moment = { λ d. moment_of d.past.items d.pending.items };

    ghost left_since = { λ d. LeftSince d.past.items d.pending.items (areas_of d.first) };

    ghost faults = { λ d. d.counts.faults };

    ghost order = { λ d. d.counts.order };

    ghost orders = { λ d. d.counts.orders };

    ghost fuse = { λ d. d.counts.fuse };

    ghost counts_now = { λ d t c plain le image. counts_now d.past.items d.pending.items (areas_of d.first) (areas_of d.stable) t c d.begun le image };

    ghost only_now = { λ d c plain left. only_now d.past.items d.pending.items (areas_of d.first) (areas_of d.stable) c d.begun left };

    ghost reads_as_image = { λ d plain. reads_as_image d.pending.items (areas_of d.stable) (areas_of d.live) d.reads };

    fn len(&mut self, area: Area) -> Result<u64, Failed>
        ensures value { IfOk result (λ n. n ≡ length (area_of area (seen_of self.old))) }
        ensures seen { seen_of self.new ≡ seen_of self.old }
        ensures pending { KeepsPending self.old self.new }
        ensures exact { IsErr result ↔ IsNextToFail self.old }
        ensures count { OnErr result (faults_of self.new ≡ next (faults_of self.old)) }
        ensures fed { starved_of self.new ≡ starved_of self.old }
        ensures images { Moves Same (⟦<MemDisk as Disk>⟧.moment self.old) (⟦<MemDisk as Disk>⟧.moment self.new) (⟦<MemDisk as Disk>⟧.may_leave self.old) (⟦<MemDisk as Disk>⟧.may_leave self.new)
            (⟦<MemDisk as Disk>⟧.left_since self.old) (⟦<MemDisk as Disk>⟧.left_since self.new) }
        ensures call { CountsCall self.old self.new }
        ensures cause { HasCause (⟦<MemDisk as Disk>⟧.faults self.old) (⟦<MemDisk as Disk>⟧.faults self.new) result }
        ensures kind { SameKind ⟦<MemDisk as Disk>⟧.told ⟦<MemDisk as Disk>⟧.honest ⟦<MemDisk as Disk>⟧.order ⟦<MemDisk as Disk>⟧.orders self.old self.new }
        ensures fuse { Burns (⟦<MemDisk as Disk>⟧.fuse self.old) (⟦<MemDisk as Disk>⟧.fuse self.new) result }
    {
        if self.counts.takes_call() {
            return Err(Failed);
        }
        Ok(self.live.bytes(area).len() as u64)
    }

    fn read(&mut self, area: Area, at: u64, buf: &mut [u8]) -> Result<(), Failed>
        requires { at + length buf.old ≤ length (area_of area (seen_of self.old)) }
        ensures bytes { OnOk result (buf.new ≡ take (length buf.old) (drop at (area_of area (seen_of self.old)))) }
        ensures seen { seen_of self.new ≡ seen_of self.old }
        ensures pending { KeepsPending self.old self.new }
        ensures exact { IsErr result ↔ IsNextToFail self.old }
        ensures count { OnErr result (faults_of self.new ≡ next (faults_of self.old)) }
        ensures fed { starved_of self.new ≡ starved_of self.old }
        ensures images { Moves Same (⟦<MemDisk as Disk>⟧.moment self.old) (⟦<MemDisk as Disk>⟧.moment self.new) (⟦<MemDisk as Disk>⟧.may_leave self.old) (⟦<MemDisk as Disk>⟧.may_leave self.new)
            (⟦<MemDisk as Disk>⟧.left_since self.old) (⟦<MemDisk as Disk>⟧.left_since self.new) }
        ensures call { CountsCall self.old self.new }
        ensures cause { HasCause (⟦<MemDisk as Disk>⟧.faults self.old) (⟦<MemDisk as Disk>⟧.faults self.new) result }
        ensures kind { SameKind ⟦<MemDisk as Disk>⟧.told ⟦<MemDisk as Disk>⟧.honest ⟦<MemDisk as Disk>⟧.order ⟦<MemDisk as Disk>⟧.orders self.old self.new }
        ensures fuse { Burns (⟦<MemDisk as Disk>⟧.fuse self.old) (⟦<MemDisk as Disk>⟧.fuse self.new) result }
    {
        if self.counts.takes_call() {
            return Err(Failed);
        }
        let at = at as usize;
        let end = at + buf.len();
        buf.copy_from_slice(&self.live.bytes(area)[at..end]);
        Ok(())
    }

    fn write(&mut self, area: Area, at: u64, bytes: &[u8]) -> Result<(), Failed>
        requires { at ≤ length (area_of area (seen_of self.old)) }
        ensures written { OnOk result (Written area at bytes.now (seen_of self.old) (seen_of self.new)) }
        ensures seen { OnErr result (seen_of self.new ≡ seen_of self.old) }
        ensures ends { Ends self.old self.new area at bytes.now result }
        ensures images { Moves (Torn area at (length bytes.now)) (⟦<MemDisk as Disk>⟧.moment self.old) (⟦<MemDisk as Disk>⟧.moment self.new) (⟦<MemDisk as Disk>⟧.may_leave self.old) (⟦<MemDisk as Disk>⟧.may_leave self.new)
            (⟦<MemDisk as Disk>⟧.left_since self.old) (⟦<MemDisk as Disk>⟧.left_since self.new) }
        ensures call { CountsCall self.old self.new }
        ensures cause { HasCause (⟦<MemDisk as Disk>⟧.faults self.old) (⟦<MemDisk as Disk>⟧.faults self.new) result }
        ensures kind { SameKind ⟦<MemDisk as Disk>⟧.told ⟦<MemDisk as Disk>⟧.honest ⟦<MemDisk as Disk>⟧.order ⟦<MemDisk as Disk>⟧.orders self.old self.new }
        ensures fuse { Burns (⟦<MemDisk as Disk>⟧.fuse self.old) (⟦<MemDisk as Disk>⟧.fuse self.new) result }
    {
        let fails = self.counts.next_call();
        let Ok(write) = self.prepare(area, at, bytes, !fails) else {
            self.counts.starve();
            return Err(Failed);
        };
        self.live.land(&write);
        self.pending.push_reserved(write);
        if fails {
            self.counts.fault();
            return Err(Failed);
        }
        Ok(())
    }

    // It costs the bytes that were written since the last one, and takes no memory.
    fn sync(&mut self) -> Result<(), Failed>
        ensures stable { OnOk result (stable_of self.new ≡ seen_of self.old) }
        ensures none { OnOk result (pending_of self.new ≡ []) }
        ensures only { OnOk result (Only (seen_of self.old) (⟦<MemDisk as Disk>⟧.may_leave self.new)) }
        ensures seen { seen_of self.new ≡ seen_of self.old }
        ensures pending { OnErr result (KeepsPending self.old self.new) }
        ensures exact { IsErr result ↔ IsNextToFail self.old }
        ensures count { OnErr result (faults_of self.new ≡ next (faults_of self.old)) }
        ensures fed { starved_of self.new ≡ starved_of self.old }
        ensures images { Moves Same (⟦<MemDisk as Disk>⟧.moment self.old) (⟦<MemDisk as Disk>⟧.moment self.new) (⟦<MemDisk as Disk>⟧.may_leave self.old) (⟦<MemDisk as Disk>⟧.may_leave self.new)
            (⟦<MemDisk as Disk>⟧.left_since self.old) (⟦<MemDisk as Disk>⟧.left_since self.new) }
        ensures call { CountsCall self.old self.new }
        ensures cause { HasCause (⟦<MemDisk as Disk>⟧.faults self.old) (⟦<MemDisk as Disk>⟧.faults self.new) result }
        ensures kind { SameKind ⟦<MemDisk as Disk>⟧.told ⟦<MemDisk as Disk>⟧.honest ⟦<MemDisk as Disk>⟧.order ⟦<MemDisk as Disk>⟧.orders self.old self.new }
        ensures fuse { Burns (⟦<MemDisk as Disk>⟧.fuse self.old) (⟦<MemDisk as Disk>⟧.fuse self.new) result }
    {
        if self.counts.takes_call() {
            return Err(Failed);
        }
        if self.pending.is_empty() {
            return Ok(());
        }
        self.stable.land_all(&self.pending);
        end_epoch(self.alloc, &mut self.pending, &mut self.past, End::Synced);
        Ok(())
    }
}

impl Rig for MemDisk {
    ghost use Rattle.delf_disk.specs.MemDisk.{seen_of, stable_of, pending_of, fails_of, calls_of, starved_of, KeepsPending};

    // It takes no memory.
    fn cut_power(&mut self, pick: u64)
        ensures picked { seen_of self.new ≡ picked pick (pending_of self.old) (stable_of self.old) }
        ensures stable { stable_of self.new ≡ seen_of self.new }
        ensures none { pending_of self.new ≡ [] }
        ensures fails { fails_of self.new ≡ [] }
        ensures fuse { ⟦<MemDisk as Disk>⟧.fuse self.new ≡ 0 }
        ensures one { ⟦<MemDisk as Disk>⟧.may_leave self.old (seen_of self.new) }
        ensures order { ⟦<MemDisk as Disk>⟧.order self.new ≡ Order.CutPower pick }
        ensures images { Moves Same (⟦<MemDisk as Disk>⟧.moment self.old) (⟦<MemDisk as Disk>⟧.moment self.new) (⟦<MemDisk as Disk>⟧.may_leave self.old) (⟦<MemDisk as Disk>⟧.may_leave self.new)
            (⟦<MemDisk as Disk>⟧.left_since self.old) (⟦<MemDisk as Disk>⟧.left_since self.new) }
        ensures telling { SameTelling ⟦<MemDisk as Disk>⟧.told ⟦<MemDisk as Disk>⟧.honest self.old self.new }
        ensures count { ⟦<MemDisk as Disk>⟧.faults self.new ≡ ⟦<MemDisk as Disk>⟧.faults self.old }
        ensures starved { starved_of self.new ≡ starved_of self.old }
        ensures calls { calls_of self.new ≡ calls_of self.old }
        ensures orders { NextCount (⟦<MemDisk as Disk>⟧.orders self.old) (⟦<MemDisk as Disk>⟧.orders self.new) }
    {
        self.counts.cut_power(pick);
        if self.pending.is_empty() {
            return;
        }
        self.live.copy(&self.stable);
        self.live.leave_all(&self.pending, pick);
        self.stable.leave_all(&self.pending, pick);
        end_epoch(
            self.alloc,
            &mut self.pending,
            &mut self.past,
            End::Cut { pick },
        );
    }

    fn fail_after(&mut self, n: u32)
        ensures seen { seen_of self.new ≡ seen_of self.old }
        ensures pending { KeepsPending self.old self.new }
        ensures fails { fails_of self.new ≡ fails_of self.old }
        ensures fuse { ⟦<MemDisk as Disk>⟧.fuse self.new ≡ n }
        ensures order { ⟦<MemDisk as Disk>⟧.order self.new ≡ Order.FailAfter n }
        ensures images { Moves Same (⟦<MemDisk as Disk>⟧.moment self.old) (⟦<MemDisk as Disk>⟧.moment self.new) (⟦<MemDisk as Disk>⟧.may_leave self.old) (⟦<MemDisk as Disk>⟧.may_leave self.new)
            (⟦<MemDisk as Disk>⟧.left_since self.old) (⟦<MemDisk as Disk>⟧.left_since self.new) }
        ensures telling { SameTelling ⟦<MemDisk as Disk>⟧.told ⟦<MemDisk as Disk>⟧.honest self.old self.new }
        ensures count { ⟦<MemDisk as Disk>⟧.faults self.new ≡ ⟦<MemDisk as Disk>⟧.faults self.old }
        ensures starved { starved_of self.new ≡ starved_of self.old }
        ensures calls { calls_of self.new ≡ calls_of self.old }
        ensures orders { NextCount (⟦<MemDisk as Disk>⟧.orders self.old) (⟦<MemDisk as Disk>⟧.orders self.new) }
    {
        self.counts.fail_after(n);
    }
}
