//! A disk that is read in pieces.
ghost use Rattle.std.specs.Prelude.{◌≡◌, ◌+◌, ◌^◌, ◌≤◌, ◌<◌, length, take, drop, OnOk};
ghost use Rattle.delf_disk.specs.Areas.{Areas, area_of};
ghost use Rattle.delf_disk.specs.Images.{Same, Moves};
ghost use Rattle.delf_disk.specs.Causes.{HasCause};
ghost use Rattle.delf_disk.specs.Plain.{Plain, SameKind};

use crate::piece::{PIECE, Piece};
use delf_disk::{Area, Disk, Failed};
use std::marker::Model;

/// A disk that reads 65,536 bytes at once, or as many as there are, and answers from them as long as it can. All else it
/// hands on.
pub(crate) struct ReadAhead<D: Disk> {
    pub(crate) disk: D,
    pub(crate) piece: Piece,
}

impl<D: Disk> Model for ReadAhead<D> {
    ghost use Rattle.delf_disk.specs.Plain.{Plain};
    ghost use Rattle.delf_recovery.specs.Stretches.{IsPartOf};

    ghost Value = { D };

    ghost view = { λ ahead. ahead.disk };

    ghost invariant = { λ ahead. Plain (D.told ahead.disk) (D.honest ahead.disk) → IsPartOf ahead.piece (D.seen ahead.disk) };
}

impl<D: Disk> ReadAhead<D> {
    /// The disk below.
    pub(crate) fn into_disk(self) -> D
        ensures { result ≡ self }
    {
        let ReadAhead { disk, piece: _ } = self;
        disk
    }

    // Reads a piece that begins at this place, and answers from it.
    fn refill(&mut self, area: Area, at: u64, buf: &mut [u8]) -> Result<(), Failed>
        requires { Plain (D.told self.old) (D.honest self.old) → at + length buf.old ≤ length (area_of area (D.seen self.old)) }
        ensures bytes { OnOk result (Plain (D.told self.old) (D.honest self.old)
            → buf.new ≡ take (length buf.old) (drop at (area_of area (D.seen self.old)))) }
        ensures seen { Plain (D.told self.old) (D.honest self.old) → D.seen self.new ≡ D.seen self.old }
        ensures images { Plain (D.told self.old) (D.honest self.old)
            → Moves Same (D.moment self.old) (D.moment self.new) (D.may_leave self.old) (D.may_leave self.new) (D.left_since self.old) (D.left_since self.new) }
        ensures none_lost { Plain (D.told self.old) (D.honest self.old) → (c : Areas) → D.may_leave self.old c → D.may_leave self.new c }
        ensures kind { SameKind D.told D.honest D.order D.orders self.old self.new }
        ensures cause { HasCause (D.faults self.old) (D.faults self.new) result }
    {
        let len = self.disk.len(area)?;
        let n = len.saturating_sub(at).min(PIECE as u64) as usize;
        if n < buf.len() {
            return self.disk.read(area, at, buf);
        }
        self.piece.load(&mut self.disk, area, at, n)?;
        self.piece.give(area, at, buf);
        Ok(())
    }
}

impl<D: Disk> Disk for ReadAhead<D> {
    ghost told = { D.told };

    ghost honest = { D.honest };

    ghost seen = { D.seen };

    ghost may_leave = { D.may_leave };

    ghost moment = { D.moment };

    ghost left_since = { D.left_since };

    ghost faults = { D.faults };

    ghost order = { D.order };

    ghost orders = { D.orders };

    // It takes no order.
    ghost fuse = { λ _. 0 };

    ghost counts_now = { D.counts_now };

    ghost only_now = { D.only_now };

    ghost reads_as_image = { D.reads_as_image };

    fn len(&mut self, area: Area) -> Result<u64, Failed> {
        self.disk.len(area)
    }

    fn read(&mut self, area: Area, at: u64, buf: &mut [u8]) -> Result<(), Failed> {
        let given = self.piece.give(area, at, buf);
        if given == buf.len() {
            return Ok(());
        }
        self.refill(area, at + given as u64, &mut buf[given..])
    }

    fn write(&mut self, area: Area, at: u64, bytes: &[u8]) -> Result<(), Failed> {
        let written = self.disk.write(area, at, bytes);
        match (&written, at.checked_add(bytes.len() as u64)) {
            (Ok(()), Some(end)) => self.piece.pass(area, end),
            _ => self.piece.clear(),
        }
        written
    }

    fn sync(&mut self) -> Result<(), Failed> {
        self.disk.sync()
    }
}
