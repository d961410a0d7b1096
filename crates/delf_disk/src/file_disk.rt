//! A disk of two files.
ghost use Rattle.std.specs.Prelude.{◌≡◌, false, [], IfOk};
ghost use Rattle.delf_disk.specs.Paths.{LieIn};
ghost use Rattle.delf_disk.specs.Plain.{not_plain};

use crate::area::{Area, Failed, Order};
use crate::counts::Counts;
use crate::disk::{Disk, Rig};
use crate::files::{Lazy, Paths};
use std::alloc::{AllocError, Global};
use std::fs::{File, Files};

/// The files `delf.journal` and `delf.vault` in one folder.
///
/// Both are opened by the first call, whichever it is, or made for their owner alone, and then the folder
/// is synced. A lock on the journal keeps every other program out for as long as this one lives. No file
/// of it has a descriptor of the standard streams, also where those are closed.
///
/// A sync is a data-sync of each file that was written since the last one, the journal first. The first
/// sync covers both, since an earlier run of the program may have written them. After one that failed the
/// file still counts as written, but that is no mending: the system has usually dropped the bytes that it
/// could not bring to the medium, and answers Ok the next time. So whoever is answered `Failed` by a sync
/// has to stop, and to open the store anew.
///
/// The first call is answered `Failed`, and so is each later one until it succeeds, where the folder is
/// missing, where there is no right to it or to its files or no space for them, or where another program
/// has the store. It tells nothing of its bytes, as no contract can say what a file gives. A call that an
/// order lets fail touches no file.
#[derive(Drop)]
pub struct FileDisk<'a, R: Files<File = File> + Sync> {
    rt: &'a R,
    files: Lazy,
    counts: Counts,
}

impl<'a, R: Files<File = File> + Sync> FileDisk<'a, R> {
    /// The disk in this folder, which has to be there. No file is touched yet.
    pub fn at(rt: &'a R, alloc: Global, folder: &str) -> Result<FileDisk<'a, R>, AllocError>
        ensures files { IfOk result (λ disk. LieIn folder.now disk.files.paths) }
        ensures faults { IfOk result (λ disk. ⟦<FileDisk<'a, R> as Disk>⟧.faults disk ≡ 0) }
        ensures fuse { IfOk result (λ disk. ⟦<FileDisk<'a, R> as Disk>⟧.fuse disk ≡ 0) }
        ensures order { IfOk result (λ disk. ⟦<FileDisk<'a, R> as Disk>⟧.order disk ≡ Order.Nothing) }
        ensures orders { IfOk result (λ disk. ⟦<FileDisk<'a, R> as Disk>⟧.orders disk ≡ 0) }
    {
        Ok(FileDisk {
            rt,
            files: Lazy::of(Paths::of(alloc, folder)?),
            counts: Counts::of(Vec::new(alloc)),
        })
    }
}

impl<R: Files<File = File> + Sync> Disk for FileDisk<'_, R> {
    ghost told = { λ _. false };

    ghost honest = { λ _. false };

    ghost seen = { λ _. record { journal = []; vault = [] } };

    ghost may_leave = { λ _ _. ⊥ };

    ghost moment = { λ _. 0 };

    ghost left_since = { λ _ _ _. ⊥ };

    ghost faults = { λ d. d.counts.faults };

    ghost order = { λ d. d.counts.order };

    ghost orders = { λ d. d.counts.orders };

    ghost fuse = { λ d. d.counts.fuse };

    ghost counts_now = { λ d t c plain le now. now };

    ghost only_now = { λ d c plain left. left };

    ghost reads_as_image = { λ d plain. not_plain plain };

    fn len(&mut self, area: Area) -> Result<u64, Failed> {
        if self.counts.takes_call() {
            return Err(Failed);
        }
        let answer = self.files.len(self.rt, area);
        self.counts.take(answer)
    }

    fn read(&mut self, area: Area, at: u64, buf: &mut [u8]) -> Result<(), Failed> {
        if self.counts.takes_call() {
            return Err(Failed);
        }
        let answer = self.files.read(self.rt, area, at, buf);
        self.counts.take(answer)
    }

    fn write(&mut self, area: Area, at: u64, bytes: &[u8]) -> Result<(), Failed> {
        if self.counts.takes_call() {
            return Err(Failed);
        }
        let answer = self.files.write(self.rt, area, at, bytes);
        self.counts.take(answer)
    }

    fn sync(&mut self) -> Result<(), Failed> {
        if self.counts.takes_call() {
            return Err(Failed);
        }
        let answer = self.files.sync(self.rt);
        self.counts.take(answer)
    }
}

impl<R: Files<File = File> + Sync> Rig for FileDisk<'_, R> {
    // It loses nothing.
    fn cut_power(&mut self, pick: u64) {
        self.counts.cut_power(pick);
    }

    fn fail_after(&mut self, n: u32) {
        self.counts.fail_after(n);
    }
}
