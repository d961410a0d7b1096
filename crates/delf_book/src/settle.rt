//! Room that is kept ready, and areas with no payload behind their closed gates.
ghost use Rattle.std.specs.Prelude.{◌≡◌, ◌≤◌, ◌<◌, false, OnOk, OnErr};
ghost use Rattle.delf_disk.specs.Areas.{Areas};
ghost use Rattle.delf_disk.specs.Plain.{Plain, SameKind};
ghost use Rattle.store_laws.specs.Stores.{Settled};
ghost use Rattle.delf_book.specs.Books.{Stayed, ReadAnswers, CountsFault, LeavesAlone};

use crate::answers::BookFault;
use crate::book::Book;
use crate::ready::make_step_room;
use crate::tails::settle_areas;
use delf_disk::{Failed, Rig};
use delf_model::GraphStore;
use std::alloc::AllocError;

impl<G: GraphStore, R: Rig> Book<G, R> {
    /// Makes room for `n` further deletion steps: an expiry, a cut, an erasure or a purge. The only error is want of
    /// memory.
    pub fn reserve(&mut self, n: u32) -> Result<(), AllocError>
        ensures ok { OnOk result (n ≤ self.new.spare) }
        // Room that is kept already is not wanting.
        ensures wants { OnErr result (self.old.spare < n) }
        ensures same { Stayed self.old self.new }
    {
        if n <= self.spare {
            return Ok(());
        }
        match make_step_room(&mut self.ledger, &mut self.logs, &mut self.claims, n) {
            Ok(()) => {
                self.spare = n;
                Ok(())
            }
            Err(AllocError) => Err(AllocError),
        }
    }

    /// Writes zeros over each area from behind its closed gate to its end, and syncs. After it no payload is there that
    /// is not needed.
    pub fn settle(&mut self) -> Result<(), BookFault>
        ensures answer { ReadAnswers self.old self.new result }
        ensures crash { Plain (R.Disk.told self.old.rig) (R.Disk.honest self.old.rig) → self.old.down ≡ false
            → LeavesAlone R.Disk.moment R.Disk.may_leave R.Disk.left_since self.old self.new.rig }
        ensures settled { OnOk result (Plain (R.Disk.told self.old.rig) (R.Disk.honest self.old.rig) → (c : Areas)
            → R.Disk.may_leave self.new.rig c → Settled self.old.rules self.old.history c) }
        ensures kind { SameKind R.Disk.told R.Disk.honest R.Disk.order R.Disk.orders self.old.rig self.new.rig }
        ensures cause { CountsFault (R.Disk.faults self.old.rig) (R.Disk.faults self.new.rig) result }
    {
        if self.down {
            return Err(BookFault::Down {
                len: self.ledger.len(),
            });
        }
        let len = self.ledger.len();
        match settle_areas(&mut self.logs, &mut self.rig) {
            Ok(()) => Ok(()),
            Err(Failed) => {
                self.down = true;
                Err(BookFault::DiskFault { len })
            }
        }
    }
}
