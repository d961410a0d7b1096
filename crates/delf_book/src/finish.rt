//! Claimed steps that are made.
ghost use Rattle.std.specs.Prelude.{◌≡◌, Contains};
ghost use Rattle.delf_disk.specs.Plain.{Plain, SameKind};
ghost use Rattle.delf_model.specs.Room.{moment_of};
ghost use Rattle.delf_book.specs.Begun.{FinishAnswers, FinishPayloads, FinishIsSafe, FinishKeepsSeals};
ghost use Rattle.delf_book.specs.Books.{state_in, CountsFault};

use crate::answers::BookFault;
use crate::beside::Beside;
use crate::book::Book;
use crate::claims::{leave, taken_by};
use crate::erasing::write_taken;
use delete_step::Prepared;
use delf_disk::{Failed, Rig};
use delf_model::{Entry, GraphStore, Moment};
use ledger::moment_at;
use std::snapshot::Snapshot;

impl<G: GraphStore, R: Rig> Book<G, R> {
    /// Makes the Cut or Erase of a held claim, where the clock says `now`, and gives its position. On either fault the
    /// claim is gone. It takes no memory, and no room that is kept.
    pub fn finish(&mut self, now: Moment, prepared: Prepared) -> Result<u32, BookFault>
        requires { Contains self.old.held prepared }
        ensures answer { FinishAnswers self.old self.new (moment_of (state_in self.old) now) prepared result }
        ensures payloads { Plain (R.Disk.told self.old.rig) (R.Disk.honest self.old.rig)
            → FinishPayloads self.old self.new (moment_of (state_in self.old) now) prepared result }
        ensures crash { Plain (R.Disk.told self.old.rig) (R.Disk.honest self.old.rig)
            → FinishIsSafe R.Disk.moment R.Disk.may_leave R.Disk.left_since self.old self.new (moment_of (state_in self.old) now) prepared result }
        ensures seals { Plain (R.Disk.told self.old.rig) (R.Disk.honest self.old.rig)
            → FinishKeepsSeals self.old (moment_of (state_in self.old) now) prepared result }
        ensures kind { SameKind R.Disk.told R.Disk.honest R.Disk.order R.Disk.orders self.old.rig self.new.rig }
        ensures cause { CountsFault (R.Disk.faults self.old.rig) (R.Disk.faults self.new.rig) result }
    {
        let len = self.ledger.len();
        let _held = self.ledger.held();
        let what = taken_by(prepared.claim().item());
        self.ledger.give_up(&what);
        leave(&mut self.claims, prepared.claim());
        if self.down {
            return Err(BookFault::Down { len });
        }
        let entry = Entry {
            moment: moment_at(self.ledger.moment(), now),
            what,
        };
        match write_taken(
            &mut self.ledger,
            &mut self.logs,
            &mut self.rig,
            &entry,
            &prepared,
        ) {
            Ok(()) => {
                let rested = Snapshot::of(&self.rig);
                self.rested = rested;
                Ok(len)
            }
            Err(Failed) => {
                self.down = true;
                self.beside = Some(Beside::of(&entry, &[]));
                Err(BookFault::DiskFault { len })
            }
        }
    }
}
