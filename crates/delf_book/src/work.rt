//! Serial steps.
ghost use Rattle.std.specs.Prelude.{◌≡◌, [], false};
ghost use Rattle.delf_disk.specs.Plain.{Plain, SameKind};
ghost use Rattle.delf_model.specs.Room.{moment_of};
ghost use Rattle.delf_model.specs.Sound.{FirstIsLegal};
ghost use Rattle.delf_book.specs.Books.{state_in};
ghost use Rattle.delf_book.specs.Seals.{StepKeepsSeals};
ghost use Rattle.delf_book.specs.Steps.{StepAnswers, StepTakesRoom, StepIsSafe, StepPayloads, CountsStep};

use crate::answers::{StepFault, Worked};
use crate::beside::Beside;
use crate::book::Book;
use crate::stepping::{Halt, step};
use delf_disk::Rig;
use delf_model::{Entry, GraphStore, Moment};
use ledger::moment_at;
use std::snapshot::Snapshot;

impl<G: GraphStore, R: Rig> Book<G, R> {
    /// Makes the first step of the serial order, where no claim is held and the clock says `now`: an expiry, a cut, an
    /// erasure, a put or a purge. `Idle` comes exactly where no step is legal at this moment, and `Damaged` never over a store that stands
    /// whole.
    pub fn work(&mut self, now: Moment) -> Result<Worked, StepFault>
        requires { self.old.held ≡ [] }
        ensures answer { StepAnswers self.old self.new (moment_of (state_in self.old) now) result }
        ensures order { self.old.down ≡ false → FirstIsLegal (state_in self.old) (moment_of (state_in self.old) now) }
        ensures room { StepTakesRoom self.old self.new (moment_of (state_in self.old) now) result }
        ensures payloads { Plain (R.Disk.told self.old.rig) (R.Disk.honest self.old.rig)
            → StepPayloads self.old self.new (moment_of (state_in self.old) now) result }
        ensures crash { Plain (R.Disk.told self.old.rig) (R.Disk.honest self.old.rig)
            → StepIsSafe R.Disk.moment R.Disk.may_leave R.Disk.left_since self.old self.new (moment_of (state_in self.old) now) result }
        ensures seals { Plain (R.Disk.told self.old.rig) (R.Disk.honest self.old.rig)
            → StepKeepsSeals self.old (moment_of (state_in self.old) now) result }
        ensures kind { SameKind R.Disk.told R.Disk.honest R.Disk.order R.Disk.orders self.old.rig self.new.rig }
        ensures cause { CountsStep (R.Disk.faults self.old.rig) (R.Disk.faults self.new.rig) result }
    {
        let len = self.ledger.len();
        let _held = self.ledger.held();
        if self.down {
            return Err(StepFault::Down { len });
        }
        let moment = moment_at(self.ledger.moment(), now);
        let Some(what) = self.ledger.first_step(moment) else {
            return Ok(Worked::Idle { len });
        };
        let entry = Entry { moment, what };
        let claims = self.claims.len();
        match step(
            &mut self.ledger,
            &mut self.logs,
            &mut self.rig,
            claims,
            self.spare,
            &entry,
        ) {
            Ok(left) => {
                self.spare = left;
                let rested = Snapshot::of(&self.rig);
                self.rested = rested;
                Ok(Worked::Stepped { position: len })
            }
            Err(Halt::OutOfMemory) => Err(StepFault::OutOfMemory),
            Err(
                Halt::Damaged {
                    item,
                    stored,
                    found,
                },
            ) => Err(StepFault::Damaged {
                item,
                stored,
                found,
            }),
            Err(Halt::Failed) => {
                self.down = true;
                self.beside = Some(Beside::of(&entry, &[]));
                Err(StepFault::DiskFault { len })
            }
        }
    }
}
