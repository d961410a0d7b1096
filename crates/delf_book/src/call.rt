//! Writing calls.
ghost use Rattle.std.specs.Prelude.{◌+◌, ◌*◌, ◌≤◌, length};
ghost use Rattle.delf_disk.specs.Plain.{Plain, SameKind};
ghost use Rattle.delf_model.specs.Room.{moment_of};
ghost use Rattle.delf_book.specs.Books.{Answers, CallWants, CallIsSafe, CallPayloads, CountsRefusal, HasNumbers, state_in};
ghost use Rattle.delf_book.specs.Seals.{CallKeepsSeals};

use crate::answers::Receipt;
use crate::beside::Beside;
use crate::book::Book;
use crate::calls::enter;
use crate::faults::EntryFault;
use crate::receipts::{payload_of, receipt_of};
use delf_disk::Rig;
use delf_model::{Call, Entry, GraphStore, Moment, Refusal};
use ledger::moment_at;
use std::snapshot::Snapshot;

impl<G: GraphStore, R: Rig> Book<G, R> {
    /// Makes a writing call of this seat, where the clock says `now`.
    pub fn call(&mut self, now: Moment, seat: u32, call: &Call) -> Result<Receipt, Refusal>
        requires numbers { HasNumbers self.old.rules call.now }
        requires seat { seat ≤ 64 * (length self.old.history + 1) }
        ensures answer { Answers self.old self.new (moment_of (state_in self.old) now) seat call.now result }
        ensures wants { CallWants self.old (moment_of (state_in self.old) now) seat call.now result }
        ensures payloads { Plain (R.Disk.told self.old.rig) (R.Disk.honest self.old.rig)
            → CallPayloads self.old self.new (moment_of (state_in self.old) now) seat call.now result }
        ensures crash { Plain (R.Disk.told self.old.rig) (R.Disk.honest self.old.rig)
            → CallIsSafe R.Disk.moment R.Disk.may_leave R.Disk.left_since self.old self.new (moment_of (state_in self.old) now) seat call.now result }
        ensures seals { Plain (R.Disk.told self.old.rig) (R.Disk.honest self.old.rig)
            → CallKeepsSeals self.old (moment_of (state_in self.old) now) seat call.now result }
        ensures kind { SameKind R.Disk.told R.Disk.honest R.Disk.order R.Disk.orders self.old.rig self.new.rig }
        ensures cause { CountsRefusal (R.Disk.faults self.old.rig) (R.Disk.faults self.new.rig) result }
    {
        let len = self.ledger.len();
        let _held = self.ledger.held();
        if self.down {
            return Err(Refusal::Down { len });
        }
        let _kinds = self.ledger.rules().objects_len();
        let moment = moment_at(self.ledger.moment(), now);
        let what = self.ledger.judge(moment, seat, call)?;
        let entry = Entry { moment, what };
        let receipt = receipt_of(&self.ledger, &entry.what);
        let payload = payload_of(call);
        let claims = self.claims.len();
        match enter(
            &mut self.ledger,
            &mut self.logs,
            &mut self.rig,
            claims,
            self.spare,
            &entry,
            payload,
        ) {
            Ok(()) => {
                let rested = Snapshot::of(&self.rig);
                self.rested = rested;
                Ok(receipt)
            }
            Err(EntryFault::OutOfMemory) => Err(Refusal::OutOfMemory),
            Err(EntryFault::Failed) => {
                self.down = true;
                self.beside = Some(Beside::of(&entry, payload));
                Err(Refusal::DiskFault {
                    len: receipt.position,
                })
            }
        }
    }
}
