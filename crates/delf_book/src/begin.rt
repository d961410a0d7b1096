//! Steps that are begun while others are held.
ghost use Rattle.std.specs.Prelude.{◌≡◌, ◌+◌, ◌≤◌, ◌<◌, ℕ, [], true, false, length, vec_len, vec_capacity, IsTrue, IfOk, OnErr};
ghost use Rattle.delf_disk.specs.Plain.{Plain, SameKind};
ghost use Rattle.delf_model.specs.Room.{moment_of};
ghost use Rattle.held_laws.specs.Held.{takes_row as takes};
ghost use Rattle.delf_book.specs.Begun.{BeginAnswers, BeginTakesRoom, BeginPayloads, BeginIsSafe, BeginKeepsSeals, ClaimOnlyReads, MayBegin};
ghost use Rattle.delf_book.specs.Books.{state_in};
ghost use Rattle.delf_book.specs.Claims.{room_for};
ghost use Rattle.delf_book.specs.Keeping.{HasRoom};
ghost use Rattle.delf_book.specs.Steps.{CountsStep};
ghost use Rattle.job_table.specs.Next.{step_of as step_named};
ghost use Rattle.ledger.specs.Ledgers.{IsSame};

use crate::answers::{Begun, StepFault};
use crate::beside::Beside;
use crate::book::Book;
use crate::erasing::read_taken;
use crate::logs::Logs;
use crate::ready::make_step_room;
use crate::stepping::{Halt, step};
use delete_step::Claim;
use delf_disk::{Failed, Rig};
use delf_model::{Entry, GraphStore, Moment, What};
use job_table::Next;
use ledger::{Ledger, moment_at};
use std::alloc::AllocError;
use std::snapshot::Snapshot;

impl<G: GraphStore, R: Rig> Book<G, R> {
    /// Takes a legal step that no claim holds, where the clock says `now`; with none held it is the first of the serial
    /// order. An expiry, a put and a purge are made at once; of a cut or an erasure the row is claimed, and its payload
    /// read. `Idle` comes exactly where no step is legal, `Held` exactly where some is and a claim holds each.
    pub fn begin(&mut self, now: Moment) -> Result<Begun, StepFault>
        ensures answer { BeginAnswers self.old self.new (moment_of (state_in self.old) now) result }
        ensures room { BeginTakesRoom self.old self.new (moment_of (state_in self.old) now) result }
        ensures payloads { Plain (R.Disk.told self.old.rig) (R.Disk.honest self.old.rig)
            → BeginPayloads self.old self.new (moment_of (state_in self.old) now) result }
        ensures crash { Plain (R.Disk.told self.old.rig) (R.Disk.honest self.old.rig)
            → BeginIsSafe R.Disk.moment R.Disk.may_leave R.Disk.left_since self.old self.new (moment_of (state_in self.old) now) result }
        ensures reads { Plain (R.Disk.told self.old.rig) (R.Disk.honest self.old.rig)
            → ClaimOnlyReads R.Disk.seen R.Disk.moment R.Disk.may_leave R.Disk.left_since self.old.rig self.new.rig result }
        ensures seals { Plain (R.Disk.told self.old.rig) (R.Disk.honest self.old.rig)
            → BeginKeepsSeals self.old self.new (moment_of (state_in self.old) now) result }
        ensures kind { SameKind R.Disk.told R.Disk.honest R.Disk.order R.Disk.orders self.old.rig self.new.rig }
        ensures cause { CountsStep (R.Disk.faults self.old.rig) (R.Disk.faults self.new.rig) result }
    {
        let len = self.ledger.len();
        if self.down {
            return Err(StepFault::Down { len });
        }
        let moment = moment_at(self.ledger.moment(), now);
        let next = self.ledger.next(moment);
        match next {
            Next::Idle => Ok(Begun::Idle { len }),
            Next::Held { n } => Ok(Begun::Held { n, len }),
            Next::Expire { id } => self.make(&Entry {
                moment,
                what: What::Expire { id },
            }),
            Next::Put { job, item } => self.make(&Entry {
                moment,
                what: What::Put { job, item },
            }),
            Next::Purge { job } => self.make(&Entry {
                moment,
                what: What::Purge { job },
            }),
            Next::Erase { job, id } => self.claim(&Entry {
                moment,
                what: What::Erase { job, id },
            }),
            Next::Cut {
                job,
                edge,
                from,
                to,
            } => self.claim(&Entry {
                moment,
                what: What::Cut {
                    job,
                    edge,
                    from,
                    to,
                },
            }),
        }
    }

    /// Makes a legal step that takes no row.
    fn make(&mut self, entry: &Entry) -> Result<Begun, StepFault>
        requires up { self.old.down ≡ false }
        requires may { MayBegin self.old entry.now.moment entry.now.what }
        requires at_once { takes entry.now.what ≡ false }
        ensures answer { BeginAnswers self.old self.new entry.now.moment result }
        ensures room { BeginTakesRoom self.old self.new entry.now.moment result }
        ensures payloads { Plain (R.Disk.told self.old.rig) (R.Disk.honest self.old.rig)
            → BeginPayloads self.old self.new entry.now.moment result }
        ensures crash { Plain (R.Disk.told self.old.rig) (R.Disk.honest self.old.rig)
            → BeginIsSafe R.Disk.moment R.Disk.may_leave R.Disk.left_since self.old self.new entry.now.moment result }
        ensures reads { Plain (R.Disk.told self.old.rig) (R.Disk.honest self.old.rig)
            → ClaimOnlyReads R.Disk.seen R.Disk.moment R.Disk.may_leave R.Disk.left_since self.old.rig self.new.rig result }
        ensures seals { Plain (R.Disk.told self.old.rig) (R.Disk.honest self.old.rig)
            → BeginKeepsSeals self.old self.new entry.now.moment result }
        ensures kind { SameKind R.Disk.told R.Disk.honest R.Disk.order R.Disk.orders self.old.rig self.new.rig }
        ensures cause { CountsStep (R.Disk.faults self.old.rig) (R.Disk.faults self.new.rig) result }
    {
        let len = self.ledger.len();
        let _held = self.ledger.held();
        let claims = self.claims.len();
        match step(
            &mut self.ledger,
            &mut self.logs,
            &mut self.rig,
            claims,
            self.spare,
            entry,
        ) {
            Ok(left) => {
                self.spare = left;
                let rested = Snapshot::of(&self.rig);
                self.rested = rested;
                Ok(Begun::Stepped { position: len })
            }
            Err(Halt::OutOfMemory) => Err(StepFault::OutOfMemory),
            Err(
                Halt::Damaged {
                    item,
                    stored,
                    found,
                },
            ) => Err(StepFault::Damaged {
                item,
                stored,
                found,
            }),
            Err(Halt::Failed) => {
                self.down = true;
                self.beside = Some(Beside::of(entry, &[]));
                Err(StepFault::DiskFault { len })
            }
        }
    }

    /// Claims the row that a legal Cut or Erase takes.
    fn claim(&mut self, entry: &Entry) -> Result<Begun, StepFault>
        requires up { self.old.down ≡ false }
        requires may { MayBegin self.old entry.now.moment entry.now.what }
        requires takes { takes entry.now.what ≡ true }
        ensures answer { BeginAnswers self.old self.new entry.now.moment result }
        ensures room { BeginTakesRoom self.old self.new entry.now.moment result }
        ensures payloads { Plain (R.Disk.told self.old.rig) (R.Disk.honest self.old.rig)
            → BeginPayloads self.old self.new entry.now.moment result }
        ensures crash { Plain (R.Disk.told self.old.rig) (R.Disk.honest self.old.rig)
            → BeginIsSafe R.Disk.moment R.Disk.may_leave R.Disk.left_since self.old self.new entry.now.moment result }
        ensures reads { Plain (R.Disk.told self.old.rig) (R.Disk.honest self.old.rig)
            → ClaimOnlyReads R.Disk.seen R.Disk.moment R.Disk.may_leave R.Disk.left_since self.old.rig self.new.rig result }
        ensures seals { Plain (R.Disk.told self.old.rig) (R.Disk.honest self.old.rig)
            → BeginKeepsSeals self.old self.new entry.now.moment result }
        ensures kind { SameKind R.Disk.told R.Disk.honest R.Disk.order R.Disk.orders self.old.rig self.new.rig }
        ensures cause { CountsStep (R.Disk.faults self.old.rig) (R.Disk.faults self.new.rig) result }
    {
        let len = self.ledger.len();
        let _held = self.ledger.held();
        let Ok(left) = ready_claim(
            &mut self.ledger,
            &mut self.logs,
            &mut self.claims,
            self.spare,
        ) else {
            return Err(StepFault::OutOfMemory);
        };
        match read_taken(&self.ledger, &self.logs, &mut self.rig, entry) {
            Ok(claim) => {
                self.ledger.hold(&entry.what);
                self.claims.push_reserved(copy_of(&claim));
                self.spare = left;
                Ok(Begun::Claimed(claim))
            }
            Err(Failed) => {
                self.down = true;
                Err(StepFault::DiskFault { len })
            }
        }
    }
}

fn copy_of(claim: &Claim) -> Claim
    ensures { result ≡ claim.now }
{
    Claim::of(*claim.item(), claim.payload())
}

/// Makes room for a claim beside what is kept for `spare` further deletion steps and the claims, or takes that of one
/// step. It gives for how many there is room once the row is claimed. The only error is want of memory, where no room is
/// kept; whatever it answers, no room is lost.
fn ready_claim<G: GraphStore>(
    ledger: &mut Ledger<G>,
    logs: &mut Logs,
    claims: &mut Vec<Claim>,
    spare: u32,
) -> Result<u32, AllocError>
    requires room { HasRoom (room_for spare (vec_len claims.old)) ledger.old.spare logs.old.journal logs.old.vault (length logs.old.carriers.items) (vec_capacity logs.old.carriers) }
    requires list { vec_len claims.old + spare ≤ vec_capacity claims.old }

    ensures ledger { IsSame ledger.old ledger.new }
    ensures journal_area { logs.new.journal.area ≡ logs.old.journal.area }
    ensures journal_sizes { logs.new.journal.sizes ≡ logs.old.journal.sizes }
    ensures vault_area { logs.new.vault.area ≡ logs.old.vault.area }
    ensures vault_sizes { logs.new.vault.sizes ≡ logs.old.vault.sizes }
    ensures carriers { logs.new.carriers.items ≡ logs.old.carriers.items }
    ensures claims { claims.new.items ≡ claims.old.items }
    ensures len { vec_len claims.new ≡ vec_len claims.old }
    ensures keeps { HasRoom (room_for spare (vec_len claims.old)) ledger.new.spare logs.new.journal logs.new.vault (length logs.new.carriers.items) (vec_capacity logs.new.carriers) }
    ensures list_keeps { vec_len claims.old + spare ≤ vec_capacity claims.new }
    ensures room { IfOk result (λ left. HasRoom (room_for left (vec_len claims.old + 1) + 1) ledger.new.spare logs.new.journal logs.new.vault (length logs.new.carriers.items) (vec_capacity logs.new.carriers)) }
    ensures list { IfOk result (λ left. vec_len claims.old + 1 + left ≤ vec_capacity claims.new) }
    ensures spare { IfOk result (λ left. spare ≤ left + 1) }
    ensures takes { IfOk result (λ left. 0 < spare → left + 1 ≡ spare) }
    ensures unreserved { OnErr result (spare ≡ 0) }
{
    if spare > 0 {
        return Ok(spare - 1);
    }
    make_step_room(ledger, logs, claims, 1)?;
    Ok(0)
}
