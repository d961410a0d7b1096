//! The book as the turn lock guards it, and what one turn does to it.
ghost use Rattle.std.specs.Prelude.{◌≡◌, ◌*◌, ◌+◌, ◌-◌, ◌≤◌, [], Some, OnOk, length};
ghost use Rattle.delf_book.specs.Books.{HasNumbers};
ghost use Rattle.delf_service.specs.Standings.{seat_of, standing_in, blank_standing};
ghost use Rattle.delf_service.specs.Follows.{Follows};
ghost use Rattle.delf_service.specs.FollowLaws.{Follows-itself, Follows-chain, Follows-grows};
ghost use Rattle.delf_service.specs.Calls.{CallsIn};
ghost use Rattle.delf_service.specs.Asks.{AsksIn, down_fault};
ghost use Rattle.delf_service.specs.Works.{BeginsIn, EndsIn, IsLast, MeetsFirst, TurnsIn, step_fault};
ghost use Rattle.delf_service.specs.Blocks.{IsBehind, Rests};

use crate::answers::{Answer, Asked, Began, Turned};
use crate::standing::Standing;
use delf_book::{Begun, Book, BookFault, Prepared, StepFault, Worked};
use delf_disk::Rig;
use delf_model::{Call, Entry, GraphStore, LIMIT, Moment, ObjectId};
use seat_lock::Counted;
use std::alloc::AllocError;

/// A book under the lock, with the moment that each call hands in, where all hand in one, and how many lanes of a block
/// are left.
#[derive(Drop)]
pub struct Held<G: GraphStore, R: Rig> {
    pub(crate) book: Book<G, R>,
    pub(crate) moment: Option<Moment>,
    pub(crate) lanes: u8,
}

// That a book of this length is down, where it is.
fn fault_if(down: bool, len: u32) -> Option<BookFault>
    ensures { result ≡ down_fault down len }
{
    if down {
        Some(BookFault::Down { len })
    } else {
        None
    }
}

// The fault of the step of a claim, as one of a step.
fn fault_of(fault: BookFault) -> StepFault
    ensures { result ≡ step_fault fault }
{
    match fault {
        BookFault::Down { len } => StepFault::Down { len },
        BookFault::DiskFault { len } => StepFault::DiskFault { len },
    }
}

// What the last steps end with at this fault of one. The only error is want of memory.
fn last(fault: &StepFault) -> Result<(), AllocError>
    ensures { OnOk result (IsLast fault.now) }
{
    match fault {
        StepFault::OutOfMemory => Err(AllocError),
        _ => Ok(()),
    }
}

impl<G: GraphStore, R: Rig> Counted for Held<G, R> {
    type State = Standing;

    type Entry = Entry;

    ghost state = { λ h. standing_in R.Disk h.book h.moment h.lanes };

    ghost blank = { blank_standing };

    ghost entries = { λ s. s.history };

    ghost maker = { seat_of };

    ghost follows = { Follows };

    ghost itself = { Follows-itself };

    ghost chain = { Follows-chain };

    ghost grows = { Follows-grows };

    fn count(&self) -> u32 {
        self.book.len()
    }
}

impl<G: GraphStore, R: Rig> Held<G, R> {
    // A writing call of this seat.
    pub(crate) fn submit(&mut self, now: Moment, seat: u32, call: &Call) -> Answer
        requires numbers { HasNumbers self.old.book.rules call.now }
        requires seat { seat ≤ 64 * (length self.old.book.history + 1) }
        ensures { CallsIn (standing_in R.Disk self.old.book self.old.moment self.old.lanes) (standing_in R.Disk self.new.book self.new.moment self.new.lanes) now seat call.now result }
    {
        let at = self.book.len();
        let reply = self.book.call(now, seat, call);
        self.book.standing();
        Answer { at, reply }
    }

    // The object with its owner, and its payload, at the front of the bytes. A down book says that it is down.
    pub(crate) fn ask(&mut self, id: ObjectId) -> (Asked, [u8; LIMIT])
        ensures { AsksIn (standing_in R.Disk self.old.book self.old.moment self.old.lanes) (standing_in R.Disk self.new.book self.new.moment self.new.lanes) id result.1 result.0 }
    {
        let mut bytes = [0; LIMIT];
        let at = self.book.len();
        self.book.standing();
        let Some(row) = self.book.get(id) else {
            let fault = fault_if(self.book.is_down(), at);
            let asked = Asked {
                at,
                found: None,
                fault,
            };
            return (asked, bytes);
        };
        let fault = self.book.read_object(id, &mut bytes).err();
        self.book.standing();
        let asked = Asked {
            at,
            found: Some(row),
            fault,
        };
        (asked, bytes)
    }

    // The first half of a turn of a worker: a step that is made at once, or a claimed row. Where each legal step is claimed, all
    // claims are given up, and a step of the serial order is made.
    pub(crate) fn begin(&mut self, now: Moment) -> Began
        ensures { BeginsIn (standing_in R.Disk self.old.book self.old.moment self.old.lanes) (standing_in R.Disk self.new.book self.new.moment self.new.lanes) now result }
    {
        let _len = self.book.len();
        self.book.standing();
        let outcome = self.book.begin(now);
        self.book.standing();
        match outcome {
            Ok(Begun::Stepped { position }) => Began::Over(Ok(Turned::Stepped { position })),
            Ok(Begun::Claimed(claim)) => Began::Claimed(claim),
            Ok(Begun::Idle { len }) => Began::Over(Ok(Turned::Idle { len })),
            Ok(Begun::Held { .. }) => Began::Over(self.work(now)),
            Err(fault) => Began::Over(Err(fault)),
        }
    }

    // The second half: the step of the claim, whose record was made. None where the claim was given up meanwhile.
    pub(crate) fn end(
        &mut self,
        now: Moment,
        prepared: Prepared,
    ) -> Option<Result<Turned, StepFault>>
        ensures { EndsIn (standing_in R.Disk self.old.book self.old.moment self.old.lanes) (standing_in R.Disk self.new.book self.new.moment self.new.lanes) now result }
    {
        let _len = self.book.len();
        self.book.standing();
        let _claims = self.book.claims();
        if !self.book.holds(prepared.claim()) {
            return None;
        }
        let outcome = self.book.finish(now, prepared);
        self.book.standing();
        match outcome {
            Ok(position) => Some(Ok(Turned::Stepped { position })),
            Err(fault) => Some(Err(fault_of(fault))),
        }
    }

    // The first step of the serial order, whatever was claimed.
    pub(crate) fn work(&mut self, now: Moment) -> Result<Turned, StepFault>
        ensures turns { TurnsIn (standing_in R.Disk self.old.book self.old.moment self.old.lanes) (standing_in R.Disk self.new.book self.new.moment self.new.lanes) now result }
        ensures first { MeetsFirst (standing_in R.Disk self.old.book self.old.moment self.old.lanes) now result }
        ensures none { self.new.book.held ≡ [] }
    {
        self.book.forget();
        self.step(now)
    }

    // The same, where nothing is claimed.
    fn step(&mut self, now: Moment) -> Result<Turned, StepFault>
        requires { self.old.book.held ≡ [] }
        ensures turns { TurnsIn (standing_in R.Disk self.old.book self.old.moment self.old.lanes) (standing_in R.Disk self.new.book self.new.moment self.new.lanes) now result }
        ensures first { MeetsFirst (standing_in R.Disk self.old.book self.old.moment self.old.lanes) now result }
        ensures none { self.new.book.held ≡ [] }
    {
        let _len = self.book.len();
        self.book.standing();
        let outcome = self.book.work(now);
        self.book.standing();
        match outcome {
            Ok(Worked::Stepped { position }) => Ok(Turned::Stepped { position }),
            Ok(Worked::Idle { len }) => Ok(Turned::Idle { len }),
            Err(fault) => Err(fault),
        }
    }

    // One lane less is left.
    pub(crate) fn leave(&mut self)
        ensures { (self.new.book ≡ self.old.book) × (self.new.moment ≡ self.old.moment) × (self.new.lanes ≡ self.old.lanes - 1) }
    {
        self.lanes = self.lanes.saturating_sub(1);
    }

    // Makes steps until none is left, or a fault is met. The only error is want of memory for a step.
    pub(crate) fn finish(&mut self, now: Moment) -> Result<(), AllocError>
        requires moment { self.old.moment ≡ Some now }
        ensures moment { self.new.moment ≡ self.old.moment }
        ensures behind { IsBehind (standing_in R.Disk self.old.book self.old.moment self.old.lanes) (standing_in R.Disk self.new.book self.new.moment self.new.lanes) }
        ensures none { self.new.book.held ≡ [] }
        ensures rests { OnOk result (Rests (standing_in R.Disk self.new.book self.new.moment self.new.lanes) now) }
    {
        loop {
            let outcome = self.work(now);
            let _len = self.book.len();
            self.book.standing();
            match outcome {
                Ok(turned) => match turned {
                    Turned::Stepped { .. } => {}
                    Turned::Idle { .. } => return Ok(()),
                },
                Err(fault) => return last(&fault),
            }
        }
    }
}
