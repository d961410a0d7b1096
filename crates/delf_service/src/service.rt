//! One book, and the seats at it.
ghost use Rattle.std.specs.Prelude.{◌≡◌, ℕ, ◌+◌, ◌*◌, ◌<◌, ◌≤◌, ◌++◌, [], length, IfOk, IfErr, IsOkAnd, None, Option, Some, map, slice_get};
ghost use Rattle.delf_model.specs.declared.TheConstants.{LIMIT};
ghost use Rattle.delf_book.specs.Books.{HasNumbers};
ghost use Rattle.seat_lock.specs.Views.{IsSameSeat, IsRoot, CanSplit, split_root, split_off, out_of};
ghost use Rattle.seat_lock.specs.Locks.{view, IsOf, start_of};
ghost use Rattle.delf_service.specs.Asks.{AsksIn, Inquired};
ghost use Rattle.delf_service.specs.Calls.{CallsIn, Submitted, added_by};
ghost use Rattle.delf_service.specs.Follows.{IsMoment};
ghost use Rattle.delf_service.specs.Seats.{Starts, JoinedTo, Closed};
ghost use Rattle.delf_service.specs.Standings.{standing_in, standing_of};
ghost use Rattle.delf_service.specs.Turns.{Keeps};
ghost use Rattle.delf_service.specs.Workers.{LeavesOne, one_left};
ghost use Rattle.delf_service.specs.Works.{BeginsIn, BeginsTurn, EndsIn, EndsTurn, TurnsIn, Worked};

use crate::answers::{Answer, Asked, Began, Turned};
use crate::gate::Gate;
use crate::held::Held;
use delf_book::{Book, Prepared, StepFault};
use delf_disk::Rig;
use delf_model::{Call, GraphStore, LIMIT, Moment, ObjectId};
use seat_lock::SeatLock;
use std::alloc::{AllocError, Global};
use std::sync::Wait;

// How often a turn claims a row anew behind a claim that was given up.
const ROUNDS: u32 = 8;

/// A seat at a service: the root, or one that was opened from it.
pub type Seat<G, R> = seat_lock::Seat<Held<G, R>>;

/// A book that seats take turns at. Each call that is handed a seat requires that it is one of this service.
#[derive(Drop)]
pub struct Service<G: GraphStore, R: Rig> {
    pub(crate) lock: SeatLock<Held<G, R>>,
}

impl<G: GraphStore, R: Rig> Service<G, R> {
    /// A service over the book, and its root seat, which has seen the book. Its number is the first one above 0 and
    /// above each seat of the history. An `Err` is want of memory, and hands the book back.
    pub fn start(alloc: Global, book: Book<G, R>) -> Result<(Service<G, R>, Seat<G, R>), Book<G, R>>
        ensures ok { IfOk result (λ r. IsOf r.0.lock r.1 × Starts (standing_of R.Disk book None) (view r.1)) }
        ensures begun { IfOk result (λ r. standing_in R.Disk (start_of r.0.lock).book (start_of r.0.lock).moment (start_of r.0.lock).lanes ≡ standing_of R.Disk book None) }
        ensures err { IfErr result (λ b. b ≡ book) }
    {
        Service::with_lanes(alloc, book, None, 0)
    }

    // The same, where each call hands in this moment, and so many lanes of a block are left.
    pub(crate) fn with_lanes(
        alloc: Global,
        book: Book<G, R>,
        moment: Option<Moment>,
        lanes: u8,
    ) -> Result<(Service<G, R>, Seat<G, R>), Book<G, R>>
        ensures ok { IfOk result (λ r. IsOf r.0.lock r.1 × Starts (standing_in R.Disk book moment lanes) (view r.1)) }
        ensures begun { IfOk result (λ r. standing_in R.Disk (start_of r.0.lock).book (start_of r.0.lock).moment (start_of r.0.lock).lanes ≡ standing_in R.Disk book moment lanes) }
        ensures err { IfErr result (λ b. b ≡ book) }
    {
        let _len = book.len();
        let first = book.top_seat() + 1;
        match SeatLock::new(
            alloc,
            Held {
                book,
                moment,
                lanes,
            },
            first,
        ) {
            Ok((lock, root)) => Ok((Service { lock }, root)),
            Err(
                Held {
                    book,
                    moment: _,
                    lanes: _,
                },
            ) => Err(book),
        }
    }

    /// A seat with the root's next number, which has seen what the root has seen. It takes no memory, so it is `Ok`,
    /// and it waits for nobody.
    pub fn open_seat(&self, root: &mut Seat<G, R>) -> Result<Seat<G, R>, AllocError>
        requires ours { IsOf self.now.lock root.old }
        requires room { CanSplit (view root.old) }
        ensures root { IsOf self.now.lock root.new × (view root.new ≡ split_root (view root.old)) }
        ensures seat { IsOkAnd result (λ s. IsOf self.now.lock s × (view s ≡ split_off (view root.old))) }
    {
        self.lock.split(root)
    }

    /// Waits for the turn, and makes a writing call of this seat, where the clock says `now`.
    pub fn submit<W: Wait>(&self, rt: &W, seat: &mut Seat<G, R>, now: Moment, call: &Call) -> Answer
        requires ours { IsOf self.now.lock seat.old }
        requires numbers { HasNumbers (view seat.old).seen.state.key.rules call.now }
        requires number { (view seat.old).number ≤ 64 * (length (view seat.old).seen.state.history + 1) }
        requires moment { IsMoment (view seat.old).seen.state.key now }
        ensures ours { IsOf self.now.lock seat.new }
        ensures same { IsSameSeat (view seat.old) (view seat.new) }
        ensures call { Submitted (view seat.old) (view seat.new) now call.now result }
        ensures made { (view seat.new).made ≡ (view seat.old).made ++ added_by (view seat.new).seen.state result }
    {
        let number = seat.number();
        self.lock.with(
            rt,
            seat,
            |held: &mut Held<G, R>| -> Answer
                requires { HasNumbers held.old.book.rules call.now × (number ≤ 64 * (length held.old.book.history + 1)) }
                ensures { CallsIn (standing_in R.Disk held.old.book held.old.moment held.old.lanes) (standing_in R.Disk held.new.book held.new.moment held.new.lanes) now number call.entry.now result }
            { held.submit(now, number, call) },
        )
    }

    /// Waits for the turn, and answers the object with its owner. Its payload is read to the front of `buf`, which has
    /// room for 512 bytes; `fault` says why it was not. A book that is down says so whether the object is there or not.
    pub fn ask<W: Wait>(&self, rt: &W, seat: &mut Seat<G, R>, id: ObjectId, buf: &mut [u8]) -> Asked
        requires ours { IsOf self.now.lock seat.old }
        requires room { LIMIT ≤ length buf.old }
        ensures ours { IsOf self.now.lock seat.new }
        ensures same { IsSameSeat (view seat.old) (view seat.new) × ((view seat.new).made ≡ (view seat.old).made) }
        ensures asked { Inquired (view seat.old) (view seat.new) id buf.new result }
    {
        let (asked, bytes) = self.lock.with(
            rt,
            seat,
            |held: &mut Held<G, R>| -> (Asked, [u8; LIMIT])
                ensures asked { AsksIn (standing_in R.Disk held.old.book held.old.moment held.old.lanes) (standing_in R.Disk held.new.book held.new.moment held.new.lanes) id result.1 result.0 }
                ensures size { length result.1 ≡ LIMIT }
            { held.ask(id) },
        );
        buf[..LIMIT].copy_from_slice(&bytes);
        asked
    }

    /// Waits for the turn, and makes a legal step, where the clock says `now`. Of a cut or an erasure the row is claimed, its
    /// record is made without the turn, and the step in another turn, where nobody gave the claim up meanwhile. Where each
    /// legal step is claimed, all claims are given up, and the first step of the serial order is made. The gate is told of
    /// the step without the turn.
    pub fn work<W: Wait, Q: Gate>(
        &self,
        rt: &W,
        seat: &mut Seat<G, R>,
        now: Moment,
        gate: &Q,
    ) -> Result<Turned, StepFault>
        requires ours { IsOf self.now.lock seat.old }
        requires moment { IsMoment (view seat.old).seen.state.key now }
        ensures ours { IsOf self.now.lock seat.new }
        ensures same { IsSameSeat (view seat.old) (view seat.new) × ((view seat.new).made ≡ (view seat.old).made) }
        ensures turn { Worked (view seat.old) (view seat.new) now result }
    {
        self.turn(rt, seat, now, gate).0
    }

    // The same, and how many lanes of a block are left.
    pub(crate) fn turn<W: Wait, Q: Gate>(
        &self,
        rt: &W,
        seat: &mut Seat<G, R>,
        now: Moment,
        gate: &Q,
    ) -> (Result<Turned, StepFault>, u8)
        requires ours { IsOf self.now.lock seat.old }
        requires moment { IsMoment (view seat.old).seen.state.key now }
        ensures ours { IsOf self.now.lock seat.new }
        ensures same { IsSameSeat (view seat.old) (view seat.new) × ((view seat.new).made ≡ (view seat.old).made) }
        ensures turn { Worked (view seat.old) (view seat.new) now result.0 }
        ensures lanes { result.1 ≡ (view seat.new).seen.state.lanes }
    {
        let (outcome, lanes) = self.step(rt, seat, now, gate);
        if let Ok(Turned::Stepped { position }) = outcome {
            gate.after(position);
        }
        (outcome, lanes)
    }

    // The same, where the gate is not told yet. After so many claims that others gave up, it makes a step in one turn.
    fn step<W: Wait, Q: Gate>(
        &self,
        rt: &W,
        seat: &mut Seat<G, R>,
        now: Moment,
        gate: &Q,
    ) -> (Result<Turned, StepFault>, u8)
        requires ours { IsOf self.now.lock seat.old }
        requires moment { IsMoment (view seat.old).seen.state.key now }
        ensures ours { IsOf self.now.lock seat.new }
        ensures same { IsSameSeat (view seat.old) (view seat.new) × ((view seat.new).made ≡ (view seat.old).made) }
        ensures turn { Worked (view seat.old) (view seat.new) now result.0 }
        ensures lanes { result.1 ≡ (view seat.new).seen.state.lanes }
    {
        for _round in 0..ROUNDS {
            let (outcome, lanes) = self.round(rt, seat, now, gate);
            if let Some(outcome) = outcome {
                return (outcome, lanes);
            }
        }
        self.work_serially(rt, seat, now)
    }

    // Begins a step and ends it. None where its claim was given up meanwhile.
    fn round<W: Wait, Q: Gate>(
        &self,
        rt: &W,
        seat: &mut Seat<G, R>,
        now: Moment,
        gate: &Q,
    ) -> (Option<Result<Turned, StepFault>>, u8)
        requires ours { IsOf self.now.lock seat.old }
        requires moment { IsMoment (view seat.old).seen.state.key now }
        ensures ours { IsOf self.now.lock seat.new }
        ensures same { IsSameSeat (view seat.old) (view seat.new) × ((view seat.new).made ≡ (view seat.old).made) }
        ensures turn { EndsTurn (view seat.old) (view seat.new) now result.0 }
        ensures lanes { result.1 ≡ (view seat.new).seen.state.lanes }
    {
        let (began, lanes) = self.begin(rt, seat, now);
        match began {
            Began::Over(outcome) => (Some(outcome), lanes),
            Began::Claimed(claim) => {
                let prepared = gate.between(claim);
                self.end(rt, seat, now, prepared)
            }
        }
    }

    // Waits for the turn, and makes the first half of a step.
    fn begin<W: Wait>(&self, rt: &W, seat: &mut Seat<G, R>, now: Moment) -> (Began, u8)
        requires ours { IsOf self.now.lock seat.old }
        requires moment { IsMoment (view seat.old).seen.state.key now }
        ensures ours { IsOf self.now.lock seat.new }
        ensures same { IsSameSeat (view seat.old) (view seat.new) × ((view seat.new).made ≡ (view seat.old).made) }
        ensures turn { BeginsTurn (view seat.old) (view seat.new) now result.0 }
        ensures lanes { result.1 ≡ (view seat.new).seen.state.lanes }
    {
        self.lock.with(
            rt,
            seat,
            |held: &mut Held<G, R>| -> (Began, u8)
                ensures step { BeginsIn (standing_in R.Disk held.old.book held.old.moment held.old.lanes) (standing_in R.Disk held.new.book held.new.moment held.new.lanes) now result.0 }
                ensures lanes { result.1 ≡ held.new.lanes }
            { (held.begin(now), held.lanes) },
        )
    }

    // Waits for the turn, and makes the second half.
    fn end<W: Wait>(
        &self,
        rt: &W,
        seat: &mut Seat<G, R>,
        now: Moment,
        prepared: Prepared,
    ) -> (Option<Result<Turned, StepFault>>, u8)
        requires ours { IsOf self.now.lock seat.old }
        requires moment { IsMoment (view seat.old).seen.state.key now }
        ensures ours { IsOf self.now.lock seat.new }
        ensures same { IsSameSeat (view seat.old) (view seat.new) × ((view seat.new).made ≡ (view seat.old).made) }
        ensures turn { EndsTurn (view seat.old) (view seat.new) now result.0 }
        ensures lanes { result.1 ≡ (view seat.new).seen.state.lanes }
    {
        self.lock.with(
            rt,
            seat,
            |held: &mut Held<G, R>| -> (Option<Result<Turned, StepFault>>, u8)
                ensures step { EndsIn (standing_in R.Disk held.old.book held.old.moment held.old.lanes) (standing_in R.Disk held.new.book held.new.moment held.new.lanes) now result.0 }
                ensures lanes { result.1 ≡ held.new.lanes }
            { (held.end(now, prepared), held.lanes) },
        )
    }

    // Waits for the turn, and makes the first step of the serial order.
    fn work_serially<W: Wait>(
        &self,
        rt: &W,
        seat: &mut Seat<G, R>,
        now: Moment,
    ) -> (Result<Turned, StepFault>, u8)
        requires ours { IsOf self.now.lock seat.old }
        requires moment { IsMoment (view seat.old).seen.state.key now }
        ensures ours { IsOf self.now.lock seat.new }
        ensures same { IsSameSeat (view seat.old) (view seat.new) × ((view seat.new).made ≡ (view seat.old).made) }
        ensures turn { Worked (view seat.old) (view seat.new) now result.0 }
        ensures lanes { result.1 ≡ (view seat.new).seen.state.lanes }
    {
        self.lock.with(
            rt,
            seat,
            |held: &mut Held<G, R>| -> (Result<Turned, StepFault>, u8)
                ensures step { TurnsIn (standing_in R.Disk held.old.book held.old.moment held.old.lanes) (standing_in R.Disk held.new.book held.new.moment held.new.lanes) now result.0 }
                ensures lanes { result.1 ≡ held.new.lanes }
            { (held.work(now), held.lanes) },
        )
    }

    // Waits for the turn, and says that one lane less is left.
    pub(crate) fn leave<W: Wait>(&self, rt: &W, seat: &mut Seat<G, R>)
        requires ours { IsOf self.now.lock seat.old }
        ensures ours { IsOf self.now.lock seat.new }
        ensures same { IsSameSeat (view seat.old) (view seat.new) × ((view seat.new).made ≡ (view seat.old).made) }
        ensures left { LeavesOne (view seat.old).seen.state (view seat.new).seen.state }
        ensures keeps { Keeps (view seat.old) (view seat.new) }
    {
        self.lock.with(
            rt,
            seat,
            |held: &mut Held<G, R>|
                ensures { standing_in R.Disk held.new.book held.new.moment held.new.lanes ≡ one_left (standing_in R.Disk held.old.book held.old.moment held.old.lanes) }
            { held.leave() },
        );
    }

    /// Ends the service, and gives the book back, which holds no claim. The seats are all that were opened and not joined, each once. It waits
    /// for nobody.
    pub fn close(self, root: Seat<G, R>, seats: Vec<Seat<G, R>>) -> Book<G, R>
        requires ours { IsOf self.lock root }
        requires each { (k : ℕ) (s : _) → slice_get seats.items k ≡ Some s → IsOf self.lock s }
        requires root { IsRoot (view root) }
        requires all { out_of (view root) ≡ length seats.items }
        ensures none { result.held ≡ [] }
        ensures closed { (moment : Option ℕ) × Closed (standing_in R.Disk (start_of self.lock).book (start_of self.lock).moment (start_of self.lock).lanes) (view root) (map (λ s. view s) seats.items) (standing_of R.Disk result moment) }
    {
        let Service { lock } = self;
        let root = join_all(&lock, root, seats);
        let Held {
            mut book,
            moment: _,
            lanes: _,
        } = lock.close(root);
        let _len = book.len();
        book.standing();
        book.forget();
        book
    }
}

// Joins the seats into the root.
fn join_all<G: GraphStore, R: Rig>(
    lock: &SeatLock<Held<G, R>>,
    mut root: Seat<G, R>,
    seats: Vec<Seat<G, R>>,
) -> Seat<G, R>
    requires ours { IsOf lock.now root }
    requires each { (k : ℕ) (s : _) → slice_get seats.items k ≡ Some s → IsOf lock.now s }
    requires root { IsRoot (view root) }
    ensures ours { IsOf lock.now result }
    ensures joined { JoinedTo (view root) (view result) (map (λ s. view s) seats.items) }
{
    for seat in seats {
        lock.join(&mut root, seat);
    }
    root
}
