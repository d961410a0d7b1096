// The lock and its seats.
ghost use Rattle.std.specs.Prelude.{◌≡◌, ℕ, ◌+◌, ◌<◌, ◌≤◌, ◌^◌, ◌↔◌, true, ◌%◌, [], ◌∷◌, length, replicate, IsTrue, IfOk, IfErr, IsOkAnd};
ghost use Rattle.std.specs.Fn.{FnOnceTakesAtMut, FnOnceReturnsAtMut};
ghost use Rattle.seat_lock.specs.declared.view.Stage.TheVariants.{Idle, Turn};
ghost use Rattle.seat_lock.specs.Views.{made_by, moment, staged, sees, leaves, took_turn, rooted, split_root, split_off, joined_root, IsRoot, CanSplit, out_of, IsOrdered};
ghost use Rattle.seat_lock.specs.Promises.{NoneFrom, OnlyMade, IsNext, Grows, Closes};

use crate::counted::Counted;
use crate::plays::{Cut, Draw, Glue, Learn, Look, Origin, Pass, Raise, Ring, Turns};
use crate::view::View;
use atomic_table::{Refused, Table};
use std::alloc::{AllocError, AllocFailed, Global};
use std::snapshot::Snapshot;
use std::sync::Wait;
use std::time::Duration;

// The words of the table, and its slot. Behind the first three words stand the bells.
const HISTORY: usize = 0;

const NEXT_TICKET: usize = 1;

const SERVED_TICKET: usize = 2;

const FIRST_BELL: usize = 3;

const BELLS: usize = 32;

const WORDS: usize = FIRST_BELL + BELLS;

const VALUE: usize = 0;

// How long a seat that finds the turn taken sleeps before it draws a ticket, in microseconds.
const REST: u64 = 2_000;

// The value stands on the heap, so that a turn moves its place alone.
type Place<V> = atomic_table::Seat<
    Option<Box<V>>,
    View<<V as Counted>::State, <V as Counted>::Entry>,
>;

/// A value that seats take turns at. Each call that is handed a seat requires that it is one of this lock.
#[derive(Drop)]
pub struct SeatLock<V: Counted> {
    table: Table<Option<Box<V>>, View<V::State, V::Entry>, Origin<V>, Turns, Global>,
    ghost sized: { (table.shared.table_id.words ≡ 35) × (table.shared.table_id.slots ≡ 1) },
}

/// A seat at a lock, the root or one that was split from it. A seat that is dropped stays out for ever.
pub struct Seat<V: Counted> {
    place: Place<V>,
    number: u32,
    seen: u32,
    next: u64,
    joined: u32,
    ghost live: { place.me.0.live ≡ true },
    ghost idle: { place.me.0.stage ≡ Idle },
    ghost empty: { place.me.1 ≡ [] },
    ghost numbered: { number ≡ place.me.0.number },
    ghost counted: { seen ≡ length (V.entries place.me.0.seen.state) },
    ghost next_is: { next ≡ place.me.0.next },
    ghost small: { next ≤ 2 ^ 32 },
    ghost joined_is: { joined ≡ length place.me.0.joined },
    ghost tally: { 0 < next → number + 1 + joined ≤ next },
}

// The value on the heap.
fn on_heap<V>(alloc: Global, value: V) -> Result<Box<V>, V>
    ensures ok { IfOk result (λ boxed. boxed.value ≡ value) }
    ensures err { IfErr result (λ v. v ≡ value) }
{
    match Box::new(alloc, value) {
        Ok(boxed) => Ok(boxed),
        Err(AllocFailed { value }) => Err(value),
    }
}

// The one slot of a new table.
fn first_slot<V>(alloc: Global, boxed: Box<V>) -> Result<Vec<Option<Box<V>>>, V>
    ensures ok { IfOk result (λ slots. slots.items ≡ Some boxed ∷ []) }
    ensures err { IfErr result (λ v. v ≡ boxed.value) }
{
    let mut slots = Vec::new(alloc);
    match slots.push(Some(boxed)) {
        Ok(()) => Ok(slots),
        Err(AllocFailed { value }) => {
            slots.destroy_empty();
            Err(Box::into_inner(value.unwrap()))
        }
    }
}

// What a table has that was not made.
fn slot_of<T>(refused: Refused<Option<T>, Global>) -> T
    requires { (v : T) × (refused.slots.items ≡ Some v ∷ []) }
    ensures { refused.slots.items ≡ Some result ∷ [] }
{
    let Refused { mut slots } = refused;
    let value = slots.pop().unwrap();
    slots.destroy_empty();
    value.unwrap()
}

// How many entries the value has.
fn count_of<V: Counted>(boxed: &Box<V>) -> u32
    ensures { result ≡ length (V.entries (V.state boxed.now.value)) }
{
    boxed.count()
}

// The words of a new table, whose history has so many entries.
fn first_words(count: u32) -> [u64; WORDS]
    ensures { result ≡ count ∷ 0 ∷ 0 ∷ replicate 32 0 }
{
    let mut words = [0; WORDS];
    words[HISTORY] = count as u64;
    words
}

// The bell of a ticket: the word on which its seat sleeps. Two seats have one bell only where 31 others wait between them.
fn bell_of(ticket: u64) -> usize
    ensures { result ≡ 3 + ticket % 32 }
{
    FIRST_BELL + ticket as usize % BELLS
}

impl<V: Counted> SeatLock<V> {
    ghost use Rattle.seat_lock.specs.Locks.{view, IsOf, start_of};

    /// A lock round the value, and its root seat, which has the number `first` and has seen the value's state.
    /// An `Err` is want of memory, and hands the value back.
    pub fn new(alloc: Global, value: V, first: u32) -> Result<(SeatLock<V>, Seat<V>), V>
        requires { NoneFrom V.maker first (V.entries (V.state value)) }
        ensures lock { IfOk result (λ r. IsOf r.0 r.1 × (start_of r.0 ≡ value)) }
        ensures root { IfOk result (λ r. view r.1 ≡ rooted first (V.state value)) }
        ensures err { IfErr result (λ v. v ≡ value) }
    {
        let about = Origin {
            first,
            start: Snapshot::of(&value),
        };
        let count = value.count();
        let boxed = on_heap(alloc, value)?;
        let slots = first_slot(alloc, boxed)?;
        match Table::new(alloc, &first_words(count), slots, &about) {
            Ok((table, place)) => {
                let root = Seat {
                    place,
                    number: first,
                    seen: count,
                    next: first as u64 + 1,
                    joined: 0,
                };
                Ok((SeatLock { table }, root))
            }
            Err(refused) => Err(Box::into_inner(slot_of(refused))),
        }
    }

    /// Whether `split` may be called: the seat is the root, and its next number is one.
    pub fn can_split(&self, root: &Seat<V>) -> bool
        ensures { IsTrue result ↔ CanSplit (view root.now) }
    {
        root.next > 0 && root.next <= u32::MAX as u64
    }

    /// A seat with the root's next number, which has seen what the root has seen. It takes no memory, so it is `Ok`.
    pub fn split(&self, root: &mut Seat<V>) -> Result<Seat<V>, AllocError>
        requires ours { IsOf self.now root.old }
        requires room { CanSplit (view root.old) }
        ensures root { IsOf self.now root.new × (view root.new ≡ split_root (view root.old)) }
        ensures seat { IsOkAnd result (λ s. IsOf self.now s × (view s ≡ split_off (view root.old))) }
    {
        let place = self.table.shared.split_seat::<Cut>(&mut root.place);
        let number = root.next as u32;
        root.next += 1;
        Ok(Seat {
            place,
            number,
            seen: root.seen,
            next: 0,
            joined: 0,
        })
    }

    // Sleeps for a while where the turn is taken: who has it can then come back for it many times without a call to the
    // system. Nobody wakes who rests, so no pass has to know of it.
    fn rest<R: Wait>(&self, rt: &R) {
        let shared = &self.table.shared;
        if shared.peek(NEXT_TICKET) != shared.peek(SERVED_TICKET) {
            self.pause(rt, Duration::from_micros(REST));
        }
    }

    // Waits for the turn, and takes the value.
    fn take_turn<R: Wait>(&self, rt: &R, place: &mut Place<V>) -> Box<V>
        requires ours { place.old.table_id ≡ self.now.table.shared.table_id }
        requires idle { (place.old.me.0.live ≡ true) × (place.old.me.0.stage ≡ Idle) × (place.old.me.1 ≡ []) }
        ensures ours { (place.new.table_id ≡ place.old.table_id) × (place.new.id ≡ place.old.id) }
        ensures next { IsNext V.state V.entries V.maker V.follows place.old.me.0 result.value }
        ensures found { (t : ℕ) × (at : ℕ) × (place.new.me ≡ (sees (staged place.old.me.0 (Turn t)) (moment at (V.state result.value)), (0, None) ∷ [])) }
    {
        self.rest(rt);
        let shared = &self.table.shared;
        let ticket = shared.fetch_add::<Draw>(place, NEXT_TICKET, 1);
        let bell = bell_of(ticket);
        for _ in rt.forever() {
            // The bell is read before the look, so one who passes after the look rings a bell that is not as it was read.
            let rung = shared.peek(bell);
            let served = shared.load::<Look>(place, SERVED_TICKET);
            if served == ticket {
                return shared.exchange(place, VALUE, None).unwrap();
            }
            shared.park(rt, bell, (rung % (1 << 32)) as u32);
        }
        unreachable!()
    }

    // Puts the value back, raises the history by `more` entries and passes the turn.
    fn end_turn(&self, place: &mut Place<V>, value: Box<V>, more: u32)
        requires ours { place.old.table_id ≡ self.now.table.shared.table_id }
        requires turn { (place.old.me.0.live ≡ true) × ((t : ℕ) × (place.old.me.0.stage ≡ Turn t)) × (place.old.me.1 ≡ (0, None) ∷ []) }
        requires later { V.follows (V.state value.value) place.old.me.0.seen.state }
        requires only { OnlyMade V.maker place.old.me.0.number (V.entries place.old.me.0.seen.state) (V.entries (V.state value.value)) }
        requires count { length (V.entries place.old.me.0.seen.state) + more ≡ length (V.entries (V.state value.value)) }
        requires fits { length (V.entries (V.state value.value)) < 2 ^ 32 }
        ensures ours { (place.new.table_id ≡ place.old.table_id) × (place.new.id ≡ place.old.id) }
        ensures left { (at : ℕ) × (place.new.me ≡ (staged (leaves place.old.me.0 (moment at (V.state value.value)) (made_by V.maker place.old.me.0.number (V.entries (V.state value.value)))) Idle, [])) }
        ensures ordered { IsOrdered V.follows place.new.me.0 }
    {
        let shared = &self.table.shared;
        let empty = shared.exchange(place, VALUE, Some(value));
        let None = empty else { unreachable!() };
        shared.fetch_add::<Raise>(place, HISTORY, more as u64);
        let served = shared.fetch_add::<Pass>(place, SERVED_TICKET, 1);
        self.ring(place, served.wrapping_add(1));
    }

    // Rings the bell of the ticket that is served now, and wakes those who sleep on it, where that ticket is drawn; else it
    // makes no system call. One who draws after the look finds the turn passed before it would sleep.
    fn ring(&self, place: &mut Place<V>, served: u64)
        requires { place.old.table_id ≡ self.now.table.shared.table_id }
        ensures { (place.new.table_id ≡ place.old.table_id) × (place.new.id ≡ place.old.id) × (place.new.me ≡ place.old.me) }
    {
        let shared = &self.table.shared;
        if shared.peek(NEXT_TICKET) != served {
            let bell = bell_of(served);
            shared.fetch_add::<Ring>(place, bell, 1);
            shared.wake_all(bell);
        }
    }

    /// Waits for the turn, lends the value to `f`, and passes the turn. It sleeps while it waits.
    ///
    /// What `f` finds follows what the seat has seen, and has just the entries of the seat's number that the seat made.
    /// `f` may add entries of this seat's number or of none. What it leaves is what the seat has seen afterwards.
    pub fn with<O, F: FnOnce(&mut V) -> O, R: Wait>(&self, rt: &R, seat: &mut Seat<V>, f: F) -> O
        requires ours { IsOf self.now seat.old }
        requires call { (x : V) → IsNext V.state V.entries V.maker V.follows (view seat.old) x → FnOnceTakesAtMut F.FnOnce f x }
        requires leaves { (x : V) (r : O) (y : V) → IsNext V.state V.entries V.maker V.follows (view seat.old) x → FnOnceReturnsAtMut F.FnOnce f x r y → Grows V.state V.entries V.maker V.follows (view seat.old).number x y }
        ensures ours { IsOf self.now seat.new }
        ensures turn { (x : V) × (y : V) × (a : ℕ) × (b : ℕ)
            × IsNext V.state V.entries V.maker V.follows (view seat.old) x
            × FnOnceReturnsAtMut F.FnOnce f x result y
            × (view seat.new ≡ took_turn (view seat.old) (moment a (V.state x)) (moment b (V.state y)) (made_by V.maker (view seat.old).number (V.entries (V.state y)))) }
        ensures ordered { IsOrdered V.follows (view seat.new) }
    {
        let mut value = self.take_turn(rt, &mut seat.place);
        let before = count_of(&value);
        let outcome = f(value.as_mut());
        let after = count_of(&value);
        self.end_turn(&mut seat.place, value, after - before);
        seat.seen = after;
        outcome
    }

    /// Sleeps, for no longer than `dur`. It takes no turn, so it keeps nobody waiting, and tells nothing.
    pub fn pause<R: Wait>(&self, rt: &R, dur: Duration) {
        let shared = &self.table.shared;
        let count = shared.peek(HISTORY);
        // No call wakes those who park on the history, so only the time ends this sleep.
        shared.park_timeout(rt, HISTORY, (count % (1 << 32)) as u32, dur);
    }

    /// Takes in a seat that was split from the root. The root has then seen the later of what the two have seen, and of
    /// any two states that they remember one follows the other. It waits for nobody.
    pub fn join(&self, root: &mut Seat<V>, seat: Seat<V>)
        requires ours { IsOf self.now root.old × IsOf self.now seat }
        requires root { IsRoot (view root.old) }
        ensures root { IsOf self.now root.new × (view root.new ≡ joined_root (view root.old) (view seat)) }
        ensures ordered { IsOrdered V.follows (view root.new) }
    {
        let seen = seat.seen;
        let shared = &self.table.shared;
        shared.join_seat::<Glue<V>>(&mut root.place, seat.into_place());
        shared.load::<Learn>(&mut root.place, HISTORY);
        root.seen = root.seen.max(seen);
        root.joined += 1;
    }

    /// Ends the lock, and gives the value back. No seat may be out, as `out` tells. It waits for nobody.
    pub fn close(self, root: Seat<V>) -> V
        requires ours { IsOf self root }
        requires root { IsRoot (view root) }
        requires alone { out_of (view root) ≡ 0 }
        ensures { Closes V.state V.entries V.maker V.follows (V.state (start_of self)) (view root) result }
    {
        let SeatLock { table } = self;
        let mut closed = table.close_with(root.into_place());
        let value = closed.take(VALUE);
        closed.free();
        Box::into_inner(value.unwrap())
    }
}

impl<V: Counted> Seat<V> {
    ghost use Rattle.seat_lock.specs.Locks.{view};

    fn into_place(self) -> Place<V>
        ensures { result ≡ self.place }
    {
        let Self {
            place,
            number: _,
            seen: _,
            next: _,
            joined: _,
        } = self;
        place
    }

    /// The number of the seat, which its entries have.
    pub fn number(&self) -> u32
        ensures { result ≡ (view self.now).number }
    {
        self.number
    }

    /// How many entries the list has that the seat has seen.
    pub fn seen(&self) -> u32
        ensures { result ≡ length (V.entries (view self.now).seen.state) }
    {
        self.seen
    }

    /// How many seats were split from this seat and not joined. 0 for a seat that is not the root.
    pub fn out(&self) -> u32
        ensures { result ≡ out_of (view self.now) }
    {
        if self.next == 0 {
            return 0;
        }
        (self.next - (self.number as u64 + 1 + self.joined as u64)) as u32
    }
}

impl<V: Counted> Drop for Seat<V> {
    fn drop(self) {
        let Self {
            place: _,
            number: _,
            seen: _,
            next: _,
            joined: _,
        } = self;
    }
}
