//! A shelf, whose state has more than one list: a history, payloads, whether it is down, and a key.
ghost use Rattle.std.specs.Prelude.{◌≡◌, ℕ, ◌<◌, ◌^◌, true, false, [], None, Some, IsTrue, length, vec_len, refl};
ghost use Rattle.std.proofs.Common.{◌∙◌};
ghost use Rattle.seat_lock.specs.Lists.{StartsWith, StartsWith-itself, StartsWith-chain, with_added};
ghost use Rattle.seat_lock.specs.Views.{IsSameSeat};
ghost use Rattle.seat_lock.specs.Locks.{view, IsOf};

use crate::{Counted, Seat, SeatLock};
use std::alloc::Global;
use std::collections::LinkedList;
use std::sync::Wait;
use std::test::Fail;

// An entry of the history. A note of the shelf's own has no seat.
#[derive(Clone, Copy)]
struct Note {
    by: Option<u32>,
    size: u32,
}

// What a shelf's state is, for the proofs alone.
struct Standing {
    history: LinkedList<Note>,
    payloads: LinkedList<u64>,
    down: bool,
    key: u32,
}

#[derive(Drop)]
struct Shelf {
    history: Vec<Note>,
    payloads: Vec<u64>,
    down: bool,
    key: u32,
    ghost small: { vec_len history < 2 ^ 32 },
}

impl Counted for Shelf {
    type State = Standing;

    type Entry = Note;

    ghost state = { λ s. record { history = s.history.items; payloads = s.payloads.items; down = s.down; key = s.key } };

    ghost blank = { record { history = []; payloads = []; down = false; key = 0 } };

    ghost entries = { λ s. s.history };

    ghost maker = { λ n. n.by };

    // Both lists only grow, a shelf that is down stays down with its history, and the key stays.
    ghost follows = { λ s t. StartsWith s.history t.history × StartsWith s.payloads t.payloads × (IsTrue t.down → IsTrue s.down × (s.history ≡ t.history)) × (s.key ≡ t.key) };

    ghost itself = { λ s. (StartsWith-itself s.history, StartsWith-itself s.payloads, λ d. (d, refl), refl) };

    ghost chain = { λ s t u p q. (StartsWith-chain s.history t.history u.history p.0 q.0, StartsWith-chain s.payloads t.payloads u.payloads p.1 q.1, λ d. ((p.2 (q.2 d).0).0, (p.2 (q.2 d).0).1 ∙ (q.2 d).1), p.3 ∙ q.3) };

    ghost grows = { λ s t p. p.0 };

    fn count(&self) -> u32 {
        self.history.len() as u32
    }
}

impl Shelf {
    fn new(alloc: Global, key: u32) -> Self
        ensures { (result.history.items ≡ []) × (result.key ≡ key) }
    {
        Shelf {
            history: Vec::new(alloc),
            payloads: Vec::new(alloc),
            down: false,
            key,
        }
    }

    // Notes a payload, unless the shelf is down or there is no memory.
    fn put(&mut self, note: Note, payload: u64) -> bool
        ensures history { self.new.history.items ≡ with_added result note self.old.history.items }
        ensures payloads { self.new.payloads.items ≡ with_added result payload self.old.payloads.items }
        ensures same { (self.new.down ≡ self.old.down) × (self.new.key ≡ self.old.key) }
        ensures down { IsTrue self.old.down → result ≡ false }
    {
        if self.down || self.history.len() >= u32::MAX as usize {
            return false;
        }
        if self.history.reserve(1).is_err() || self.payloads.reserve(1).is_err() {
            return false;
        }
        self.history.push_reserved(note);
        self.payloads.push_reserved(payload);
        true
    }
}

// Puts a payload in a turn of the seat.
fn put<R: Wait>(rt: &R, lock: &SeatLock<Shelf>, seat: &mut Seat<Shelf>, payload: u64) -> bool
    requires { IsOf lock.now seat.old }
    ensures ours { IsOf lock.now seat.new }
    ensures same { IsSameSeat (view seat.old) (view seat.new) }
    ensures down { IsTrue (view seat.old).seen.state.down → result ≡ false }
    ensures key { (view seat.new).seen.state.key ≡ (view seat.old).seen.state.key }
{
    let number = seat.number();
    lock.with(
        rt,
        seat,
        |shelf: &mut Shelf| -> bool
            ensures history { shelf.new.history.items ≡ with_added result (record { by = Some number; size = 8 }) shelf.old.history.items }
            ensures payloads { shelf.new.payloads.items ≡ with_added result payload shelf.old.payloads.items }
            ensures same { (shelf.new.down ≡ shelf.old.down) × (shelf.new.key ≡ shelf.old.key) }
            ensures down { IsTrue shelf.old.down → result ≡ false }
        {
            let by = Some(number);
            shelf.put(Note { by, size: 8 }, payload)
        },
    )
}

// Takes the shelf down in a turn of the seat, with a note of no seat.
fn take_down<R: Wait>(rt: &R, lock: &SeatLock<Shelf>, seat: &mut Seat<Shelf>)
    requires { IsOf lock.now seat.old }
    ensures ours { IsOf lock.now seat.new }
    ensures same { IsSameSeat (view seat.old) (view seat.new) }
    ensures down { IsTrue (view seat.new).seen.state.down }
{
    lock.with(
        rt,
        seat,
        |shelf: &mut Shelf|
            ensures { (shelf.new.history.items ≡ shelf.old.history.items) × (shelf.new.payloads.items ≡ shelf.old.payloads.items) × (shelf.new.down ≡ true) × (shelf.new.key ≡ shelf.old.key) }
        {
            shelf.down = true;
        },
    );
}

// Whether the shelf is down in a turn of the seat, and how long its history is. A shelf that the seat has seen down is
// down with the history that it had.
fn look<R: Wait>(rt: &R, lock: &SeatLock<Shelf>, seat: &mut Seat<Shelf>) -> (bool, usize)
    requires { IsOf lock.now seat.old }
    ensures ours { IsOf lock.now seat.new }
    ensures same { IsSameSeat (view seat.old) (view seat.new) }
    ensures down { IsTrue (view seat.old).seen.state.down → IsTrue result.0 × (result.1 ≡ length (view seat.old).seen.state.history) }
{
    lock.with(
        rt,
        seat,
        |shelf: &mut Shelf| -> (bool, usize)
            ensures same { shelf.new ≡ shelf.old }
            ensures read { (result.0 ≡ shelf.old.down) × (result.1 ≡ length shelf.old.history.items) }
        { (shelf.down, shelf.history.len()) },
    )
}

#[test]
fn a_shelf_that_was_seen_down_stays_down(rt: HostRuntime) -> Result<(), Fail> {
    let alloc: Global = rt.alloc();
    let Ok((lock, mut root)) = SeatLock::new(alloc, Shelf::new(alloc, 5), 0) else {
        return Err(Fail::from("no memory"));
    };
    let mut seat = lock.split(&mut root).unwrap();
    assert!(rt; put(&rt, &lock, &mut root, 10) && put(&rt, &lock, &mut seat, 20));
    take_down(&rt, &lock, &mut seat);
    assert!(rt; !put(&rt, &lock, &mut root, 30));
    lock.join(&mut root, seat);
    assert!(rt; look(&rt, &lock, &mut root) == (true, 2));
    let Shelf {
        history,
        payloads,
        down,
        key,
    } = lock.close(root);
    assert!(rt; history.len() == 2 && down && key == 5);
    assert_eq!(rt; payloads.as_slice(), [10, 20].as_slice());
    Ok(())
}
