//! Lanes and workers over a book, from the first seat to the last step.
ghost use Rattle.std.specs.Prelude.{◌≡◌, ◌<◌, ◌≤◌, ◌+◌, ℕ, [], false, Some, IfOk, IsTrue, length, map, slice_get, slice_index_or, vec_capacity};
ghost use Rattle.delf_model.specs.declared.script.LaneCommand.{LaneCommand as Commanded};
ghost use Rattle.seat_lock.specs.Views.{IsRoot};
ghost use Rattle.seat_lock.specs.Locks.{view, IsOf, start_of};
ghost use Rattle.delf_service.specs.Blocks.{AreToldLanes, HasLanes, IsBlock};
ghost use Rattle.delf_service.specs.Lanes.{HasCommand};
ghost use Rattle.delf_service.specs.Rows.{IsReady, IsRowRun, commands_at};
ghost use Rattle.delf_service.specs.Seats.{Starts};
ghost use Rattle.delf_service.specs.Standings.{standing_in, standing_of};
ghost use Rattle.delf_service.specs.Openings.{HasRooms, has_next, OpenedAt, RanLanes};

use crate::gate::Gate;
use crate::held::Held;
use crate::replies::{LaneOut, LaneReply};
use crate::rows::{Row, commands_of};
use crate::service::{Seat, Service};
use delf_book::Book;
use delf_disk::Rig;
use delf_model::{GraphStore, Lane, List, Moment};
use seat_lock::Counted;
use std::alloc::{AllocError, Global};
use std::sync::Wait;
use std::thread::Threads;

// All memory of a block but that of payloads and steps: empty lists, with room.
#[derive(Drop)]
struct Room<V: Counted> {
    lists: Vec<Vec<LaneReply>>,
    rows: Vec<Row<V>>,
    seats: Vec<seat_lock::Seat<V>>,
    outs: Vec<LaneOut>,
}

// A list of replies for each of so many rows, with room for all that its lane is answered.
fn lists_for(alloc: Global, lanes: &[Lane], rows: usize) -> Result<Vec<Vec<LaneReply>>, AllocError>
    ensures count { IfOk result (λ lists. length lists.items ≡ rows) }
    ensures each { IfOk result (λ lists. HasRooms lanes.now (λ l. l.items) (λ l. vec_capacity l) lists.items) }
{
    let mut lists = Vec::with_capacity(alloc, rows)?;
    for place in 0..rows {
        let count = commands_of(lanes, place).len();
        lists.push_reserved(Vec::with_capacity(alloc, count)?);
    }
    Ok(lists)
}

// Whether no lane wanted memory for a payload.
fn are_fed<V: Counted>(rows: &[Row<V>]) -> bool
    ensures { IsTrue result → (k : ℕ) (row : _) → slice_get rows.now k ≡ Some row → row.starved ≡ false }
{
    for row in rows {
        if row.starved {
            return false;
        }
    }
    true
}

// Takes the seats and the replies out of the rows.
fn part_rows<V: Counted>(
    rows: Vec<Row<V>>,
    seats: &mut Vec<seat_lock::Seat<V>>,
    outs: &mut Vec<LaneOut>,
)
    requires none { (seats.old.items ≡ []) × (outs.old.items ≡ []) }
    requires room { (length rows.items ≤ vec_capacity seats.old) × (length rows.items ≤ vec_capacity outs.old) }
    ensures seats { seats.new.items ≡ map (λ row. row.seat) rows.items }
    ensures outs { map (λ out. out.replies) outs.new.items ≡ map (λ row. row.replies.items) rows.items }
{
    for row in rows {
        let Row {
            seat,
            replies,
            starved: _,
        } = row;
        seats.push_reserved(seat);
        outs.push_reserved(LaneOut {
            replies: List::from_vec(replies),
        });
    }
}

// All that so many rows need, of which the lanes are the first.
fn room_for<V: Counted>(alloc: Global, lanes: &[Lane], count: usize) -> Result<Room<V>, AllocError>
    ensures count { IfOk result (λ room. length room.lists.items ≡ count) }
    ensures lists { IfOk result (λ room. HasRooms lanes.now (λ l. l.items) (λ l. vec_capacity l) room.lists.items) }
    ensures none { IfOk result (λ room. (room.rows.items ≡ []) × (room.seats.items ≡ []) × (room.outs.items ≡ [])) }
    ensures fits { IfOk result (λ room. (count ≤ vec_capacity room.rows) × (count ≤ vec_capacity room.seats) × (count ≤ vec_capacity room.outs)) }
{
    let lists = lists_for(alloc, lanes, count)?;
    let rows = Vec::with_capacity(alloc, count)?;
    let seats = Vec::with_capacity(alloc, count)?;
    let outs = Vec::with_capacity(alloc, count)?;
    Ok(Room {
        lists,
        rows,
        seats,
        outs,
    })
}

impl<G: GraphStore, R: Rig> Service<G, R> {
    // Opens a seat for each list of replies, which are then its row's.
    fn open_rows(
        &self,
        root: &mut Seat<G, R>,
        lists: Vec<Vec<LaneReply>>,
        rows: &mut Vec<Row<Held<G, R>>>,
    )
        requires ours { IsOf self.now.lock root.old }
        requires root { IsRoot (view root.old) }
        requires numbers { (view root.old).next + length lists.items ≤ 4294967296 }
        requires none { rows.old.items ≡ [] }
        requires room { length lists.items ≤ vec_capacity rows.old }
        ensures ours { IsOf self.now.lock root.new }
        ensures root { view root.new ≡ has_next (view root.old) (length lists.items) }
        ensures lists { map (λ row. row.replies) rows.new.items ≡ lists.items }
        ensures each { (k : ℕ) (row : _) → slice_get rows.new.items k ≡ Some row → IsOf self.now.lock row.seat × OpenedAt (view root.old) k (view row.seat) }
    {
        for replies in lists {
            let Ok(seat) = self.open_seat(root) else {
                unreachable!()
            };
            rows.push_reserved(Row {
                seat,
                replies,
                starved: false,
            });
        }
    }
}

impl<G: GraphStore + Send, R: Rig + Send> Service<G, R> {
    // Runs the lanes and the workers of the rows.
    fn run_opened<W: Threads + Wait + Sync, Q: Gate + Sync>(
        &self,
        rt: &W,
        alloc: Global,
        now: Moment,
        lanes: &[Lane],
        turns: u32,
        gate: &Q,
        rows: &mut Vec<Row<Held<G, R>>>,
    )
        requires ready { (k : ℕ) (d : _) → k < length rows.old.items → IsOf self.now.lock (slice_index_or rows.old.items k d).seat
            × IsReady now (commands_at lanes.now k) (view (slice_index_or rows.old.items k d).seat) (slice_index_or rows.old.items k d).replies.items (vec_capacity (slice_index_or rows.old.items k d).replies) }
        ensures count { length rows.new.items ≡ length rows.old.items }
        ensures run { (k : ℕ) (d : _) → k < length rows.old.items → IsOf self.now.lock (slice_index_or rows.new.items k d).seat
            × IsRowRun now turns lanes.now k (view (slice_index_or rows.old.items k d).seat) (view (slice_index_or rows.new.items k d).seat) (slice_index_or rows.new.items k d).replies.items (slice_index_or rows.new.items k d).starved }
    {
        self.run_rows(rt, alloc, now, lanes, turns, gate, rows);
    }

    // Runs the lanes, with workers beside them, and ends the service. It answers the book, whether no lane wanted memory for a payload, and the
    // replies of each lane.
    fn run_and_close<W: Threads + Wait + Sync, Q: Gate + Sync>(
        self,
        rt: &W,
        alloc: Global,
        mut root: Seat<G, R>,
        now: Moment,
        lanes: &[Lane],
        turns: u32,
        gate: &Q,
        room: Room<Held<G, R>>,
    ) -> (Book<G, R>, bool, Vec<LaneOut>)
        requires ours { IsOf self.lock root }
        requires starts { Starts (standing_in R.Disk (start_of self.lock).book (start_of self.lock).moment (start_of self.lock).lanes) (view root) }
        requires few { (length lanes.now ≤ length room.lists.items) × (length room.lists.items ≤ 32) × (length (start_of self.lock).book.history ≤ 500000) }
        requires moment { (start_of self.lock).moment ≡ Some now }
        requires counted { (start_of self.lock).lanes ≡ length lanes.now }
        requires numbers { (k i : ℕ) (c : Commanded) → slice_get (commands_at lanes.now k) i ≡ Some c → HasCommand (start_of self.lock).book.rules c }
        requires room { HasRooms lanes.now (λ l. l.items) (λ l. vec_capacity l) room.lists.items }
        requires none { (room.rows.items ≡ []) × (room.seats.items ≡ []) × (room.outs.items ≡ []) }
        requires fits { (length room.lists.items ≤ vec_capacity room.rows) × (length room.lists.items ≤ vec_capacity room.seats) × (length room.lists.items ≤ vec_capacity room.outs) }
        ensures { RanLanes (standing_of R.Disk (start_of self.lock).book (start_of self.lock).moment) (standing_of R.Disk result.0 (Some now)) now lanes.now result.2.items result.1 }
    {
        let Room {
            lists,
            mut rows,
            mut seats,
            mut outs,
        } = room;
        self.open_rows(&mut root, lists, &mut rows);
        self.run_opened(rt, alloc, now, lanes, turns, gate, &mut rows);
        let fed = are_fed(&rows);
        part_rows(rows, &mut seats, &mut outs);
        outs.truncate(lanes.len());
        let book = self.close(root, seats);
        (book, fed, outs)
    }

    // The same, and then the steps that are left.
    fn run_block<W: Threads + Wait + Sync, Q: Gate + Sync>(
        self,
        rt: &W,
        alloc: Global,
        root: Seat<G, R>,
        now: Moment,
        lanes: &[Lane],
        turns: u32,
        gate: &Q,
        room: Room<Held<G, R>>,
    ) -> (Book<G, R>, Result<Vec<LaneOut>, AllocError>)
        requires ours { IsOf self.lock root }
        requires starts { Starts (standing_in R.Disk (start_of self.lock).book (start_of self.lock).moment (start_of self.lock).lanes) (view root) }
        requires few { (length lanes.now ≤ length room.lists.items) × (length room.lists.items ≤ 32) × (length (start_of self.lock).book.history ≤ 500000) }
        requires moment { (start_of self.lock).moment ≡ Some now }
        requires counted { (start_of self.lock).lanes ≡ length lanes.now }
        requires numbers { (k i : ℕ) (c : Commanded) → slice_get (commands_at lanes.now k) i ≡ Some c → HasCommand (start_of self.lock).book.rules c }
        requires room { HasRooms lanes.now (λ l. l.items) (λ l. vec_capacity l) room.lists.items }
        requires none { (room.rows.items ≡ []) × (room.seats.items ≡ []) × (room.outs.items ≡ []) }
        requires fits { (length room.lists.items ≤ vec_capacity room.rows) × (length room.lists.items ≤ vec_capacity room.seats) × (length room.lists.items ≤ vec_capacity room.outs) }
        ensures none { result.0.held ≡ [] }
        ensures kept { HasLanes (standing_of R.Disk (start_of self.lock).book (start_of self.lock).moment) (standing_of R.Disk result.0 (Some now)) (length lanes.now) }
        ensures told { AreToldLanes (standing_of R.Disk (start_of self.lock).book (start_of self.lock).moment) (standing_of R.Disk result.0 (Some now)) now lanes.now }
        ensures block { IfOk result.1 (λ outs. IsBlock (standing_of R.Disk (start_of self.lock).book (start_of self.lock).moment) (standing_of R.Disk result.0 (Some now)) now lanes.now outs.items) }
    {
        let (book, fed, outs) = self.run_and_close(rt, alloc, root, now, lanes, turns, gate, room);
        let mut held = Held {
            book,
            moment: Some(now),
            lanes: 0,
        };
        let finished = held.finish(now);
        let Held {
            book,
            moment: _,
            lanes: _,
        } = held;
        if !fed {
            return (book, Err(AllocError));
        }
        match finished {
            Ok(()) => (book, Ok(outs)),
            Err(fault) => (book, Err(fault)),
        }
    }
}

// The book without its claims.
fn unclaimed<G: GraphStore, R: Rig>(mut book: Book<G, R>) -> Book<G, R>
    ensures { result ≡ record book { held = [] } }
{
    book.forget();
    book
}

/// Runs at most 16 lanes at once over the book, each with a seat of its own and on a thread of its own, where the clock
/// says `now`, and tells the gate of each accepted call. At most 16 workers run beside them, each with a seat and a thread
/// of its own too: a worker makes turns of `Service::work`, and tells the gate of each step, until there is no step and no
/// lane is left, until a fault, or for `turns` turns. Behind them all it makes the steps that are left, one after the other.
///
/// The history that comes out is a legal one, whatever the order of the lanes and workers: an entry that was added is a
/// step, or has the number of the seat of one lane. With `Ok` these are the entries of that lane's accepted calls, each
/// once and in their order. A lane ends at its end, or at a call that wanted memory. An `Err` is want of memory for the
/// block, for a payload that was asked for or for one of the last steps; the book then has what lanes and workers did so
/// far, and the replies are lost: there were some, by which its entries are told as with `Ok`. A worker that wanted memory for
/// a step ends, and the last steps decide. The book is of the kind that it was, opened as it
/// was, and no claim is held by it.
pub fn run_lanes<W: Threads + Wait + Sync, G: GraphStore + Send, R: Rig + Send, Q: Gate + Sync>(
    rt: &W,
    alloc: Global,
    book: Book<G, R>,
    now: Moment,
    lanes: &[Lane],
    workers: u8,
    turns: u32,
    gate: &Q,
) -> (Book<G, R>, Result<Vec<LaneOut>, AllocError>)
    requires few { length lanes.now ≤ 16 }
    requires workers { workers ≤ 16 }
    requires numbers { (k i : ℕ) (c : Commanded) → slice_get (commands_at lanes.now k) i ≡ Some c → HasCommand book.rules c }
    ensures none { result.0.held ≡ [] }
    ensures kept { HasLanes (standing_of R.Disk book (Some now)) (standing_of R.Disk result.0 (Some now)) (length lanes.now) }
    ensures told { AreToldLanes (standing_of R.Disk book (Some now)) (standing_of R.Disk result.0 (Some now)) now lanes.now }
    ensures block { IfOk result.1 (λ outs. IsBlock (standing_of R.Disk book (Some now)) (standing_of R.Disk result.0 (Some now)) now lanes.now outs.items) }
{
    let _len = book.len();
    book.standing();
    let rows = lanes.len() + workers as usize;
    let Ok(room) = room_for(alloc, lanes, rows) else {
        return (unclaimed(book), Err(AllocError));
    };
    match Service::with_lanes(alloc, book, Some(now), lanes.len() as u8) {
        Ok((service, root)) => service.run_block(rt, alloc, root, now, lanes, turns, gate, room),
        Err(book) => (unclaimed(book), Err(AllocError)),
    }
}
