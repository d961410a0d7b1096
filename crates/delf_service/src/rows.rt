//! Lanes and workers that run at once, each in a row of its own.
ghost use Rattle.std.specs.Prelude.{◌≡◌, ◌<◌, ℕ, [], length, slice_index_or, vec_capacity};
ghost use denote.Param.Send.{IsSync};
ghost use Rattle.seat_lock.specs.Locks.{view, IsOf};
ghost use Rattle.delf_service.specs.Rows.{IsOver, IsReady, IsRun, IsRowRun, commands_at};
ghost use Rattle.delf_service.specs.Workers.{WorkerDone};

use crate::gate::Gate;
use crate::held::Held;
use crate::replies::LaneReply;
use crate::service::Service;
use delf_disk::Rig;
use delf_model::{GraphStore, Lane, LaneCommand, Moment};
use seat_lock::{Counted, Seat};
use std::alloc::Global;
use std::sync::Wait;
use std::thread::{Threads, for_each_mut};

/// A seat with what its lane was answered, and whether it ended for want of memory for a payload. A worker's has no replies.
#[derive(Drop)]
pub struct Row<V: Counted> {
    pub seat: Seat<V>,
    pub replies: Vec<LaneReply>,
    pub starved: bool,
}

// The commands of the lane at this place; none past the lanes.
pub(crate) fn commands_of(lanes: &[Lane], place: usize) -> &[LaneCommand]
    ensures { result.now ≡ commands_at lanes.now place }
{
    match lanes.get(place) {
        Some(lane) => lane.commands.as_slice(),
        None => &[],
    }
}

impl<G: GraphStore, R: Rig> Service<G, R> {
    // Runs the lane of one row.
    fn run_lane_row<W: Wait, Q: Gate>(
        &self,
        rt: &W,
        alloc: Global,
        now: Moment,
        lanes: &[Lane],
        gate: &Q,
        place: usize,
        row: &mut Row<Held<G, R>>,
    )
        requires ours { IsOf self.now.lock row.old.seat }
        requires ready { IsReady now (commands_at lanes.now place) (view row.old.seat) row.old.replies.items (vec_capacity row.old.replies) }
        ensures ours { IsOf self.now.lock row.new.seat }
        ensures run { IsRun now (commands_at lanes.now place) (view row.old.seat) (view row.new.seat) row.new.replies.items row.new.starved }
        ensures over { IsOver (view row.old.seat).seen.state (view row.new.seat).seen.state }
    {
        let commands = commands_of(lanes, place);
        let Row {
            seat,
            replies,
            starved,
        } = row;
        *starved = !self.run_to_end(rt, alloc, seat, now, commands, gate, replies);
    }

    // Makes the turns of one row, whose seat is a worker's.
    fn run_worker_row<W: Wait, Q: Gate>(
        &self,
        rt: &W,
        now: Moment,
        turns: u32,
        gate: &Q,
        row: &mut Row<Held<G, R>>,
    )
        requires ours { IsOf self.now.lock row.old.seat }
        requires ready { IsReady now [] (view row.old.seat) row.old.replies.items (vec_capacity row.old.replies) }
        ensures ours { IsOf self.now.lock row.new.seat }
        ensures run { IsRun now [] (view row.old.seat) (view row.new.seat) row.new.replies.items row.new.starved }
        ensures done { WorkerDone now turns (view row.old.seat).seen.state (view row.new.seat).seen.state }
    {
        let Row {
            seat,
            replies: _,
            starved,
        } = row;
        *starved = false;
        self.run_worker(rt, seat, now, turns, gate);
    }

    // Runs one row: a lane, or past the lanes a worker.
    fn run_row<W: Wait, Q: Gate>(
        &self,
        rt: &W,
        alloc: Global,
        now: Moment,
        lanes: &[Lane],
        turns: u32,
        gate: &Q,
        place: usize,
        row: &mut Row<Held<G, R>>,
    )
        requires { IsOf self.now.lock row.old.seat × IsReady now (commands_at lanes.now place) (view row.old.seat) row.old.replies.items (vec_capacity row.old.replies) }
        ensures ours { IsOf self.now.lock row.new.seat }
        ensures run { IsRowRun now turns lanes.now place (view row.old.seat) (view row.new.seat) row.new.replies.items row.new.starved }
    {
        if place < lanes.len() {
            self.run_lane_row(rt, alloc, now, lanes, gate, place, row);
        } else {
            self.run_worker_row(rt, now, turns, gate, row);
        }
    }
}

impl<G: GraphStore + Send, R: Rig + Send> Service<G, R> {
    /// Runs all rows at once, on as many threads as there are rows: first the lanes, each in the row at its place, then in
    /// each row past the lanes a worker of at most so many turns. The rows' seats are ready, each with room for its replies.
    pub fn run_rows<W: Threads + Wait + Sync, Q: Gate + Sync>(
        &self,
        rt: &W,
        alloc: Global,
        now: Moment,
        lanes: &[Lane],
        turns: u32,
        gate: &Q,
        rows: &mut [Row<Held<G, R>>],
    )
        requires ready { (k : ℕ) (d : _) → k < length rows.old → IsOf self.now.lock (slice_index_or rows.old k d).seat
            × IsReady now (commands_at lanes.now k) (view (slice_index_or rows.old k d).seat) (slice_index_or rows.old k d).replies.items (vec_capacity (slice_index_or rows.old k d).replies) }
        ensures run { (k : ℕ) (d : _) → k < length rows.old → IsOf self.now.lock (slice_index_or rows.new k d).seat
            × IsRowRun now turns lanes.now k (view (slice_index_or rows.old k d).seat) (view (slice_index_or rows.new k d).seat) (slice_index_or rows.new k d).replies.items (slice_index_or rows.new k d).starved }
    {
        let service = self;
        let threads = rows.len().max(1);
        for_each_mut(
            rt,
            rows,
            threads,
            &|place: usize, row: &mut Row<Held<G, R>>|
                requires { IsSync W.row × IsSync Q.row × IsOf service.now.lock row.old.seat × IsReady now (commands_at lanes.now place) (view row.old.seat) row.old.replies.items (vec_capacity row.old.replies) }
                ensures { IsOf service.entry.now.lock row.new.seat × IsRowRun now turns lanes.entry.now place (view row.old.seat) (view row.new.seat) row.new.replies.items row.new.starved }
            { service.run_row(rt, alloc, now, lanes, turns, gate, place, row) },
        );
    }
}
