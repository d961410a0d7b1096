//! One worker of a block: a seat that makes steps while lanes run.
ghost use Rattle.std.specs.Prelude.{◌≡◌, ◌≤◌, MatchBool};
ghost use Rattle.seat_lock.specs.Views.{IsSameSeat};
ghost use Rattle.seat_lock.specs.Locks.{view, IsOf};
ghost use Rattle.delf_service.specs.Follows.{Follows, IsMoment};
ghost use Rattle.delf_service.specs.Turns.{Keeps};
ghost use Rattle.delf_service.specs.Workers.{Ends, GoesOn, WorkerDone};

use crate::answers::Turned;
use crate::gate::Gate;
use crate::service::{Seat, Service};
use delf_book::StepFault;
use delf_disk::Rig;
use delf_model::{GraphStore, Moment};
use std::sync::Wait;
use std::time::Duration;

// How long a worker without a step sleeps, in microseconds: at first, and at the most.
const FIRST_PAUSE: u64 = 50;

const LONGEST_PAUSE: u64 = 2_000;

// Whether a worker ends behind this turn, with so many lanes left.
fn ends(outcome: &Result<Turned, StepFault>, lanes: u8) -> bool
    ensures { MatchBool result (Ends outcome.now lanes) (GoesOn outcome.now lanes) }
{
    match outcome {
        Ok(Turned::Stepped { .. }) => false,
        Ok(Turned::Idle { .. }) => lanes == 0,
        Err(_) => true,
    }
}

impl<G: GraphStore, R: Rig> Service<G, R> {
    // Sleeps behind a turn without a step, for so many microseconds, and answers how long to sleep behind the next one: an
    // idle worker would else take a turn between every two calls of a lane.
    fn pause_behind<W: Wait>(&self, rt: &W, outcome: &Result<Turned, StepFault>, micros: u64) -> u64
        ensures { result ≤ 2000 }
    {
        match outcome {
            Ok(Turned::Idle { .. }) => {
                self.lock.pause(rt, Duration::from_micros(micros));
                micros.saturating_mul(2).min(LONGEST_PAUSE)
            }
            _ => FIRST_PAUSE,
        }
    }

    /// Makes at most so many turns, and tells the gate of each step. It ends before where no step is legal once no lane is
    /// left, and at a fault. Behind a turn without a step it sleeps, twice as long each time up to two milliseconds.
    pub fn run_worker<W: Wait, Q: Gate>(
        &self,
        rt: &W,
        seat: &mut Seat<G, R>,
        now: Moment,
        turns: u32,
        gate: &Q,
    )
        requires ours { IsOf self.now.lock seat.old }
        requires moment { IsMoment (view seat.old).seen.state.key now }
        ensures ours { IsOf self.now.lock seat.new }
        ensures same { IsSameSeat (view seat.old) (view seat.new) × ((view seat.new).made ≡ (view seat.old).made) }
        ensures later { Follows (view seat.new).seen.state (view seat.old).seen.state }
        ensures keeps { Keeps (view seat.old) (view seat.new) }
        ensures done { WorkerDone now turns (view seat.old).seen.state (view seat.new).seen.state }
    {
        let mut micros = FIRST_PAUSE;
        for _turn in 0..turns {
            let (outcome, lanes) = self.turn(rt, seat, now, gate);
            if ends(&outcome, lanes) {
                return;
            }
            micros = self.pause_behind(rt, &outcome, micros);
        }
    }
}
