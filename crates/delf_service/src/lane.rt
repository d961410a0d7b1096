//! One lane: a seat that makes its commands in order.
ghost use Rattle.std.specs.Prelude.{◌≡◌, ◌+◌, ◌*◌, ◌≤◌, [], Some, Option, ℕ, length, slice_get, vec_capacity, IfSome, IfNone, IsTrue};
ghost use Rattle.delf_model.specs.declared.script.LaneCommand.{LaneCommand as Commanded};
ghost use Rattle.seat_lock.specs.Views.{IsSameSeat};
ghost use Rattle.seat_lock.specs.Locks.{view, IsOf};
ghost use Rattle.delf_service.specs.Follows.{Follows, IsMoment};
ghost use Rattle.delf_service.specs.Lanes.{HasCommand, LaneTold, Ended, Makes, Stops, size_read};
ghost use Rattle.delf_service.specs.Rows.{IsOver, IsReady};
ghost use Rattle.delf_service.specs.Turns.{Keeps};
ghost use Rattle.delf_service.specs.Workers.{HasMade};

use crate::answers::Asked;
use crate::gate::Gate;
use crate::replies::LaneReply;
use crate::service::{Seat, Service};
use delf_disk::Rig;
use delf_model::{Bytes, GraphStore, LIMIT, LaneCommand, Moment};
use std::alloc::Global;
use std::sync::Wait;

// How many bytes were read at the front of the buffer.
fn size_of(asked: &Asked) -> usize
    ensures { result ≡ size_read asked.now.found asked.now.fault }
{
    match (&asked.found, &asked.fault) {
        (Some((row, _)), None) => (row.size as usize).min(LIMIT),
        _ => 0,
    }
}

impl<G: GraphStore, R: Rig> Service<G, R> {
    /// Makes one command of a lane, and tells the gate of the entry of an accepted call. None is want of memory for a
    /// payload that was asked for.
    pub fn make<W: Wait, Q: Gate>(
        &self,
        rt: &W,
        alloc: Global,
        seat: &mut Seat<G, R>,
        now: Moment,
        command: &LaneCommand,
        gate: &Q,
    ) -> Option<LaneReply>
        requires ours { IsOf self.now.lock seat.old }
        requires numbers { HasCommand (view seat.old).seen.state.key.rules command.now }
        requires number { (view seat.old).number ≤ 64 * (length (view seat.old).seen.state.history + 1) }
        requires moment { IsMoment (view seat.old).seen.state.key now }
        ensures ours { IsOf self.now.lock seat.new }
        ensures same { IsSameSeat (view seat.old) (view seat.new) }
        ensures made { IfSome result (λ r. Makes (view seat.old) (view seat.new) now command.now r) }
        ensures stopped { IfNone result (Stops (view seat.old) (view seat.new)) }
    {
        match command {
            LaneCommand::Submit(call) => {
                let answer = self.submit(rt, seat, now, call);
                if answer.reply.is_ok() {
                    gate.after(answer.at);
                }
                Some(LaneReply::Submitted(answer))
            }
            LaneCommand::Get(id) => {
                let mut bytes = [0; LIMIT];
                let asked = self.ask(rt, seat, *id, &mut bytes);
                let payload = Bytes::of(alloc, &bytes[..size_of(&asked)]).ok()?;
                Some(LaneReply::Got { asked, payload })
            }
        }
    }

    /// Makes the commands of a lane in order, with a seat that has made nothing yet, and tells the gate of each accepted
    /// call before the next command. It ends early at want of memory alone: of a call, which is then the last reply, or
    /// of a payload that was asked for, where it answers false.
    pub fn run_lane<W: Wait, Q: Gate>(
        &self,
        rt: &W,
        alloc: Global,
        seat: &mut Seat<G, R>,
        now: Moment,
        commands: &[LaneCommand],
        gate: &Q,
        replies: &mut Vec<LaneReply>,
    ) -> bool
        requires ours { IsOf self.now.lock seat.old }
        requires numbers { (k : ℕ) (c : Commanded) → slice_get commands.now k ≡ Some c → HasCommand (view seat.old).seen.state.key.rules c }
        requires number { (view seat.old).number ≤ 64 * (length (view seat.old).seen.state.history + 1) }
        requires moment { IsMoment (view seat.old).seen.state.key now }
        requires first { ((view seat.old).made ≡ []) × (replies.old.items ≡ []) }
        requires room { length commands.now ≤ vec_capacity replies.old }
        ensures ours { IsOf self.now.lock seat.new }
        ensures same { IsSameSeat (view seat.old) (view seat.new) }
        ensures later { Follows (view seat.new).seen.state (view seat.old).seen.state }
        ensures told { LaneTold (view seat.new).remembers (view seat.new).seen.state now (view seat.old).number (view seat.new).made commands.now replies.new.items }
        ensures end { IsTrue result → Ended commands.now replies.new.items }
        ensures keeps { Keeps (view seat.old) (view seat.new) }
        ensures turns { (n : ℕ) × HasMade n (view seat.old).seen.state (view seat.new).seen.state }
    {
        for command in commands {
            let Some(reply) = self.make(rt, alloc, seat, now, command, gate) else {
                return false;
            };
            let ends = reply.is_starved();
            replies.push_reserved(reply);
            if ends {
                return true;
            }
        }
        true
    }

    // Runs the lane, and then says that it is over.
    pub(crate) fn run_to_end<W: Wait, Q: Gate>(
        &self,
        rt: &W,
        alloc: Global,
        seat: &mut Seat<G, R>,
        now: Moment,
        commands: &[LaneCommand],
        gate: &Q,
        replies: &mut Vec<LaneReply>,
    ) -> bool
        requires ours { IsOf self.now.lock seat.old }
        requires ready { IsReady now commands.now (view seat.old) replies.old.items (vec_capacity replies.old) }
        ensures ours { IsOf self.now.lock seat.new }
        ensures same { IsSameSeat (view seat.old) (view seat.new) }
        ensures later { Follows (view seat.new).seen.state (view seat.old).seen.state }
        ensures told { LaneTold (view seat.new).remembers (view seat.new).seen.state now (view seat.old).number (view seat.new).made commands.now replies.new.items }
        ensures end { IsTrue result → Ended commands.now replies.new.items }
        ensures keeps { Keeps (view seat.old) (view seat.new) }
        ensures over { IsOver (view seat.old).seen.state (view seat.new).seen.state }
    {
        let fed = self.run_lane(rt, alloc, seat, now, commands, gate, replies);
        self.leave(rt, seat);
        fed
    }
}
