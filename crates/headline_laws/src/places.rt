//! The place of each command in a script, and the entry of each accepted call in the last history.

ghost use Rattle.std.specs.Prelude.{◌≡◌, ◌≤◌, ℕ, Bool, false, List, Some, length, slice_get};
ghost use Rattle.delf_model.specs.declared.call.Call.{Call};
ghost use Rattle.delf_model.specs.declared.entry.Entry.{Entry};
ghost use Rattle.delf_model.specs.declared.entry.Tag.{Tag};
ghost use Rattle.delf_model.specs.declared.entry.What.{What};
ghost use Rattle.delf_model.specs.declared.schema.Schema.{Schema};
ghost use Rattle.delf_model.specs.declared.script.Command.{Command};
ghost use Rattle.delf_model.specs.declared.script.Command.TheVariants.{Submit};
ghost use Rattle.delf_model.specs.declared.script.Lane.{Lane};
ghost use Rattle.delf_model.specs.Legal.{Legal};
ghost use Rattle.delf_model.specs.Step.{tag_of};
ghost use Rattle.delf_service.specs.declared.replies.LaneOut.{LaneOut};
ghost use Rattle.delf_service.specs.Blocks.{lane_seat};
ghost use Rattle.delf_service.specs.Rows.{commands_at};
ghost use Rattle.script_runner.specs.Blocks.{RunsLanes};
ghost use Rattle.script_runner.specs.Serial.{Script, Serves};
ghost use Rattle.script_runner.specs.Worlds.{World, entry_now};
ghost use Rattle.headline_laws.specs.Lanes.{LaneStands};
ghost use Rattle.headline_laws.specs.Onward.{GoesOn};
ghost use Rattle.headline_laws.specs.Places.{MadeAt, IsAcknowledged, CallEnds, StandsOnce, Whose};

/// Each command of a script was made at its place: it found the world that those before it led to, and those behind it go on from the
/// world that it left.
pub fn each_command_is_made()
    ensures { (schema : Schema) (first : World) (commands : List Command) (before now : ℕ) (text : List ℕ) (last : World) (k : ℕ) (command : Command) →
        slice_get commands k ≡ Some command → Script schema first commands before now text last →
        (at : MadeAt schema first commands before now text last command) × (length at.earlier ≡ k) }
{}

/// A call was acknowledged by its line, or refused, or met a disk fault, or the world was down.
pub fn each_call_ends()
    ensures { (schema : Schema) (found : World) (asked : Call) (before now : ℕ) (line : List ℕ) (left : World) →
        Serves schema found (Submit asked) before now line left → CallEnds schema found asked before now line left }
{}

/// The entry of each acknowledged call stands in the history of each later world at the position that its line tells, and no other
/// entry there has its tag. Later worlds are those that the history goes on to, as that behind a script does.
pub fn acknowledged_calls_stand_once()
    ensures { (schema : Schema) (found left last : World) (asked : Call) (before now : ℕ) (line : List ℕ) (what : What) →
        IsAcknowledged schema found asked before now line left what → GoesOn left last → Legal last.rules last.history →
        StandsOnce last.history 0 (length found.history) (entry_now found what) }
{}

/// The same of the calls of the lanes of a block: each accepted call of a lane stands once, made by the seat of the lane, they stand in
/// their order, and the block leaves no other entry of that seat.
pub fn lane_calls_stand_once()
    ensures { (schema : Schema) (found left last : World) (quiet : Bool) (lanes : List Lane) (before now : ℕ) (line : List ℕ)
        (runs : RunsLanes schema found quiet lanes before now line left) → GoesOn left last → Legal last.rules last.history →
        (place : ℕ) (out : LaneOut) → slice_get runs.outs place ≡ Some out →
        LaneStands (commands_at lanes place) runs.final found.clock (lane_seat runs.first place) out.replies left.history last.history }
{}

/// Whose each entry behind the first history is, where it has a tag: that of an acknowledged call of the script, one of a lane of a block,
/// or one that stood beside a world which a disk fault had left down, and a crash entered it. A call that met a fault may so stand or not.
pub fn each_tagged_entry_is_of_a_call()
    ensures { (schema : Schema) (first : World) (commands : List Command) (before now : ℕ) (text : List ℕ) (last : World) (p : ℕ) (entry : Entry) (tag : Tag) →
        first.down ≡ false → Script schema first commands before now text last → Legal last.rules last.history → length first.history ≤ p →
        slice_get last.history p ≡ Some entry → tag_of entry.what ≡ Some tag → Whose schema first commands before now text last p entry }
{}
