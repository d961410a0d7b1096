//! What becomes of payloads and seals along a script, with its blocks.

ghost use Rattle.std.specs.Prelude.{◌≡◌, ℕ, Bool, List, Some, Ok, true, length, slice_get};
ghost use Rattle.delf_model.specs.declared.call.Call.{Call};
ghost use Rattle.delf_model.specs.declared.entry.What.{What};
ghost use Rattle.delf_model.specs.declared.schema.Schema.{Schema};
ghost use Rattle.delf_model.specs.declared.script.Command.{Command};
ghost use Rattle.delf_model.specs.declared.script.Command.TheVariants.{Submit, Par};
ghost use Rattle.delf_model.specs.declared.script.Lane.{Lane};
ghost use Rattle.delf_model.specs.declared.script.LaneCommand.TheVariants as lane;
ghost use Rattle.delf_model.specs.Legal.{Legal};
ghost use Rattle.delf_model.specs.Payloads.{is_needed, payload_at};
ghost use Rattle.delf_book.specs.Books.{given_by};
ghost use Rattle.delf_book.specs.declared.answers.Receipt.{Receipt};
ghost use Rattle.delf_service.specs.declared.answers.Answer.{Answer};
ghost use Rattle.delf_service.specs.declared.replies.LaneOut.{LaneOut};
ghost use Rattle.delf_service.specs.declared.replies.LaneReply.TheVariants.{Submitted};
ghost use Rattle.delf_service.specs.Rows.{commands_at};
ghost use Rattle.job_report.specs.declared.work.WorkEnd.TheVariants as work_end;
ghost use Rattle.script_runner.specs.Blocks.{RunsLanes};
ghost use Rattle.script_runner.specs.Serial.{Script, StepsEnd};
ghost use Rattle.script_runner.specs.Worlds.{World, state_of};
ghost use Rattle.headline_laws.specs.Kept.{HasOnlyNeeded, KeepsPayloads, IsSealed};
ghost use Rattle.headline_laws.specs.Places.{MadeAt, IsAcknowledged};

/// A position of the first history that is still needed has the payload that it had, however often its row was taken and put back.
pub fn payloads_stay()
    ensures { (schema : Schema) (first : World) (commands : List Command) (before now : ℕ) (text : List ℕ) (last : World) →
        Script schema first commands before now text last → Legal last.rules last.history → KeepsPayloads first last }
{}

/// The payload at the position of an acknowledged call, where it is needed, is what the call gave.
pub fn payloads_are_what_calls_gave()
    ensures { (schema : Schema) (first : World) (commands : List Command) (before now : ℕ) (text : List ℕ) (last : World) (asked : Call) (what : What) →
        HasOnlyNeeded first → Legal last.rules last.history → (at : MadeAt schema first commands before now text last (Submit asked)) →
        IsAcknowledged schema at.found asked at.found_count at.left_count at.line at.left what → is_needed (state_of last) (length at.found.history) ≡ true →
        payload_at last.payloads (length at.found.history) ≡ given_by asked }
{}

/// The same of the calls of lanes: the payload at the position of an accepted one, where it is needed, is what the call gave.
pub fn payloads_are_what_lanes_gave()
    ensures { (schema : Schema) (first : World) (commands : List Command) (before now : ℕ) (text : List ℕ) (last : World) (quiet : Bool) (workers turns : ℕ) (lanes : List Lane) →
        Legal last.rules last.history → (at : MadeAt schema first commands before now text last (Par quiet workers turns lanes))
        (runs : RunsLanes schema at.found quiet lanes at.found_count at.left_count at.line at.left) (place k : ℕ) (out : LaneOut) (a : Answer) (receipt : Receipt) (call : Call) →
        slice_get runs.outs place ≡ Some out → slice_get out.replies k ≡ Some (Submitted a) → a.reply ≡ Ok receipt →
        slice_get (commands_at lanes place) k ≡ Some (lane.Submit call) → is_needed (state_of last) a.at ≡ true → payload_at last.payloads a.at ≡ given_by call }
{}

/// What was sealed stays what the restoration log carries.
pub fn whole_stays_whole()
    ensures { (schema : Schema) (first : World) (commands : List Command) (before now : ℕ) (text : List ℕ) (last : World) → IsSealed first →
        Script schema first commands before now text last → Legal last.rules last.history → IsSealed last }
{}

/// From a world whose seals are those of its payloads no work ends at a damaged item.
pub fn no_damage_is_met()
    ensures { (schema : Schema) (n : ℕ) (found : World) (before now made item : ℕ) (left : World) → IsSealed found → Legal left.rules left.history →
        StepsEnd n found before now made (work_end.Damaged item) left → ⊥ }
{}
