//! What an opening finds in the areas that a run leaves.

ghost use Rattle.std.specs.Prelude.{◌≡◌, ℕ, false, List};
ghost use Rattle.delf_disk.specs.Areas.{Areas};
ghost use Rattle.delf_model.specs.declared.schema.Schema.{Schema};
ghost use Rattle.delf_model.specs.declared.script.Command.{Command};
ghost use Rattle.delf_model.specs.RuleSet.{RuleSet};
ghost use Rattle.delf_book.specs.Holding.{StandWhole};
ghost use Rattle.script_runner.specs.Outcomes.{IsWhole};
ghost use Rattle.script_runner.specs.Worlds.{World, IsHeld, Opens};
ghost use Rattle.headline_laws.specs.Found.{StandForOneOf};
ghost use Rattle.headline_laws.specs.Headline.{Recovers};
ghost use Rattle.headline_laws.specs.Kept.{HasOnlyNeeded, IsSealed};
ghost use Rattle.headline_laws.specs.Onward.{IsFirst};

use delf_disk::Rig;

/// What a run that is done comes to. The history that an opening found begins the last one, which is legal and sound at each of its lengths;
/// each acknowledged call and each accepted call of a lane stands in it once, at its position, with its tag; no other tagged entry was added,
/// but by a call that met a disk fault; and whatever areas a crash may leave of the rig that came back, an opening under the same rules finds
/// that history with its payloads, and no other. `IsWhole` is what a run says of its end where it is done.
pub fn done_run_recovers<R: Rig>(rig: &R)
    ensures { (schema : Schema) (first : World) (commands : List Command) (start now : ℕ) (before after : List ℕ) → first.down ≡ false →
        (done : IsWhole schema first commands start now (R.Disk.may_leave rig.now) before after) →
        Recovers schema first commands start done.ran (R.Disk.may_leave rig.now) }
{}

/// Where a rig holds a world, an opening finds its history and payloads, or those with the entry that stands beside it.
pub fn held_is_found_again<R: Rig>(rig: &R)
    ensures { (w : World) (c : Areas) → IsHeld w (R.Disk.may_leave rig.now) → R.Disk.may_leave rig.now c → StandForOneOf w c }
{}

/// A world as an opening finds it may begin a script, and has payloads at needed positions alone.
pub fn found_may_begin()
    ensures { (rules : RuleSet) (moment : ℕ) (seen : Areas) (w : World) → Opens rules moment seen w → IsFirst w × HasOnlyNeeded w }
{}

/// Where the areas stood whole, seals included, so does the world that an opening finds.
pub fn found_whole_is_sealed()
    ensures { (rules : RuleSet) (moment : ℕ) (seen : Areas) (w : World) → Opens rules moment seen w → StandWhole rules seen → IsSealed w }
{}
