//! What the serial meaning of a script comes to, over every script: the laws that lead from the lines of a run to the history and the
//! payloads that it leaves; and that an input has one reading. Each law is the contract of a function that does nothing.
#![tactic(auto)]

pub mod found;
pub mod kept;
pub mod places;
pub mod readings;

ghost use Rattle.std.specs.Prelude.{◌≡◌, ℕ, Bool, false, List};
ghost use Rattle.delf_disk.specs.Causes.{Rose};
ghost use Rattle.delf_model.specs.declared.schema.Schema.{Schema};
ghost use Rattle.delf_model.specs.declared.script.Command.{Command};
ghost use Rattle.delf_model.specs.declared.script.Lane.{Lane};
ghost use Rattle.delf_model.specs.Legal.{Legal};
ghost use Rattle.script_runner.specs.Blocks.{RunsLanes};
ghost use Rattle.script_runner.specs.Serial.{Script};
ghost use Rattle.script_runner.specs.Worlds.{World};
ghost use Rattle.headline_laws.specs.Onward.{AreNumbered, AreSerial, GoesOn, IsSoundThroughout};

/// The first history begins the last one, and the rules stay, whatever a script meets.
pub fn history_goes_on()
    ensures { (schema : Schema) (first : World) (commands : List Command) (before now : ℕ) (text : List ℕ) (last : World) →
        Script schema first commands before now text last → GoesOn first last }
{}

/// A script leads from a legal history to a legal one, whatever it meets: with its blocks, and over each opening behind a fault.
pub fn history_stays_legal()
    ensures { (schema : Schema) (first : World) (commands : List Command) (before now : ℕ) (text : List ℕ) (last : World) →
        Legal first.rules first.history → AreNumbered first.rules commands → Script schema first commands before now text last →
        Legal last.rules last.history }
{}

/// A block leads to a legal history.
pub fn a_block_leaves_it_legal()
    ensures { (schema : Schema) (found : World) (quiet : Bool) (lanes : List Lane) (before now : ℕ) (text : List ℕ) (left : World) →
        RunsLanes schema found quiet lanes before now text left → Legal left.rules left.history }
{}

/// Where the last history is legal, the part so far is legal at each length of it, and what every legal history is. So what is reported of
/// a job at any moment of a run is what the laws of histories say of it.
pub fn every_length_is_sound()
    ensures { (w : World) → Legal w.rules w.history → IsSoundThroughout w }
{}

/// Where no disk fault is met and there is no block, a script has one meaning: from the same world the same commands have one text, and
/// lead to one world. The count of the disk's faults tells that none was met.
pub fn one_meaning()
    ensures { (schema : Schema) (first : World) (commands : List Command) (before now before' now' : ℕ) (text text' : List ℕ) (last last' : World) →
        first.down ≡ false → AreSerial commands → (Rose before now → ⊥) → (Rose before' now' → ⊥) →
        Script schema first commands before now text last → Script schema first commands before' now' text' last' → (text ≡ text') × (last ≡ last') }
{}
