//! Laws of the grammar, as functions without a body.

ghost use Rattle.std.specs.Prelude.{◌≡◌, ℕ, Bool, true, List, Ok};
ghost use Rattle.delf_model.specs.declared.schema.Schema.{Schema};
ghost use Rattle.delf_model.specs.declared.script.Command.{Command};
ghost use Rattle.schema_lang.specs.declared.line.Word.{Word};
ghost use Rattle.script_lang.specs.Forms.{AreSaid, SpellScript};
ghost use Rattle.script_lang.specs.Scripts.{script_of};
ghost use Rattle.script_lang.specs.declared.command.ScriptLine.{ScriptLine};
ghost use Rattle.script_lang.specs.declared.block.LaneLine.{LaneLine};
ghost use Rattle.script_lang.specs.Commands.{script_line};
ghost use Rattle.script_lang.specs.Blocks.{lane_line};
ghost use Rattle.script_lang.specs.Lines.{ScriptLineNames, LaneLineNames};
ghost use Rattle.script_lang.specs.LineForms.{IsScriptLine, IsLaneLine, IsScriptLineWithin, IsLaneLineWithin, IsShort, IsRight};

/// Lines that spell a script, one form a command and a block as a whole, are read as that script.
pub fn spelled_script_is_read()
    ensures { (schema : Schema) (lines : List (List ℕ)) (said : List (List Word)) (script : List Command) (first : ℕ)
        → AreSaid lines said → SpellScript schema script said → script_of schema true lines first ≡ Ok script }
{}

/// What is read of the words of a line is what its form says, and each fault of a line is told by the forms: malformed
/// where the words have none, out of range where they have one and pass a limit, and the name that the schema lacks.
pub fn line_forms_are_read()
    ensures outside { (schema : Schema) (blocks : Bool) (words : List Word)
        → IsRight (IsScriptLine schema blocks words) IsScriptLineWithin (ScriptLineNames schema) (script_line schema blocks words) }
    ensures every_outside { (schema : Schema) (blocks : Bool) (words : List Word) (line : ScriptLine) (name : List ℕ)
        → IsScriptLine schema blocks words line name → IsScriptLineWithin line × IsShort name → ScriptLineNames schema line
        → script_line schema blocks words ≡ Ok line }
    ensures in_lane { (schema : Schema) (words : List Word)
        → IsRight (IsLaneLine schema words) IsLaneLineWithin (LaneLineNames schema) (lane_line schema words) }
    ensures every_in_lane { (schema : Schema) (words : List Word) (line : LaneLine) (name : List ℕ)
        → IsLaneLine schema words line name → IsLaneLineWithin line × IsShort name → LaneLineNames schema line
        → lane_line schema words ≡ Ok line }
{}
