//! Laws of the grammar, as functions without a body.

ghost use Rattle.std.specs.Prelude.{◌≡◌, ◌↔◌, ℕ, Some, Ok, Err, List};
ghost use Rattle.std.specs.Str.Lines.{lines};
ghost use Rattle.schema_lang.specs.declared.line.Word.{Word};
ghost use Rattle.schema_lang.specs.Words.{words};
ghost use Rattle.schema_lang.specs.Spelled.{SpellsWords};
ghost use Rattle.schema_lang.specs.Grammar.{Part, Fault, part_of};
ghost use Rattle.schema_lang.specs.Forms.{SpellsPart, HasPartFault};

/// A line that spells words is read as these words, and so it spells no others.
pub fn spelled_words_are_read()
    ensures { (line : List ℕ) (found : List Word) → SpellsWords line found → words line ≡ Some found }
{}

/// The words that a line is read as are words that it spells.
pub fn read_words_are_spelled()
    ensures { (line : List ℕ) (found : List Word) → words line ≡ Some found → SpellsWords line found }
{}

/// A document spells a schema part by the line forms exactly where it is read as that part, and has its first fault
/// there by them exactly where it is refused with that fault. So it spells one part or has one fault, and never both.
pub fn line_forms_are_read()
    ensures spelled { (bytes : List ℕ) (part : Part) → SpellsPart bytes part ↔ (part_of (lines bytes) ≡ Ok part) }
    ensures faulty { (bytes : List ℕ) (fault : Fault) → HasPartFault bytes fault ↔ (part_of (lines bytes) ≡ Err fault) }
{}
