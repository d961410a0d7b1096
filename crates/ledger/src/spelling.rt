//! Legal entries have a spelling.
ghost use Rattle.std.specs.Prelude.{◌≡◌, true};
ghost use Rattle.entry_codec.specs.EntryHead.{IsEntry};
ghost use Rattle.delf_model.specs.State.{State};
ghost use Rattle.delf_model.specs.Legal.{is_legal};

use delf_model::{Entry, Rules};
use entry_codec::has_spelling;

/// A legal entry has a spelling. Nothing is spelled.
pub(crate) fn is_spelled(rules: &Rules, entry: &Entry)
    requires { (s : State) × (rules.now ≡ s.rules) × (is_legal s entry.now ≡ true) }
    ensures { IsEntry entry.now }
{
    let _kinds = rules.objects_len();
    has_spelling(entry);
}
