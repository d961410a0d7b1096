//! Whether the type and edge numbers of lanes are below the counts of the rules.
ghost use Rattle.std.specs.Prelude.{◌≡◌, ◌↔◌, ℕ, Some, IsTrue, slice_get};
ghost use Rattle.delf_model.specs.declared.script.LaneCommand.{LaneCommand as Commanded};
ghost use Rattle.delf_book.specs.Books.{HasNumbers};
ghost use Rattle.delf_service.specs.Lanes.{HasCommand};
ghost use Rattle.delf_service.specs.Rows.{commands_at};

use crate::rows::commands_of;
use delf_model::{Call, Lane, LaneCommand, Rules};

/// Whether the type and edge numbers of the call are below the counts of the rules.
pub fn is_numbered(rules: &Rules, call: &Call) -> bool
    ensures { IsTrue result ↔ HasNumbers rules.now call.now }
{
    match call {
        Call::Create { kind, .. } => (kind.0 as usize) < rules.objects_len(),
        Call::Link { edge, .. } => (edge.0 as usize) < rules.edges_len(),
        Call::Unlink { edge, .. } => (edge.0 as usize) < rules.edges_len(),
        Call::Update { .. } => true,
        Call::Delete { .. } => true,
        Call::Restore { .. } => true,
    }
}

// Whether those of the call of one command are.
fn is_command_numbered(rules: &Rules, command: &LaneCommand) -> bool
    ensures { IsTrue result ↔ HasCommand rules.now command.now }
{
    match command {
        LaneCommand::Submit(call) => is_numbered(rules, call),
        LaneCommand::Get(_) => true,
    }
}

// Whether those of all commands of one lane are.
fn is_lane_numbered(rules: &Rules, commands: &[LaneCommand]) -> bool
    ensures { IsTrue result ↔ ((i : ℕ) (c : Commanded) → slice_get commands.now i ≡ Some c → HasCommand rules.now c) }
{
    for command in commands {
        if !is_command_numbered(rules, command) {
            return false;
        }
    }
    true
}

/// Whether the type and edge numbers of all calls of the lanes are below the counts of the rules, as `run_lanes` asks.
pub fn are_numbered(rules: &Rules, lanes: &[Lane]) -> bool
    ensures { IsTrue result ↔ ((k i : ℕ) (c : Commanded) → slice_get (commands_at lanes.now k) i ≡ Some c → HasCommand rules.now c) }
{
    for place in 0..lanes.len() {
        if !is_lane_numbered(rules, commands_of(lanes, place)) {
            return false;
        }
    }
    true
}
