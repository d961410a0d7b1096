//! What a load makes: the generated schema, and the generated script, also without its blocks.
ghost use Rattle.std.specs.Prelude.{◌≡◌, ◌++◌, ◌∷◌, ◌≤◌, [], false, IfOk, flat_map, map, length};
ghost use Rattle.std.specs.List.{All};
ghost use Rattle.documents.specs.Loads.{IsLoad, IsStill, commands_of, load_commands, made_in_turn, block_alone, lane_alone, made_alone, restored_count, is_restored};
ghost use Rattle.documents.specs.Names.{HasNames, HasNoLanes, IsNumberedCommand};

use crate::document::Document;
use delf_model::{
    Bytes, Call, Command, JobLine, JobName, JudgeFault, Lane, LaneCommand, List, Rules, Script,
    Status,
};
use script_lang::generated;
use std::alloc::{AllocError, Global};

/// What a load of `n` objects, 8 to 20,000, makes: the generated schema with its rules, and the generated script, without
/// `blocks` in a plain row. The only error is want of memory.
pub fn load_document(alloc: Global, n: u32, blocks: bool) -> Result<Document, AllocError>
    requires above { 8 ≤ n }
    requires below { n ≤ 20000 }
    ensures load { IfOk result (IsLoad blocks n) }
    ensures named { IfOk result (λ document. HasNames document.schema document.rules) }
    ensures numbered { IfOk result (λ document. All (IsNumberedCommand document.rules) document.commands) }
    ensures still { IfOk result (λ document. All IsStill document.commands) }
    ensures lanes { blocks ≡ false → IfOk result (λ document. All HasNoLanes document.commands) }
{
    let (schema, script) = generated(alloc, n)?;
    let rules = match Rules::judge(alloc, &schema) {
        Ok(rules) => rules,
        Err(JudgeFault::Breaks(_)) => unreachable!(),
        Err(JudgeFault::OutOfMemory) => return Err(AllocError),
    };
    let commands = commands_of(alloc, script, blocks)?;
    Ok(Document {
        schema,
        rules,
        commands,
    })
}

// The commands of a load.
fn commands_of(alloc: Global, script: Script, blocks: bool) -> Result<Script, AllocError>
    ensures { IfOk result (λ commands. commands ≡ commands_of blocks script) }
{
    if blocks {
        Ok(script)
    } else {
        load_commands(alloc, script.as_slice())
    }
}

/// How many of these jobs were restored: all of their rows were put back or listed.
pub fn restored_count(lines: &[JobLine]) -> u32
    requires { length lines.now ≤ 500000 }
    ensures { result ≡ restored_count lines.now }
{
    let mut count = 0;
    for line in lines {
        if is_restored(line) {
            count += 1;
        }
    }
    count
}

fn is_restored(line: &JobLine) -> bool
    ensures { result ≡ is_restored line.now }
{
    matches!(line.status, Status::Restored { .. })
}

/// The commands of a script in a plain row: of each block its lanes one after the other, and then steps until none is
/// left. The only error is want of memory.
pub fn load_commands(alloc: Global, script: &[Command]) -> Result<Script, AllocError>
    ensures { IfOk result (λ commands. commands ≡ load_commands script.now) }
{
    let mut commands = List::new(alloc);
    for command in script {
        commands = with_command(alloc, commands, command)?;
    }
    Ok(commands)
}

fn with_command(
    alloc: Global,
    mut commands: Script,
    command: &Command,
) -> Result<Script, AllocError>
    ensures { IfOk result (λ more. more ≡ commands ++ made_in_turn command.now) }
{
    match command {
        Command::Submit(call) => commands.push(Command::Submit(copied(alloc, call)?))?,
        Command::Work { n } => commands.push(Command::Work { n: *n })?,
        Command::Tick { n } => commands.push(Command::Tick { n: *n })?,
        Command::Get(id) => commands.push(Command::Get(*id))?,
        Command::Show => commands.push(Command::Show)?,
        Command::Job(name) => {
            let name: JobName = *name;
            commands.push(Command::Job(name))?;
        }
        Command::Jobs => commands.push(Command::Jobs)?,
        Command::Report => commands.push(Command::Report)?,
        Command::Fail { n } => commands.push(Command::Fail { n: *n })?,
        Command::Crash { pick } => commands.push(Command::Crash { pick: *pick })?,
        Command::Par { lanes, .. } => return with_block(alloc, commands, lanes.as_slice()),
    }
    Ok(commands)
}

fn with_block(alloc: Global, commands: Script, lanes: &[Lane]) -> Result<Script, AllocError>
    ensures { IfOk result (λ more. more ≡ commands ++ block_alone lanes.now) }
{
    let mut commands = with_lanes(alloc, commands, lanes)?;
    commands.push(Command::Work { n: 1_000_000 })?;
    Ok(commands)
}

fn with_lanes(alloc: Global, mut commands: Script, lanes: &[Lane]) -> Result<Script, AllocError>
    ensures { IfOk result (λ more. more ≡ commands ++ flat_map lane_alone lanes.now) }
{
    for lane in lanes {
        commands = with_lane(alloc, commands, lane.commands.as_slice())?;
    }
    Ok(commands)
}

fn with_lane(
    alloc: Global,
    mut commands: Script,
    lane: &[LaneCommand],
) -> Result<Script, AllocError>
    ensures { IfOk result (λ more. more ≡ commands ++ map made_alone lane.now) }
{
    for command in lane {
        commands.push(alone(alloc, command)?)?;
    }
    Ok(commands)
}

fn alone(alloc: Global, command: &LaneCommand) -> Result<Command, AllocError>
    ensures { IfOk result (λ alone. alone ≡ made_alone command.now) }
{
    match command {
        LaneCommand::Submit(call) => Ok(Command::Submit(copied(alloc, call)?)),
        LaneCommand::Get(id) => Ok(Command::Get(*id)),
    }
}

// A copy of the call.
fn copied(alloc: Global, call: &Call) -> Result<Call, AllocError>
    ensures { IfOk result (λ copy. copy ≡ call.now) }
{
    match call {
        Call::Create { kind, id, payload } => Ok(Call::Create {
            kind: *kind,
            id: *id,
            payload: Bytes::of(alloc, payload.as_slice())?,
        }),
        Call::Update { id, payload } => Ok(Call::Update {
            id: *id,
            payload: Bytes::of(alloc, payload.as_slice())?,
        }),
        Call::Link {
            edge,
            from,
            to,
            payload,
        } => Ok(Call::Link {
            edge: *edge,
            from: *from,
            to: *to,
            payload: Bytes::of(alloc, payload.as_slice())?,
        }),
        Call::Unlink {
            edge,
            from,
            to,
            name,
        } => Ok(Call::Unlink {
            edge: *edge,
            from: *from,
            to: *to,
            name: *name,
        }),
        Call::Delete { id, name } => Ok(Call::Delete {
            id: *id,
            name: *name,
        }),
        Call::Restore { name } => {
            let name: JobName = *name;
            Ok(Call::Restore { name })
        }
    }
}
