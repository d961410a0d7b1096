//! Where a line stands in a script, and what it adds.

ghost use Rattle.std.specs.Prelude.{◌≡◌, IfOk};
ghost use Rattle.std.specs.List.{All};
ghost use Rattle.schema_lang.specs.Spelling.{IsSpellable};
ghost use Rattle.script_lang.specs.Parts.{Reads};
ghost use Rattle.script_lang.specs.Commands.{script_line};
ghost use Rattle.script_lang.specs.Blocks.{lane_line};
ghost use Rattle.script_lang.specs.Scripts.{behind_script_line, behind_head, behind_lane_line, next_lane, all_lanes, with_command, with_block, behind_words};
ghost use Rattle.script_lang.specs.TypeNumbers.{CommandNames, BlockNames, ReadingNames};

use crate::block::{LaneLine, is_lane_line, read_lane_line};
use crate::command::{BlockHead, ScriptLine, read_script_line};
use crate::fault::{LineFault, Wrong};
use delf_model::{Command, Lane, LaneCommand, List, Schema, Script};
use schema_lang::Word;
use std::alloc::{AllocError, Global};

/// A block whose `end` is still owed.
#[derive(Drop)]
pub struct OpenBlock {
    pub head: BlockHead,
    /// The lanes before the one that is read.
    pub whole: List<Lane>,
    /// The commands of that one so far.
    pub commands: List<LaneCommand>,
}

/// Where the next line of a script stands.
#[derive(Drop)]
pub enum Place {
    /// Outside of a block.
    Outside,
    /// Behind the first line of a block, where a lane has to begin.
    Opened(BlockHead),
    /// In a lane of a block.
    InLane(OpenBlock),
}

/// What was read of a script so far.
#[derive(Drop)]
pub struct Reading {
    /// The commands that are whole.
    pub commands: Script,
    pub place: Place,
}

fn behind_script_line(
    alloc: Global,
    schema: &Schema,
    blocks: bool,
    mut commands: Script,
    words: &[Word],
) -> Result<Reading, LineFault>
    requires spellable { IsSpellable schema.now }
    requires names { All (CommandNames schema.now) commands }
    ensures reading { Reads result (behind_script_line commands (script_line schema.now blocks words.now)) }
    ensures names { IfOk result (ReadingNames schema.now) }
{
    match read_script_line(alloc, schema, blocks, words)? {
        ScriptLine::Serial(command) => {
            commands.push(command)?;
            Ok(Reading {
                commands,
                place: Place::Outside,
            })
        }
        ScriptLine::Block(head) => Ok(Reading {
            commands,
            place: Place::Opened(head),
        }),
    }
}

fn behind_head(
    alloc: Global,
    commands: Script,
    head: BlockHead,
    is_lane: bool,
) -> Result<Reading, Wrong>
    ensures { result ≡ behind_head commands head is_lane }
{
    if !is_lane {
        return Err(Wrong::Malformed);
    }
    let block = OpenBlock {
        head,
        whole: List::new(alloc),
        commands: List::new(alloc),
    };
    Ok(Reading {
        commands,
        place: Place::InLane(block),
    })
}

// The lanes of a block, with the one that is read last.
fn all_lanes(block: OpenBlock) -> Result<List<Lane>, AllocError>
    ensures { IfOk result (λ lanes. lanes ≡ all_lanes block) }
{
    let OpenBlock {
        head: _,
        mut whole,
        commands,
    } = block;
    whole.push(Lane { commands })?;
    Ok(whole)
}

fn next_lane(
    alloc: Global,
    commands: Script,
    head: BlockHead,
    whole: List<Lane>,
) -> Result<Reading, Wrong>
    ensures { result ≡ next_lane commands head whole }
{
    if whole.len() >= 16 {
        return Err(Wrong::OutOfRange);
    }
    let block = OpenBlock {
        head,
        whole,
        commands: List::new(alloc),
    };
    Ok(Reading {
        commands,
        place: Place::InLane(block),
    })
}

fn with_command(block: OpenBlock, command: LaneCommand) -> Result<OpenBlock, AllocError>
    ensures { IfOk result (λ more. more ≡ with_command block command) }
{
    let OpenBlock {
        head,
        whole,
        mut commands,
    } = block;
    commands.push(command)?;
    Ok(OpenBlock {
        head,
        whole,
        commands,
    })
}

fn with_block(
    mut commands: Script,
    head: BlockHead,
    lanes: List<Lane>,
) -> Result<Script, AllocError>
    ensures { IfOk result (λ more. more ≡ with_block commands head lanes) }
{
    let BlockHead {
        quiet,
        workers,
        turns,
    } = head;
    commands.push(Command::Par {
        quiet,
        workers,
        turns,
        lanes,
    })?;
    Ok(commands)
}

fn behind_lane_line(
    alloc: Global,
    schema: &Schema,
    commands: Script,
    block: OpenBlock,
    words: &[Word],
) -> Result<Reading, LineFault>
    requires spellable { IsSpellable schema.now }
    requires names { All (CommandNames schema.now) commands }
    requires block_names { BlockNames schema.now block }
    ensures reading { Reads result (behind_lane_line commands block (lane_line schema.now words.now)) }
    ensures names { IfOk result (ReadingNames schema.now) }
{
    let head = block.head;
    match read_lane_line(alloc, schema, words)? {
        LaneLine::Begin => Ok(next_lane(alloc, commands, head, all_lanes(block)?)?),
        LaneLine::Within(command) => Ok(Reading {
            commands,
            place: Place::InLane(with_command(block, command)?),
        }),
        LaneLine::End => Ok(Reading {
            commands: with_block(commands, head, all_lanes(block)?)?,
            place: Place::Outside,
        }),
    }
}

/// What was read of a script with a line of these words.
#[tactic(auto, unfolding(crate::specs::Scripts::behind_words))]
pub fn behind_words(
    alloc: Global,
    schema: &Schema,
    blocks: bool,
    reading: Reading,
    words: &[Word],
) -> Result<Reading, LineFault>
    requires spellable { IsSpellable schema.now }
    requires names { ReadingNames schema.now reading }
    ensures reading { Reads result (behind_words schema.now blocks reading words.now) }
    ensures names { IfOk result (ReadingNames schema.now) }
{
    let Reading { commands, place } = reading;
    match place {
        Place::Outside => behind_script_line(alloc, schema, blocks, commands, words),
        Place::Opened(head) => Ok(behind_head(alloc, commands, head, is_lane_line(words))?),
        Place::InLane(block) => behind_lane_line(alloc, schema, commands, block, words),
    }
}
