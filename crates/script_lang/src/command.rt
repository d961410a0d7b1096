//! The lines outside of a block.

ghost use Rattle.std.specs.Prelude.{◌≡◌, IfOk};
ghost use Rattle.delf_model.specs.declared.schema.Schema.{Schema};
ghost use Rattle.schema_lang.specs.Spelling.{IsSpellable};
ghost use Rattle.script_lang.specs.Parts.{Reads};
ghost use Rattle.script_lang.specs.Commands.{nothing_more, one_number, serial_line, block_head, par_line, opening_line, other_line, script_line};
ghost use Rattle.script_lang.specs.TypeNumbers.{CommandNames};
ghost use Rattle.script_lang.specs.Lines.{ScriptLineNames};

use crate::call::{read_call, read_job_name};
use crate::fault::{LineFault, Wrong};
use crate::part::{both, read_id, read_part, text};
use delf_model::{Command, ObjectId, Schema};
use schema_lang::Word;
use std::alloc::Global;

/// The first line of a block.
#[derive(Clone, Copy, PartialEq, Eq, Debug)]
pub struct BlockHead {
    /// Whether the lines of the lanes are left out.
    pub quiet: bool,
    /// 0 to 16.
    pub workers: u8,
    /// The steps of one worker at most, 1 to 1,000,000.
    pub turns: u32,
}

/// A line outside of a block.
#[derive(Drop)]
pub enum ScriptLine {
    /// A command on a line of its own.
    Serial(Command),
    /// A block begins.
    Block(BlockHead),
}

/// Whether nothing stands behind the first word.
pub fn nothing_more(words: &[Word]) -> Result<(), Wrong>
    ensures { result ≡ nothing_more words.now }
{
    if words.is_empty() {
        Ok(())
    } else {
        Err(Wrong::Malformed)
    }
}

/// The one number behind the first word.
pub fn one_number(least: u64, greatest: u64, words: &[Word]) -> Result<u64, Wrong>
    ensures { result ≡ one_number least greatest words.now }
{
    match words {
        [number] => read_part(number, least, greatest),
        _ => Err(Wrong::Malformed),
    }
}

/// The one id behind the first word.
pub fn one_id(words: &[Word]) -> Result<ObjectId, Wrong>
    ensures { result ≡ one_number 1 999999999999 words.now }
{
    match words {
        [id] => read_id(id),
        _ => Err(Wrong::Malformed),
    }
}

// The one number behind the first word where 1 to 1,000,000 may stand.
fn one_count(words: &[Word]) -> Result<u32, Wrong>
    ensures { result ≡ one_number 1 1000000 words.now }
{
    match one_number(1, 1_000_000, words) {
        Ok(n) => Ok(n as u32),
        Err(wrong) => Err(wrong),
    }
}

fn read_serial(keyword: &[u8], words: &[Word]) -> Result<Command, Wrong>
    ensures command { result ≡ serial_line keyword.now words.now }
    ensures names { (schema : Schema) → IfOk result (CommandNames schema) }
{
    if keyword == b"work".as_slice() {
        return Ok(Command::Work {
            n: one_count(words)?,
        });
    }
    if keyword == b"tick".as_slice() {
        let n = one_number(1, 999_999_999_999, words)?;
        return Ok(Command::Tick { n });
    }
    if keyword == b"get".as_slice() {
        return Ok(Command::Get(one_id(words)?));
    }
    if keyword == b"show".as_slice() {
        nothing_more(words)?;
        return Ok(Command::Show);
    }
    if keyword == b"job".as_slice() {
        return Ok(Command::Job(read_job_name(words)?));
    }
    if keyword == b"jobs".as_slice() {
        nothing_more(words)?;
        return Ok(Command::Jobs);
    }
    if keyword == b"report".as_slice() {
        nothing_more(words)?;
        return Ok(Command::Report);
    }
    if keyword == b"fail".as_slice() {
        return Ok(Command::Fail {
            n: one_count(words)?,
        });
    }
    if keyword == b"crash".as_slice() {
        let pick = one_number(0, u64::MAX, words)?;
        return Ok(Command::Crash { pick });
    }
    Err(Wrong::Malformed)
}

fn read_head(quiet: bool, words: &[Word]) -> Result<BlockHead, Wrong>
    ensures { result ≡ block_head quiet words.now }
{
    match words {
        [workers, most, turns, steps]
            if text(workers) == b"workers".as_slice() && text(turns) == b"turns".as_slice() => {
            let (workers, turns) = both(read_part(most, 0, 16), read_part(steps, 1, 1_000_000))?;
            Ok(BlockHead {
                quiet,
                workers: workers as u8,
                turns: turns as u32,
            })
        }
        _ => Err(Wrong::Malformed),
    }
}

fn read_par(words: &[Word]) -> Result<BlockHead, Wrong>
    ensures { result ≡ par_line words.now }
{
    match words {
        [word, more @ ..] if text(word) == b"quiet".as_slice() => read_head(true, more),
        _ => read_head(false, words),
    }
}

// The first line of a block, where blocks are served.
fn read_opening(blocks: bool, words: &[Word]) -> Result<ScriptLine, Wrong>
    ensures line { result ≡ opening_line blocks words.now }
    ensures names { (schema : Schema) → IfOk result (ScriptLineNames schema) }
{
    if !blocks {
        return Err(Wrong::Malformed);
    }
    Ok(ScriptLine::Block(read_par(words)?))
}

fn read_other(blocks: bool, keyword: &[u8], words: &[Word]) -> Result<ScriptLine, Wrong>
    ensures line { result ≡ other_line blocks keyword.now words.now }
    ensures names { (schema : Schema) → IfOk result (ScriptLineNames schema) }
{
    if keyword == b"par".as_slice() {
        return read_opening(blocks, words);
    }
    Ok(ScriptLine::Serial(read_serial(keyword, words)?))
}

/// What the words of a line outside of a block say.
#[tactic(auto, unfolding(crate::specs::Commands::script_line))]
pub fn read_script_line(
    alloc: Global,
    schema: &Schema,
    blocks: bool,
    words: &[Word],
) -> Result<ScriptLine, LineFault>
    requires { IsSpellable schema.now }
    ensures line { Reads result (script_line schema.now blocks words.now) }
    ensures names { IfOk result (ScriptLineNames schema.now) }
{
    let [keyword, more @ ..] = words else {
        return Err(LineFault::Bad(Wrong::Malformed));
    };
    match read_call(alloc, schema, text(keyword), more)? {
        Some(call) => Ok(ScriptLine::Serial(Command::Submit(call))),
        None => Ok(read_other(blocks, text(keyword), more)?),
    }
}
