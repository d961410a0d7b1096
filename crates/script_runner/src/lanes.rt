//! A block of lanes and its lines.
ghost use Rattle.std.specs.Prelude.{◌≡◌, ◌+◌, ◌≤◌, true, false, IfOk, IsOkAnd, OnOk, OnErr, length, [], if◌then◌else◌};
ghost use Rattle.std.specs.List.{filter};
ghost use Rattle.std.specs.Result.{ForOk};
ghost use Rattle.delf_disk.specs.Plain.{Plain, SameTelling, SameKind};
ghost use Rattle.delf_model.specs.declared.script.Command.TheVariants.{Report, Par};
ghost use Rattle.delf_service.specs.Lanes.{IsStarved};
ghost use Rattle.delf_model.specs.Payloads.{Payloads};
ghost use Rattle.job_report.specs.Texts.{lane_text};
ghost use Rattle.documents.specs.Names.{HasNames, HasNoLanes, IsNumberedBlock, IsNumberedCommand};
ghost use Rattle.script_runner.specs.Blocks.{IsRunner, MayRun, RunsInto, AreFed, HasOnlyFed, is_accepted, is_refused, replies_of, answer_line as answer_line_of, read_line, reply_line as reply_line_of, lane_lines as lane_lines_of, lanes_lines as lanes_lines_of, block_lines as block_lines_of};
ghost use Rattle.script_runner.specs.Names.{AreNumberedOuts, AreNumberedReplies, IsNumberedReply, IsNumberedAnswer, IsNumberedAsked};
ghost use Rattle.script_runner.specs.Orders.{Gives};
ghost use Rattle.script_runner.specs.Standing.{Falls, Carries, Halted, HasSettled, IsOpen};

use crate::answers::{accepted_line, refused_line};
use crate::blocks::{Blocks, Outs};
use crate::script::{down_refused, perform};
use crate::shows::found_text;
use crate::store::Store;
use delf_book::BookFault;
use delf_disk::Rig;
use delf_model::{Bytes, Call, Command, Lane, LaneCommand, ObjectId, Refusal, Schema};
use delf_service::{Answer, Asked, LaneOut, LaneReply};
use documents::joined;
use job_report::{absent_line, down_line, lane_line, par_line};
use std::alloc::{AllocError, Global};

/// Makes a command that keeps the store open, and gives its lines. The only error is want of memory.
pub(crate) fn serve<R: Rig, B: Blocks<Store<R>, Outs>>(
    alloc: Global,
    blocks: &B,
    schema: &Schema,
    mut store: Store<R>,
    command: &Command,
) -> (Store<R>, Result<Bytes, AllocError>)
    requires named { HasNames schema.now store.book.rules }
    requires numbered { IsNumberedCommand store.book.rules command.now }
    requires open { IsOpen command.now }
    requires unclaimed { store.book.held ≡ [] }
    requires lanes { B.served ≡ false → HasNoLanes command.now }
    requires ready { IsRunner B.served R.Disk (λ store. store.book) (λ store. store.clock) (λ v. v.items) (B.may blocks.now) (B.ran blocks.now) }
    ensures rules { result.0.book.rules ≡ store.book.rules }
    ensures serves { IfOk result.1 (λ text. Plain (R.Disk.told store.book.rig) (R.Disk.honest store.book.rig) → (e : Payloads)
        → Carries R.Disk.may_leave R.Disk.faults schema.now command.now store.book result.0.book store.clock result.0.clock e text) }
    ensures halts { OnErr result.1 (Plain (R.Disk.told store.book.rig) (R.Disk.honest store.book.rig) → (e : Payloads)
        → Halted R.Disk.may_leave command.now store.book store.clock e result.0.book.rig) }
    ensures settles { IfOk result.1 (λ text. Plain (R.Disk.told store.book.rig) (R.Disk.honest store.book.rig)
        → command.now ≡ Report → HasSettled R.Disk.may_leave result.0.book) }
    ensures telling { SameTelling R.Disk.told R.Disk.honest store.book.rig result.0.book.rig }
    ensures orders { Gives command.now (R.Disk.order store.book.rig) (R.Disk.orders store.book.rig) (R.Disk.order result.0.book.rig) (R.Disk.orders result.0.book.rig) }
    ensures cause { Falls R.Disk.faults store.book result.0.book }
{
    if let Command::Par {
        quiet,
        workers,
        turns,
        lanes,
    } = command
    {
        return run_block(
            alloc,
            blocks,
            schema,
            store,
            *quiet,
            *workers,
            *turns,
            lanes.as_slice(),
        );
    }
    let lines = perform(alloc, schema, &mut store, command);
    (store, lines)
}

// Runs the lanes of a block, and gives its lines. The only error is want of memory.
fn run_block<R: Rig, B: Blocks<Store<R>, Outs>>(
    alloc: Global,
    blocks: &B,
    schema: &Schema,
    store: Store<R>,
    quiet: bool,
    workers: u8,
    turns: u32,
    lanes: &[Lane],
) -> (Store<R>, Result<Bytes, AllocError>)
    requires named { HasNames schema.now store.book.rules }
    requires numbered { IsNumberedBlock store.book.rules workers lanes.now }
    requires served { B.served ≡ true }
    requires unclaimed { store.book.held ≡ [] }
    requires ready { IsRunner B.served R.Disk (λ store. store.book) (λ store. store.clock) (λ v. v.items) (B.may blocks.now) (B.ran blocks.now) }
    ensures rules { result.0.book.rules ≡ store.book.rules }
    ensures serves { IfOk result.1 (λ text. Plain (R.Disk.told store.book.rig) (R.Disk.honest store.book.rig) → (e : Payloads)
        → Carries R.Disk.may_leave R.Disk.faults schema.now (Par quiet workers turns lanes.now) store.book result.0.book store.clock result.0.clock e text) }
    ensures halts { OnErr result.1 (Plain (R.Disk.told store.book.rig) (R.Disk.honest store.book.rig) → (e : Payloads)
        → Halted R.Disk.may_leave (Par quiet workers turns lanes.now) store.book store.clock e result.0.book.rig) }
    ensures kind { SameKind R.Disk.told R.Disk.honest R.Disk.order R.Disk.orders store.book.rig result.0.book.rig }
    ensures cause { Falls R.Disk.faults store.book result.0.book }
{
    let len = store.book.len();
    if store.book.is_down() {
        let line = down_refused(alloc, len);
        return (store, line);
    }
    store.book.standing();
    let (store, outs) = run_over(blocks, store, lanes, workers, turns);
    store.book.standing();
    let after = store.book.len();
    let down = store.book.is_down();
    let lines = lines_of(alloc, schema, quiet, lanes, outs, after, down);
    (store, lines)
}

// Runs the lanes of a block over a store, lent in a slot.
fn run_over<R: Rig, B: Blocks<Store<R>, Outs>>(
    blocks: &B,
    store: Store<R>,
    lanes: &[Lane],
    workers: u8,
    turns: u32,
) -> (Store<R>, Outs)
    requires served { B.served ≡ true }
    requires may { MayRun store.book.rules workers lanes.now }
    requires ready { IsRunner B.served R.Disk (λ store. store.book) (λ store. store.clock) (λ v. v.items) (B.may blocks.now) (B.ran blocks.now) }
    ensures { RunsInto R.Disk (λ store. store.book) (λ store. store.clock) (λ v. v.items) store lanes.now result.1 result.0 }
{
    let mut slot = Some(store);
    let outs = blocks.run(&mut slot, lanes, workers, turns);
    let Some(store) = slot else { unreachable!() };
    (store, outs)
}

// The lines of a block whose lanes were run.
fn lines_of(
    alloc: Global,
    schema: &Schema,
    quiet: bool,
    lanes: &[Lane],
    outs: Outs,
    len: u32,
    down: bool,
) -> Result<Bytes, AllocError>
    requires { ForOk outs (λ outs. AreNumberedOuts schema.now lanes.now outs.items × (length outs.items ≤ 16)) }
    ensures { IfOk result (λ text. IsOkAnd outs (λ outs. AreFed outs.items × (text ≡ block_lines_of schema.now quiet lanes.now outs.items len down))) }
{
    match outs {
        Ok(outs) => block_lines(alloc, schema, quiet, lanes, outs.as_slice(), len, down),
        Err(AllocError) => Err(AllocError),
    }
}

// The lines of the lanes, and the line of the block.
fn block_lines(
    alloc: Global,
    schema: &Schema,
    quiet: bool,
    lanes: &[Lane],
    outs: &[LaneOut],
    len: u32,
    down: bool,
) -> Result<Bytes, AllocError>
    requires numbered { AreNumberedOuts schema.now lanes.now outs.now }
    requires few { length outs.now ≤ 16 }
    ensures fed { OnOk result (AreFed outs.now) }
    ensures text { IfOk result (λ text. text ≡ block_lines_of schema.now quiet lanes.now outs.now len down) }
{
    let (accepted, refused) = counts(outs)?;
    let last = par_line(alloc, accepted, refused, len, down)?;
    if quiet {
        return Ok(last);
    }
    let lines = lanes_lines(alloc, schema, lanes, outs)?;
    joined(alloc, lines.as_slice(), last.as_slice())
}

// How many calls of the lanes were accepted, and how many were not. The only error is want of memory: of a call, or for
// so many calls that no document has them.
fn counts(outs: &[LaneOut]) -> Result<(u32, u32), AllocError>
    ensures fed { OnOk result (AreFed outs.now) }
    ensures accepted { IfOk result (λ n. n.0 ≡ length (filter is_accepted (replies_of outs.now))) }
    ensures refused { IfOk result (λ n. n.1 ≡ length (filter is_refused (replies_of outs.now))) }
{
    let mut so_far = (0, 0);
    for out in outs {
        so_far = counts_with(so_far, out.replies.as_slice())?;
    }
    Ok(so_far)
}

// The same with the calls of one lane more.
fn counts_with(before: (u32, u32), replies: &[LaneReply]) -> Result<(u32, u32), AllocError>
    ensures fed { OnOk result (HasOnlyFed replies.now) }
    ensures accepted { IfOk result (λ n. n.0 ≡ before.0 + length (filter is_accepted replies.now)) }
    ensures refused { IfOk result (λ n. n.1 ≡ before.1 + length (filter is_refused replies.now)) }
{
    let mut so_far = before;
    for reply in replies {
        so_far = counted(so_far, reply)?;
    }
    Ok(so_far)
}

// The same with one reply more.
fn counted(before: (u32, u32), reply: &LaneReply) -> Result<(u32, u32), AllocError>
    ensures fed { OnOk result (IsStarved reply.now → ⊥) }
    ensures accepted { IfOk result (λ n. n.0 ≡ before.0 + (if is_accepted reply.now then 1 else 0)) }
    ensures refused { IfOk result (λ n. n.1 ≡ before.1 + (if is_refused reply.now then 1 else 0)) }
{
    match reply {
        LaneReply::Got { .. } => Ok(before),
        LaneReply::Submitted(answer) => match answer.reply {
            Ok(_) => Ok((one_more(before.0)?, before.1)),
            Err(Refusal::OutOfMemory) => Err(AllocError),
            Err(_) => Ok((before.0, one_more(before.1)?)),
        },
    }
}

fn one_more(count: u32) -> Result<u32, AllocError>
    ensures { IfOk result (λ n. n ≡ count + 1) }
{
    match count.checked_add(1) {
        Some(more) => Ok(more),
        None => Err(AllocError),
    }
}

// The lines of the lanes, one lane after the other.
fn lanes_lines(
    alloc: Global,
    schema: &Schema,
    lanes: &[Lane],
    outs: &[LaneOut],
) -> Result<Bytes, AllocError>
    requires numbered { AreNumberedOuts schema.now lanes.now outs.now }
    requires few { length outs.now ≤ 16 }
    ensures { IfOk result (λ text. text ≡ lanes_lines_of schema.now 0 lanes.now outs.now) }
{
    let mut text = Vec::new(alloc);
    for place in 0..outs.len() {
        let lines = lane_lines(
            alloc,
            schema,
            place as u8,
            lanes[place].commands.as_slice(),
            outs[place].replies.as_slice(),
        )?;
        text.extend_from_slice(lines.as_slice())?;
    }
    Ok(Bytes::from_vec(text))
}

// The lines of one lane, each behind its number.
fn lane_lines(
    alloc: Global,
    schema: &Schema,
    lane: u8,
    commands: &[LaneCommand],
    replies: &[LaneReply],
) -> Result<Bytes, AllocError>
    requires { AreNumberedReplies schema.now commands.now replies.now }
    ensures { IfOk result (λ text. text ≡ lane_lines_of schema.now lane commands.now replies.now) }
{
    let mut text = Vec::new(alloc);
    for place in 0..replies.len() {
        let line = numbered_line(alloc, schema, lane, &commands[place], &replies[place])?;
        text.extend_from_slice(line.as_slice())?;
    }
    Ok(Bytes::from_vec(text))
}

// The line of a command of a lane, behind the number of the lane.
fn numbered_line(
    alloc: Global,
    schema: &Schema,
    lane: u8,
    command: &LaneCommand,
    reply: &LaneReply,
) -> Result<Bytes, AllocError>
    requires { IsNumberedReply schema.now command.now reply.now }
    ensures { IfOk result (λ text. text ≡ lane_text lane (reply_line_of schema.now command.now reply.now)) }
{
    let line = reply_line(alloc, schema, command, reply)?;
    lane_line(alloc, lane, line.as_slice())
}

// The line of a command of a lane.
fn reply_line(
    alloc: Global,
    schema: &Schema,
    command: &LaneCommand,
    reply: &LaneReply,
) -> Result<Bytes, AllocError>
    requires { IsNumberedReply schema.now command.now reply.now }
    ensures { IfOk result (λ text. text ≡ reply_line_of schema.now command.now reply.now) }
{
    match (command, reply) {
        (LaneCommand::Submit(call), LaneReply::Submitted(answer)) => {
            answer_line(alloc, schema, call, answer)
        }
        (LaneCommand::Get(id), LaneReply::Got { asked, payload }) => {
            asked_line(alloc, schema, *id, asked, payload.as_slice())
        }
        _ => unreachable!(),
    }
}

// The line of a writing call.
fn answer_line(
    alloc: Global,
    schema: &Schema,
    call: &Call,
    answer: &Answer,
) -> Result<Bytes, AllocError>
    requires { IsNumberedAnswer schema.now call.now answer.now.reply }
    ensures { IfOk result (λ text. text ≡ answer_line_of schema.now call.now answer.now.at answer.now.reply) }
{
    match &answer.reply {
        Ok(receipt) => accepted_line(alloc, schema, call, receipt),
        Err(refusal) => refused_line(alloc, schema, refusal, answer.at),
    }
}

// The line of a question.
fn asked_line(
    alloc: Global,
    schema: &Schema,
    id: ObjectId,
    asked: &Asked,
    payload: &[u8],
) -> Result<Bytes, AllocError>
    requires { IsNumberedAsked schema.now asked.now }
    ensures { IfOk result (λ text. text ≡ read_line schema.now id asked.now payload.now asked.now.fault) }
{
    match asked.fault {
        Some(BookFault::Down { len }) => down_refused(alloc, len),
        Some(BookFault::DiskFault { len }) => down_line(alloc, len),
        None => match &asked.found {
            Some((row, owner)) => found_text(alloc, schema, asked.at, row, *owner, payload),
            None => absent_line(alloc, asked.at, id),
        },
    }
}
