//! Numbers and lists, put at the end of bytes.

ghost use Rattle.std.specs.Prelude.{◌≡◌, [], ◌∷◌, ◌++◌, ◌<◌, ◌≤◌, ◌^◌, length, flat_map, get_or, ℕ, List, OnOk, FitsSigned};
ghost use Rattle.std.specs.Int.{w64};
ghost use Rattle.wc_value.specs.Ascending.{Ascends};
ghost use Rattle.wc_value.specs.Spells.{IsText};
ghost use Rattle.wc_state.specs.Context.{KeysDiffer};
ghost use Rattle.wc_state.specs.declared.context.CtxRef.{CtxRef as Held};
ghost use Rattle.wc_record.specs.Spelled.{text_bytes, u32_bytes, u64_bytes, i64_bytes, truth_byte, task_byte, list, frame_bytes, held_bytes, pair_bytes, await_bytes, output_bytes, checkpoint_bytes, job_bytes, part_bytes};
ghost use Rattle.wc_record.specs.Written.{IsNumber, IsList, IsFrame, IsHeld, IsPair, IsAwait, IsOutput, IsCheckpoint, IsJob, IsPart, IsShallow, IsReadable, IsReadablePart, FailsFit};

use std::alloc::AllocError;
use wc_state::{
    Await, Awaits, Checkpoint, Context, CtxRef, Frame, Frames, Ids, JobPart, Outs, Part, Task,
};
use wc_value::{Bytes, Text, put_value};

/// The most items that four bytes can count.
const MOST: usize = 0xffff_ffff;

/// Puts a number of four bytes.
#[tactic(auto, unfolding(crate::specs::Spelled::u32_bytes))]
pub fn put_u32(out: &mut Bytes, number: u32) -> Result<(), AllocError>
    ensures { OnOk result (out.new ≡ out.old ++ u32_bytes number) }
{
    out.extend(&number.to_be_bytes())
}

/// Puts a number of eight bytes.
#[tactic(auto, unfolding(crate::specs::Spelled::u64_bytes))]
pub fn put_u64(out: &mut Bytes, number: u64) -> Result<(), AllocError>
    ensures { OnOk result (out.new ≡ out.old ++ u64_bytes number) }
{
    out.extend(&number.to_be_bytes())
}

/// Puts a number of eight bytes, in two's complement.
#[tactic(auto, unfolding(crate::specs::Spelled::i64_bytes))]
pub fn put_i64(out: &mut Bytes, number: i64) -> Result<(), AllocError>
    ensures { OnOk result (out.new ≡ out.old ++ i64_bytes number) }
{
    out.extend(&number.to_be_bytes())
}

/// Puts a count of four bytes.
#[tactic(auto, unfolding(crate::specs::Spelled::u32_bytes))]
pub fn put_count(out: &mut Bytes, count: usize) -> Result<(), AllocError>
    requires { count < 2 ^ 32 }
    ensures { OnOk result (out.new ≡ out.old ++ u32_bytes count) }
{
    wc_value::put_count(out, count)
}

/// Puts a text behind its length.
#[tactic(auto, unfolding(crate::specs::Spelled::text_bytes))]
pub fn put_text(out: &mut Bytes, text: &Text) -> Result<(), AllocError>
    ensures bytes { OnOk result (out.new ≡ out.old ++ text_bytes text.now) }
    ensures fits { OnOk result (IsText text.now) }
{
    wc_value::put_text(out, text.bytes())
}

/// Puts a truth value as a byte, 00 or 01.
pub fn put_bool(out: &mut Bytes, truth: bool) -> Result<(), AllocError>
    ensures { OnOk result (out.new ≡ out.old ++ truth_byte truth ∷ []) }
{
    out.push(if truth { 1 } else { 0 })
}

/// Puts a frame.
fn put_frame(out: &mut Bytes, frame: &Frame) -> Result<(), AllocError>
    ensures bytes { OnOk result (out.new ≡ out.old ++ frame_bytes frame.now) }
    ensures fits { OnOk result (IsFrame frame.now) }
{
    put_u32(out, frame.block)?;
    put_u32(out, frame.next)
}

/// Puts frames behind their number.
fn put_frames(out: &mut Bytes, frames: &Frames) -> Result<(), AllocError>
    ensures bytes { OnOk result (out.new ≡ out.old ++ list frame_bytes frames.now) }
    ensures fits { OnOk result (IsList IsFrame frames.now) }
{
    put_count(out, frames.len())?;
    for frame in frames.as_slice() {
        put_frame(out, frame)?;
    }
    Ok(())
}

/// Puts numbers of nodes behind their number.
fn put_ids(out: &mut Bytes, ids: &Ids) -> Result<(), AllocError>
    ensures bytes { OnOk result (out.new ≡ out.old ++ list u32_bytes ids.now) }
    ensures fits { OnOk result (IsList IsNumber ids.now) }
{
    put_count(out, ids.len())?;
    for id in ids.as_slice() {
        put_u32(out, *id)?;
    }
    Ok(())
}

/// Puts what a context holds under a key: a value, a process or several.
fn put_held(out: &mut Bytes, held: &CtxRef) -> Result<(), AllocError>
    ensures bytes { OnOk result (out.new ≡ out.old ++ held_bytes held.now) }
    ensures fits { OnOk result (IsShallow held.now → IsHeld held.now) }
{
    match held {
        CtxRef::Plain(value) => {
            out.push(1)?;
            put_value(out, value)
        }
        CtxRef::One(pid) => {
            out.push(2)?;
            put_u32(out, *pid)
        }
        CtxRef::Many(pids) => {
            out.push(3)?;
            put_ids(out, pids)
        }
    }
}

/// The key at a place of a context, and what it holds.
fn pair_of(context: &Context, at: usize) -> (&Text, &CtxRef)
    requires { at < length context.now }
    ensures { (d : List ℕ × Held) → get_or context.now at d ≡ (result.0.now, result.1.now) }
{
    context.get(at).unwrap()
}

/// Puts the key at a place of a context, and what it holds.
fn put_pair(out: &mut Bytes, context: &Context, at: usize) -> Result<(), AllocError>
    requires { at < length context.now }
    ensures bytes { OnOk result ((d : List ℕ × Held) → out.new ≡ out.old ++ pair_bytes (get_or context.now at d)) }
    ensures fits { OnOk result ((d : List ℕ × Held) → IsShallow (get_or context.now at d).1 → IsPair (get_or context.now at d)) }
{
    let (key, held) = pair_of(context, at);
    put_text(out, key)?;
    put_held(out, held)
}

/// Puts a context, its keys in ascending order, behind their number.
fn put_context(out: &mut Bytes, context: &Context) -> Result<(), AllocError>
    ensures bytes { OnOk result (out.new ≡ out.old ++ list pair_bytes context.now) }
    ensures fits { OnOk result (IsReadable context.now → IsList IsPair context.now) }
    ensures differ { OnOk result (KeysDiffer context.now) }
{
    let count = context.len();
    if count > MOST {
        return Err(AllocError);
    }
    put_count(out, count)?;
    for at in 0..count {
        put_pair(out, context, at)?;
    }
    Ok(())
}

/// Puts a process that is awaited, with its key.
fn put_await(out: &mut Bytes, awaited: &Await) -> Result<(), AllocError>
    ensures bytes { OnOk result (out.new ≡ out.old ++ await_bytes awaited.now) }
    ensures fits { OnOk result (IsAwait awaited.now) }
{
    put_text(out, &awaited.key)?;
    put_bool(out, awaited.append)?;
    put_u32(out, awaited.pid)
}

/// Puts the processes that are awaited behind their number.
fn put_awaits(out: &mut Bytes, awaits: &Awaits) -> Result<(), AllocError>
    ensures bytes { OnOk result (out.new ≡ out.old ++ list await_bytes awaits.now) }
    ensures fits { OnOk result (IsList IsAwait awaits.now) }
{
    put_count(out, awaits.len())?;
    for awaited in awaits.as_slice() {
        put_await(out, awaited)?;
    }
    Ok(())
}

/// Puts the outputs set so far, which ascend, behind their number.
fn put_outputs(out: &mut Bytes, outputs: &Outs) -> Result<(), AllocError>
    ensures bytes { OnOk result (out.new ≡ out.old ++ list output_bytes outputs.now) }
    ensures fits { OnOk result (IsList IsOutput outputs.now) }
    ensures ascend { OnOk result (Ascends outputs.now) }
{
    put_count(out, outputs.len())?;
    for (label, node) in outputs.as_slice() {
        put_text(out, label)?;
        put_u32(out, *node)?;
    }
    Ok(())
}

/// Puts a work chain's checkpoint.
fn put_checkpoint(out: &mut Bytes, checkpoint: &Checkpoint) -> Result<(), AllocError>
    ensures bytes { OnOk result (out.new ≡ out.old ++ checkpoint_bytes checkpoint.now) }
    ensures fits { OnOk result (IsReadable checkpoint.now.ctx → IsCheckpoint checkpoint.now) }
{
    put_frames(out, &checkpoint.frames)?;
    put_context(out, &checkpoint.ctx)?;
    put_awaits(out, &checkpoint.awaiting)?;
    put_u32(out, checkpoint.calls)?;
    put_outputs(out, &checkpoint.outputs)
}

/// The byte of a job's task.
fn task_byte(task: Task) -> u8
    ensures { result ≡ task_byte task }
{
    match task {
        Task::Upload => 1,
        Task::Submit => 2,
        Task::Update => 3,
        Task::Retrieve => 4,
    }
}

/// Puts where a job stands: its task, its failures and when it is due, in milliseconds.
fn put_job(out: &mut Bytes, job: &JobPart) -> Result<(), AllocError>
    requires { job.now.fails ≤ 5 }
    ensures bytes { OnOk result (out.new ≡ out.old ++ job_bytes job.now) }
    ensures fits { OnOk result (IsJob job.now) }
{
    out.push(task_byte(job.task))?;
    out.push(job.fails)?;
    put_u64(out, job.due)
}

/// Puts where a process stands.
pub fn put_part(out: &mut Bytes, part: &Part) -> Result<(), AllocError>
    requires { FailsFit part.now }
    ensures bytes { OnOk result (out.new ≡ out.old ++ part_bytes part.now) }
    ensures fits { OnOk result (IsReadablePart part.now → IsPart part.now) }
{
    match part {
        Part::Fresh => out.push(0),
        Part::Chain(checkpoint) => {
            out.push(1)?;
            put_checkpoint(out, checkpoint)
        }
        Part::Job(job) => {
            out.push(2)?;
            put_job(out, job)
        }
        Part::Over => out.push(3),
    }
}
