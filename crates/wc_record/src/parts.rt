//! Where processes stand, in the bytes of changes.

ghost use Rattle.std.specs.Prelude.{◌≡◌, ◌≤◌, length, true, None, IfOk};
ghost use Rattle.wc_value.specs.Ascending.{goes_last};
ghost use Rattle.wc_state.specs.Context.{found_at};
ghost use Rattle.wc_record.specs.Readers.{Answers, number_of, counted};
ghost use Rattle.wc_record.specs.Fields.{job_task, frame, ids, held_at, key, pair, await, output, checkpoint, job, process_part};

use crate::error::RecordError;
use crate::pieces::{bool_at, byte_at, byte_below, label_at, text_at, u32_at, u64_at, value_at};
use std::alloc::Global;
use wc_state::{
    Await, Awaits, Checkpoint, Context, CtxRef, Frame, Frames, Ids, JobPart, Outs, Part, Task,
};
use wc_value::Text;

/// A frame at a byte, and where the next field begins.
fn frame_at(bytes: &[u8], at: usize) -> Result<(Frame, usize), RecordError>
    requires { at ≤ length bytes.now }
    ensures answer { Answers result (frame bytes.now at) }
    ensures within { IfOk result (λ x. x.1 ≤ length bytes.now) }
{
    let (block, place) = u32_at(bytes, at)?;
    let (next, behind) = u32_at(bytes, place)?;
    Ok((Frame { block, next }, behind))
}

/// Frames with their number at a byte, and where the next field begins.
#[tactic(auto, using(crate::proofs::Readings::several_at))]
fn frames_at(alloc: Global, bytes: &[u8], at: usize) -> Result<(Frames, usize), RecordError>
    requires { at ≤ length bytes.now }
    ensures answer { Answers result (counted (λ front. frame) bytes.now at) }
    ensures within { IfOk result (λ x. x.1 ≤ length bytes.now) }
{
    let (count, start) = u32_at(bytes, at)?;
    let mut frames = Frames::new(alloc);
    let mut place = start;
    for _item in 0..count {
        let (frame, next) = frame_at(bytes, place)?;
        frames.push(frame)?;
        place = next;
    }
    Ok((frames, place))
}

/// Numbers of nodes with their number at a byte, and where the next field begins.
#[tactic(auto, using(crate::proofs::Readings::several_at))]
fn ids_at(alloc: Global, bytes: &[u8], at: usize) -> Result<(Ids, usize), RecordError>
    requires { at ≤ length bytes.now }
    ensures answer { Answers result (ids bytes.now at) }
    ensures within { IfOk result (λ x. x.1 ≤ length bytes.now) }
{
    let (count, start) = u32_at(bytes, at)?;
    let mut found = Ids::new(alloc);
    let mut place = start;
    for _item in 0..count {
        let (id, next) = u32_at(bytes, place)?;
        found.push(id)?;
        place = next;
    }
    Ok((found, place))
}

/// What a key of a context holds.
fn held_at(alloc: Global, bytes: &[u8], at: usize) -> Result<(CtxRef, usize), RecordError>
    requires { at ≤ length bytes.now }
    ensures answer { Answers result (held_at bytes.now at) }
    ensures within { IfOk result (λ x. x.1 ≤ length bytes.now) }
{
    let (tag, place) = byte_at(bytes, at)?;
    match tag {
        1 => {
            let (value, next) = value_at(alloc, bytes, place)?;
            Ok((CtxRef::Plain(value), next))
        }
        2 => {
            let (pid, next) = u32_at(bytes, place)?;
            Ok((CtxRef::One(pid), next))
        }
        3 => {
            let (pids, next) = ids_at(alloc, bytes, place)?;
            Ok((CtxRef::Many(pids), next))
        }
        _ => Err(RecordError::BadTag(at)),
    }
}

/// A key that isn't one of those in front.
fn key_at(
    alloc: Global,
    front: &Context,
    bytes: &[u8],
    at: usize,
) -> Result<(Text, usize), RecordError>
    requires { at ≤ length bytes.now }
    ensures answer { Answers result (key front.now bytes.now at) }
    ensures within { IfOk result (λ x. x.1 ≤ length bytes.now) }
    ensures new { IfOk result (λ x. found_at front.now x.0 ≡ None) }
{
    let (key, next) = text_at(alloc, bytes, at)?;
    match front.find(&key) {
        Some(_) => Err(RecordError::Unsorted(at)),
        None => Ok((key, next)),
    }
}

/// A key that isn't one of those in front, and what it holds.
fn pair_at(
    alloc: Global,
    front: &Context,
    bytes: &[u8],
    at: usize,
) -> Result<((Text, CtxRef), usize), RecordError>
    requires { at ≤ length bytes.now }
    ensures answer { Answers result (pair front.now bytes.now at) }
    ensures within { IfOk result (λ x. x.1 ≤ length bytes.now) }
    ensures new { IfOk result (λ x. found_at front.now x.0.0 ≡ None) }
{
    let (key, place) = key_at(alloc, front, bytes, at)?;
    let (held, next) = held_at(alloc, bytes, place)?;
    Ok(((key, held), next))
}

/// A context with the number of its keys at a byte, and where the next field begins.
#[tactic(auto, using(crate::proofs::Readings::several_at, crate::proofs::Keys::set_last))]
fn context_at(alloc: Global, bytes: &[u8], at: usize) -> Result<(Context, usize), RecordError>
    requires { at ≤ length bytes.now }
    ensures answer { Answers result (counted pair bytes.now at) }
    ensures within { IfOk result (λ x. x.1 ≤ length bytes.now) }
{
    let (count, start) = u32_at(bytes, at)?;
    let mut context = Context::new(alloc);
    let mut place = start;
    for _item in 0..count {
        let ((key, held), next) = pair_at(alloc, &context, bytes, place)?;
        context.set(key, held)?;
        place = next;
    }
    Ok((context, place))
}

/// A process that is awaited, with its key, at a byte, and where the next field begins.
fn await_at(alloc: Global, bytes: &[u8], at: usize) -> Result<(Await, usize), RecordError>
    requires { at ≤ length bytes.now }
    ensures answer { Answers result (await bytes.now at) }
    ensures within { IfOk result (λ x. x.1 ≤ length bytes.now) }
{
    let (key, place) = text_at(alloc, bytes, at)?;
    let (append, behind) = bool_at(bytes, place)?;
    let (pid, next) = u32_at(bytes, behind)?;
    Ok((Await { key, append, pid }, next))
}

/// The processes that are awaited with their number at a byte, and where the next field begins.
#[tactic(auto, using(crate::proofs::Readings::several_at))]
fn awaits_at(alloc: Global, bytes: &[u8], at: usize) -> Result<(Awaits, usize), RecordError>
    requires { at ≤ length bytes.now }
    ensures answer { Answers result (counted (λ front. await) bytes.now at) }
    ensures within { IfOk result (λ x. x.1 ≤ length bytes.now) }
{
    let (count, start) = u32_at(bytes, at)?;
    let mut awaits = Awaits::new(alloc);
    let mut place = start;
    for _item in 0..count {
        let (awaited, next) = await_at(alloc, bytes, place)?;
        awaits.push(awaited)?;
        place = next;
    }
    Ok((awaits, place))
}

/// A label that comes after those in front, and the node of that output.
fn output_at(
    alloc: Global,
    front: &Outs,
    bytes: &[u8],
    at: usize,
) -> Result<((Text, u32), usize), RecordError>
    requires { at ≤ length bytes.now }
    ensures answer { Answers result (output front.now bytes.now at) }
    ensures within { IfOk result (λ x. x.1 ≤ length bytes.now) }
    ensures last { IfOk result (λ x. goes_last x.0.0 front.now ≡ true) }
{
    let (label, place) = label_at(alloc, front, bytes, at)?;
    let (node, next) = u32_at(bytes, place)?;
    Ok(((label, node), next))
}

/// The outputs set so far with their number at a byte, and where the next field begins.
#[tactic(auto, using(crate::proofs::Readings::several_at))]
fn outputs_at(alloc: Global, bytes: &[u8], at: usize) -> Result<(Outs, usize), RecordError>
    requires { at ≤ length bytes.now }
    ensures answer { Answers result (counted output bytes.now at) }
    ensures within { IfOk result (λ x. x.1 ≤ length bytes.now) }
{
    let (count, start) = u32_at(bytes, at)?;
    let mut outputs = Outs::new(alloc);
    let mut place = start;
    for _item in 0..count {
        let (output, next) = output_at(alloc, &outputs, bytes, place)?;
        outputs.push(output)?;
        place = next;
    }
    Ok((outputs, place))
}

/// A work chain's checkpoint at a byte, and where the next field begins.
fn checkpoint_at(alloc: Global, bytes: &[u8], at: usize) -> Result<(Checkpoint, usize), RecordError>
    requires { at ≤ length bytes.now }
    ensures answer { Answers result (checkpoint bytes.now at) }
    ensures within { IfOk result (λ x. x.1 ≤ length bytes.now) }
{
    let (frames, a) = frames_at(alloc, bytes, at)?;
    let (ctx, b) = context_at(alloc, bytes, a)?;
    let (awaiting, c) = awaits_at(alloc, bytes, b)?;
    let (calls, d) = u32_at(bytes, c)?;
    let (outputs, next) = outputs_at(alloc, bytes, d)?;
    Ok((
        Checkpoint {
            frames,
            ctx,
            awaiting,
            calls,
            outputs,
        },
        next,
    ))
}

/// A job's task at a byte, and where the next field begins.
fn task_at(bytes: &[u8], at: usize) -> Result<(Task, usize), RecordError>
    requires { at ≤ length bytes.now }
    ensures answer { Answers result (job_task bytes.now at) }
    ensures within { IfOk result (λ x. x.1 ≤ length bytes.now) }
{
    let (tag, next) = byte_at(bytes, at)?;
    match tag {
        1 => Ok((Task::Upload, next)),
        2 => Ok((Task::Submit, next)),
        3 => Ok((Task::Update, next)),
        4 => Ok((Task::Retrieve, next)),
        _ => Err(RecordError::BadTag(at)),
    }
}

/// Where a job stands, at a byte: its task, its failures and when it is due; and where the next field begins.
fn job_at(bytes: &[u8], at: usize) -> Result<(JobPart, usize), RecordError>
    requires { at ≤ length bytes.now }
    ensures answer { Answers result (job bytes.now at) }
    ensures within { IfOk result (λ x. x.1 ≤ length bytes.now) }
{
    let (task, place) = task_at(bytes, at)?;
    let (fails, behind) = byte_below(6, bytes, place)?;
    let (due, next) = u64_at(bytes, behind)?;
    Ok((JobPart { task, fails, due }, next))
}

/// Where a process stands.
pub fn part_at(alloc: Global, bytes: &[u8], at: usize) -> Result<(Part, usize), RecordError>
    requires { at ≤ length bytes.now }
    ensures answer { Answers result (process_part bytes.now at) }
    ensures within { IfOk result (λ x. x.1 ≤ length bytes.now) }
{
    let (tag, place) = byte_at(bytes, at)?;
    match tag {
        0 => Ok((Part::Fresh, place)),
        1 => {
            let (checkpoint, next) = checkpoint_at(alloc, bytes, place)?;
            Ok((Part::Chain(checkpoint), next))
        }
        2 => {
            let (job, next) = job_at(bytes, place)?;
            Ok((Part::Job(job), next))
        }
        3 => Ok((Part::Over, place)),
        _ => Err(RecordError::BadTag(at)),
    }
}
