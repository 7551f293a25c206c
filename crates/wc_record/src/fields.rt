//! The fields of changes, in their bytes.

ghost use Rattle.std.specs.Prelude.{◌≡◌, ◌≤◌, [], ◌∷◌, length, IfOk};
ghost use Rattle.wc_record.specs.Readers.{Answers, number_of, built, u32, value};
ghost use Rattle.wc_record.specs.Fields.{kind_of_process, type_of_link, excepted, process_state, code_if_any, new_process, link, set_process, kept, other_change};
ghost use Rattle.wc_value.specs.declared.process.ProcessState.TheVariants as states;
ghost use Rattle.wc_world.specs.declared.change.Change.TheVariants as changes;

use crate::error::RecordError;
use crate::parts::part_at;
use crate::pieces::{bool_at, byte_at, i64_at, text_at, u32_at, u64_at, value_at};
use std::alloc::Global;
use wc_graph::{Link, LinkType};
use wc_state::ProcessKind;
use wc_value::{ProcessState, Reason};
use wc_world::{Change, Kept, NewProcess, SetProcess};

/// The kind of a process at a byte, and where the next field begins.
fn kind_at(bytes: &[u8], at: usize) -> Result<(ProcessKind, usize), RecordError>
    requires { at ≤ length bytes.now }
    ensures answer { Answers result (kind_of_process bytes.now at) }
    ensures within { IfOk result (λ x. x.1 ≤ length bytes.now) }
{
    let (tag, next) = byte_at(bytes, at)?;
    match tag {
        1 => Ok((ProcessKind::Function, next)),
        2 => Ok((ProcessKind::Job, next)),
        3 => Ok((ProcessKind::Chain, next)),
        _ => Err(RecordError::BadTag(at)),
    }
}

/// The type of a link at a byte, and where the next field begins.
fn link_type_at(bytes: &[u8], at: usize) -> Result<(LinkType, usize), RecordError>
    requires { at ≤ length bytes.now }
    ensures answer { Answers result (type_of_link bytes.now at) }
    ensures within { IfOk result (λ x. x.1 ≤ length bytes.now) }
{
    let (tag, next) = byte_at(bytes, at)?;
    match tag {
        1 => Ok((LinkType::InputCalc, next)),
        2 => Ok((LinkType::InputWork, next)),
        3 => Ok((LinkType::Create, next)),
        4 => Ok((LinkType::Return, next)),
        5 => Ok((LinkType::CallCalc, next)),
        6 => Ok((LinkType::CallWork, next)),
        _ => Err(RecordError::BadTag(at)),
    }
}

/// The excepted state whose reason has the number at a place.
fn excepted_at(bytes: &[u8], at: usize) -> Result<(ProcessState, usize), RecordError>
    requires { at ≤ length bytes.now }
    ensures answer { Answers result (excepted bytes.now at) }
    ensures within { IfOk result (λ x. x.1 ≤ length bytes.now) }
{
    let (number, next) = u32_at(bytes, at)?;
    let reason = match number {
        1 => Reason::Overflow,
        2 => Reason::DivideByZero,
        3 => Reason::MissingKey,
        4 => Reason::WrongKind,
        5 => Reason::NoOutput,
        6 => Reason::BadText,
        7 => Reason::TooLong,
        8 => Reason::Depth,
        9 => Reason::BadInput,
        _ => return Err(RecordError::BadTag(at)),
    };
    Ok((ProcessState::Excepted(reason), next))
}

/// A state that takes no number, where that at the place is 0.
fn state_with_zero_at(
    state: ProcessState,
    bytes: &[u8],
    at: usize,
) -> Result<(ProcessState, usize), RecordError>
    requires { at ≤ length bytes.now }
    ensures answer { Answers result (number_of ((0, state) ∷ []) bytes.now at) }
    ensures within { IfOk result (λ x. x.1 ≤ length bytes.now) }
{
    let (number, next) = u32_at(bytes, at)?;
    if number == 0 {
        Ok((state, next))
    } else {
        Err(RecordError::BadTag(at))
    }
}

/// The finished state whose status stands at a byte, and where the next field begins.
fn finished_at(bytes: &[u8], at: usize) -> Result<(ProcessState, usize), RecordError>
    requires { at ≤ length bytes.now }
    ensures answer { Answers result (built states.Finished u32 bytes.now at) }
    ensures within { IfOk result (λ x. x.1 ≤ length bytes.now) }
{
    let (status, next) = u32_at(bytes, at)?;
    Ok((ProcessState::Finished(status), next))
}

/// A state, and the four bytes behind it.
fn state_at(bytes: &[u8], at: usize) -> Result<(ProcessState, usize), RecordError>
    requires { at ≤ length bytes.now }
    ensures answer { Answers result (process_state bytes.now at) }
    ensures within { IfOk result (λ x. x.1 ≤ length bytes.now) }
{
    let (tag, place) = byte_at(bytes, at)?;
    match tag {
        1 => state_with_zero_at(ProcessState::Created, bytes, place),
        2 => state_with_zero_at(ProcessState::Running, bytes, place),
        3 => state_with_zero_at(ProcessState::Waiting, bytes, place),
        4 => finished_at(bytes, place),
        5 => excepted_at(bytes, place),
        6 => state_with_zero_at(ProcessState::Killed, bytes, place),
        _ => Err(RecordError::BadTag(at)),
    }
}

/// A program's status at a byte, where one is kept, and where the next field begins.
fn code_at(bytes: &[u8], at: usize) -> Result<(Option<i64>, usize), RecordError>
    requires { at ≤ length bytes.now }
    ensures answer { Answers result (code_if_any bytes.now at) }
    ensures within { IfOk result (λ x. x.1 ≤ length bytes.now) }
{
    let (tag, place) = byte_at(bytes, at)?;
    match tag {
        0 => Ok((None, place)),
        1 => {
            let (code, next) = i64_at(bytes, place)?;
            Ok((Some(code), next))
        }
        _ => Err(RecordError::BadTag(at)),
    }
}

/// The change that makes data of the value at a byte, and where the next one begins.
fn data_at(alloc: Global, bytes: &[u8], at: usize) -> Result<(Change, usize), RecordError>
    requires { at ≤ length bytes.now }
    ensures answer { Answers result (built changes.Data value bytes.now at) }
    ensures within { IfOk result (λ x. x.1 ≤ length bytes.now) }
{
    let (value, next) = value_at(alloc, bytes, at)?;
    Ok((Change::Data(value), next))
}

/// The change that makes a process, with its fields at a byte, and where the next one begins.
fn new_process_at(alloc: Global, bytes: &[u8], at: usize) -> Result<(Change, usize), RecordError>
    requires { at ≤ length bytes.now }
    ensures answer { Answers result (built changes.Process new_process bytes.now at) }
    ensures within { IfOk result (λ x. x.1 ≤ length bytes.now) }
{
    let (kind, a) = kind_at(bytes, at)?;
    let (definition, b) = text_at(alloc, bytes, a)?;
    let (library, c) = u32_at(bytes, b)?;
    let (depth, d) = u32_at(bytes, c)?;
    let (label, e) = text_at(alloc, bytes, d)?;
    let (caching, next) = bool_at(bytes, e)?;
    Ok((
        Change::Process(NewProcess {
            kind,
            definition,
            library,
            depth,
            label,
            caching,
        }),
        next,
    ))
}

/// The change that makes a link, with its fields at a byte, and where the next one begins.
fn link_at(alloc: Global, bytes: &[u8], at: usize) -> Result<(Change, usize), RecordError>
    requires { at ≤ length bytes.now }
    ensures answer { Answers result (built changes.Link link bytes.now at) }
    ensures within { IfOk result (λ x. x.1 ≤ length bytes.now) }
{
    let (source, a) = u32_at(bytes, at)?;
    let (target, b) = u32_at(bytes, a)?;
    let (link, c) = link_type_at(bytes, b)?;
    let (label, next) = text_at(alloc, bytes, c)?;
    Ok((
        Change::Link(Link {
            source,
            target,
            link,
            label,
        }),
        next,
    ))
}

/// The change that sets what a process has come to, with its fields at a byte, and where the next one begins.
fn set_at(alloc: Global, bytes: &[u8], at: usize) -> Result<(Change, usize), RecordError>
    requires { at ≤ length bytes.now }
    ensures answer { Answers result (built changes.Set set_process bytes.now at) }
    ensures within { IfOk result (λ x. x.1 ≤ length bytes.now) }
{
    let (pid, a) = u32_at(bytes, at)?;
    let (state, b) = state_at(bytes, a)?;
    let (paused, c) = bool_at(bytes, b)?;
    let (cached_from, d) = u32_at(bytes, c)?;
    let (fuel, e) = u64_at(bytes, d)?;
    let (code, f) = code_at(bytes, e)?;
    let (part, next) = part_at(alloc, bytes, f)?;
    Ok((
        Change::Set(SetProcess {
            pid,
            state,
            paused,
            cached_from,
            fuel,
            code,
            part,
        }),
        next,
    ))
}

/// The change that says how many batches were counted, at a byte, and where the next one begins.
fn count_at(bytes: &[u8], at: usize) -> Result<(Change, usize), RecordError>
    requires { at ≤ length bytes.now }
    ensures answer { Answers result (built changes.Count u32 bytes.now at) }
    ensures within { IfOk result (λ x. x.1 ≤ length bytes.now) }
{
    let (count, next) = u32_at(bytes, at)?;
    Ok((Change::Count(count), next))
}

/// The change that says in which batches a process started and ended, at a byte, and where the next one begins.
fn kept_at(bytes: &[u8], at: usize) -> Result<(Change, usize), RecordError>
    requires { at ≤ length bytes.now }
    ensures answer { Answers result (built changes.Kept kept bytes.now at) }
    ensures within { IfOk result (λ x. x.1 ≤ length bytes.now) }
{
    let (pid, a) = u32_at(bytes, at)?;
    let (started, b) = u32_at(bytes, a)?;
    let (ended, next) = u32_at(bytes, b)?;
    Ok((
        Change::Kept(Kept {
            pid,
            started,
            ended,
        }),
        next,
    ))
}

/// A change that isn't a library.
pub fn other_change_at(
    alloc: Global,
    bytes: &[u8],
    at: usize,
) -> Result<(Change, usize), RecordError>
    requires { at ≤ length bytes.now }
    ensures answer { Answers result (other_change bytes.now at) }
    ensures within { IfOk result (λ x. x.1 ≤ length bytes.now) }
{
    let (tag, place) = byte_at(bytes, at)?;
    match tag {
        2 => data_at(alloc, bytes, place),
        3 => new_process_at(alloc, bytes, place),
        4 => link_at(alloc, bytes, place),
        5 => set_at(alloc, bytes, place),
        6 => count_at(bytes, place),
        7 => kept_at(bytes, place),
        _ => Err(RecordError::BadTag(at)),
    }
}
