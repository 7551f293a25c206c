//! From where processes have their outcomes and their results.

ghost use Rattle.std.specs.Prelude.{◌≡◌, ℕ, ◌+◌, ◌<◌, length, slice_index, IfOk};
ghost use Rattle.wc_semantics.specs.Meaning.{is_killed};
ghost use Rattle.wc_verify.specs.Givers.{AreLastGivers, giver, giver_at, if_job, keeps_code, number_or, recorded_giver, result_giver};

use crate::ends::lasts_of;
use std::alloc::{AllocError, Global};
use wc_state::{ProcessKind, ProcessRecord};
use wc_value::ProcessState;
use wc_world::{World, reached_worlds_are_consistent};

/// Whether a state is that of a killed process.
pub(crate) fn is_killed(state: ProcessState) -> bool
    ensures { result ≡ is_killed state }
{
    matches!(state, ProcessState::Killed)
}

/// Whether a process is a job that keeps an exit code.
pub(crate) fn keeps_code(process: &ProcessRecord) -> bool
    ensures { result ≡ keeps_code process.now }
{
    match process.kind {
        ProcessKind::Job => process.code.is_some(),
        ProcessKind::Function | ProcessKind::Chain => false,
    }
}

/// A number, or that of the source if there is one.
fn number_or(own: u32, source: Option<u32>) -> u32
    ensures { result ≡ number_or own source }
{
    match source {
        Some(source) => source,
        None => own,
    }
}

/// The process whose outcome is given for this one: its source, where it took another's outcome as a process may, or
/// itself.
fn giver(process: &ProcessRecord) -> u32
    ensures { result ≡ giver process.now }
{
    if is_killed(process.state) || keeps_code(process) {
        process.node
    } else {
        number_or(process.node, process.cached_from)
    }
}

/// The source of a job.
fn if_job(kind: ProcessKind, source: Option<u32>) -> Option<u32>
    ensures { result ≡ if_job kind source }
{
    match kind {
        ProcessKind::Job => source,
        ProcessKind::Function | ProcessKind::Chain => None,
    }
}

/// The process whose result a job has: its source, where it took another's outcome and wasn't killed, or itself.
fn result_giver(process: &ProcessRecord) -> u32
    ensures { result ≡ result_giver process.now }
{
    if is_killed(process.state) {
        process.node
    } else {
        number_or(process.node, if_job(process.kind, process.cached_from))
    }
}

/// The process whose recorded result a job has: its source, where it keeps no exit code and wasn't killed, or itself.
fn recorded_giver(process: &ProcessRecord) -> u32
    ensures { result ≡ recorded_giver process.now }
{
    if is_killed(process.state) || keeps_code(process) {
        process.node
    } else {
        number_or(process.node, if_job(process.kind, process.cached_from))
    }
}

/// The giver of the process with a number, or the number itself where there is no such process.
fn giver_at(world: &World, pid: u32) -> u32
    ensures { result ≡ giver_at giver world.now.world pid }
{
    match world.record_of(pid) {
        Some(process) => giver(process),
        None => pid,
    }
}

/// The same of results.
fn result_giver_at(world: &World, pid: u32) -> u32
    ensures { result ≡ giver_at result_giver world.now.world pid }
{
    match world.record_of(pid) {
        Some(process) => result_giver(process),
        None => pid,
    }
}

/// The same of recorded results.
fn recorded_giver_at(world: &World, pid: u32) -> u32
    ensures { result ≡ giver_at recorded_giver world.now.world pid }
{
    match world.record_of(pid) {
        Some(process) => recorded_giver(process),
        None => pid,
    }
}

/// For each number, up to that of the last node, the process at the end of the givers, one after another: that of its
/// outcome.
pub(crate) fn last_givers(alloc: Global, world: &World) -> Result<Vec<u32>, AllocError>
    ensures { IfOk result (λ lasts. AreLastGivers giver world.now.world lasts.items) }
{
    // A reached world is consistent, so that a source ended before the process that took its outcome started.
    let _ = world.graph();
    reached_worlds_are_consistent();
    let mut table = Vec::new(alloc);
    for pid in 0..world.graph().nodes().len() + 1 {
        table.push(giver_at(world, pid as u32))?;
    }
    Ok(lasts_of(table, world.batches()))
}

/// The same of its result.
pub(crate) fn last_result_givers(alloc: Global, world: &World) -> Result<Vec<u32>, AllocError>
    ensures { IfOk result (λ lasts. AreLastGivers result_giver world.now.world lasts.items) }
{
    // A reached world is consistent, as above.
    let _ = world.graph();
    reached_worlds_are_consistent();
    let mut table = Vec::new(alloc);
    for pid in 0..world.graph().nodes().len() + 1 {
        table.push(result_giver_at(world, pid as u32))?;
    }
    Ok(lasts_of(table, world.batches()))
}

/// For each number, up to that of the last node, the process from whose own run its recorded result comes, where it has one.
pub fn last_recorded_givers(alloc: Global, world: &World) -> Result<Vec<u32>, AllocError>
    ensures { IfOk result (λ lasts. AreLastGivers recorded_giver world.now.world lasts.items) }
{
    // A reached world is consistent, as above.
    let _ = world.graph();
    reached_worlds_are_consistent();
    let mut table = Vec::new(alloc);
    for pid in 0..world.graph().nodes().len() + 1 {
        table.push(recorded_giver_at(world, pid as u32))?;
    }
    Ok(lasts_of(table, world.batches()))
}
