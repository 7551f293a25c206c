//! What a pause, a play and a kill of a live process do.

ghost use Rattle.std.specs.Prelude.{◌≡◌, ◌≢◌, ◌≤◌, ◌+◌, ◌∷◌, [], false, IfOk, IfErr, OnOk};
ghost use Rattle.wc_world.specs.Accepted.{IsAccepted};
ghost use Rattle.wc_world.specs.Records.{has_ended};
ghost use Rattle.wc_machine.specs.Continues.{Continues};
ghost use Rattle.wc_machine.specs.Kills.{kill_changes as changes_of_kill};
ghost use Rattle.wc_machine.specs.Machine.{after_changes, kill, marked, pause, pause_changes as changes_of_pause, play, play_changes as changes_of_play, renewed};
ghost use Rattle.wc_machine.specs.Sound.{IsSound};
ghost use Rattle.wc_machine.specs.Refusals.{FullOfBatches, NoneHolds};
ghost use Rattle.wc_core.specs.Refusals.{AreChangesOf, RefusesMark};

use crate::kills::kill;
use std::alloc::{AllocError, Global};
use wc_calculation_turns::anew;
use wc_machine::{TurnError, check_batch, live_process};
use wc_state::{Part, ProcessRecord};
use wc_value::Duplicate;
use wc_world::{Change, Changes, SetProcess, World, reached_worlds_are_consistent};

/// A process in its state and with its fuel, with this mark and at this part.
fn marked(process: &ProcessRecord, paused: bool, part: Part) -> Change
    ensures { result ≡ marked process.now paused part }
{
    Change::Set(SetProcess {
        pid: process.node,
        state: process.state,
        paused,
        cached_from: 0,
        fuel: process.fuel,
        code: None,
        part,
    })
}

/// Where a process stands that plays again: a job starts its task anew.
fn renewed(part: &Part) -> Result<Part, AllocError>
    ensures { IfOk result (λ p. p ≡ renewed part.now) }
{
    match part {
        Part::Job(job) => Ok(Part::Job(anew(*job))),
        _ => part.copy(),
    }
}

/// One change.
fn only(alloc: Global, change: Change) -> Result<Changes, AllocError>
    ensures { IfOk result (λ cs. cs ≡ change ∷ []) }
{
    let mut changes = Changes::new(alloc);
    changes.push(change)?;
    Ok(changes)
}

/// The changes of a pause of a live process.
fn pause(alloc: Global, world: &World, process: &ProcessRecord) -> Result<Changes, TurnError>
    ensures changes { IfOk result (λ cs. cs ≡ changes_of_pause process.now) }
    ensures room { IfOk result (λ cs. cs ≢ [] → world.now.world.batches + 1 ≤ 4000000000) }
    ensures refused { IfErr result (FullOfBatches (λ cs. cs ≡ changes_of_pause process.now) world.now.world) }
{
    if process.paused {
        return Ok(Changes::new(alloc));
    }
    match check_batch(world) {
        Ok(()) => Ok(only(alloc, marked(process, true, process.part.copy()?))?),
        Err(error) => Err(error),
    }
}

/// The changes of a play of a live process.
fn play(alloc: Global, world: &World, process: &ProcessRecord) -> Result<Changes, TurnError>
    ensures changes { IfOk result (λ cs. cs ≡ changes_of_play process.now) }
    ensures room { IfOk result (λ cs. cs ≢ [] → world.now.world.batches + 1 ≤ 4000000000) }
    ensures refused { IfErr result (FullOfBatches (λ cs. cs ≡ changes_of_play process.now) world.now.world) }
{
    if !process.paused {
        return Ok(Changes::new(alloc));
    }
    match check_batch(world) {
        Ok(()) => Ok(only(alloc, marked(process, false, renewed(&process.part)?))?),
        Err(error) => Err(error),
    }
}

/// The changes of a pause of a live process: it gets the pause mark, if it has none.
pub fn pause_changes(alloc: Global, world: &World, pid: u32) -> Result<Changes, TurnError>
    ensures changes { IfOk result (AreChangesOf world.now.world (pause pid)) }
    ensures accepted { IfOk result (λ cs. cs ≢ [] → IsAccepted world.now.world cs) }
    ensures continues { IfOk result (λ cs. IsSound world.now.world → Continues world.now.world (after_changes world.now.world cs)) }
    ensures sound { IfOk result (λ cs. IsSound world.now.world → IsSound (after_changes world.now.world cs)) }
    ensures room { IfOk result (λ cs. cs ≢ [] → world.now.world.batches + 1 ≤ 4000000000) }
    ensures none { OnOk result (NoneHolds (RefusesMark world.now.world (pause pid) pid)) }
    ensures refused { IfErr result (RefusesMark world.now.world (pause pid) pid) }
{
    reached_worlds_are_consistent();
    // What accepted changes make is told by the graph.
    let _graph = world.graph();
    match live_process(world, pid) {
        Ok(process) => pause(alloc, world, process),
        Err(error) => Err(error),
    }
}

/// The changes of a play of a live process: it loses the pause mark, if it has one, and a job starts its task anew.
pub fn play_changes(alloc: Global, world: &World, pid: u32) -> Result<Changes, TurnError>
    ensures changes { IfOk result (AreChangesOf world.now.world (play pid)) }
    ensures accepted { IfOk result (λ cs. cs ≢ [] → IsAccepted world.now.world cs) }
    ensures continues { IfOk result (λ cs. IsSound world.now.world → Continues world.now.world (after_changes world.now.world cs)) }
    ensures sound { IfOk result (λ cs. IsSound world.now.world → IsSound (after_changes world.now.world cs)) }
    ensures room { IfOk result (λ cs. cs ≢ [] → world.now.world.batches + 1 ≤ 4000000000) }
    ensures none { OnOk result (NoneHolds (RefusesMark world.now.world (play pid) pid)) }
    ensures refused { IfErr result (RefusesMark world.now.world (play pid) pid) }
{
    reached_worlds_are_consistent();
    // What accepted changes make is told by the graph.
    let _graph = world.graph();
    match live_process(world, pid) {
        Ok(process) => play(alloc, world, process),
        Err(error) => Err(error),
    }
}

/// The changes of the kill of a process where there is room for a batch.
fn killed(alloc: Global, world: &World, process: &ProcessRecord) -> Result<Changes, TurnError>
    requires live { has_ended process.now.state ≡ false }
    ensures changes { IfOk result (λ cs. cs ≡ changes_of_kill world.now.world process.now) }
    ensures room { IfOk result (λ cs. cs ≢ [] → world.now.world.batches + 1 ≤ 4000000000) }
    ensures refused { IfErr result (FullOfBatches (λ cs. cs ≡ changes_of_kill world.now.world process.now) world.now.world) }
{
    match check_batch(world) {
        Ok(()) => Ok(kill(alloc, world, process)?),
        Err(error) => Err(error),
    }
}

/// The changes of a kill: a live process ends as killed, and with it all live processes that it called, directly or through calls.
pub fn kill_changes(alloc: Global, world: &World, pid: u32) -> Result<Changes, TurnError>
    ensures changes { IfOk result (AreChangesOf world.now.world (kill pid)) }
    ensures accepted { IfOk result (λ cs. cs ≢ [] → IsAccepted world.now.world cs) }
    ensures continues { IfOk result (λ cs. IsSound world.now.world → Continues world.now.world (after_changes world.now.world cs)) }
    ensures sound { IfOk result (λ cs. IsSound world.now.world → IsSound (after_changes world.now.world cs)) }
    ensures room { IfOk result (λ cs. cs ≢ [] → world.now.world.batches + 1 ≤ 4000000000) }
    ensures none { OnOk result (NoneHolds (RefusesMark world.now.world (kill pid) pid)) }
    ensures refused { IfErr result (RefusesMark world.now.world (kill pid) pid) }
{
    reached_worlds_are_consistent();
    // What accepted changes make is told by the graph.
    let _graph = world.graph();
    match live_process(world, pid) {
        Ok(process) => killed(alloc, world, process),
        Err(error) => Err(error),
    }
}
