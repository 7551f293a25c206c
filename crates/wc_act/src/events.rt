//! Events that are asked for.

ghost use Rattle.std.specs.Prelude.{◌≡◌, ◌≢◌, ◌≤◌, [], true, None, Some, IsSome, IsTrue, IfOk, IfErr, IfSome};
ghost use Rattle.wc_machine.specs.Submissions.{submitted_number};
ghost use Rattle.wc_state.specs.Ranges.{AreLimits};
ghost use Rattle.wc_store.specs.Stores.{HasImages, StandsFor};
ghost use Rattle.wc_act.specs.Counts.{CountsDisks};
ghost use Rattle.wc_act.specs.Crashes.{AreDurable, LeavesPairs, HoldsKeeping};
ghost use Rattle.wc_act.specs.Entries.{IsEntryOf, IsStorable};
ghost use Rattle.wc_act.specs.Events.{Changes, IsLine, MayHappen, RefusesAsked, limits_of, line_of, process_of};
ghost use Rattle.wc_act.specs.Opened.{IsTold, turn_reply};
ghost use Rattle.wc_act.specs.Owed.{visit, DoneOn, OfVisit};
ghost use Rattle.wc_plan.specs.Plans.{IsReadyAsked};
ghost use Rattle.wc_act.specs.Rows.{event_row};
ghost use Rattle.wc_act.specs.StoreDeeds.{greatest_limits};
ghost use Rattle.wc_plan.specs.Submits.{IsReady};
ghost use Rattle.wc_act.specs.Undone.{EndsWith, IsUnbroken};
ghost use Rattle.wc_plan.specs.declared.deed.Asked.TheVariants.{Submit, Pause, Play, Kill};

use crate::error::ActError;
use crate::laws::worlds_are_kept;
use crate::opened::{full, refused};
use std::alloc::{AllocError, Global};
use wc_disk::Disk;
use wc_drill::{TurnError, kill_changes, pause_changes, play_changes, submit_changes};
use wc_plan::{Asked, Cause, Reply, Submission, print, refuse};
use wc_report::{killed_text, paused_text, playing_text, submitted_text};
use wc_state::Limits;
use wc_store::Store;
use wc_value::{Fields, Text};
use wc_world::{Changes, World};

/// What is done for an event at a world.
#[derive(Drop)]
pub enum Entry {
    /// Nothing is stored, and this is told.
    Reply(Reply),
    /// These changes are stored, and then this line is written.
    Commits(Changes, Text),
}

/// The greatest limits that may be set.
fn greatest_limits() -> Limits
    ensures { result ≡ greatest_limits }
{
    Limits {
        max_nodes: 8_000_000,
        max_bytes: 2_147_483_648,
        poll_ms: 600_000,
    }
}

/// The limits within which an event is stored.
fn limits_of(asked: &Asked) -> Limits
    requires ready { IsReadyAsked asked.now }
    ensures value { result ≡ limits_of asked.now }
    ensures ranges { AreLimits result }
{
    match asked {
        Asked::Submit(submission) => submission.limits,
        Asked::Pause(_) | Asked::Play(_) | Asked::Kill(_) => greatest_limits(),
    }
}

/// The number of the process that an event is for, if that is there already.
fn process_of(asked: &Asked) -> Option<u32>
    ensures { result ≡ process_of asked.now }
{
    match asked {
        Asked::Submit(_) => None,
        Asked::Pause(pid) | Asked::Play(pid) | Asked::Kill(pid) => Some(*pid),
    }
}

/// The number that a process with these inputs gets, if it has 32 bits.
fn number_of(world: &World, inputs: &Fields) -> Option<u32>
    ensures some { IfSome result (λ pid. pid ≡ submitted_number world.now.world inputs.now) }
    ensures none { result ≡ None → 4294967296 ≤ submitted_number world.now.world inputs.now }
{
    let nodes = world.graph().nodes().len() as u64;
    match u32::try_from(nodes + inputs.len() as u64 + 1) {
        Ok(pid) => Some(pid),
        Err(_) => None,
    }
}

/// The line of the process that is submitted, if its number has 32 bits.
fn submitted_line(
    alloc: Global,
    world: &World,
    submission: &Submission,
) -> Result<Option<Text>, AllocError>
    ensures { IfOk result (IsLine (Submit submission.now) world.now.world) }
{
    match number_of(world, &submission.inputs) {
        Some(pid) => Ok(Some(submitted_text(alloc, pid)?)),
        None => Ok(None),
    }
}

/// The line that is written once the event has happened, if there is one.
fn line_of(alloc: Global, world: &World, asked: &Asked) -> Result<Option<Text>, AllocError>
    ensures { IfOk result (IsLine asked.now world.now.world) }
{
    match asked {
        Asked::Submit(submission) => submitted_line(alloc, world, submission),
        Asked::Pause(pid) => Ok(Some(paused_text(alloc, *pid)?)),
        Asked::Play(pid) => Ok(Some(playing_text(alloc, *pid)?)),
        Asked::Kill(pid) => Ok(Some(killed_text(alloc, *pid)?)),
    }
}

/// A line that is there.
fn there(line: Option<Text>) -> Text
    requires { IsSome line }
    ensures { line ≡ Some result }
{
    match line {
        Some(text) => text,
        None => unreachable!(),
    }
}

/// The changes of the event.
fn changes_of(
    alloc: Global,
    world: &World,
    limits: &Limits,
    asked: Asked,
) -> Result<Changes, TurnError>
    requires ready { IsReadyAsked asked }
    requires limits { limits.now ≡ limits_of asked }
    ensures leads { IfOk result (Changes world.now.world asked) }
    ensures storable { IfOk result (λ cs. cs ≢ [] → IsStorable asked world.now.world cs) }
    ensures refused { IfErr result (RefusesAsked asked world.now.world) }
{
    match asked {
        Asked::Submit(submission) => changes_for(alloc, world, limits, submission),
        Asked::Pause(pid) => paused(alloc, world, pid),
        Asked::Play(pid) => played(alloc, world, pid),
        Asked::Kill(pid) => killed(alloc, world, pid),
    }
}

/// The changes that make a process of what is submitted.
fn changes_for(
    alloc: Global,
    world: &World,
    limits: &Limits,
    submission: Submission,
) -> Result<Changes, TurnError>
    requires ready { IsReady submission }
    requires limits { limits.now ≡ submission.limits }
    ensures leads { IfOk result (Changes world.now.world (Submit submission)) }
    ensures storable { IfOk result (λ cs. cs ≢ [] → IsStorable (Submit submission) world.now.world cs) }
    ensures refused { IfErr result (RefusesAsked (Submit submission) world.now.world) }
{
    // What accepted changes make is told by the graph.
    let _graph = world.graph();
    let Submission {
        library,
        name,
        inputs,
        caching,
        ..
    } = submission;
    submit_changes(alloc, world, limits, library, caching, &name, inputs)
}

/// The changes of a pause.
fn paused(alloc: Global, world: &World, pid: u32) -> Result<Changes, TurnError>
    ensures leads { IfOk result (Changes world.now.world (Pause pid)) }
    ensures storable { IfOk result (λ cs. cs ≢ [] → IsStorable (Pause pid) world.now.world cs) }
    ensures refused { IfErr result (RefusesAsked (Pause pid) world.now.world) }
{
    let _graph = world.graph();
    pause_changes(alloc, world, pid)
}

/// The changes of a play.
fn played(alloc: Global, world: &World, pid: u32) -> Result<Changes, TurnError>
    ensures leads { IfOk result (Changes world.now.world (Play pid)) }
    ensures storable { IfOk result (λ cs. cs ≢ [] → IsStorable (Play pid) world.now.world cs) }
    ensures refused { IfErr result (RefusesAsked (Play pid) world.now.world) }
{
    let _graph = world.graph();
    play_changes(alloc, world, pid)
}

/// The changes of a kill.
fn killed(alloc: Global, world: &World, pid: u32) -> Result<Changes, TurnError>
    ensures leads { IfOk result (Changes world.now.world (Kill pid)) }
    ensures storable { IfOk result (λ cs. cs ≢ [] → IsStorable (Kill pid) world.now.world cs) }
    ensures refused { IfErr result (RefusesAsked (Kill pid) world.now.world) }
{
    let _graph = world.graph();
    kill_changes(alloc, world, pid)
}

/// What is told where the event has no changes to give: the world would be too full, or the process isn't there or has ended.
fn refusal(alloc: Global, pid: Option<u32>, error: TurnError) -> Result<Reply, AllocError>
    requires { IsTold pid error }
    ensures { IfOk result (λ r. turn_reply pid error ≡ Some r) }
{
    match (error, pid) {
        (TurnError::Full(what, count, limit), _) => full(alloc, what, count, limit),
        (TurnError::UnknownProcess, Some(pid)) => refuse(alloc, Cause::UnknownProcess(pid)),
        (TurnError::Ended(state), Some(pid)) => refuse(alloc, Cause::Ended(pid, state)),
        (TurnError::OutOfMemory, _) => Err(AllocError),
        _ => unreachable!(),
    }
}

/// What is done for an event at a world.
fn entry_of(
    alloc: Global,
    world: &World,
    limits: &Limits,
    asked: Asked,
) -> Result<Entry, AllocError>
    requires ready { IsReadyAsked asked }
    requires limits { limits.now ≡ limits_of asked }
    ensures { IfOk result (IsEntryOf asked world.now.world) }
{
    let line = line_of(alloc, world, &asked)?;
    let pid = process_of(&asked);
    match changes_of(alloc, world, limits, asked) {
        Ok(changes) if changes.is_empty() => Ok(Entry::Reply(print(there(line)))),
        Ok(changes) => Ok(Entry::Commits(changes, there(line))),
        Err(error) => Ok(Entry::Reply(refusal(alloc, pid, error)?)),
    }
}

/// The reply to an event on a store.
pub(crate) fn event_reply<D: Disk>(
    alloc: Global,
    store: &mut Store,
    asked: Asked,
    one: &mut D,
    two: &mut D,
) -> Result<Reply, ActError>
    requires ready { IsReadyAsked asked }
    requires live { store.old.live ≡ true }
    requires stands { IsTrue (D.tells one.old) → IsTrue (D.tells two.old) → StandsFor D.Disk store.old one.old two.old }
    requires images { HasImages store.old }
    ensures does { IfOk result (λ r. OfVisit (visit D.Disk one.old two.old one.new two.new) (DoneOn (event_row asked) store.old.world.world r)) }
    ensures kept { IsTrue (D.tells one.old) → IsTrue (D.tells two.old) → LeavesPairs D.Disk one.old two.old one.new two.new (HoldsKeeping (MayHappen asked) (D.seen one.old, D.seen two.old) store.old.world.world) }
    ensures durable { IsUnbroken result → IsTrue (D.tells one.old) → IsTrue (D.tells two.old) → AreDurable D.Disk one.new two.new }
    ensures tells { (D.tells one.new ≡ D.tells one.old) × (D.tells two.new ≡ D.tells two.old) }
    ensures untouched { EndsWith (event_row asked).undone result → (one.new ≡ one.old) × (two.new ≡ two.old) }
    ensures cause { CountsDisks result (D.faults one.old) (D.faults one.new) (D.faults two.old) (D.faults two.new) (D.failed one.new) (D.failed two.new) }
{
    worlds_are_kept();
    let limits = limits_of(&asked);
    match entry_of(alloc, store.world(), &limits, asked)? {
        Entry::Reply(reply) => Ok(reply),
        Entry::Commits(changes, line) => match store.commit(alloc, one, two, changes, &limits) {
            Ok(()) => Ok(print(line)),
            Err(error) => refused(alloc, error),
        },
    }
}
