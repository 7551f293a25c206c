//! A process and all that it called end as killed.

ghost use Rattle.std.specs.Prelude.{◌≡◌, ◌++◌, Some, IfOk, OnOk, slice_get};
ghost use Rattle.std.specs.Option.{option_map};
ghost use Rattle.wc_world.specs.Linked.{call_in};
ghost use Rattle.wc_world.specs.Records.{find_record};
ghost use Rattle.wc_machine.specs.Kills.{ends_killed, kill_below, kill_changes, killed};

use crate::fuel::fuel_after;
use std::alloc::{AllocError, Global};
use wc_fits::is_call_from;
use wc_state::{Part, ProcessRecord};
use wc_trees::places_from;
use wc_value::ProcessState;
use wc_world::{Change, Changes, SetProcess, World, has_ended};

/// Depths go from 1 to 16, and a call goes one deeper.
const LEVELS: u32 = 16;

/// The number of the process that the link at a place calls, where it is a call from this one.
fn called_at(world: &World, pid: u32, place: usize) -> Option<u32>
    ensures { result ≡ option_map (λ l. l.target) (call_in pid (slice_get world.now.world.links place)) }
{
    match world.graph().links().get(place) {
        Some(link) => {
            if is_call_from(pid, link) {
                Some(link.target)
            } else {
                None
            }
        }
        None => None,
    }
}

/// The process ends as killed with this fuel.
fn killed(process: &ProcessRecord, fuel: u64) -> Change
    ensures { result ≡ killed process.now fuel }
{
    Change::Set(SetProcess {
        pid: process.node,
        state: ProcessState::Killed,
        paused: false,
        cached_from: 0,
        fuel,
        code: None,
        part: Part::Over,
    })
}

/// Puts the end of a process behind the changes, where it lives.
fn put_end(changes: &mut Changes, world: &World, process: &ProcessRecord) -> Result<(), AllocError>
    ensures { OnOk result (changes.new ≡ changes.old ++ ends_killed world.now.world process.now) }
{
    if has_ended(process.state) {
        return Ok(());
    }
    changes.push(killed(process, fuel_after(world, process, LEVELS)))
}

/// Puts the kill of the process with this number behind the changes, if it is there.
#[cycle(kill)]
fn put_called(
    alloc: Global,
    changes: &mut Changes,
    world: &World,
    pid: u32,
    levels: u32,
) -> Result<(), AllocError>
    ensures { OnOk result (changes.new ≡ changes.old ++ kill_below levels world.now.world (find_record pid world.now.world.records)) }
{
    match world.record_of(pid) {
        Some(process) => put_kill(alloc, changes, world, process, levels),
        None => Ok(()),
    }
}

/// Puts the kill of a process behind the changes: what it called, in order, and then the process itself.
#[cycle(kill)]
fn put_kill(
    alloc: Global,
    changes: &mut Changes,
    world: &World,
    process: &ProcessRecord,
    levels: u32,
) -> Result<(), AllocError>
    ensures { OnOk result (changes.new ≡ changes.old ++ kill_below levels world.now.world (Some process.now)) }
{
    if levels == 0 {
        return put_end(changes, world, process);
    }
    let mut places = places_from(alloc, world.graph(), process.node)?;
    while let Some(place) = places.pop() {
        let Some(pid) = called_at(world, process.node, place) else {
            continue;
        };
        put_called(alloc, changes, world, pid, levels - 1)?;
    }
    put_end(changes, world, process)
}

/// The changes of the kill of a process: one for each live process at and below it, called ones before their callers.
pub(crate) fn kill(
    alloc: Global,
    world: &World,
    process: &ProcessRecord,
) -> Result<Changes, AllocError>
    ensures { IfOk result (λ cs. cs ≡ kill_changes world.now.world process.now) }
{
    let mut changes = Changes::new(alloc);
    put_kill(alloc, &mut changes, world, process, LEVELS)?;
    Ok(changes)
}
