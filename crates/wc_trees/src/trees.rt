//! The tree that a world records of a process.

ghost use Rattle.std.specs.Prelude.{◌≡◌, ◌↔◌, ◌⊎◌, IfOk, IfErr, IsErrOf};
ghost use Rattle.wc_world.specs.Records.{find_record};
ghost use Rattle.wc_world.specs.Trees.{branches, tree_within, recorded_tree};

use crate::linked::{call_at, places_from};
use crate::outputs::output_values;
use std::alloc::{AllocError, Global};
use wc_value::{Branches, Duplicate, Tree};
use wc_world::{World, WorldError};

/// How deep calls nest at most.
const MOST_LEVELS: u32 = 16;

/// The tree of a process, if there is one in which calls nest in at most so many levels.
#[cycle(tree_within)]
fn tree_within(
    alloc: Global,
    world: &World,
    pid: u32,
    levels: u32,
) -> Result<Option<Tree>, AllocError>
    ensures { IfOk result (λ tree. tree ≡ tree_within levels world.now.world pid) }
{
    if levels == 0 {
        return Ok(None);
    }
    let Some(record) = world.record_of(pid) else {
        return Ok(None);
    };
    let Some(calls) = branches(alloc, world, pid, levels - 1)? else {
        return Ok(None);
    };
    Ok(Some(Tree {
        definition: record.definition.copy()?,
        state: record.state,
        outputs: output_values(alloc, world.graph(), pid)?,
        calls,
    }))
}

/// The processes that a process called, each with its tree, if each has one within so many levels.
#[cycle(tree_within)]
fn branches(
    alloc: Global,
    world: &World,
    pid: u32,
    levels: u32,
) -> Result<Option<Branches>, AllocError>
    ensures { IfOk result (λ calls. calls ≡ branches (tree_within levels world.now.world) pid world.now.world.links) }
{
    let mut calls = Branches::new(alloc);
    let mut places = places_from(alloc, world.graph(), pid)?;
    while let Some(place) = places.pop() {
        if let Some(link) = call_at(world.graph(), pid, place) {
            let Some(tree) = tree_within(alloc, world, link.target, levels)? else {
                return Ok(None);
            };
            calls.push((link.label.copy()?, tree))?;
        }
    }
    Ok(Some(calls))
}

/// The tree that the world records of a process: its definition, its state, the values of its outputs, and what it
/// called, each under its label with a tree of its own.
pub fn tree_of(alloc: Global, world: &World, pid: u32) -> Result<Tree, WorldError>
    // The tree is the recorded one.
    ensures ok { IfOk result (λ tree. recorded_tree world.now.world pid ≡ Some tree) }
    // An error is want of memory, or that there is no such process.
    ensures refused { IfErr result (λ e. (e ≡ WorldError.OutOfMemory) ⊎ (e ≡ WorldError.NoProcess pid)) }
    // NoProcess exactly where there is none.
    ensures no_process { IsErrOf result (WorldError.NoProcess pid) ↔ (find_record pid world.now.world.records ≡ None) }
{
    // A reached world is consistent, so that each of its processes has a tree.
    let _ = world.graph();
    if world.record_of(pid).is_none() {
        return Err(WorldError::NoProcess(pid));
    }
    match tree_within(alloc, world, pid, MOST_LEVELS)? {
        Some(tree) => Ok(tree),
        None => Err(WorldError::NoProcess(pid)),
    }
}
