//! The environment of a process, as a world records it.

ghost use Rattle.std.specs.Prelude.{◌≡◌, ◌↔◌, ◌⊎◌, IfOk, IfErr, IsErrOf};
ghost use Rattle.wc_world.specs.Records.{find_record};
ghost use Rattle.wc_world.specs.Trees.{child_at, children_at, item_of, items_of, context_of, environment_at};
ghost use Rattle.wc_trees.specs.Environments.{environment_in};

use crate::outputs::{inputs_of, outputs_of};
use std::alloc::{AllocError, Global};
use wc_state::{Child, Children, Context, CtxRef, Env, Ids, Item, Items, Part};
use wc_value::Duplicate;
use wc_world::{World, WorldError};

/// A process in its state and with its outputs, if it is there.
fn child_at(alloc: Global, world: &World, pid: u32) -> Result<Option<Child>, AllocError>
    ensures { IfOk result (λ child. child ≡ child_at world.now.world pid) }
{
    match world.record_of(pid) {
        Some(record) => Ok(Some(Child {
            node: pid,
            state: record.state,
            outputs: outputs_of(alloc, world.graph(), pid)?,
        })),
        None => Ok(None),
    }
}

/// Processes in their states and with their outputs, if all of them are there.
fn children_at(alloc: Global, world: &World, pids: &Ids) -> Result<Option<Children>, AllocError>
    ensures { IfOk result (λ children. children ≡ children_at world.now.world pids.now) }
{
    let mut children = Children::new(alloc);
    for pid in pids.as_slice() {
        let Some(child) = child_at(alloc, world, *pid)? else {
            return Ok(None);
        };
        children.push(child)?;
    }
    Ok(Some(children))
}

/// What a key holds, if each process of it is there.
fn item_of(alloc: Global, world: &World, held: &CtxRef) -> Result<Option<Item>, AllocError>
    ensures { IfOk result (λ item. item ≡ item_of world.now.world held.now) }
{
    match held {
        CtxRef::Plain(value) => Ok(Some(Item::Plain(value.copy()?))),
        CtxRef::One(pid) => Ok(child_at(alloc, world, *pid)?.map(Item::One)),
        CtxRef::Many(pids) => Ok(children_at(alloc, world, pids)?.map(Item::Many)),
    }
}

/// What the keys of a context hold, if each process of it is there.
fn items_of(alloc: Global, world: &World, ctx: &Context) -> Result<Option<Items>, AllocError>
    ensures { IfOk result (λ items. items ≡ items_of world.now.world ctx.now) }
{
    let mut items = Items::new(alloc);
    for at in 0..ctx.len() {
        let (key, held) = ctx.get(at).unwrap();
        let Some(item) = item_of(alloc, world, held)? else {
            return Ok(None);
        };
        let _before = items.set(key.copy()?, item)?;
    }
    Ok(Some(items))
}

/// The context of what is kept of a process, if each process of it is there. Without a checkpoint it is empty.
fn context_of(alloc: Global, world: &World, part: &Part) -> Result<Option<Items>, AllocError>
    ensures { IfOk result (λ items. items ≡ items_of world.now.world (context_of part.now)) }
{
    match part {
        Part::Chain(checkpoint) => items_of(alloc, world, &checkpoint.ctx),
        Part::Fresh | Part::Job(_) | Part::Over => Ok(Some(Items::new(alloc))),
    }
}

/// The inputs of a process by label, with a context in which each process has the state and the outputs that it has, if each of them
/// is there.
pub fn env_in(
    alloc: Global,
    world: &World,
    pid: u32,
    ctx: &Context,
) -> Result<Option<Env>, AllocError>
    ensures { IfOk result (λ env. env ≡ environment_in world.now.world pid ctx.now) }
{
    let inputs = inputs_of(alloc, world.graph(), pid)?;
    match items_of(alloc, world, ctx)? {
        Some(ctx) => Ok(Some(Env { inputs, ctx })),
        None => Ok(None),
    }
}

/// The environment of a process: its inputs by label, and the context of its checkpoint, with each process in the state
/// and with the outputs that it has.
pub fn env_of(alloc: Global, world: &World, pid: u32) -> Result<Env, WorldError>
    // The environment is the one that the world records.
    ensures ok { IfOk result (λ env. environment_at world.now.world pid ≡ Some env) }
    // An error is want of memory, or that there is no such process.
    ensures refused { IfErr result (λ e. (e ≡ WorldError.OutOfMemory) ⊎ (e ≡ WorldError.NoProcess pid)) }
    // NoProcess exactly where there is none.
    ensures no_process { IsErrOf result (WorldError.NoProcess pid) ↔ (find_record pid world.now.world.records ≡ None) }
{
    let Some(record) = world.record_of(pid) else {
        return Err(WorldError::NoProcess(pid));
    };
    let inputs = inputs_of(alloc, world.graph(), pid)?;
    match context_of(alloc, world, &record.part)? {
        Some(ctx) => Ok(Env { inputs, ctx }),
        None => Err(WorldError::NoProcess(pid)),
    }
}
