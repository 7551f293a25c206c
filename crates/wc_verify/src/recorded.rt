//! What a world records of a calculation: its outputs, and the folder that a job brought back.

ghost use Rattle.std.specs.Prelude.{◌≡◌, IfOk, IsSome};
ghost use Rattle.wc_world.specs.Records.{find_record};
ghost use Rattle.wc_machine.specs.Recorded.{recorded_outputs, retrieved_folder};

use std::alloc::{AllocError, Global};
use wc_trees::tree_of;
use wc_value::{Duplicate, Fields, Files, Value};
use wc_world::{World, WorldError};

/// The values of the outputs of a process, by label.
pub(crate) fn recorded_outputs(alloc: Global, world: &World, pid: u32) -> Result<Fields, AllocError>
    // There is a process with this number.
    requires { IsSome (find_record pid world.now.world.records) }
    ensures { IfOk result (λ fields. fields ≡ recorded_outputs world.now.world pid) }
{
    match tree_of(alloc, world, pid) {
        Ok(tree) => Ok(tree.outputs),
        Err(WorldError::OutOfMemory) => Err(AllocError),
        Err(_) => unreachable!(),
    }
}

/// The folder that a job brought back, if it did.
pub(crate) fn retrieved_folder(
    alloc: Global,
    world: &World,
    pid: u32,
) -> Result<Option<Files>, AllocError>
    // There is a process with this number.
    requires { IsSome (find_record pid world.now.world.records) }
    ensures { IfOk result (λ files. files ≡ retrieved_folder world.now.world pid) }
{
    let outputs = recorded_outputs(alloc, world, pid)?;
    match outputs.find(b"retrieved") {
        Some(Value::Folder(files)) => Ok(Some(files.copy()?)),
        _ => Ok(None),
    }
}
