//! What a world records of a calculation: its definition, with its text, and its inputs.

ghost use Rattle.std.specs.Prelude.{◌≡◌, IfOk, IsSome, option_map};
ghost use Rattle.std.specs.Option.{option_copied};
ghost use Rattle.wc_syntax.specs.Bare.{bare_definition};
ghost use Rattle.wc_syntax.specs.Printing.{printed_definition};
ghost use Rattle.wc_world.specs.Records.{find_record, library_at};
ghost use Rattle.wc_world.specs.Trees.{values_alone};
ghost use Rattle.wc_world.specs.Keys.{its_definition, recorded_inputs};

use crate::environments::env_of;
use std::alloc::{AllocError, Global};
use wc_state::{Named, ProcessRecord};
use wc_syntax::{Checked, Definition, find_definition};
use wc_value::{Duplicate, Fields, Text};
use wc_world::{World, WorldError};

/// The library with this number, if there is one.
fn library_at(world: &World, number: u32) -> Option<&Checked>
    ensures { option_copied result ≡ library_at world.now.world.libraries number }
{
    wc_fits::library_at(world.libraries().as_slice(), number)
}

/// The definition that a process runs, if it is there.
pub fn definition_of<'a>(world: &'a World, process: &ProcessRecord) -> Option<&'a Definition>
    ensures { option_map bare_definition (option_copied result) ≡ its_definition world.now.world process.now }
{
    let library = library_at(world, process.library)?;
    find_definition(library.library(), &process.definition)
}

/// The printed text of the definition that a process runs, if it is there. It was made with the library.
pub fn text_of<'a>(world: &'a World, process: &ProcessRecord) -> Option<&'a Text>
    ensures { option_copied result ≡ option_map printed_definition (its_definition world.now.world process.now) }
{
    let library = library_at(world, process.library)?;
    library.text_of(&process.definition)
}

/// The values of named nodes, without the nodes.
fn values_alone(alloc: Global, named: &Named) -> Result<Fields, AllocError>
    ensures { IfOk result (λ fields. fields ≡ values_alone named.now) }
{
    let mut fields = Fields::new(alloc);
    for (name, held) in named.as_slice() {
        fields.push((name.copy()?, held.value.copy()?))?;
    }
    Ok(fields)
}

/// The values of the inputs of a process, by port.
pub fn recorded_inputs(alloc: Global, world: &World, pid: u32) -> Result<Fields, AllocError>
    // There is a process with this number.
    requires { IsSome (find_record pid world.now.world.records) }
    ensures { IfOk result (λ fields. fields ≡ recorded_inputs world.now.world pid) }
{
    match env_of(alloc, world, pid) {
        Ok(env) => values_alone(alloc, &env.inputs),
        Err(WorldError::OutOfMemory) => Err(AllocError),
        Err(_) => unreachable!(),
    }
}
