//! Keys: the canonical bytes of a definition's text and of input values.

ghost use Rattle.std.specs.Prelude.{◌≡◌, IfOk, IsSome};
ghost use Rattle.wc_world.specs.Records.{find_record};
ghost use Rattle.wc_machine.specs.Recorded.{its_definition};
ghost use Rattle.wc_cache.specs.Keys.{IsKey, IsKeyOf, key_value};

use std::alloc::{AllocError, Global};
use wc_state::ProcessRecord;
use wc_trees::{recorded_inputs, text_of};
use wc_value::{Bytes, Duplicate, Fields, Text, Value, encode};
use wc_world::World;

/// The dictionary of a definition's text and of inputs.
fn dictionary_of(alloc: Global, text: Text, inputs: Fields) -> Result<Value, AllocError>
    ensures { IfOk result (λ value. value ≡ key_value text inputs) }
{
    let mut fields = Fields::new(alloc);
    fields.set(Text::of_str(alloc, "definition")?, Value::Text(text))?;
    fields.set(Text::of_str(alloc, "inputs")?, Value::Dict(inputs))?;
    Ok(Value::Dict(fields))
}

/// The key of a definition's text and of inputs: the canonical bytes of their dictionary.
pub(crate) fn key_with(alloc: Global, text: &Text, inputs: Fields) -> Result<Bytes, AllocError>
    ensures { IfOk result (IsKey text.now inputs) }
{
    let value = dictionary_of(alloc, text.copy()?, inputs)?;
    encode(alloc, &value)
}

/// The key of a process of the world whose definition is there.
pub(crate) fn key_of_process(
    alloc: Global,
    world: &World,
    process: &ProcessRecord,
) -> Result<Bytes, AllocError>
    requires there { IsSome (find_record process.now.node world.now.world.records) }
    requires defined { IsSome (its_definition world.now.world process.now) }
    ensures { IfOk result (IsKeyOf world.now.world process.now) }
{
    let text = text_of(world, process).unwrap();
    let inputs = recorded_inputs(alloc, world, process.node)?;
    key_with(alloc, text, inputs)
}
