//! What is given to a chain.

ghost use Rattle.std.specs.Prelude.{◌≡◌, ◌≤◌, All, IfOk};
ghost use Rattle.wc_value.specs.Spelling.{depth};
ghost use Rattle.wc_drill.specs.Library.{chain_inputs, chain_name};

use std::alloc::{AllocError, Global};
use wc_value::{Fields, Text, Value};

/// The name of the definition of chains.
pub fn chain_name(alloc: Global) -> Result<Text, AllocError>
    ensures { IfOk result (λ name. name ≡ chain_name) }
{
    Text::of_str(alloc, "pair")
}

/// The inputs of a chain with these two numbers.
#[tactic(auto, using(crate::proofs::Given::shallow))]
pub fn chain_inputs(alloc: Global, first: u32, second: u32) -> Result<Fields, AllocError>
    // The inputs are those of the definition.
    ensures value { IfOk result (λ inputs. inputs ≡ chain_inputs first second) }
    // Their values are at most 32 deep.
    ensures shallow { IfOk result (λ inputs. All (λ i. depth i.1 ≤ 32) inputs) }
{
    let mut inputs = Fields::new(alloc);
    inputs.push((Text::of_str(alloc, "a")?, Value::Int(i64::from(first))))?;
    inputs.push((Text::of_str(alloc, "b")?, Value::Int(i64::from(second))))?;
    Ok(inputs)
}
