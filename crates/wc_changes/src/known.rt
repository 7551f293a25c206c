//! What a library knows of a definition by its name.

ghost use Rattle.std.specs.Prelude.{◌≡◌};
ghost use Rattle.std.specs.Option.{option_copied};
ghost use Rattle.wc_syntax.specs.Findings.{definition_named};
ghost use Rattle.wc_machine.specs.Calls.{kind_named, call_link};
ghost use Rattle.wc_changes.specs.Known.{known_at};

use wc_graph::LinkType;
use wc_state::ProcessKind;
use wc_syntax::{Checked, Definition, find_definition};
use wc_value::Text;
use wc_world::{Known, World};

/// The library with this number, with the names that have caching on, if there is one.
pub fn known_at(world: &World, number: u32) -> Option<&Known>
    ensures { option_copied result ≡ known_at world.now.world.libraries number }
{
    if number == 0 {
        return None;
    }
    world.libraries().get(number as usize - 1)
}

/// What kind of process runs a definition. A library that is checked has each definition that it calls.
fn kind_of(definition: Option<&Definition>) -> ProcessKind
    ensures { result ≡ kind_named (option_copied definition.entry) }
{
    match definition {
        None => ProcessKind::Function,
        Some(Definition::Function(_)) => ProcessKind::Function,
        Some(Definition::Job(_)) => ProcessKind::Job,
        Some(Definition::Chain(_)) => ProcessKind::Chain,
    }
}

/// What kind of process runs the definition of a library with this name.
pub fn kind_named(library: &Checked, name: &Text) -> ProcessKind
    ensures { result ≡ kind_named (definition_named name.now library.now) }
{
    kind_of(find_definition(library.library(), name))
}

/// How a process of this kind is linked to its caller.
pub fn call_link(kind: ProcessKind) -> LinkType
    ensures { result ≡ call_link kind }
{
    match kind {
        ProcessKind::Function | ProcessKind::Job => LinkType::CallCalc,
        ProcessKind::Chain => LinkType::CallWork,
    }
}
