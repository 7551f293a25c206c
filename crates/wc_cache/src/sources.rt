//! Which processes are valid sources.

ghost use Rattle.std.specs.Prelude.{◌≡◌, ◌+◌, ◌↔◌, IsTrue};
ghost use Rattle.std.specs.Option.{option_copied};
ghost use Rattle.wc_machine.specs.Recorded.{its_definition};
ghost use Rattle.wc_machine.specs.Sources.{IsValidSource, marks};
ghost use Rattle.wc_cache.specs.Sources.{is_unmarked, is_unmarked_by};

use wc_fits::is_calculation;
use wc_state::ProcessRecord;
use wc_syntax::{Definition, head};
use wc_trees::definition_of;
use wc_value::ProcessState;
use wc_world::World;

/// Whether a definition marks a status as one that no other process takes over.
fn marks(definition: &Definition, status: u32) -> bool
    ensures { result ≡ marks definition.now status }
{
    for code in head(definition).codes.as_slice() {
        if code.invalidates && code.status.value == status as i64 {
            return true;
        }
    }
    false
}

/// Whether a definition is there and doesn't mark a status.
fn is_unmarked_by(definition: Option<&Definition>, status: u32) -> bool
    ensures { result ≡ is_unmarked_by (option_copied definition.entry) status }
{
    match definition {
        Some(definition) => !marks(definition, status),
        None => false,
    }
}

/// Whether a process has finished with a status that its definition doesn't mark.
fn is_unmarked(world: &World, process: &ProcessRecord) -> bool
    ensures { result ≡ is_unmarked process.now.state (its_definition world.now.world process.now) }
{
    match process.state {
        ProcessState::Finished(status) => is_unmarked_by(definition_of(world, process), status),
        _ => false,
    }
}

/// Whether a process is a valid source for a start in the next batch.
pub(crate) fn is_valid(world: &World, process: &ProcessRecord) -> bool
    ensures { IsTrue result ↔ IsValidSource world.now.world (world.now.world.batches + 1) process.now }
{
    if process.ended == 0 || process.ended > world.batches() {
        return false;
    }
    is_calculation(process.kind) && is_unmarked(world, process)
}
