//! What an advance comes to, where there is room for it.

ghost use Rattle.std.specs.Prelude.{◌≡◌, ◌∷◌, [], ◌+◌, ◌≤◌, length, IfOk, IfErr};
ghost use Rattle.wc_state.specs.Ranges.{AreLimits};
ghost use Rattle.wc_world.specs.Applied.{applied};
ghost use Rattle.wc_machine.specs.Refusals.{FullOf, HasRoom};
ghost use Rattle.wc_changes.specs.Advances.{is_now, submission, ending, comes_to, CallsFew, lacks};
ghost use Rattle.wc_syntax.specs.Findings.{definition_named};

use crate::calls::submission;
use crate::children::Caller;
use crate::count::count_added;
use crate::end::ending;
use crate::progress::is_now;
use crate::room::check_calls;
use std::alloc::{AllocError, Global};
use wc_machine::{TurnError, check_room};
use wc_outline::{Advanced, Calls};
use wc_state::{Checkpoint, Limits, Outs, Part, ProcessRecord};
use wc_value::ProcessState;
use wc_world::{Change, Changes, World};

/// One change alone.
fn alone(alloc: Global, change: Change) -> Result<Changes, AllocError>
    ensures { IfOk result (λ cs. cs ≡ change ∷ []) }
{
    let mut changes = Changes::new(alloc);
    changes.push(change)?;
    Ok(changes)
}

/// The changes of a chain that adds nothing, and is in this state from now on, with this fuel, and stands here.
pub fn going(
    alloc: Global,
    world: &World,
    limits: &Limits,
    process: &ProcessRecord,
    state: ProcessState,
    fuel: u64,
    part: Part,
) -> Result<Changes, TurnError>
    ensures gives { IfOk result (λ cs. cs ≡ is_now process.now state fuel part ∷ []) }
    ensures room { IfOk result (λ cs. HasRoom limits.now.max_nodes (applied world.now.world cs)) }
    ensures refused { IfErr result (FullOf (λ cs. cs ≡ is_now process.now state fuel part ∷ []) limits.now.max_nodes world.now.world) }
{
    match check_room(world, limits, 0) {
        Ok(()) => Ok(alone(alloc, is_now(process, state, fuel, part))?),
        Err(error) => Err(error),
    }
}

/// The changes of a chain that makes these calls.
fn calling(
    alloc: Global,
    world: &World,
    limits: &Limits,
    caller: Caller<'_>,
    checkpoint: Checkpoint,
    calls: &Calls,
) -> Result<Changes, TurnError>
    requires limits { AreLimits limits.now }
    requires depth { caller.process.now.depth ≤ 16 }
    requires earlier { checkpoint.calls ≤ 8000001 }
    ensures gives { IfOk result (λ cs. cs ≡ submission caller.entry (length world.now.world.nodes + 1) checkpoint calls.now) }
    ensures room { IfOk result (λ cs. HasRoom limits.now.max_nodes (applied world.now.world cs)) }
    ensures refused { IfErr result (FullOf (λ cs. cs ≡ submission caller.entry (length world.now.world.nodes + 1) checkpoint calls.now) limits.now.max_nodes world.now.world) }
{
    match check_calls(world, limits, count_added(calls)) {
        Ok(()) => {
            let first = world.graph().nodes().len() as u32 + 1;
            Ok(submission(alloc, caller, first, checkpoint, calls)?)
        }
        Err(error) => Err(error),
    }
}

/// The changes of a chain that ends.
fn over(
    alloc: Global,
    world: &World,
    limits: &Limits,
    caller: Caller<'_>,
    state: ProcessState,
    outputs: &Outs,
) -> Result<Changes, TurnError>
    ensures gives { IfOk result (λ cs. cs ≡ ending caller.entry.process.now (lacks outputs.now (definition_named caller.entry.process.now.definition caller.entry.library.now)) state outputs.now) }
    ensures room { IfOk result (λ cs. HasRoom limits.now.max_nodes (applied world.now.world cs)) }
    ensures refused { IfErr result (FullOf (λ cs. cs ≡ ending caller.entry.process.now (lacks outputs.now (definition_named caller.entry.process.now.definition caller.entry.library.now)) state outputs.now) limits.now.max_nodes world.now.world) }
{
    match check_room(world, limits, 0) {
        Ok(()) => Ok(ending(alloc, caller, state, outputs)?),
        Err(error) => Err(error),
    }
}

/// The changes of what an advance answered.
pub fn come_to(
    alloc: Global,
    world: &World,
    limits: &Limits,
    caller: Caller<'_>,
    advanced: Advanced,
) -> Result<Changes, TurnError>
    requires limits { AreLimits limits.now }
    requires depth { caller.process.now.depth ≤ 16 }
    requires earlier { CallsFew advanced }
    ensures gives { IfOk result (λ cs. cs ≡ comes_to caller.entry (length world.now.world.nodes + 1) advanced) }
    ensures room { IfOk result (λ cs. HasRoom limits.now.max_nodes (applied world.now.world cs)) }
    ensures refused { IfErr result (FullOf (λ cs. cs ≡ comes_to caller.entry (length world.now.world.nodes + 1) advanced) limits.now.max_nodes world.now.world) }
{
    let process = caller.process;
    match advanced {
        Advanced::Goes(next) => {
            let part = Part::Chain(next);
            going(
                alloc,
                world,
                limits,
                process,
                ProcessState::Running,
                process.fuel,
                part,
            )
        }
        Advanced::Loops(next) => {
            let fuel = process.fuel.saturating_add(1);
            let part = Part::Chain(next);
            going(
                alloc,
                world,
                limits,
                process,
                ProcessState::Running,
                fuel,
                part,
            )
        }
        Advanced::Submits(next, calls) => calling(alloc, world, limits, caller, next, &calls),
        Advanced::Ends(state, outputs) => over(alloc, world, limits, caller, state, &outputs),
    }
}
