//! The turn of a work chain.

ghost use Rattle.std.specs.Prelude.{◌≡◌, ℕ, Some, IfOk, IfErr, OnOk};
ghost use Rattle.wc_state.specs.Ranges.{AreLimits};
ghost use Rattle.wc_state.specs.declared.record.ProcessKind.TheVariants.{Chain};
ghost use Rattle.wc_state.specs.declared.record.Part.TheVariants as part;
ghost use Rattle.wc_value.specs.declared.process.ProcessState.TheVariants.{Waiting};
ghost use Rattle.wc_world.specs.Applied.{applied};
ghost use Rattle.wc_world.specs.Records.{find_record};
ghost use Rattle.wc_machine.specs.declared.answer.TaskAnswer.TheVariants.{Nothing};
ghost use Rattle.wc_machine.specs.Turns.{StandsAt, TurnGives};
ghost use Rattle.wc_machine.specs.Refusals.{FullOf, HasRoom, NoneHolds};
ghost use Rattle.wc_chain_turns.specs.Turned.{Gives, HasChain, HasCheckpoint, IsReadyOnce};

use crate::environment::environment;
use crate::fuel::bound_fuel;
use std::alloc::Global;
use wc_changes::{
    advance, bind, caller_of, come_to, context_read, going, known_at, one_list_of_changes,
};
use wc_machine::TurnError;
use wc_state::{Checkpoint, Limits, Part, ProcessRecord};
use wc_value::{Duplicate, ProcessState};
use wc_world::{Changes, World, reached_worlds_are_consistent};

/// The checkpoint of a chain that has begun.
fn its_checkpoint(standing: &Part) -> &Checkpoint
    requires { HasCheckpoint standing.now }
    ensures { standing.now ≡ part.Chain result.now }
{
    match standing {
        Part::Chain(checkpoint) => checkpoint,
        Part::Fresh | Part::Job(_) | Part::Over => unreachable!(),
    }
}

/// The changes of a chain that evaluates one instruction from a checkpoint, which is handed over.
fn advance_from(
    alloc: Global,
    world: &World,
    limits: &Limits,
    process: &ProcessRecord,
    checkpoint: Checkpoint,
) -> Result<Changes, TurnError>
    requires limits { AreLimits limits.now }
    requires chain { HasChain world.now.world process.now }
    requires stands { StandsAt process.now.state process.now.part checkpoint }
    ensures gives { IfOk result (Gives world.now.world process.now) }
    ensures room { IfOk result (λ cs. HasRoom limits.now.max_nodes (applied world.now.world cs)) }
    ensures refused { IfErr result (FullOf (Gives world.now.world process.now) limits.now.max_nodes world.now.world) }
{
    let Some(known) = known_at(world, process.library) else {
        unreachable!()
    };
    let read = context_read(alloc, &known.0, &process.definition, &checkpoint)?;
    let env = environment(alloc, world, process.node, &read)?;
    let advanced = advance(
        alloc,
        &known.0,
        &process.definition,
        process.depth,
        checkpoint,
        env,
    )?;
    come_to(alloc, world, limits, caller_of(process, known), advanced)
}

/// The changes of a chain that binds the children that it awaited.
fn bind_from(
    alloc: Global,
    world: &World,
    limits: &Limits,
    process: &ProcessRecord,
    checkpoint: &Checkpoint,
) -> Result<Changes, TurnError>
    requires limits { AreLimits limits.now }
    requires chain { HasChain world.now.world process.now }
    requires waits { process.now.state ≡ Waiting }
    requires stands { process.now.part ≡ part.Chain checkpoint.now }
    ensures gives { IfOk result (Gives world.now.world process.now) }
    ensures room { IfOk result (λ cs. HasRoom limits.now.max_nodes (applied world.now.world cs)) }
    ensures refused { IfErr result (FullOf (Gives world.now.world process.now) limits.now.max_nodes world.now.world) }
{
    let fuel = bound_fuel(world, process.fuel, &checkpoint.awaiting);
    let part = Part::Chain(bind(alloc, checkpoint.copy()?)?);
    going(
        alloc,
        world,
        limits,
        process,
        ProcessState::Running,
        fuel,
        part,
    )
}

/// The changes of the turn of a ready work chain: it evaluates one instruction, or binds the children that it awaited.
pub fn chain_turn(
    alloc: Global,
    world: &World,
    limits: &Limits,
    process: &ProcessRecord,
) -> Result<Changes, TurnError>
    requires limits { AreLimits limits.now }
    requires found { find_record process.now.node world.now.world.records ≡ Some process.now }
    requires chain { process.now.kind ≡ Chain }
    requires ready { IsReadyOnce world.now.world process.now }
    // These are the changes at every moment and with every interval of polls.
    ensures gives { IfOk result (Gives world.now.world process.now) }
    ensures room { IfOk result (λ cs. HasRoom limits.now.max_nodes (applied world.now.world cs)) }
    ensures none { OnOk result ((poll now : ℕ) → NoneHolds (FullOf (TurnGives poll now world.now.world process.now Nothing) limits.now.max_nodes world.now.world)) }
    ensures refused { IfErr result (λ e. (poll now : ℕ) → FullOf (TurnGives poll now world.now.world process.now Nothing) limits.now.max_nodes world.now.world e) }
{
    reached_worlds_are_consistent();
    one_list_of_changes();
    let _graph = world.graph();
    match process.state {
        ProcessState::Created => {
            let first = Checkpoint::first(alloc)?;
            advance_from(alloc, world, limits, process, first)
        }
        ProcessState::Running => {
            let own = its_checkpoint(&process.part).copy()?;
            advance_from(alloc, world, limits, process, own)
        }
        ProcessState::Waiting => {
            bind_from(alloc, world, limits, process, its_checkpoint(&process.part))
        }
        ProcessState::Finished(_) | ProcessState::Excepted(_) | ProcessState::Killed => {
            unreachable!()
        }
    }
}
