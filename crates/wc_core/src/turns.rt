//! What the turn of a process does.

ghost use Rattle.std.specs.Prelude.{◌≡◌, true, Some, IfOk, IfErr, OnOk};
ghost use Rattle.wc_state.specs.Ranges.{AreLimits};
ghost use Rattle.wc_world.specs.Accepted.{IsAccepted};
ghost use Rattle.wc_world.specs.Applied.{applied};
ghost use Rattle.wc_world.specs.Records.{find_record};
ghost use Rattle.wc_machine.specs.Questions.{fits, need};
ghost use Rattle.wc_machine.specs.Continues.{Continues};
ghost use Rattle.wc_machine.specs.Machine.{turn};
ghost use Rattle.wc_machine.specs.Readiness.{is_ready};
ghost use Rattle.wc_machine.specs.Sound.{IsSound, OutputsAscend};
ghost use Rattle.wc_machine.specs.Turns.{TurnGives};
ghost use Rattle.wc_soundness.specs.ListLaws.{AreItsChanges};
ghost use Rattle.wc_machine.specs.Refusals.{FullOf, HasRoom, NoneHolds};
ghost use Rattle.wc_core.specs.Asks.{FitsAt};
ghost use Rattle.wc_core.specs.Refusals.{RefusesTurn};

use crate::readiness::is_ready;
use std::alloc::Global;
use wc_calculation_turns::calculation_turn;
use wc_chain_turns::chain_turn;
use wc_machine::{TaskAnswer, TurnError};
use wc_state::{Limits, Part, ProcessKind, ProcessRecord};
use wc_world::{Changes, World, reached_worlds_are_consistent};

/// The outputs of a checkpoint ascend by their labels: its type tells it.
fn outputs_ascend(part: &Part)
    ensures { OutputsAscend part.now }
{
    match part {
        Part::Chain(checkpoint) => {
            let _outputs = checkpoint.outputs.as_slice();
        }
        Part::Fresh | Part::Job(_) | Part::Over => (),
    }
}

/// The changes of a turn of a ready process, by its kind.
fn turn_by_kind(
    alloc: Global,
    world: &World,
    limits: &Limits,
    process: &ProcessRecord,
    answer: TaskAnswer,
    now: u64,
) -> Result<Changes, TurnError>
    requires limits { AreLimits limits.now }
    requires found { find_record process.now.node world.now.world.records ≡ Some process.now }
    requires ready { is_ready world.now.world now process.now ≡ true }
    requires fits { fits (need world.now.world process.now) answer ≡ true }
    ensures gives { IfOk result (TurnGives limits.now.poll_ms now world.now.world process.now answer) }
    ensures room { IfOk result (λ cs. HasRoom limits.now.max_nodes (applied world.now.world cs)) }
    ensures refused { IfErr result (FullOf (TurnGives limits.now.poll_ms now world.now.world process.now answer) limits.now.max_nodes world.now.world) }
{
    reached_worlds_are_consistent();
    // What accepted changes make is told by the graph.
    let _graph = world.graph();
    match process.kind {
        ProcessKind::Function | ProcessKind::Job => {
            calculation_turn(alloc, world, limits, process, answer, now)
        }
        ProcessKind::Chain => chain_turn(alloc, world, limits, process),
    }
}

/// The changes of a turn of a process at a moment, with what the transport answered to what the process asks.
pub fn turn(
    alloc: Global,
    world: &World,
    limits: &Limits,
    pid: u32,
    answer: TaskAnswer,
    now: u64,
) -> Result<Changes, TurnError>
    requires limits { AreLimits limits.now }
    requires fits { FitsAt world.now.world pid answer }
    ensures changes { IfOk result (AreItsChanges limits.now.poll_ms world.now.world (turn pid answer now)) }
    ensures accepted { IfOk result (IsAccepted world.now.world) }
    ensures continues { IfOk result (λ cs. IsSound world.now.world → Continues world.now.world (applied world.now.world cs)) }
    ensures sound { IfOk result (λ cs. IsSound world.now.world → IsSound (applied world.now.world cs)) }
    ensures room { IfOk result (λ cs. HasRoom limits.now.max_nodes (applied world.now.world cs)) }
    ensures none { OnOk result (NoneHolds (RefusesTurn limits.now.poll_ms world.now.world pid answer now limits.now.max_nodes)) }
    ensures refused { IfErr result (RefusesTurn limits.now.poll_ms world.now.world pid answer now limits.now.max_nodes) }
{
    reached_worlds_are_consistent();
    // What accepted changes make is told by the graph.
    let _graph = world.graph();
    let Some(process) = world.record_of(pid) else {
        return Err(TurnError::NotReady);
    };
    if !is_ready(world, pid, now) {
        return Err(TurnError::NotReady);
    }
    outputs_ascend(&process.part);
    turn_by_kind(alloc, world, limits, process, answer, now)
}
