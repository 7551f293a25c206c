//! The turn of a calculation.

ghost use Rattle.std.specs.Prelude.{◌≡◌, true, Some, IfOk, IfErr, OnOk};
ghost use Rattle.wc_state.specs.Ranges.{AreLimits};
ghost use Rattle.wc_world.specs.Applied.{applied};
ghost use Rattle.wc_world.specs.Records.{find_record, is_calculation};
ghost use Rattle.wc_machine.specs.Questions.{fits, need};
ghost use Rattle.wc_machine.specs.Readiness.{is_ready};
ghost use Rattle.wc_machine.specs.Turns.{TurnGives};
ghost use Rattle.wc_machine.specs.Refusals.{FullOf, HasRoom, NoneHolds};
ghost use Rattle.wc_calculation_turns.specs.Courses.{course_changes};

use crate::changes::course_changes;
use crate::courses::{Course, added_nodes};
use crate::start::started;
use crate::wait::{task_of, waited};
use std::alloc::{AllocError, Global};
use wc_machine::{TaskAnswer, TurnError, check_room};
use wc_state::{Limits, ProcessRecord};
use wc_world::{Changes, World, reached_worlds_are_consistent};

/// What the turn of a ready calculation comes to, at a moment, with an answer that fits what it asks.
fn course_of(
    alloc: Global,
    world: &World,
    process: &ProcessRecord,
    answer: TaskAnswer,
    now: u64,
    poll: u64,
) -> Result<Course, AllocError>
    requires found { find_record process.now.node world.now.world.records ≡ Some process.now }
    requires calculates { is_calculation process.now.kind ≡ true }
    requires ready { is_ready world.now.world now process.now ≡ true }
    requires fits { fits (need world.now.world process.now) answer ≡ true }
    ensures { IfOk result (λ course. TurnGives poll now world.now.world process.now answer (course_changes world.now.world process.now course)) }
{
    // A reached world is consistent, so that a calculation that is ready is created, or waits for a task.
    let _ = world.graph();
    reached_worlds_are_consistent();
    match task_of(&process.part) {
        Some(part) => waited(alloc, world, process, part, answer, now, poll),
        None => started(alloc, world, process),
    }
}

/// The changes of a turn of a ready calculation, at a moment, with an answer that fits what it asks.
pub fn calculation_turn(
    alloc: Global,
    world: &World,
    limits: &Limits,
    process: &ProcessRecord,
    answer: TaskAnswer,
    now: u64,
) -> Result<Changes, TurnError>
    requires limits { AreLimits limits.now }
    requires found { find_record process.now.node world.now.world.records ≡ Some process.now }
    requires calculates { is_calculation process.now.kind ≡ true }
    requires ready { is_ready world.now.world now process.now ≡ true }
    requires fits { fits (need world.now.world process.now) answer ≡ true }
    ensures gives { IfOk result (TurnGives limits.now.poll_ms now world.now.world process.now answer) }
    ensures room { IfOk result (λ cs. HasRoom limits.now.max_nodes (applied world.now.world cs)) }
    ensures none { OnOk result (NoneHolds (FullOf (TurnGives limits.now.poll_ms now world.now.world process.now answer) limits.now.max_nodes world.now.world)) }
    ensures refused { IfErr result (FullOf (TurnGives limits.now.poll_ms now world.now.world process.now answer) limits.now.max_nodes world.now.world) }
{
    // A reached world is consistent, so that the turn has one list of changes.
    let _ = world.graph();
    reached_worlds_are_consistent();
    let course = course_of(alloc, world, process, answer, now, limits.poll_ms)?;
    match check_room(world, limits, added_nodes(&course) as u64) {
        Ok(()) => Ok(course_changes(alloc, world, process, &course)?),
        Err(error) => Err(error),
    }
}
