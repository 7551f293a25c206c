//! What the first turn of a calculation comes to.

ghost use Rattle.std.specs.Prelude.{◌≡◌, ℕ, Some, None, IfOk, IsSome};
ghost use Rattle.wc_semantics.specs.Requests.{request};
ghost use Rattle.wc_state.specs.declared.record.ProcessRecord.{ProcessRecord};
ghost use Rattle.wc_world.specs.Records.{find_record};
ghost use Rattle.wc_cache.specs.CalculationLaws.{MayStart};
ghost use Rattle.wc_machine.specs.declared.answer.TaskAnswer.TheVariants.{Nothing};
ghost use Rattle.wc_machine.specs.Ends.{TakesSource};
ghost use Rattle.wc_machine.specs.Turns.{TurnGives};
ghost use Rattle.wc_calculation_turns.specs.Courses.{begun, cloned, course_changes};

use crate::courses::{Course, End, excepts, own_end};
use crate::tasks::JobStep;
use std::alloc::{AllocError, Global};
use wc_cache::{definition_of, recorded_inputs, source_of, tree_of};
use wc_expression::Outcome;
use wc_semantics::{Parsed, calculate, request_of};
use wc_state::{JobPart, ProcessRecord, Task};
use wc_syntax::{Definition, Job};
use wc_value::{Fields, Tree};
use wc_world::{World, WorldError, reached_worlds_are_consistent};

/// A job that waits for its first task.
const FIRST: JobStep = JobStep {
    part: JobPart {
        task: Task::Upload,
        fails: 0,
        due: 0,
    },
    paused: false,
};

/// What a job that starts comes to: it waits for its first task, or ends with the reason that its request is.
fn begun(alloc: Global, job: &Job, inputs: &Fields) -> Result<Course, AllocError>
    ensures { IfOk result (λ course. course ≡ begun (request job.now inputs.now)) }
{
    match request_of(alloc, job, inputs)? {
        Outcome::Gives(_) => Ok(Course::Waits(FIRST)),
        Outcome::Faults(reason) => Ok(excepts(alloc, reason)),
    }
}

/// What a calculation that finds no source comes to.
fn evaluated(alloc: Global, world: &World, process: &ProcessRecord) -> Result<Course, AllocError>
    requires starts { MayStart world.now.world process.now }
    requires source { TakesSource world.now.world process.now None }
    ensures { IfOk result (λ course. (poll now : ℕ) → TurnGives poll now world.now.world process.now Nothing (course_changes world.now.world process.now course)) }
{
    // A reached world is consistent, so that a calculation runs a function or a job.
    let _ = world.graph();
    reached_worlds_are_consistent();
    let inputs = recorded_inputs(alloc, world, process.node)?;
    match definition_of(world, process) {
        Some(Definition::Function(function)) => Ok(own_end(calculate(alloc, function, &inputs)?)),
        Some(Definition::Job(job)) => begun(alloc, job, &inputs),
        Some(Definition::Chain(_)) => unreachable!(),
        None => unreachable!(),
    }
}

/// What a calculation comes to that takes the outcome of another: clones of its outputs.
fn cloned(alloc: Global, world: &World, source: u32) -> Result<Course, AllocError>
    requires { IsSome (find_record source world.now.world.records) }
    ensures { IfOk result (λ course. (q : ProcessRecord) → find_record source world.now.world.records ≡ Some q → course ≡ cloned world.now.world q source) }
{
    match tree_of(alloc, world, source) {
        Ok(Tree { state, outputs, .. }) => Ok(Course::Ends(End {
            parsed: Parsed { state, outputs },
            source: Some(source),
            code: None,
        })),
        Err(WorldError::OutOfMemory) => Err(AllocError),
        Err(_) => unreachable!(),
    }
}

/// What the first turn of a calculation comes to. It takes the outcome of an equal one where caching finds one; else a
/// function is evaluated, and a job begins.
pub(crate) fn started(
    alloc: Global,
    world: &World,
    process: &ProcessRecord,
) -> Result<Course, AllocError>
    requires { MayStart world.now.world process.now }
    ensures { IfOk result (λ course. (poll now : ℕ) → TurnGives poll now world.now.world process.now Nothing (course_changes world.now.world process.now course)) }
{
    match source_of(alloc, world, process.node)? {
        Some(source) => cloned(alloc, world, source),
        None => evaluated(alloc, world, process),
    }
}
