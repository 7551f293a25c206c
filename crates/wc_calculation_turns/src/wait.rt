//! What the turn of a waiting job comes to.

ghost use Rattle.std.specs.Prelude.{◌≡◌, ◌≤◌, true, IfOk};
ghost use Rattle.wc_machine.specs.Questions.{fits, fits_task, need};
ghost use Rattle.wc_machine.specs.Turns.{TurnGives};
ghost use Rattle.wc_calculation_turns.specs.Courses.{course_changes, LeadsOn};
ghost use Rattle.wc_calculation_turns.specs.Waits.{MayGoOn, task_of};

use crate::courses::{Course, End, excepts};
use crate::tasks::{Answer, after};
use std::alloc::{AllocError, Global};
use wc_cache::{definition_of, recorded_inputs};
use wc_expression::Outcome;
use wc_machine::TaskAnswer;
use wc_semantics::{parse_result, request_of};
use wc_state::{JobPart, Part, ProcessRecord};
use wc_syntax::{Definition, Job};
use wc_value::Fields;
use wc_world::{World, reached_worlds_are_consistent};

/// The task of a job that waits.
pub(crate) fn task_of(part: &Part) -> Option<JobPart>
    ensures { result ≡ task_of part.now }
{
    match part {
        Part::Job(task) => Some(*task),
        Part::Fresh | Part::Chain(_) | Part::Over => None,
    }
}

/// Where an answer leads a job that has a request: a result is parsed and ends it, and any other moves it.
fn led(
    alloc: Global,
    job: &Job,
    inputs: &Fields,
    part: JobPart,
    answer: TaskAnswer,
    now: u64,
    poll: u64,
) -> Result<Course, AllocError>
    requires few { part.fails ≤ 4 }
    requires fits { fits_task part.task answer ≡ true }
    ensures { IfOk result (LeadsOn job.now inputs.now part now poll answer) }
{
    match answer {
        TaskAnswer::Nothing => unreachable!(),
        TaskAnswer::Failed => Ok(Course::Waits(after(part, Answer::Failed, now, poll))),
        TaskAnswer::Running => Ok(Course::Waits(after(part, Answer::Running, now, poll))),
        TaskAnswer::Done => Ok(Course::Waits(after(part, Answer::Done, now, poll))),
        TaskAnswer::Result(given) => Ok(Course::Ends(End {
            parsed: parse_result(alloc, job, inputs, &given)?,
            source: None,
            code: Some(given.code),
        })),
    }
}

/// What the turn of a waiting job comes to, at a moment, with an answer that fits what it asks.
pub(crate) fn waited(
    alloc: Global,
    world: &World,
    process: &ProcessRecord,
    part: JobPart,
    answer: TaskAnswer,
    now: u64,
    poll: u64,
) -> Result<Course, AllocError>
    requires waits { MayGoOn world.now.world process.now part }
    requires fits { fits (need world.now.world process.now) answer ≡ true }
    ensures { IfOk result (λ course. TurnGives poll now world.now.world process.now answer (course_changes world.now.world process.now course)) }
{
    // A reached world is consistent, so that what waits for a task runs a job.
    let _ = world.graph();
    reached_worlds_are_consistent();
    let inputs = recorded_inputs(alloc, world, process.node)?;
    match definition_of(world, process) {
        Some(Definition::Job(job)) => match request_of(alloc, job, &inputs)? {
            Outcome::Gives(_) => led(alloc, job, &inputs, part, answer, now, poll),
            Outcome::Faults(reason) => Ok(excepts(alloc, reason)),
        },
        Some(Definition::Function(_)) => unreachable!(),
        Some(Definition::Chain(_)) => unreachable!(),
        None => unreachable!(),
    }
}
