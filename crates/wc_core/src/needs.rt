//! What a process asks of the transport next.

ghost use Rattle.std.specs.Prelude.{◌≡◌, Some, IfOk, IfErr, IsSome, OnOk};
ghost use Rattle.wc_world.specs.Records.{find_record};
ghost use Rattle.wc_machine.specs.Questions.{with_request};
ghost use Rattle.wc_machine.specs.Recorded.{recorded_request};
ghost use Rattle.wc_machine.specs.Refusals.{NoneHolds};
ghost use Rattle.wc_core.specs.Asks.{asks_of, asks_task, task_at, IsNeedAt};
ghost use Rattle.wc_core.specs.Refusals.{RefusesNeed};

use std::alloc::{AllocError, Global};
use wc_calculation_turns::{definition_of, recorded_inputs};
use wc_expression::Outcome;
use wc_machine::TurnError;
use wc_semantics::request_of;
use wc_state::{Part, ProcessRecord, Task};
use wc_syntax::Definition;
use wc_value::{ProcessState, Request};
use wc_world::{World, reached_worlds_are_consistent};

/// What a process asks next.
#[derive(Drop)]
pub enum Asks {
    /// Nothing.
    Nothing,
    /// The request is to be placed.
    Upload(Request),
    /// The program is to be started.
    Submit(Request),
    /// Whether the program has ended is to be told.
    Update(Request),
    /// The result is to be brought back.
    Retrieve(Request),
}

/// What is asked for a task with this request.
fn asks_task(task: Task, request: Request) -> Asks
    ensures { result ≡ asks_task task request }
{
    match task {
        Task::Upload => Asks::Upload(request),
        Task::Submit => Asks::Submit(request),
        Task::Update => Asks::Update(request),
        Task::Retrieve => Asks::Retrieve(request),
    }
}

/// The task that a process is at, if it is a job that waits.
fn task_at(state: ProcessState, part: &Part) -> Option<Task>
    ensures { result ≡ task_at state part.now }
{
    match part {
        Part::Job(job) => match state {
            ProcessState::Waiting => Some(job.task),
            _ => None,
        },
        Part::Fresh | Part::Chain(_) | Part::Over => None,
    }
}

/// What a job asks at a task: nothing where its request is a reason.
fn asks_with(
    alloc: Global,
    world: &World,
    process: &ProcessRecord,
    task: Task,
) -> Result<Asks, AllocError>
    requires there { IsSome (find_record process.now.node world.now.world.records) }
    requires asked { IsSome (recorded_request world.now.world process.now) }
    ensures { IfOk result (λ asks. asks ≡ asks_of (with_request task (recorded_request world.now.world process.now))) }
{
    let inputs = recorded_inputs(alloc, world, process.node)?;
    match definition_of(world, process) {
        Some(Definition::Job(job)) => match request_of(alloc, job, &inputs)? {
            Outcome::Gives(request) => Ok(asks_task(task, request)),
            Outcome::Faults(_) => Ok(Asks::Nothing),
        },
        Some(Definition::Function(_)) => unreachable!(),
        Some(Definition::Chain(_)) => unreachable!(),
        None => unreachable!(),
    }
}

/// What a process asks next: a waiting job its task, with its request, whatever its mark and its due moment.
pub fn need(alloc: Global, world: &World, pid: u32) -> Result<Asks, TurnError>
    ensures ok { IfOk result (IsNeedAt world.now.world pid) }
    ensures none { OnOk result (NoneHolds (RefusesNeed world.now.world pid)) }
    ensures refused { IfErr result (RefusesNeed world.now.world pid) }
{
    reached_worlds_are_consistent();
    // What accepted changes make is told by the graph.
    let _graph = world.graph();
    let Some(process) = world.record_of(pid) else {
        return Err(TurnError::UnknownProcess);
    };
    match task_at(process.state, &process.part) {
        None => Ok(Asks::Nothing),
        Some(task) => Ok(asks_with(alloc, world, process, task)?),
    }
}
