//! What the transport is asked for a process.

ghost use Rattle.std.specs.Prelude.{◌≡◌, ℕ, true, IfOk, IfErr};
ghost use Rattle.wc_io.specs.Counts.{RisesByOne};
ghost use Rattle.wc_state.specs.declared.record.Limits.{Limits as AnyLimits};
ghost use Rattle.wc_transport.specs.Outside.{retrieve_reply, task_reply, update_reply, error_reply};
ghost use Rattle.wc_machine.specs.Questions.{fits_task, performs};
ghost use Rattle.wc_runner.specs.Asked.{IsAsked};
ghost use Rattle.wc_runner.specs.declared.error.RunError.TheVariants.{OutOfMemory};
ghost use Rattle.wc_runner.specs.Outside.{IsAnswer, IsGiven, in_turn};

use crate::error::RunError;
use std::alloc::Global;
use wc_machine::TaskAnswer;
use wc_state::Task;
use wc_transport::{Progress, TaskError, Transport};
use wc_value::{JobResult, Request};

/// The answer that a failed call is; want of memory is none.
fn failed(error: TaskError) -> Result<TaskAnswer, RunError>
    ensures { IsAnswer (error_reply error) result }
{
    match error {
        TaskError::Failed => Ok(TaskAnswer::Failed),
        TaskError::OutOfMemory => Err(RunError::OutOfMemory),
    }
}

/// The answer of an upload, and of a submission.
fn done(reply: Result<(), TaskError>) -> Result<TaskAnswer, RunError>
    ensures { IsAnswer (task_reply reply) result }
{
    match reply {
        Ok(()) => Ok(TaskAnswer::Done),
        Err(error) => failed(error),
    }
}

/// The answer of an update.
fn progress(reply: Result<Progress, TaskError>) -> Result<TaskAnswer, RunError>
    ensures { IsAnswer (update_reply reply) result }
{
    match reply {
        Ok(Progress::Running) => Ok(TaskAnswer::Running),
        Ok(Progress::Done) => Ok(TaskAnswer::Done),
        Err(error) => failed(error),
    }
}

/// The answer of what was brought back.
fn brought(reply: Result<JobResult, TaskError>) -> Result<TaskAnswer, RunError>
    ensures { IsAnswer (retrieve_reply reply) result }
{
    match reply {
        Ok(result) => Ok(TaskAnswer::Result(result)),
        Err(error) => failed(error),
    }
}

/// Asks the transport once, to do this task with a request in the directory of this number.
pub(crate) fn ask<T: Transport>(
    alloc: Global,
    transport: &mut T,
    pid: u32,
    task: Task,
    request: &Request,
) -> Result<TaskAnswer, RunError>
    ensures given { IfOk result (λ a. (limits : AnyLimits) (now : ℕ) → IsGiven (in_turn T.Transport limits now transport.old transport.new) pid task request.now a) }
    ensures fits { IfOk result (λ a. fits_task task a ≡ true) }
    ensures memory { IfErr result (λ e. e ≡ OutOfMemory) }
    ensures asked { RisesByOne (T.asked transport.old) (T.asked transport.new) }
    ensures stays { IsAsked T.Transport pid (performs task request.now) transport.old transport.new }
{
    match task {
        Task::Upload => done(transport.upload(pid, request)),
        Task::Submit => done(transport.submit(pid, request)),
        Task::Update => progress(transport.update(pid, request)),
        Task::Retrieve => brought(transport.retrieve(alloc, pid, request)),
    }
}
