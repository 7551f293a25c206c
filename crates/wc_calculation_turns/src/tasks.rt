//! Where a job stands after an answer of the transport.

ghost use Rattle.std.specs.Prelude.{◌≡◌, ◌≤◌, ◌<◌, ◌*◌, ◌^◌, Some, false, IsTrue};
ghost use Rattle.wc_machine.specs.Tasks.{after as after_answer, failed};
ghost use Rattle.wc_machine.specs.Questions.{fits_task};
ghost use Rattle.wc_machine.specs.Machine.{renewed};
ghost use Rattle.wc_state.specs.declared.record.Part.TheVariants.{Job as AtJob};
ghost use Rattle.wc_calculation_turns.specs.Steps.{task_answer, moved};

use wc_state::{JobPart, Task};

/// The number of the failure in a row that pauses a job, less one.
const LAST: u8 = 4;

/// What the transport said of a task that brings back no result.
#[derive(Clone, Copy, PartialEq, Eq)]
pub enum Answer {
    /// The task failed.
    Failed,
    /// The program hasn't ended yet.
    Running,
    /// The task was done.
    Done,
}

/// Where a job stands after an answer, and whether it gets the pause mark.
#[derive(Clone, Copy, PartialEq, Eq)]
pub struct JobStep {
    /// The task that is asked next, with its failures and its due moment.
    pub part: JobPart,
    /// Whether the job is paused by this answer.
    pub paused: bool,
}

/// How long to wait after a failure, in milliseconds: 20 seconds, twice as long after each failure before it.
fn delay(fails: u8) -> u64
    requires { fails < 4 }
    ensures { result ≡ 20000 * 2 ^ fails }
{
    match fails {
        0 => 20_000,
        1 => 40_000,
        2 => 80_000,
        _ => 160_000,
    }
}

/// A task is asked next, from a moment on, with no failures behind it.
fn asked(task: Task, due: u64) -> JobStep
    ensures { result ≡ record { part = record { task = task; fails = 0; due = due }; paused = false } }
{
    JobStep {
        part: JobPart {
            task,
            fails: 0,
            due,
        },
        paused: false,
    }
}

/// What follows a failure: the fifth in a row pauses the job.
fn after_failure(part: JobPart, now: u64) -> JobStep
    requires { part.fails ≤ 4 }
    ensures { moved result ≡ failed part now }
{
    if part.fails == LAST {
        return JobStep {
            part: JobPart {
                fails: LAST + 1,
                ..part
            },
            paused: true,
        };
    }
    JobStep {
        part: JobPart {
            fails: part.fails + 1,
            due: now.saturating_add(delay(part.fails)),
            ..part
        },
        paused: false,
    }
}

/// What follows an answer at a moment, by an interval between two updates. It takes no memory.
pub fn after(part: JobPart, answer: Answer, now: u64, poll: u64) -> JobStep
    requires few { part.fails ≤ 4 }
    // Running answers an update alone, and a retrieve that is done brings a result in place of an answer.
    requires fits { IsTrue (fits_task part.task (task_answer answer)) }
    ensures { after_answer part (task_answer answer) now poll part.task ≡ Some (moved result) }
{
    match answer {
        Answer::Failed => after_failure(part, now),
        Answer::Running => asked(part.task, now.saturating_add(poll)),
        Answer::Done => match part.task {
            Task::Upload => asked(Task::Submit, 0),
            Task::Submit => asked(Task::Update, 0),
            Task::Update | Task::Retrieve => asked(Task::Retrieve, 0),
        },
    }
}

/// Where a job stands that plays again: its task starts anew, at once and with no failures behind it.
pub fn anew(part: JobPart) -> JobPart
    ensures { AtJob result ≡ renewed (AtJob part) }
{
    asked(part.task, 0).part
}
