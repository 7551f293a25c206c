//! Whether one process is ready, or will be.

ghost use Rattle.std.specs.Prelude.{◌≡◌};
ghost use Rattle.wc_records.specs.Readiness.{is_past, goes_on, is_ready_past, due_of, waits_later};

use wc_state::{Part, ProcessRecord};
use wc_value::ProcessState;

/// Whether a waiting process goes on at a moment, where so many of those that it awaits have ended, from the first one on.
fn is_past(passed: usize, now: u64, part: &Part) -> bool
    ensures { result ≡ is_past passed now part.now }
{
    match part {
        Part::Chain(checkpoint) => passed == checkpoint.awaiting.len(),
        Part::Job(job) => job.due <= now,
        Part::Fresh | Part::Over => false,
    }
}

/// Whether a process in this state goes on at a moment.
fn goes_on(passed: usize, now: u64, state: ProcessState, part: &Part) -> bool
    ensures { result ≡ goes_on passed now state part.now }
{
    match state {
        ProcessState::Created | ProcessState::Running => true,
        ProcessState::Waiting => is_past(passed, now, part),
        ProcessState::Finished(_) | ProcessState::Excepted(_) | ProcessState::Killed => false,
    }
}

/// Whether a process is ready at a moment, where so many of those that it awaits have ended, from the first one on.
pub fn is_ready_past(passed: usize, now: u64, process: &ProcessRecord) -> bool
    ensures { result ≡ is_ready_past passed now process.now }
{
    !process.paused && goes_on(passed, now, process.state, &process.part)
}

/// The moment from which on a job is asked about, and 0 where nothing is waited for.
pub fn due_of(part: &Part) -> u64
    ensures { result ≡ due_of part.now }
{
    match part {
        Part::Job(job) => job.due,
        Part::Fresh | Part::Chain(_) | Part::Over => 0,
    }
}

/// Whether a job waits for a moment after the first one, and isn't paused.
pub fn waits_later(process: &ProcessRecord) -> bool
    ensures { result ≡ waits_later process.now }
{
    !process.paused && matches!(process.state, ProcessState::Waiting) && due_of(&process.part) > 0
}
