//! What a turn gets of the transport.

use wc_value::JobResult;

/// What came of the task of a job, or that nothing was asked.
#[derive(Drop)]
pub enum TaskAnswer {
    /// Nothing was asked.
    Nothing,
    /// The task failed.
    Failed,
    /// The program hasn't ended yet.
    Running,
    /// The task was done.
    Done,
    /// What was brought back.
    Result(JobResult),
}
