//! Why a task of a job was not done.

use std::alloc::{AllocError, AllocFailed};
use thiserror::Error;
use wc_io::Failed;

/// Why a task of a job was not done.
#[derive(Debug, Drop, Error)]
pub enum TaskError {
    /// The task failed, and may be tried again.
    #[error("the task failed")]
    Failed,
    /// Memory ran out.
    #[error("out of memory")]
    OutOfMemory,
}

impl From<AllocError> for TaskError {
    ghost use Rattle.std.specs.Prelude.{◌≡◌};
    ghost use Rattle.wc_transport.specs.declared.error.TaskError.TheVariants.{OutOfMemory};

    ghost from_gives = { λ _ e. e ≡ OutOfMemory };

    fn from(_error: AllocError) -> TaskError {
        TaskError::OutOfMemory
    }
}

impl<T: Drop> From<AllocFailed<T>> for TaskError {
    ghost use Rattle.std.specs.Prelude.{◌≡◌};
    ghost use Rattle.wc_transport.specs.declared.error.TaskError.TheVariants.{OutOfMemory};

    ghost from_gives = { λ _ e. e ≡ OutOfMemory };

    fn from(_error: AllocFailed<T>) -> TaskError {
        TaskError::OutOfMemory
    }
}

impl From<Failed> for TaskError {
    ghost use Rattle.std.specs.Prelude.{◌≡◌};
    ghost use Rattle.wc_transport.specs.declared.error.TaskError.TheVariants.{Failed as TaskFailed};

    ghost from_gives = { λ _ e. e ≡ TaskFailed };

    fn from(_error: Failed) -> TaskError {
        TaskError::Failed
    }
}
