//! Why a world doesn't take a change, or has no answer.

ghost use Rattle.std.specs.Prelude.{◌≡◌};
ghost use Rattle.wc_world.specs.declared.error.WorldError.TheVariants.{OutOfMemory};

use std::alloc::{AllocError, AllocFailed};
use thiserror::Error;
use wc_graph::GraphError;

/// Why a world doesn't take a change, or has no answer.
#[derive(Debug, Drop, PartialEq, Eq, Error)]
pub enum WorldError {
    /// The graph doesn't take it. The graph's error is never want of memory.
    #[error("{0}")]
    Graph(GraphError),
    /// No process has this number.
    #[error("no process {0}")]
    NoProcess(u32),
    /// What is made or set there doesn't fit, or what is left of a process after the last change. The number is that of the
    /// process or node, or of a link's target, or 0 for a library, a count or a batch too many.
    #[error("bad record {0}")]
    BadRecord(u32),
    /// Memory ran out.
    #[error("out of memory")]
    OutOfMemory,
}

impl From<AllocError> for WorldError {
    ghost from_gives = { λ _ e. e ≡ OutOfMemory };

    fn from(_error: AllocError) -> WorldError {
        WorldError::OutOfMemory
    }
}

impl<T: Drop> From<AllocFailed<T>> for WorldError {
    ghost from_gives = { λ _ e. e ≡ OutOfMemory };

    fn from(_error: AllocFailed<T>) -> WorldError {
        WorldError::OutOfMemory
    }
}
