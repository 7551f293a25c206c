//! Why a walk has no answer.

ghost use Rattle.std.specs.Prelude.{◌≡◌};
ghost use Rattle.wc_graph.specs.declared.walk_error.WalkError.TheVariants.{OutOfMemory};

use crate::reach::Ids;
use std::alloc::{AllocError, AllocFailed};
use thiserror::Error;

/// Why a walk has no answer.
#[derive(Debug, Drop, Error)]
pub enum WalkError {
    /// No node has this number.
    #[error("no node {0}")]
    NoNode(u32),
    /// There is no order. These are the nodes of a closed walk, which begins with the least node on any.
    #[error("a cycle of data provenance")]
    Cycle(Ids),
    /// Memory ran out.
    #[error("out of memory")]
    OutOfMemory,
}

impl From<AllocError> for WalkError {
    ghost from_gives = { λ _ e. e ≡ OutOfMemory };

    fn from(_error: AllocError) -> WalkError {
        WalkError::OutOfMemory
    }
}

impl<T: Drop> From<AllocFailed<T>> for WalkError {
    ghost from_gives = { λ _ e. e ≡ OutOfMemory };

    fn from(_error: AllocFailed<T>) -> WalkError {
        WalkError::OutOfMemory
    }
}
