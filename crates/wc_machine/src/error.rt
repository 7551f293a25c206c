//! Why an event has no changes.

ghost use Rattle.std.specs.Prelude.{◌≡◌};
ghost use Rattle.wc_machine.specs.declared.error.TurnError.TheVariants.{OutOfMemory};

use std::alloc::{AllocError, AllocFailed};
use thiserror::Error;
use wc_state::What;
use wc_value::{ProcessState, Text};

/// Why an event has no changes.
#[derive(Debug, Drop, Error)]
pub enum TurnError {
    /// The process isn't ready.
    #[error("not ready")]
    NotReady,
    /// The world after the event would have so many of these, of at most so many.
    #[error("full: {0:?} {1} of {2}")]
    Full(What, u64, u64),
    /// No process has the number.
    #[error("unknown process")]
    UnknownProcess,
    /// The process has ended in this state.
    #[error("ended: {0:?}")]
    Ended(ProcessState),
    /// The library has no definition of the name.
    #[error("unknown name")]
    UnknownName,
    /// The least port with a bad input.
    #[error("bad input {0:?}")]
    BadInputs(Text),
    /// Memory ran out.
    #[error("out of memory")]
    OutOfMemory,
}

impl From<AllocError> for TurnError {
    ghost from_gives = { λ _ e. e ≡ OutOfMemory };

    fn from(_error: AllocError) -> TurnError {
        TurnError::OutOfMemory
    }
}

impl<T: Drop> From<AllocFailed<T>> for TurnError {
    ghost from_gives = { λ _ e. e ≡ OutOfMemory };

    fn from(_error: AllocFailed<T>) -> TurnError {
        TurnError::OutOfMemory
    }
}
