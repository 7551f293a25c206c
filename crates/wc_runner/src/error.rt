//! Why a run broke off.

ghost use Rattle.std.specs.Prelude.{◌≡◌};
ghost use Rattle.wc_runner.specs.declared.error.RunError.TheVariants.{OutOfMemory};

use std::alloc::AllocError;
use thiserror::Error;
use wc_state::What;

/// Why a turn or a run broke off.
#[derive(Debug, Drop, Error)]
pub enum RunError {
    /// A disk failed.
    #[error("a disk failed")]
    DiskFault,
    /// The world after the next turn would have so many of these, of at most so many.
    #[error("full: {0:?} {1} of {2}")]
    Full(What, u64, u64),
    /// Memory ran out.
    #[error("out of memory")]
    OutOfMemory,
}

impl From<AllocError> for RunError {
    ghost from_gives = { λ _ e. e ≡ OutOfMemory };

    fn from(_error: AllocError) -> RunError {
        RunError::OutOfMemory
    }
}
