//! Why a drill has no end.

ghost use Rattle.std.specs.Prelude.{◌≡◌};
ghost use Rattle.wc_drill.specs.declared.error.DrillError.TheVariants.{OutOfMemory};
ghost use Rattle.wc_drill.specs.Refusals.{of_run};

use std::alloc::AllocError;
use thiserror::Error;
use wc_ends::RunError;
use wc_journal::Found;
use wc_state::What;

/// Why a drill was not made, or didn't come to its end.
#[derive(Debug, Drop, Error)]
pub enum DrillError {
    /// A disk failed.
    #[error("a disk failed")]
    DiskFault,
    /// The image of this disk, 1 or 2, is no store from this offset on, where this was found.
    #[error("disk {0} is damaged at {1}")]
    Damaged(u8, u64, Found),
    /// The world after the next submission or turn would have so many of these, of at most so many.
    #[error("full: {0:?} {1} of {2}")]
    Full(What, u64, u64),
    /// A store is there already.
    #[error("a store is there")]
    AlreadyThere,
    /// Memory ran out.
    #[error("out of memory")]
    OutOfMemory,
}

impl From<AllocError> for DrillError {
    ghost from_gives = { λ _ e. e ≡ OutOfMemory };

    fn from(_error: AllocError) -> DrillError {
        DrillError::OutOfMemory
    }
}

impl From<RunError> for DrillError {
    ghost from_gives = { λ error e. e ≡ of_run error };

    fn from(error: RunError) -> DrillError {
        match error {
            RunError::DiskFault => DrillError::DiskFault,
            RunError::Full(what, count, limit) => DrillError::Full(what, count, limit),
            RunError::OutOfMemory => DrillError::OutOfMemory,
        }
    }
}
