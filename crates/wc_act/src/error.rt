//! Why there is no reply.

use std::alloc::AllocError;
use thiserror::Error;
use wc_plan::PlanError;

/// Why a deed has no reply.
#[derive(Debug, Drop, Error)]
pub enum ActError {
    /// Memory ran out.
    #[error("out of memory")]
    OutOfMemory,
    /// A disk failed.
    #[error("a disk failed")]
    DiskFault,
}

impl From<AllocError> for ActError {
    ghost use Rattle.std.specs.Prelude.{◌≡◌};
    ghost use Rattle.wc_act.specs.declared.error.ActError.TheVariants.{OutOfMemory};

    ghost from_gives = { λ _ e. e ≡ OutOfMemory };

    fn from(_error: AllocError) -> ActError {
        ActError::OutOfMemory
    }
}

/// Why words have no reply.
#[derive(Debug, Drop, Error)]
pub enum ReplyError {
    /// Memory ran out.
    #[error("out of memory")]
    OutOfMemory,
    /// The file can't be read.
    #[error("the file can't be read")]
    ReadFault,
    /// A disk of the store failed.
    #[error("a disk failed")]
    DiskFault,
}

impl From<PlanError> for ReplyError {
    ghost use Rattle.std.specs.Prelude.{◌≡◌};
    ghost use Rattle.wc_act.specs.Counts.{of_plan};

    ghost from_gives = { λ error e. e ≡ of_plan error };

    fn from(error: PlanError) -> ReplyError {
        match error {
            PlanError::OutOfMemory => ReplyError::OutOfMemory,
            PlanError::ReadFault => ReplyError::ReadFault,
        }
    }
}

impl From<ActError> for ReplyError {
    ghost use Rattle.std.specs.Prelude.{◌≡◌};
    ghost use Rattle.wc_act.specs.Counts.{of_act};

    ghost from_gives = { λ error e. e ≡ of_act error };

    fn from(error: ActError) -> ReplyError {
        match error {
            ActError::OutOfMemory => ReplyError::OutOfMemory,
            ActError::DiskFault => ReplyError::DiskFault,
        }
    }
}
