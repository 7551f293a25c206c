//! Why there is no plan.

use std::alloc::AllocError;
use thiserror::Error;

/// Why words have no plan.
#[derive(Debug, Drop, Error)]
pub enum PlanError {
    /// Memory ran out.
    #[error("out of memory")]
    OutOfMemory,
    /// The file can't be read.
    #[error("the file can't be read")]
    ReadFault,
}

impl From<AllocError> for PlanError {
    ghost use Rattle.std.specs.Prelude.{◌≡◌};
    ghost use Rattle.wc_plan.specs.declared.error.PlanError.TheVariants.{OutOfMemory};

    ghost from_gives = { λ _ e. e ≡ OutOfMemory };

    fn from(_error: AllocError) -> PlanError {
        PlanError::OutOfMemory
    }
}
