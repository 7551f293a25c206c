//! What a store refuses.
ghost use Rattle.std.specs.Prelude.{◌≡◌};
ghost use Rattle.wc_store.specs.declared.error.StoreError.TheVariants.{OutOfMemory};

use std::alloc::{AllocError, AllocFailed};
use thiserror::Error;
use wc_journal::Found;
use wc_state::What;

/// Why a store was not made, read or changed.
#[derive(Debug, Drop, Error)]
pub enum StoreError {
    /// A disk failed.
    #[error("a disk failed")]
    DiskFault,
    /// The image of this disk, 1 or 2, is no store from this offset on, where this was found.
    #[error("disk {0} is damaged at {1}")]
    Damaged(u8, u64, Found),
    /// There would be so many, which is more than the limit.
    #[error("full: {1} of {2}")]
    Full(What, u64, u64),
    /// A store is there already.
    #[error("a store is there")]
    AlreadyThere,
    /// Memory ran out.
    #[error("out of memory")]
    OutOfMemory,
}

impl From<AllocError> for StoreError {
    ghost from_gives = { λ _ e. e ≡ OutOfMemory };

    fn from(_error: AllocError) -> StoreError {
        StoreError::OutOfMemory
    }
}

impl<T: Drop> From<AllocFailed<T>> for StoreError {
    ghost from_gives = { λ _ e. e ≡ OutOfMemory };

    fn from(_error: AllocFailed<T>) -> StoreError {
        StoreError::OutOfMemory
    }
}
