//! What a journal refuses.

use std::alloc::{AllocError, AllocFailed};
use thiserror::Error;
use wc_io::Failed;

/// What stands where a journal should go on.
#[derive(Clone, Copy, Debug, PartialEq, Eq)]
pub enum Found {
    /// Another byte.
    Byte(u8),
    /// The end of the image.
    End,
}

/// Why a journal was not read or written.
#[derive(Debug, Drop, Error)]
pub enum JournalError {
    /// The disk failed.
    #[error("the disk failed")]
    DiskFault,
    /// The image is no journal from this offset on, where this was found.
    #[error("damaged at {0}")]
    Damaged(u64, Found),
    /// The bytes would be so many, which is more than the limit.
    #[error("full: {0} of {1} bytes")]
    Full(u64, u64),
    /// Memory ran out.
    #[error("out of memory")]
    OutOfMemory,
}

impl From<Failed> for JournalError {
    ghost use Rattle.std.specs.Prelude.{◌≡◌};
    ghost use Rattle.wc_journal.specs.declared.error.JournalError.TheVariants.{DiskFault};

    ghost from_gives = { λ _ e. e ≡ DiskFault };

    fn from(_error: Failed) -> JournalError {
        JournalError::DiskFault
    }
}

impl From<AllocError> for JournalError {
    ghost use Rattle.std.specs.Prelude.{◌≡◌};
    ghost use Rattle.wc_journal.specs.declared.error.JournalError.TheVariants.{OutOfMemory};

    ghost from_gives = { λ _ e. e ≡ OutOfMemory };

    fn from(_error: AllocError) -> JournalError {
        JournalError::OutOfMemory
    }
}

impl<T: Drop> From<AllocFailed<T>> for JournalError {
    ghost use Rattle.std.specs.Prelude.{◌≡◌};
    ghost use Rattle.wc_journal.specs.declared.error.JournalError.TheVariants.{OutOfMemory};

    ghost from_gives = { λ _ e. e ≡ OutOfMemory };

    fn from(_error: AllocFailed<T>) -> JournalError {
        JournalError::OutOfMemory
    }
}
