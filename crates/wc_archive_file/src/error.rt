//! Why a process isn't exported, or an archive isn't taken.

ghost use Rattle.std.specs.Prelude.{◌≡◌};
ghost use Rattle.wc_archive_file.specs.declared.error.ArchiveError.TheVariants.{OutOfMemory};

use std::alloc::{AllocError, AllocFailed};
use thiserror::Error;
use wc_state::What;

/// Why a process isn't exported, or an archive isn't taken.
#[derive(Debug, Drop, Error)]
pub enum ArchiveError {
    /// No process has this number.
    #[error("unknown process {0}")]
    UnknownProcess(u32),
    /// The process was called by another.
    #[error("archive not root {0}")]
    NotRoot(u32),
    /// The process hasn't ended.
    #[error("archive live {0}")]
    Live(u32),
    /// The two jobs asked the same and have different results.
    #[error("archive disagrees {0} {1}")]
    Disagrees(u32, u32),
    /// The bytes aren't those of an archive.
    #[error("archive malformed")]
    NotArchive,
    /// The link at this place, counted from 0, breaks a rule of links, or leads down where data goes into a calculation or comes
    /// out of one.
    #[error("archive bad link {0}")]
    BadLink(u32),
    /// The process with this number isn't placed as one that ended is, or is a second root; 0 where there is no process.
    #[error("archive bad node {0}")]
    BadNode(u32),
    /// The calculation with this number isn't what its inputs give.
    #[error("archive wrong value {0}")]
    WrongValue(u32),
    /// The work chain with this number isn't what its definition means.
    #[error("archive wrong tree {0}")]
    WrongTree(u32),
    /// The job of the archive with the first number and the process of the store with the second asked the same and have
    /// different results.
    #[error("archive conflict {0} {1}")]
    Conflict(u32, u32),
    /// The store would have so many of these, and more than the limit.
    #[error("full: {1} of {2}")]
    Full(What, u64, u64),
    /// Memory ran out.
    #[error("out of memory")]
    OutOfMemory,
}

impl From<AllocError> for ArchiveError {
    ghost from_gives = { λ _ e. e ≡ OutOfMemory };

    fn from(_error: AllocError) -> ArchiveError {
        ArchiveError::OutOfMemory
    }
}

impl<T: Drop> From<AllocFailed<T>> for ArchiveError {
    ghost from_gives = { λ _ e. e ≡ OutOfMemory };

    fn from(_error: AllocFailed<T>) -> ArchiveError {
        ArchiveError::OutOfMemory
    }
}
