//! Why bytes are not those of changes.

ghost use Rattle.std.specs.Prelude.{◌≡◌};
ghost use Rattle.wc_record.specs.Readers.{moved};
ghost use Rattle.wc_record.specs.declared.error.RecordError.TheVariants.{OutOfMemory};

use std::alloc::{AllocError, AllocFailed};
use thiserror::Error;
use wc_value::ValueError;

/// Why bytes are not those of changes: the first refusal that reading from the left meets, and the offset where it is
/// met.
#[derive(Clone, Copy, Debug, PartialEq, Eq, Error)]
pub enum RecordError {
    /// Memory ran out.
    #[error("out of memory")]
    OutOfMemory,
    /// Bytes are missing. The offset is the input's length.
    #[error("truncated at {0}")]
    Truncated(usize),
    /// A byte, or the first byte of a number, that may not stand there.
    #[error("bad tag at {0}")]
    BadTag(usize),
    /// A text that isn't UTF-8. The offset is that of its first content byte.
    #[error("not UTF-8 at {0}")]
    NotUtf8(usize),
    /// A key, name or label that isn't greater than the one before, or a key of a context that stands twice. The offset
    /// is that of its length.
    #[error("unsorted at {0}")]
    Unsorted(usize),
    /// The tag of a value inside 32 lists and dictionaries.
    #[error("too deep at {0}")]
    TooDeep(usize),
    /// A byte after the last change.
    #[error("trailing bytes at {0}")]
    Trailing(usize),
    /// The text of a library that doesn't parse and check, or isn't its own printed text. The offset is that of its
    /// first content byte.
    #[error("bad library at {0}")]
    BadLibrary(usize),
}

impl From<AllocError> for RecordError {
    ghost from_gives = { λ _ e. e ≡ OutOfMemory };

    /// Memory ran out.
    fn from(_error: AllocError) -> RecordError {
        RecordError::OutOfMemory
    }
}

impl<T: Drop> From<AllocFailed<T>> for RecordError {
    ghost from_gives = { λ _ e. e ≡ OutOfMemory };

    /// Memory ran out before a value could be handed on.
    fn from(_error: AllocFailed<T>) -> RecordError {
        RecordError::OutOfMemory
    }
}

impl From<ValueError> for RecordError {
    ghost from_gives = { λ v e. e ≡ moved v };

    /// Why the bytes of a value are none of changes: the same refusal at the same byte.
    fn from(error: ValueError) -> RecordError {
        match error {
            ValueError::OutOfMemory => RecordError::OutOfMemory,
            ValueError::Truncated(at) => RecordError::Truncated(at),
            ValueError::BadTag(at) => RecordError::BadTag(at),
            ValueError::NotUtf8(at) => RecordError::NotUtf8(at),
            ValueError::Unsorted(at) => RecordError::Unsorted(at),
            ValueError::TooDeep(at) => RecordError::TooDeep(at),
            ValueError::Trailing(at) => RecordError::Trailing(at),
        }
    }
}
