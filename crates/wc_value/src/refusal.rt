//! Why bytes are not the canonical bytes of a value.

ghost use Rattle.std.specs.Prelude.{◌≡◌};
ghost use Rattle.wc_value.specs.declared.refusal.ValueError.TheVariants.{OutOfMemory};

use std::alloc::{AllocError, AllocFailed};
use thiserror::Error;

/// Why bytes are not the canonical bytes of a value: the first refusal that reading from the left meets, and the
/// offset where it is met.
#[derive(Debug, Drop, Error)]
pub enum ValueError {
    /// Memory ran out.
    #[error("out of memory")]
    OutOfMemory,
    /// Bytes are missing. The offset is the input's length.
    #[error("truncated at {0}")]
    Truncated(usize),
    /// A tag other than 1 to 6, or a truth value other than 0 and 1.
    #[error("bad tag at {0}")]
    BadTag(usize),
    /// A text that isn't UTF-8. The offset is that of its first content byte.
    #[error("not UTF-8 at {0}")]
    NotUtf8(usize),
    /// A key or name that isn't greater than the one before. The offset is that of its length.
    #[error("unsorted at {0}")]
    Unsorted(usize),
    /// The tag of a value inside 32 lists and dictionaries.
    #[error("too deep at {0}")]
    TooDeep(usize),
    /// A byte after the value.
    #[error("trailing bytes at {0}")]
    Trailing(usize),
}

impl From<AllocError> for ValueError {
    ghost from_gives = { λ _ e. e ≡ OutOfMemory };

    fn from(_error: AllocError) -> ValueError {
        ValueError::OutOfMemory
    }
}

impl<T: Drop> From<AllocFailed<T>> for ValueError {
    ghost from_gives = { λ _ e. e ≡ OutOfMemory };

    fn from(_error: AllocFailed<T>) -> ValueError {
        ValueError::OutOfMemory
    }
}
