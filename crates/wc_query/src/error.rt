//! Why words are no query.

ghost use Rattle.std.specs.Prelude.{◌≡◌};
ghost use Rattle.wc_query.specs.declared.error.QueryError.TheVariants.{OutOfMemory};

use std::alloc::AllocError;
use thiserror::Error;

/// Why words are no query.
#[derive(Debug, Drop, Error)]
pub enum QueryError {
    /// There is no word, or their number is even.
    #[error("shape")]
    Shape,
    /// There are more than eight nodes.
    #[error("too long")]
    TooLong,
    /// The word at this place, counted from 0, isn't one of a node or of a link as its place asks.
    #[error("word {0}")]
    BadWord(u32),
    /// Memory ran out.
    #[error("out of memory")]
    OutOfMemory,
}

impl From<AllocError> for QueryError {
    ghost from_gives = { λ _ e. e ≡ OutOfMemory };

    fn from(_error: AllocError) -> QueryError {
        QueryError::OutOfMemory
    }
}
