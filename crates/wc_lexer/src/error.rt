//! Why a text has no tokens.

ghost use Rattle.std.specs.Prelude.{◌≡◌};
ghost use Rattle.wc_lexer.specs.declared.error.LexError.TheVariants.{OutOfMemory};

use std::alloc::{AllocError, AllocFailed};
use thiserror::Error;

/// Why a text has no tokens: the first place from the left where none goes on.
#[derive(Clone, Copy, Debug, PartialEq, Eq, Error)]
pub enum LexError {
    /// Memory ran out.
    #[error("out of memory")]
    OutOfMemory,
    /// No token begins at this offset, or the backslash there begins no escape.
    #[error("bad character at {0}")]
    BadChar(u32),
    /// The line or the text ends before the closing quote of the text that is opened at this offset.
    #[error("open text at {0}")]
    OpenText(u32),
    /// The number at this offset is greater than 9223372036854775807.
    #[error("wide number at {0}")]
    WideNumber(u32),
}

impl From<AllocError> for LexError {
    ghost from_gives = { λ _ e. e ≡ OutOfMemory };

    fn from(_error: AllocError) -> LexError {
        LexError::OutOfMemory
    }
}

impl<T: Drop> From<AllocFailed<T>> for LexError {
    ghost from_gives = { λ _ e. e ≡ OutOfMemory };

    fn from(_error: AllocFailed<T>) -> LexError {
        LexError::OutOfMemory
    }
}
