//! Why tokens are those of no library.

use thiserror::Error;

/// Why tokens are those of no library.
#[derive(Clone, Copy, Debug, PartialEq, Eq, Error)]
pub enum ReadError {
    /// Memory ran out.
    #[error("out of memory")]
    OutOfMemory,
    /// The token at this offset is the first with which no library's tokens go on.
    #[error("unexpected at {0}")]
    Unexpected(u32),
    /// The tokens are a library's first tokens, and not all of them.
    #[error("end of text")]
    EndOfText,
}
