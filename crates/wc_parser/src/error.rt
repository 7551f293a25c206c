//! Why a text is no library's.

use thiserror::Error;
use wc_lexer::LexError;

/// Why a text is no library's.
#[derive(Clone, Copy, Debug, PartialEq, Eq, Error)]
pub enum ParseError {
    /// Memory ran out.
    #[error("out of memory")]
    OutOfMemory,
    /// The text, or the printed text of its library, has more than 1,048,576 bytes.
    #[error("too long")]
    TooLong,
    /// The text has no tokens.
    #[error("{0}")]
    Lex(LexError),
    /// The token at this offset nests too deep, or makes its statement too heavy.
    #[error("too deep at {0}")]
    TooDeep(u32),
    /// The token at this offset is the first with which no library's tokens go on.
    #[error("unexpected at {0}")]
    Unexpected(u32),
    /// The tokens are a library's first tokens, and not all of them.
    #[error("end of text")]
    EndOfText,
}
