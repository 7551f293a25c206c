//! Why a transcript can't be played.

use std::fmt::{self, Display, Formatter, Write};
use wc_value::TableError;

/// Why a transcript can't be played.
#[derive(Clone, Copy)]
pub enum PlayError {
    /// Memory ran out.
    OutOfMemory,
    /// A word of a command is no text.
    Word,
    /// A result stands twice.
    Twice,
}

impl Display for PlayError {
    fn fmt<W: Write>(&self, f: &mut Formatter<W>) -> fmt::Result {
        f.write_str(match self {
            PlayError::OutOfMemory => "out of memory",
            PlayError::Word => "a word is no text",
            PlayError::Twice => "a request has two results",
        })
    }
}

impl From<TableError> for PlayError {
    fn from(error: TableError) -> PlayError {
        match error {
            TableError::OutOfMemory => PlayError::OutOfMemory,
            TableError::Twice(_) => PlayError::Twice,
        }
    }
}
