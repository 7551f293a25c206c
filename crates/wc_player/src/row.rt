//! Results of programs, as the transport brings them back.

use crate::content::Content;
use std::alloc::Global;
use wc_value::List;

/// Files, each the content of its name with its content.
pub type Named = List<(Content, Content)>;

/// What a program leaves, by what it is started with.
#[derive(Drop)]
pub struct Row {
    /// The program and its arguments.
    pub words: List<Content>,
    /// The files that it finds.
    pub files: Named,
    /// The names of the files to bring back.
    pub fetch: List<Content>,
    /// Its exit code.
    pub code: i64,
    /// The files that are brought back.
    pub left: Named,
}

impl Row {
    /// A program that finds and leaves no file, and ends well.
    pub fn new(alloc: Global, words: List<Content>) -> Row {
        Row {
            words,
            files: List::new(alloc),
            fetch: List::new(alloc),
            code: 0,
            left: List::new(alloc),
        }
    }
}
