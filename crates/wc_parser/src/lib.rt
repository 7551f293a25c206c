//! The libraries of workflow files.
#![tactic(auto)]

mod error;
mod laws;
mod parser;

pub use error::ParseError;
pub use laws::{
    definitions_print_apart, files_are_writable, libraries_print_apart, printed_texts_read_back,
    texts_have_one_answer,
};
pub use parser::parse;
