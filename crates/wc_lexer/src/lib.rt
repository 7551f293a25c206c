//! The tokens of a workflow file.
#![tactic(auto)]

mod characters;
mod error;
mod lexer;
mod spellings;
mod token;

pub use error::LexError;
pub use lexer::tokens;
pub use spellings::{symbol_of, symbol_text, word_of, word_text};
pub use token::{Spot, Symbol, Token, TokenList, Word};
pub use wc_value::{Boxed, Kind, List, Text, Words};
