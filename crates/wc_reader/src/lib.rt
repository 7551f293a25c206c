//! The libraries that tokens stand for.
#![tactic(auto)]

mod definitions;
mod depth;
mod error;
mod outlines;
mod ports;
mod reader;
mod rules;
mod steps;

pub use depth::{too_deep, walk_names_the_first};
pub use error::ReadError;
pub use reader::{read, tokens_have_one_answer};
