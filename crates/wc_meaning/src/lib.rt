//! What definitions do: the meaning of a definition as a program.
//!
//! `dry` gives the tree that a definition has for its inputs under a table of results. `replay` gives the same at a depth and
//! with kills, and which results were taken. Both are held to `meaning`, of wc_semantics.
#![tactic(auto)]

mod calculations;
mod inputs;
mod kills;
mod replies;
mod run;
mod statements;
mod trees;

pub use calculations::rules;
pub use inputs::{find_bad_input, least_name, lesser_name};
pub use replies::{DryError, dry, replay};
pub use run::mean;
