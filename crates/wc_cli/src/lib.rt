//! The words of the command line, and the command that they are.
#![tactic(auto)]

mod command;
mod line;
mod table;

pub use command::{Command, Given, Givens, View, command_of};
