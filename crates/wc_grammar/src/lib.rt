//! The grammar of workflow files: how rules are joined, single tokens, and expressions.
#![tactic(auto)]

mod expressions;
mod fault;
pub mod kinds;
mod operators;
mod parts;
mod tokens;

pub use expressions::expr;
pub use fault::Fault;
pub use parts::member;
pub use tokens::{closed, flag, name, number, pick, sign, starts, text};
