//! One advance of a work chain, and the binding of the children that it awaited.
#![tactic(auto)]

mod advances;
mod answer;
mod arguments;
mod bindings;
mod blocks;
mod calls;
mod frames;
mod instructions;
mod keys;
mod nodes;
mod reads;
mod statements;

pub use advances::advance;
pub use bindings::bind;
pub use calls::{Advanced, Args, Argument, Call, Calls};
pub use reads::context_read;
pub use wc_turn_laws::one_list_of_changes;
