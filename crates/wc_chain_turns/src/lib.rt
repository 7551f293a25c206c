//! The turn of a work chain as changes of a world: one advance of its outline, or the binding of the children that it awaited.
#![tactic(auto)]

mod environment;
mod fuel;
mod turn;

pub use turn::chain_turn;
