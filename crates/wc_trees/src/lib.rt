//! What a world records of a process: its tree, its environment, its definition and its inputs; and where the links from it stand.
#![tactic(auto)]

mod environments;
mod laws;
mod linked;
mod outputs;
mod recorded;
mod trees;

pub use environments::{env_in, env_of};
pub use laws::{inputs_are_linked, outputs_are_linked, recorded_trees_unfold};
pub use linked::places_from;
pub use recorded::{definition_of, recorded_inputs, text_of};
pub use trees::tree_of;
