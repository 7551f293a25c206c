//! Caching: the key of a calculation, and the lowest calculation whose outcome a start with that key takes.
#![tactic(auto)]

mod keys;
mod laws;
mod lookup;
mod sources;

pub use laws::{equal_keys_are_equal, keys_are_of_one};
pub use lookup::{find, source_of};
pub use wc_trees::{definition_of, recorded_inputs, tree_of};
