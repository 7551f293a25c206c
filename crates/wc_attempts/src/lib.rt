//! What a restart chain comes to: the attempts at its job, and that its meaning is theirs.
#![tactic(auto)]

mod laws;

pub use laws::{inputs_in_order, restarted_chain, worked_attempts, worked_chains};
