//! Restart chains: the chain that a spec adds to a library, and why none is added.
#![tactic(auto)]

mod chain;
mod codes;
mod judging;
mod laws;
mod pieces;
mod ports;
mod statements;

pub use chain::chain_of;
pub use judging::misnamed;
pub use laws::worked_chain;
