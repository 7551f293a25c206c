//! The records of a world's processes, and which of them are ready.
//!
//! Contracts see records as a list and how many further ones take no memory.
#![tactic(auto)]

mod awaits;
mod change;
mod copies;
mod in_place;
mod index;
mod order;
mod places;
mod processes;
mod readiness;
mod ready;
mod records;
mod rounds;
mod window;

pub use change::{Kept, NewProcess, SetProcess};
pub use processes::{has_ended, started_in};
pub use records::Records;
