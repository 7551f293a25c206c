//! Leases on processes: who may ask the transport for a process, and commit its turn.
#![tactic(auto)]

mod giving;
mod laws;
mod pool;
mod steps;

pub use giving::Why;
pub use laws::turns_leave_others;
pub use pool::{Lease, Pool, Seat};
