//! Worker cores: each takes a lease on a ready process, asks the transport for it, and commits its turn, in three steps, and the steps of all
//! of them interleave.
#![tactic(auto)]

mod answers;
mod laws;
mod order;
mod runs;
mod steps;

pub use laws::{logs_hold, workers_take_turns, works_are_logs};
pub use runs::{run_by_workers, run_workers};
pub use steps::{Done, step};
pub use wc_pool::{Lease, Pool, Seat, Why};
pub use wc_runner::{RunEnd, RunError as WorkError};
