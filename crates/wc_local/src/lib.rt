//! Jobs as programs of this machine, each in a folder of its own, by a script that `sh` runs once, here or on a
//! node of a cluster.
#![tactic(auto)]

mod local;
mod settlement;
mod slurm;
mod squeue;

pub use local::LocalTransport;
pub use wc_folders::{Failure, Fault};
