//! Worlds that are part of another, along a rising map of node numbers: what both record of a process is the same. And what the replay of a
//! process asks of a table.
//!
//! A world that was made of another's processes, or that was added to another, is such a part. So what a part tells of a process by its links,
//! its inputs and its calls, the whole tells of the process at its place.
#![tactic(auto)]

mod laws;

pub use laws::{parts_tell_the_same, replays_are_meant};
