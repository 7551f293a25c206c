//! Turns of processes on a store, one after another.
#![tactic(auto)]

mod error;
mod laws;
mod questions;
mod runs;
mod turns;

pub use error::RunError;
pub use laws::{
    continuing_goes_on, trails_come_to_turns, turns_are_batches, turns_bring_codes,
    turns_keep_sound, worlds_continue_themselves,
};
pub use runs::{RunEnd, run};
pub use turns::{answer_for, changes_of, commit_changes, turn_one};
pub use wc_core::{
    Next, Order, Standing, TurnError, kill_changes, next_turn, pause_changes, play_changes,
    standing_of, submit_changes,
};
