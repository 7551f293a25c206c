//! A drill: a store made from a number, in which generated chains are submitted and run; with the library of these chains, the
//! numbers that are drawn for them, the table of their jobs, and the text of a drill.
#![tactic(auto)]

mod drills;
mod error;
mod inputs;
mod laws;
mod library;
mod numbers;
mod runs;
mod squares;
mod submissions;
mod text;

pub use drills::drill;
pub use error::DrillError;
pub use inputs::{chain_inputs, chain_name};
pub use laws::{drills_are_sound, pair_costs_seventeen};
pub use library::chain_library;
pub use numbers::{next_numbers, sum_of_squares};
pub use squares::square_table;
pub use text::drilled_text;
pub use wc_ends::{
    RunEnd, RunError, TurnError, events_keep_sound, kill_changes, pause_changes, play_changes, run,
    submit_changes, turns_keep_sound, worlds_continue_themselves,
};
