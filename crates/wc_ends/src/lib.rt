//! A run that is given enough turns leaves no live process: what enough turns are, and the law.
#![tactic(auto)]

mod ends;

pub use ends::enough_turns_end_every_process;
pub use wc_runner::{
    RunEnd, RunError, TurnError, commit_changes, kill_changes, pause_changes, play_changes, run,
    submit_changes, turns_keep_sound, worlds_continue_themselves,
};
pub use wc_soundness::events_keep_sound;
