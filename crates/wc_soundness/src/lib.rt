//! Laws of single events and of what a world records: what an event that touches one process leaves, what recorded results and agreeing tables
//! say of a sound world, and what it means there to take another calculation's outcome.
//!
//! Whatever happens to a sound world, in whatever order, keeps it sound: marks and tasks of jobs, ends of calculations, turns of work chains,
//! bindings and kills. An event has its list of changes, and a world that accepted changes make accepts them, sound or not. Small worlds stand
//! written out by hand: what the machine makes of them, and which are not sound.
#![tactic(auto)]

mod accepted;
mod bindings;
mod caching;
mod ends;
mod events;
mod going_on;
mod jobs;
mod kills;
mod lists;
mod results;
mod sets;
mod small_worlds;
mod submits;
mod touches;
mod tracks;
mod waits;

pub use accepted::{events_are_accepted, events_are_plain, events_keep_order};
pub use bindings::{binding_is_the_runs, bindings_keep_sound};
pub use caching::{
    any_submission_keeps_sound, beginnings_are_accepted, beginnings_continue,
    beginnings_keep_sound, clones_are_accepted, clones_continue, clones_keep_sound,
    created_functions_keep_sound, created_turns_go_well, given_comes, given_stays,
    outputs_are_inputs, rule_is_stable,
};
pub use ends::{advances_end_alive, ends_of_chains_keep_sound};
pub use events::{
    all_events_keep_sound, events_keep_sound, what_may_happen_keeps_sound,
    whatever_happens_is_sound,
};
pub use going_on::{advances_stay_inside, advances_stay_low, turns_of_chains_keep_sound};
pub use jobs::{
    ends_are_safe, faulting_jobs_are_safe, live_ends_are_accepted, live_ends_touch, marks_are_kept,
    marks_are_safe, moves_are_accepted, moves_are_safe, moves_touch, parses_are_safe,
    retrieved_is_free, retrieved_stays, tasks_are_safe, waiting_jobs_ask,
};
pub use kills::{kills_keep_sound, single_kills_keep_sound};
pub use lists::{
    events_have_changes, killed_fuel_is_kept, kills_set_each_once, only_marks_change_nothing,
    sources_are_there, turns_have_changes,
};
pub use results::{
    each_process_has_a_table, later_tables_agree, one_meaning, one_result, plain_tables_exactly,
};
pub use sets::sets_keep_sound;
pub use small_worlds::{
    caching_goes, failures_go, fan_goes, fan_is_meant, fan_is_seen, kill_goes,
    wrong_worlds_are_unsound,
};
pub use submits::{
    called_are_sound, called_have_their_inputs, calls_make_these_worlds, chain_calls_are_accepted,
    chain_calls_touch, submitting_chains_keep_sound,
};
pub use touches::{
    ended_stay, ends_touch, others_stay_sound, submissions_touch, tables_narrow,
    touched_worlds_are_sound, touching_continues,
};
pub use tracks::{chains_stay_on_track, chains_stay_sound, loops_stay_on_track};
pub use waits::{calling_chains_stay_sound, calls_of_chains_keep_sound};
