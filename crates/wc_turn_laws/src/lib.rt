//! Laws of one turn: that a turn of a consistent world comes to one list of changes, what a run sees of what was before it, what one
//! advance of an outline does beside the run of the whole, and that calculations with equal keys run alike.
#![tactic(auto)]

mod calculations;
mod outlines;
mod runs;
mod turns;

pub use calculations::equal_keys_run_alike;
pub use outlines::{advances_are_exact, advances_keep_order, advances_number_calls};
pub use runs::{
    calls_are_under_their_labels, equal_trees_end_alike, runs_see_numbers, values_forget_numbers,
};
pub use turns::{one_list_of_changes, one_source};
