//! What is checked of a world: that its data provenance has no cycle, that each calculation is as its inputs give it, and
//! that jobs with equal requests have equal results.
#![tactic(auto)]

mod cycle;
mod disagreement;
mod ends;
mod firsts;
mod givers;
mod jobs;
mod laws;
mod recorded;
mod values;

pub use cycle::find_cycle;
pub use disagreement::find_disagreement;
pub use firsts::Firsts;
pub use givers::last_recorded_givers;
pub use jobs::{find_disagreement_among, recorded_result};
pub use laws::{found_faults_are_one, sound_worlds_have_no_fault};
pub use values::find_wrong_value;
pub use wc_fits::library_at;
