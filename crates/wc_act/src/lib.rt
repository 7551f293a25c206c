//! What a deed does with the disks that hold a store, with a transport and a clock, and what is told of it.
#![tactic(auto)]

mod deeds;
mod drills;
mod error;
mod events;
mod init;
mod laws;
mod opened;
mod packs;
mod runs;
mod views;

pub use deeds::act;
pub use error::{ActError, ReplyError};
pub use laws::{
    deeds_keep_worlds_sound, empty_disks_hold_nothing, images_of_runs_are_brought,
    pairs_of_any_moments_are_kept, told_trees_are_meant, worlds_are_kept,
};
