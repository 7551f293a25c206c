//! The world that the journal keeps and every answer is read from, and the changes that it takes.
//!
//! Contracts see a world as lists (nodes, links, records, libraries with the names that have caching on), the number of
//! its batches, and the numbers of further items that take no memory.
#![tactic(auto)]

mod batches;
mod change;
mod checks;
mod copies;
mod draft;
mod effects;
mod error;
mod laws;
mod play;
mod played;
mod readiness;
mod settlement;
mod slots;
mod snapshots;
mod terms;
mod world;

pub use change::{Change, Changes};
pub use error::WorldError;
pub use laws::{
    changes_have_one_answer, links_stay_correct, reached_worlds_are_consistent,
    snapshots_give_the_world,
};
pub use played::Played;
pub use snapshots::is_in_order;
pub use wc_keys::Sealed;
pub use wc_records::{Kept, NewProcess, Records, SetProcess, has_ended};
pub use world::{Known, Libraries, World};
