//! The world on two disks: what was acknowledged stays, whatever crash cuts a write; with laws, among them that each question of a store has one answer.
#![tactic(auto)]

mod batches;
mod choice;
mod commit;
mod decided;
mod error;
mod laws;
mod load;
mod place;
mod replay;
mod store;
mod writes;

pub use decided::{
    changes_are_decided, images_hold_exactly_one_thing, images_hold_something, links_are_decided,
};
pub use error::StoreError;
pub use laws::{held_worlds_are_reached, images_hold_one_thing};
pub use place::Place;
pub use store::Store;
