//! Gated batches: what was acknowledged stays, whatever crash cuts a write.
#![tactic(auto)]

mod batch;
mod batches;
mod calls;
mod error;
mod image;
mod journal;
mod laws;
mod steps;

pub use batch::Batch;
pub use batches::Batches;
pub use error::{Found, JournalError};
pub use journal::{Journal, Loaded};
pub use laws::an_image_holds_what_it_spells;
