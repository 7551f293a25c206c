//! Changes of a world as bytes, and the bytes of its snapshot.
#![tactic(auto)]

mod error;
mod fields;
mod laws;
mod library;
mod parts;
mod pieces;
mod put;
mod reading;
mod snapshot;
mod writing;

pub use error::RecordError;
pub use laws::{
    reading_has_an_answer, reading_has_one_answer, what_is_read_is_written, what_is_written_is_read,
};
pub use library::SharedLibraries;
pub use reading::read_changes;
pub use snapshot::write_snapshot;
pub use writing::write_changes;
