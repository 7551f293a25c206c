//! What an archive file says, both ways: a root with all that it called and their data, as JSON.
#![tactic(auto)]

mod archive;
mod error;
mod file;
mod laws;
mod library;
mod members;
mod misread;
mod names;
mod nodes;
mod numbers;
mod parts;
mod writing;

pub use archive::{Archive, ArchiveLinks, ArchiveNode, ArchiveNodes, ArchiveProcess};
pub use error::ArchiveError;
pub use file::{archive_text, read_archive};
pub use laws::bytes_are_of_one_archive;
