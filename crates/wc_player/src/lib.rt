//! Transcripts: which files there are, what the disks hold, what fails, which commands are called, and what each must answer. They are read from
//! a text and played: the program is called on a shelf, a sink, two disks, a transport and a clock in memory, and what it answers is compared
//! with what the transcript says.
#![tactic(auto)]

mod called;
mod clock;
mod content;
mod deed;
mod disks;
mod draft;
mod error;
mod findings;
mod items;
mod jobs;
mod kept;
mod machine;
mod mistake;
mod moves;
mod names;
mod number;
mod outside;
mod player;
mod program;
mod reader;
mod report;
mod row;
mod rows;
mod simple;
mod source;
mod steps;
mod sweep;

pub use clock::Clock;
pub use deed::Transcript;
pub use error::PlayError;
pub use findings::{Finding, Findings, Place};
pub use mistake::{Mistake, ReadError};
pub use outside::Outside;
pub use program::{Program, Sipping};
pub use reader::read_transcripts;
pub use report::{Report, Verdict, play};
