//! What words ask for, by what the files of a shelf say, before a disk is touched: a reply, or a deed. And how a reply is written.
#![tactic(auto)]

mod commands;
mod deed;
mod error;
mod further;
mod given;
mod laws;
mod libraries;
mod plans;
mod reply;
mod settings;
mod status;
mod submission;
mod text;

pub use commands::Trial;
pub use deed::{Asked, Begin, Deed, Plan, RunOptions, Shown, Work};
pub use error::PlanError;
pub use given::read_given;
pub use laws::{files_are_read_as_one_thing, names_on_are_as_settings_say};
pub use libraries::{Read, read_content};
pub use plans::plan;
pub use reply::{Reply, finish, print, refuse};
pub use settings::{names_on, read_settings_content};
pub use status::{Cause, Fault, Status};
pub use submission::{Invocation, Prepared, Submission, prepare};
pub use text::refusal_line;
