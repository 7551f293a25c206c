//! The folder of a job, and that of all jobs: what is written there and read, when it is on the disk, whose it is, and why a task on it failed.
//! What the system does is trusted.
#![tactic(auto)]

mod fault;
mod file;
mod folder;
mod mark;
mod random;
mod shell;
mod starter;
mod submission;

pub use fault::{Failure, Fault};
pub use file::{
    append_line, content_in, folder_of, length_in, modified_in, place_file, remove_in, sync_names,
    write_file,
};
pub use folder::{
    has_ended, holds, is_alive, is_locked, make_lock, must_hold, note, place, put_code, result_of,
    sync_placed, tell_open,
};
pub use mark::claim;
pub use shell::output_of;
pub use starter::start;
pub use submission::{has_submission, new_name, place_name, put_number, put_over, submission_of};
