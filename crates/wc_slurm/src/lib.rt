//! What is said to a scheduler and by it: the scripts of jobs, the lines of its answers, which folders were asked about since, the run that
//! made a lock, and the exit code that an end leaves. No file is touched here, and no program is started.
#![tactic(auto)]

mod batch;
mod end;
mod lines;
mod options;
mod queue;
mod quoting;
mod rounds;
mod run;
mod scheduler;
mod script;
mod submission;

pub use batch::batch_for;
pub use end::{End, end_in};
pub use lines::{field, lines_of};
pub use queue::Queue;
pub use quoting::quoted;
pub use rounds::look_at_all;
pub use run::{Told, code_under_lock, is_other_run, told_in};
pub use scheduler::Scheduler;
pub use script::script_of;
pub use submission::{OVER, Submission, TRY, submission_in};
