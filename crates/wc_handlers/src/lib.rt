//! What the file of a restart chain says: which job is tried, how often, and what handles its exit statuses.
#![tactic(auto)]

mod error;
mod keys;
mod laws;
mod names;
mod reading;
mod refusals;
mod spec;
mod values;

pub use error::RestartError;
pub use laws::worked_files;
pub use reading::read_spec;
pub use spec::{Handler, Handlers, Remedy, Spec, Statuses};
