//! The turns of calculations as changes of a world: functions and jobs, with caching; and what follows an answer of the transport to a task of a job.
#![tactic(auto)]

mod changes;
mod courses;
mod start;
mod tasks;
mod turn;
mod wait;

pub use tasks::anew;
pub use turn::calculation_turn;
pub use wc_cache::{definition_of, recorded_inputs};
