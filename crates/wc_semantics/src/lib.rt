//! What calculations ask and give, what an outline does, and what a definition means.
//!
//! The definitions stand in `specs/`. `run` says what a list of instructions does with an amount of fuel, `meaning` which
//! tree a definition has for its inputs. They speak of syntax, values, tables of results and lists of kills alone: no process
//! number, frame, checkpoint, task, retry or cache plays a part in them.
#![tactic(auto)]

mod calculation_laws;
mod context;
mod laws;
mod outcomes;
mod progress;
mod requests;
mod rules;

pub use calculation_laws::calculations_use_no_offsets;
pub use context::{bind_child, label_of, set_key};
pub use laws::{
    asked_alone, asked_are_found, first_instruction, fuel, labels_differ, more_rows, no_offsets,
    one_after_another, passed_stop, rows_of_a_label, without_kills,
};
pub use outcomes::{Parsed, calculate, calculate_job, final_status, parse_result};
pub use progress::{
    Answer, Asked, Flow, Kills, MadeCalls, Plan, Planned, Progress, Replayed, Stepped,
};
pub use requests::request_of;
pub use rules::{environment, exit_status, fits, port_kind, takes};
