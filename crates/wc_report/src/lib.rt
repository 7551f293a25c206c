//! The texts of states, values, process trees and lists of processes, of `show` and `graph`, and the lines that tell what was
//! done to a store.
#![tactic(auto)]

mod graph;
mod lines;
mod list;
mod names;
mod numbered;
mod show;
mod tree;
mod value;

pub use graph::{graph_text, link_type_name};
pub use lines::{
    committed_text, cycle_text, damaged_text, full_text, initialised_text, killed_text, live_count,
    packed_text, paused_count, paused_text, playing_text, submitted_text, verified_text,
    wrong_value_text,
};
pub use list::{list_text, process_kind_name};
pub use names::{kind_name, reason_name, state_text};
pub use show::show_text;
pub use tree::tree_lines;
pub use value::value_text;
