//! What one change of a world must fit: definitions, names, processes, calls and checkpoints; and what is looked up for it.
//!
//! Contracts see a world as lists. The tests take the graph, the records and the libraries, of which a world is made.
#![tactic(auto)]

mod blocks;
mod checkpoints;
mod conditions;
mod libraries;
mod processes;
mod values;

pub use checkpoints::set_fits;
pub use conditions::{call_fits, is_calculation, names_ascend, new_fits};
pub use libraries::{Known, Libraries, kind_of_definition, library_at};
pub use processes::{caller_of, is_call_from, is_settled, node_of_kind};
pub use values::{input_by, output_by, value_of};
