//! Which rows of nodes match a query.
#![tactic(auto)]

mod found;
mod laws;
mod level;
mod masks;
mod nodes;
mod numbers;
mod rows;
mod search;
mod sets;
mod text;
mod ways;

pub use found::{Matches, answers};
pub use laws::{
    first_rows_are_one, last_level_matches, levels_go_on, names_are_read, rows_are_found,
};
pub use nodes::meets;
pub use rows::Rows;
pub use text::rows_text;
pub use wc_query::Query;
