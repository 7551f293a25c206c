//! Values as JSON, and JSON as values.
#![tactic(auto)]

mod error;
mod reading;
mod table;
mod writing;

pub use error::JsonError;
pub use reading::{Ports, fields_from_json, from_json};
pub use table::table_from_json;
pub use writing::to_json;
