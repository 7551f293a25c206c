//! The value of every expression of a workflow file.
//!
//! The definition that `eval` is held to is `val`, in `specs/`. It speaks of syntax, values, texts and whole numbers
//! alone: no offset, no node number and no limit of memory plays a part in it.
#![tactic(auto)]

mod contents;
mod expression;
mod laws;
mod lookups;
mod operators;
mod outcome;
mod texts;
mod whole;

pub use contents::{as_bool, find_item, is_of_kind};
pub use expression::{eval, eval_condition, eval_form};
pub use laws::{
    no_offsets, one_cut, one_division, one_equality, one_numeral, one_order, one_trim,
    texts_around, within_limits,
};
pub use lookups::{find_child, find_children};
pub use outcome::Outcome;
pub use whole::read_number;
