//! The rules of a checked library: a library is taken where it meets them, and refused at the first place where it doesn't.
#![tactic(auto)]

mod best;
mod called;
mod calls;
mod error;
mod files;
mod findings;
mod heads;
mod laws;
mod lengths;
mod mentions;
mod names;
mod parts;
mod pieces;
mod places;
mod repeats;
mod rules;
mod scopes;
mod statuses;

pub use error::CheckError;
pub use findings::{check, first_finding, share};
pub use laws::{
    first_refusal_is_one, offsets_break_no_rule, rules_are_kept_where_nothing_is_found,
};
