//! What an evaluation gives.

use wc_value::Reason;

/// What an evaluation gives: a value, or why there is none.
#[derive(Drop)]
pub enum Outcome<V> {
    /// The value.
    Gives(V),
    /// The first reason that was met.
    Faults(Reason),
}
