//! Queries: what chains of nodes a user asks for, read from the words of a command line.
//!
//! A query is a test of nodes, then links to follow with the test of the node behind them, any number of times. Which rows of a store match
//! one is said in `wc_matches`.
#![tactic(auto)]

mod error;
mod filters;
mod laws;
mod links;
mod names;
mod pieces;
mod query;
mod reading;

pub use error::QueryError;
pub use laws::words_are_read;
pub use query::{
    Field, Filter, Filters, Joins, LinkTest, MOST_NODES, NodeTest, Op, Operand, Query,
};
pub use reading::parse_query;
