//! A library with a restart chain added: `expand`.
#![tactic(auto)]

mod expanding;

pub use expanding::expand;
pub use wc_handlers::RestartError;
