//! What the engine asks of the outside for a job: to place its request, to start it, whether it has ended, and its result.
//!
//! The trait says its promise by ghost members, which an object may leave untold. Beside it stands its form in
//! memory, for tests and the drill, which knows each result from a table.
#![tactic(auto)]

mod error;
mod table;
mod transport;

pub use error::TaskError;
pub use table::{Busy, TableTransport};
pub use transport::{Progress, Transport};
