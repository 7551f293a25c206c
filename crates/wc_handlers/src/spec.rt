//! What a spec file says.

use wc_value::{List, Text};

/// Exit statuses in the order of the file.
pub type Statuses = List<u32>;

/// Handlers in the order of the file.
pub type Handlers = List<Handler>;

/// What a handler does.
#[derive(Debug, Drop)]
pub enum Remedy {
    /// The function of this name makes the inputs of the next attempt.
    Call(Text),
    /// The chain ends with this exit status, of 100 to 9999 but 401 and 402.
    Abort(u32),
}

/// What is done where the job ends with one of these exit statuses.
#[derive(Debug, Drop)]
pub struct Handler {
    /// 1 to 16 statuses, each of 1 to 9999.
    pub statuses: Statuses,
    /// Of the handlers of one status the one with the highest priority decides; at most 1000.
    pub priority: u32,
    /// What is done.
    pub remedy: Remedy,
}

/// A chain that tries a job until it succeeds.
#[derive(Debug, Drop)]
pub struct Spec {
    /// The name of the chain.
    pub name: Text,
    /// The name of the job.
    pub job: Text,
    /// How often the job is tried at most, 1 to 5 times.
    pub most: u32,
    /// At most 16 handlers.
    pub handlers: Handlers,
}
