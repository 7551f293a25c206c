//! What is said of one process by a change.

use wc_state::{Part, ProcessKind};
use wc_value::{ProcessState, Text};

/// A new process, which is created and has had no turn.
#[derive(Drop)]
pub struct NewProcess {
    /// What kind of definition it runs.
    pub kind: ProcessKind,
    /// The name of the definition.
    pub definition: Text,
    /// The number of the library that has it, counted from 1.
    pub library: u32,
    /// 1 for a submitted process, and one more than its caller's for a called one.
    pub depth: u32,
    /// How its caller names it; empty for a submitted process.
    pub label: Text,
    /// Whether it may take an equal calculation's outcome.
    pub caching: bool,
}

/// What a process is from now on.
#[derive(Drop)]
pub struct SetProcess {
    /// The number of its node.
    pub pid: u32,
    /// Its state.
    pub state: ProcessState,
    /// Whether it has the pause mark.
    pub paused: bool,
    /// The calculation whose outcome it took, 0 for none.
    pub cached_from: u32,
    /// Loop turns, one for each bound child, and the fuel of each bound child; of a killed chain also those of the children that
    /// it awaited.
    pub fuel: u64,
    /// The exit code of the job's retrieved result.
    pub code: Option<i64>,
    /// Where it stands.
    pub part: Part,
}

/// The batches in which a process of a snapshot started and ended.
#[derive(Clone, Copy, PartialEq, Eq)]
pub struct Kept {
    /// The number of its node.
    pub pid: u32,
    /// The number of the batch in which it started, 0 before.
    pub started: u32,
    /// The number of the batch in which it ended, 0 before.
    pub ended: u32,
}
