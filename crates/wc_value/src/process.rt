//! What a process asks for, ends as and leaves.

use crate::list::List;
use crate::text::Text;
use crate::value::{Fields, Files, Words};

/// What a calculation job asks of the transport.
#[derive(Debug, Drop)]
pub struct Request {
    /// The program to start.
    pub program: Text,
    /// Its arguments, in order.
    pub args: Words,
    /// The files that it finds in its directory.
    pub files: Files,
    /// The names of the files to bring back.
    pub fetch: Words,
}

/// What the transport brings back from a job.
#[derive(Drop)]
pub struct JobResult {
    /// The program's exit code.
    pub code: i64,
    /// The files that were asked for and were there.
    pub files: Files,
}

/// Why a process excepted, or an expression has no value.
#[derive(Clone, Copy, Debug, PartialEq, Eq)]
pub enum Reason {
    /// A whole number beyond 64 bits.
    Overflow,
    /// A divisor of zero.
    DivideByZero,
    /// An input, key, index or file that isn't there.
    MissingKey,
    /// A value of another kind than asked.
    WrongKind,
    /// An output that a child lacks.
    NoOutput,
    /// A text that isn't what it should spell.
    BadText,
    /// A value past the limits of size or depth.
    TooLong,
    /// Calls nested too deep.
    Depth,
    /// An argument that isn't of its port's kind.
    BadInput,
}

/// The state of a process.
#[derive(Clone, Copy, Debug, PartialEq, Eq)]
pub enum ProcessState {
    /// Not started.
    Created,
    /// Started, and ready to go on.
    Running,
    /// Waiting for a task or for called processes.
    Waiting,
    /// Ended with an exit status; 0 is success.
    Finished(u32),
    /// Ended by a reason.
    Excepted(Reason),
    /// Ended by a kill.
    Killed,
}

/// Called processes by label, in order of their calls.
pub type Branches = List<(Text, Tree)>;

/// What a process did, with what it called.
#[derive(Drop)]
pub struct Tree {
    /// The name of its definition.
    pub definition: Text,
    /// The state that it ended in.
    pub state: ProcessState,
    /// Its outputs by label.
    pub outputs: Fields,
    /// What it called, each under its label.
    pub calls: Branches,
}
