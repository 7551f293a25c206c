//! What is kept of a process.

ghost use Rattle.std.specs.Prelude.{◌≡◌, IfOk};
ghost use Rattle.wc_state.specs.Checkpoint.{first};

use crate::context::Context;
use std::alloc::{AllocError, Global};
use wc_value::{Keyed, List, ProcessState, Text};

/// Numbers of nodes.
pub type Ids = List<u32>;

/// What kind of definition a process runs.
#[derive(Clone, Copy, PartialEq, Eq)]
pub enum ProcessKind {
    /// A calculation function.
    Function,
    /// A calculation job.
    Job,
    /// A work chain.
    Chain,
}

/// What is asked of the transport next.
#[derive(Clone, Copy, PartialEq, Eq)]
pub enum Task {
    /// The request is to be placed.
    Upload,
    /// The program is to be started.
    Submit,
    /// Whether the program has ended is to be asked.
    Update,
    /// The result is to be brought back.
    Retrieve,
}

/// Where a job stands.
#[derive(Clone, Copy, PartialEq, Eq)]
pub struct JobPart {
    /// What is asked next.
    pub task: Task,
    /// How often it failed in a row, at most 5.
    pub fails: u8,
    /// The moment from which on it is asked, in milliseconds.
    pub due: u64,
}

/// A place in a block of an outline. Blocks are numbered in the order of their opening braces; the outline is block 0.
#[derive(Clone, Copy, PartialEq, Eq)]
pub struct Frame {
    /// The block.
    pub block: u32,
    /// The next instruction in it, counted from 0.
    pub next: u32,
}

/// The blocks that a work chain is in, the outline first.
pub type Frames = List<Frame>;

/// A process that a work chain waits for.
#[derive(Drop)]
pub struct Await {
    /// The key of the context that is to hold it.
    pub key: Text,
    /// Whether it joins a list at the key.
    pub append: bool,
    /// The number of the process.
    pub pid: u32,
}

/// Awaited processes, in order of submission.
pub type Awaits = List<Await>;

/// Data nodes by label, strictly ascending by the bytes of the labels.
pub type Outs = Keyed<u32>;

/// Where a work chain stands between two turns.
#[derive(Drop)]
pub struct Checkpoint {
    /// Its place in the outline.
    pub frames: Frames,
    /// What the keys of its context hold, in the order in which they were first set.
    pub ctx: Context,
    /// What it waits for.
    pub awaiting: Awaits,
    /// How many processes it has called.
    pub calls: u32,
    /// The outputs that were set so far.
    pub outputs: Outs,
}

impl Checkpoint {
    /// Where every work chain begins: at the head of its outline, with nothing set and nothing called.
    pub fn first(alloc: Global) -> Result<Checkpoint, AllocError>
        ensures { IfOk result (λ checkpoint. checkpoint ≡ first) }
    {
        let mut frames = Frames::new(alloc);
        frames.push(Frame { block: 0, next: 0 })?;
        Ok(Checkpoint {
            frames,
            ctx: Context::new(alloc),
            awaiting: Awaits::new(alloc),
            calls: 0,
            outputs: Outs::new(alloc),
        })
    }
}

/// What is kept of a process beside its state.
#[derive(Drop)]
pub enum Part {
    /// It hasn't had a turn.
    Fresh,
    /// A live work chain.
    Chain(Checkpoint),
    /// A job that waits for the transport.
    Job(JobPart),
    /// It has ended.
    Over,
}

/// What is kept of a process.
#[derive(Drop)]
pub struct ProcessRecord {
    /// The number of its node.
    pub node: u32,
    /// What kind of definition it runs.
    pub kind: ProcessKind,
    /// The name of the definition.
    pub definition: Text,
    /// The number of the library that has the definition, counted from 1.
    pub library: u32,
    /// 1 for a submitted process, and one more than its caller's for a called one.
    pub depth: u32,
    /// How its caller names it; empty for a submitted process.
    pub label: Text,
    /// Whether it may take an equal calculation's outcome.
    pub caching: bool,
    /// Its state.
    pub state: ProcessState,
    /// Whether it has the pause mark.
    pub paused: bool,
    /// The calculation whose outcome it took.
    pub cached_from: Option<u32>,
    /// Loop turns, one for each bound child, and the fuel of each bound child; of a killed chain also those of the children that
    /// it awaited.
    pub fuel: u64,
    /// The exit code of the job's retrieved result.
    pub code: Option<i64>,
    /// The number of the batch in which it started, 0 before.
    pub started: u32,
    /// The number of the batch in which it ended, 0 before.
    pub ended: u32,
    /// Where it stands.
    pub part: Part,
}

/// How large a store may grow, and how often a running job is asked.
#[derive(Clone, Copy, Debug, PartialEq, Eq)]
pub struct Limits {
    /// The most nodes.
    pub max_nodes: u32,
    /// The most bytes of a journal.
    pub max_bytes: u64,
    /// Milliseconds between two questions whether a job has ended.
    pub poll_ms: u64,
}

/// What a store is full of.
#[derive(Clone, Copy, Debug, PartialEq, Eq)]
pub enum What {
    /// Nodes of the provenance graph.
    Nodes,
    /// Bytes of the journal.
    Bytes,
    /// Batches of the journal.
    Batches,
    /// Generations of the journal.
    Generations,
}
